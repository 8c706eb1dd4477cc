//! The output of a program whose reader may go away.
ghost use Rattle.std.specs.Prelude.{◌≡◌, IfOk, None, false, length, true};
ghost use Rattle.std.specs.Io.{WritesAtMost};
ghost use Rattle.std.specs.Io.KnownBytes.{WriteAppends};

use std::io;
use std::io::Write;

/// A writer whose reader may go away, such as a pipe. After that it drops what is written, and
/// reports no failure for it. As long as the reader is there, the count that a write returns is that
/// of the bytes that the writer took. Nothing else is proved about what the writer holds.
#[derive(Drop)]
pub struct Output<W: Write> {
    writer: W,
    is_closed: bool,
}

impl<W: Write> Output<W> {
    pub fn new(writer: W) -> Output<W>
        ensures open { result.is_closed ≡ false }
        ensures writer { result.writer ≡ writer }
    {
        Output {
            writer,
            is_closed: false,
        }
    }
}

impl<W: Write> Write for Output<W> {
    fn write(&mut self, buf: &[u8]) -> io::Result<usize>
        ensures bound { WritesAtMost result buf.now }
        ensures bytes { WriteAppends None None result buf.now }

        // As long as the output is open, the writer took exactly the bytes that are reported.
        ensures open { self.new.is_closed ≡ false →
            WriteAppends (W.contents self.old.writer) (W.contents self.new.writer) result buf.now }

        // An output that was closed stays so, takes all bytes, and leaves the writer.
        ensures closed { self.old.is_closed ≡ true → (self.new.is_closed ≡ true)
            × (self.new.writer ≡ self.old.writer) × IfOk result (λ count. count ≡ length buf.now) }
    {
        if self.is_closed {
            return Ok(buf.len());
        }
        match self.writer.write(buf) {
            Ok(count) => Ok(count),
            Err(error) => {
                if error.kind() != io::ErrorKind::BrokenPipe {
                    return Err(error);
                }
                self.is_closed = true;
                Ok(buf.len())
            }
        }
    }

    fn flush(&mut self) -> io::Result<()> {
        if self.is_closed {
            return Ok(());
        }
        match self.writer.flush() {
            Ok(()) => Ok(()),
            Err(error) => {
                if error.kind() != io::ErrorKind::BrokenPipe {
                    return Err(error);
                }
                self.is_closed = true;
                Ok(())
            }
        }
    }
}
