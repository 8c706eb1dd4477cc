//! Writes a regular file with holes: pieces of zeroes are skipped.
ghost use Rattle.std.specs.Prelude.{◌≡◌, None, IfOk, OnErr, OnOk, length, replicate, true};
ghost use Rattle.std.specs.Io.KnownBytes.{Appends, Keeps};

use std::alloc::{AllocError, Global};
use std::io;
use std::io::{Seek, SeekFrom, Write};

/// A writer that can append zeroes without writing them.
pub(crate) trait Skip: Write {
    /// Appends these zeroes without writing them.
    fn skip(&mut self, zeroes: &[u8]) -> io::Result<()>
        requires { zeroes.now ≡ replicate (length zeroes.now) 0 }
        ensures skipped { OnOk result
            (Appends (Self.contents self.old) (Self.contents self.new) zeroes.now) }
        ensures kept { OnErr result (Keeps (Self.contents self.old) (Self.contents self.new)) };
}

/// A new file. Nothing is proved about its content. Skipped zeroes are in the file once later bytes
/// are written, or once its length is set.
#[derive(Drop)]
pub(crate) struct NewFile<'a, F> {
    file: &'a mut F,
}

impl<'a, F: Write + Seek> NewFile<'a, F> {
    pub(crate) fn new(file: &'a mut F) -> NewFile<'a, F> {
        NewFile { file }
    }
}

impl<F: Write + Seek> Write for NewFile<'_, F> {
    fn write(&mut self, buf: &[u8]) -> io::Result<usize> {
        self.file.write(buf)
    }

    fn flush(&mut self) -> io::Result<()> {
        self.file.flush()
    }
}

impl<F: Write + Seek> Skip for NewFile<'_, F> {
    fn skip(&mut self, zeroes: &[u8]) -> io::Result<()> {
        let _position = self.file.seek(SeekFrom::Current(zeroes.len() as i64))?;
        Ok(())
    }
}

/// A writer that skips a piece if it is zeroes and has at most `zeroes.len()` bytes, and writes
/// other pieces.
#[derive(Drop)]
pub(crate) struct Holes<W> {
    writer: W,
    zeroes: Vec<u8>,
    ghost blank: { zeroes.items ≡ replicate (length zeroes.items) 0 },
}

impl<W: Skip + Drop> Holes<W> {
    pub(crate) fn new(alloc: Global, writer: W, count: usize) -> Result<Holes<W>, AllocError>
        ensures { IfOk result (λ holes. W.contents holes.writer ≡ W.contents writer) }
    {
        let zeroes = vec![in alloc; 0; count]?;
        Ok(Holes { writer, zeroes })
    }

    // Returns whether the bytes are zeroes, and are few enough to be skipped.
    fn skips(&self, bytes: &[u8]) -> bool
        ensures { result ≡ true → bytes.now ≡ replicate (length bytes.now) 0 }
    {
        bytes.len() <= self.zeroes.len() && bytes == &self.zeroes[..bytes.len()]
    }
}

impl<W: Skip + Drop> Write for Holes<W> {
    ghost contents = { λ holes. W.contents holes.writer };

    fn write(&mut self, buf: &[u8]) -> io::Result<usize> {
        if !self.skips(buf) {
            return self.writer.write(buf);
        }
        self.writer.skip(buf)?;
        Ok(buf.len())
    }

    fn flush(&mut self) -> io::Result<()> {
        self.writer.flush()
    }
}
