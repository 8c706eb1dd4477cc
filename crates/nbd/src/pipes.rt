//! Reads and writes whole pieces of a stream.
ghost use Rattle.std.specs.Prelude.{◌≡◌, ◌≢◌, Err, List, Ok, OnOk, length, ℕ};
ghost use Rattle.std.specs.Io.KnownBytes.{Appends, Consumes, IsAtEnd};

use crate::session::SessionEnd;
use dmlw_files::fill;
use std::io::{Read, Write};

// Bytes that are skipped are read in pieces of this length.
const SKIPPED_BYTES: usize = 4096;

// Fills a buffer from the input. Returns `InputEnded` if the input ends before.
pub(crate) fn take<I: Read>(input: &mut I, buffer: &mut [u8]) -> Result<(), SessionEnd>
    ensures filled { OnOk result
        (Consumes (I.remaining input.old) (I.remaining input.new) buffer.new) }
    ensures ended { result ≡ Err SessionEnd.InputEnded → IsAtEnd (I.remaining input.new) }
{
    match fill(input, buffer) {
        Ok(count) if count == buffer.len() => Ok(()),
        Ok(_) => Err(SessionEnd::InputEnded),
        Err(_) => Err(SessionEnd::InputFailed),
    }
}

// Fills a vector from the input, as `take` fills a buffer.
pub(crate) fn take_all<I: Read>(input: &mut I, bytes: &mut Vec<u8>) -> Result<(), SessionEnd>
    ensures filled { OnOk result
        (Consumes (I.remaining input.old) (I.remaining input.new) bytes.new.items) }
    ensures length { length bytes.new.items ≡ length bytes.old.items }
    ensures ended { result ≡ Err SessionEnd.InputEnded → IsAtEnd (I.remaining input.new) }
{
    take(input, bytes.as_mut_slice())
}

// Reads `count` bytes from the input, and drops them.
pub(crate) fn skip<I: Read>(input: &mut I, count: u64) -> Result<(), SessionEnd>
    ensures skipped { OnOk result ((bytes : List ℕ) × (length bytes ≡ count)
        × Consumes (I.remaining input.old) (I.remaining input.new) bytes) }
    ensures ended { result ≡ Err SessionEnd.InputEnded → IsAtEnd (I.remaining input.new) }
{
    let mut piece = [0; SKIPPED_BYTES];
    skip_by(input, count, &mut piece)
}

// Reads `count` bytes from the input, as many at a time as fit in `piece`, and drops them.
fn skip_by<I: Read>(input: &mut I, count: u64, piece: &mut [u8]) -> Result<(), SessionEnd>
    requires { length piece.old ≡ 4096 }
    ensures skipped { OnOk result ((bytes : List ℕ) × (length bytes ≡ count)
        × Consumes (I.remaining input.old) (I.remaining input.new) bytes) }
    ensures ended { result ≡ Err SessionEnd.InputEnded → IsAtEnd (I.remaining input.new) }
{
    let mut left = count;
    while left > 0 {
        let length = left.min(SKIPPED_BYTES as u64);
        take(input, &mut piece[..length as usize])?;
        left -= length;
    }
    Ok(())
}

pub(crate) fn send<O: Write>(output: &mut O, bytes: &[u8]) -> Result<(), SessionEnd>
    ensures sends { OnOk result
        (Appends (O.contents output.old) (O.contents output.new) bytes.now) }
    ensures not_ended { result ≢ Err SessionEnd.InputEnded }
{
    match output.write_all(bytes) {
        Ok(()) => Ok(()),
        Err(_) => Err(SessionEnd::OutputFailed),
    }
}
