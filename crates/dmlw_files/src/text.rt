//! Reads a script's text from a file: at most 4 MiB.
ghost use Rattle.std.specs.Prelude.{◌≡◌, ◌≤◌, IfErr, IfOk, length};
ghost use Rattle.dmlw_files.specs.declared.files.FileError.{FileError};
ghost use Rattle.dmlw_files.specs.Files.{FileIsWithin, KeepsFiles, MatchesContents};

use crate::files::{FileError, Files};
use std::alloc::Global;

/// A script has at most this many bytes.
pub const MAX_SCRIPT_BYTES: u64 = 4_194_304;

/// Returns the bytes of a script's file. Refuses a file that has more than 4,194,304 bytes, or
/// can't be read.
pub fn read_text<F: Files>(alloc: Global, script: &str, files: &mut F) -> Result<Vec<u8>, FileError>
    ensures contents { IfOk result
        (λ text. MatchesContents (F.contents files.old script.now) text.items) }
    ensures within { IfOk result (λ text. length text.items ≤ 4194304) }
    ensures readable { FileIsWithin 4194304 (F.contents files.old script.now)
        → IfErr result (λ error. error ≡ FileError.Memory) }
    ensures kept { KeepsFiles (F.contents files.old) (F.contents files.new) }
    ensures unwritten { F.writes files.new ≡ F.writes files.old }
{
    let text = files.read(alloc, script, MAX_SCRIPT_BYTES)?;
    match text.into_vec(alloc) {
        Ok(text) => Ok(text),
        Err(_) => Err(FileError::Memory),
    }
}
