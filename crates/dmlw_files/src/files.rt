//! Files that a command reads and writes by name, and why a call fails.
ghost use Rattle.std.specs.Prelude.{◌≡◌, ◌≤◌, Bool, IfErr, IfOk, List, OnErr, OnOk, Option, false};
ghost use Rattle.std.specs.Prelude.{is_some, length, true, ℕ};
ghost use Rattle.refusals.specs.Errors.{refused_by};
ghost use Rattle.dmlw_files.specs.Files.{FileIsWithin, KeepsFiles, MatchesContents, Write, file_error};
ghost use Rattle.dmlw_files.specs.Files.{file_refusal, image_of, with_write};

use refusals::{Refusal, RunError};
use sector_disk::{Image, SectorDisk};
use std::alloc::Global;
use std::io;
use thiserror::Error;

/// Why a file wasn't read or written.
#[derive(Clone, Copy, Debug, PartialEq, Eq, Error)]
pub enum FileError {
    /// The file can't be opened, read or written, or is too long.
    #[error("the file can't be read or written, or is too long")]
    Unusable,
    /// Memory ran out.
    #[error("no memory for the file")]
    Memory,
}

impl From<io::ErrorKind> for FileError {
    ghost from_gives = { λ kind error. error ≡ file_error kind };

    fn from(kind: io::ErrorKind) -> FileError {
        match kind {
            io::ErrorKind::OutOfMemory => FileError::Memory,
            _ => FileError::Unusable,
        }
    }
}

impl From<FileError> for Refusal {
    ghost from_gives = { λ error refusal. refusal ≡ file_refusal error };

    fn from(error: FileError) -> Refusal {
        match error {
            FileError::Unusable => Refusal::File,
            FileError::Memory => Refusal::Memory,
        }
    }
}

impl From<FileError> for RunError {
    ghost from_gives = { λ error fault. fault ≡ refused_by (file_refusal error) };

    fn from(error: FileError) -> RunError {
        RunError::from(Refusal::from(error))
    }
}

/// Why a file wasn't read or written, with the operating system's error.
#[derive(Debug, Drop)]
pub enum FileFailure {
    /// The file can't be read.
    Read(io::Error),
    /// The file is longer than allowed. The number is the length that the system reports. For a
    /// pipe or a device, the system reports less.
    TooLong(u64),
    /// The file can't be written.
    Write(io::Error),
}

/// The files that a command reads and writes, by name.
pub trait Files {
    /// What each file holds, if it is known.
    ghost contents: { Self → List ℕ → Option (List ℕ) };

    /// The writes that were asked for, in their order, if they are known.
    ghost writes: { Self → Option (List Write) };

    /// Whether `failure` returns a reason for the last call's failure.
    ghost has_failure: { Self → Bool };

    /// Returns all bytes of a file. Refuses a file of more than `limit` bytes. If a file is known
    /// to have at most `limit` bytes, the call fails only if memory runs out.
    fn read(&mut self, alloc: Global, name: &str, limit: u64) -> Result<Image, FileError>
        ensures contents { IfOk result
            (λ image. MatchesContents (contents self.old name.now) image) }
        ensures within { IfOk result (λ image. length image ≤ limit) }
        ensures readable { FileIsWithin limit (contents self.old name.now)
            → IfErr result (λ error. error ≡ FileError.Memory) }
        ensures kept { KeepsFiles (contents self.old) (contents self.new) }
        ensures writes { writes self.new ≡ writes self.old }
        // A success clears an earlier failure.
        ensures cleared { OnOk result (has_failure self.new ≡ false) };

    /// Replaces the file's bytes with the image of a disk. If this fails, no file changes. The call
    /// drops the disk, so it can take the image out of the disk piece by piece, without a second
    /// copy in memory.
    fn write(&mut self, alloc: Global, name: &str, disk: SectorDisk) -> Result<(), FileError>
        ensures holds { OnOk result (MatchesContents (contents self.new name.now) (image_of disk)) }
        ensures kept { OnErr result (KeepsFiles (contents self.old) (contents self.new)) }
        ensures writes { writes self.new ≡ with_write (writes self.old) name.now (image_of disk) }
        ensures cleared { OnOk result (has_failure self.new ≡ false) };

    /// Returns why the last read or write failed, if it failed and the reason is known.
    fn failure(&self) -> Option<&FileFailure>
        ensures { is_some result ≡ has_failure self.now };

    /// Returns whether both names are names of the same file.
    fn is_same(&self, first: &str, second: &str) -> bool
        ensures named { first.now ≡ second.now → result ≡ true }
        // If they are, what is known of both is the same.
        ensures held { result ≡ true
            → contents self.now first.now ≡ contents self.now second.now };
}

// A mutable reference to `Files` is `Files` too.
impl<F: Files> Files for &mut F {
    ghost contents = { λ files. F.contents files.now };

    ghost writes = { λ files. F.writes files.now };

    ghost has_failure = { λ files. F.has_failure files.now };

    fn read(&mut self, alloc: Global, name: &str, limit: u64) -> Result<Image, FileError> {
        Files::read(&mut **self, alloc, name, limit)
    }

    fn write(&mut self, alloc: Global, name: &str, disk: SectorDisk) -> Result<(), FileError> {
        Files::write(&mut **self, alloc, name, disk)
    }

    fn failure(&self) -> Option<&FileFailure> {
        Files::failure(&**self)
    }

    fn is_same(&self, first: &str, second: &str) -> bool {
        Files::is_same(&**self, first, second)
    }
}
