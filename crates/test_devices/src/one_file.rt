//! Files in memory: `script` and `image` can be read, and `log` can be written.
ghost use Rattle.std.specs.Prelude.{None, false};

use dmlw_files::{FileError, FileFailure, Files};
use sector_disk::{Image, SectorDisk};
use std::alloc::Global;

/// The files `script` and `image` can be read, and both have the content `bytes`. The file `log`
/// can be written.
#[derive(Drop)]
pub struct OneFile<'a> {
    bytes: &'a [u8],
    /// A read fails if its limit is below this length, or below the number of `bytes`.
    pub length: u64,
    /// What was written to the file `log` last.
    pub log: Option<Vec<u8>>,
}

impl<'a> OneFile<'a> {
    /// Returns the files with these bytes; `length` is the number of bytes.
    pub fn new(bytes: &'a [u8]) -> OneFile<'a> {
        OneFile {
            bytes,
            length: bytes.len() as u64,
            log: None,
        }
    }
}

impl Files for OneFile<'_> {
    ghost contents = { λ _ _. None };

    ghost writes = { λ _. None };

    ghost has_failure = { λ _. false };

    fn read(&mut self, alloc: Global, name: &str, limit: u64) -> Result<Image, FileError> {
        let is_known = name == "script" || name == "image";
        if !is_known || self.length.max(self.bytes.len() as u64) > limit {
            return Err(FileError::Unusable);
        }
        Image::from_slice(alloc, self.bytes).map_err(|_| FileError::Memory)
    }

    fn write(&mut self, _alloc: Global, name: &str, disk: SectorDisk) -> Result<(), FileError> {
        if name != "log" {
            return Err(FileError::Unusable);
        }
        let bytes = disk.into_bytes().map_err(|_| FileError::Memory)?;
        self.log = Some(bytes);
        Ok(())
    }

    fn failure(&self) -> Option<&FileFailure> {
        None
    }

    fn is_same(&self, first: &str, second: &str) -> bool {
        first == second
    }
}
