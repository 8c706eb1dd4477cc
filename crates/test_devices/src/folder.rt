//! Files in memory, by their names.
ghost use Rattle.std.specs.Prelude.{None, false};

use dmlw_files::{FileError, FileFailure, Files};
use sector_disk::{Image, SectorDisk};
use std::alloc::{AllocError, Global};

// A file of the folder.
#[derive(Drop)]
struct Named {
    name: String,
    bytes: Vec<u8>,
}

/// Files in memory, by their names. Files whose names begin with `fixed` can't be written.
#[derive(Drop)]
pub struct Folder {
    files: Vec<Named>,
}

impl Folder {
    /// Returns a folder without files.
    pub fn new(alloc: Global) -> Folder {
        Folder {
            files: Vec::new(alloc),
        }
    }

    /// Returns the bytes of the file `name`, if it exists.
    pub fn bytes(&self, name: &str) -> Option<&[u8]> {
        let file = self.files.iter().find(|file| file.name.as_str() == name)?;
        Some(&file.bytes)
    }

    /// Creates or replaces the file `name`.
    pub fn put(&mut self, alloc: Global, name: &str, bytes: Vec<u8>) -> Result<(), AllocError> {
        let name = String::from_str(alloc, name)?;
        self.remove(name.as_str());
        self.files.push(Named { name, bytes })?;
        Ok(())
    }

    /// Removes the file `name`, if it exists.
    pub fn remove(&mut self, name: &str) {
        self.files.retain(|file| file.name.as_str() != name);
    }
}

impl Files for Folder {
    ghost contents = { λ _ _. None };

    ghost writes = { λ _. None };

    ghost has_failure = { λ _. false };

    fn read(&mut self, alloc: Global, name: &str, limit: u64) -> Result<Image, FileError> {
        let Some(bytes) = self.bytes(name) else {
            return Err(FileError::Unusable);
        };
        if bytes.len() as u64 > limit {
            return Err(FileError::Unusable);
        }
        Image::from_slice(alloc, bytes).map_err(|_| FileError::Memory)
    }

    fn write(&mut self, alloc: Global, name: &str, disk: SectorDisk) -> Result<(), FileError> {
        if name.starts_with("fixed") {
            return Err(FileError::Unusable);
        }
        let bytes = disk.into_bytes().map_err(|_| FileError::Memory)?;
        self.put(alloc, name, bytes).map_err(|_| FileError::Memory)
    }

    fn failure(&self) -> Option<&FileFailure> {
        None
    }

    fn is_same(&self, first: &str, second: &str) -> bool {
        first == second
    }
}
