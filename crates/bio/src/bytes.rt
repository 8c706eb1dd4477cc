//! The data of a request and the text of a mark: bytes that clones can share.
ghost use Rattle.std.specs.Prelude.{◌≡◌, ◌==◌, IfOk, length, take};
ghost use Rattle.bio.specs.inside.{stored};

use std::alloc::AllocError;
use std::marker::Model;
use std::sync::Arc;

/// A list of bytes, such as a request's data or a mark's text. Contracts see it as that list.
///
/// Shared bytes are in memory once: a clone shares them. `from_vec` makes bytes with one owner: a
/// clone copies them, and clones of the copy share the copy.
#[derive(Debug, Drop)]
pub struct Bytes {
    storage: Storage,
}

// The memory of the bytes.
#[derive(Debug, Drop)]
enum Storage {
    // A vector with one owner.
    Alone(Vec<u8>),
    // The first bytes of a vector, and their count. Clones and prefixes share the vector.
    Shared(Arc<Vec<u8>>, usize),
}

impl Model for Bytes {
    ghost use Rattle.std.specs.Prelude.{List, ℕ};
    ghost use Rattle.bio.specs.inside.{stored};

    ghost Value = { List ℕ };

    ghost view = { λ b. stored b.storage };
}

impl Bytes {
    /// Makes bytes of a vector. Takes no memory.
    pub fn from_vec(bytes: Vec<u8>) -> Bytes
        ensures { result ≡ bytes.items }
    {
        Bytes {
            storage: Storage::Alone(bytes),
        }
    }

    /// Returns the same bytes as shared bytes, so that their clones take no memory. Takes memory
    /// for a few words, or none if the bytes are shared already.
    pub fn into_shared(self) -> Result<Bytes, AllocError>
        ensures { IfOk result (λ shared. shared ≡ self) }
    {
        let Bytes { storage } = self;
        Ok(Bytes {
            storage: match storage {
                Storage::Alone(bytes) => share(bytes)?,
                shared => shared,
            },
        })
    }

    /// Returns the vector. If a clone or a prefix that shares the bytes still exists, they are
    /// copied; otherwise takes no memory.
    pub fn into_vec(self) -> Result<Vec<u8>, AllocError>
        ensures { IfOk result (λ bytes. bytes.items ≡ self) }
    {
        let Bytes { storage } = self;
        match storage {
            Storage::Alone(bytes) => Ok(bytes),
            Storage::Shared(bytes, length) => {
                let mut bytes = Arc::unwrap_or_clone(bytes)?;
                bytes.truncate(length);
                Ok(bytes)
            }
        }
    }

    pub fn as_slice(&self) -> &[u8]
        ensures { result.now ≡ self.now }
    {
        match &self.storage {
            Storage::Alone(bytes) => bytes.as_slice(),
            Storage::Shared(bytes, length) => &bytes.as_slice()[..(*length).min(bytes.len())],
        }
    }

    /// Returns the first `length` bytes, or all if there are fewer. If the bytes are shared, takes
    /// no memory; otherwise all of them are copied first.
    pub fn prefix(&self, length: usize) -> Result<Bytes, AllocError>
        ensures { IfOk result (λ prefix. prefix ≡ take length self.now) }
    {
        let mut storage = self.clone()?.storage;
        match &mut storage {
            Storage::Alone(bytes) => bytes.truncate(length),
            Storage::Shared(_, shown) => *shown = (*shown).min(length),
        }
        Ok(Bytes { storage })
    }

    pub fn len(&self) -> usize
        ensures { result ≡ length self.now }
    {
        self.as_slice().len()
    }

    pub fn is_empty(&self) -> bool
        ensures { result ≡ (length self.now == 0) }
    {
        self.as_slice().is_empty()
    }
}

// Moves the vector into shared storage.
fn share(bytes: Vec<u8>) -> Result<Storage, AllocError>
    ensures { IfOk result (λ shared. stored shared ≡ bytes.items) }
{
    let alloc = bytes.allocator().clone()?;
    let length = bytes.len();
    Ok(Storage::Shared(Arc::new(alloc, bytes)?, length))
}

impl Clone for Bytes {
    ghost is_clone = { λ from to. to ≡ from };

    /// Returns the same bytes. If the bytes are shared or empty, takes no memory; otherwise copies
    /// them, and clones of the copy share the copy.
    fn clone(&self) -> Result<Bytes, AllocError>
        ensures { IfOk result (λ copy. copy ≡ self.now) }
    {
        let storage = match &self.storage {
            Storage::Alone(bytes) if bytes.is_empty() => Storage::Alone(bytes.clone()?),
            Storage::Alone(bytes) => share(bytes.clone()?)?,
            Storage::Shared(bytes, length) => Storage::Shared(bytes.clone()?, *length),
        };
        Ok(Bytes { storage })
    }
}
