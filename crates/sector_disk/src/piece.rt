//! A piece of an image, stored in the way that takes less memory.
ghost use Rattle.std.specs.Prelude.{◌≡◌, ◌+◌, ◌++◌, ◌<◌, ◌≤◌, ◌%◌, IfOk, IfSome, OnOk, drop, length, take, true};

use crate::filled::{FilledBytes, count_before};
use crate::packed::{PackedSectors, packed_size};
use std::alloc::{AllocError, Global};
use std::marker::Model;

// The ways to store a piece.
#[derive(Debug, Drop)]
enum StoredPiece {
    Filled(FilledBytes),
    Packed(PackedSectors),
}

/// A list of up to 65,536 bytes. A repeated byte at the end is stored once, or one for each sector
/// if that at least halves the memory.
#[derive(Debug, Drop)]
pub struct Piece {
    held: StoredPiece,
}

impl Model for Piece {
    ghost use Rattle.std.specs.Prelude.{List, ℕ};

    ghost Value = { List ℕ };

    ghost use Rattle.sector_disk.specs.inside.Pieces.{held_bytes};

    ghost view = { λ p. held_bytes p.held };
}

impl Piece {
    /// Makes a piece of the bytes of a slice.
    ///
    /// # Errors
    ///
    /// An allocation fails.
    pub fn from_slice(alloc: Global, bytes: &[u8]) -> Result<Piece, AllocError>
        requires { length bytes.now ≤ 65536 }
        ensures { IfOk result (λ copy. copy ≡ bytes.now) }
    {
        let fill = bytes.last().copied().unwrap_or(0);
        let end = count_before(bytes, fill);
        let held = match packed_size(bytes, end / 2) {
            Some(size) => StoredPiece::Packed(PackedSectors::from_slice(alloc, bytes, size)?),
            None => StoredPiece::Filled(FilledBytes::from_filled(alloc, bytes, end, fill)?),
        };
        Ok(Piece { held })
    }

    /// Reads bytes from byte `from` on, if the piece has them and stores them as they are. Returns
    /// whether this is so.
    pub fn read_run(&self, from: usize, buffer: &mut [u8]) -> bool
        ensures within { result ≡ true → from + length buffer.old ≤ length self.now }
        ensures read { result ≡ true → buffer.new ≡ take (length buffer.old) (drop from self.now) }
    {
        match &self.held {
            StoredPiece::Filled(bytes)
                if from <= bytes.len() && buffer.len() <= bytes.len() - from => {
                bytes.read(from, buffer);
                true
            }
            _ => false,
        }
    }

    /// Returns the `count` bytes from byte `from` on, if they are stored as they are.
    pub fn stored(&self, from: usize, count: usize) -> Option<&[u8]>
        ensures within { IfSome result (λ part. from + count ≤ length self.now) }
        ensures part { IfSome result (λ part. part.now ≡ take count (drop from self.now)) }
    {
        match &self.held {
            StoredPiece::Filled(bytes) => bytes.stored(from, count),
            StoredPiece::Packed(_) => None,
        }
    }

    /// Reads the sector that begins at byte `from`.
    pub fn read_sector(&self, from: usize, buffer: &mut [u8])
        requires sector { length buffer.old ≡ 512 }
        requires place { from % 512 ≡ 0 }
        requires within { from + 512 ≤ length self.now }
        ensures { buffer.new ≡ take 512 (drop from self.now) }
    {
        match &self.held {
            StoredPiece::Filled(bytes) => bytes.read(from, buffer),
            StoredPiece::Packed(sectors) => sectors.read_sector(from, buffer),
        }
    }

    /// Appends the bytes to a vector. If an allocation fails, a prefix of the bytes may be
    /// appended.
    ///
    /// # Errors
    ///
    /// An allocation fails.
    pub fn append_to(&self, to: &mut Vec<u8>) -> Result<(), AllocError>
        requires { length to.old.items + length self.now < 18446744073709551616 }
        ensures { OnOk result (to.new.items ≡ to.old.items ++ self.now) }
    {
        match &self.held {
            StoredPiece::Filled(bytes) => bytes.append_to(to),
            StoredPiece::Packed(sectors) => sectors.append_to(to),
        }
    }
}
