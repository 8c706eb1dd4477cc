//! Whole sectors, each stored without the bytes at the sector's end that repeat the byte before
//! them.
ghost use Rattle.std.specs.Prelude.{◌≡◌, ◌+◌, ◌++◌, ◌<◌, ◌≤◌, ◌%◌, IfOk, IsSome, OnOk, drop, length, take};
ghost use Rattle.sector_disk.specs.inside.Packed.{ArePacked, part_at, refilled};

use crate::call::SECTOR;
use crate::filled::count_before;
use std::alloc::{AllocError, Global};
use std::marker::Model;

// The size of a bound in bytes.
const BOUND: usize = 4;

/// The bytes of up to 128 whole sectors. A repeated byte at a sector's end is stored once.
#[derive(Debug, Drop)]
pub struct PackedSectors {
    // For each sector in turn, its bytes up to and including the first of the equal bytes at its
    // end.
    bytes: Vec<u8>,
    // For each sector, the index in `bytes` of its first stored byte; then the length of `bytes`.
    bounds: Vec<u32>,
}

impl Model for PackedSectors {
    ghost use Rattle.std.specs.Prelude.{List, ℕ};

    ghost Value = { List ℕ };

    ghost use Rattle.sector_disk.specs.inside.Packed.{ArePacked, unpacked};

    ghost view = { λ s. unpacked s.bytes.items s.bounds.items };

    ghost invariant = { λ s. ArePacked s.bytes.items s.bounds.items };
}

// Returns how many of a sector's first bytes to store. The last stored byte fills the rest of the
// sector.
#[tactic(auto, using(crate::proofs::PackedParts::refilled_held))]
fn count_held(sector: &[u8]) -> usize
    requires { length sector.now ≡ 512 }
    ensures within { result ≤ 512 }
    ensures filled { refilled (take result sector.now) ≡ sector.now }
{
    if let [.., before, last] = sector {
        if before != last {
            return SECTOR;
        }
    }
    let last = sector.last().copied().unwrap_or(0);
    (count_before(sector, last) + 1).min(SECTOR)
}

// Returns the stored bytes of a sector.
fn part_at<'a>(bytes: &'a [u8], bounds: &[u32], sector: usize) -> &'a [u8]
    requires packed { ArePacked bytes.now bounds.now }
    requires within { sector + 1 < length bounds.now }
    ensures few { length result.now ≤ 512 }
    ensures part { result.now ≡ part_at bytes.now bounds.now sector }
{
    let from = bounds[sector] as usize;
    let end = bounds[sector + 1] as usize;
    &bytes[from..end]
}

// Fills the buffer with the sector whose stored bytes are `part`.
fn refill(part: &[u8], buffer: &mut [u8])
    requires few { length part.now ≤ 512 }
    requires sector { length buffer.old ≡ 512 }
    ensures { buffer.new ≡ refilled part.now }
{
    let last = part.last().copied().unwrap_or(0);
    let (first, rest) = buffer.split_at_mut(part.len());
    first.copy_from_slice(part);
    rest.fill(last);
}

/// Returns how many bytes of a slice to store if it is packed. Returns none if the slice isn't
/// whole sectors, or if packing takes more than `most` bytes of memory.
pub fn packed_size(bytes: &[u8], most: usize) -> Option<usize>
    ensures { IsSome result → length bytes.now % 512 ≡ 0 }
{
    if bytes.len() % SECTOR != 0 {
        return None;
    }
    let sectors = bytes.len() / SECTOR;
    let most = most.saturating_sub((sectors + 1) * BOUND);
    let mut size = 0;
    for sector in 0..sectors {
        let from = sector * SECTOR;
        size += count_held(&bytes[from..from + SECTOR]);
        if size > most {
            return None;
        }
    }
    Some(size)
}

impl PackedSectors {
    /// Packs the bytes of a slice; `size` is the number of bytes to store.
    ///
    /// # Errors
    ///
    /// An allocation fails.
    pub fn from_slice(alloc: Global, bytes: &[u8], size: usize) -> Result<PackedSectors, AllocError>
        requires whole { length bytes.now % 512 ≡ 0 }
        requires few { length bytes.now ≤ 65536 }
        ensures { IfOk result (λ copy. copy ≡ bytes.now) }
    {
        let sectors = bytes.len() / SECTOR;
        let mut held = Vec::with_capacity(alloc, size)?;
        let mut bounds = Vec::with_capacity(alloc, sectors + 1)?;
        bounds.push(0)?;
        for sector in 0..sectors {
            let from = sector * SECTOR;
            let part = &bytes[from..from + SECTOR];
            held.extend_from_slice(&part[..count_held(part)])?;
            bounds.push(held.len() as u32)?;
        }
        Ok(PackedSectors {
            bytes: held,
            bounds,
        })
    }

    /// Returns the number of bytes of all the sectors, unpacked.
    pub fn len(&self) -> usize
        ensures count { result ≡ length self.now }
        ensures whole { result % 512 ≡ 0 }
    {
        (self.bounds.len() - 1) * SECTOR
    }

    /// Reads the sector that begins at byte `from`.
    pub fn read_sector(&self, from: usize, buffer: &mut [u8])
        requires sector { length buffer.old ≡ 512 }
        requires place { from % 512 ≡ 0 }
        requires within { from + 512 ≤ length self.now }
        ensures { buffer.new ≡ take 512 (drop from self.now) }
    {
        let part = part_at(&self.bytes, &self.bounds, from / SECTOR);
        refill(part, buffer);
    }

    /// Appends the unpacked bytes to a vector. If an allocation fails, a prefix of them may be
    /// appended.
    ///
    /// # Errors
    ///
    /// An allocation fails.
    pub fn append_to(&self, to: &mut Vec<u8>) -> Result<(), AllocError>
        requires { length to.old.items + length self.now < 18446744073709551616 }
        ensures { OnOk result (to.new.items ≡ to.old.items ++ self.now) }
    {
        let mut buffer = [0; SECTOR];
        for sector in 0..self.len() / SECTOR {
            self.read_sector(sector * SECTOR, &mut buffer);
            to.extend_from_slice(&buffer)?;
        }
        Ok(())
    }
}
