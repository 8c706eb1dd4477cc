//! The sector count of a copied log's disk, which is a word of the command line.
ghost use Rattle.std.specs.Prelude.{◌≡◌, ◌≤◌, IfSome, None, ℕ};
ghost use Rattle.dmlw.specs.Commands.{IsSectorCount};

use refusals::number_of;
use std::marker::Model;

/// How many sectors of 512 bytes a copied log's disk has: from 8, which is one log sector, to
/// 1,048,576. In contracts, its value is this number.
#[derive(Debug, Drop)]
pub struct SectorCount {
    sectors: u64,
}

impl Model for SectorCount {
    ghost use Rattle.std.specs.Prelude.{◌≤◌, ℕ};

    ghost Value = { ℕ };

    ghost view = { λ count. count.sectors };

    ghost invariant = { λ count. (8 ≤ count.sectors) × (count.sectors ≤ 1048576) };
}

impl SectorCount {
    /// Parses a number of 1 to 20 decimal digits, from 8 to 1,048,576. Returns None for any other
    /// word.
    pub fn of(word: &[u8]) -> Option<SectorCount>
        ensures some { IfSome result (IsSectorCount word.now) }
        ensures none { result ≡ None → (count : ℕ) → IsSectorCount word.now count → ⊥ }
    {
        let sectors = number_of(word)?;
        if sectors < 8 || 1_048_576 < sectors {
            return None;
        }
        Some(SectorCount { sectors })
    }

    /// Returns the number.
    pub fn sectors(&self) -> u64
        ensures value { result ≡ self.now }
        ensures least { 8 ≤ result }
        ensures most { result ≤ 1048576 }
    {
        self.sectors
    }
}
