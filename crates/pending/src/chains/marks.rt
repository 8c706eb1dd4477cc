//! Marks of the rows that are known to be in chain 1.
//!
//! One look at a row's mark shows that the row is in chain 1. So a row can be taken out of the middle
//! of this chain without a walk to it. A row of the chain may lack its mark.
ghost use Rattle.std.specs.Prelude.{◌≡◌, ℕ, ◌≢◌, IfOk, true, false, slice_set};
ghost use Rattle.pending.specs.inside.Tables.{is_marked};

use std::alloc::{AllocError, Global};
use std::fmt::{self, Debug, Formatter};

/// The chain whose rows are marked.
pub const MARKED: usize = 1;

/// How many hints there are.
const HINTS: usize = 8_192;
/// For how many successive keys one hint is.
const KEYS: u64 = 16;

/// A mark for each of the first rows; later rows are never marked. The values in the rows have keys.
/// For each key there is a hint: at which row to begin to look for it. Contracts don't see hints.
#[derive(Drop)]
pub struct Marks {
    pub rows: Vec<bool>,
    hints: Vec<u32>,
}

impl Debug for Marks {
    fn fmt<W: fmt::Write>(&self, f: &mut Formatter<W>) -> fmt::Result {
        f.write_str("Marks")
    }
}

impl Marks {
    /// Returns no marks, with room for those of the first `rows` rows.
    pub fn new(alloc: Global, rows: usize) -> Result<Marks, AllocError>
        ensures { IfOk result (λ marks. (row : ℕ) → is_marked marks.rows.items row ≡ false) }
    {
        Ok(Marks {
            rows: vec![in alloc; false; rows]?,
            hints: vec![in alloc; 0; HINTS]?,
        })
    }

    pub fn has(&self, row: usize) -> bool
        ensures { result ≡ is_marked self.now.rows.items row }
    {
        row < self.rows.len() && self.rows[row]
    }

    pub fn set(&mut self, row: usize)
        ensures { self.new.rows.items ≡ slice_set self.old.rows.items row true }
    {
        if row < self.rows.len() {
            self.rows[row] = true;
        }
    }

    pub fn remove(&mut self, row: usize)
        ensures { self.new.rows.items ≡ slice_set self.old.rows.items row false }
    {
        if row < self.rows.len() {
            self.rows[row] = false;
        }
    }

    /// Removes all marks if the rows of `chain` are marked.
    pub fn leave(&mut self, chain: usize)
        ensures { (row : ℕ) → is_marked self.new.rows.items row ≡ true
            → (chain ≢ 1) × (is_marked self.old.rows.items row ≡ true) }
    {
        if chain == MARKED {
            self.rows.as_mut_slice().fill(false);
        }
    }

    /// Notes at which row to begin to look for a key.
    pub fn note(&mut self, key: u64, row: usize)
        ensures { self.new.rows ≡ self.old.rows }
    {
        let hint = hint_of(key);
        if hint < self.hints.len() {
            self.hints[hint] = row.min(u32::MAX as usize) as u32;
        }
    }

    /// If one would begin to look for a key at `row`, notes to begin at `next`.
    pub fn skip(&mut self, key: u64, row: usize, next: usize)
        ensures { self.new.rows ≡ self.old.rows }
    {
        if self.hint(key) == row {
            self.note(key, next);
        }
    }

    /// Returns at which row to begin to look for a key.
    pub fn hint(&self, key: u64) -> usize {
        let hint = hint_of(key);
        if hint < self.hints.len() {
            self.hints[hint] as usize
        } else {
            0
        }
    }
}

// Returns the index of the hint for a key.
fn hint_of(key: u64) -> usize {
    (key / KEYS % HINTS as u64) as usize
}
