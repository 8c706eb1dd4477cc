//! Calls on chain 1, whose rows are marked: what a marked row has, and how its value goes to another
//! chain without a walk.
ghost use Rattle.std.specs.Prelude.{◌≡◌, ◌<◌, None, Some, List, IfSome, true, false, length};
ghost use Rattle.std.specs.Prelude.{slice_set};
ghost use Rattle.pending.specs.ChainsView.{ChangesFew, KeepsRoom, TakesOut, chain_in, lengthened};
ghost use Rattle.pending.specs.declared.row.PendingEntry.{PendingEntry};

use crate::chains::marks::MARKED;
use crate::chains::rings;
use crate::chains::table::Chains;
use crate::chains::walk::seen_last;
use crate::row::PendingEntry;

/// How many rows `row_near` looks at.
const NEAR: usize = 16;

impl<T: Drop> Chains<T> {
    /// Marks the first row of chain 1, if the chain has rows. `key` is the key of its value.
    pub fn mark_first(&mut self, key: u64)
        requires { 1 < length self.old.chains }
        ensures { self.new ≡ self.old }
    {
        let Some(last) = seen_last(&self.links, self.walk, MARKED) else {
            return;
        };
        let row = self.links.next(last);
        self.marks.set(row);
        self.marks.note(key, row);
    }

    pub fn marked(&self, row: usize) -> Option<&T>
        ensures { IfSome result
            (λ value. (rest : List T) × TakesOut (chain_in self.now.chains 1) value.now rest) }
    {
        if !self.marks.has(row) {
            return None;
        }
        self.rows[row].as_ref()
    }
}

impl Chains<PendingEntry> {
    /// Appends the request in a row to chain `onto`, if the row is marked and the request ended at
    /// event `end`. Returns whether it did. Changes at most 5 links, and moves no value in memory.
    pub fn pass_on(&mut self, row: usize, end: u64, onto: usize) -> bool
        requires rests { self.old.walked ≡ None }
        requires onto { 1 < onto × onto < length self.old.chains }
        ensures passed { result ≡ true → (value : PendingEntry) × (rest : List PendingEntry)
            × (value.end ≡ end) × TakesOut (chain_in self.old.chains 1) value rest
            × (self.new.chains ≡ lengthened (slice_set self.old.chains 1 rest) onto value) }
        ensures same { result ≡ false → self.new ≡ self.old }
        ensures changed { ChangesFew self.old self.new 5 }
        ensures walked { self.new.walked ≡ None }
        ensures room { KeepsRoom self.old self.new }
    {
        if !self.marks.has(row) || !ended_at(&self.rows[row], end) {
            return false;
        }
        self.marks.skip(end, row, self.links.next(row));
        self.marks.remove(row);
        rings::take_row(&mut self.links, MARKED, row);
        rings::put_last(&mut self.links, onto, row);
        true
    }

    /// Looks for the row of the request that ended at event `end`. Returns the last row that it
    /// looked at.
    pub fn row_near(&self, end: u64) -> usize {
        let mut row = self.marks.hint(end);
        for step in 0..NEAR {
            if self.rows.len() <= row || ended_at(&self.rows[row], end) {
                return row;
            }
            row = self.links.next(row);
        }
        row
    }
}

// Returns whether a row has a request that ended at event `end`.
fn ended_at(slot: &Option<PendingEntry>, end: u64) -> bool
    ensures { result ≡ true
        → (request : PendingEntry) × (slot.now ≡ Some request) × (request.end ≡ end) }
{
    match slot {
        Some(request) => request.end == end,
        None => false,
    }
}
