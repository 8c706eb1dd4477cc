//! Power failure: `crash` leaves in each unsynced sector the candidate that its pick names.
ghost use Rattle.std.specs.Prelude.{◌≡◌, ◌≤◌, length, vec_capacity};
ghost use Rattle.sector_disk.specs.Candidates.{left_by};
ghost use Rattle.sector_disk.specs.DiskView.{PastBegins, cache_of, shown_of};

use crate::choice::choose;
use crate::disk::SectorDisk;

// Copies `places` to `copy`.
fn copy_over(places: &[usize], copy: &mut Vec<usize>)
    requires { length copy.old.items ≡ length places.now }
    ensures { copy.new.items ≡ places.now }
{
    copy.copy_from_slice(places);
}

// Extends the table to `count` entries. It has room for them, so this takes no memory.
fn widen(places: &mut Vec<usize>, count: usize)
    requires room { count ≤ vec_capacity places.old }
    requires few { length places.old.items ≤ count }
    ensures { length places.new.items ≡ count }
{
    while places.len() < count {
        places.push_reserved(0);
    }
}

impl SectorDisk {
    /// Loses power. The n-th unsynced sector, from the lowest, has k candidates: its durable value,
    /// then the values that were written to it since, in order. The sector is left with candidate
    /// `picks[n]` modulo k, or with its durable value if there is no such pick. Then a new past
    /// begins, and all values that are left are durable.
    ///
    /// Takes no memory and frees none: the calls before the crash stay stored.
    pub fn crash(&mut self, picks: &[u64])
        ensures { PastBegins (shown_of self.old).size (left_by (cache_of self.old) picks.now)
            (shown_of self.new) }
    {
        let sectors = self.newest.len();
        widen(&mut self.base, sectors);
        choose(
            &self.calls,
            self.synced,
            &self.newest,
            picks,
            &mut self.base,
        );
        copy_over(&self.base, &mut self.newest);
        self.begun = self.calls.len();
        self.synced = self.begun;
        self.flushed = false;
    }
}
