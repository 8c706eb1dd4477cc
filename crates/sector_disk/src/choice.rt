//! Finds, for each sector, the candidate that the picks of a crash name. `crash` calls `choose`.
ghost use Rattle.std.specs.Prelude.{◌≡◌, ◌-◌, ◌%◌, ◌<◌, ◌≤◌, length, slice_get, true, unwrap_or, ℕ};
ghost use Rattle.sector_disk.specs.Candidates.{Cache};
ghost use Rattle.sector_disk.specs.inside.Storage.{AreChosen, ArePlaced, is_chain, walk};

use crate::call::{PastCall, before, is_open};

// Returns the number of a sector's candidates: its calls from the newest back to a durable one.
fn count_candidates(calls: &[PastCall], synced: usize, sector: usize, newest: usize) -> usize
    ensures some { 0 < result }
    ensures count { (count : ℕ) → count ≤ length calls.now →
        is_chain calls.now synced sector count newest ≡ true → result ≡ count }
{
    let mut place = newest;
    for index in 0..calls.len() {
        if !is_open(calls, synced, place) {
            return index + 1;
        }
        place = before(calls, place, sector);
    }
    1
}

// Returns the index of the sector's call that is `steps` calls before its newest.
fn walk_back(calls: &[PastCall], sector: usize, newest: usize, steps: usize) -> usize
    ensures { result ≡ walk calls.now sector steps newest }
{
    let mut place = newest;
    for _step in 0..steps {
        place = before(calls, place, sector);
    }
    place
}

// Returns the pick at index `place`, or 0 if there is none.
fn pick_at(picks: &[u64], place: usize) -> u64
    ensures { result ≡ unwrap_or (slice_get picks.now place) 0 }
{
    picks.get(place).copied().unwrap_or(0)
}

/// Sets each sector's entry in `chosen` to the index of the call whose value the picks name.
pub fn choose(
    calls: &[PastCall],
    synced: usize,
    newest: &[usize],
    picks: &[u64],
    chosen: &mut Vec<usize>,
)
    requires { length chosen.old.items ≡ length newest.now }
    ensures length { length chosen.new.items ≡ length newest.now }
    ensures chosen { (cache : Cache)
        → ArePlaced calls.now synced (length newest.now) newest.now cache →
        AreChosen calls.now cache picks.now (length newest.now) chosen.new.items }
{
    let mut unsynced = 0;
    for (sector, place) in newest.iter().enumerate() {
        let count = count_candidates(calls, synced, sector, *place);
        let pick = pick_at(picks, unsynced) % count as u64;
        chosen[sector] = walk_back(calls, sector, *place, count - 1 - pick as usize);
        if count > 1 {
            unsynced += 1;
        }
    }
}
