//! Finds the end of each request of an event list, in one pass; `Account::of` begins with it. Tests
//! whether a request succeeded, and whether it ended before another was submitted.
ghost use Rattle.std.specs.Prelude.{◌≡◌, ◌==◌, ◌&&◌, ◌≤◌, IfOk, Some, length, nat_lt, ℕ};
ghost use Rattle.bio.specs.Events.{is_end_of};
ghost use Rattle.bio.specs.Possible.{ended_ok, is_success};
ghost use Rattle.bio.specs.Places.{or_here};
ghost use Rattle.judge.specs.Accounts.{place_at};
ghost use Rattle.judge.specs.inside.{AreEnds, is_below_last};

use bio::CoreEvent;
use std::alloc::{AllocError, Global};

/// Returns a list that has, at the index of each request's submission, the index of the request's
/// end.
pub fn ends_of(alloc: Global, events: &[CoreEvent]) -> Result<Vec<Option<usize>>, AllocError>
    ensures { IfOk result (λ ends. AreEnds events.now (length events.now) ends.items) }
{
    let mut ends = vec![in alloc; None; events.len()]?;
    for (place, event) in events.iter().enumerate() {
        note_event(&mut ends, event, place);
    }
    Ok(ends)
}

// If the event, at index `place`, ends a request, records `place` as the request's end.
fn note_event(ends: &mut Vec<Option<usize>>, event: &CoreEvent, place: usize)
    requires { place ≤ length ends.old.items }
    ensures size { length ends.new.items ≡ length ends.old.items }
    ensures noted { (other : ℕ) → place_at ends.new.items other
        ≡ or_here (place_at ends.old.items other)
        (nat_lt other place && is_end_of other (Some event.now)) place }
{
    if let CoreEvent::Complete { id, .. } = event {
        note_end(ends, id.place(), place);
    }
}

// Records `place` as the end of the request `id`, if it is the request's first end after its
// submission.
fn note_end(ends: &mut Vec<Option<usize>>, id: u64, place: usize)
    requires { place ≤ length ends.old.items }
    ensures size { length ends.new.items ≡ length ends.old.items }
    ensures noted { (other : ℕ) → place_at ends.new.items other
        ≡ or_here (place_at ends.old.items other) (nat_lt other place && id == other) place }
{
    let id = id as usize;
    if id < place && ends[id].is_none() {
        ends[id] = Some(place);
    }
}

fn is_success(event: &CoreEvent) -> bool
    ensures { result ≡ is_success (Some event.now) }
{
    matches!(event, CoreEvent::Complete { ok: true, .. })
}

/// Returns whether the request that was submitted at index `id` ended with success.
pub fn ended_ok(events: &[CoreEvent], ends: &[Option<usize>], id: usize) -> bool
    requires { AreEnds events.now (length events.now) ends.now }
    ensures { result ≡ ended_ok events.now id }
{
    match end_at(ends, id) {
        Some(end) => match events.get(end) {
            Some(event) => is_success(event),
            None => false,
        },
        None => false,
    }
}

/// Returns the entry of `ends` at `id`: the index of the request's end, if it ended.
pub fn end_at(ends: &[Option<usize>], id: usize) -> Option<usize>
    ensures { result ≡ place_at ends.now id }
{
    ends.get(id).copied().flatten()
}

/// Returns whether `end` is before `later`; false if either is none.
pub fn is_before(end: Option<usize>, later: Option<usize>) -> bool
    ensures { result ≡ is_below_last end later }
{
    match (end, later) {
        (Some(end), Some(later)) => end < later,
        _ => false,
    }
}
