//! Finds, for each sector, the durable request over it that was submitted last. This request rules
//! out the values of requests that ended before its submission, and the first value.
ghost use Rattle.std.specs.Prelude.{◌≡◌, ◌&&◌, ◌<◌, ◌≤◌, IfOk, Some, false, true, length};
ghost use Rattle.std.specs.Prelude.{slice_get, ℕ};
ghost use Rattle.bio.specs.declared.event.CoreEvent.TheVariants.{Submit};
ghost use Rattle.bio.specs.Possible.{covers_at, is_durable};
ghost use Rattle.judge.specs.Accounts.{last_below, place_at};
ghost use Rattle.judge.specs.inside.{AreCovered, AreEnds, AreLastKept, ArePut, is_sure_flush};

use crate::ends::{end_at, ended_ok, is_before};
use bio::{Bio, CoreEvent};
use std::alloc::{AllocError, Global};
use std::cmp;

// Returns the last submitted flush that ended with success.
fn last_flush(events: &[CoreEvent], ends: &[Option<usize>]) -> Option<usize>
    requires { AreEnds events.now (length events.now) ends.now }
    ensures { result ≡ last_below (is_sure_flush events.now) (length events.now) }
{
    let mut last = None;
    for (place, event) in events.iter().enumerate() {
        if event.submits_flush() && ended_ok(events, ends, place) {
            last = Some(place);
        }
    }
    last
}

// Returns whether the request that the event submits is durable. It ended with success, and it has
// FUA or ended before the submission of `flush`, the last submitted flush that ended with success.
#[tactic(auto, using(crate::proofs::HeldValues::flushed_last))]
fn is_durable(
    events: &[CoreEvent],
    ends: &[Option<usize>],
    flush: Option<usize>,
    event: &CoreEvent,
    place: usize,
) -> bool
    requires ends { AreEnds events.now (length events.now) ends.now }
    requires flush { flush ≡ last_below (is_sure_flush events.now) (length events.now) }
    requires event { slice_get events.now place ≡ Some event.now }
    ensures { result ≡ is_durable events.now place }
{
    ended_ok(events, ends, place) && (event.submits_fua() || is_before(end_at(ends, place), flush))
}

/// Returns the range of sectors, among the first `sectors`, in which the event puts a value: its
/// first sector, and the sector after its last.
pub fn covered(event: &CoreEvent, sectors: usize) -> (usize, usize)
    ensures { AreCovered (Some event.now) sectors result.0 result.1 }
{
    match event {
        CoreEvent::Submit(bio) => covered_by(bio, sectors),
        _ => (0, 0),
    }
}

// Returns the range of sectors, among the first `sectors`, in which the request puts a value.
fn covered_by(bio: &Bio, sectors: usize) -> (usize, usize)
    ensures { AreCovered (Some (Submit bio.now)) sectors result.0 result.1 }
{
    if !bio.is_tracked() {
        return (0, 0);
    }
    let first = bio.first_sector();
    let end = cmp::min(first.saturating_add(bio.sector_count()) as usize, sectors);
    (cmp::min(first as usize, end), end)
}

/// Returns, for each sector, the durable request over it that was submitted last.
#[tactic(auto, using(crate::proofs::HeldValues::last_kept_durable, crate::proofs::HeldValues::last_kept_other))]
pub fn last_kept(
    alloc: Global,
    events: &[CoreEvent],
    ends: &[Option<usize>],
    sectors: usize,
) -> Result<Vec<Option<usize>>, AllocError>
    requires { AreEnds events.now (length events.now) ends.now }
    ensures { IfOk result (λ last. AreLastKept events.now sectors (length events.now) last.items) }
{
    let flush = last_flush(events, ends);
    let mut last = vec![in alloc; None; sectors]?;
    for (place, event) in events.iter().enumerate() {
        if is_durable(events, ends, flush, event, place) {
            note_kept(&mut last, event, place);
        }
    }
    Ok(last)
}

// Sets the entries of `last` to `place`, for the sectors that the event's request covers.
#[tactic(auto, using(crate::proofs::HeldValues::covered_in, crate::proofs::HeldValues::covered_out))]
fn note_kept(last: &mut Vec<Option<usize>>, event: &CoreEvent, place: usize)
    ensures size { length last.new.items ≡ length last.old.items }
    ensures covered { (sector : ℕ) → sector < length last.old.items
        → covers_at sector (Some event.now) ≡ true →
        place_at last.new.items sector ≡ Some place }
    ensures other { (sector : ℕ) → sector < length last.old.items
        → covers_at sector (Some event.now) ≡ false →
        place_at last.new.items sector ≡ place_at last.old.items sector }
{
    let (from, to) = covered(event, last.len());
    put_place(last, from, to, place);
}

// Sets the entries of `last` to `place`, from `from` to before `to`.
fn put_place(last: &mut Vec<Option<usize>>, from: usize, to: usize, place: usize)
    requires order { from ≤ to }
    requires within { to ≤ length last.old.items }
    ensures { ArePut from to place last.old.items last.new.items }
{
    for sector in from..to {
        last[sector] = Some(place);
    }
}
