//! Tests whether a `World` may take a step.
//!
//! The tests are those of the machine (`specs/Machine`). `cells` has one cell for each sector.
//! `calls` are the submissions and ends so far, oldest first; contracts reverse them.
ghost use Rattle.std.specs.Prelude.{◌≡◌, ◌+◌, ◌^◌, ◌<◌, Some, reverse, slice_get};
ghost use Rattle.std.specs.List.{list_all, list_any};
ghost use Rattle.bio.specs.declared.event.CoreEvent.TheVariants as core_events;
ghost use Rattle.bio.specs.Events.{is_request};
ghost use Rattle.bio.specs.Possible.{covers_at};
ghost use Rattle.bio.specs.Requests.{covers, first_sector, sector_count};
ghost use Rattle.world.specs.Cells.{landed_of, settled_of};
ghost use Rattle.world.specs.Machine.{before_submit, is_among, is_end, is_submit, newest};
ghost use Rattle.world.specs.inside.{EndsFit, end_settled, is_allowed, is_in, is_landed};
ghost use Rattle.world.specs.inside.{is_pending_in, is_settled, succeeds};

use crate::cell::Cell;
use crate::step::Step;
use bio::{Bio, CoreEvent, Id};

/// Returns whether the step may be taken, if power hasn't failed.
pub fn is_allowed(cells: &[Cell], calls: &[Step], events: &[CoreEvent], step: &Step) -> bool
    requires { EndsFit events.now }
    ensures { result ≡ is_allowed events.now cells.now (reverse calls.now) step.now }
{
    match step {
        Step::Submit(id) => is_request_at(events, id.place()) && !was_submitted(calls, id.place()),
        Step::Land(id, sector) => {
            is_pending_in(calls, id.place())
                && covers_at(events, id.place(), *sector)
                && !has_landed_at(cells, *sector as usize, id.place())
        }
        Step::Destage(sector) => newest_at(cells, *sector as usize).is_some(),
        Step::End(id, ok) => {
            is_pending_in(calls, id.place())
                && (!*ok || may_succeed(cells, calls, events, id.place()))
        }
        Step::Power => true,
    }
}

// Returns whether the event at index `id` submits a write, a discard or a flush.
fn is_request_at(events: &[CoreEvent], id: u64) -> bool
    ensures { result ≡ is_request (slice_get events.now id) }
{
    match events.get(id as usize) {
        Some(event) => is_request(event),
        None => false,
    }
}

/// Returns whether the event submits a write, a discard or a flush.
pub fn is_request(event: &CoreEvent) -> bool
    ensures { result ≡ is_request (Some event.now) }
{
    match event {
        CoreEvent::Submit(bio) => bio.is_tracked(),
        _ => false,
    }
}

// Returns whether the call submits the request `id`.
fn is_submit(call: &Step, id: u64) -> bool
    ensures { result ≡ is_submit id call.now }
{
    match call {
        Step::Submit(submitted) => submitted.place() == id,
        Step::Land(..) | Step::Destage(_) | Step::End(..) | Step::Power => false,
    }
}

// Returns whether the call ends the request `id`.
fn is_end(call: &Step, id: u64) -> bool
    ensures { result ≡ is_end id call.now }
{
    match call {
        Step::End(ended, _) => ended.place() == id,
        Step::Submit(_) | Step::Land(..) | Step::Destage(_) | Step::Power => false,
    }
}

// Returns whether some call submits the request `id`.
fn any_submit(calls: &[Step], id: u64) -> bool
    ensures { result ≡ list_any (is_submit id) calls.now }
{
    calls.iter().any(|call| is_submit(call, id))
}

// Returns whether some call ends the request `id`.
fn any_end(calls: &[Step], id: u64) -> bool
    ensures { result ≡ list_any (is_end id) calls.now }
{
    calls.iter().any(|call| is_end(call, id))
}

// Returns whether the request was submitted. (The contract has `calls` newest first.)
#[tactic(auto, using(crate::proofs::Lists::any_reverse))]
fn was_submitted(calls: &[Step], id: u64) -> bool
    ensures { result ≡ list_any (is_submit id) (reverse calls.now) }
{
    any_submit(calls, id)
}

// Returns whether the request has ended. (The contract has `calls` newest first.)
#[tactic(auto, using(crate::proofs::Lists::any_reverse))]
fn has_ended(calls: &[Step], id: u64) -> bool
    ensures { result ≡ list_any (is_end id) (reverse calls.now) }
{
    any_end(calls, id)
}

// Returns whether the request was submitted and hasn't ended.
fn is_pending_in(calls: &[Step], id: u64) -> bool
    ensures { result ≡ is_pending_in (reverse calls.now) id }
{
    was_submitted(calls, id) && !has_ended(calls, id)
}

// Returns whether the event at index `id` submits a request that covers the sector.
fn covers_at(events: &[CoreEvent], id: u64, sector: u64) -> bool
    ensures { result ≡ covers_at sector (slice_get events.now id) }
{
    match events.get(id as usize) {
        Some(event) => event_covers(event, sector),
        None => false,
    }
}

// Returns whether the event submits a request that covers the sector.
fn event_covers(event: &CoreEvent, sector: u64) -> bool
    ensures { result ≡ covers_at sector (Some event.now) }
{
    match event {
        CoreEvent::Submit(bio) => covers(bio, sector),
        _ => false,
    }
}

// Returns whether the request covers the sector.
fn covers(bio: &Bio, sector: u64) -> bool
    ensures { result ≡ covers bio.now sector }
{
    bio.is_tracked() && is_in(bio.first_sector(), bio.sector_count(), sector)
}

fn is_in(first: u64, count: u64, sector: u64) -> bool
    ensures { result ≡ is_in first count sector }
{
    first <= sector && sector - first < count
}

// Returns whether the request has landed on the sector.
fn has_landed_at(cells: &[Cell], sector: usize, id: u64) -> bool
    ensures { result ≡ is_among (landed_of (slice_get cells.now sector)) id }
{
    match cells.get(sector) {
        Some(cell) => cell.has_landed(id),
        None => false,
    }
}

// Returns whether the request had landed on the sector when the sector was last destaged.
fn has_settled_at(cells: &[Cell], sector: usize, id: u64) -> bool
    ensures { result ≡ is_among (settled_of (slice_get cells.now sector)) id }
{
    match cells.get(sector) {
        Some(cell) => cell.has_settled(id),
        None => false,
    }
}

/// Returns the request that landed last in the sector, if any.
pub fn newest_at(cells: &[Cell], sector: usize) -> Option<Id>
    ensures { result ≡ newest (landed_of (slice_get cells.now sector)) }
{
    match cells.get(sector) {
        Some(cell) => cell.newest(),
        None => None,
    }
}

// Returns whether the request has landed on each of its sectors.
fn has_landed(cells: &[Cell], bio: &Bio, id: u64) -> bool
    requires { first_sector bio.now + sector_count bio.now < 2 ^ 64 }
    ensures { result ≡ is_landed cells.now id (Some (core_events.Submit bio.now)) }
{
    let first = bio.first_sector();
    for place in 0..bio.sector_count() {
        if !has_landed_at(cells, (first + place) as usize, id) {
            return false;
        }
    }
    true
}

// Returns whether each sector of the request was destaged after the request had landed there.
fn has_settled(cells: &[Cell], bio: &Bio, id: u64) -> bool
    requires { first_sector bio.now + sector_count bio.now < 2 ^ 64 }
    ensures { result ≡ is_settled cells.now id (Some (core_events.Submit bio.now)) }
{
    let first = bio.first_sector();
    for place in 0..bio.sector_count() {
        if !has_settled_at(cells, (first + place) as usize, id) {
            return false;
        }
    }
    true
}

// Returns whether the request that the event submits has landed on each of its sectors.
fn is_landed(cells: &[Cell], events: &[CoreEvent], event: &CoreEvent, id: u64) -> bool
    requires within { EndsFit events.now }
    requires there { slice_get events.now id ≡ Some event.now }
    ensures { result ≡ is_landed cells.now id (Some event.now) }
{
    match event {
        CoreEvent::Submit(bio) => has_landed(cells, bio, id),
        CoreEvent::Complete { .. } | CoreEvent::Mark(_) | CoreEvent::Stop(_) | CoreEvent::Close =>
            true,
    }
}

// Returns whether the event's request is settled in each of its sectors.
fn is_settled(cells: &[Cell], events: &[CoreEvent], event: &CoreEvent, id: u64) -> bool
    requires within { EndsFit events.now }
    requires there { slice_get events.now id ≡ Some event.now }
    ensures { result ≡ is_settled cells.now id (Some event.now) }
{
    match event {
        CoreEvent::Submit(bio) => has_settled(cells, bio, id),
        CoreEvent::Complete { .. } | CoreEvent::Mark(_) | CoreEvent::Stop(_) | CoreEvent::Close =>
            true,
    }
}

// Returns whether the request of the event at index `id` is settled in each of its sectors; true if
// there is no such event.
fn is_settled_at(cells: &[Cell], events: &[CoreEvent], id: u64) -> bool
    requires { EndsFit events.now }
    ensures { result ≡ is_settled cells.now id (slice_get events.now id) }
{
    match events.get(id as usize) {
        Some(event) => is_settled(cells, events, event, id),
        None => true,
    }
}

// Returns whether the call's request is settled; true if the call is no end with success.
fn end_settled(cells: &[Cell], events: &[CoreEvent], call: &Step) -> bool
    requires { EndsFit events.now }
    ensures { result ≡ end_settled events.now cells.now call.now }
{
    match call {
        Step::End(id, ok) => !*ok || is_settled_at(cells, events, id.place()),
        Step::Submit(_) | Step::Land(..) | Step::Destage(_) | Step::Power => true,
    }
}

// Returns whether each call passes `end_settled`.
fn ends_settled(cells: &[Cell], events: &[CoreEvent], calls: &[Step]) -> bool
    requires { EndsFit events.now }
    ensures { result ≡ list_all (end_settled events.now cells.now) (reverse calls.now) }
{
    for call in calls {
        if !end_settled(cells, events, call) {
            return false;
        }
    }
    true
}

// Returns the calls before the last submission of the request; none if there is no submission.
fn before_submit(calls: &[Step], id: u64) -> &[Step]
    ensures { reverse result.now ≡ before_submit id (reverse calls.now) }
{
    let mut end = 0;
    for (place, call) in calls.iter().enumerate() {
        if is_submit(call, id) {
            end = place;
        }
    }
    &calls[..end]
}

// Returns whether the request that the event submits may end with success.
fn succeeds(
    cells: &[Cell],
    calls: &[Step],
    events: &[CoreEvent],
    event: &CoreEvent,
    id: u64,
) -> bool
    requires within { EndsFit events.now }
    requires there { slice_get events.now id ≡ Some event.now }
    ensures { result ≡ succeeds events.now cells.now (reverse calls.now) id (Some event.now) }
{
    is_landed(cells, events, event, id)
        && (!event.submits_fua() || is_settled(cells, events, event, id))
        && (!event.submits_flush() || ends_settled(cells, events, before_submit(calls, id)))
}

// Returns whether the request of the event at index `id` may end with success; true if there is no
// such event.
fn may_succeed(cells: &[Cell], calls: &[Step], events: &[CoreEvent], id: u64) -> bool
    requires { EndsFit events.now }
    ensures { result ≡ succeeds events.now cells.now (reverse calls.now) id
        (slice_get events.now id) }
{
    match events.get(id as usize) {
        Some(event) => succeeds(cells, calls, events, event, id),
        None => true,
    }
}
