// The test whether each request that ended Ok was done exactly once. It goes through the calls once
// and through the events once, with a note for each event.
ghost use Rattle.std.specs.Prelude.{◌≡◌, ◌≤◌, ℕ, [], MatchBool, Some, length, slice_get};
ghost use Rattle.lock_state.specs.declared.served.CallsSeen.{CallsSeen as Noted};
ghost use Rattle.lock_state.specs.Comparison.{AllNotesMatch, Each, Fails, IsDoneOnce, IsNoted};
ghost use Rattle.lock_state.specs.Comparison.{IsServed};
ghost use Rattle.lock_state.specs.Comparison.{AgreesWithCalls, seen_more};

use crate::compare::same_bio;
use crate::note::Done;
use bio::CoreEvent;

/// How many successful calls of a request were seen.
#[derive(Clone, Copy, Debug, PartialEq, Eq)]
pub enum CallsSeen {
    /// No call was seen yet.
    Never,
    /// One call was seen, at this index of the calls.
    Once(usize),
    /// More than one call was seen.
    Again,
}

/// Returns whether each request that ended Ok was passed to the device by exactly one successful
/// call. The caller lends a note for each event; the values of the notes don't matter.
pub fn is_served(events: &[CoreEvent], calls: &[Done], notes: &mut [CallsSeen]) -> bool
    requires { length events.now ≤ length notes.old }
    ensures { MatchBool result (Each (IsServed events.now calls.now) events.now)
        (Fails (IsServed events.now calls.now) events.now) }
{
    note_all(calls, notes);
    for event in events {
        if !is_event_served(events, calls, notes, event) {
            return false;
        }
    }
    true
}

// Notes for each request how many successful calls passed it.
fn note_all(calls: &[Done], notes: &mut [CallsSeen])
    ensures told { AllNotesMatch calls.now notes.new }
    ensures size { length notes.new ≡ length notes.old }
{
    clear(notes);
    for place in 0..calls.len() {
        note(notes, place, &calls[place]);
    }
}

// Sets each note to `Never`.
fn clear(notes: &mut [CallsSeen])
    ensures told { AllNotesMatch [] notes.new }
    ensures size { length notes.new ≡ length notes.old }
{
    for k in 0..notes.len() {
        notes[k] = CallsSeen::Never;
    }
}

fn note(notes: &mut [CallsSeen], place: usize, call: &Done)
    ensures noted { (id : ℕ) (seen : Noted) → slice_get notes.new id ≡ Some seen
        → IsNoted notes.old place call.now id seen }
    ensures size { length notes.new ≡ length notes.old }
{
    let Some(id) = call.id else {
        return;
    };
    let id = id.place() as usize;
    if !call.ok {
        return;
    }
    if id >= notes.len() {
        return;
    }
    notes[id] = more(notes[id], place);
}

// Returns the note for a request after one more successful call, at index `place`.
fn more(seen: CallsSeen, place: usize) -> CallsSeen
    ensures { result ≡ seen_more seen place }
{
    match seen {
        CallsSeen::Never => CallsSeen::Once(place),
        CallsSeen::Once(_) | CallsSeen::Again => CallsSeen::Again,
    }
}

// If the event completes a request with success, returns whether exactly one successful call passed
// this request. Otherwise returns true.
fn is_event_served(
    events: &[CoreEvent],
    calls: &[Done],
    notes: &[CallsSeen],
    event: &CoreEvent,
) -> bool
    requires told { AllNotesMatch calls.now notes.now }
    requires size { length events.now ≤ length notes.now }
    ensures { MatchBool result (IsServed events.now calls.now event.now)
        (IsServed events.now calls.now event.now → ⊥) }
{
    match event {
        CoreEvent::Complete { id, ok: true } => is_done_once(events, calls, notes, id.place()),
        _ => true,
    }
}

// Returns whether exactly one successful call passed the request `id`.
fn is_done_once(events: &[CoreEvent], calls: &[Done], notes: &[CallsSeen], id: u64) -> bool
    requires told { AllNotesMatch calls.now notes.now }
    requires size { length events.now ≤ length notes.now }
    ensures { MatchBool result (IsDoneOnce calls.now id (slice_get events.now id))
        (IsDoneOnce calls.now id (slice_get events.now id) → ⊥) }
{
    let at = id as usize;
    if at >= events.len() {
        return false;
    }
    is_done_as(&events[at], calls, notes[at], id)
}

// Returns whether exactly one successful call passed the request `id`, as `event` submits it.
// `seen` is the note for the request.
fn is_done_as(event: &CoreEvent, calls: &[Done], seen: CallsSeen, id: u64) -> bool
    requires { AgreesWithCalls calls.now id seen }
    ensures { MatchBool result (IsDoneOnce calls.now id (Some event.now))
        (IsDoneOnce calls.now id (Some event.now) → ⊥) }
{
    let CallsSeen::Once(place) = seen else {
        return false;
    };
    match event {
        CoreEvent::Submit(bio) => same_bio(bio, &calls[place].bio),
        _ => false,
    }
}
