// What the queue compares with its history when a recorder closes.
ghost use Rattle.std.specs.Prelude.{◌≡◌, ◌≢◌, ◌<◌, ◌≤◌, IfOk, MatchBool, Option, Some, length};
ghost use Rattle.std.specs.Prelude.{slice_get, true};
ghost use Rattle.log_format.specs.Entries.{is_sector_size};
ghost use Rattle.pending.specs.CoreState.{items_of};
ghost use Rattle.lock_state.specs.Comparison.{AreCauses, IsTakenPrefix, Each, Fails, IsItem, IsListOfSeat};
ghost use Rattle.lock_state.specs.Comparison.{IsServed, listed_item, stop_cause_at};
ghost use Rattle.lock_state.specs.History.{FoundEnd, stop_of};

use crate::compare::{are_causes, are_unrecorded, is_list_of};
use crate::entry_of::is_entry_of;
use crate::note::{Done, LogItem};
use crate::part::SeatPart;
use crate::queue::QueueState;
use crate::run::Run;
use crate::served::{CallsSeen, is_served};
use bio::{CoreEvent, End, Id};
use pending::laws::list_has_what_is_queued;
use std::alloc::{AllocError, Global};

impl<R: Run> QueueState<R> {
    /// Returns whether the seat's own list has exactly the seat's events of the history.
    pub fn has_list(&self, seat: &SeatPart<R>) -> bool
        ensures { MatchBool result (IsListOfSeat self.now seat.now) (IsListOfSeat self.now seat.now → ⊥) }
    {
        is_list_of(
            self.core.events(),
            self.by.as_slice(),
            seat.number,
            seat.own.as_slice(),
        )
    }

    /// Returns whether each unrecorded call of the seat found at which event recording ended, and
    /// the Stop's cause if a Stop ended it.
    pub fn has_unrecorded(&self, seat: &SeatPart<R>) -> bool
        ensures { MatchBool result (Each (FoundEnd self.now.core.events) seat.now.unrecorded)
            (Fails (FoundEnd self.now.core.events) seat.now.unrecorded) }
    {
        are_unrecorded(&self.end, self.recorded_stop(), seat.unrecorded.as_slice())
    }

    /// Returns whether each cause that was reported to the seat is `end` or the cause of the first
    /// stop.
    pub fn has_reported_causes(&self, seat: &SeatPart<R>, end: Option<End>) -> bool
        ensures { MatchBool result (AreCauses seat.now.told self.now.stop end)
            (AreCauses seat.now.told self.now.stop end → ⊥) }
    {
        are_causes(&seat.told, self.stop.cause(), end)
    }

    // Returns the size of a log sector in bytes.
    fn sector_bytes(&self) -> u32
        ensures bytes { result ≡ self.now.core.sector_bytes }
        ensures may_be { is_sector_size result ≡ true }
    {
        self.size.bytes()
    }

    // Returns whether `item` is the k-th item that was taken.
    fn is_taken_as(&self, k: usize, item: &LogItem) -> bool
        requires { k < self.now.core.taken }
        ensures { MatchBool result (slice_get (items_of self.now.core) k ≡ Some (listed_item item.now))
            (slice_get (items_of self.now.core) k ≢ Some (listed_item item.now)) }
    {
        // For the prover: this shows that the completion list has each queued item.
        list_has_what_is_queued();
        let bytes = self.sector_bytes();
        let id = self.taken[k];
        match self.core.events().get(id.place() as usize) {
            None => unreachable!(),
            Some(event) => is_item(item, id, event, bytes),
        }
    }

    /// Returns whether these items are a prefix of the taken items.
    pub fn has_taken(&self, placed: &[LogItem]) -> bool
        ensures { MatchBool result (IsTakenPrefix self.now.core placed.now)
            (IsTakenPrefix self.now.core placed.now → ⊥) }
    {
        if placed.len() > self.taken.len() {
            return false;
        }
        for k in 0..placed.len() {
            if !self.is_taken_as(k, &placed[k]) {
                return false;
            }
        }
        true
    }

    /// Returns how many items were taken.
    pub fn taken_count(&self) -> usize
        ensures { result ≡ self.now.core.taken }
    {
        self.taken.len()
    }

    /// Returns how many events there are.
    pub fn event_count(&self) -> usize
        ensures { result ≡ length self.now.core.events }
    {
        self.core.events().len()
    }

    /// Returns notes for `is_served`, one for each event, or `Err` if memory runs out.
    pub fn notes(&self, alloc: Global) -> Result<Vec<CallsSeen>, AllocError>
        ensures { IfOk result (λ notes. length notes.items ≡ length self.now.core.events) }
    {
        vec![in alloc; CallsSeen::Never; self.core.events().len()]
    }

    /// Returns whether each request that ended Ok is exactly once among these calls, as a call that
    /// succeeded. The caller lends a note for each event; the values of the notes don't matter.
    /// Allocates nothing.
    pub fn is_served(&self, calls: &[Done], notes: &mut [CallsSeen]) -> bool
        requires { length self.now.core.events ≤ length notes.old }
        ensures { MatchBool result
            (Each (IsServed self.now.core.events calls.now) self.now.core.events)
            (Fails (IsServed self.now.core.events calls.now) self.now.core.events) }
    {
        is_served(self.core.events(), calls, notes)
    }

    /// Returns the cause of the Stop in the history. Returns None if the history has no Stop, even
    /// if logging stopped after the Close.
    pub fn recorded_stop(&self) -> Option<End>
        ensures { result ≡ stop_of self.now.core.events }
    {
        match self.end {
            None => None,
            Some(place) => stop_at(self.core.events(), place),
        }
    }
}

// Returns the cause of the Stop at index `place`, if there is one.
fn stop_at(events: &[CoreEvent], place: Id) -> Option<End>
    ensures { result ≡ stop_cause_at (slice_get events.now place) }
{
    match events.get(place.place() as usize) {
        Some(CoreEvent::Stop(cause)) => Some(*cause),
        _ => None,
    }
}

// Returns whether the item has the id `id`, and the entry that `event` has in a log with sectors of
// `bytes` bytes.
fn is_item(item: &LogItem, id: Id, event: &CoreEvent, bytes: u32) -> bool
    requires { is_sector_size bytes ≡ true }
    ensures { MatchBool result (IsItem bytes item.now id event.now)
        (IsItem bytes item.now id event.now → ⊥) }
{
    item.id == id && is_entry_of(event, &item.entry, bytes)
}
