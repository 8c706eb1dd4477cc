// The comparisons of a recorder that closes, as functions of lists.
ghost use Rattle.std.specs.Prelude.{◌≡◌, ◌≢◌, ◌⊎◌, ◌&&◌, MatchBool, Option, Some, slice_get};
ghost use Rattle.std.specs.Prelude.{length};
ghost use Rattle.bio.specs.declared.request.Bio.TheVariants.{Discard, Flush, Read, Write};
ghost use Rattle.lock_state.specs.Comparison.{AreCauses, Each, Fails, MayBeReported, NamesItem, is_of};
ghost use Rattle.lock_state.specs.Comparison.{of};
ghost use Rattle.lock_state.specs.History.{Found, own_at};

use crate::log::Receipt;
use crate::note::{LogItem, Own, ReportedCauses, UnrecordedCall};
use crate::run::Run;
use bio::{Bio, CoreEvent, End, Id};

// Returns whether the request is this write.
fn is_write(bio: &Bio, first: u64, bytes: &[u8], flush: bool, fua: bool, meta: bool) -> bool
    ensures { MatchBool result (bio.now ≡ Write first bytes.now flush fua meta)
        (bio.now ≢ Write first bytes.now flush fua meta) }
{
    match bio {
        Bio::Write {
            first: other_first,
            bytes: other_bytes,
            flush: other_flush,
            fua: other_fua,
            meta: other_meta,
        } => {
            *other_first == first
                && *other_flush == flush
                && *other_fua == fua
                && *other_meta == meta
                && other_bytes.as_slice() == bytes
        }
        _ => false,
    }
}

// Returns whether the request is this discard.
fn is_discard(bio: &Bio, first: u64, count: u64) -> bool
    ensures { MatchBool result (bio.now ≡ Discard first count) (bio.now ≢ Discard first count) }
{
    match bio {
        Bio::Discard {
            first: other_first,
            count: other_count,
        } => *other_first == first && *other_count == count,
        _ => false,
    }
}

// Returns whether the request is this read.
fn is_read(bio: &Bio, first: u64, count: u64) -> bool
    ensures { MatchBool result (bio.now ≡ Read first count) (bio.now ≢ Read first count) }
{
    match bio {
        Bio::Read {
            first: other_first,
            count: other_count,
        } => *other_first == first && *other_count == count,
        _ => false,
    }
}

// Returns whether the request is a flush.
fn is_flush(bio: &Bio) -> bool
    ensures { MatchBool result (bio.now ≡ Flush) (bio.now ≢ Flush) }
{
    match bio {
        Bio::Flush => true,
        _ => false,
    }
}

// Returns whether two requests are equal.
pub(crate) fn same_bio(one: &Bio, other: &Bio) -> bool
    ensures { MatchBool result (one.now ≡ other.now) (one.now ≢ other.now) }
{
    match other {
        Bio::Write {
            first,
            bytes,
            flush,
            fua,
            meta,
        } => is_write(one, *first, bytes.as_slice(), *flush, *fua, *meta),
        Bio::Flush => is_flush(one),
        Bio::Discard { first, count } => is_discard(one, *first, *count),
        Bio::Read { first, count } => is_read(one, *first, *count),
    }
}

// Returns whether two events are equal.
fn same_event(one: &CoreEvent, other: &CoreEvent) -> bool
    ensures { MatchBool result (one.now ≡ other.now) (one.now ≢ other.now) }
{
    match one {
        CoreEvent::Submit(bio) => match other {
            CoreEvent::Submit(other_bio) => same_bio(bio, other_bio),
            _ => false,
        },
        CoreEvent::Complete { id, ok } => match other {
            CoreEvent::Complete {
                id: other_id,
                ok: other_ok,
            } => id.place() == other_id.place() && ok == other_ok,
            _ => false,
        },
        CoreEvent::Mark(text) => match other {
            CoreEvent::Mark(other_text) => text.as_slice() == other_text.as_slice(),
            _ => false,
        },
        CoreEvent::Stop(cause) => match other {
            CoreEvent::Stop(other_cause) => cause == other_cause,
            _ => false,
        },
        CoreEvent::Close => matches!(other, CoreEvent::Close),
    }
}

// Returns whether the list has at position `number` the event `event` with the index `place`.
fn is_at(list: &[Own], number: usize, place: u64, event: &CoreEvent) -> bool
    ensures { MatchBool result (slice_get list.now number ≡ Some (own_at place event.now))
        (slice_get list.now number ≢ Some (own_at place event.now)) }
{
    match list.get(number) {
        None => false,
        Some(own) => own.place.place() == place && same_event(&own.event, event),
    }
}

/// Returns whether `list` has exactly the events of seat `seat`, each with its index.
pub fn is_list_of(events: &[CoreEvent], by: &[Option<u64>], seat: u64, list: &[Own]) -> bool
    requires { length by.now ≡ length events.now }
    ensures { MatchBool result (of events.now by.now seat ≡ list.now) (of events.now by.now seat ≢ list.now) }
{
    let mut found = 0;
    for place in 0..events.len() {
        if is_seat(seat, by[place]) {
            if !is_at(list, found, place as u64, &events[place]) {
                return false;
            }
            found += 1;
        }
    }
    found == list.len()
}

fn is_seat(seat: u64, name: Option<u64>) -> bool
    ensures { result ≡ is_of seat name }
{
    match name {
        None => false,
        Some(other) => other == seat,
    }
}

// Returns whether recording ended at event `place`.
fn is_end(end: &Option<Id>, place: Id) -> bool
    ensures { MatchBool result (end.now ≡ Some place) (end.now ≢ Some place) }
{
    match end {
        None => false,
        Some(found) => found.place() == place.place(),
    }
}

// Returns whether an unrecorded call found that recording had ended at event `end`, and found the
// Stop's cause `stop`.
fn has_found(end: &Option<Id>, stop: Option<End>, call: &UnrecordedCall) -> bool
    ensures { MatchBool result (Found end.now stop call.now) (Found end.now stop call.now → ⊥) }
{
    is_end(end, call.place) && stop == call.stop
}

/// Returns whether each unrecorded call found that recording had ended at event `end`, and found
/// the Stop's cause `stop`.
pub fn are_unrecorded(end: &Option<Id>, stop: Option<End>, unrecorded: &[UnrecordedCall]) -> bool
    ensures { MatchBool result (Each (Found end.now stop) unrecorded.now)
        (Fails (Found end.now stop) unrecorded.now) }
{
    for call in unrecorded {
        if !has_found(end, stop, call) {
            return false;
        }
    }
    true
}

// Returns whether `cause` is `stop` or `end`.
fn is_cause(cause: End, stop: Option<End>, end: Option<End>) -> bool
    ensures { MatchBool result ((stop ≡ Some cause) ⊎ (end ≡ Some cause))
        (((stop ≡ Some cause) ⊎ (end ≡ Some cause)) → ⊥) }
{
    stop == Some(cause) || end == Some(cause)
}

// Returns whether `cause` is `stop` or `end`, or wasn't reported.
fn may_be_reported(told: bool, cause: End, stop: Option<End>, end: Option<End>) -> bool
    ensures { MatchBool result (MayBeReported told cause stop end)
        (MayBeReported told cause stop end → ⊥) }
{
    !told || is_cause(cause, stop, end)
}

/// Returns whether each cause that was reported to a seat is `stop` or `end`.
#[tactic(auto, using(crate::proofs::SeatList::causes_all))]
pub fn are_causes(told: &ReportedCauses, stop: Option<End>, end: Option<End>) -> bool
    ensures { MatchBool result (AreCauses told.now stop end) (AreCauses told.now stop end → ⊥) }
{
    let full = may_be_reported(told.full, End::Full, stop, end);
    let device = may_be_reported(told.device, End::Device, stop, end);
    let memory = may_be_reported(told.memory, End::Memory, stop, end);
    are_all(full, device, memory)
}

// Returns whether all three are true.
fn are_all(one: bool, two: bool, three: bool) -> bool
    ensures { result ≡ (one && (two && three)) }
{
    one && two && three
}

/// Returns whether a receipt names a settled item that has the receipt's id.
pub fn names<R: Run>(placed: &[LogItem], settled: u64, receipt: &Receipt<R>) -> bool
    ensures { MatchBool result (NamesItem placed.now settled receipt.now)
        (NamesItem placed.now settled receipt.now → ⊥) }
{
    if receipt.number() >= settled {
        return false;
    }
    match placed.get(receipt.number() as usize) {
        None => false,
        Some(item) => item.id == receipt.id(),
    }
}

/// Returns whether each receipt names a settled item that has the receipt's id.
pub fn are_named<R: Run>(placed: &[LogItem], settled: u64, receipts: &[Receipt<R>]) -> bool
    ensures { MatchBool result (Each (NamesItem placed.now settled) receipts.now)
        (Fails (NamesItem placed.now settled) receipts.now) }
{
    for receipt in receipts {
        if !names(placed, settled, receipt) {
            return false;
        }
    }
    true
}
