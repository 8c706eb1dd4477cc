// The part of a seat: what it notes about its calls.
ghost use Rattle.std.specs.Prelude.{◌≡◌, ◌==◌, ◌≢◌, MatchBool, None, Some, is_none, length, true, false};
ghost use Rattle.lock_state.specs.History.{new_part, with_reported_cause, with_calls};
ghost use Rattle.lock_state.specs.PlacedItems.{awaited_in, settles_hand};

use crate::compare::same_bio;
use crate::handles::Handle;
use crate::note::{LogItem, Own, ReportedCauses, UnrecordedCall};
use crate::run::Run;
use bio::{Bio, DevError, End, Id};
use std::alloc::Global;
use std::marker::{Model, PhantomData};
use std::mem::swap;
use std::sync::ledger::Share;

/// The part of a seat: its number, its recorded events with their indices, and its request that is
/// under way. It also has what its unrecorded calls found, and the causes that were reported to it.
/// It has the request for which the device wasn't called yet, and how the last call ended. So each
/// request is passed to the device at most once, and it ends as its call did.
#[derive(Drop)]
pub struct SeatPart<R: Run> {
    pub(crate) number: u64,
    pub(crate) own: Vec<Own>,
    pub(crate) unrecorded: Vec<UnrecordedCall>,
    pub(crate) told: ReportedCauses,
    pub(crate) under_way: Option<Id>,
    pub(crate) due: Option<Bio>,
    pub(crate) made: Result<(), DevError>,
    pub(crate) share: Share<R>,
    pub(crate) handle: Handle<R>,
}

impl<R: Run> Model for SeatPart<R> {
    ghost use Rattle.std.specs.Prelude.{◌≡◌, ◌<◌, length, IsSome, vec_len, vec_capacity};
    ghost use Rattle.lock_state.specs.History.{Part};

    ghost Value = { Part };

    ghost view = { λ s. record {
      number = s.number;
      own = s.own.items;
      unrecorded = s.unrecorded.items;
      told = s.told;
      under_way = s.under_way;
      due = s.due;
      made = s.made;
    } };

    ghost invariant = { λ s. (s.share.amount ≡ length s.own.items) × (s.share.parts ≡ 1)
        × (IsSome s.under_way → vec_len s.own < vec_capacity s.own)
        × (s.handle.number ≡ s.number) × (s.handle.held ≡ s.under_way) };
}

impl<R: Run> SeatPart<R> {
    /// Returns the part of a seat with this number, before its first call.
    pub fn new(alloc: Global, number: u64, share: Share<R>, handle: Handle<R>) -> SeatPart<R>
        requires share { (share.parts ≡ 1) × (share.amount ≡ 0) }
        requires handle { (handle.number ≡ number) × (handle.held ≡ None) }
        ensures { result ≡ new_part number }
    {
        SeatPart {
            number,
            own: Vec::new(alloc),
            unrecorded: Vec::new(alloc),
            told: ReportedCauses {
                full: false,
                device: false,
                memory: false,
            },
            under_way: None,
            due: None,
            made: Ok(()),
            share,
            handle,
        }
    }

    /// Returns the id of the seat's request that is under way, if there is one.
    pub fn under_way(&self) -> Option<Id>
        ensures { result ≡ self.now.under_way }
    {
        self.under_way
    }

    /// Returns whether the device has to be called for this request.
    pub fn is_due(&self, bio: &Bio) -> bool
        ensures { MatchBool result (self.now.due ≡ Some bio.now) (self.now.due ≢ Some bio.now) }
    {
        match &self.due {
            Some(due) => same_bio(due, bio),
            None => false,
        }
    }

    // Exchanges the events and unrecorded calls of two seats, if both have equally many events.
    // Otherwise nothing changes.
    fn exchange_calls<C: Run>(&mut self, other: &mut SeatPart<C>) -> bool
        requires idle { (self.old.under_way ≡ None) × (other.old.under_way ≡ None) }
        ensures why { result ≡ (length self.old.own == length other.old.own) }
        ensures changed { result ≡ true
            → (self.new ≡ with_calls self.old other.old)
            × (other.new ≡ with_calls other.old self.old) }
        ensures same { result ≡ false → (self.new ≡ self.old) × (other.new ≡ other.old) }
    {
        if self.own.len() != other.own.len() {
            return false;
        }
        swap(&mut self.own, &mut other.own);
        swap(&mut self.unrecorded, &mut other.unrecorded);
        true
    }

    // Returns an empty share of the seat's ledger: it has no part, and counts no event.
    pub(crate) fn no_share(&mut self) -> Share<R>
        ensures share { (result.parts ≡ 0) × (result.amount ≡ 0) }
        ensures same { self.new ≡ self.old }
    {
        self.share.empty()
    }

    /// Notes a cause that is reported to the seat. Allocates nothing.
    pub fn tell(&mut self, cause: End)
        ensures { self.new ≡ with_reported_cause self.old cause }
    {
        match cause {
            End::Full => self.told.full = true,
            End::Device => self.told.device = true,
            End::Memory => self.told.memory = true,
        }
    }
}

/// A caller's seat, of which no request is under way between two calls. Its value in contracts is
/// its part. Code that borrows the part must end the request that it begins.
#[derive(Drop)]
pub struct Seat<R: Run> {
    pub part: SeatPart<R>,
}

impl<R: Run> Model for Seat<R> {
    ghost use Rattle.std.specs.Prelude.{◌≡◌, None};
    ghost use Rattle.lock_state.specs.History.{Part};

    ghost Value = { Part };

    ghost view = { λ s. s.part };

    ghost invariant = { λ s. s.part.under_way ≡ None };
}

impl<R: Run> Seat<R> {
    /// Exchanges the events and unrecorded calls of two seats, if both have equally many events.
    /// Otherwise nothing changes. So a seat can have the list of another recorder's seat, and a
    /// recorder that closes must detect this.
    pub fn exchange_calls<C: Run>(&mut self, other: &mut Seat<C>) -> bool
        ensures why { result ≡ (length self.old.own == length other.old.own) }
        ensures changed { result ≡ true
            → (self.new ≡ with_calls self.old other.old)
            × (other.new ≡ with_calls other.old self.old) }
        ensures same { result ≡ false → (self.new ≡ self.old) × (other.new ≡ other.old) }
    {
        self.part.exchange_calls(&mut other.part)
    }
}

/// The writer's part: the item that the writer took and hasn't placed yet, if there is one. Its
/// value in contracts is this item.
#[derive(Drop)]
pub struct WriterPart<R: Run> {
    pub(crate) hand: Option<LogItem>,
    run: PhantomData<R>,
}

impl<R: Run> Model for WriterPart<R> {
    ghost use Rattle.std.specs.Prelude.{Option};
    ghost use Rattle.lock_state.specs.declared.note.LogItem.{LogItem};
    ghost use Rattle.lock_state.specs.History.{IsReadable};

    ghost Value = { Option LogItem };

    ghost view = { λ w. w.hand };

    ghost invariant = { λ w. IsReadable R.sector_bytes w.hand };
}

impl<R: Run> WriterPart<R> {
    /// Returns a part with nothing in hand.
    pub fn new() -> WriterPart<R>
        ensures { result ≡ None }
    {
        WriterPart {
            hand: None,
            run: PhantomData,
        }
    }

    /// Returns whether nothing is in hand.
    pub fn is_empty(&self) -> bool
        ensures { result ≡ is_none self.now }
    {
        self.hand.is_none()
    }

    /// Returns whether the log must be settled right after the item in hand: it is a write with
    /// FUA, or a mark.
    pub fn settles(&self) -> bool
        ensures { result ≡ settles_hand self.now }
    {
        match &self.hand {
            None => false,
            Some(item) => item.entry.flags.fua || item.entry.flags.mark,
        }
    }

    /// Returns the id of the item in hand, if the log must be settled right after this item. Its
    /// seat waits for that.
    pub fn awaited(&self) -> Option<Id>
        ensures { result ≡ awaited_in self.now }
    {
        match &self.hand {
            Some(item) if self.settles() => Some(item.id),
            _ => None,
        }
    }
}
