// The close of a recorder: what it compares, and what it returns.
ghost use Rattle.std.specs.Prelude.{◌≡◌, ◌<◌, ◌≤◌, List, [], length, IfErr, IfOk};
ghost use Rattle.std.specs.Prelude.{MatchBool, None, Some, is_some, true, false};
ghost use Rattle.bio.specs.Events.{has_no_close};
ghost use Rattle.bio.specs.Content.{Content};
ghost use Rattle.refusals.specs.declared.run_error.End.{End as Cause};
ghost use Rattle.refusals.specs.declared.run_error.End.TheVariants.{Full};
ghost use Rattle.lock_state.specs.Comparison.{LegalHistory, IsTakenPrefix, Each, Receipt as Naming};
ghost use Rattle.lock_state.specs.Comparison.{HasNoRoom, LeftUnplaced, StopsWithLog};
ghost use Rattle.lock_state.specs.FirstStop.{HasStopCause};
ghost use Rattle.lock_state.specs.History.{Part, first_cause};
ghost use Rattle.lock_state.specs.PlacedItems.{Stay};
ghost use Rattle.shared.specs.Close.{Agrees, AreClosedParts, Differs, IfBusy, IfForeign, IsClosed};
ghost use Rattle.shared.specs.Close.{IsMismatched, LeavesLog};
ghost use Rattle.shared.specs.Published.{ArePublished, IsCurrent, IsLatest, PublishedFacts};
ghost use Rattle.shared.specs.Published.{StatusHasCause, end_before};

use crate::desk::Desk;
use crate::log_desk::LogDesk;
use crate::plain::placed_logs_are_plain;
use crate::published::PublishedBoard;
use crate::shared::{Shared, WriterSeat};
use bio::{End, Status};
use blockdev::BlockDev;
use board::Names;
use crossbeam_utils::CachePadded;
use lock_state::{
    CallsSeen, DataState, Done, LogItem, LogState, QueueState, Receipt, Run, Seat, are_named, drain,
};
use pending::{Core, Hazard};
use std::sync::Mutex;

/// The parts of a closed recorder.
#[derive(Drop)]
pub struct Closed<D: Drop, L: Drop> {
    /// The recorded device.
    pub device: D,
    /// The log's device.
    pub log: L,
    /// The status of the log, with the cause by which logging ended.
    pub status: Status,
    /// Why logging ended: the cause of the first Stop, or if there is none, of the log's end. If it
    /// is None and the close is Ok, the whole completion list is written.
    pub end: Option<End>,
    /// The core, with the history (`Core::events`).
    pub core: Core,
    /// The seat of each event; None for a Stop and a Close.
    pub by: Vec<Option<u64>>,
    /// The first hazard, if there is one.
    pub hazard: Option<Hazard>,
    /// The requests that were passed to the recorded device, in order, including those that weren't
    /// recorded.
    pub done: Vec<Done>,
    /// The items that were placed in the log, in order.
    pub placed: Vec<LogItem>,
    /// How many of the placed items are settled.
    pub settled: u64,
    /// How many items were taken in order to be placed.
    pub taken: u64,
    /// The cause of the first Stop, even if it came after the Close.
    pub stop: Option<End>,
    /// The cause by which the store ended, if it ended.
    pub store_end: Option<End>,
}

/// What a close that is Ok returns: the parts of the recorder, and what was published about its
/// log.
#[derive(Drop)]
pub struct Ending<D: Drop, L: Drop, R: Run + Names> {
    pub closed: Closed<D, L>,
    pub published: PublishedBoard<R>,
    /// Why the waiting threads were released, if they were.
    pub released: Option<End>,
    /// How many items the writer had placed. The close placed the others.
    pub written: u64,
    /// The cause by which logging had ended before the close wrote anything, if it had.
    pub found: Option<End>,
}

/// What a close returns if `ask_close` hasn't succeeded: everything that it got.
#[derive(Drop)]
pub struct Open<D: BlockDev + Drop, L: BlockDev + Drop, R: Run + Names> {
    pub recorder: Shared<D, L, R>,
    pub seats: Vec<Seat<R>>,
    pub writer: WriterSeat<R>,
    pub receipts: Vec<Receipt<R>>,
}

/// What a close returns if something that it got, or that the locks guarded, doesn't agree with the
/// history. It has the parts of the recorder, without any further writes. It also has what was
/// published about the log, and everything that the close got.
#[derive(Drop)]
pub struct Mismatch<D: Drop, L: Drop, R: Run + Names> {
    pub closed: Closed<D, L>,
    pub published: PublishedBoard<R>,
    /// Why the waiting threads were released, if they were.
    pub released: Option<End>,
    pub seats: Vec<Seat<R>>,
    pub writer: WriterSeat<R>,
    pub receipts: Vec<Receipt<R>>,
}

/// Why a recorder wasn't closed, with what the close returns.
#[derive(Drop)]
pub enum Unclosed<B, F> {
    /// `ask_close` hasn't succeeded.
    Busy(B),
    /// A seat, a receipt, the placed items or the device's calls don't agree with the history.
    Foreign(F),
}

impl<D: BlockDev + Drop, L: BlockDev + Drop, R: Run + Names> Shared<D, L, R> {
    /// Closes the recorder, after `ask_close` has succeeded and all threads have left the recorder.
    /// Compares everything that it gets, the placed items and the device's calls with the history.
    /// Then writes what the writer left.
    pub fn close(
        self,
        seats: Vec<Seat<R>>,
        writer: WriterSeat<R>,
        receipts: Vec<Receipt<R>>,
    ) -> Result<Ending<D, L, R>, Unclosed<Open<D, L, R>, Mismatch<D, L, R>>>
        ensures closed { IfOk result (λ c. IsClosed L.does R.begins R.log R.sector_bytes R.sectors
            R.parts (D.shown c.closed.device) (L.shown c.closed.log) seats.items receipts.items
            c.closed) }
        ensures published { IfOk result (λ c. PublishedFacts R.sector_bytes c.closed.placed.items
            c.closed.stop c.closed.store_end c.released c.published) }
        ensures current { IfOk result (λ c. IsCurrent R.sector_bytes
            c.closed.placed.items c.written (end_before c.found c.closed.store_end) c.released
            receipts.items c.published) }
        ensures ended { IfOk result (λ c. (cause : Cause) → c.found ≡ Some cause
            → (c.closed.end ≡ Some cause) × (c.written ≡ length c.closed.placed.items)) }
        ensures drained { IfOk result (λ c. c.found ≡ None
            → StopsWithLog c.closed.stop c.closed.store_end) }
        ensures full { IfOk result (λ c. c.found ≡ None → c.closed.store_end ≡ Some Full
            → HasNoRoom R.sector_bytes R.log.size c.closed.core.state c.closed.placed.items) }
        ensures foreign { IfErr result (λ e. IfForeign e (λ f. IsMismatched L.does R.begins R.log
            R.sector_bytes R.sectors R.parts (D.shown f.closed.device) (L.shown f.closed.log)
            seats.items receipts.items f.closed)) }
        ensures foreign_published { IfErr result (λ e. IfForeign e (λ f. PublishedFacts
            R.sector_bytes f.closed.placed.items f.closed.stop f.closed.store_end f.released
            f.published)) }
        ensures foreign_latest { IfErr result (λ e. IfForeign e (λ f. IsLatest R.sector_bytes
            (record {
              placed = f.closed.placed.items;
              settled = f.closed.settled;
              end = f.closed.store_end;
              released = f.released;
              room = 0;
            }) f.published)) }
        ensures foreign_back { IfErr result (λ e. IfForeign e (λ f.
            (f.seats.items ≡ seats.items) × (f.writer ≡ writer)
            × (f.receipts.items ≡ receipts.items))) }
        ensures busy { IfErr result (λ e. IfBusy e (λ o.
            (o.seats.items ≡ seats.items) × (o.writer ≡ writer)
            × (o.receipts.items ≡ receipts.items))) }
    {
        // For the prover: a crash leaves a log whose prefixes replay to what could be held.
        placed_logs_are_plain();
        let GuardedValues {
            desk,
            mut log,
            published,
            device,
        } = match self.leave_locks() {
            Ok(held) => held,
            Err(recorder) => {
                return Err(Unclosed::Busy(Open {
                    recorder,
                    seats,
                    writer,
                    receipts,
                }));
            }
        };
        let Desk {
            mut queue,
            mut notes,
        } = desk;
        let mut seats = seats;
        let mut receipts = receipts;
        queue.audit(&mut seats);
        let notes = notes.as_mut_slice();
        log.confirm_causes(&mut queue);
        let released = log.released();
        let written = log.placed().len() as u64;
        let found = first_of(queue.stop_cause(), log.end());
        let agrees = agree(
            &queue,
            &log,
            &device,
            notes,
            seats.as_slice(),
            receipts.as_slice(),
        );
        if agrees {
            let closed = finish(queue, log, device, &mut receipts);
            return Ok(Ending {
                closed,
                published,
                released,
                written,
                found,
            });
        }
        Err(Unclosed::Foreign(Mismatch {
            closed: take_apart(queue, log, device, &mut receipts),
            published,
            released,
            seats,
            writer,
            receipts,
        }))
    }

    // Returns what the locks guarded, if recording was closed and the notes are there. Otherwise
    // returns the recorder.
    fn leave_locks(self) -> Result<GuardedValues<D, L, R>, Shared<D, L, R>>
        ensures published { IfOk result (λ held. ArePublished R.sector_bytes held.log.placed held.published) }
        ensures latest { IfOk result (λ held. IsLatest R.sector_bytes held.log held.published) }
        ensures ends { IfOk result
            (λ held. Each (StatusHasCause held.log.end held.log.released) held.published) }
        ensures closed { IfOk result (λ held. (has_no_close held.desk.queue.core.events ≡ false)
            × (length held.desk.queue.core.events ≤ length held.desk.notes.items)) }
    {
        let Shared {
            queue,
            log,
            device,
            work,
            waiters,
            board,
            sectors,
            size,
            alloc,
        } = self;
        let desk = queue.into_inner().into_inner();
        let log = log.into_inner().into_inner();
        let device = device.into_inner().into_inner();
        if desk.is_ready() {
            let LogDesk { log, published } = log;
            let published = PublishedBoard::new(board, published);
            return Ok(GuardedValues {
                desk,
                log,
                published,
                device,
            });
        }
        Err(Shared {
            queue: CachePadded::new(Mutex::new(desk)),
            log: CachePadded::new(Mutex::new(log)),
            device: CachePadded::new(Mutex::new(device)),
            work,
            waiters,
            board,
            sectors,
            size,
            alloc,
        })
    }
}

// What the locks guarded, and the board.
struct GuardedValues<D: BlockDev + Drop, L: BlockDev + Drop, R: Run + Names> {
    desk: Desk<R>,
    log: LogState<L, R>,
    published: PublishedBoard<R>,
    device: DataState<D, R>,
}

// Returns whether everything agrees with the history. The caller lends a note for each event; the
// values of the notes don't matter.
fn agree<D: BlockDev + Drop, L: BlockDev + Drop, R: Run>(
    queue: &QueueState<R>,
    log: &LogState<L, R>,
    device: &DataState<D, R>,
    notes: &mut [CallsSeen],
    seats: &[Seat<R>],
    receipts: &[Receipt<R>],
) -> bool
    requires { length queue.now.core.events ≤ length notes.old }
    ensures agrees { MatchBool result
        (Agrees queue.now log.now.placed log.now.settled log.now.end device.now.calls seats.now
        receipts.now)
        (Differs queue.now log.now.placed log.now.settled log.now.end device.now.calls seats.now
        receipts.now) }
    ensures legal { result ≡ true
        → LegalHistory R.sector_bytes R.sectors queue.now.core.events queue.now.by seats.now }
{
    let end = log.end();
    if !queue.has_all(seats, end) {
        return false;
    }
    if !are_named(log.placed(), log.settled(), receipts) {
        return false;
    }
    if !queue.has_taken(log.placed()) {
        return false;
    }
    if queue.has_more(log.placed(), end) {
        return false;
    }
    queue.is_served(device.done(), notes)
}

// Writes what the writer left, and returns the parts of the recorder.
fn finish<D: BlockDev + Drop, L: BlockDev + Drop, R: Run>(
    queue: QueueState<R>,
    log: LogState<L, R>,
    device: DataState<D, R>,
    receipts: &mut Vec<Receipt<R>>,
) -> Closed<D, L>
    requires closed { has_no_close queue.core.events ≡ false }
    requires begins { IsTakenPrefix queue.core log.placed }
    requires whole { LeftUnplaced queue log.placed log.end → ⊥ }
    ensures agrees { (seats : List Part) (receipts : List Naming)
        → Agrees queue log.placed log.settled log.end device.calls seats receipts →
        Agrees (record { core = result.core.state; by = result.by.items; stop = result.stop })
        result.placed.items result.settled result.store_end result.done.items seats receipts }
    ensures stay { Stay log.placed result.placed.items }
    ensures end_stays { (cause : Cause) → log.end ≡ Some cause → result.store_end ≡ Some cause }
    ensures stop_stays { (cause : Cause) → queue.stop ≡ Some cause → result.stop ≡ Some cause }
    ensures ended { is_some (first_cause queue.stop log.end) ≡ true
        → (result.placed.items ≡ log.placed) × (result.store_end ≡ log.end)
        × (result.stop ≡ queue.stop) }
    ensures drained { queue.stop ≡ None → log.end ≡ None
        → StopsWithLog result.stop result.store_end }
    ensures full { queue.stop ≡ None → log.end ≡ None → result.store_end ≡ Some Full
        → HasNoRoom R.sector_bytes R.log.size result.core.state result.placed.items }
    ensures same { (result.core.state.events ≡ queue.core.events) × (result.by.items ≡ queue.by) }
    ensures parts { HasStopCause queue.stop log.end
        → AreClosedParts L.does R.begins R.log R.sector_bytes R.sectors (D.shown result.device)
        (L.shown result.log) receipts.old.items result }
    ensures crash { HasStopCause queue.stop log.end → (L.shown result.log).lies ≡ 0
        → (left : Content) → (L.shown result.log).crash left →
        LeavesLog R.sector_bytes
        (L.shown result.log).size result.settled result.core.state result.end left }
    ensures receipts { receipts.new.items ≡ receipts.old.items }
{
    let mut queue = queue;
    let mut log = log;
    drain(&mut queue, &mut log);
    take_apart(queue, log, device, receipts)
}

// Returns the cause of the first Stop, or if there is none, of the log's end.
fn first_of(stop: Option<End>, end: Option<End>) -> Option<End>
    ensures { result ≡ first_cause stop end }
{
    stop.or(end)
}

// Returns the parts of what the locks guarded.
fn take_apart<D: BlockDev + Drop, L: BlockDev + Drop, R: Run>(
    queue: QueueState<R>,
    log: LogState<L, R>,
    device: DataState<D, R>,
    receipts: &mut Vec<Receipt<R>>,
) -> Closed<D, L>
    ensures queue { (record { core = result.core.state; by = result.by.items; stop = result.stop })
        ≡ queue }
    ensures placed { (result.placed.items ≡ log.placed) × (result.settled ≡ log.settled) }
    ensures store_end { result.store_end ≡ log.end }
    ensures calls { result.done.items ≡ device.calls }
    ensures parts { has_no_close result.core.state.events ≡ false
        → HasStopCause result.stop result.store_end
        → AreClosedParts L.does R.begins R.log R.sector_bytes R.sectors (D.shown result.device)
        (L.shown result.log) receipts.old.items result }
    ensures receipts { receipts.new.items ≡ receipts.old.items }
{
    let taken = queue.taken_count() as u64;
    let queue = queue.into_parts();
    let log = log.into_parts(receipts.as_mut_slice());
    let (device, done) = device.into_parts();
    let store_end = log.status.end;
    let end = first_of(queue.stop, store_end);
    Closed {
        device,
        log: log.device,
        status: Status {
            entries: log.status.entries,
            sector: log.status.sector,
            end,
        },
        end,
        hazard: queue.core.hazard(),
        core: queue.core,
        by: queue.by,
        done,
        placed: log.placed,
        settled: log.settled,
        taken,
        stop: queue.stop,
        store_end,
    }
}
