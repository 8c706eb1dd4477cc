//! Runs a recorder with a thread for each seat, for the readers and for the writer, and closes it.
ghost use Rattle.std.specs.Prelude.{◌≡◌, ℕ, ◌<◌, ◌≤◌};
ghost use Rattle.std.specs.Thread.{IsSend};
ghost use Rattle.lock_state.specs.PlacedItems.{ground_of};

use crate::barrier::Sign;
use crate::course::Course;
use crate::work::{SeatPlayer, SeatWork, WorkCall, WorkTally};
use bio::{End, Id, Status};
use blockdev::BlockDev;
use board::Names;
use lock_state::{Receipt, Run, Seat};
use shared::{Closed, Ending, Shared, Started, StatusSeat, Unnamed, WriterSeat};
use std::alloc::Global;
use std::process::Abort;
use std::sync::Wait;
use std::thread;
use std::thread::Threads;
use std::time::Clock;

/// The calls of one seat: `calls` before `ask_close`, and `late` after it. The seat waits for the
/// sign `after`, if there is one.
#[derive(Drop)]
pub struct Table {
    pub calls: Vec<WorkCall>,
    pub late: Vec<WorkCall>,
    pub after: Option<Sign>,
}

// A reader reads the status this often while calls are made.
const LOOKS: u64 = 10_000;

/// A reader, the status that it read last, and whether a status went back. A status goes back if it
/// has fewer entries than the one before it, or another end.
#[derive(Drop)]
pub struct Watch<R: Run + Names> {
    pub seat: StatusSeat<R>,
    pub last: Status,
    pub fell: bool,
}

impl<R: Run + Names> Watch<R> {
    // Reads the status `looks` times.
    fn look<D: BlockDev + Drop, L: BlockDev + Drop>(
        &mut self,
        recorder: &Shared<D, L, R>,
        looks: u64,
    ) {
        for _ in 0..looks {
            let status = recorder.status(&mut self.seat);
            let is_end_kept = self.last.end.is_none() || status.end == self.last.end;
            self.fell = self.fell || status.entries < self.last.entries || !is_end_kept;
            self.last = status;
        }
    }
}

/// The results of a closed recorder. `tallies` has a tally for each table, in their order. `let_go`
/// says whether each seat with a sign released a held call.
#[derive(Drop)]
pub struct PlayResults<D: Drop, L: Drop> {
    pub tallies: Vec<WorkTally>,
    pub let_go: bool,
    /// For each reader, the status that it read after all threads had ended.
    pub seen: Vec<Status>,
    /// Whether no reader read a status that went back.
    pub rises: bool,
    /// The id and the number of each receipt.
    pub receipts: Vec<(Id, u64)>,
    pub closed: Closed<D, L>,
    /// Why the waiting seats were released, if they were.
    pub released: Option<End>,
}

// The seats and the readers after all calls.
#[derive(Drop)]
struct Called<R: Run + Names> {
    works: Vec<SeatWork<R>>,
    watches: Vec<Watch<R>>,
}

// Starts the writer and the readers, makes each seat's calls in a thread, calls `ask_close`, and
// makes the late calls. A thread that can't be started, one that doesn't end, and a refused
// `ask_close` stop the test.
fn run_all<
    D: BlockDev + Drop + Send,
    L: BlockDev + Drop + Send,
    R: Run + Names + Send + Sync,
    H: Threads + Wait + Clock + Sync + Abort,
>(
    rt: &H,
    alloc: Global,
    recorder: &Shared<D, L, R>,
    writer: &mut WriterSeat<R>,
    works: Vec<SeatWork<R>>,
    watches: Vec<Watch<R>>,
) -> Called<R> {
    let course = Course::new();
    let course = &course;
    thread::scope(
        thread::scope_env(),
        rt,
        |scope| -> Called<R>
            requires { IsSend D.row × IsSend L.row × IsSend R.row }
        {
            scope
                .spawn(move || {
                    recorder.write_loop(rt, writer);
                    course.end_writer();
                })
                .ok()
                .expect(rt, "the writer's thread");
            scope
                .spawn(move || course.watch(rt))
                .ok()
                .expect(rt, "the watching thread");
            let lookers = scope
                .spawn(move || look_all(rt, recorder, watches))
                .ok()
                .expect(rt, "the readers' thread");
            let works = call_all(rt, alloc, recorder, works, course, false);
            recorder.ask_close(rt).ok().expect(rt, "a close");
            let works = call_all(rt, alloc, recorder, works, course, true);
            let watches = lookers.join(rt);
            course.end_others();
            Called { works, watches }
        },
    )
}

// Makes each reader read the status, each in its own thread.
fn look_all<
    D: BlockDev + Drop + Send,
    L: BlockDev + Drop + Send,
    R: Run + Names + Send + Sync,
    H: Threads + Wait + Sync,
>(rt: &H, recorder: &Shared<D, L, R>, watches: Vec<Watch<R>>) -> Vec<Watch<R>> {
    let mut watches = watches;
    let threads = watches.len().saturating_add(1);
    thread::for_each_mut(
        rt,
        watches.as_mut_slice(),
        threads,
        &|_, watch: &mut Watch<R>| { watch.look(recorder, LOOKS) },
    );
    watches
}

// Makes each seat's calls, or its late calls if `late`, each seat in its own thread.
fn call_all<
    D: BlockDev + Drop + Send,
    L: BlockDev + Drop + Send,
    R: Run + Names + Send + Sync,
    H: Threads + Wait + Clock + Sync,
>(
    rt: &H,
    alloc: Global,
    recorder: &Shared<D, L, R>,
    works: Vec<SeatWork<R>>,
    course: &Course,
    late: bool,
) -> Vec<SeatWork<R>> {
    let mut works = works;
    let threads = works.len().saturating_add(1);
    thread::for_each_mut(
        rt,
        works.as_mut_slice(),
        threads,
        &|_, work: &mut SeatWork<R>| { work.run(rt, alloc, recorder, course, late) },
    );
    works
}

// Pairs each seat with a table, before its first call.
fn works_of<R: Run + Names>(
    rt: &impl Abort,
    alloc: Global,
    seats: Vec<Seat<R>>,
    tables: Vec<Table>,
) -> Vec<SeatWork<R>> {
    let mut works = Vec::new(alloc);
    for (seat, table) in seats.into_iter().zip(tables) {
        works
            .push(SeatWork {
                player: SeatPlayer {
                    seat,
                    tally: WorkTally::new(),
                    receipts: Vec::new(alloc),
                },
                calls: table.calls,
                late: table.late,
                after: table.after,
                let_go: true,
            })
            .expect(rt, "memory");
    }
    works
}

// Returns the readers, before their first read.
fn watches_of<R: Run + Names>(
    rt: &impl Abort,
    alloc: Global,
    readers: Vec<StatusSeat<R>>,
) -> Vec<Watch<R>> {
    let last = Status {
        entries: 0,
        sector: 0,
        end: None,
    };
    let mut watches = Vec::new(alloc);
    for seat in readers {
        watches
            .push(Watch {
                seat,
                last,
                fell: false,
            })
            .expect(rt, "memory");
    }
    watches
}

// What the works leave: seats, receipts and tallies.
#[derive(Drop)]
struct Leavings<R: Run + Names> {
    seats: Vec<Seat<R>>,
    receipts: Vec<Receipt<R>>,
    tallies: Vec<WorkTally>,
    let_go: bool,
}

// Splits the works into their seats, their tallies in the same order, and their receipts.
fn parts_of<R: Run + Names>(
    rt: &impl Abort,
    alloc: Global,
    works: Vec<SeatWork<R>>,
) -> Leavings<R> {
    let mut seats = Vec::new(alloc);
    let mut receipts = Vec::new(alloc);
    let mut tallies = Vec::new(alloc);
    let mut let_go = true;
    for work in works {
        let_go = let_go && work.let_go;
        let SeatPlayer {
            seat,
            tally,
            receipts: mut own,
        } = work.player;
        tallies.push(tally).expect(rt, "memory");
        receipts.append(&mut own).expect(rt, "memory");
        seats.push(seat).expect(rt, "memory");
    }
    Leavings {
        seats,
        receipts,
        tallies,
        let_go,
    }
}

fn names_of<R: Run>(rt: &impl Abort, alloc: Global, receipts: &[Receipt<R>]) -> Vec<(Id, u64)> {
    let mut names = Vec::new(alloc);
    for receipt in receipts {
        names
            .push((receipt.id(), receipt.number()))
            .expect(rt, "memory");
    }
    names
}

// Makes each reader read once more. Returns the status that each read last, and whether no reader
// read a status that went back.
fn last_looks<D: BlockDev + Drop, L: BlockDev + Drop, R: Run + Names>(
    rt: &impl Abort,
    alloc: Global,
    recorder: &Shared<D, L, R>,
    watches: Vec<Watch<R>>,
) -> (Vec<Status>, bool) {
    let mut seen = Vec::new(alloc);
    let mut rises = true;
    for watch in watches {
        let mut watch = watch;
        watch.look(recorder, 1);
        rises = rises && !watch.fell;
        seen.push(watch.last).expect(rt, "memory");
    }
    (seen, rises)
}

/// Makes the calls of the tables, with a seat for each, and closes the recorder. Stops the test if
/// the recorder or a thread can't be started, or if `ask_close` or the close is refused.
pub fn play<
    D: BlockDev + Drop + Send,
    L: BlockDev + Drop + Send,
    R: Run + Names + Send + Sync,
    H: Threads + Wait + Clock + Sync + Abort,
>(
    rt: &H,
    alloc: Global,
    unnamed: Unnamed,
    device: D,
    log: L,
    tables: Vec<Table>,
    count: u64,
    readers: u64,
) -> PlayResults<D, L>
    requires seats { (0 < count) × (count ≤ 64) }
    requires readers { readers ≤ 64 }
    requires ledger { (unnamed.ledger.name ≡ R.name) × (unnamed.ledger.parts ≡ R.parts)
        × (unnamed.ledger.parts ≡ count) }
    requires table { (unnamed.table ≡ R.table) × (unnamed.stops ≡ R.stops)
        × (unnamed.ends ≡ R.ends) × (unnamed.reads ≡ R.reads) }
    requires board { unnamed.board ≡ R.board }
    requires sectors { (D.shown device).size ≡ R.sectors }
    requires log { R.log ≡ ground_of (L.shown log) }
    requires begins { (reading : ℕ) → R.begins reading }
    requires sector_size { R.sector_bytes ≡ 512 }
{
    let started = Shared::<D, L, R>::new(alloc, unnamed, device, log, count, readers)
        .ok()
        .expect(rt, "a recorder starts");
    let Started {
        recorder,
        seats,
        mut writer,
        readers,
    } = started;
    let watches = watches_of(rt, alloc, readers);
    let works = works_of(rt, alloc, seats, tables);
    let called = run_all(rt, alloc, &recorder, &mut writer, works, watches);
    end(rt, alloc, recorder, writer, called)
}

// Closes the recorder, after all calls.
fn end<D: BlockDev + Drop, L: BlockDev + Drop, R: Run + Names>(
    rt: &impl Abort,
    alloc: Global,
    recorder: Shared<D, L, R>,
    writer: WriterSeat<R>,
    called: Called<R>,
) -> PlayResults<D, L> {
    let Called { works, watches } = called;
    let (seen, rises) = last_looks(rt, alloc, &recorder, watches);
    let Leavings {
        seats,
        receipts,
        tallies,
        let_go,
    } = parts_of(rt, alloc, works);
    let kept = names_of(rt, alloc, receipts.as_slice());
    let Ending {
        closed,
        published: _,
        released,
        written: _,
        found: _,
    } = recorder
        .close(seats, writer, receipts)
        .ok()
        .expect(rt, "a close");
    PlayResults {
        tallies,
        let_go,
        seen,
        rises,
        receipts: kept,
        closed,
        released,
    }
}
