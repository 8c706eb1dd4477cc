//! Tests of four situations. A device holds a seat's call, and another seat's call is answered
//! meanwhile. A log has hardly any room, or none. A log's device fails. The recorded device fails.
ghost use Rattle.std.specs.Prelude.{◌<◌, ◌≤◌};

use crate::barrier::{Barrier, Sign};
use crate::play::{PlayResults, Table, play};
use crate::work::{WorkCall, WorkTally};
use bio::{End, Status};
use blockdev::BlockDev;
use sector_disk::SectorDisk;
use shared::Unnamed;
use std::alloc::Global;
use std::io::Print;
use std::marker::Brand;
use std::process::Abort;
use std::sync::Wait;
use std::test::*;
use std::thread::Threads;
use std::time::Clock;
use test_devices::{Failing, holds, is_same};

// In these tests each disk has this many sectors.
const FEW: u64 = 64;

/// Returns a tally with these counts, and with 0 for all other answers.
pub fn tally(done: u64, logged: u64, found: u64) -> WorkTally {
    WorkTally {
        done,
        logged,
        failed: 0,
        starved: 0,
        not_logged: 0,
        refused: 0,
        found,
    }
}

/// Returns a table with one call. The seat waits for the sign `after`, if there is one.
pub fn alone(rt: &impl Abort, alloc: Global, call: WorkCall, after: Option<Sign>) -> Table {
    Table {
        calls: vec![in alloc; call; 1].expect(rt, "memory"),
        late: Vec::new(alloc),
        after,
    }
}

/// Returns a disk under a barrier that holds no call.
pub fn open_disk<H: Clock + Copy + Drop + Abort>(
    rt: &H,
    alloc: Global,
    sectors: u64,
) -> Barrier<SectorDisk, H>
    requires { (0 < sectors) × (sectors ≤ 1048576) }
{
    let disk = SectorDisk::new(alloc, sectors).expect(rt, "memory");
    Barrier::open(disk, *rt, Sign::new(alloc).expect(rt, "memory"))
}

/// Makes the calls of the tables on these devices, with `readers` readers.
pub fn stage<
    D: BlockDev + Drop + Send,
    L: BlockDev + Drop + Send,
    H: Threads + Wait + Clock + Sync + Abort,
>(rt: &H, alloc: Global, tables: Vec<Table>, device: D, log: L, readers: u64) -> PlayResults<D, L>
    requires { readers ≤ 64 }
{
    let count = tables.len() as u64;
    assert!(rt; 0 < count && count <= 64);
    let unnamed = Unnamed::new(alloc, count).expect(rt, "memory");
    play::<D, L, Brand, H>(rt, alloc, unnamed, device, log, tables, count, readers)
}

// Which device holds a call.
#[derive(Clone, Copy, Debug, PartialEq, Eq)]
enum HeldDevice {
    Device,
    Log,
}

// The calls of two seats. The first seat makes `before` plain writes before its call. A device
// passes `passes` writes to `sector`, and holds the next one until the second seat's call is
// answered. `tallies` are the expected answers.
#[derive(Clone, Copy, Debug)]
struct TwoSeats {
    held: HeldDevice,
    sector: u64,
    passes: u64,
    before: u64,
    calls: (WorkCall, WorkCall),
    tallies: (WorkTally, WorkTally),
    // The expected status of the log in the end.
    status: Status,
}

// Returns the tables of both seats. The second seat waits until a call is held.
fn two_tables(rt: &impl Abort, alloc: Global, scene: &TwoSeats, sign: Sign) -> Vec<Table> {
    let mut tables = Vec::new(alloc);
    tables
        .push(Table {
            calls: after_writes(rt, alloc, scene.before, scene.calls.0),
            late: Vec::new(alloc),
            after: None,
        })
        .expect(rt, "memory");
    tables
        .push(alone(rt, alloc, scene.calls.1, Some(sign)))
        .expect(rt, "memory");
    tables
}

/// Returns this many plain writes, and then the call.
pub fn after_writes(rt: &impl Abort, alloc: Global, before: u64, call: WorkCall) -> Vec<WorkCall> {
    let mut calls = Vec::new(alloc);
    for _ in 0..before {
        let write = WorkCall::Write {
            first: 1,
            byte: 1,
            fua: false,
        };
        calls.push(write).expect(rt, "memory");
    }
    calls.push(call).expect(rt, "memory");
    calls
}

// Returns whether each of two seats had the answers `wanted`.
fn are_answered(rt: &impl Print, found: &[WorkTally], wanted: (WorkTally, WorkTally)) -> bool {
    let [one, other] = found else {
        return holds(rt, false, "two tallies");
    };
    let is_one = is_same(rt, one, &wanted.0, "the held call");
    is_same(rt, other, &wanted.1, "the other call") && is_one
}

// Plays a scene. Returns whether the call was still held when the second seat's call was answered.
// The answers and the status must be as expected too.
fn behind_barrier<H: Threads + Wait + Clock + Print + Sync + Send + Copy + Drop + Abort>(
    rt: &H,
    alloc: Global,
    scene: TwoSeats,
) -> bool {
    let sign = Sign::new(alloc).expect(rt, "memory");
    let other = sign.again().expect(rt, "memory");
    let tables = two_tables(rt, alloc, &scene, sign);
    let disk = SectorDisk::new(alloc, FEW).expect(rt, "memory");
    let holding = Barrier::holding(disk, *rt, other, scene.sector, scene.passes);
    let open = open_disk(rt, alloc, FEW);
    let (device, log) = match scene.held {
        HeldDevice::Device => (holding, open),
        HeldDevice::Log => (open, holding),
    };
    let played = stage(rt, alloc, tables, device, log, 0);
    is_as_wanted(rt, &played, &scene)
}

// Returns whether the answers and the status are as expected.
fn is_as_wanted<D: Drop, L: Drop>(
    rt: &impl Print,
    played: &PlayResults<D, L>,
    scene: &TwoSeats,
) -> bool {
    let is_let_go = holds(
        rt,
        played.let_go,
        "the call was held until the other was answered",
    );
    let is_status = is_same(rt, &played.closed.status, &scene.status, "a scene's status");
    let is_end = is_same(
        rt,
        &played.released,
        &scene.status.end,
        "why waiters are let go",
    );
    let are_tallies = are_answered(rt, played.tallies.as_slice(), scene.tallies);
    are_tallies && is_let_go && is_status && is_end
}

// Returns the status of a log that hasn't ended, with `entries` entries up to sector `sector`.
fn goes_on(entries: u64, sector: u64) -> Status {
    Status {
        entries,
        sector,
        end: None,
    }
}

// The log's first write after its creation, a flush's entry, is held until another seat's write is
// answered.
#[test]
fn a_write_is_answered_while_the_log_is_written(rt: HostRuntime) -> Result<(), Fail> {
    let scene = TwoSeats {
        held: HeldDevice::Log,
        sector: 1,
        passes: 0,
        before: 0,
        calls: (
            WorkCall::Flush,
            WorkCall::Write {
                first: 1,
                byte: 1,
                fua: false,
            },
        ),
        tallies: (tally(1, 0, 0), tally(1, 0, 0)),
        status: goes_on(3, 4),
    };
    assert!(rt; behind_barrier(&rt, rt.alloc(), scene));
    Ok(())
}

// Logging is stopped while an entry is written to the log. The writer had taken the entry, so it
// finishes the entry.
#[test]
fn a_taken_entry_is_written_after_a_stop(rt: HostRuntime) -> Result<(), Fail> {
    let scene = TwoSeats {
        held: HeldDevice::Log,
        sector: 1,
        passes: 0,
        before: 0,
        calls: (WorkCall::Flush, WorkCall::GiveUp),
        tallies: (tally(1, 0, 0), tally(1, 0, 0)),
        status: Status {
            end: Some(End::Memory),
            ..goes_on(1, 1)
        },
    };
    assert!(rt; behind_barrier(&rt, rt.alloc(), scene));
    Ok(())
}

// Logging is stopped while the first of three entries is written to the log. The writer had taken
// all three at once, so it writes them all.
#[test]
fn taken_entries_are_written_after_a_stop(rt: HostRuntime) -> Result<(), Fail> {
    let scene = TwoSeats {
        held: HeldDevice::Log,
        sector: 1,
        passes: 0,
        before: 2,
        calls: (WorkCall::Flush, WorkCall::GiveUp),
        tallies: (tally(3, 0, 0), tally(1, 0, 0)),
        status: Status {
            end: Some(End::Memory),
            ..goes_on(3, 5)
        },
    };
    assert!(rt; behind_barrier(&rt, rt.alloc(), scene));
    Ok(())
}

// Logging is stopped while the device holds a FUA write. The seat doesn't wait for the log then.
#[test]
fn a_write_is_let_go_after_a_stop(rt: HostRuntime) -> Result<(), Fail> {
    let scene = TwoSeats {
        held: HeldDevice::Device,
        sector: 1,
        passes: 0,
        before: 0,
        calls: (
            WorkCall::Write {
                first: 1,
                byte: 1,
                fua: true,
            },
            WorkCall::GiveUp,
        ),
        tallies: (
            WorkTally {
                not_logged: 1,
                ..tally(0, 0, 0)
            },
            tally(1, 0, 0),
        ),
        status: Status {
            end: Some(End::Memory),
            ..goes_on(0, 0)
        },
    };
    assert!(rt; behind_barrier(&rt, rt.alloc(), scene));
    Ok(())
}

// `ask_close` is called while the device holds a request. It is refused as busy, and recording goes
// on.
#[test]
fn a_close_is_busy_while_a_request_is_open(rt: HostRuntime) -> Result<(), Fail> {
    let scene = TwoSeats {
        held: HeldDevice::Device,
        sector: 1,
        passes: 0,
        before: 0,
        calls: (
            WorkCall::Write {
                first: 1,
                byte: 1,
                fua: false,
            },
            WorkCall::AskClose,
        ),
        tallies: (
            tally(1, 0, 0),
            WorkTally {
                refused: 1,
                ..tally(0, 0, 0)
            },
        ),
        status: goes_on(2, 3),
    };
    assert!(rt; behind_barrier(&rt, rt.alloc(), scene));
    Ok(())
}

// The super block is written after one seat's mark. This write is held until another seat's write
// is answered.
#[test]
fn a_write_is_answered_while_a_mark_is_made_sure(rt: HostRuntime) -> Result<(), Fail> {
    let scene = TwoSeats {
        held: HeldDevice::Log,
        sector: 0,
        passes: 1,
        before: 0,
        calls: (
            WorkCall::Mark { byte: 1 },
            WorkCall::Write {
                first: 1,
                byte: 1,
                fua: false,
            },
        ),
        tallies: (tally(0, 1, 0), tally(1, 0, 0)),
        status: goes_on(3, 4),
    };
    assert!(rt; behind_barrier(&rt, rt.alloc(), scene));
    Ok(())
}

// The super block is written after one seat's FUA write. This write is held until another seat's
// write is answered.
#[test]
fn a_write_is_answered_while_a_fua_write_is_made_sure(rt: HostRuntime) -> Result<(), Fail> {
    let scene = TwoSeats {
        held: HeldDevice::Log,
        sector: 0,
        passes: 1,
        before: 0,
        calls: (
            WorkCall::Write {
                first: 2,
                byte: 1,
                fua: true,
            },
            WorkCall::Write {
                first: 1,
                byte: 1,
                fua: false,
            },
        ),
        tallies: (tally(0, 1, 0), tally(1, 0, 0)),
        status: goes_on(3, 5),
    };
    assert!(rt; behind_barrier(&rt, rt.alloc(), scene));
    Ok(())
}

// The device holds one seat's write until another seat's mark is answered.
#[test]
fn a_mark_is_answered_while_the_device_writes(rt: HostRuntime) -> Result<(), Fail> {
    let scene = TwoSeats {
        held: HeldDevice::Device,
        sector: 1,
        passes: 0,
        before: 0,
        calls: (
            WorkCall::Write {
                first: 1,
                byte: 1,
                fua: false,
            },
            WorkCall::Mark { byte: 1 },
        ),
        tallies: (tally(1, 0, 0), tally(0, 1, 0)),
        status: goes_on(3, 4),
    };
    assert!(rt; behind_barrier(&rt, rt.alloc(), scene));
    Ok(())
}

// A seat makes one call, with a log of `sectors` sectors. Returns whether the answer and the status
// are as expected.
fn small_log<H: Threads + Wait + Clock + Print + Sync + Send + Copy + Drop + Abort>(
    rt: &H,
    alloc: Global,
    sectors: u64,
    call: WorkCall,
    answer: WorkTally,
    status: Status,
) -> bool
    requires { (0 < sectors) × (sectors ≤ 1048576) }
{
    let mut tables = Vec::new(alloc);
    tables
        .push(alone(rt, alloc, call, None))
        .expect(rt, "memory");
    let device = open_disk(rt, alloc, 16);
    let log = open_disk(rt, alloc, sectors);
    let played = stage(rt, alloc, tables, device, log, 0);
    let is_status = is_same(rt, &played.closed.status, &status, "a small log's status");
    let is_told = is_same(rt, &played.released, &status.end, "why a waiter is let go");
    let found = played.tallies.first().expect(rt, "one tally");
    is_same(rt, found, &answer, "one seat's answer") && is_status && is_told
}

// A log of two sectors has no room for a mark.
#[test]
fn one_seat_finds_no_room_for_a_mark(rt: HostRuntime) -> Result<(), Fail> {
    let mark = WorkCall::Mark { byte: 120 };
    let not_logged = WorkTally {
        not_logged: 1,
        ..tally(0, 0, 0)
    };
    let status = Status {
        entries: 0,
        sector: 0,
        end: Some(End::Full),
    };
    assert!(rt; small_log(&rt, rt.alloc(), 2, mark, not_logged, status));
    Ok(())
}

#[test]
fn one_seat_finds_room_for_a_write_alone(rt: HostRuntime) -> Result<(), Fail> {
    let write = WorkCall::Write {
        first: 5,
        byte: 65,
        fua: true,
    };
    let status = Status {
        entries: 1,
        sector: 2,
        end: Some(End::Full),
    };
    assert!(rt; small_log(&rt, rt.alloc(), 4, write, tally(0, 1, 0), status));
    Ok(())
}

// Returns calls of a seat whose last one is a mark with this id. The calls before it are plain
// writes and, if the id is odd, a mark that is logged. A write takes two ids.
fn calls_up_to(rt: &impl Abort, alloc: Global, id: u64) -> Vec<WorkCall> {
    let mut calls = Vec::new(alloc);
    if id % 2 == 1 {
        calls.push(WorkCall::Mark { byte: 1 }).expect(rt, "memory");
    }
    for _ in 0..id / 2 {
        let write = WorkCall::Write {
            first: 1,
            byte: 1,
            fua: false,
        };
        calls.push(write).expect(rt, "memory");
    }
    calls.push(WorkCall::Mark { byte: 2 }).expect(rt, "memory");
    calls
}

// A seat waits for a mark with this id. The log has no room for the mark, so it ends, and the seat
// is released.
fn is_released<H: Threads + Wait + Clock + Print + Sync + Send + Copy + Drop + Abort>(
    rt: &H,
    alloc: Global,
    id: u64,
) -> bool {
    let logged = id % 2;
    let mut tables = Vec::new(alloc);
    let table = Table {
        calls: calls_up_to(rt, alloc, id),
        late: Vec::new(alloc),
        after: None,
    };
    tables.push(table).expect(rt, "memory");
    let device = open_disk(rt, alloc, FEW);
    let log = open_disk(rt, alloc, 2 + logged);
    let played = stage(rt, alloc, tables, device, log, 0);
    let found = played.tallies.first().expect(rt, "one tally");
    let wanted = WorkTally {
        not_logged: 1,
        ..tally(id / 2, logged, 0)
    };
    is_same(rt, found, &wanted, "the answers of a released seat")
}

#[test]
fn a_mark_with_any_id_is_released(rt: HostRuntime) -> Result<(), Fail> {
    for id in 0..64 {
        assert!(rt; is_released(&rt, rt.alloc(), id));
    }
    Ok(())
}

// A seat makes a mark. The log's device passes only the write that creates the log. So the log
// ends, logging stops, and the waiting seat is released.
fn failing_log<H: Threads + Wait + Clock + Print + Sync + Abort>(rt: &H, alloc: Global) -> bool {
    let mut tables = Vec::new(alloc);
    tables
        .push(alone(rt, alloc, WorkCall::Mark { byte: 120 }, None))
        .expect(rt, "memory");
    let device = SectorDisk::new(alloc, FEW).expect(rt, "memory");
    let log = Failing::in_changes(SectorDisk::new(alloc, FEW).expect(rt, "memory"), 1);
    let played = stage(rt, alloc, tables, device, log, 1);
    let end = Some(End::Device);
    let status = Status {
        end,
        ..goes_on(0, 0)
    };
    let not_logged = WorkTally {
        not_logged: 1,
        ..tally(0, 0, 0)
    };
    let is_log = is_same(rt, &played.closed.store_end, &end, "why the log ended");
    let is_stop = is_same(rt, &played.closed.stop, &end, "why logging stopped");
    let is_told = is_same(rt, &played.released, &end, "why a waiter is let go");
    let is_status = is_same(rt, &played.closed.status, &status, "a failed log's status");
    let found = played.tallies.first().expect(rt, "one tally");
    let seen = played.seen.first().expect(rt, "one reader");
    let is_seen = is_same(rt, seen, &status, "the status that was seen last");
    let is_answered = is_same(rt, found, &not_logged, "one seat's answer");
    is_log && is_stop && is_told && is_status && is_seen && is_answered
}

#[test]
fn a_log_whose_device_fails_ends_by_that(rt: HostRuntime) -> Result<(), Fail> {
    assert!(rt; failing_log(&rt, rt.alloc()));
    Ok(())
}

// Returns a write, a FUA write, a read, a discard and a flush.
fn device_calls(rt: &impl Abort, alloc: Global) -> Vec<WorkCall> {
    let mut calls = Vec::new(alloc);
    for fua in [false, true] {
        let write = WorkCall::Write {
            first: 1,
            byte: 7,
            fua,
        };
        calls.push(write).expect(rt, "memory");
    }
    calls
        .push(WorkCall::Read { first: 1, byte: 7 })
        .expect(rt, "memory");
    calls
        .push(WorkCall::Discard { first: 1 })
        .expect(rt, "memory");
    calls.push(WorkCall::Flush).expect(rt, "memory");
    calls
}

// Makes a seat's calls, and its late calls, on a device that fails each call. Returns whether each
// answer is this failure, and none is lack of memory.
fn failing_device<H: Threads + Wait + Clock + Print + Sync + Abort>(rt: &H, alloc: Global) -> bool {
    let mut tables = Vec::new(alloc);
    let table = Table {
        calls: device_calls(rt, alloc),
        late: device_calls(rt, alloc),
        after: None,
    };
    tables.push(table).expect(rt, "memory");
    let device = Failing::in_calls(SectorDisk::new(alloc, FEW).expect(rt, "memory"), 0);
    let log = SectorDisk::new(alloc, FEW).expect(rt, "memory");
    let played = stage(rt, alloc, tables, device, log, 0);
    let found = played.tallies.first().expect(rt, "one tally");
    let failed = WorkTally {
        failed: 10,
        ..tally(0, 0, 0)
    };
    is_same(
        rt,
        found,
        &failed,
        "the answers of a seat whose device fails",
    )
}

#[test]
fn a_fault_of_the_device_is_answered(rt: HostRuntime) -> Result<(), Fail> {
    assert!(rt; failing_device(&rt, rt.alloc()));
    Ok(())
}
