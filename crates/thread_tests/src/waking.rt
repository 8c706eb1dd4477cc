//! Tests of how threads are woken. The writer sleeps when logging is given up. Two seats wait in one
//! row of receipts when logging ends, and when both of their entries are settled.
use crate::barrier::{Barrier, Sign};
use crate::play::{PlayResults, Table};
use crate::scenes::{after_writes, alone, open_disk, stage, tally};
use crate::work::{WorkCall, WorkTally};
use blockdev::BlockDev;
use sector_disk::SectorDisk;
use std::alloc::Global;
use std::io::Print;
use std::process::Abort;
use std::sync::Wait;
use std::test::*;
use std::thread::Threads;
use std::time::Clock;
use test_devices::{Failing, is_same};

// In these tests each disk has this many sectors.
const FEW: u64 = 256;

// A write has two events, its submission and its end. So the mark after this many writes, which
// come after another write, has an id that is higher by 64 than the id of that write. The ids have
// the same remainder by 64, and their seats wait in one row.
const BETWEEN: u64 = 31;

// After this many marks, each of one event, and the end of an earlier write, the next id is higher
// by 64 than the id of that write.
const BESIDE: u64 = 62;

// A receipt is lost by a wrong look only if the next one replaces it before its seat is up, and a
// wake-up only if two seats fall asleep in another order than their receipts. So two seats wait in
// one row this often.
const TRIES: u64 = 20;

// Returns a write of one sector.
fn write(fua: bool) -> WorkCall {
    WorkCall::Write {
        first: 1,
        byte: 1,
        fua,
    }
}

// Returns a pause that begins once this many calls, itself included, were begun.
fn pause(begun: u64) -> WorkCall {
    WorkCall::Pause { begun }
}

// Returns whether each seat had its answers.
fn are_answered<const N: usize>(
    rt: &impl Print,
    found: &[WorkTally],
    wanted: &[WorkTally; N],
) -> bool {
    let mut are = is_same(rt, &found.len(), &wanted.len(), "seats");
    for (one, other) in found.iter().zip(wanted) {
        are = is_same(rt, one, other, "a seat's answers") && are;
    }
    are
}

// The device holds the write of one seat. Another seat asks for the close, which is refused, and
// gives up. The writer had settled a mark, and sleeps. Its thread must end before the write does,
// because the end of the write would wake it too.
fn wakes_writer<H: Threads + Wait + Clock + Print + Sync + Send + Copy + Drop + Abort>(
    rt: &H,
    alloc: Global,
) -> bool {
    let sign = Sign::new(alloc).expect(rt, "memory");
    let tables = vec![in alloc;
        Table {
            calls: vec![in alloc; WorkCall::Mark { byte: 1 }, write(false)].expect(rt, "memory"),
            late: Vec::new(alloc),
            after: None,
        },
        Table {
            calls: vec![in alloc;
                pause(0),
                WorkCall::AskClose,
                WorkCall::GiveUp,
                WorkCall::AwaitWriter
            ]
            .expect(rt, "memory"),
            late: Vec::new(alloc),
            after: Some(sign.again().expect(rt, "memory")),
        },
    ]
    .expect(rt, "memory");
    let disk = SectorDisk::new(alloc, FEW).expect(rt, "memory");
    let device = Barrier::holding(disk, *rt, sign, 1, 0);
    let log = open_disk(rt, alloc, FEW);
    let played = stage(rt, alloc, tables, device, log, 0);
    let asker = WorkTally {
        refused: 1,
        ..tally(3, 0, 0)
    };
    are_answered(rt, played.tallies.as_slice(), &[tally(1, 1, 0), asker])
}

#[test]
fn a_sleeping_writer_ends_when_logging_is_given_up(rt: HostRuntime) -> Result<(), Fail> {
    assert!(rt; wakes_writer(&rt, rt.alloc()));
    Ok(())
}

// Two seats wait in one row for a FUA write and for a mark. The log's device holds the entry of the
// write until a third seat has paused.
fn two_wait<
    L: BlockDev + Drop + Send,
    H: Threads + Wait + Clock + Sync + Send + Copy + Drop + Abort,
>(rt: &H, alloc: Global, log: Barrier<L, H>, sign: Sign) -> PlayResults<SectorDisk, Barrier<L, H>> {
    let mark = WorkCall::Mark { byte: 1 };
    let other = sign.again().expect(rt, "memory");
    let tables = vec![in alloc;
        alone(rt, alloc, write(true), None),
        Table {
            calls: after_writes(rt, alloc, BETWEEN, mark),
            late: Vec::new(alloc),
            after: Some(other),
        },
        alone(rt, alloc, pause(BETWEEN + 3), Some(sign)),
    ]
    .expect(rt, "memory");
    let device = SectorDisk::new(alloc, FEW).expect(rt, "memory");
    stage(rt, alloc, tables, device, log, 0)
}

// The log's device fails the entry of the write, so logging ends while two seats wait in one row.
fn both_are_released<H: Threads + Wait + Clock + Print + Sync + Send + Copy + Drop + Abort>(
    rt: &H,
    alloc: Global,
) -> bool {
    let sign = Sign::new(alloc).expect(rt, "memory");
    let disk = Failing::in_changes(SectorDisk::new(alloc, FEW).expect(rt, "memory"), 1);
    let log = Barrier::holding(disk, *rt, sign.again().expect(rt, "memory"), 1, 0);
    let played = two_wait(rt, alloc, log, sign);
    let not_logged = WorkTally {
        not_logged: 1,
        ..tally(0, 0, 0)
    };
    let marker = WorkTally {
        done: BETWEEN,
        ..not_logged
    };
    let wanted = [not_logged, marker, tally(1, 0, 0)];
    are_answered(rt, played.tallies.as_slice(), &wanted)
}

#[test]
fn two_seats_of_a_row_are_released(rt: HostRuntime) -> Result<(), Fail> {
    assert!(rt; both_are_released(&rt, rt.alloc()));
    Ok(())
}

// Both entries are settled, one right after the other, while two seats wait in one row.
fn both_are_logged<H: Threads + Wait + Clock + Print + Sync + Send + Copy + Drop + Abort>(
    rt: &H,
    alloc: Global,
) -> bool {
    let sign = Sign::new(alloc).expect(rt, "memory");
    let disk = SectorDisk::new(alloc, FEW).expect(rt, "memory");
    let log = Barrier::holding(disk, *rt, sign.again().expect(rt, "memory"), 1, 0);
    let played = two_wait(rt, alloc, log, sign);
    let wanted = [tally(0, 1, 0), tally(BETWEEN, 1, 0), tally(1, 0, 0)];
    are_answered(rt, played.tallies.as_slice(), &wanted)
}

#[test]
fn two_seats_of_a_row_get_their_receipts(rt: HostRuntime) -> Result<(), Fail> {
    for _ in 0..TRIES {
        assert!(rt; both_are_logged(&rt, rt.alloc()));
    }
    Ok(())
}

// Returns whether each of two seats of a row is woken by its own receipt, if the seat whose receipt
// comes first fell asleep last. One seat makes a FUA write, which the device holds while another
// makes marks. Then the log's device holds the entry of the write, and the seat of the write looks
// at its row for a while before it sleeps. Meanwhile a third seat makes a mark, and sleeps at once.
// The entry of this mark is held too, until both seats sleep again.
fn are_each_woken<H: Threads + Wait + Clock + Print + Sync + Send + Copy + Drop + Abort>(
    rt: &H,
    alloc: Global,
) -> bool {
    let write_sign = Sign::new(alloc).expect(rt, "memory");
    let entry_sign = Sign::new(alloc).expect(rt, "memory");
    let mark_sign = Sign::new(alloc).expect(rt, "memory");
    let disk = SectorDisk::new(alloc, FEW).expect(rt, "memory");
    let device = Barrier::holding(disk, *rt, write_sign.again().expect(rt, "memory"), 1, 0);
    let disk = SectorDisk::new(alloc, FEW).expect(rt, "memory");
    let log = Barrier::holding(
        disk,
        *rt,
        entry_sign.again().expect(rt, "memory"),
        BESIDE + 1,
        0,
    );
    let log = Barrier::holding(
        log,
        *rt,
        mark_sign.again().expect(rt, "memory"),
        BESIDE + 3,
        0,
    );
    let mark = WorkCall::Mark { byte: 1 };
    let again = entry_sign.again().expect(rt, "memory");
    let tables = vec![in alloc;
        alone(rt, alloc, write(true), None),
        Table {
            calls: vec![in alloc; mark; BESIDE as usize].expect(rt, "memory"),
            late: Vec::new(alloc),
            after: Some(write_sign),
        },
        alone(rt, alloc, mark, Some(again)),
        alone(rt, alloc, pause(BESIDE + 3), Some(entry_sign)),
        alone(rt, alloc, pause(0), Some(mark_sign)),
    ]
    .expect(rt, "memory");
    let played = stage(rt, alloc, tables, device, log, 0);
    let wanted = [
        tally(0, 1, 0),
        tally(0, BESIDE, 0),
        tally(0, 1, 0),
        tally(1, 0, 0),
        tally(1, 0, 0),
    ];
    are_answered(rt, played.tallies.as_slice(), &wanted)
}

#[test]
fn each_seat_of_a_row_is_woken(rt: HostRuntime) -> Result<(), Fail> {
    for _ in 0..TRIES {
        assert!(rt; are_each_woken(&rt, rt.alloc()));
    }
    Ok(())
}
