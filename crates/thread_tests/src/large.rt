//! Tests with four seats, which fill a log or find it full, and read what they wrote.
ghost use Rattle.std.specs.Prelude.{◌<◌, ◌≤◌};

use crate::play::{PlayResults, Table};
use crate::scenes::{open_disk, stage, tally};
use crate::work::{WorkCall, WorkTally};
use bio::{End, Id, Ms, Status};
use blockdev::BlockDev;
use lock_state::LogItem;
use log_reader::LogReader;
use sector_disk::SectorDisk;
use std::alloc::Global;
use std::io::Print;
use std::process::Abort;
use std::sync::Wait;
use std::test::*;
use std::thread::Threads;
use std::time::Clock;
use test_devices::{holds, is_same};

// This many seats make calls.
const SEATS: u64 = 4;

// Each seat has this many sectors that no other seat uses.
const OWN: u64 = 100;

// A seat writes this byte after `ask_close`.
const LATE: u8 = 200;

// Returns the calls of a seat that writes each of its sectors once, and then makes a mark with its
// number.
fn writes_and_mark(rt: &impl Abort, alloc: Global, seat: u64) -> Table
    requires { seat < 4 }
{
    let mut calls = Vec::new(alloc);
    for place in 0..OWN {
        let write = WorkCall::Write {
            first: seat * OWN + place,
            byte: seat as u8 + 1,
            fua: false,
        };
        calls.push(write).expect(rt, "memory");
    }
    let mark = WorkCall::Mark {
        byte: seat as u8 + 49,
    };
    calls.push(mark).expect(rt, "memory");
    Table {
        calls,
        late: Vec::new(alloc),
        after: None,
    }
}

// Returns whether each of four seats had the answers `wanted`.
fn have_answers(rt: &impl Print, found: &[WorkTally], wanted: &WorkTally) -> bool {
    let mut have = is_same(rt, &found.len(), &4, "seats");
    for place in 0..found.len() {
        have = is_same(rt, &found[place], wanted, "a seat's answers") && have;
    }
    have
}

// Returns whether each of four readers read the status `last` last.
fn have_seen(rt: &impl Print, seen: &[Status], last: &Status) -> bool {
    let mut have = is_same(rt, &seen.len(), &4, "readers");
    for place in 0..seen.len() {
        have = is_same(rt, &seen[place], last, "a reader's last status") && have;
    }
    have
}

// Returns whether a receipt names the placed mark whose text is `byte`.
fn is_marks(receipt: (Id, u64), placed: &[LogItem], byte: u8) -> bool {
    let (id, number) = receipt;
    match placed.get(number as usize) {
        Some(item) => { item.id == id && item.entry.body.as_slice() == [byte].as_slice() }
        None => false,
    }
}

// Returns whether there are four receipts, one for the mark of each seat, and whether each names
// its item.
fn are_named(rt: &impl Print, receipts: &[(Id, u64)], placed: &[LogItem]) -> bool {
    if receipts.len() != 4 {
        return holds(rt, false, "four receipts");
    }
    let mut are = true;
    for seat in 0..receipts.len() {
        let is_own = is_marks(receipts[seat], placed, seat as u8 + 49);
        are = holds(rt, is_own, "a receipt") && are;
    }
    are
}

// Returns how many entries are read from a log, of at most 999.
fn read_back(alloc: Global, log: SectorDisk) -> u64 {
    let Ok(mut reader) = LogReader::open(alloc, log) else {
        return u64::MAX;
    };
    let mut count = 0;
    for number in 1..1000 {
        match reader.next() {
            Ok(Some(_)) => count = number,
            _ => return count,
        }
    }
    count
}

// Returns the calls of four seats, each of which writes its sectors and makes a mark.
fn marking_tables(rt: &impl Abort, alloc: Global) -> Vec<Table> {
    let mut tables = Vec::new(alloc);
    for seat in 0..SEATS {
        tables
            .push(writes_and_mark(rt, alloc, seat))
            .expect(rt, "memory");
    }
    tables
}

// Returns whether the answers, the receipts and the status of four seats are right, and what the
// readers read.
fn is_as_wanted<D: Drop, L: Drop>(
    rt: &impl Print,
    played: &PlayResults<D, L>,
    status: &Status,
) -> bool {
    let closed = &played.closed;
    let has_status = is_same(rt, &closed.status, status, "four seats' status");
    let have_answered = have_answers(rt, played.tallies.as_slice(), &tally(OWN, 1, 0));
    let do_rise = holds(rt, played.rises, "no status goes back");
    let are_seen = have_seen(rt, played.seen.as_slice(), status);
    let are_named = are_named(rt, played.receipts.as_slice(), closed.placed.as_slice());
    has_status && have_answered && do_rise && are_seen && are_named
}

// Four seats write a hundred sectors each and then make a mark, with a log of `sectors` sectors;
// four readers read the status. Returns whether the answers, the receipts, the status and the
// number of entries in the log are right. No reader may read a status that went back, and each must
// read the last status.
fn four_seats<H: Threads + Wait + Clock + Print + Sync + Send + Copy + Drop + Abort>(
    rt: &H,
    alloc: Global,
    sectors: u64,
    status: Status,
    listed: u64,
) -> bool
    requires { (0 < sectors) × (sectors ≤ 1048576) }
{
    let tables = marking_tables(rt, alloc);
    let device = open_disk(rt, alloc, SEATS * OWN);
    let log = open_disk(rt, alloc, sectors);
    let played = stage(rt, alloc, tables, device, log, SEATS);
    let is_right = is_as_wanted(rt, &played, &status);
    let closed = played.closed;
    let read = read_back(alloc, closed.log.into_lower());
    is_same(rt, &read, &listed, "entries that are read back") && is_right
}

#[test]
fn four_seats_fill_a_log(rt: HostRuntime) -> Result<(), Fail> {
    let status = Status {
        entries: 405,
        sector: 805,
        end: None,
    };
    assert!(rt; four_seats(&rt, rt.alloc(), 807, status, 405));
    Ok(())
}

#[test]
fn four_seats_find_a_log_full(rt: HostRuntime) -> Result<(), Fail> {
    let status = Status {
        entries: 404,
        sector: 804,
        end: Some(End::Full),
    };
    assert!(rt; four_seats(&rt, rt.alloc(), 806, status, 4));
    Ok(())
}

// Returns the calls of a seat that writes each of its sectors and reads it at once, and then
// flushes. After `ask_close` it makes the calls of `late_calls`.
fn writes_read_back(rt: &impl Abort, alloc: Global, seat: u64) -> Table
    requires { seat < 4 }
{
    let mut calls = Vec::new(alloc);
    for place in 0..OWN {
        let first = seat * OWN + place;
        let byte = place as u8 + 1;
        let write = WorkCall::Write {
            first,
            byte,
            fua: false,
        };
        calls.push(write).expect(rt, "memory");
        calls
            .push(WorkCall::Read { first, byte })
            .expect(rt, "memory");
    }
    calls.push(WorkCall::Flush).expect(rt, "memory");
    Table {
        calls,
        late: late_calls(rt, alloc, seat * OWN),
        after: None,
    }
}

// Returns the calls of a seat after `ask_close`; `first` is its first sector. It writes this
// sector, writes the second one with FUA, and discards the third. Then it reads each of the three,
// and marks.
fn late_calls(rt: &impl Abort, alloc: Global, first: u64) -> Vec<WorkCall>
    requires { first < 400 }
{
    let byte = LATE;
    vec![in alloc;
        WorkCall::Write {
            first,
            byte,
            fua: false,
        },
        WorkCall::Read { first, byte },
        WorkCall::Write {
            first: first + 1,
            byte,
            fua: true,
        },
        WorkCall::Read {
            first: first + 1,
            byte,
        },
        WorkCall::Discard { first: first + 2 },
        WorkCall::Read {
            first: first + 2,
            byte: 0,
        },
        WorkCall::Mark { byte },
    ]
    .expect(rt, "memory")
}

// Returns whether a sector of a disk is filled with `byte`.
fn has_byte(rt: &impl Abort, disk: &mut SectorDisk, alloc: Global, sector: u64, byte: u8) -> bool {
    let mut buffer = vec![in alloc; 0; 512].expect(rt, "memory");
    if sector >= disk.sectors() {
        return false;
    }
    if disk
        .read(Ms::new(0), sector, buffer.as_mut_slice())
        .is_err()
    {
        return false;
    }
    buffer.as_slice().iter().all(|&found| found == byte)
}

// Returns the byte that must fill a seat's sector number `place`. For the first three sectors
// `first` has it; otherwise it is what was written there.
fn byte_of(place: u64, first: [u8; 3]) -> u8 {
    match place {
        0 => first[0],
        1 => first[1],
        2 => first[2],
        _ => ((place % 251) as u8).saturating_add(1),
    }
}

// Returns whether each sector of the four seats is filled with its byte; `first` has those of each
// seat's first three sectors.
fn have_bytes(rt: &impl Abort, disk: &mut SectorDisk, alloc: Global, first: [u8; 3]) -> bool {
    let mut have = true;
    for sector in 0..SEATS * OWN {
        have = has_byte(rt, disk, alloc, sector, byte_of(sector % OWN, first)) && have;
    }
    have
}

// Returns the calls of four seats, each of which writes its sectors and reads them.
fn reading_tables(rt: &impl Abort, alloc: Global) -> Vec<Table> {
    let mut tables = Vec::new(alloc);
    for seat in 0..SEATS {
        tables
            .push(writes_read_back(rt, alloc, seat))
            .expect(rt, "memory");
    }
    tables
}

// Returns whether each sector has its last value, and after a crash its flushed value, or that of
// the late FUA write.
fn are_kept(rt: &(impl Print + Abort), alloc: Global, disk: &mut SectorDisk) -> bool {
    let has_last = have_bytes(rt, disk, alloc, [LATE, LATE, 0]);
    disk.crash(&[]);
    let has_flushed = have_bytes(rt, disk, alloc, [1, LATE, 3]);
    let has_last = holds(rt, has_last, "the last writes stand");
    holds(rt, has_flushed, "what was flushed stands after a crash") && has_last
}

// Four seats write, read and flush, and change sectors again after `ask_close`. Returns whether
// each read found what was written, and each sector of the device has its last value. After a crash
// each sector must have its flushed value, or that of the late FUA write.
fn readback<H: Threads + Wait + Clock + Print + Sync + Send + Copy + Drop + Abort>(
    rt: &H,
    alloc: Global,
) -> bool {
    let tables = reading_tables(rt, alloc);
    let device = open_disk(rt, alloc, SEATS * OWN);
    let log = open_disk(rt, alloc, 1000);
    let played = stage(rt, alloc, tables, device, log, 0);
    let wanted = WorkTally {
        refused: 1,
        ..tally(OWN + 4, 0, OWN + 3)
    };
    let have_answered = have_answers(rt, played.tallies.as_slice(), &wanted);
    let closed = played.closed;
    let mut disk = closed.device.into_lower();
    are_kept(rt, alloc, &mut disk) && have_answered
}

#[test]
fn reads_find_what_was_written(rt: HostRuntime) -> Result<(), Fail> {
    assert!(rt; readback(&rt, rt.alloc()));
    Ok(())
}
