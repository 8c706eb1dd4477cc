//! Two seats record requests in the values that the locks guard, but without locks or threads. What
//! they queue is placed, and in the end everything is compared with the history.
ghost use Rattle.std.specs.Prelude.{◌≡◌, None};
ghost use Rattle.bio.specs.Requests.{bytes_of};
ghost use Rattle.lock_state.specs.PlacedItems.{ground_of};
ghost use Rattle.log_store.specs.Calls.{store_of};
ghost use Rattle.sector_disk.specs.DiskView.{shown_of};

use bio::{Bio, Bytes, Ms, SectorSize, check, check_sized};
use lock_state::{DataState, Fresh, LogState, QueueState, Run, Seat, WriterPart, drain};
use log_store::LogStore;
use pending::is_text;
use sector_disk::SectorDisk;
use std::alloc::Global;
use std::io::Print;
use std::marker::Brand;
use std::process::Abort;
use std::sync::ledger::Blank;
use std::test::*;
use test_devices::holds;

// The recorded device has this many sectors.
const SECTORS: u64 = 64;

// The log's disk has this many sectors.
const LOG_SECTORS: u64 = 128;

// Returns a write of one log sector: number `number` of the device's pieces of that size.
fn write(rt: &impl Abort, alloc: Global, size: SectorSize, number: u64, fua: bool) -> Bio {
    Bio::Write {
        first: number.saturating_mul(size.sectors()),
        bytes: Bytes::from_vec(vec![in alloc; 7; size.bytes() as usize].expect(rt, "memory")),
        flush: false,
        fua,
        meta: false,
    }
}

// Records a request of a seat, passes it to the device, and records its end. Returns whether the
// device succeeded.
fn call<R: Run>(
    rt: &impl Abort,
    queue: &mut QueueState<R>,
    data_state: &mut DataState<SectorDisk, R>,
    seat: &mut Seat<R>,
    size: SectorSize,
    bio: &Bio,
) -> bool
    requires sectors { R.sectors ≡ 64 }
    requires size { bytes_of size ≡ R.sector_bytes }
{
    assert!(rt; queue.is_recording() && bio.is_tracked());
    assert!(rt; check(bio, SECTORS).is_ok() && check_sized(bio, SECTORS, size).is_ok());
    let part = &mut seat.part;
    let _id = queue.submit(part, bio).ok().expect(rt, "room");
    let is_done = data_state.apply(Ms::new(0), part, bio).is_ok();
    queue.complete(part);
    is_done
}

// Takes the next item and places it. Returns whether there was an item.
fn turn<R: Run>(queue: &mut QueueState<R>, log: &mut LogState<SectorDisk, R>) -> bool {
    let mut hand = WriterPart::new();
    if log.reserve().is_err() || queue.take(&mut hand).is_err() || hand.is_empty() {
        return false;
    }
    log.place(&mut hand).is_ok()
}

fn mark<R: Run>(
    rt: &impl Abort,
    alloc: Global,
    queue: &mut QueueState<R>,
    seat: &mut Seat<R>,
) -> bool {
    let text = Bytes::from_vec(vec![in alloc; 7; 3].expect(rt, "memory"));
    assert!(rt; queue.is_recording() && is_text(text.as_slice()));
    queue.mark(&mut seat.part, &text).is_ok()
}

// Notes a call of a seat as unrecorded, if recording has ended. Returns whether it has.
fn pass<R: Run>(queue: &QueueState<R>, seat: &mut Seat<R>) -> bool {
    if queue.is_recording() {
        return false;
    }
    queue.pass(&mut seat.part).is_ok()
}

// Returns whether the device's calls agree with the history.
fn is_served<R: Run>(
    rt: &impl Abort,
    alloc: Global,
    queue: &QueueState<R>,
    data_state: &DataState<SectorDisk, R>,
) -> bool {
    let mut notes = queue.notes(alloc).expect(rt, "memory");
    queue.is_served(data_state.done(), notes.as_mut_slice())
}

// Places the remaining items of a closed recorder. Returns whether `count` items are placed and
// settled then.
pub fn writes_rest<R: Run>(
    rt: &impl Abort,
    queue: &mut QueueState<R>,
    log: &mut LogState<SectorDisk, R>,
    count: usize,
) -> bool {
    assert!(rt; queue.is_closed() && queue.has_taken(log.placed()));
    assert!(rt; !queue.has_more(log.placed(), log.end()));
    drain(queue, log);
    log.placed().len() == count && log.settled() == count as u64 && queue.has_taken(log.placed())
}

// Makes requests of two seats in turn, and a mark. Returns whether all of this succeeded.
fn calls<R: Run>(
    rt: &impl Abort,
    alloc: Global,
    queue: &mut QueueState<R>,
    data_state: &mut DataState<SectorDisk, R>,
    one: &mut Seat<R>,
    other: &mut Seat<R>,
    size: SectorSize,
) -> bool
    requires sectors { R.sectors ≡ 64 }
    requires size { bytes_of size ≡ R.sector_bytes }
{
    let mut is_done = true;
    for number in 0..4 {
        let bio = write(rt, alloc, size, number, number == 2);
        is_done = call(rt, queue, data_state, one, size, &bio) && is_done;
        is_done = call(rt, queue, data_state, other, size, &Bio::Flush) && is_done;
    }
    mark(rt, alloc, queue, one) && is_done
}

// Returns whether the lists of both seats and the device's calls agree with the history.
fn agree<R: Run>(
    rt: &impl Abort,
    alloc: Global,
    queue: &QueueState<R>,
    data_state: &DataState<SectorDisk, R>,
    one: &Seat<R>,
    other: &Seat<R>,
) -> bool {
    let has_both = queue.has_own(one, None) && queue.has_own(other, None);
    has_both && is_served(rt, alloc, queue, data_state)
}

// Records the requests of two seats. Returns whether the seats' lists, their unrecorded calls and
// the placed items agree with the history.
fn is_recorded<R: Run>(
    rt: &(impl Print + Abort),
    alloc: Global,
    queue: &mut QueueState<R>,
    log: &mut LogState<SectorDisk, R>,
    data_state: &mut DataState<SectorDisk, R>,
    one: &mut Seat<R>,
    other: &mut Seat<R>,
    size: SectorSize,
) -> bool
    requires sectors { R.sectors ≡ 64 }
    requires size { bytes_of size ≡ R.sector_bytes }
{
    let are_made = calls(rt, alloc, queue, data_state, one, other, size);
    let is_closed = turn(queue, log) && queue.close().is_ok();
    let is_passed = pass(queue, other);
    let do_agree = agree(rt, alloc, queue, data_state, one, other);
    let is_whole = writes_rest(rt, queue, log, 10);
    holds(rt, are_made, "the calls")
        && holds(rt, is_closed && is_passed, "the close")
        && holds(rt, do_agree, "the seats and the device")
        && holds(rt, is_whole, "the log")
}

// Starts a recorder with two seats, and returns what `is_recorded` returns.
fn two_seats_record<R: Run>(
    rt: &(impl Print + Abort),
    alloc: Global,
    blank: Blank,
    fresh: (Fresh, Fresh, Fresh, Fresh),
    size: SectorSize,
    store: LogStore<SectorDisk>,
    device: SectorDisk,
) -> bool
    requires ledger { (blank.name ≡ R.name) × (blank.parts ≡ R.parts) × (blank.parts ≡ 2) }
    requires handles { (fresh.0 ≡ R.table) × (fresh.1 ≡ R.stops) × (fresh.2 ≡ R.ends)
        × (fresh.3 ≡ R.reads) }
    requires size { bytes_of size ≡ R.sector_bytes }
    requires sectors { R.sectors ≡ 64 }
    requires store { ((store_of store).sector_bytes ≡ R.sector_bytes)
        × (R.log ≡ ground_of (store_of store).device) }
    requires empty { ((store_of store).placed ≡ 0) × ((store_of store).next ≡ 1)
        × ((store_of store).end ≡ None) }
    requires begins { R.begins (store_of store).device.clock }
    requires device { (shown_of device).size ≡ 64 }
{
    let (table, stops, ends, reads) = fresh;
    let mut log = LogState::new(alloc, store, ends, reads);
    let mut data_state = DataState::<SectorDisk, R>::new(alloc, device);
    let (mut queue, mut seats, _) = QueueState::<R>::start(
        alloc, blank, table, stops, size, 2,
    ).expect(rt, "memory");
    let mut one = seats.pop().expect(rt, "a seat");
    let mut other = seats.pop().expect(rt, "a seat");
    is_recorded(
        rt,
        alloc,
        &mut queue,
        &mut log,
        &mut data_state,
        &mut one,
        &mut other,
        size,
    )
}

// Returns four new registries without a name.
pub fn four(rt: &impl Abort, alloc: Global) -> (Fresh, Fresh, Fresh, Fresh) {
    let table = Fresh::new(alloc).expect(rt, "memory");
    let stops = Fresh::new(alloc).expect(rt, "memory");
    let ends = Fresh::new(alloc).expect(rt, "memory");
    let reads = Fresh::new(alloc).expect(rt, "memory");
    (table, stops, ends, reads)
}

fn two_seats(rt: &(impl Print + Abort), alloc: Global, size: SectorSize) -> bool {
    let blank = Blank::new(2);
    let fresh = four(rt, alloc);
    let device = SectorDisk::new(alloc, SECTORS).expect(rt, "memory");
    let disk = SectorDisk::new(alloc, LOG_SECTORS).expect(rt, "memory");
    let store = LogStore::create_sized(disk, size).ok().expect(rt, "a log");
    two_seats_record::<Brand>(rt, alloc, blank, fresh, size, store, device)
}

#[test]
fn two_seats_and_a_writer(rt: HostRuntime) -> Result<(), Fail> {
    assert!(rt; two_seats(&rt, rt.alloc(), SectorSize::B512));
    Ok(())
}

#[test]
fn two_seats_with_large_log_sectors(rt: HostRuntime) -> Result<(), Fail> {
    assert!(rt; two_seats(&rt, rt.alloc(), SectorSize::B4096));
    Ok(())
}
