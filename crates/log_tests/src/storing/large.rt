// Tests of logs with sectors of 4,096 bytes.
ghost use Rattle.std.specs.Prelude.{IsTrue};
ghost use Rattle.bio.specs.Requests.{bytes_of, is_tracked};
ghost use Rattle.log_format.specs.Entries.{is_readable};

use crate::writes::filled;
use bio::{Bio, End, SectorSize, check_sized};
use blockdev::BlockDev;
use log_format::{Entry, read_super};
use log_store::LogStore;
use sector_disk::SectorDisk;
use std::alloc::Global;
use std::process::Abort;
use test_devices::{Watched, rows_are_told};

// Rows `sectors steps=status;count of size` for a log on a disk of `sectors` sectors. `w` appends a
// write of 8 sectors, `m` a mark, and `s` settles. `count` and `size` are those of the super block
// after a crash that leaves only what is settled.
const LOGS: &str = "64 =0 0;0 of 4096
64 wms=2 31;2 of 4096
64 msw=2 31;1 of 4096
64 mmmmmmms=6 55 logging_disabled;0 of 4096
71 mmmmmmms=6 55 logging_disabled;0 of 4096
72 mmmmmmms=7 63;7 of 4096
8 ms=0 0 logging_disabled;0 of 4096
16 ms=0 0 logging_disabled;0 of 4096
24 ms=1 15;1 of 4096";

// Rows `sectors steps=calls`. `w8+8` writes sectors 8 to 15, `F` writes with FUA, and `f0+0`
// flushes.
const CALLS: &str = "64 =F0+8
64 m=F0+8 w8+8
64 w=F0+8 w8+8 w16+8
64 wms=F0+8 w8+8 w16+8 w24+8 f0+0 F0+8";

// Returns a write of 8 sectors.
fn write(rt: &impl Abort, alloc: Global) -> Bio
    ensures { IsTrue (is_tracked result) }
{
    Bio::Write {
        first: 16,
        bytes: filled(rt, alloc, 0x41, 4096),
        flush: false,
        fua: false,
        meta: false,
    }
}

// Returns the entry that a step appends, in a log with sectors of size `size`.
fn entry(rt: &impl Abort, alloc: Global, size: SectorSize, step: u8) -> Entry
    ensures { IsTrue (is_readable (bytes_of size) result) }
{
    if step == b'm' {
        log_format::laws::end_mark_is_readable();
        return Entry::end_mark(alloc).expect(rt, "memory");
    }
    log_format::laws::requests_are_readable();
    let bio = write(rt, alloc);
    assert!(rt; check_sized(&bio, 1_048_576, size).is_ok());
    Entry::of_request(alloc, &bio, size.bytes()).expect(rt, "memory")
}

// Returns a store with a new log on a device, after these steps.
fn stored<D: BlockDev + Drop>(
    rt: &impl Abort,
    alloc: Global,
    device: D,
    steps: &str,
) -> LogStore<D> {
    assert!(rt; device.sectors() >= 8);
    let mut store = LogStore::create_sized(device, SectorSize::B4096)
        .ok()
        .expect(rt, "a disk never fails");
    assert!(rt; store.sector_size() == SectorSize::B4096);
    for step in steps.bytes() {
        let refused = if step == b's' {
            store.settle().err()
        } else {
            store
                .append(&entry(rt, alloc, store.sector_size(), step))
                .err()
        };
        assert!(rt; matches!(refused, None | Some(End::Full)));
    }
    store
}

// Returns a disk whose number of sectors is a row's first word.
fn disk_of(rt: &impl Abort, alloc: Global, sectors: &str) -> SectorDisk {
    let sectors = sectors.parse::<u64>().unwrap_or(0).clamp(8, 8192);
    SectorDisk::new(alloc, sectors).expect(rt, "memory")
}

// Makes the log of a row. Returns its status, and its super block after a crash.
fn log_told(rt: &impl Abort, alloc: Global, row: &str) -> String {
    let (sectors, steps) = row.split_once(' ').unwrap_or_default();
    let store = stored(rt, alloc, disk_of(rt, alloc, sectors), steps);
    let status = store.status();
    let mut disk = store.into_device();
    disk.crash(&[0; 128]);
    let head = read_super(disk.bytes().expect(rt, "memory").as_slice())
        .ok()
        .expect(rt, "a log");
    format!(in alloc; "{status};{} of {}", head.count, head.sectorsize).expect(rt, "memory")
}

#[test]
fn large_logs_are_kept(rt: HostRuntime) {
    let alloc = rt.alloc();
    assert!(rt; rows_are_told(&rt, LOGS, |row| log_told(&rt, alloc, row)));
}

// Makes the log of a row, and returns the calls of its device.
fn calls_told(rt: &impl Abort, alloc: Global, row: &str) -> String {
    let (sectors, steps) = row.split_once(' ').unwrap_or_default();
    let device = Watched::new(alloc, disk_of(rt, alloc, sectors));
    let store = stored(rt, alloc, device, steps);
    let seen = store.into_device().seen;
    format!(in alloc; "{}", seen.as_str().trim_end()).expect(rt, "memory")
}

#[test]
fn large_logs_call_their_device(rt: HostRuntime) {
    let alloc = rt.alloc();
    assert!(rt; rows_are_told(&rt, CALLS, |row| calls_told(&rt, alloc, row)));
}
