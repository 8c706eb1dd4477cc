// Tests of copies into logs with sectors of 4,096 bytes.
ghost use Rattle.std.specs.Prelude.{IsTrue};
ghost use Rattle.bio.specs.Requests.{bytes_of, is_tracked};
ghost use Rattle.log_format.specs.Entries.{is_readable};

use crate::writes::filled;
use bio::{Bio, SectorSize, check_sized};
use blockdev::BlockDev;
use log_format::Entry;
use log_reader::LogReader;
use log_store::LogStore;
use refusals::Refusal;
use replay::{CopyFault, copy_log};
use sector_disk::SectorDisk;
use std::alloc::Global;
use std::process::Abort;
use test_devices::{Failing, rows_are_told};

// Rows `sectors calls entries=answer;status;copy`: copies of a log with sectors of 512 bytes. The
// new log's disk has `sectors` sectors. Its device passes `calls` writes and flushes, the first of
// which creates the log. `entries` has a letter for each entry of the old log. `w` writes sectors 8
// to 15, `u` does so with FUA, `p` writes sectors 4 to 11, and `l` sectors 8 to 11. `d` discards
// sectors 16 to 31, `f` flushes, and `m` is the end mark. `answer` is the number of copied entries
// or the refusal, and `status` the new log's status. `copy` has the new log's entries after a crash
// that leaves only what is settled: first sector, length, flags and first byte.
const COPIES: &str = "64 99 =0;0 0;
64 99 wm=2;2 31;1+1 0 65;0+0 8 100;
72 99 wudfm=5;5 63;1+1 0 65;1+1 2 65;2+2 4 0;0+0 1 0;0+0 8 100;
64 99 wudfm=18 Full after 4;4 55 logging_disabled;1+1 0 65;1+1 2 65;
64 99 wp=28 Unaligned after 1;1 23;
64 99 mp=28 Unaligned after 1;1 15;0+0 8 100;
64 99 ulw=28 Unaligned after 1;1 23;1+1 2 65;
64 1 wm=19 Device after 0;0 0 logging_disabled;
64 3 wm=19 Device after 1;1 23 logging_disabled;
64 5 wm=19 Device after 2;2 31 logging_disabled;
64 6 wm=19 Device after 2;2 31 logging_disabled;1+1 0 65;0+0 8 100;
64 8 wm=2;2 31;1+1 0 65;0+0 8 100;";

// Rows `reads entries=answer;status;copy`: copies of a log with sectors of 4,096 bytes, on a device
// that passes only `reads` reads. Each copy reads the super block, and for each entry its header
// and a write's data.
const READS: &str = "99 wdum=4;4 55;1+1 0 65;2+2 4 0;1+1 2 65;0+0 8 100;
1 wm=1 Io after 0;0 0;
2 um=1 Io after 0;0 0;
3 um=1 Io after 1;1 23;1+1 2 65;";

// Returns the request that a letter of these rows names; any other letter is a flush.
fn request(rt: &impl Abort, alloc: Global, kind: u8) -> Bio
    ensures { IsTrue (is_tracked result) }
{
    let (first, bytes) = match kind {
        b'p' => (4, 4096),
        b'l' => (8, 2048),
        _ => (8, 4096),
    };
    match kind {
        b'w' | b'u' | b'p' | b'l' => Bio::Write {
            first,
            bytes: filled(rt, alloc, b'A', bytes),
            flush: false,
            fua: kind == b'u',
            meta: false,
        },
        b'd' => Bio::Discard {
            first: 16,
            count: 16,
        },
        _ => Bio::Flush,
    }
}

// Returns the entry that a letter of these rows names, in a log with sectors of size `size`.
fn entry(rt: &impl Abort, alloc: Global, size: SectorSize, kind: u8) -> Entry
    ensures { IsTrue (is_readable (bytes_of size) result) }
{
    if kind == b'm' {
        log_format::laws::end_mark_is_readable();
        return Entry::end_mark(alloc).expect(rt, "memory");
    }
    log_format::laws::requests_are_readable();
    let bio = request(rt, alloc, kind);
    assert!(rt; check_sized(&bio, 1_048_576, size).is_ok());
    Entry::of_request(alloc, &bio, size.bytes()).expect(rt, "memory")
}

fn store_over<D: BlockDev + Drop>(rt: &impl Abort, device: D, size: SectorSize) -> LogStore<D> {
    assert!(rt; device.sectors() >= size.sectors());
    LogStore::create_sized(device, size)
        .ok()
        .expect(rt, "a first write passes")
}

// Returns a disk with a settled log of these entries.
fn log_of(rt: &impl Abort, alloc: Global, size: SectorSize, kinds: &str) -> SectorDisk {
    let mut store = store_over(rt, SectorDisk::new(alloc, 256).expect(rt, "memory"), size);
    for kind in kinds.bytes() {
        assert!(rt;
            store
                .append(&entry(rt, alloc, store.sector_size(), kind))
                .is_ok()
        );
    }
    assert!(rt; store.settle().is_ok());
    store.into_device()
}

// Crashes the disk so that only durable values are left, and returns the entries of its log.
fn left(rt: &impl Abort, alloc: Global, disk: SectorDisk) -> String {
    let mut disk = disk;
    disk.crash(&[0; 128]);
    let mut log = LogReader::open(alloc, disk).ok().expect(rt, "a log");
    let mut list = String::new(alloc);
    for _ in 0..log.head().count {
        let (_, entry) = log
            .next()
            .ok()
            .flatten()
            .expect(rt, "an entry that is counted");
        let byte = entry.body.as_slice().first().copied().unwrap_or(0);
        let text = format!(in alloc;
            "{}+{} {} {byte};",
            entry.sector,
            entry.nr_sectors,
            entry.flags.bits()
        )
        .expect(rt, "memory");
        list.push_str(text.as_str()).expect(rt, "memory");
    }
    list
}

// Copies the log on `device` to a new log on `target`. Returns `answer;status;copy`.
fn copied<A: BlockDev + Drop>(
    rt: &impl Abort,
    alloc: Global,
    device: A,
    target: Failing<SectorDisk>,
) -> String {
    let mut log = LogReader::open(alloc, device).ok().expect(rt, "a log");
    let mut store = store_over(rt, target, SectorSize::B4096);
    assert!(rt; log.head().sectorsize <= store.sector_size().bytes());
    let answer = match copy_log(&mut log, &mut store) {
        Ok(count) => format!(in alloc; "{count}").expect(rt, "memory"),
        Err(CopyFault { applied, cause }) => {
            format!(in alloc; "{} after {applied}", Refusal::from(cause)).expect(rt, "memory")
        }
    };
    let status = store.status();
    let list = left(rt, alloc, store.into_device().lower);
    format!(in alloc; "{answer};{status};{list}").expect(rt, "memory")
}

fn number(word: Option<&str>) -> u64 {
    word.unwrap_or_default().parse::<u64>().unwrap_or(0)
}

// Makes the copy of a row of `COPIES`, and returns its result.
fn copy_told(rt: &impl Abort, alloc: Global, row: &str) -> String {
    let mut words = row.split(' ');
    let disk = SectorDisk::new(alloc, number(words.next()).clamp(8, 8192)).expect(rt, "memory");
    let target = Failing::in_changes(disk, number(words.next()));
    let kinds = words.next().unwrap_or_default();
    copied(
        rt,
        alloc,
        log_of(rt, alloc, SectorSize::B512, kinds),
        target,
    )
}

#[test]
fn logs_are_copied(rt: HostRuntime) {
    let alloc = rt.alloc();
    assert!(rt; rows_are_told(&rt, COPIES, |row| copy_told(&rt, alloc, row)));
}

// Makes the copy of a row of `READS`, and returns its result.
fn reads_told(rt: &impl Abort, alloc: Global, row: &str) -> String {
    let (reads, kinds) = row.split_once(' ').unwrap_or_default();
    let log = log_of(rt, alloc, SectorSize::B4096, kinds);
    let log = Failing::in_reads(log, number(Some(reads)));
    copied(
        rt,
        alloc,
        log,
        Failing::in_changes(SectorDisk::new(alloc, 64).expect(rt, "memory"), 99),
    )
}

#[test]
fn logs_whose_device_fails_are_copied_in_part(rt: HostRuntime) {
    let alloc = rt.alloc();
    assert!(rt; rows_are_told(&rt, READS, |row| reads_told(&rt, alloc, row)));
}
