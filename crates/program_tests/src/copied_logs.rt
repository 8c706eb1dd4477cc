// Tests on generated scripts. A log with sectors of 512 bytes is copied to one with sectors of
// 4,096. Each prefix of the copy replays to the same content as the same prefix of the first log.
use crate::crashed_logs::{SECTORS, Sizes, log_of, script_of};
use bio::SectorSize;
use blockdev::BlockDev;
use log_reader::LogReader;
use log_store::LogStore;
use replay::{Upto, copy_log, replay};
use sector_disk::SectorDisk;
use std::alloc::Global;
use std::io::Print;
use std::process::Abort;
use test_devices::is_same;

// The log has sectors of 512 bytes. Each request covers whole units of 4,096 bytes.
const WIDE: Sizes = Sizes {
    log: SectorSize::B512,
    unit: 8,
};

// Returns a copy of a log, with sectors of 4,096 bytes and the same number of entries.
fn copy_of<L: BlockDev + Drop>(
    rt: &impl Abort,
    alloc: Global,
    log: &mut LogReader<L>,
) -> LogReader<SectorDisk> {
    let mut store = LogStore::create_sized(
        SectorDisk::new(alloc, 1024).expect(rt, "memory"),
        SectorSize::B4096,
    )
    .ok()
    .expect(rt, "a new log");
    let count = log.head().count;
    assert!(rt; log.head().sectorsize <= store.sector_size().bytes());
    assert!(rt; copy_log(log, &mut store) == Ok(count));

    LogReader::open(alloc, store.into_device())
        .ok()
        .expect(rt, "a copy")
}

// Replays both logs, each on its own disk of zeroes. Compares the two disks after each entry.
fn compare<L: BlockDev + Drop, M: BlockDev + Drop>(
    rt: &impl Abort,
    alloc: Global,
    log: &mut LogReader<L>,
    copy: &mut LogReader<M>,
) -> u64 {
    let mut left = SectorDisk::new(alloc, SECTORS * 8).expect(rt, "memory");
    let mut of_copy = SectorDisk::new(alloc, SECTORS * 8).expect(rt, "memory");
    let count = log.head().count;
    assert!(rt; copy.head().count == count && copy.head().sectorsize == 4096);
    for _ in 0..count {
        assert!(rt; replay(log, &mut left, &Upto::Count(1)).is_ok());
        assert!(rt; replay(copy, &mut of_copy, &Upto::Count(1)).is_ok());
        assert!(rt;
            left.bytes().expect(rt, "memory").as_slice()
                == of_copy.bytes().expect(rt, "memory").as_slice()
        );
    }
    count
}

// Compares the log of a seed's script with its copy. Returns how many prefixes were compared.
fn compare_seed(rt: &(impl Abort + Print), alloc: Global, seed: u64) -> u64 {
    let steps = script_of(rt, alloc, seed);
    let mut copied = log_of(rt, alloc, &steps, WIDE);
    let mut copy = copy_of(rt, alloc, &mut copied);
    let mut log = log_of(rt, alloc, &steps, WIDE);
    let count = compare(rt, alloc, &mut log, &mut copy);
    let seed = seed.to_string(alloc).expect(rt, "memory");
    assert!(rt; is_same(rt, &(count > 0), &true, seed.as_str()));
    count
}

#[test]
fn copies_replay_alike(rt: HostRuntime) {
    let alloc = rt.alloc();
    let mut compared = 0_u64;
    for seed in 1..=200 {
        compared = compared.saturating_add(compare_seed(&rt, alloc, seed));
    }
    assert!(rt; compared > 800);
}
