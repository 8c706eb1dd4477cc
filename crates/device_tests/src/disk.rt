//! Tests of the disk in memory.
use crate::calls::{ask, byte_of, look, play, read_of, step};
use bio::Ms;
use blockdev::BlockDev;
use sector_disk::SectorDisk;
use std::alloc::Global;
use std::io::Print;
use std::process::Abort;
use test_devices::{Failing, Lying, holds, is_same};

// Does the words of `line` on a disk, all at the time 5. `w31` fills sector 3 with 1, and `F31`
// does so with FUA. `d32` discards 2 sectors from sector 3 on. `c12` crashes with the picks 1 and
// 2: each pick chooses what a sector with several possible values holds.
fn go(rt: &(impl Abort + Print), disk: &mut SectorDisk, line: &str) {
    for word in line.split(' ') {
        step(rt, disk, Ms::new(5), word, line);
        look(rt, disk, word, line);
    }
    assert_eq!(rt; (disk.faults(), disk.lies()), (0, 0));
}

// Does the words of `line` on a disk of four sectors filled with 7, and returns its bytes.
fn image_after(rt: &(impl Abort + Print), alloc: Global, line: &str) -> Vec<u8> {
    let image = vec![in alloc; 7; 2048].expect(rt, "memory");
    let mut disk = SectorDisk::from_bytes(alloc, image).expect(rt, "memory");
    go(rt, &mut disk, line);
    disk.into_bytes().expect(rt, "memory")
}

// The image of a disk has what was written last, or after a crash what is left.
#[test]
fn images_are_given_back(rt: HostRuntime) {
    for (line, wanted) in [
        ("F39 w18 d11", [7, 0, 7, 9]),
        ("F39 w18 d11 c1", [7, 8, 7, 9]),
    ] {
        let image = image_after(&rt, rt.alloc(), line);
        assert!(rt; holds(&rt, image.len() == 2048, line));
        for (sector, byte) in image.chunks(512).zip(wanted) {
            assert!(rt; is_same(&rt, &byte_of(sector), &byte, line));
        }
    }
}

fn check_bytes(rt: &impl Abort, disk: SectorDisk, wanted: &[u8]) {
    assert!(rt; disk.bytes().expect(rt, "memory").as_slice() == wanted);
    assert!(rt; disk.into_bytes().expect(rt, "memory").as_slice() == wanted);
}

// Returns a disk that has these bytes.
fn disk_of(rt: &impl Abort, alloc: Global, image: &Vec<u8>) -> SectorDisk {
    let length = image.len();
    assert!(rt; 0 < length && length <= 3_072_000 && length % 512 == 0);
    let image = image.clone().expect(rt, "memory");
    SectorDisk::from_bytes(alloc, image).expect(rt, "memory")
}

// Returns a disk that had these bytes and was then wholly discarded.
fn discarded(rt: &impl Abort, alloc: Global, image: &Vec<u8>) -> SectorDisk {
    let mut disk = disk_of(rt, alloc, image);
    let sectors = disk.sectors();
    disk.discard(Ms::new(0), 0, sectors)
        .expect(rt, "a disk never fails");
    disk
}

// Writes these bytes to a new disk with FUA, crashes the disk without picks, and returns it.
fn written(rt: &impl Abort, alloc: Global, image: &Vec<u8>) -> SectorDisk {
    let length = image.len();
    assert!(rt; 0 < length && length <= 3_072_000 && length % 512 == 0);
    let mut disk = SectorDisk::new(alloc, length as u64 / 512).expect(rt, "memory");
    disk.write(Ms::new(0), 0, image, true)
        .expect(rt, "a disk never fails");
    disk.crash(&[]);
    disk
}

// Checks the bytes of four disks of `sectors` sectors: a disk made of `image`, a discarded disk, a
// new disk, and a disk that `image` was written to.
fn check_size(rt: &impl Abort, alloc: Global, sectors: u64, image: &Vec<u8>, zeroes: &[u8]) {
    assert!(rt; 0 < sectors && sectors <= 6000 && image.len() == sectors as usize * 512);
    check_bytes(rt, disk_of(rt, alloc, image), image);
    check_bytes(rt, discarded(rt, alloc, image), zeroes);
    let new = SectorDisk::new(alloc, sectors).expect(rt, "memory");
    check_bytes(rt, new, zeroes);
    check_bytes(rt, written(rt, alloc, image), image)
}

#[test]
fn disks_of_each_size_are_kept(rt: HostRuntime) {
    let alloc = rt.alloc();
    for sectors in [1, 8, 2048, 6000] {
        let length = sectors as usize * 512;
        let image = vec![in alloc; 65; length].expect(&rt, "memory");
        let zeroes = vec![in alloc; 0; length].expect(&rt, "memory");
        check_size(&rt, alloc, sectors, &image, &zeroes);
    }
    let mut large = SectorDisk::new(alloc, 1_048_576).expect(&rt, "memory");
    assert_eq!(rt; large.sectors(), 1_048_576);
    assert_eq!(rt; large.discard(Ms::new(0), 0, 1_048_576), Ok(Ms::new(0)));
}

// Returns the byte that a sector gets in round `round`: 0 by a discard, else a number by a write.
fn put_in_round(round: u64, sector: u64) -> u8 {
    if (round % 16 + sector % 16) % 16 == 0 {
        (round % 200) as u8
    } else {
        0
    }
}

// Makes the calls of the first `rounds` rounds: one call for each of 64 sectors.
fn put_rounds(rt: &impl Abort, disk: &mut SectorDisk, rounds: u64) {
    for round in 0..rounds {
        for sector in 0..64 {
            assert_eq!(rt; disk.sectors(), 64);
            let ended = match put_in_round(round, sector) {
                0 => disk.discard(Ms::new(0), sector, 1),
                value => disk.write(Ms::new(0), sector, &[value; 512], false),
            };
            ended.expect(rt, "a disk never fails");
        }
    }
}

// Checks that each sector holds the byte that round `round` put in it.
fn check_round(rt: &impl Abort, disk: &mut SectorDisk, round: u64) {
    for sector in 0..64 {
        let answer = ask(rt, disk, Ms::new(7), read_of(sector));
        assert!(rt; answer.end == Ok(Ms::new(7)) && answer.byte() == put_in_round(round, sector));
    }
}

// A disk remembers 256,000 calls, and each call is as fast as the first. If each call walked over
// all earlier calls, the test would run far longer than it may.
#[test]
fn thousands_of_calls_are_kept(rt: HostRuntime) {
    let mut disk = SectorDisk::new(rt.alloc(), 64).expect(&rt, "memory");
    put_rounds(&rt, &mut disk, 4000);
    check_round(&rt, &mut disk, 3999);
    // Candidate 0 of a sector is its durable value.
    disk.crash(&[2346; 64]);
    check_round(&rt, &mut disk, 2345);
}

#[test]
fn the_device_laws_hold() {
    blockdev::laws::flushed_writes_outlive_crashes::<SectorDisk>();
    blockdev::laws::fua_writes_outlive_crashes::<SectorDisk>();
    blockdev::laws::durable_sectors_stay::<SectorDisk>();
    blockdev::laws::calls_tear_their_own_sectors::<SectorDisk>();
    blockdev::laws::calls_tear_their_own_sectors_at_any_moment::<SectorDisk>();
    blockdev::laws::crashes_leave_whole_sectors::<SectorDisk>();
    blockdev::laws::devices_keep_their_size::<SectorDisk>();
}

// A device that lies has these laws too, and so has one that fails. `@3` sets the time to 3, `F01`
// and `w01` fill sector 0 with 1, and `f` flushes. `-` means that the call fails with Io, `#02` no
// fault and 2 lies. `=0` checks that sector 0 holds 0; `!0` checks the same after a crash without
// picks.
#[test]
fn devices_lie_and_fail(rt: HostRuntime) {
    let lying = Lying::new(SectorDisk::new(rt.alloc(), 1).expect(&rt, "memory"));
    let mut disk = play(&rt, lying, "@3 F01 f #02").lower;
    look(&rt, &mut disk, "=0", "a write that was lost");
    let failing = Failing::in_changes(SectorDisk::new(rt.alloc(), 1).expect(&rt, "memory"), 1);
    let mut disk = play(&rt, failing, "@3 w01 w02- f- #20").lower;
    look(&rt, &mut disk, "=1", "a write that failed");
    look(&rt, &mut disk, "!0", "a flush that failed");
}
