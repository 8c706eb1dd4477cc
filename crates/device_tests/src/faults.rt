//! Tests of layers that fail or drop calls, and of layers that delay them.
use crate::calls::{calls, look, play};
use bio::Ms;
use blockdev::BlockDev;
use fault_layers::{Delay, ErrorDev, Feature, Flakey, Fuse, Linear};
use sector_disk::SectorDisk;
use std::io::Print;
use std::process::Abort;

// Each line names layers over a disk of 8 sectors of zeroes, and then has calls. `@12` sets the
// time of the later calls to 12 milliseconds. `w31+` fills sector 3 with 1, and `F31+` does so with
// FUA. `d32+` discards 2 sectors from sector 3 on. `f+` flushes, and `r31+` reads sector 3, which
// must be filled with 1. `+` means that the call ends Ok at its time, and `-` that it fails with
// Io. `#21` means 2 faults and 1 lie. `=` has the byte of each sector of the disk after the calls,
// and `!` its byte after a crash without picks. The lines that begin with `linear` use a disk whose
// sector n is filled with n + 1.
const CALLS: &str = "error w31- F31- d32- r3- f- #50 =00000000
fuse0 r30+ w31- d31- f- r30+ #30 =00000000
fuse1 r30+ F31+ r31+ w32- r31+ d31- f- #30 =00010000 !00010000
fuse2 w31+ f+ r31+ w32- r31+ #10 !00010000
none @9999 w31+ @10000 w32- r3- d31- f- @14999 f- @15000 r31+ #50 =00010000
loaded @1000 w31+ @12999 f+ @13000 w32- @17999 f- @18000 r31+ #20 =00010000
reads w31+ @10000 w32+ f+ r3- d41+ @15000 r32+ #10 !00020000
writes w31+ @10000 w32- d31- f- r31+ @15000 w42+ #30 =00012000
drops w31+ @10000 w32+ F32+ d31+ f+ r31+ @15000 r31+ #04 =00010000 !00000000
never w31- @18446744073709551615 w31- f- #30 =00000000
linear w01+ F12+ w23+ d31+ r12+ @7 f+ w04+ #00 =12423078 !12123078
flakey-fuse w31+ w32- @10000 w33+ @15000 r31+ w34- #21 =00010000
fuse-flakey @10000 w33+ w34- @15000 r30+ #11 =00000000
linear-linear w01+ F02+ r02+ #00 =12325678 !12325678";

// Returns the feature and the load time of the flakey layer of this name, if it is one.
fn turns_of(name: &str) -> Option<(Feature, u64)> {
    match name {
        "none" => Some((Feature::None, 0)),
        "loaded" => Some((Feature::None, 3000)),
        "reads" => Some((Feature::ErrorReads, 0)),
        "writes" => Some((Feature::ErrorWrites, 0)),
        "drops" => Some((Feature::DropWrites, 0)),
        _ => None,
    }
}

// Returns how many calls the fuse of this name passes, if it is a fuse.
fn calls_of(name: &str) -> Option<u64> {
    name.strip_prefix("fuse")?.parse::<u64>().ok()
}

// Makes the calls of a line on its layer over `disk`. Returns the disk without the layer.
fn played(rt: &(impl Abort + Print), disk: SectorDisk, line: &str) -> SectorDisk {
    let name = line.split(' ').next().unwrap_or_default();
    if name == "error" {
        return play(rt, ErrorDev::new(disk), line).into_lower();
    }
    if name == "never" {
        let down = Flakey::new(disk, 0, 4_294_967_295, Feature::None, Ms::new(0));
        return play(rt, down, line).into_lower();
    }
    if let Some(calls) = calls_of(name) {
        return play(rt, Fuse::new(disk, calls), line).into_lower();
    }
    match turns_of(name) {
        Some((feature, load)) => {
            let flakey = Flakey::new(disk, 10, 5, feature, Ms::new(load));
            play(rt, flakey, line).into_lower()
        }
        None => disk,
    }
}

// Makes the calls of a line as `played` does, if the line names two layers, or a layer over a part
// of the disk.
fn played_deep(rt: &(impl Abort + Print), disk: SectorDisk, line: &str) -> SectorDisk {
    let start = Ms::new(0);
    assert_eq!(rt; disk.sectors(), 8);
    match line.split(' ').next().unwrap_or_default() {
        "linear" => play(rt, Linear::new(disk, 2, 4), line).into_lower(),
        "linear-linear" => play(rt, Linear::new(Linear::new(disk, 2, 4), 1, 1), line)
            .into_lower()
            .into_lower(),
        "flakey-fuse" => {
            let fuse = Fuse::new(disk, 1);
            play(
                rt,
                Flakey::new(fuse, 10, 5, Feature::DropWrites, start),
                line,
            )
            .into_lower()
            .into_lower()
        }
        "fuse-flakey" => {
            let flakey = Flakey::new(disk, 10, 5, Feature::DropWrites, start);
            play(rt, Fuse::new(flakey, 1), line)
                .into_lower()
                .into_lower()
        }
        _ => disk,
    }
}

// The expected results were computed by hand.
#[test]
fn layers_do_what_their_rules_say(rt: HostRuntime) {
    for line in CALLS.lines() {
        let disk = SectorDisk::new(rt.alloc(), 8).expect(&rt, "memory");
        let disk = if line.starts_with("linear") {
            play(&rt, disk, "F01 F12 F23 F34 F45 F56 F67 F78")
        } else {
            disk
        };
        let mut disk = played_deep(&rt, played(&rt, disk, line), line);
        for word in line.split(' ') {
            look(&rt, &mut disk, word, line);
        }
    }
}

// Rows `time call|answer`, as `calls` of the crate's harness reads them. The layer delays reads by
// 10 ms, writes and discards by 20 ms, and flushes by 30 ms.
const DELAYED: &str = "100 w 0 1 1|120
100 r 0 1|110 1
100 d 0 1|120
100 f|130
18446744073709551610 f|18446744073709551615
0 #|0 0";

// Rows for a layer that delays only flushes, over a flakey layer.
const LATER: &str = "9979 f|9999
9980 f|Io
0 #|1 0";

// A delayed call begins later by the delay of its kind, and so ends later. A discard is delayed
// like a write.
#[test]
fn delayed_calls_begin_later(rt: HostRuntime) {
    let disk = SectorDisk::new(rt.alloc(), 1).expect(&rt, "memory");
    let mut device = Delay::new(disk, Ms::new(10), Ms::new(20), Ms::new(30));
    calls(&rt, rt.alloc(), &mut device, DELAYED);
}

#[test]
fn delays_stand_over_other_layers(rt: HostRuntime) {
    let disk = SectorDisk::new(rt.alloc(), 1).expect(&rt, "memory");
    let flakey = Flakey::new(disk, 10, 5, Feature::None, Ms::new(0));
    let mut device = Delay::new(flakey, Ms::new(0), Ms::new(0), Ms::new(20));
    calls(&rt, rt.alloc(), &mut device, LATER);
}

// A stack of layers has the laws that all devices have.
#[test]
fn the_device_laws_hold() {
    blockdev::laws::flushed_writes_outlive_crashes::<Linear<Flakey<Fuse<SectorDisk>>>>();
    blockdev::laws::calls_tear_their_own_sectors_at_any_moment::<ErrorDev<Delay<SectorDisk>>>();
}
