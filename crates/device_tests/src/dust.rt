//! Tests of dust layers: layers with bad blocks.
use crate::calls::talk;
use bio::Ms;
use blockdev::{BlockDev, Message};
use dust_layer::{Dust, Mode};
use sector_disk::SectorDisk;
use std::alloc::Global;
use std::io::Print;
use std::process::Abort;

mod orders;

// Returns a dust layer with blocks of 1,024 bytes over a device.
#[tactic(auto, using(dust_layer::specs::Orders::of_1024))]
fn over<D: BlockDev + Drop>(alloc: Global, lower: D) -> Dust<D> {
    Dust::new(alloc, lower, 1024)
}

// Returns a dust layer with blocks of one sector over a device.
#[tactic(auto, using(dust_layer::specs::Orders::of_512))]
fn by_sector<D: BlockDev + Drop>(alloc: Global, lower: D) -> Dust<D> {
    Dust::new(alloc, lower, 512)
}

// Makes the rows' calls, and sends their messages, to a dust layer with blocks of 1,024 bytes.
fn talk_over<D: BlockDev + Drop>(rt: &(impl Abort + Print), alloc: Global, lower: D, rows: &str) {
    let mut device = over(alloc, lower);
    talk(rt, alloc, &mut device, rows);
}

fn disk_of_16(rt: &impl Abort, alloc: Global) -> SectorDisk {
    SectorDisk::new(alloc, 16).expect(rt, "memory")
}

// Rows `what|answer`. `m` sends a message to a layer. `w` writes sectors with a byte, and `r` reads
// them, each at the time before it. `#` shows the counts of faults and lies.
// Writes of four sectors over blocks of two sectors. A bad block fails the first write; the second
// write removes it from the list.
const ONCE: &str = "m 1 addbadblock 3 1|ok
m 1 enable|ok
0 w 5 4 7|Io
0 #|1 0
0 r 2 4|0 0 0 0 7
0 r 5 4|Io
0 #|2 0
0 w 5 4 7|0
0 r 5 4|0 7 7 7 7
m 1 addbadblock 3|ok
m 1 addbadblock 3|7 AlreadyBad
m 1 removebadblock 4|8 NotBad
m 1 addbadblock 7|ok
m 1 addbadblock 8|6 BadMessage
m 1 addbadblock 2 256|6 BadMessage
m 1 queryblock 3|6 BadMessage
m 1 removebadblock 7|ok
m 0 enable|6 BadMessage
m 2 enable|6 BadMessage";

#[test]
fn bad_blocks_fail_once(rt: HostRuntime) {
    let mut device = over(rt.alloc(), disk_of_16(&rt, rt.alloc()));
    assert!(rt; device.mode() == Mode::Bypass && device.mode().text() == "bypass");
    talk(&rt, rt.alloc(), &mut device, ONCE);
    assert!(rt; device.mode().text() == "fail_read_on_bad_block");
}

// Lists each even block number below 2,000 as bad.
fn list_many<D: Message + Drop>(rt: &impl Abort, alloc: Global, device: &mut D) {
    for number in 0..1000u64 {
        let number = number.saturating_mul(2);
        let text = format!(in alloc; "addbadblock {number}").expect(rt, "memory");
        assert!(rt; device.message(1, &text).is_ok());
    }
}

// Fills the first 2,048 sectors with 5.
fn write_many<D: BlockDev + Drop>(rt: &impl Abort, alloc: Global, device: &mut D) {
    let bytes = vec![in alloc; 5; 1_048_576].expect(rt, "memory");
    assert!(rt; device.sectors() == 4096);
    assert!(rt; device.write(Ms::new(9), 0, &bytes, true) == Ok(Ms::new(9)));
}

// Lists 1,000 bad blocks of one sector each. Then one write writes all these blocks, and so removes
// them from the list.
fn mend_many<D: Message + Drop>(rt: &(impl Abort + Print), alloc: Global, device: &mut D) {
    list_many(rt, alloc, device);
    talk(rt, alloc, device, "m 1 enable|ok\n9 r 0 1|Io");
    write_many(rt, alloc, device);
    talk(
        rt,
        alloc,
        device,
        "9 r 0 1|9 5\nm 1 removebadblock 1998|8 NotBad",
    );
}

#[test]
fn many_blocks_are_listed(rt: HostRuntime) {
    let disk = SectorDisk::new(rt.alloc(), 4096).expect(&rt, "memory");
    let mut device = by_sector(rt.alloc(), disk);
    mend_many(&rt, rt.alloc(), &mut device)
}
