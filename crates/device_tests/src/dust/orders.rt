//! Tests of the messages of a dust layer.
use super::{by_sector, over, talk_over};
use crate::calls::{answer_of, ask, read_of};
use bio::Ms;
use blockdev::{BlockDev, Message, MessageError};
use dust_layer::{Dust, Mode};
use sector_disk::SectorDisk;
use std::alloc::Global;
use std::io::Print;
use std::process::Abort;
use test_devices::{is_same, is_told};

// Returns how many writes of a sector fail before one succeeds.
fn failed_writes<D: Message + Drop>(rt: &impl Abort, device: &mut D, sector: u64) -> u64 {
    for failed in 0..300 {
        assert!(rt; sector < device.sectors());
        if device.write(Ms::new(0), sector, &[1; 512], false).is_ok() {
            return failed;
        }
    }
    300
}

// Rows `message|block|failures`: the message lists the block, and this many writes of the block
// then fail.
const ADDED: &str = "addbadblock 60|60|0
addbadblock 60 1|60|1
addbadblock 127 0|127|0
addbadblock 00000000000000000007 00000000000000000255|7|255";

// Lists the block of a row as bad, twice: the second message is refused. After the row's number of
// failed writes, the block can be listed again. Then clears the list.
fn list_block<D: Message + Drop>(rt: &(impl Abort + Print), device: &mut D, row: &str) {
    let (text, rest) = row.split_once('|').unwrap_or_default();
    let (block, writes) = rest.split_once('|').unwrap_or_default();
    let listed = [device.message(1, text), device.message(1, text)];
    let failed = failed_writes(rt, device, block.parse::<u64>().unwrap_or(999));
    let cleared = [device.message(1, text), device.message(1, "clearbadblocks")];
    let writes = writes.parse::<u64>().unwrap_or(999);
    let wanted = (
        [Ok(()), Err(MessageError::AlreadyBad)],
        writes,
        [Ok(()), Ok(())],
    );
    assert!(rt; is_same(rt, &(listed, failed, cleared), &wanted, row));
}

#[test]
fn texts_that_list_a_block(rt: HostRuntime) {
    let disk = SectorDisk::new(rt.alloc(), 128).expect(&rt, "memory");
    let mut device = by_sector(rt.alloc(), disk);
    assert_eq!(rt; device.message(1, "enable"), Ok(()));
    for row in ADDED.split('\n') {
        list_block(&rt, &mut device, row);
    }
}

// Texts that aren't messages; each is followed by `|`.
const NO_ORDERS: &str =
    "| |addbadblock|addbadblock |addbadblock  60|addbadblock 60 |addbadblock 60  1|addbadblock 60 1 |addbadblock 60 1 1| addbadblock 60|addbadblock 60 256|addbadblock 60 -1|addbadblock x|addbadblock 60 x|addbadblock 0x3c|addbadblock\t60|addbadblock 18446744073709551616|addbadblock 000000000000000000060|ADDBADBLOCK 60|addbadblocks 60|removebadblock|removebadblock 60 |removebadblock  60|removebadblock 60 1|clearbadblocks | clearbadblocks|clearbadblocks 1|clearbadblock|enable |Enable|enable 1|disable\n|quiet|countbadblocks";

// Checks that the layer refuses `text` as no message.
fn refuse<D: Message + Drop>(rt: &(impl Abort + Print), device: &mut D, text: &str) {
    let refused = Err(MessageError::BadMessage);
    assert!(rt; is_same(rt, &device.message(1, text), &refused, text));
}

#[test]
fn texts_that_ask_for_none(rt: HostRuntime) {
    let disk = SectorDisk::new(rt.alloc(), 128).expect(&rt, "memory");
    let mut device = by_sector(rt.alloc(), disk);
    for text in NO_ORDERS.split('|') {
        refuse(&rt, &mut device, text);
    }
}

// Rows `message|answer|state` for a layer of 99 sectors with blocks of 2 sectors, one after
// another. The state has `e` if the layer is enabled, `f` if block 0 is listed, and `l` if block 49
// is.
const ANSWERS: &str = "removebadblock 0|8 NotBad|---
clearbadblocks|ok|---
disable|ok|---
addbadblock 0 3|ok|-f-
addbadblock 0|7 AlreadyBad|-f-
addbadblock 0 256|6 BadMessage|-f-
addbadblock 49|ok|-fl
addbadblock 50|6 BadMessage|-fl
removebadblock 50|6 BadMessage|-fl
addbadblock 18446744073709551615 1|6 BadMessage|-fl
addbadblock 9223372036854775808 1|6 BadMessage|-fl
removebadblock 18446744073709551615|6 BadMessage|-fl
removebadblock 1|8 NotBad|-fl
enable|ok|efl
enable|ok|efl
removebadblock 0|ok|e-l
removebadblock 0|8 NotBad|e-l
addbadblock 0 255|ok|efl
nothing|6 BadMessage|efl
disable|ok|-fl
clearbadblocks|ok|---
removebadblock 49|8 NotBad|---";

// Returns whether a read of the sector fails.
fn is_bad<D: BlockDev + Drop>(rt: &impl Abort, device: &mut D, sector: u64) -> bool {
    ask(rt, device, Ms::new(0), read_of(sector)).end.is_err()
}

// Returns whether the layer is enabled, and whether it lists block 0 and block 49. A read of a
// listed block fails only in an enabled layer. So this enables the layer for its reads, and then
// restores the mode.
fn state<D: BlockDev + Drop>(rt: &impl Abort, device: &mut Dust<D>) -> [bool; 3] {
    let is_enabled = device.mode() != Mode::Bypass;
    assert!(rt; device.message(1, "enable").is_ok());
    let has_first = is_bad(rt, device, 0);
    let has_last = is_bad(rt, device, 98);
    if !is_enabled {
        assert!(rt; device.message(1, "disable").is_ok());
    }
    [is_enabled, has_first, has_last]
}

// Sends the message of a row, and checks the answer and the state.
fn put_message<D: BlockDev + Drop>(
    rt: &(impl Abort + Print),
    alloc: Global,
    device: &mut Dust<D>,
    row: &str,
) {
    let (text, rest) = row.split_once('|').unwrap_or_default();
    let (wanted, letters) = rest.split_once('|').unwrap_or_default();
    let answer = answer_of(rt, alloc, device, 1, text);
    assert!(rt; is_told(rt, answer.as_str(), wanted, row));
    let wanted = [
        letters.contains('e'),
        letters.contains('f'),
        letters.contains('l'),
    ];
    assert!(rt; is_same(rt, &state(rt, device), &wanted, row));
}

#[test]
fn answers_of_messages(rt: HostRuntime) {
    let disk = SectorDisk::new(rt.alloc(), 99).expect(&rt, "memory");
    let mut device = over(rt.alloc(), disk);
    for row in ANSWERS.split('\n') {
        put_message(&rt, rt.alloc(), &mut device, row);
    }
}

// Rows for a layer with blocks of two sectors. It has as many blocks as begin in it: with one or
// two sectors it has one block.
const ONE: &str = "m 1 addbadblock 0|ok
m 1 addbadblock 1|6 BadMessage
m 1 addbadblock 2|6 BadMessage";

// With three or four sectors, the layer has two blocks.
const TWO: &str = "m 1 addbadblock 0|ok
m 1 addbadblock 1|ok
m 1 addbadblock 2|6 BadMessage";

#[test]
fn blocks_within_a_layer(rt: HostRuntime) {
    for (sectors, rows) in [(1, ONE), (2, ONE), (3, TWO), (4, TWO)] {
        assert!(rt; 0 < sectors && sectors <= 4);
        let disk = SectorDisk::new(rt.alloc(), sectors).expect(&rt, "memory");
        talk_over(&rt, rt.alloc(), disk, rows);
    }
}
