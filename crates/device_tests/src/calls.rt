// Calls of a device for tests, and the text of each answer. A row has one call, in words, as `0 w 5
// 4 1|0`. A line has several calls, each a word such as `w31`.
use bio::{DevError, Ms};
use blockdev::{BlockDev, Message};
use fault_layers::CallKind;
use refusals::Refusal;
use sector_disk::SectorDisk;
use std::alloc::Global;
use std::io::Print;
use std::process::Abort;
use std::test::Fail;
use test_devices::{is_same, is_told};

// How many bytes 16 sectors have.
const MOST: usize = 8192;

/// A call of a device, with at most 16 sectors. A write fills each of them with `byte`.
#[derive(Clone, Copy, Debug)]
pub struct DeviceCall {
    pub kind: CallKind,
    pub first: u64,
    pub count: u64,
    pub byte: u8,
    pub fua: bool,
}

/// The time at which a call ended, or its error. A read's bytes are the first of `bytes`; all
/// others are 255.
#[derive(Drop)]
pub struct CallAnswer {
    pub end: Result<Ms, DevError>,
    pub bytes: [u8; MOST],
}

fn read<D: BlockDev + Drop>(
    rt: &impl Abort,
    device: &mut D,
    now: Ms,
    call: DeviceCall,
    bytes: &mut [u8; MOST],
) -> Result<Ms, DevError> {
    let DeviceCall { first, count, .. } = call;
    assert!(rt; 0 < count && count <= 16 && first <= 4096 && first + count <= device.sectors());
    device.read(now, first, &mut bytes[..count as usize * 512])
}

fn write<D: BlockDev + Drop>(
    rt: &impl Abort,
    device: &mut D,
    now: Ms,
    call: DeviceCall,
    bytes: &[u8; MOST],
) -> Result<Ms, DevError> {
    let DeviceCall { first, count, .. } = call;
    assert!(rt; 0 < count && count <= 16 && first <= 4096 && first + count <= device.sectors());
    device.write(now, first, &bytes[..count as usize * 512], call.fua)
}

fn discard<D: BlockDev + Drop>(
    rt: &impl Abort,
    device: &mut D,
    now: Ms,
    call: DeviceCall,
) -> Result<Ms, DevError> {
    let DeviceCall { first, count, .. } = call;
    assert!(rt; 0 < count && count <= 16 && first <= 4096 && first + count <= device.sectors());
    device.discard(now, first, count)
}

pub fn ask<D: BlockDev + Drop>(
    rt: &impl Abort,
    device: &mut D,
    now: Ms,
    call: DeviceCall,
) -> CallAnswer {
    let mut bytes = [255; MOST];
    let byte = call.byte;
    let end = match call.kind {
        CallKind::Read => read(rt, device, now, call, &mut bytes),
        CallKind::Write => write(rt, device, now, call, &[byte; MOST]),
        CallKind::Discard => discard(rt, device, now, call),
        CallKind::Flush => device.flush(now),
    };
    CallAnswer { end, bytes }
}

impl CallAnswer {
    /// Returns the byte that fills the first sector that was read, or 254 if the sector has
    /// different bytes.
    pub fn byte(&self) -> u8 {
        byte_of(&self.bytes[..512])
    }
}

pub fn read_of(sector: u64) -> DeviceCall {
    DeviceCall {
        kind: CallKind::Read,
        first: sector,
        count: 1,
        byte: 0,
        fua: false,
    }
}

/// Returns the byte that fills a sector, or 254 if the sector has different bytes.
pub fn byte_of(sector: &[u8]) -> u8 {
    let byte = sector.first().copied().unwrap_or(254);
    if sector.iter().all(|other| *other == byte) {
        byte
    } else {
        254
    }
}

/// Returns the result of `calls` on the device, and then the result of `end`, which takes the
/// device. For the prover: `D` is a type parameter here, so the prover doesn't look into the
/// device.
pub fn asked<D, T, U, F, G>(device: D, calls: F, end: G) -> (T, U)
where
    D: Drop,
    T: Drop,
    F: FnOnce(&mut D) -> T,
    G: FnOnce(D) -> U,
    requires calls { F.IsAlwaysCallable calls }
    requires end { G.IsAlwaysCallable end }
{
    let mut device = device;
    let given = calls(&mut device);
    (given, end(device))
}

// ---- rows

// Returns the time at which a call ended, in milliseconds, or its error.
fn end_text(rt: &impl Abort, alloc: Global, end: Result<Ms, DevError>) -> String {
    match end {
        Ok(end) => end.milliseconds().to_string(alloc).expect(rt, "memory"),
        Err(DevError::Io) => String::from_str(alloc, "Io").expect(rt, "memory"),
        Err(DevError::Memory) => String::from_str(alloc, "Memory").expect(rt, "memory"),
    }
}

// Returns the first three numbers of a text, with 0 for each missing one.
fn numbers_of(text: &str) -> [u64; 3] {
    let mut numbers = text.split(' ').map(|word| word.parse::<u64>().unwrap_or(0));
    [
        numbers.next().unwrap_or(0),
        numbers.next().unwrap_or(0),
        numbers.next().unwrap_or(0),
    ]
}

// Returns the call that these words name. `w 5 4 1` fills 4 sectors from sector 5 on with 1, and `F
// 5 4 1` does so with FUA. `d 5 4` discards these sectors, `f` flushes, and `r 5 4` reads them.
fn call_of(words: &str) -> DeviceCall {
    let (kind, rest) = words.split_once(' ').unwrap_or((words, ""));
    let [first, count, byte] = numbers_of(rest);
    DeviceCall {
        kind: match kind {
            "r" => CallKind::Read,
            "d" => CallKind::Discard,
            "f" => CallKind::Flush,
            _ => CallKind::Write,
        },
        first,
        count,
        byte: u8::try_from(byte).unwrap_or(255),
        fua: kind == "F",
    }
}

// Makes a call, and returns its answer as text: its end, and after a successful read the byte of
// each sector. The word `#` returns the counts of faults and lies.
fn told<D: BlockDev + Drop>(
    rt: &impl Abort,
    alloc: Global,
    device: &mut D,
    now: Ms,
    words: &str,
) -> String {
    if words == "#" {
        return format!(in alloc; "{} {}", device.faults(), device.lies()).expect(rt, "memory");
    }
    let call = call_of(words);
    let answer = ask(rt, device, now, call);
    let mut told = end_text(rt, alloc, answer.end);
    if call.kind == CallKind::Read && answer.end.is_ok() {
        for sector in answer.bytes.chunks(512).take(call.count as usize) {
            write!(told, " {}", byte_of(sector)).expect(rt, "memory");
        }
    }
    told
}

/// Sends a message. Returns the number and the name of its refusal, or `ok`.
pub fn answer_of<D: Message + Drop>(
    rt: &impl Abort,
    alloc: Global,
    device: &mut D,
    layer: u64,
    text: &str,
) -> String {
    match device.message(layer, text) {
        Ok(()) => String::from_str(alloc, "ok").expect(rt, "memory"),
        Err(error) => format!(in alloc; "{}", Refusal::from(error)).expect(rt, "memory"),
    }
}

// Makes the call of a row `time call|answer`, with the time in milliseconds, and checks its answer.
fn call_row<D: BlockDev + Drop>(
    rt: &(impl Abort + Print),
    alloc: Global,
    device: &mut D,
    row: &str,
) {
    let (asked, wanted) = row.split_once('|').unwrap_or_default();
    let (moment, words) = asked.split_once(' ').unwrap_or_default();
    let now = Ms::new(moment.parse::<u64>().unwrap_or(0));
    let said = told(rt, alloc, device, now, words);
    assert!(rt; is_told(rt, said.as_str(), wanted, row));
}

// Sends the message of a row `layer message|answer`, and checks its answer.
fn message_row<D: Message + Drop>(
    rt: &(impl Abort + Print),
    alloc: Global,
    device: &mut D,
    row: &str,
) {
    let (asked, wanted) = row.split_once('|').unwrap_or_default();
    let (layer, text) = asked.split_once(' ').unwrap_or_default();
    let layer = layer.parse::<u64>().unwrap_or(99);
    let answer = answer_of(rt, alloc, device, layer, text);
    assert!(rt; is_told(rt, answer.as_str(), wanted, row));
}

/// Makes the calls of the rows in order, and checks their answers. A row is `time call|answer`,
/// with the time in milliseconds; `w`, `F`, `d`, `f`, `r` and `#` are calls.
pub fn calls<D: BlockDev + Drop>(
    rt: &(impl Abort + Print),
    alloc: Global,
    device: &mut D,
    rows: &str,
) {
    for row in rows.lines() {
        call_row(rt, alloc, device, row);
    }
}

/// Makes the calls of the rows as `calls` does. A row `m layer message|answer` sends a message
/// instead, and checks its answer.
pub fn talk<D: Message + Drop>(
    rt: &(impl Abort + Print),
    alloc: Global,
    device: &mut D,
    rows: &str,
) {
    for row in rows.lines() {
        match row.strip_prefix("m ") {
            Some(rest) => message_row(rt, alloc, device, rest),
            None => call_row(rt, alloc, device, row),
        }
    }
}

// ---- lines

fn digit(byte: u8) -> u8 {
    byte.saturating_sub(48) % 10
}

// Returns the call that a word names, if it names one. `w31` fills sector 3 with 1, and `F31` does
// so with FUA. `d32` discards 2 sectors from sector 3 on, and `f` flushes. `r31` reads sector 3,
// which must be filled with 1. `r3` is a read of sector 3 that fails, as in `r3-`.
fn call_in(word: &[u8]) -> Option<DeviceCall> {
    let (kind, first, count, byte) = match word {
        [b'w' | b'F', first, byte] => (CallKind::Write, digit(*first), 1, digit(*byte)),
        [b'd', first, count] => (CallKind::Discard, digit(*first), digit(*count), 0),
        [b'r', first, byte] => (CallKind::Read, digit(*first), 1, digit(*byte)),
        [b'r', first] => (CallKind::Read, digit(*first), 1, 255),
        [b'f'] => (CallKind::Flush, 0, 0, 0),
        _ => return None,
    };
    Some(DeviceCall {
        kind,
        first: first as u64,
        count: count as u64,
        byte,
        fua: word.starts_with(b"F"),
    })
}

/// Makes the call of a word, at the time `now`. The call must end at that time, or fail with Io if
/// the word ends with `-`. A read must return the word's byte. `#21` checks that the device counts
/// 2 faults and 1 lie.
pub fn step<D: BlockDev + Drop>(
    rt: &(impl Abort + Print),
    device: &mut D,
    now: Ms,
    word: &str,
    line: &str,
) {
    if let [b'#', faults, lies] = word.as_bytes() {
        let counts = (device.faults(), device.lies());
        let wanted = (digit(*faults) as u64, digit(*lies) as u64);
        assert!(rt; is_same(rt, &counts, &wanted, line));
    }
    if let Some(call) = call_in(word.trim_end_matches(['+', '-']).as_bytes()) {
        let answer = ask(rt, device, now, call);
        let fails = word.ends_with('-');
        let wanted = if fails { Err(DevError::Io) } else { Ok(now) };
        assert!(rt; is_same(rt, &answer.end, &wanted, line));
        if call.kind == CallKind::Read {
            assert!(rt; is_same(rt, &answer.byte(), &call.byte, line));
        }
    }
}

/// Makes the calls of a line's words in order, and returns the device. The first call is at time 0;
/// `@12` sets the time of the calls after it to 12 milliseconds.
pub fn play<D: BlockDev + Drop>(rt: &(impl Abort + Print), device: D, line: &str) -> D {
    let mut device = device;
    let mut now = Ms::new(0);
    for word in line.split(' ') {
        match word.strip_prefix('@') {
            Some(moment) => now = Ms::new(moment.parse::<u64>().unwrap_or(0)),
            None => step(rt, &mut device, now, word, line),
        }
    }
    device
}

/// Does what a word says about a disk. `c12` crashes it with the picks 1 and 2. `=` checks the byte
/// of each sector: `=70` means 7 in sector 0, and 0 in sector 1. `!` first crashes the disk without
/// picks, then checks as `=` does.
pub fn look(rt: &(impl Abort + Print), disk: &mut SectorDisk, word: &str, line: &str) {
    let bytes = word.as_bytes();
    if let [b'c', digits @ ..] = bytes {
        let mut picks = [0; 8];
        for (pick, byte) in picks.iter_mut().zip(digits) {
            *pick = digit(*byte) as u64;
        }
        disk.crash(&picks[..digits.len().min(8)]);
    }
    if bytes.starts_with(b"!") {
        disk.crash(&[]);
    }
    if let [b'=' | b'!', wanted @ ..] = bytes {
        for (sector, byte) in wanted.iter().enumerate() {
            let answer = ask(rt, disk, Ms::new(7), read_of(sector as u64));
            assert!(rt; is_same(rt, &answer.end, &Ok(Ms::new(7)), line));
            assert!(rt; is_same(rt, &answer.byte(), &digit(*byte), line));
        }
    }
}
