// Makes calls of a disk, with or without layers, and prints their results.
use crate::bytes::{hex_byte, push_sectors};
use bio::{DevError, Ms};
use blockdev::{BlockDev, Message};
use layer_table::{Stack, parse_line};
use refusals::Refusal;
use sector_disk::SectorDisk;
use std::alloc::{AllocError, Global};

// A call may name at most this many sectors.
const MAX_SECTORS: u64 = 4096;

/// Puts layers over the disk, makes the calls of these lines, and appends their results. A line
/// `layer <table line>` adds a layer over the earlier ones, loaded at time 0; `layer@<ms> ..` loads
/// it at that time. After a line `off` the layers are removed, and calls go to the disk itself.
pub fn ask_stack(
    alloc: Global,
    disk: SectorDisk,
    lines: &str,
    shown: &mut String,
) -> Result<(), AllocError> {
    let (above, beneath) = lines.split_once("off\n").unwrap_or((lines, ""));
    let mut disk = on_layers(alloc, disk, above, shown)?;
    ask_disk(alloc, &mut disk, beneath, shown)
}

/// Makes the calls of these lines on a disk without layers. `disk` prints the disk's content, and
/// `crash <pick> ..` crashes it.
pub fn ask_disk(
    alloc: Global,
    disk: &mut SectorDisk,
    lines: &str,
    shown: &mut String,
) -> Result<(), AllocError> {
    for line in lines.lines() {
        match line.split_once(' ').unwrap_or((line, "")) {
            ("disk", _) => show_disk(disk, shown)?,
            ("crash", picks) => crash(alloc, disk, picks)?,
            _ => ask(alloc, disk, line, shown)?,
        }
    }
    Ok(())
}

// Makes the calls of these lines on a disk under the lines' layers, and returns the disk.
fn on_layers(
    alloc: Global,
    disk: SectorDisk,
    lines: &str,
    shown: &mut String,
) -> Result<SectorDisk, AllocError> {
    let mut stack = Stack::new(disk);
    let mut told = Ok(());
    for line in lines.lines() {
        stack = match layered(alloc, stack, line) {
            Ok(higher) => higher,
            Err((same, refusal)) => {
                told = told.and(tell_refusal(refusal, shown));
                same
            }
        };
    }
    let told = told.and(ask_all(alloc, &mut stack, lines, shown));
    let disk = stack.into_disk();
    told.map(|_| disk)
}

// Puts the layer of a line over a stack. If the line names no layer, returns the stack unchanged.
fn layered(alloc: Global, stack: Stack, line: &str) -> Result<Stack, (Stack, Refusal)> {
    let Some(rest) = line.strip_prefix("layer") else {
        return Ok(stack);
    };
    let (load, text) = rest.split_once(' ').unwrap_or_default();
    let load = load.trim_start_matches('@').parse::<u64>().unwrap_or(0);
    match parse_line(text.as_bytes()) {
        Ok(spec) => stack.over(alloc, spec, Ms::new(load)),
        Err(error) => Err((stack, Refusal::from(error))),
    }
}

fn tell_refusal(refusal: Refusal, shown: &mut String) -> Result<(), AllocError> {
    writeln!(shown, "{refusal}")
}

// Makes the calls of these lines, one after another.
fn ask_all<D: Message + Drop>(
    alloc: Global,
    device: &mut D,
    lines: &str,
    shown: &mut String,
) -> Result<(), AllocError> {
    for line in lines.lines() {
        ask(alloc, device, line, shown)?;
    }
    Ok(())
}

// Makes the call of a line: `at <ms> <call>`, or `message <layer> <text>`. `counts` prints the
// counts of faults and lies, and `sectors` the sector count.
fn ask<D: Message + Drop>(
    alloc: Global,
    device: &mut D,
    line: &str,
    shown: &mut String,
) -> Result<(), AllocError> {
    let (word, rest) = line.split_once(' ').unwrap_or((line, ""));
    match word {
        "at" => ask_at(alloc, device, rest, shown),
        "message" => send(device, rest, shown),
        "counts" => writeln!(shown, "faults {}, lies {}", device.faults(), device.lies()),
        "sectors" => writeln!(shown, "{} sectors", device.sectors()),
        _ => Ok(()),
    }
}

// Sends a message, and prints `ok` or its refusal.
fn send<D: Message + Drop>(
    device: &mut D,
    words: &str,
    shown: &mut String,
) -> Result<(), AllocError> {
    let (layer, text) = words.split_once(' ').unwrap_or((words, ""));
    match device.message(layer.parse::<u64>().unwrap_or(0), text) {
        Ok(()) => Ok(shown.push_str("ok\n")?),
        Err(error) => tell_refusal(Refusal::from(error), shown),
    }
}

// The sectors and the byte of a call, and whether it has FUA. A byte has two hexadecimal digits.
#[derive(Drop)]
struct SectorRange {
    first: u64,
    count: u64,
    byte: u8,
    is_fua: bool,
}

impl SectorRange {
    // Returns the range of these words, with 0 for each missing number.
    fn of(words: &str) -> SectorRange {
        let mut words = words.split(' ');
        let first = words.next().unwrap_or_default().parse::<u64>().unwrap_or(0);
        let count = words.next().unwrap_or_default().parse::<u64>().unwrap_or(0);
        let byte = match words.next().unwrap_or_default().as_bytes() {
            [high, low] => hex_byte(*high, *low),
            _ => 0,
        };
        let is_fua = words.next() == Some("fua");
        SectorRange {
            first,
            count,
            byte,
            is_fua,
        }
    }
}

// Makes a call at a time. The call is `write <first> <count> <byte> [fua]`, `read <first> <count>`,
// `discard <first> <count>` or `flush`.
fn ask_at<D: BlockDev + Drop>(
    alloc: Global,
    device: &mut D,
    words: &str,
    shown: &mut String,
) -> Result<(), AllocError> {
    let (moment, call) = words.split_once(' ').unwrap_or_default();
    let now = Ms::new(moment.parse::<u64>().unwrap_or(0));
    let (kind, rest) = call.split_once(' ').unwrap_or((call, ""));
    if kind == "flush" {
        return tell_end(device.flush(now), shown);
    }
    let range = SectorRange::of(rest);
    let sectors = device.sectors();
    if range.count == 0
        || range.count > MAX_SECTORS
        || range.first > sectors
        || range.count > sectors - range.first
    {
        return Ok(shown.push_str("not within the device\n")?);
    }
    match kind {
        "read" => {
            let mut buffer = vec![in alloc; 255; range.count as usize * 512]?;
            let end = device.read(now, range.first, &mut buffer);
            tell_read(end, &buffer, shown)
        }
        "discard" => tell_end(device.discard(now, range.first, range.count), shown),
        _ => {
            let bytes = vec![in alloc; range.byte; range.count as usize * 512]?;
            tell_end(device.write(now, range.first, &bytes, range.is_fua), shown)
        }
    }
}

// Prints the time at which a read ended, with the first byte of each sector that it read, or its
// error.
fn tell_read(
    end: Result<Ms, DevError>,
    buffer: &[u8],
    shown: &mut String,
) -> Result<(), AllocError> {
    let Ok(moment) = end else {
        return tell_end(end, shown);
    };
    write!(shown, "ends at {}:", moment.milliseconds())?;
    for sector in buffer.chunks(512) {
        let byte = sector.first().copied().unwrap_or(0);
        write!(shown, " {byte:02x}")?;
    }
    shown.push('\n')?;
    Ok(())
}

// Prints the time at which a call ended, in milliseconds, or its error.
fn tell_end(end: Result<Ms, DevError>, shown: &mut String) -> Result<(), AllocError> {
    match end {
        Ok(end) => writeln!(shown, "ends at {}", end.milliseconds()),
        Err(DevError::Io) => Ok(shown.push_str("Io\n")?),
        Err(DevError::Memory) => Ok(shown.push_str("Memory\n")?),
    }
}

// Prints the disk's content.
fn show_disk(disk: &mut SectorDisk, shown: &mut String) -> Result<(), AllocError> {
    match disk.bytes() {
        Ok(bytes) => push_sectors(shown, &bytes),
        Err(_) => Ok(shown.push_str("2 Memory\n")?),
    }
}

// Crashes the disk with the picks of these words.
fn crash(alloc: Global, disk: &mut SectorDisk, words: &str) -> Result<(), AllocError> {
    let mut picks = Vec::new(alloc);
    for word in words.split(' ') {
        if let Ok(pick) = word.parse::<u64>() {
            picks.push(pick)?;
        }
    }
    disk.crash(&picks);
    Ok(())
}
