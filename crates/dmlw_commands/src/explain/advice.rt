//! General advice about each refusal.
use crate::explain::packed::{Packer, write_packed};
use log_format::MAGIC;
use refusals::Refusal;
use std::fmt;
use std::fmt::Write;

/// Writes the advice about the refusal of the file `name`, if there is any.
pub(crate) fn write_advice<W: Write>(name: &str, refusal: Refusal, to: &mut W) -> fmt::Result {
    match advice(refusal) {
        "" => Ok(()),
        advice => writeln!(to, "  {name}: {advice}"),
    }
}

/// Writes which bytes a log begins with, and which bytes the file `name` begins with. If these are
/// of a packed file, writes how it is unpacked.
pub(crate) fn write_magic<W: Write>(name: &str, found: u64, to: &mut W) -> fmt::Result {
    if let Some(packer) = Packer::of(found.to_le_bytes().as_slice()) {
        return write_packed(name, packer, to);
    }
    write!(to, "  {name}: it doesn't begin with the 8 bytes of a log,")?;
    write_bytes(MAGIC, to)?;
    write!(to, ", but with")?;
    write_bytes(found, to)?;
    writeln!(to, ": it isn't a log")?;
    writeln!(
        to,
        "  the kernel writes these bytes at the first FUA write or mark, and when the device is removed: `dmsetup message <device> 0 mark <text>` makes a mark"
    )
}

// Writes a space and the byte for each byte of a number, the lowest byte first.
fn write_bytes<W: Write>(number: u64, to: &mut W) -> fmt::Result {
    for byte in number.to_le_bytes() {
        write!(to, " {byte:02x}")?;
    }
    Ok(())
}

/// Returns the advice about a refusal: one sentence, or an empty text if the refusal's message is
/// enough.
pub(crate) fn advice(refusal: Refusal) -> &'static str {
    match refusal {
        Refusal::Memory | Refusal::EndMemory => "memory ran out: try a smaller script or image",
        Refusal::PastEnd =>
            "the request ends past the data disk: its first sector plus its count is more than the number in the `data` line",
        Refusal::TooLong => "a request has at most 2048 sectors",
        Refusal::NotWhole => "a request has at least one sector",
        Refusal::OutOfRange =>
            "a number in the layer's line is out of range, or the layer ends past the device below it",
        Refusal::BadFeature =>
            "a flakey layer's feature is `0`, or `1` and one of error_reads, error_writes and drop_writes",
        Refusal::BadMagic => "it isn't a log",
        Refusal::BadVersion => "the log is of another format version than 1",
        Refusal::BadSectorSize =>
            "the log's sectors aren't of 512, 1024, 2048 or 4096 bytes: its first sector is damaged",
        Refusal::BadMark =>
            "a mark has sectors, or its text doesn't fit in its log sector: the entry is damaged",
        Refusal::TooLarge =>
            "an entry reaches past the end of the largest device: the entry is damaged",
        Refusal::Full =>
            "the entries don't fit in the log: ask for more sectors in the script's line `log <sectors>`",
        Refusal::Device => "the log's device failed",
        Refusal::CutShort =>
            "the log is shorter than its super block says: it was cut, or wasn't written to its end; the entries before the fault are whole",
        Refusal::NoSuchMark => "no mark of the log has this text: `dmlw list` prints its marks",
        Refusal::NoFlush =>
            "the log has no flush, and no write with FLUSH: `dmlw list` prints its entries",
        Refusal::PastTarget =>
            "the next entry reaches past the end of the image, which must be as large as the recorded device",
        Refusal::PastEntries =>
            "the log has fewer entries: `dmlw status` prints how many it counts",
        Refusal::Busy =>
            "a request is still open here: end each by a line `c <id>` before the `close`",
        Refusal::BadId =>
            "an id is submitted only once in a script, and `c <id>` ends a request that is open",
        Refusal::BadMoment =>
            "M is a number of events, from 0 to all of the run's; the image must be as large as the data disk, seen from the top of its layers",
        Refusal::Unaligned =>
            "with log sectors of 4096 bytes, each request and entry must begin and end at a multiple of 4096 bytes (8 sectors of 512 bytes)",
        Refusal::NoThread => "the thread that writes the log couldn't be started: nothing was run",
        Refusal::Foreign =>
            "the seats or the log don't match the run's history: this is a bug in dmlw",
        _ => "",
    }
}
