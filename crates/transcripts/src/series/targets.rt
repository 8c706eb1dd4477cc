// Series: a log is replayed onto devices that fail or lie. It reports how many entries were
// applied, and how each device's content changed.
use crate::series::damage::plain_log;
use crate::series::report::Report;
use bio::Ms;
use blockdev::BlockDev;
use fault_layers::{Feature, Flakey, Fuse};
use log_reader::LogReader;
use refusals::Refusal;
use replay::{ReplayFault, Upto, replay};
use sector_disk::SectorDisk;
use std::alloc::{AllocError, Global};
use std::sync::Wait;
use std::thread::Threads;

// The device has this many sectors; at first they are zeroes.
const SECTORS: u64 = 16;

// The length of a sector in bytes.
const SECTOR: usize = 512;

// A log that is read here has at most this many bytes.
const MOST_BYTES: usize = 16_384;

// The log has this many entries: a write of sector 5, a flush and a mark. Their replay makes one
// call of the device, the write.
const ENTRIES: u64 = 3;

// The up and down times of a flakey layer that is always down.
const UP: u64 = 0;

const DOWN: u64 = 1;

/// Replays the log onto three devices, and reports the result of each replay. One fails its first
/// call, one passes one call, and one drops each write.
pub fn run<H: Threads + Wait + Sync>(
    rt: &H,
    alloc: Global,
    report: &mut Report,
) -> Result<(), AllocError> {
    let log = plain_log(rt, alloc)?;
    for calls in [0, 1] {
        let mut target = Fuse::new(SectorDisk::new(alloc, SECTORS)?, calls);
        let told = replayed(alloc, &log, &mut target)?;
        let left = left_on(target.into_lower())?;
        let line = format!(in alloc; "replay onto a fuse of {calls} calls: {told}, {left}")?;
        report.line(line.as_str())?;
    }
    run_dropped(alloc, &log, report)
}

// Replays the log onto a device that drops each write, and reports the result.
fn run_dropped(alloc: Global, log: &[u8], report: &mut Report) -> Result<(), AllocError> {
    let disk = SectorDisk::new(alloc, SECTORS)?;
    let mut target = Flakey::new(disk, UP, DOWN, Feature::DropWrites, Ms::new(0));
    let told = replayed(alloc, log, &mut target)?;
    let lies = target.lies();
    let left = left_on(target.into_lower())?;
    let line = format!(in alloc;
        "replay onto a layer that drops writes: {told}, {left}, lies {lies}"
    )?;
    report.line(line.as_str())
}

// Replays all entries onto `target`, and returns the result as text.
fn replayed<T: BlockDev>(alloc: Global, log: &[u8], target: &mut T) -> Result<String, AllocError> {
    let Some(mut reader) = reader_of(alloc, log)? else {
        return String::from_str(alloc, "no log");
    };
    match replay(&mut reader, target, &Upto::Count(ENTRIES)) {
        Ok(count) => format!(in alloc; "{count} applied"),
        Err(ReplayFault { applied, cause }) => {
            format!(in alloc; "{} after {applied}", Refusal::from(cause))
        }
    }
}

// Returns a reader of the log, if it can be opened.
fn reader_of(alloc: Global, log: &[u8]) -> Result<Option<LogReader<SectorDisk>>, AllocError> {
    if log.is_empty() || log.len() % SECTOR != 0 || log.len() > MOST_BYTES {
        return Ok(None);
    }
    let disk = SectorDisk::from_bytes(alloc, Vec::from_slice(alloc, log)?)?;
    Ok(LogReader::open(alloc, disk).ok())
}

// Returns in words how a disk's content changed from zeroes.
fn left_on(disk: SectorDisk) -> Result<&'static str, AllocError> {
    let bytes = disk.into_bytes()?;
    let changed = bytes.iter().filter(|byte| **byte != 0).count();
    Ok(match changed {
        0 => "the content stays",
        SECTOR => "a sector is new",
        _ => "the content is another one",
    })
}
