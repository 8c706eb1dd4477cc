// Series: what each command prints for logs that are cut short, or have one wrong byte.
use crate::series::asking::{WantedOutput, ask, folder_of};
use crate::series::faults::{FaultCounts, LOG_FAULTS, REPLAY_FAULTS};
use crate::series::report::{Report, check};
use crate::series::targets;
use std::alloc::{AllocError, Global};
use std::sync::Wait;
use std::thread::Threads;
use test_devices::Folder;

// This script has a write, and a flush that makes the write durable.
const FLUSHED: &str = "data 16\nlog 32\nw a 5 1 41\nc a\nf b\nc b\nclose\n";

// This script has a write, and then a write of two sectors with flush and FUA.
const SETTLED: &str =
    "data 16\nlog 32\nw a 4 1 11\nc a\nw b 8 2 22 flush fua\nc b\nturn\nturn\nclose\n";

// How `list` prints the log of `FLUSHED`, line by line.
const LISTED: [&str; 4] = [
    "super version 1 entries 3 sectorsize 512\n",
    "0 @1 write 5+1\n",
    "1 @3 flush\n",
    "2 @4 mark dm-log-writes-end\n",
];

// What each command prints for a log that is too short for its count of entries.
const CUT: &str = "dmlw: 21 CutShort\n";

// The length of a sector in bytes.
const SECTOR: usize = 512;

// The length of the data disk in bytes.
const DATA_BYTES: usize = 8192;

// This many bytes at the beginning of the log of `SETTLED` are damaged, one at a time.
const DAMAGED_BYTES: usize = 1024;

// The number of sectors of the log of `FLUSHED`.
const LOG_SECTORS: usize = 32;

// The values that a damaged byte is set to.
const VALUES: [u8; 4] = [0x00, 0x7f, 0x80, 0xff];

// The offset of the count of entries in the super block.
const COUNT_AT: usize = 16;

// The byte at offset `place` of a log is set to `value`.
#[derive(Clone, Copy)]
struct Damage {
    place: usize,
    value: u8,
}

// How the commands ended for all images: `list`, `status`, `replay` of all entries that the super
// block counts, and `replay` of the last flush.
#[derive(Drop)]
struct DamageCounts {
    images: u64,
    // How many damages don't change the log; it is read for the first of them only.
    same: u64,
    listed: FaultCounts,
    status: FaultCounts,
    counted: FaultCounts,
    flushed: FaultCounts,
}

/// Runs three series. The first has the log of `FLUSHED`, cut to each length, the second the log of
/// `SETTLED` with each of its first bytes changed. The third replays onto devices that fail or lie.
pub fn run<H: Threads + Wait + Sync>(
    rt: &H,
    alloc: Global,
    report: &mut Report,
) -> Result<(), AllocError> {
    run_cuts(rt, alloc, report)?;
    run_damages(rt, alloc, report)?;
    targets::run(rt, alloc, report)
}

/// Returns the log of a write that a flush makes durable: that of the script `FLUSHED`.
pub fn plain_log<H: Threads + Wait + Sync>(rt: &H, alloc: Global) -> Result<Vec<u8>, AllocError> {
    log_of(rt, alloc, FLUSHED)
}

// Records a script, and returns its log.
fn log_of<H: Threads + Wait + Sync>(
    rt: &H,
    alloc: Global,
    script: &str,
) -> Result<Vec<u8>, AllocError> {
    let mut folder = folder_of(alloc, script)?;
    let _ = ask(rt, alloc, "record script log", &mut folder)?;
    Vec::from_slice(alloc, folder.bytes("log").unwrap_or_default())
}

// Reads the log of `FLUSHED`, cut to each number of sectors.
fn run_cuts<H: Threads + Wait + Sync>(
    rt: &H,
    alloc: Global,
    report: &mut Report,
) -> Result<(), AllocError> {
    let log = plain_log(rt, alloc)?;
    let before = report.differ();
    let mut folder = Folder::new(alloc);
    folder.put(alloc, "zeroes", vec![in alloc; 0; DATA_BYTES]?)?;
    for sectors in 1..=LOG_SECTORS {
        let cut = log
            .get(..sectors.saturating_mul(SECTOR))
            .unwrap_or_default();
        folder.put(alloc, "log", Vec::from_slice(alloc, cut)?)?;
        check_cut(rt, alloc, sectors, &mut folder, report)?;
    }
    let differ = report.differ().saturating_sub(before);
    let line = format!(in alloc; "cuts: {LOG_SECTORS} images, {differ} differ")?;
    report.line(line.as_str())
}

// Checks the log of `FLUSHED`, cut to `sectors` sectors. If the log is too short for its count, it
// is refused at once. If only its last entry is missing, the two entries before that are listed. If
// it is longer, all three are listed.
fn check_cut<H: Threads + Wait + Sync>(
    rt: &H,
    alloc: Global,
    sectors: usize,
    folder: &mut Folder,
    report: &mut Report,
) -> Result<(), AllocError> {
    let lines = match sectors {
        0..=3 => 0,
        4 => 3,
        _ => 4,
    };
    let mut listed = String::new(alloc);
    for line in LISTED.iter().take(lines) {
        listed.push_str(line)?;
    }
    let (status, replayed) = if lines == LISTED.len() {
        ("3 4\n", "replayed 3\n")
    } else {
        ("", "")
    };
    let (fault, stop) = match lines {
        0 => (CUT, CUT),
        3 => (CUT, "dmlw: 21 CutShort after 2 entries\n"),
        _ => ("", ""),
    };
    let wanted = [
        WantedOutput {
            line: "list log",
            out: listed.as_str(),
            err: fault,
        },
        WantedOutput {
            line: "status log",
            out: status,
            err: fault,
        },
        WantedOutput {
            line: "replay log zeroes out entries:3",
            out: replayed,
            err: stop,
        },
    ];
    let case = format!(in alloc; "cut to {sectors} sectors")?;
    check(rt, alloc, case.as_str(), &wanted, folder, report)
}

// Reads the log of `SETTLED` with each of its first 1,024 bytes set to each of `VALUES`, one at a
// time.
fn run_damages<H: Threads + Wait + Sync>(
    rt: &H,
    alloc: Global,
    report: &mut Report,
) -> Result<(), AllocError> {
    let log = log_of(rt, alloc, SETTLED)?;
    let before = report.differ();
    let mut folder = Folder::new(alloc);
    folder.put(alloc, "zeroes", vec![in alloc; 0; DATA_BYTES]?)?;
    let mut seen = DamageCounts {
        images: 0,
        same: 0,
        listed: FaultCounts::new(LOG_FAULTS),
        status: FaultCounts::new(LOG_FAULTS),
        counted: FaultCounts::new(REPLAY_FAULTS),
        flushed: FaultCounts::new(REPLAY_FAULTS),
    };
    for place in 0..DAMAGED_BYTES {
        damage_place(rt, alloc, &log, place, &mut folder, &mut seen, report)?;
    }
    tell(alloc, &seen, report.differ().saturating_sub(before), report)
}

// Reads the log with the byte at offset `place` set to each of `VALUES`.
fn damage_place<H: Threads + Wait + Sync>(
    rt: &H,
    alloc: Global,
    log: &[u8],
    place: usize,
    folder: &mut Folder,
    seen: &mut DamageCounts,
    report: &mut Report,
) -> Result<(), AllocError> {
    for value in VALUES {
        let damage = Damage { place, value };
        if seen.is_new(log, damage) {
            read_damaged(rt, alloc, log, damage, folder, seen, report)?;
        }
    }
    Ok(())
}

// Puts the damaged log in the folder. Returns the command line that replays all entries that its
// super block counts.
fn damage_log(
    alloc: Global,
    log: &[u8],
    damage: Damage,
    folder: &mut Folder,
) -> Result<String, AllocError> {
    let mut image = Vec::from_slice(alloc, log)?;
    if let Some(byte) = image.get_mut(damage.place) {
        *byte = damage.value;
    }
    let count = count_of(&image);
    folder.put(alloc, "log", image)?;
    format!(in alloc; "replay log zeroes out entries:{count}")
}

// Reads a damaged log with `list`, with `status`, and with `replay` of all entries and of the last
// flush.
fn read_damaged<H: Threads + Wait + Sync>(
    rt: &H,
    alloc: Global,
    log: &[u8],
    damage: Damage,
    folder: &mut Folder,
    seen: &mut DamageCounts,
    report: &mut Report,
) -> Result<(), AllocError> {
    let replay = damage_log(alloc, log, damage, folder)?;
    read(
        rt,
        alloc,
        "list log",
        damage,
        folder,
        &mut seen.listed,
        report,
    )?;
    read(
        rt,
        alloc,
        "status log",
        damage,
        folder,
        &mut seen.status,
        report,
    )?;
    read(
        rt,
        alloc,
        replay.as_str(),
        damage,
        folder,
        &mut seen.counted,
        report,
    )?;
    read(
        rt,
        alloc,
        "replay log zeroes out flush",
        damage,
        folder,
        &mut seen.flushed,
        report,
    )
}

impl DamageCounts {
    // Counts an image. Returns false if the damage doesn't change the log, and such an image was
    // read before.
    fn is_new(&mut self, log: &[u8], damage: Damage) -> bool {
        self.images = self.images.saturating_add(1);
        if log.get(damage.place) != Some(&damage.value) {
            return true;
        }
        self.same = self.same.saturating_add(1);
        self.same == 1
    }
}

// Returns the count of entries in a log's super block, or 0 if the log is too short.
fn count_of(log: &[u8]) -> u64 {
    let bytes = log.get(COUNT_AT..).unwrap_or_default();
    match bytes.first_chunk::<8>() {
        Some(bytes) => u64::from_le_bytes(*bytes),
        None => 0,
    }
}

// Runs a command on a damaged log, and counts how it ended. The command must end with status 0 and
// no fault, or with status 1 and a fault that is possible for it.
fn read<H: Threads + Wait + Sync>(
    rt: &H,
    alloc: Global,
    line: &str,
    damage: Damage,
    folder: &mut Folder,
    faults: &mut FaultCounts,
    report: &mut Report,
) -> Result<(), AllocError> {
    let told = ask(rt, alloc, line, folder)?;
    if !faults.count(told.status, told.err.as_str()) {
        let case = format!(in alloc; "byte {} set to {}, {line}", damage.place, damage.value)?;
        report.differs(case.as_str(), &told, "a fault of a log, or none")?;
    }
    Ok(())
}

// Reports how the commands ended.
fn tell(
    alloc: Global,
    seen: &DamageCounts,
    differ: u64,
    report: &mut Report,
) -> Result<(), AllocError> {
    let line = format!(in alloc;
        "changed bytes: {} images, {} of them the log as it was and read once, {differ} differ",
        seen.images, seen.same
    )?;
    report.line(line.as_str())?;
    report.line(format!(in alloc; "list: {}", seen.listed)?.as_str())?;
    report.line(format!(in alloc; "status: {}", seen.status)?.as_str())?;
    report.line(format!(in alloc; "replay of all that is counted: {}", seen.counted)?.as_str())?;
    report.line(format!(in alloc; "replay to the flush: {}", seen.flushed)?.as_str())
}
