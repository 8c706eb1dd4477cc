// Series: each limit of the program is reached, and nothing is refused.
use crate::series::asking::{WantedOutput, folder_of};
use crate::series::most_seats::check_recorder;
use crate::series::report::{Report, check};
use std::alloc::{AllocError, Global};
use std::sync::Wait;
use std::thread::Threads;
use test_devices::Folder;

// This many requests are open at once, more than 65,536.
const REQUESTS: u64 = 70_000;

// A log that is read has this many entries.
const ENTRIES: u64 = 400_000;

/// Reaches each limit, and reports how many limits there are.
pub fn run<H: Threads + Wait + Sync>(
    rt: &H,
    alloc: Global,
    report: &mut Report,
) -> Result<(), AllocError> {
    let before = report.differ();
    check_requests(rt, alloc, report)?;
    check_open(rt, alloc, report)?;
    check_entries(rt, alloc, report)?;
    check_recorder(alloc, report)?;
    let differ = report.differ().saturating_sub(before);
    let line = format!(in alloc; "limits: 4 runs, {differ} differ")?;
    report.line(line.as_str())
}

// The texts of a case: its script, what the script prints or the log lists, a replay and what it
// prints, another command line or output, and a path and its steps.
#[derive(Drop)]
struct Texts {
    script: String,
    told: String,
    replay: String,
    replayed: String,
    other: String,
    path: String,
    steps: String,
}

impl Texts {
    // Returns empty texts.
    fn new(alloc: Global) -> Texts {
        Texts {
            script: String::new(alloc),
            told: String::new(alloc),
            replay: String::new(alloc),
            replayed: String::new(alloc),
            other: String::new(alloc),
            path: String::new(alloc),
            steps: String::new(alloc),
        }
    }
}

// Puts an image of `bytes` zeroes in a folder.
fn put_zeroes(
    alloc: Global,
    name: &str,
    bytes: usize,
    folder: &mut Folder,
) -> Result<(), AllocError> {
    folder.put(alloc, name, vec![in alloc; 0; bytes]?)
}

// Runs each `(command line, output)` of `lines` on a folder. Each must print exactly its output,
// and no fault.
fn check_lines<H: Threads + Wait + Sync>(
    rt: &H,
    alloc: Global,
    case: &str,
    lines: &[(&str, &str)],
    folder: &mut Folder,
    report: &mut Report,
) -> Result<(), AllocError> {
    let mut wanted = Vec::new(alloc);
    for (line, out) in lines.iter().copied() {
        wanted.push(WantedOutput { line, out, err: "" })?;
    }
    check(rt, alloc, case, &wanted, folder, report)
}

// Checks 70,000 writes of one sector that are all submitted before the first of them completes, and
// the 210,002 steps to the content that they leave.
fn check_requests<H: Threads + Wait + Sync>(
    rt: &H,
    alloc: Global,
    report: &mut Report,
) -> Result<(), AllocError> {
    let mut texts = Texts::new(alloc);
    push_requests(&mut texts)?;
    check_events(rt, alloc, &texts, report)
}

fn check_events<H: Threads + Wait + Sync>(
    rt: &H,
    alloc: Global,
    texts: &Texts,
    report: &mut Report,
) -> Result<(), AllocError> {
    let mut folder = folder_of(alloc, texts.script.as_str())?;
    put_zeroes(alloc, "zeroes", 8192, &mut folder)?;
    let lines = [
        ("record script log", texts.told.as_str()),
        (texts.replay.as_str(), texts.replayed.as_str()),
        (texts.other.as_str(), "yes\n"),
        (texts.path.as_str(), texts.steps.as_str()),
    ];
    check_lines(rt, alloc, "140,000 events", &lines, &mut folder, report)
}

// Appends the texts of 70,000 writes.
fn push_requests(texts: &mut Texts) -> Result<(), AllocError> {
    push_script(REQUESTS, &mut texts.script)?;
    push_recorded(&mut texts.told)?;
    write!(texts.replay, "replay log zeroes out entries:{REQUESTS}")?;
    writeln!(texts.replayed, "replayed {REQUESTS}")?;
    push_events("judge", &mut texts.other)?;
    push_events("path", &mut texts.path)?;
    push_path(&mut texts.steps)
}

// Appends what `record` prints for these writes.
fn push_recorded(told: &mut String) -> Result<(), AllocError> {
    push_results(REQUESTS, told)?;
    let sectors = REQUESTS.saturating_mul(2).saturating_add(1);
    writeln!(told, "{} {sectors}", REQUESTS.saturating_add(1))
}

// Appends the command line of `judge` or `path` for the last event of these writes.
fn push_events(command: &str, line: &mut String) -> Result<(), AllocError> {
    write!(line, "{command} script {} out", REQUESTS.saturating_mul(2))
}

// Appends a script with 70,000 writes, of which the first `ended` are ended before the close.
fn push_script(ended: u64, script: &mut String) -> Result<(), AllocError> {
    let sectors = REQUESTS.saturating_mul(2).saturating_add(3);
    writeln!(script, "data 16\nlog {sectors}")?;
    for number in 0..REQUESTS {
        writeln!(script, "w a{number} 5 1 41")?;
    }
    for number in 0..ended {
        writeln!(script, "c a{number}")?;
    }
    script.push_str("close\n")?;
    Ok(())
}

// Appends what `record` prints for the ends of these writes.
fn push_results(ended: u64, told: &mut String) -> Result<(), AllocError> {
    for number in 0..ended {
        writeln!(told, "a{number} ok")?;
    }
    Ok(())
}

// Closes a recorder while the last of 70,000 writes is open. The explanation names this write.
fn check_open<H: Threads + Wait + Sync>(
    rt: &H,
    alloc: Global,
    report: &mut Report,
) -> Result<(), AllocError> {
    let ended = REQUESTS.saturating_sub(1);
    let mut texts = Texts::new(alloc);
    push_script(ended, &mut texts.script)?;
    push_results(ended, &mut texts.told)?;
    push_busy(ended, &mut texts.other)?;
    let mut folder = folder_of(alloc, texts.script.as_str())?;
    let wanted = [WantedOutput {
        line: "--explain record script log",
        out: texts.told.as_str(),
        err: texts.other.as_str(),
    }];
    check(
        rt,
        alloc,
        "one of 70,000 requests is open",
        &wanted,
        &mut folder,
        report,
    )
}

// Appends what `--explain` prints for that close, if the write with this number is the open one.
fn push_busy(open: u64, told: &mut String) -> Result<(), AllocError> {
    let line = REQUESTS.saturating_add(open).saturating_add(3);
    writeln!(told, "dmlw: line {line}: 24 Busy")?;
    writeln!(told, "  line {line} of script: close")?;
    writeln!(
        told,
        "  1 request is still open here, `a{open}`: end each by a line `c <id>` before the `close`"
    )
}

// Appends the steps of the path to the content that these writes leave. Each value lands as soon as
// its write is submitted; but the last one lands after all other ends, and only it becomes durable.
fn push_path(steps: &mut String) -> Result<(), AllocError> {
    let last = REQUESTS.saturating_sub(1);
    for number in 0..last {
        writeln!(steps, "submit {number}\nland {number} 5")?;
    }
    writeln!(steps, "submit {last}")?;
    for number in 0..last {
        writeln!(steps, "end {number} ok")?;
    }
    writeln!(steps, "land {last} 5\ndestage 5\nend {last} ok\npower")
}

// Lists a log of 400,000 flushes, asks for its status, and replays it.
fn check_entries<H: Threads + Wait + Sync>(
    rt: &H,
    alloc: Global,
    report: &mut Report,
) -> Result<(), AllocError> {
    let mut texts = Texts::new(alloc);
    push_entries(&mut texts)?;
    check_flushes(rt, alloc, &texts, report)
}

fn check_flushes<H: Threads + Wait + Sync>(
    rt: &H,
    alloc: Global,
    texts: &Texts,
    report: &mut Report,
) -> Result<(), AllocError> {
    let mut folder = Folder::new(alloc);
    put_flushes(alloc, &mut folder)?;
    let lines = [
        ("list log", texts.told.as_str()),
        ("status log", texts.other.as_str()),
        (texts.replay.as_str(), texts.replayed.as_str()),
    ];
    check_lines(
        rt,
        alloc,
        "a log of 400,000 entries",
        &lines,
        &mut folder,
        report,
    )
}

// Puts the log in a folder, and the image that it is replayed onto.
fn put_flushes(alloc: Global, folder: &mut Folder) -> Result<(), AllocError> {
    folder.put(alloc, "log", flushes(alloc)?)?;
    put_zeroes(alloc, "zeroes", 512, folder)
}

// Appends the texts of a log of 400,000 flushes.
fn push_entries(texts: &mut Texts) -> Result<(), AllocError> {
    push_listed(&mut texts.told)?;
    writeln!(texts.other, "{ENTRIES} {ENTRIES}")?;
    write!(texts.replay, "replay log zeroes out entries:{ENTRIES}")?;
    writeln!(texts.replayed, "replayed {ENTRIES}")
}

// Appends how `list` prints the log.
fn push_listed(listed: &mut String) -> Result<(), AllocError> {
    writeln!(listed, "super version 1 entries {ENTRIES} sectorsize 512")?;
    for number in 0..ENTRIES {
        writeln!(listed, "{number} @{} flush", number.saturating_add(1))?;
    }
    Ok(())
}

// Returns the image of a log of 400,000 flushes.
fn flushes(alloc: Global) -> Result<Vec<u8>, AllocError> {
    let mut image = Vec::from_slice(alloc, b"rhswfsj\0")?;
    push_flushes(&mut image)?;
    Ok(image)
}

// Appends the rest of the super block, and the flushes.
fn push_flushes(image: &mut Vec<u8>) -> Result<(), AllocError> {
    for field in [1, ENTRIES, 512] {
        image.extend_from_slice(&field.to_le_bytes())?;
    }
    for _entry in 0..ENTRIES {
        push_flush(image)?;
    }
    push_sector(image)
}

// Appends a flush.
fn push_flush(image: &mut Vec<u8>) -> Result<(), AllocError> {
    push_sector(image)?;
    // The entry's sector and its number of sectors, then the flag of a flush. The length of its
    // data is 0.
    image.extend_from_slice([0; 16].as_slice())?;
    image.extend_from_slice(&1_u64.to_le_bytes())
}

// Appends zeroes up to the end of a log sector.
fn push_sector(image: &mut Vec<u8>) -> Result<(), AllocError> {
    let sectors = image.len().div_ceil(512);
    image.resize(sectors.saturating_mul(512), 0)
}
