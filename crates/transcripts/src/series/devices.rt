// Series: a script is recorded with each stack of layers under its log, a fuse on top, and a crash
// at its end. What `record` prints and what the log lists is compared with the expected results.
use crate::series::asking::{CommandOutput, ask, folder_of};
use crate::series::layers::{LATE, LogLayer, STACKS, WHOLE_RUN, passed, stack_of};
use crate::series::report::Report;
use std::alloc::{AllocError, Global};
use std::sync::Wait;
use std::thread::Threads;
use test_devices::Folder;

// The events of each script: a write, a flush that makes the write durable, and the close.
const EVENTS: &str = "w a 5 1 41\nc a\nf b\nc b\nclose\n";

// How `list` prints the entries of the log that a whole run leaves.
const ENTRIES: [&str; 3] = [
    "0 @1 write 5+1\n",
    "1 @3 flush\n",
    "2 @4 mark dm-log-writes-end\n",
];

// The status at index n is printed if n calls on the log's disk passed; if none did, there is no
// log.
const STATUSES: [&str; 8] = [
    "no log",
    "0 0 logging_disabled",
    "0 0 logging_disabled",
    "1 2 logging_disabled",
    "2 3 logging_disabled",
    "3 4 logging_disabled",
    "3 4 logging_disabled",
    "3 4",
];

// How a case ends.
#[derive(Clone, Copy)]
enum CaseEnd {
    // It doesn't crash.
    Plain,
    // It crashes; each sector then holds its durable value.
    Crash,
    // It crashes. If a sector has other possible values besides its durable value, it then holds
    // the first of them.
    Picked,
}

// A case: the layers, the lowest first; the calls of a fuse over them, if there is one; the time of
// the events, in milliseconds; and the ending.
#[derive(Drop)]
struct Case {
    layers: Vec<LogLayer>,
    fuse: Option<u64>,
    moment: u64,
    ending: CaseEnd,
}

// The counts of all cases: how many left a log, and how many of the logs list n entries, for each
// n.
#[derive(Drop)]
struct DeviceCounts {
    cases: u64,
    logs: u64,
    by_entries: [u64; 4],
}

/// Reports a few cases, one in each line. Then runs all cases and reports their counts.
pub fn run<H: Threads + Wait + Sync>(
    rt: &H,
    alloc: Global,
    report: &mut Report,
) -> Result<(), AllocError> {
    let mut seen = DeviceCounts {
        cases: 0,
        logs: 0,
        by_entries: [0; 4],
    };
    tables(rt, alloc, report)?;
    let before = report.differ();
    for number in 0..STACKS {
        run_stack(rt, alloc, number, report, &mut seen)?;
    }
    let [none, one, two, three] = seen.by_entries;
    let differ = report.differ().saturating_sub(before);
    let line = format!(in alloc;
        "layers: {} cases, {} logs, {none} of no entry, {one} of one, {two} of two, {three} of three, {differ} differ",
        seen.cases, seen.logs
    )?;
    report.line(line.as_str())
}

// Runs all cases of the stack `number`.
fn run_stack<H: Threads + Wait + Sync>(
    rt: &H,
    alloc: Global,
    number: u64,
    report: &mut Report,
    seen: &mut DeviceCounts,
) -> Result<(), AllocError> {
    for fuse in 0..=WHOLE_RUN {
        run_fuse(rt, alloc, number, fuse, report, seen)?;
    }
    Ok(())
}

// Runs the cases of a stack under a fuse: at both times, and with both kinds of crash.
fn run_fuse<H: Threads + Wait + Sync>(
    rt: &H,
    alloc: Global,
    number: u64,
    fuse: u64,
    report: &mut Report,
    seen: &mut DeviceCounts,
) -> Result<(), AllocError> {
    let ends = [
        (0, CaseEnd::Crash),
        (0, CaseEnd::Picked),
        (LATE, CaseEnd::Crash),
        (LATE, CaseEnd::Picked),
    ];
    for (moment, ending) in ends {
        let case = Case {
            layers: stack_of(alloc, number)?,
            fuse: Some(fuse),
            moment,
            ending,
        };
        run_case(rt, alloc, &case, report, seen)?;
    }
    Ok(())
}

// Runs a case, compares its results with the expected results, and counts it.
fn run_case<H: Threads + Wait + Sync>(
    rt: &H,
    alloc: Global,
    case: &Case,
    report: &mut Report,
    seen: &mut DeviceCounts,
) -> Result<(), AllocError> {
    let script = script_of(alloc, case)?;
    let mut folder = folder_of(alloc, script.as_str())?;
    let passed = passed(&case.layers, case.moment, case.fuse);
    seen.cases = seen.cases.saturating_add(1);
    let told = ask(rt, alloc, "record script log", &mut folder)?;
    check_told(alloc, script.as_str(), &told, passed, report)?;
    if folder.bytes("log").is_some() {
        seen.logs = seen.logs.saturating_add(1);
        let listed = ask(rt, alloc, "list log", &mut folder)?;
        check_listed(alloc, script.as_str(), &listed, passed, report)?;
        seen.count(entries_of(&listed));
    } else if passed > 0 {
        report.differs(script.as_str(), &told, "a log")?;
    }
    Ok(())
}

impl DeviceCounts {
    // Counts a log with `entries` entries.
    fn count(&mut self, entries: usize) {
        if let Some(count) = self.by_entries.get_mut(entries) {
            *count = count.saturating_add(1);
        }
    }
}

// Returns how many entries a listing has.
fn entries_of(listed: &CommandOutput) -> usize {
    listed.out.as_str().matches('\n').count().saturating_sub(1)
}

fn script_of(alloc: Global, case: &Case) -> Result<String, AllocError> {
    let mut text = String::from_str(alloc, "data 16\nlog 32\n")?;
    push_layers(&mut text, &case.layers, case.fuse)?;
    push_messages(&mut text, &case.layers)?;
    writeln!(text, "at {}", case.moment)?;
    text.push_str(EVENTS)?;
    push_ending(&mut text, case.ending)?;
    Ok(text)
}

// Appends the lines of the log's layers and of the fuse over them.
fn push_layers(
    text: &mut String,
    layers: &[LogLayer],
    fuse: Option<u64>,
) -> Result<(), AllocError> {
    for layer in layers {
        writeln!(text, "log-layer {}", layer.line())?;
    }
    match fuse {
        Some(calls) => writeln!(text, "log-layer 0 32 fuse disk 0 {calls}"),
        None => Ok(()),
    }
}

// Appends the messages that make block 3 of each dust layer fail one write.
fn push_messages(text: &mut String, layers: &[LogLayer]) -> Result<(), AllocError> {
    for (below, layer) in layers.iter().enumerate() {
        if *layer == LogLayer::Dust {
            let number = below.saturating_add(1);
            writeln!(text, "message log {number} addbadblock 3 1")?;
            writeln!(text, "message log {number} enable")?;
        }
    }
    Ok(())
}

// Appends the line of the crash, unless the case has none.
fn push_ending(text: &mut String, ending: CaseEnd) -> Result<(), AllocError> {
    let picks = match ending {
        CaseEnd::Plain => return Ok(()),
        CaseEnd::Crash => 0,
        CaseEnd::Picked => 64,
    };
    text.push_str("crash")?;
    for _ in 0..picks {
        text.push_str(" 1")?;
    }
    text.push('\n')?;
    Ok(())
}

// Checks what `record` prints if `passed` calls passed. If none did, the log couldn't be made, and
// the fault is `19 Device`. Otherwise it prints its two requests and a status.
fn check_told(
    alloc: Global,
    script: &str,
    told: &CommandOutput,
    passed: u64,
    report: &mut Report,
) -> Result<(), AllocError> {
    if passed == 0 {
        if !told.is(3, "", "dmlw: 19 Device\n") {
            report.differs(script, told, "[3] dmlw: 19 Device")?;
        }
        return Ok(());
    }
    let status = STATUSES.get(passed as usize).copied().unwrap_or_default();
    let wanted = format!(in alloc; "a ok\nb ok\n{status}\n")?;
    let exit = if passed == WHOLE_RUN { 0 } else { 3 };
    if !told.is(exit, wanted.as_str(), "") {
        report.differs(script, told, wanted.as_str())?;
    }
    Ok(())
}

// Checks what `list` prints. If the last call passed, which writes the super block with the count
// 3, all three entries are listed; otherwise none is.
fn check_listed(
    alloc: Global,
    script: &str,
    listed: &CommandOutput,
    passed: u64,
    report: &mut Report,
) -> Result<(), AllocError> {
    let count = if passed == WHOLE_RUN {
        ENTRIES.len()
    } else {
        0
    };
    let mut wanted = format!(in alloc; "super version 1 entries {count} sectorsize 512\n")?;
    for entry in ENTRIES.iter().take(count) {
        wanted.push_str(entry)?;
    }
    if !listed.is(0, wanted.as_str(), "") {
        report.differs(script, listed, wanted.as_str())?;
    }
    Ok(())
}

// Reports what is left by fuses of 0 to 7 calls over the plain disk, and by a bad block.
fn tables<H: Threads + Wait + Sync>(
    rt: &H,
    alloc: Global,
    report: &mut Report,
) -> Result<(), AllocError> {
    for calls in 0..=WHOLE_RUN {
        let name = format!(in alloc; "fuse of {calls} calls")?;
        let case = Case {
            layers: Vec::new(alloc),
            fuse: Some(calls),
            moment: 0,
            ending: CaseEnd::Plain,
        };
        row(rt, alloc, name.as_str(), &case, report)?;
    }
    let case = Case {
        layers: vec![in alloc; LogLayer::Dust]?,
        fuse: None,
        moment: 0,
        ending: CaseEnd::Plain,
    };
    row(rt, alloc, "bad block 3", &case, report)
}

// Reports a case: the last line that `record` prints, and how many entries the log lists.
fn row<H: Threads + Wait + Sync>(
    rt: &H,
    alloc: Global,
    name: &str,
    case: &Case,
    report: &mut Report,
) -> Result<(), AllocError> {
    let script = script_of(alloc, case)?;
    let mut folder = folder_of(alloc, script.as_str())?;
    let told = ask(rt, alloc, "record script log", &mut folder)?;
    check_told(
        alloc,
        script.as_str(),
        &told,
        passed(&case.layers, case.moment, case.fuse),
        report,
    )?;
    let listed = listed_text(rt, alloc, &mut folder)?;
    let line = format!(in alloc; "{name}: {}, {listed}", last_line(&told))?;
    report.line(line.as_str())
}

// Returns as text how many entries the folder's log lists.
fn listed_text<H: Threads + Wait + Sync>(
    rt: &H,
    alloc: Global,
    folder: &mut Folder,
) -> Result<String, AllocError> {
    if folder.bytes("log").is_none() {
        return String::from_str(alloc, "no log");
    }
    let listed = ask(rt, alloc, "list log", folder)?;
    format!(in alloc; "{} entries listed", entries_of(&listed))
}

// Returns the last line of the error output, or of the output if there is no error.
fn last_line(told: &CommandOutput) -> &str {
    let text = if told.err.is_empty() {
        told.out.as_str()
    } else {
        told.err.as_str()
    };
    let lines = text.strip_suffix("\n").unwrap_or(text);
    match lines.rsplit_once('\n') {
        Some((_, line)) => line,
        None => lines,
    }
}
