// Series of scripts for `run`. Four seats write and mark at once, with a fuse under the log; what
// is printed and listed is compared with the expected results. One seat has thousands of entries
// and waits for each. Two seats mark at once, until their marks are mixed in the log.
use crate::series::asking::{CommandOutput, ask, folder_of};
use crate::series::report::Report;
use std::alloc::{AllocError, Global};
use std::sync::Wait;
use std::thread::Threads;

// This many seats run at once.
const SEATS: u64 = 4;

// Each of these seats writes this many sectors.
const WRITES: u64 = 100;

// The longest fuse has this many calls.
const MOST_CALLS: u64 = 20;

// A single seat makes this many FUA writes, and as many marks.
const TURNS: u64 = 2_500;

// Each of two seats makes this many marks.
const MARKS: u64 = 1_000;

// At most this many runs are tried until the marks of both seats are mixed.
const TRIES: u64 = 20;

/// Runs four seats with each fuse, then a single seat, then two seats at once. Reports how many
/// runs there were.
pub fn run<H: Threads + Wait + Sync>(
    rt: &H,
    alloc: Global,
    report: &mut Report,
) -> Result<(), AllocError> {
    let before = report.differ();
    let mut runs: u64 = 0;
    for calls in 0..=MOST_CALLS {
        run_fuse(rt, alloc, calls, report)?;
        runs = runs.saturating_add(1);
    }
    run_alone(rt, alloc, report)?;
    run_two(rt, alloc, report)?;
    runs = runs.saturating_add(2);
    let differ = report.differ().saturating_sub(before);
    let line = format!(in alloc; "seats: {runs} runs, {differ} differ")?;
    report.line(line.as_str())
}

// Runs the four seats with a fuse of `calls` calls under the log.
fn run_fuse<H: Threads + Wait + Sync>(
    rt: &H,
    alloc: Global,
    calls: u64,
    report: &mut Report,
) -> Result<(), AllocError> {
    let script = script_of(alloc, calls)?;
    let mut folder = folder_of(alloc, script.as_str())?;
    let told = ask(rt, alloc, "run script log", &mut folder)?;
    let has_log = folder.bytes("log").is_some();
    let listed = ask(rt, alloc, "list log", &mut folder)?;
    check_fuse(alloc, calls, has_log, &told, &listed, report)
}

// Checks what `run` and `list` printed with a fuse of `calls` calls.
fn check_fuse(
    alloc: Global,
    calls: u64,
    has_log: bool,
    told: &CommandOutput,
    listed: &CommandOutput,
    report: &mut Report,
) -> Result<(), AllocError> {
    let case = format!(in alloc; "four seats, fuse of {calls} calls")?;
    if calls == 0 {
        if !told.is(3, "", "dmlw: 19 Device\n") || has_log {
            report.differs(case.as_str(), told, "[3] dmlw: 19 Device")?;
        }
        return Ok(());
    }
    if !is_told(alloc, told, calls)? {
        report.differs(
            case.as_str(),
            told,
            "400 done, and each mark told as it went",
        )?;
    }
    if !lists_marks(alloc, told, listed)? {
        let wanted = "a mark that is listed for each that was logged";
        report.differs(case.as_str(), told, wanted)?;
        report.differs(case.as_str(), listed, wanted)?;
    }
    Ok(())
}

// Runs a seat that writes with FUA and marks, again and again. The writer takes an entry as soon as
// it is queued, so the entry may be durable before or after the seat looks for it.
fn run_alone<H: Threads + Wait + Sync>(
    rt: &H,
    alloc: Global,
    report: &mut Report,
) -> Result<(), AllocError> {
    let script = script_alone(alloc)?;
    let mut folder = folder_of(alloc, script.as_str())?;
    let told = ask(rt, alloc, "run script log", &mut folder)?;
    let wanted = "seat 0: 0 done 5000 logged 0 failed 0 not logged 0 refused\n5001 7501\n";
    if !told.is(0, wanted, "") {
        report.differs("one seat, writes with FUA and marks", &told, wanted)?;
    }
    Ok(())
}

// Returns the script of the single seat.
fn script_alone(alloc: Global) -> Result<String, AllocError> {
    let mut text = String::from_str(alloc, "data 16\nlog 7503\nseats 1\n")?;
    for _turn in 0..TURNS {
        text.push_str("s0 w 5 1 41 fua\ns0 mark here\n")?;
    }
    Ok(text)
}

// Runs two seats that mark again and again. Repeats this until each seat has a mark in the log
// before the other's last mark. Then neither seat waited until the other was done.
fn run_two<H: Threads + Wait + Sync>(
    rt: &H,
    alloc: Global,
    report: &mut Report,
) -> Result<(), AllocError> {
    let script = script_of_two(alloc)?;
    let mut folder = folder_of(alloc, script.as_str())?;
    for _ in 0..TRIES {
        ask(rt, alloc, "run script log", &mut folder)?;
        let listed = ask(rt, alloc, "list log", &mut folder)?;
        if are_mixed(listed.out.as_str(), " mark one\n", " mark two\n") {
            return Ok(());
        }
    }
    let listed = ask(rt, alloc, "list log", &mut folder)?;
    report.differs(
        "two seats that mark at once",
        &listed,
        "marks of both seats, mixed",
    )
}

fn script_of_two(alloc: Global) -> Result<String, AllocError> {
    let mut text = String::from_str(alloc, "data 16\nlog 2002\nseats 2\n")?;
    for _mark in 0..MARKS {
        text.push_str("s0 mark one\ns1 mark two\n")?;
    }
    Ok(text)
}

// Returns whether `one` occurs before the last `other`, and `other` before the last `one`.
fn are_mixed(listed: &str, one: &str, other: &str) -> bool {
    match (
        listed.find(one),
        listed.rfind(one),
        listed.find(other),
        listed.rfind(other),
    ) {
        (Some(first), Some(last), Some(other_first), Some(other_last)) => {
            first < other_last && other_first < last
        }
        _ => false,
    }
}

// Returns the script of the four seats. Each writes a hundred sectors that no other seat writes,
// one after another, and then marks its number.
fn script_of(alloc: Global, calls: u64) -> Result<String, AllocError> {
    let mut text = String::from_str(alloc, "data 400\nlog 807\nseats 4\n")?;
    writeln!(text, "log-layer 0 807 fuse disk 0 {calls}")?;
    for seat in 0..SEATS {
        push_seat(&mut text, seat)?;
    }
    Ok(text)
}

// Appends the lines of a seat.
fn push_seat(text: &mut String, seat: u64) -> Result<(), AllocError> {
    let first = seat.saturating_mul(WRITES);
    for number in 0..WRITES {
        writeln!(text, "s{seat} w {} 1 1{seat}", first.saturating_add(number))?;
    }
    writeln!(text, "s{seat} mark seat {seat}")
}

// Returns how many marks are logged under a fuse of `calls` calls. The first call makes the log.
// Each mark takes three calls: a write of its entry, a flush, and a write of the super block. The
// plain writes are logged only by the close.
fn marks_of(calls: u64) -> u64 {
    (calls.saturating_sub(1) / 3).min(SEATS)
}

// Returns whether `run` printed what it must: each seat has 100 writes done, and its mark is logged
// or not logged. The number of logged marks is that of `marks_of`, and logging ended.
fn is_told(alloc: Global, told: &CommandOutput, calls: u64) -> Result<bool, AllocError> {
    let mut logged: u64 = 0;
    let mut is_good = told.status == 3 && told.err.is_empty();
    for (seat, line) in (0..SEATS).zip(told.out.as_str().split('\n')) {
        let is_logged = is_logged(alloc, line, seat)?;
        logged = logged.saturating_add(u64::from(is_logged));
        is_good = is_good && (is_logged || line == seat_line(alloc, seat, false)?.as_str());
    }
    Ok(is_good && logged == marks_of(calls) && told.out.ends_with(" logging_disabled\n"))
}

// Returns whether `line` is what a seat prints if its mark was logged.
fn is_logged(alloc: Global, line: &str, seat: u64) -> Result<bool, AllocError> {
    Ok(line == seat_line(alloc, seat, true)?.as_str())
}

// Returns what a seat prints if its mark was logged, or wasn't.
fn seat_line(alloc: Global, seat: u64, is_logged: bool) -> Result<String, AllocError> {
    let (logged, lost) = if is_logged { (1, 0) } else { (0, 1) };
    format!(in alloc;
        "seat {seat}: {WRITES} done {logged} logged 0 failed {lost} not logged 0 refused"
    )
}

// Returns whether `list` prints no fault, and prints the mark of each seat that reported its mark
// as logged.
fn lists_marks(
    alloc: Global,
    told: &CommandOutput,
    listed: &CommandOutput,
) -> Result<bool, AllocError> {
    let mut is_good = listed.status == 0 && listed.err.is_empty();
    for (seat, line) in (0..SEATS).zip(told.out.as_str().split('\n')) {
        if is_logged(alloc, line, seat)? {
            let mark = format!(in alloc; " mark seat {seat}\n")?;
            is_good = is_good && listed.out.contains(mark.as_str());
        }
    }
    Ok(is_good)
}
