//! Tests of `record` and `events_of_run` that a transcript can't show.
use crate::commands::with_semicolons;
use blockdev::BlockDev;
use dmlw_script::{Script, read_script};
use refusals::RunError;
use script_runner::*;
use std::alloc::Global;
use std::process::Abort;
use test_devices::rows_are_told;

// Returns a script's text: the line `data 16`, and then `lines`, which are separated by commas.
fn text_of(rt: &impl Abort, alloc: Global, lines: &str) -> String {
    let mut text = String::from_str(alloc, "data 16\n").expect(rt, "memory");
    for line in lines.split(",") {
        text.push_str(line).expect(rt, "memory");
        text.push_str("\n").expect(rt, "memory");
    }
    text
}

// Records the script of a text. Returns what is printed, and then the result of the run.
fn run_text(rt: &impl Abort, alloc: Global, text: &str) -> String {
    let script = read_script(alloc, text.as_bytes()).expect(rt, "a script");
    told(rt, alloc, text, &script)
}

// Records a parsed script, and returns what `run_text` returns.
fn told(rt: &impl Abort, alloc: Global, text: &str, script: &Script) -> String {
    let mut out = Vec::new(alloc);
    let done = record(alloc, text.as_bytes(), script, &mut out);
    let ended = ended_text(rt, alloc, script.log().sectors(), done);
    let out = with_semicolons(alloc, str::from_utf8(&out).unwrap_or_default()).expect(rt, "memory");
    format!(in alloc; "{out}{ended}").expect(rt, "memory")
}

// Returns the result of a run as text: the status or the fault. The log's disk must have `sectors`
// sectors.
fn ended_text(
    rt: &impl Abort,
    alloc: Global,
    sectors: u64,
    done: Result<RunResult, RunError>,
) -> String {
    match done {
        Ok(recorded) => {
            assert!(rt; recorded.disk.sectors() == sectors);
            recorded.status.to_string(alloc).expect(rt, "memory")
        }
        Err(error) => error.to_string(alloc).expect(rt, "memory"),
    }
}

// `record` returns a disk of the log's size, and the status.
#[test]
fn scripts_are_run(rt: HostRuntime) {
    let alloc = rt.alloc();
    let text = text_of(&rt, alloc, "log 32,w a 5 1 41,c a,f b,c b,close");
    assert_eq!(rt;
        run_text(&rt, alloc, text.as_str()).as_str(),
        "a ok;b ok;3 4"
    );
}

// Rows `lines of a script=the number of its events`, or its fault after `=`; commas separate lines.
// A Close ends recording and a Stop ends logging; later lines make no event.
const REHEARSALS: &str = "log 32,r 5 1,turn,at 7=0
log 32,w a 5 1 41,c a,f b,c b,close=5
log 32,w a 5 1 41,c a,d b 4 1,mark here,c b=5
log 5,w a 5 1 41,c a,f b,c b,close=5
log 1,mark a,turn,mark b=2
log 32,close,close,mark late=1
log 32,w a 5 1 41,c a,w b 6 1 42,close=line 6: 24 Busy
log 32,log-layer 0 32 error,w a 5 1 41=19 Device";

// Runs a script only for its events (`events_of_run`). Returns how many there are, or the fault, as
// text.
fn rehearsed(rt: &impl Abort, alloc: Global, text: &str) -> String {
    match count_events(rt, alloc, text) {
        Ok(count) => count.to_string(alloc).expect(rt, "memory"),
        Err(error) => error.to_string(alloc).expect(rt, "memory"),
    }
}

// Parses and runs a script for its events, and returns their number or the error.
fn count_events(rt: &impl Abort, alloc: Global, text: &str) -> Result<usize, RunError> {
    let script = read_script(alloc, text.as_bytes()).expect(rt, "a script");
    let rehearsed = events_of_run(alloc, text.as_bytes(), &script);
    rehearsed.map(|rehearsed| rehearsed.events().len())
}

#[test]
fn scripts_are_rehearsed(rt: HostRuntime) {
    let alloc = rt.alloc();
    assert!(rt;
        rows_are_told(
            &rt,
            REHEARSALS,
            |lines| rehearsed(&rt, alloc, text_of(&rt, alloc, lines).as_str()),
        )
    );
}

// A script of 6,000 lines gives all of its 6,000 events.
#[test]
fn long_scripts_are_rehearsed(rt: HostRuntime) {
    let alloc = rt.alloc();
    let mut lines = String::from_str(alloc, "log 20000").expect(&rt, "memory");
    for number in 0..3000 {
        write!(lines, ",w a{number} 7 2 41,c a{number}").expect(&rt, "memory");
    }
    let text = text_of(&rt, alloc, lines.as_str());
    assert_eq!(rt; rehearsed(&rt, alloc, text.as_str()).as_str(), "6000");
}
