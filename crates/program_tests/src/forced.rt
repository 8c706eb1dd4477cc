// Tests on generated scripts with layers. Each script is crashed after each of its lines. The log
// that the crash leaves is listed without a fault. Each prefix of it replays to an image that the
// judge allows at one moment at least.
use crate::commands::{folder_of, output_of};
use std::alloc::Global;
use std::io::Print;
use std::process::Abort;
use std::sync::Wait;
use std::thread::Threads;
use test_devices::{Folder, Numbers, holds};

// The heads of scripts: disks, layers that may fail or drop calls, and messages. No layer drops
// calls of the log.
const HEADS: [&str; 7] = [
    "data 6\nlog 40\n",
    "data 6\nlog 40\nlog-layer 0 40 fuse disk 0 9\n",
    "data 6\nlog 40\ndata-layer 0 6 fuse disk 0 2\nlog-layer 0 38 linear disk 0\n",
    "data 8\nlog 40\ndata-layer 0 6 linear disk 1\nlog-layer 0 40 flakey disk 0 2 1 1 error_writes\n",
    "data 6\nlog 40\ndata-layer 0 6 flakey disk 0 1 1 1 drop_writes\n",
    "data 6\nlog 40\ndata-layer 0 6 dust disk 0 512\nlog-layer 0 40 dust disk 0 1024\nlog-layer 0 39 delay disk 0 5\nmessage data 1 addbadblock 2 1\nmessage data 1 enable\nmessage log 1 addbadblock 9 1\nmessage log 1 enable\n",
    "data 6\nlog 12\nlog-layer 0 12 fuse disk 0 30\nlog-layer 0 11 linear disk 0\n",
];

// The requests of a script use only the first `SECTORS` sectors.
const SECTORS: u64 = 6;

// A script has this many lines after its head.
const LINES: u64 = 12;

// Returns a line that submits the request with the id `id`.
fn submission(rt: &impl Abort, alloc: Global, numbers: &mut Numbers, id: u64) -> String {
    let first = numbers.below(SECTORS);
    let options = match numbers.below(6) {
        0 => " fua",
        1 => " flush",
        2 => " flush fua",
        _ => "",
    };
    match numbers.below(6) {
        0 => format!(in alloc; "f {id}\n").expect(rt, "memory"),
        1 => format!(in alloc; "d {id} {first} 1\n").expect(rt, "memory"),
        _ => {
            let byte = numbers.below(8).saturating_add(1);
            format!(in alloc; "w {id} {first} 1 0{byte}{options}\n").expect(rt, "memory")
        }
    }
}

// Returns the next line of a script. It may end one of the requests in `open`.
fn next_line(
    rt: &impl Abort,
    alloc: Global,
    numbers: &mut Numbers,
    open: &mut Vec<u64>,
    id: u64,
) -> String {
    let at = numbers.below(open.len() as u64) as usize;
    match numbers.below(12) {
        0..=4 if at < open.len() => {
            let ended = open.swap_remove(at);
            format!(in alloc; "c {ended}\n").expect(rt, "memory")
        }
        5 => format!(in alloc; "mark m{id}\n").expect(rt, "memory"),
        6 | 7 => format!(in alloc; "turn\n").expect(rt, "memory"),
        8 => format!(in alloc; "at {id}000\n").expect(rt, "memory"),
        _ => {
            open.push(id).expect(rt, "memory");
            submission(rt, alloc, numbers, id)
        }
    }
}

// Returns the lines of a seed's script after its head.
fn lines_of(rt: &impl Abort, alloc: Global, numbers: &mut Numbers) -> Vec<String> {
    let mut open = Vec::new(alloc);
    let mut lines = Vec::new(alloc);
    for id in 0..LINES {
        lines
            .push(next_line(rt, alloc, numbers, &mut open, id))
            .expect(rt, "memory");
    }
    lines
}

// Returns a script that has this head and these lines, and then crashes.
fn crashed(
    rt: &impl Abort,
    alloc: Global,
    numbers: &mut Numbers,
    head: &str,
    lines: &[String],
) -> String {
    let mut text = String::from_str(alloc, head).expect(rt, "memory");
    for line in lines {
        text.push_str(line).expect(rt, "memory");
    }
    push_crash(rt, alloc, numbers, &mut text);
    text
}

// Appends a `crash` line with at most 7 random picks.
fn push_crash(rt: &impl Abort, alloc: Global, numbers: &mut Numbers, text: &mut String) {
    text.push_str("crash").expect(rt, "memory");
    for _ in 0..numbers.below(8) {
        write!(text, " {}", numbers.below(5)).expect(rt, "memory");
    }
    text.push('\n').expect(rt, "memory");
}

// The counts over all scripts.
#[derive(Debug, Drop)]
struct ScriptCounts {
    // How many logs were found after a crash, and how many of their prefixes were judged.
    logs: u64,
    beginnings: u64,
}

// Returns whether `judge` allows the image at one of the moments 0 to `moments`.
fn is_held(
    rt: &(impl Abort + Threads + Wait + Sync),
    alloc: Global,
    moments: u64,
    folder: &mut Folder,
) -> bool {
    for moment in 0..=moments {
        let line = format!(in alloc; "judge script {moment} image").expect(rt, "memory");
        if output_of(rt, alloc, &line, folder)
            .expect(rt, "memory")
            .as_str()
            == "0|yes;|"
        {
            return true;
        }
    }
    false
}

// Returns a folder with the script, and with the file `zeroes`: 6 sectors of zeroes.
fn folder_with_zeroes(rt: &impl Abort, alloc: Global, script: &str) -> Folder {
    let zeroes = vec![in alloc; 0; 3072].expect(rt, "memory");
    let mut folder = folder_of(alloc, script).expect(rt, "memory");
    folder.put(alloc, "zeroes", zeroes).expect(rt, "memory");
    folder
}

// Replays the first `count` entries of the log over zeroes, and checks that the image is allowed.
fn judge_beginning(
    rt: &(impl Abort + Print + Threads + Wait + Sync),
    alloc: Global,
    script: &str,
    count: usize,
    folder: &mut Folder,
) {
    let line = format!(in alloc; "replay log zeroes image entries:{count}").expect(rt, "memory");
    let replayed = output_of(rt, alloc, &line, folder).expect(rt, "memory");
    assert!(rt; holds(rt, replayed.starts_with("0|replayed "), script));
    assert!(rt; holds(rt, is_held(rt, alloc, LINES, folder), script));
}

// Records a script that ends with a crash. Replays and judges each prefix of the log that the crash
// leaves.
fn force(
    rt: &(impl Abort + Print + Threads + Wait + Sync),
    alloc: Global,
    script: &str,
    folder: &mut Folder,
    seen: &mut ScriptCounts,
) {
    let recorded = output_of(rt, alloc, "record script log", folder).expect(rt, "memory");
    let listed = output_of(rt, alloc, "list log", folder).expect(rt, "memory");
    assert!(rt; holds(rt, listed.ends_with(";|"), script));
    seen.logs = seen.logs.saturating_add(1);
    let entries = listed.matches(';').count().saturating_sub(1);
    for count in 0..=entries {
        judge_beginning(rt, alloc, script, count, folder);
        seen.beginnings = seen.beginnings.saturating_add(1);
    }
}

// Crashes the script of a seed after each of its lines, and checks what is left.
fn force_seed(
    rt: &(impl Abort + Print + Threads + Wait + Sync),
    alloc: Global,
    seed: usize,
    seen: &mut ScriptCounts,
) {
    let mut numbers = Numbers::new(seed as u64);
    let head = HEADS.get(seed % HEADS.len()).copied().unwrap_or_default();
    let lines = lines_of(rt, alloc, &mut numbers);
    for count in 0..=lines.len() {
        let begun = lines.get(..count).unwrap_or_default();
        let script = crashed(rt, alloc, &mut numbers, head, begun);
        let mut folder = folder_with_zeroes(rt, alloc, script.as_str());
        force(rt, alloc, script.as_str(), &mut folder, seen);
    }
}

#[test]
fn crashes_leave_beginnings_that_are_judged_possible(rt: HostRuntime) {
    let alloc = rt.alloc();
    let mut seen = ScriptCounts {
        logs: 0,
        beginnings: 0,
    };
    for seed in 1..=24 {
        force_seed(&rt, alloc, seed, &mut seen);
    }
    assert!(rt; seen.logs == 312 && seen.beginnings > 300);
}
