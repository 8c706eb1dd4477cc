//! Tests of logs on a disk under layers that fail calls.
use crate::commands::{folder_of, output_of};
use dmlw_files::Files;
use std::alloc::Global;
use std::io::Print;
use std::process::Abort;
use std::sync::Wait;
use std::thread::Threads;
use test_devices::holds;

// How `list` prints all entries of the script in `layered`, if no layer fails a call.
const WHOLE: &str = "0 @1 write 5+1;1 @3 flush;2 @4 mark dm-log-writes-end;";

// The table lines of the layers that are combined.
const LOWER: [&str; 4] = [
    "0 32 linear disk 0",
    "0 32 error",
    "0 32 flakey disk 0 0 5 1 error_reads",
    "0 32 fuse disk 0 7",
];

// Returns a script whose log has three layers: the two layers `first` and `second`, and a fuse of
// `calls` calls over both.
fn layered(rt: &impl Abort, alloc: Global, first: &str, second: &str, calls: u64) -> String {
    format!(in alloc;
        "data 16\nlog 32\nlog-layer {first}\nlog-layer {second}\nlog-layer 0 32 fuse disk 0 {calls}\nw a 5 1 41\nc a\nf b\nc b\nclose\n"
    ).expect(rt, "memory")
}

// Returns whether a listing has a first line, and after it a prefix of `WHOLE`.
fn is_beginning(listed: &str) -> bool {
    match listed.split_once(';') {
        Some((_super, entries)) => WHOLE.starts_with(entries),
        None => false,
    }
}

// Checks that the log under these two layers and a fuse of `calls` calls lists a prefix of `WHOLE`.
fn check_layers(
    rt: &(impl Abort + Print + Threads + Wait + Sync),
    alloc: Global,
    first: &str,
    second: &str,
    calls: u64,
) {
    let script = layered(rt, alloc, first, second, calls);
    let listed = listed_of(rt, alloc, script.as_str());
    assert!(rt; holds(rt, is_beginning(listed.as_str()), script.as_str()));
}

// Any two layers lie under a fuse of 0 to 6 calls. If the log could be made, its entries are a
// prefix of `WHOLE`.
#[test]
fn layers_leave_beginnings(rt: HostRuntime) {
    let alloc = rt.alloc();
    for first in LOWER {
        for second in LOWER {
            for calls in 0..7 {
                check_layers(&rt, alloc, first, second, calls);
            }
        }
    }
}

// Records a script, and returns the listing of its log. If the log's device refused the log,
// returns a listing of all entries.
fn listed_of(rt: &(impl Abort + Threads + Wait + Sync), alloc: Global, script: &str) -> String {
    list_after(
        rt,
        alloc,
        &mut folder_of(alloc, script).expect(rt, "memory"),
    )
}

// Records the file `script` among `files`, and lists its log, as `listed_of` does.
fn list_after<F: Files>(
    rt: &(impl Abort + Threads + Wait + Sync),
    alloc: Global,
    files: &mut F,
) -> String {
    let told = output_of(rt, alloc, "record script log", files).expect(rt, "memory");
    if told.as_str().ends_with("dmlw: 19 Device;") {
        return format!(in alloc; "none;{WHOLE}").expect(rt, "memory");
    }
    let told = output_of(rt, alloc, "list log", files).expect(rt, "memory");
    let listed = told.as_str().strip_prefix("0|").unwrap_or("");
    String::from_str(alloc, listed.trim_end_matches('|')).expect(rt, "memory")
}
