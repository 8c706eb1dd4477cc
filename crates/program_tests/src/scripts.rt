//! Tests of how scripts and table lines are parsed, field by field, and of texts of any length.
use dmlw_script::{print_script, *};
use layer_table::{TableError, parse_line};
use std::alloc::Global;
use std::io::Print;
use std::process::Abort;
use test_devices::{is_told, rows_are_told};

// Parses a text as a script. Returns the script's canonical text, or the fault.
fn answer(rt: &impl Abort, alloc: Global, text: &[u8]) -> String {
    match read_script(alloc, text) {
        Ok(script) => printed(rt, alloc, &script),
        Err(fault) => format!(in alloc; "{fault}").expect(rt, "memory"),
    }
}

// Returns the canonical text of a script.
fn printed(rt: &impl Abort, alloc: Global, script: &Script) -> String {
    match String::from_utf8(print_script(alloc, script).expect(rt, "memory")) {
        Ok(text) => text,
        Err(_) => String::from_str(alloc, "no text").expect(rt, "memory"),
    }
}

// Returns the sizes of the two disks, each name with its length, and the number of commands. The
// last two values are the line numbers of the commands with the indexes 4 and 5.
fn parts_of(rt: &impl Abort, alloc: Global, text: &[u8], script: &Script) -> String {
    let mut names = String::new(alloc);
    for name in script.names() {
        write!(names, " {name}{}", name.letters().len()).expect(rt, "memory");
    }
    format!(in alloc;
        "{} {}{names} {} {:?} {:?}",
        script.data().sectors(),
        script.log().sectors(),
        script.commands().len(),
        line_of(text, script.head_lines().saturating_add(4)),
        line_of(text, script.head_lines().saturating_add(5))
    )
    .expect(rt, "memory")
}

// Checks that a script has no crash, and that `parts_of` returns `wanted`.
fn check_parts(
    rt: &(impl Abort + Print),
    alloc: Global,
    text: &[u8],
    script: &Script,
    wanted: &str,
) {
    assert!(rt; script.crash().is_none());
    let parts = parts_of(rt, alloc, text, script);
    assert!(rt; is_told(rt, parts.as_str(), wanted, "a script's parts"));
}

#[test]
fn first_run(rt: HostRuntime) {
    let alloc = rt.alloc();
    let text = b"# a run\ndata 16\n\nlog 32\nw a 5 1 41\nc a\nf b\nc b\n#\nclose\n";
    let script = read_script(alloc, text).expect(&rt, "a script");
    check_parts(&rt, alloc, text, &script, "16 32 a1 b1 5 Some(10) None")
}

// The picks of a crash are parsed. The crash isn't one of the script's commands.
#[test]
fn crashes_end_scripts(rt: HostRuntime) {
    let alloc = rt.alloc();
    let text = b"data 16\nlog 32\nturn\n#\ncrash 7 0 18446744073709551615\n";
    check_crash(
        &rt,
        &read_script(alloc, text).expect(&rt, "a script"),
        &[7, 0, u64::MAX],
    );
    assert!(rt; line_of(text, 3) == Some(5) && line_of(text, 4).is_none());
}

// Checks that a script has one command, and a crash with the picks `wanted`.
fn check_crash(rt: &impl Abort, script: &Script, wanted: &[u64]) {
    let picks = script.crash().expect(rt, "a crash");
    assert!(rt; picks == wanted && script.commands().len() == 1);
}

// Returns a script with 20,000 flushes, and a crash with 3,000 picks.
fn long_script(rt: &impl Abort, alloc: Global) -> String {
    let mut text = String::from_str(alloc, "data 16\nlog 32\n").expect(rt, "memory");
    for number in 0..20_000 {
        write!(text, "f {number}\nc {number}\n").expect(rt, "memory");
    }
    text.push_str("crash").expect(rt, "memory");
    for number in 0..3_000 {
        write!(text, " {number}").expect(rt, "memory");
    }
    text.push_str("\n").expect(rt, "memory");
    text
}

#[test]
fn long_scripts_are_read(rt: HostRuntime) {
    let text = long_script(&rt, rt.alloc());
    assert!(rt; answer(&rt, rt.alloc(), text.as_bytes()).as_str() == text.as_str());
}

// Returns the total length of the texts of a script's marks.
fn count_marked(script: &Script) -> usize {
    let mut total: usize = 0;
    for command in script.commands() {
        if let Command::Step(Step::Mark { text }) = command {
            total = total.saturating_add(text.len());
        }
    }
    total
}

// Parses a text as a script, and returns the total length of its marks' texts.
fn marked_in(rt: &impl Abort, alloc: Global, text: &[u8]) -> usize {
    let script = read_script(alloc, text).expect(rt, "a script");
    count_marked(&script)
}

// Returns a script with marks of 0 to 70,000 letters.
fn script_of_marks(rt: &impl Abort, alloc: Global) -> String {
    let mut text = String::from_str(alloc, "data 16\nlog 32\n").expect(rt, "memory");
    for length in [0, 1, 479, 480, 600, 70_000] {
        text.push_str("mark ").expect(rt, "memory");
        push_often(rt, &mut text, length);
        text.push_str("\n").expect(rt, "memory");
    }
    text
}

// Appends `count` times the letter x.
fn push_often(rt: &impl Abort, text: &mut String, count: usize) {
    for _ in 0..count {
        text.push_str("x").expect(rt, "memory");
    }
}

// A mark of any length is parsed with its whole text, and printed again unchanged.
#[test]
fn marks_keep_their_texts(rt: HostRuntime) {
    let alloc = rt.alloc();
    let text = script_of_marks(&rt, alloc);
    assert!(rt; marked_in(&rt, alloc, text.as_bytes()) == 71_560);
    assert!(rt; answer(&rt, alloc, text.as_bytes()).as_str() == text.as_str());
}

// Returns for each message of a script: its device, its layer, and the length of its text.
fn messages_of(rt: &impl Abort, alloc: Global, script: &Script) -> String {
    let mut shown = String::new(alloc);
    for command in script.commands() {
        if let Command::Step(Step::Message { over, layer, text }) = command {
            write!(shown, " {over:?} {layer} {}", text.len()).expect(rt, "memory");
        }
    }
    shown
}

// Parses a text as a script, and returns what `messages_of` returns.
fn messages_read(rt: &impl Abort, alloc: Global, text: &[u8]) -> String {
    messages_of(rt, alloc, &read_script(alloc, text).expect(rt, "a script"))
}

// Returns a script with a short message and a message of 70,000 letters.
fn script_of_messages(rt: &impl Abort, alloc: Global) -> String {
    let begun = "data 16\nlog 32\nmessage log 4  up \nmessage data 0 ";
    let mut text = String::from_str(alloc, begun).expect(rt, "memory");
    push_often(rt, &mut text, 70_000);
    text
}

// A message is parsed with its device, its layer and its whole text.
#[test]
fn messages_keep_their_words(rt: HostRuntime) {
    let text = script_of_messages(&rt, rt.alloc());
    let shown = messages_read(&rt, rt.alloc(), text.as_bytes());
    assert!(rt; is_told(&rt, shown.as_str(), " Log 4 4 Data 0 70000", "messages"));
}

// Returns five numbers of a script. They are the lines of its head, the data disk's sectors, and
// the sectors of the data disk's topmost layer. Then come the number of the data disk's layers, and
// the sectors of the log's topmost layer.
fn disks_of(rt: &impl Abort, alloc: Global, script: &Script) -> String {
    let (data, log) = (script.data(), script.log());
    format!(in alloc;
        "{} {} {} {} {}",
        script.head_lines(),
        data.sectors(),
        data.top_sectors(),
        data.layers().len(),
        log.top_sectors()
    )
    .expect(rt, "memory")
}

// Parses a text as a script, and returns what `disks_of` returns.
fn disks_read(rt: &impl Abort, alloc: Global, text: &[u8]) -> String {
    disks_of(rt, alloc, &read_script(alloc, text).expect(rt, "a script"))
}

// Each disk of a script may have a layer.
#[test]
fn disks_have_layers(rt: HostRuntime) {
    let text = b"data 16\nlog 32\n\ndata-layer 0 8 linear disk 4\nlog-layer 0 9 error\nat 7\nf a\n";
    let shown = disks_read(&rt, rt.alloc(), text);
    assert!(rt; is_told(&rt, shown.as_str(), "4 16 8 1 9", "disks"));
    assert!(rt; line_of(text, 4) == Some(6));
}

// Rows `table line=the value that it is parsed as`. The value's target has its own fields.
const VALUES: &str = "0 16 linear a 8=LayerSpec { length: 16, offset: 8, target: Linear }
0 7 error=LayerSpec { length: 7, offset: 0, target: Error }
0 9 fuse b 2 3=LayerSpec { length: 9, offset: 2, target: Fuse { calls: 3 } }
0 9 flakey b 2 10 5 1 drop_writes=LayerSpec { length: 9, offset: 2, target: Flakey { up: 10, down: 5, feature: DropWrites } }
0 9 dust b 2 1024=LayerSpec { length: 9, offset: 2, target: Dust { block_bytes: 1024 } }
0 9 delay b 2 10 b 2 20 b 2 30=LayerSpec { length: 9, offset: 2, target: Delay { read: 10, write: 20, flush: 30 } }";

// Parses a table line, and returns its value as text.
fn value_of(rt: &impl Abort, alloc: Global, line: &str) -> String {
    let spec = parse_line(line.as_bytes()).expect(rt, "a table line");
    format!(in alloc; "{spec:?}").expect(rt, "memory")
}

#[test]
fn values(rt: HostRuntime) {
    let alloc = rt.alloc();
    assert!(rt; rows_are_told(&rt, VALUES, |line| value_of(&rt, alloc, line)));
}

// The text of each error.
const ERRORS: &str =
    "no target of this name\ntoo many words, or too few\na word that is no number\na value out of its range\nno such feature";

// Each error has its own text.
#[test]
fn errors_are_shown(rt: HostRuntime) {
    let shown = format!(in rt.alloc();
        "{}\n{}\n{}\n{}\n{}",
        TableError::UnknownTarget,
        TableError::WrongCount,
        TableError::BadNumber,
        TableError::OutOfRange,
        TableError::BadFeature
    )
    .expect(&rt, "memory");
    assert!(rt; is_told(&rt, shown.as_str(), ERRORS, "errors"));
}
