//! Tests of `execute` and `refuse` that a transcript can't show.
use dmlw::{execute, refuse};
use dmlw_files::{Files, HostFiles, Session};
use std::alloc::{AllocError, Global};
use std::io;
use std::io::{Print, Write};
use std::process::Abort;
use std::sync::Wait;
use std::test::Fail;
use std::thread::Threads;
use test_devices::{Folder, OneFile, holds, is_told};

// A script of a write, a flush and a close.
const FIRST: &str = "data 16\nlog 32\nw a 5 1 41\nc a\nf b\nc b\nclose\n";

/// Runs a command line, without the program's name, on these files. Returns `status|output|errors`,
/// with `;` for each line feed.
pub fn output_of<F: Files>(
    rt: &(impl Threads + Wait + Sync),
    alloc: Global,
    line: &str,
    files: &mut F,
) -> Result<String, AllocError> {
    let words = words_of(alloc, line)?;
    let mut session = Session {
        alloc,
        explains: false,
        files,
        out: Vec::new(alloc),
        err: Vec::new(alloc),
    };
    let ended = execute(rt, &words, &mut session);
    told(alloc, ended.exit.status(), &session.out, &session.err)
}

// Returns the program's name, and the words of a command line after it.
fn words_of<'a>(alloc: Global, line: &'a str) -> Result<Vec<&'a str>, AllocError> {
    let mut words = vec![in alloc; "dmlw"]?;
    for word in line.split(' ') {
        words.push(word)?;
    }
    Ok(words)
}

// Returns `status|output|errors`, with `;` for each line feed.
fn told(alloc: Global, status: u8, out: &[u8], err: &[u8]) -> Result<String, AllocError> {
    let out = str::from_utf8(out).unwrap_or_default();
    let err = str::from_utf8(err).unwrap_or_default();
    let told = format!(in alloc; "{status}|{out}|{err}")?;
    with_semicolons(alloc, told.as_str())
}

/// Returns a text with `;` for each line feed.
pub fn with_semicolons(alloc: Global, text: &str) -> Result<String, AllocError> {
    let mut shown = String::new(alloc);
    for letter in text.chars() {
        shown.push(if letter == '\n' { ';' } else { letter })?;
    }
    Ok(shown)
}

pub fn folder_of(alloc: Global, script: &str) -> Result<Folder, AllocError> {
    let mut folder = Folder::new(alloc);
    let script = Vec::from_slice(alloc, script.as_bytes())?;
    folder.put(alloc, "script", script)?;
    Ok(folder)
}

// Rows `command line=its output` for the script `FIRST`; `;` is a line feed.
const OUTPUTS: &str = "record script log=a ok;b ok;3 4;
list log=super version 1 entries 3 sectorsize 512;0 @1 write 5+1;1 @3 flush;2 @4 mark dm-log-writes-end;
status log=3 4;";

// Checks that the command line prints the output `wanted`, and ends with 0. The command may also
// fail. Then its error output is empty, or reports a lack of memory or an unusable file.
fn check_output<F: Files>(
    rt: &(impl Abort + Print + Threads + Wait + Sync),
    alloc: Global,
    files: &mut F,
    line: &str,
    wanted: &str,
) -> Result<(), AllocError> {
    let told = output_of(rt, alloc, line, files)?;
    let (status, told) = told.as_str().split_once('|').unwrap_or_default();
    let (out, err) = told.split_once('|').unwrap_or_default();
    let is_whole = status == "0" && out == wanted && err.is_empty();
    let is_told = matches!(
        err,
        "" | "dmlw: 2 Memory;" | "dmlw: 20 Memory;" | "dmlw: 32 File;"
    );
    assert!(rt; holds(rt, is_whole || status != "0" && is_told, line));
    Ok(())
}

// Runs each row of `OUTPUTS`, and checks it as `check_output` does.
fn check_outputs<F: Files>(
    rt: &(impl Abort + Print + Threads + Wait + Sync),
    alloc: Global,
    files: &mut F,
) -> Result<(), AllocError> {
    for row in OUTPUTS.split('\n') {
        let (line, wanted) = row.split_once('=').unwrap_or_default();
        check_output(rt, alloc, files, line, wanted)?;
    }
    Ok(())
}

// Even if an allocation fails (`rt try --test --fail-alloc N`), each row passes: the command then
// fails, and reports no other fault.
#[test]
fn reports_lack_of_memory(rt: HostRuntime) -> Result<(), Fail> {
    let mut folder = folder_of(rt.alloc(), FIRST)?;
    check_outputs(&rt, rt.alloc(), &mut folder)?;
    Ok(())
}

// Records the folder's script, and returns the log's bytes.
fn log_of(
    rt: &(impl Abort + Threads + Wait + Sync),
    alloc: Global,
    folder: &mut Folder,
) -> Vec<u8> {
    let _ = output_of(rt, alloc, "record script log", folder).expect(rt, "memory");
    Vec::from_slice(alloc, folder.bytes("log").unwrap_or_default()).expect(rt, "memory")
}

// Checks a command's exit status, given as `0|` or `1|`.
fn check_status<F: Files>(
    rt: &(impl Abort + Print + Threads + Wait + Sync),
    alloc: Global,
    files: &mut F,
    line: &str,
    status: &str,
) {
    let told = output_of(rt, alloc, line, files).expect(rt, "memory");
    assert!(rt; holds(rt, told.as_str().starts_with(status), line));
}

// Checks the exit status of a command, as `check_status` does, if its image seems to have `length`
// bytes.
fn check_length(
    rt: &(impl Abort + Print + Threads + Wait + Sync),
    alloc: Global,
    image: &[u8],
    length: u64,
    line: &str,
    status: &str,
) {
    let mut files = OneFile::new(image);
    files.length = length;
    check_status(rt, alloc, &mut files, line, status)
}

// An image may have 2^29 bytes, but not one more.
#[test]
fn refuses_a_longer_image(rt: HostRuntime) {
    let alloc = rt.alloc();
    let image = log_of(
        &rt,
        alloc,
        &mut folder_of(alloc, FIRST).expect(&rt, "memory"),
    );
    for line in ["list image", "status image"] {
        check_length(&rt, alloc, &image, 536_870_912, line, "0|");
        check_length(&rt, alloc, &image, 536_870_913, line, "1|");
    }
}

// A writer that counts its writes.
#[derive(Drop)]
struct CountedWrites {
    writes: usize,
}

impl Write for CountedWrites {
    fn write(&mut self, buf: &[u8]) -> io::Result<usize> {
        self.writes = self.writes.saturating_add(1);
        Ok(buf.len())
    }

    fn flush(&mut self) -> io::Result<()> {
        Ok(())
    }
}

#[test]
fn tells_a_fault_in_one_write(rt: HostRuntime) {
    let mut session = Session {
        alloc: rt.alloc(),
        explains: false,
        files: OneFile::new(b"data 16\nlog 32\nno\n".as_slice()),
        out: Vec::new(rt.alloc()),
        err: CountedWrites { writes: 0 },
    };
    let words = ["dmlw", "record", "script", "log"];
    let ended = execute(&rt, &words, &mut session);
    assert!(rt; ended.exit.status() == 1 && session.err.writes == 1);
}

// Texts that the page of `dmlw help formats` must contain, one in each line.
const ROWS: &str = "    0  Done.
    1  Refused: standard error has the fault.
    2  The command line isn't one of the program's.
    3  Logging ended early: the log is full,
    w <id> <first> <count> <byte> [flush] [fua] [meta]
    a request                 1 to 2,048 sectors
    a disk, a layer, FIRST    1 to 1,048,576 sectors
     2 Memory
     3 PastEnd
     4 TooLong
     5 NotWhole
    13 BadMagic
    14 BadVersion
    15 BadSectorSize
    24 Busy
    25 NoSuchMark
    26 NoFlush
    30 BadLine
    32 File
    33 PastEntries
    34 BadMoment";

// Returns a session with an empty file.
fn session_of_nothing(alloc: Global) -> Session<OneFile<'static>, Vec<u8>, Vec<u8>> {
    Session {
        alloc,
        explains: false,
        files: OneFile::new(b"".as_slice()),
        out: Vec::new(alloc),
        err: Vec::new(alloc),
    }
}

// `dmlw help formats` prints the page. This checks some texts of it; `bench/outside.py` compares
// all of it with docs/FORMATS.md.
#[test]
fn prints_the_formats(rt: HostRuntime) {
    let mut session = session_of_nothing(rt.alloc());
    let words = ["dmlw", "help", "formats"];
    let ended = execute(&rt, &words, &mut session);
    assert!(rt; ended.exit.status() == 0 && session.err.is_empty());
    let page = str::from_utf8(&session.out).unwrap_or_default();
    assert!(rt; page.starts_with("# Formats\n"));
    check_page(&rt, page);
}

// Checks that the page contains each text of `ROWS`.
fn check_page(rt: &(impl Abort + Print), page: &str) {
    for row in ROWS.split('\n') {
        assert!(rt; holds(rt, page.contains(row), row));
    }
}

// If the command line has no words, the help goes to standard error, and the status is 2.
#[test]
fn shows_help_where_no_word_is_given(rt: HostRuntime) {
    let mut session = session_of_nothing(rt.alloc());
    let words: [&str; 0] = [];
    let ended = execute(&rt, words.as_slice(), &mut session);
    assert!(rt; ended.exit.status() == 2 && session.out.is_empty() && !session.err.is_empty());
}

// Returns the exit status for command line words that can't be read because of `kind`.
fn refused(alloc: Global, kind: io::ErrorKind, err: &mut Vec<u8>) -> u8 {
    refuse(alloc, io::Error::from(kind), err)
}

#[test]
fn refuses_unreadable_words(rt: HostRuntime) {
    let mut err = Vec::new(rt.alloc());
    assert!(rt; refused(rt.alloc(), io::ErrorKind::InvalidData, &mut err) == 2);
    assert!(rt; refused(rt.alloc(), io::ErrorKind::OutOfMemory, &mut err) == 1);
    assert!(rt; refused(rt.alloc(), io::ErrorKind::Other, &mut err) == 1);
    let shown =
        "error: a word of the command line isn't UTF-8 text\ndmlw: 2 Memory\ndmlw: 32 File\n";
    assert!(rt; err.as_slice() == shown.as_bytes());
}

// Checks what `--explain` prints if a file doesn't exist, and if a log would replace its script.
fn check_reasons<F: Files>(
    rt: &(impl Abort + Print + Threads + Wait + Sync),
    alloc: Global,
    files: &mut F,
) {
    let told = output_of(rt, alloc, "--explain list no-such-folder/log", files);
    let told = told.expect(rt, "memory");
    let wanted =
        "1||dmlw: 32 File;  no-such-folder/log can't be read: No such file or directory (os error 2);";
    assert!(rt; is_told(rt, told.as_str(), wanted, "a file that isn't there"));
    let told = output_of(rt, alloc, "--explain record same same", files);
    let told = told.expect(rt, "memory");
    let is_begun = told.as_str().starts_with("1||dmlw: 32 File;");
    let ending = "the log would be written over its script;";
    assert!(rt;
        holds(
            rt,
            is_begun && told.as_str().ends_with(ending),
            told.as_str()
        )
    );
}

// `--explain` prints the system's reasons.
#[test]
fn explains_files(rt: HostRuntime) {
    let mut files = HostFiles::new(&rt, rt.alloc());
    check_reasons(&rt, rt.alloc(), &mut files)
}
