// The commands that a transcript may have, and the files in memory, with two names each, that they
// use.
ghost use Rattle.std.specs.Prelude.{None, false};

use crate::bytes::{push_sectors, unescaped};
use crate::calls::{ask_disk, ask_stack};
use crate::images::change;
use dmlw::execute;
use dmlw_commands::Ended;
use dmlw_files::{FileError, FileFailure, Files, Output, Session};
use dmlw_script::{print_run_script, print_script, read_run_script, read_script};
use layer_table::{parse_line, push_line};
use refusals::Refusal;
use sector_disk::{Image, SectorDisk};
use std::alloc::{AllocError, Global};
use std::sync::Wait;
use std::thread::Threads;
use test_devices::{Folder, Outlet};

// A disk may have at most this many sectors.
const MAX_SECTORS: u64 = 1_048_576;

/// The files of `folder`. `./NAME` is another name of the file `NAME`.
#[derive(Drop)]
pub struct Here<'a> {
    /// The files, by the name without `./`.
    pub folder: &'a mut Folder,
}

impl Files for Here<'_> {
    ghost contents = { λ _ _. None };

    ghost writes = { λ _. None };

    ghost has_failure = { λ _. false };

    fn read(&mut self, alloc: Global, name: &str, limit: u64) -> Result<Image, FileError> {
        self.folder.read(alloc, plain(name), limit)
    }

    fn write(&mut self, alloc: Global, name: &str, disk: SectorDisk) -> Result<(), FileError> {
        self.folder.write(alloc, plain(name), disk)
    }

    fn failure(&self) -> Option<&FileFailure> {
        None
    }

    fn is_same(&self, first: &str, second: &str) -> bool {
        first == second || plain(first) == plain(second)
    }
}

// Returns the file's name without a leading `./`.
fn plain(name: &str) -> &str {
    name.strip_prefix("./").unwrap_or(name)
}

/// A folder of files, and the output of the last command. `rt` starts threads and waits for them.
#[derive(Drop)]
pub struct Scene<'a, H> {
    rt: &'a H,
    alloc: Global,
    folder: Folder,
    shown: String,
}

impl<'a, H: Threads + Wait + Sync> Scene<'a, H> {
    /// Returns a scene without files.
    pub fn new(rt: &'a H, alloc: Global) -> Scene<'a, H> {
        Scene {
            rt,
            alloc,
            folder: Folder::new(alloc),
            shown: String::new(alloc),
        }
    }

    /// Returns the output of the last command.
    pub fn shown(&self) -> &str {
        self.shown.as_str()
    }

    /// Runs a command with its input `given`. An unknown command prints that it is unknown.
    pub fn run(&mut self, command: &str, given: &str) -> Result<(), AllocError> {
        self.shown.clear();
        let (verb, rest) = command.split_once(' ').unwrap_or((command, ""));
        match verb {
            "write" => self.put(rest, Vec::from_slice(self.alloc, given.as_bytes())?),
            "escaped" => self.put(rest, unescaped(self.alloc, given)?),
            "more" => self.more(rest, given),
            "image" => self.image(rest),
            "copy" => self.copy(rest),
            "remove" => self.remove(rest),
            "show" => self.show(rest),
            "same" => self.same(rest),
            "print" => self.print(rest),
            "print-run" => self.print_run(rest),
            "table" => self.table(rest),
            "stack" => self.stack(rest, given),
            "disk" => self.disk(rest, given),
            "narrow" => self.narrow(rest, given),
            _ => self.dmlw(verb, command, rest),
        }
    }

    // `write NAME` and `escaped NAME`: makes a file of the input.
    fn put(&mut self, name: &str, bytes: Vec<u8>) -> Result<(), AllocError> {
        self.folder.put(self.alloc, name, bytes)
    }

    // `more NAME COUNT`: appends the input `COUNT` times to the file. Each `%` becomes the
    // repetition's number.
    fn more(&mut self, words: &str, given: &str) -> Result<(), AllocError> {
        let (name, count) = words.split_once(' ').unwrap_or((words, "1"));
        let mut bytes = self.taken(name)?;
        for number in 0..count.parse::<u32>().unwrap_or(0) {
            push_numbered(self.alloc, &mut bytes, given, number)?;
        }
        self.folder.put(self.alloc, name, bytes)
    }

    // `image NAME LENGTH ..`: changes an image, or makes one of zeroes and changes that; `images`
    // explains the words.
    fn image(&mut self, words: &str) -> Result<(), AllocError> {
        let (name, words) = words.split_once(' ').unwrap_or((words, ""));
        let (length, words) = words.split_once(' ').unwrap_or((words, ""));
        let mut bytes = self.taken(name)?;
        change(&mut bytes, length.parse::<usize>().unwrap_or(0), words)?;
        self.folder.put(self.alloc, name, bytes)
    }

    // `copy FROM TO`: copies the file `FROM` to `TO`.
    fn copy(&mut self, words: &str) -> Result<(), AllocError> {
        let (from, to) = words.split_once(' ').unwrap_or((words, words));
        let bytes = self.taken(from)?;
        self.folder.put(self.alloc, to, bytes)
    }

    // `remove NAME`: removes the file.
    fn remove(&mut self, name: &str) -> Result<(), AllocError> {
        self.folder.remove(name);
        Ok(())
    }

    // `show NAME`: prints the sectors of a file that aren't zeroes.
    fn show(&mut self, name: &str) -> Result<(), AllocError> {
        match self.folder.bytes(name) {
            Some(bytes) => push_sectors(&mut self.shown, bytes),
            None => Ok(self.shown.push_str("no such file\n")?),
        }
    }

    // `same ONE OTHER`: prints whether two files have the same content.
    fn same(&mut self, words: &str) -> Result<(), AllocError> {
        let (one, other) = words.split_once(' ').unwrap_or((words, words));
        let is_same = self.folder.bytes(one) == self.folder.bytes(other);
        self.shown
            .push_str(if is_same { "same\n" } else { "different\n" })?;
        Ok(())
    }

    // `print NAME`: prints the canonical text of a script for `record`, or its fault.
    fn print(&mut self, name: &str) -> Result<(), AllocError> {
        let text = self.taken(name)?;
        match read_script(self.alloc, &text) {
            Ok(script) => push_text(&mut self.shown, &print_script(self.alloc, &script)?),
            Err(fault) => writeln!(self.shown, "{fault}"),
        }
    }

    // `print-run NAME`: prints the canonical text of a script for `run`, or its fault.
    fn print_run(&mut self, name: &str) -> Result<(), AllocError> {
        let text = self.taken(name)?;
        match read_run_script(self.alloc, &text) {
            Ok(script) => push_text(&mut self.shown, &print_run_script(self.alloc, &script)?),
            Err(fault) => writeln!(self.shown, "{fault}"),
        }
    }

    // `table LINE`: prints the canonical text of a table line, or its refusal.
    fn table(&mut self, line: &str) -> Result<(), AllocError> {
        match parse_line(line.as_bytes()) {
            Ok(spec) => {
                let mut text = Vec::new(self.alloc);
                push_line(&mut text, &spec)?;
                text.push(b'\n')?;
                push_text(&mut self.shown, &text)
            }
            Err(error) => {
                let refusal = Refusal::from(error);
                writeln!(self.shown, "{refusal}")
            }
        }
    }

    // `stack SECTORS` or `stack NAME`: makes calls of a disk under layers (`ask_stack`). The disk
    // has `SECTORS` sectors of zeroes, or the bytes of the file `NAME`.
    fn stack(&mut self, what: &str, given: &str) -> Result<(), AllocError> {
        match self.disk_of(what) {
            Some(disk) => ask_stack(self.alloc, disk, given, &mut self.shown),
            None => Ok(self.shown.push_str("no such disk\n")?),
        }
    }

    // `disk SECTORS` or `disk NAME`: makes calls of such a disk without layers (`ask_disk`).
    fn disk(&mut self, what: &str, given: &str) -> Result<(), AllocError> {
        match self.disk_of(what) {
            Some(disk) => {
                let mut disk = disk;
                ask_disk(self.alloc, &mut disk, given, &mut self.shown)
            }
            None => Ok(self.shown.push_str("no such disk\n")?),
        }
    }

    // Returns a disk of zeroes, if `what` is a number of sectors, else a disk with the bytes of the
    // file `what`.
    fn disk_of(&self, what: &str) -> Option<SectorDisk> {
        if let Ok(sectors) = what.parse::<u64>() {
            if sectors == 0 || sectors > MAX_SECTORS {
                return None;
            }
            return SectorDisk::new(self.alloc, sectors).ok();
        }
        let bytes = self.folder.bytes(what)?;
        if bytes.is_empty() || bytes.len() % 512 != 0 || bytes.len() as u64 / 512 > MAX_SECTORS {
            return None;
        }
        let bytes = Vec::from_slice(self.alloc, bytes).ok()?;
        SectorDisk::from_bytes(self.alloc, bytes).ok()
    }

    // `dmlw ..` runs a command line of dmlw. `deaf dmlw ..` runs it with a standard error that
    // can't be flushed, and `quiet dmlw ..` prints nothing. `full:5 dmlw ..` and such run it with a
    // standard output that fails (`Outlet::named`).
    fn dmlw(&mut self, verb: &str, command: &str, rest: &str) -> Result<(), AllocError> {
        match verb {
            "dmlw" => self.execute(Outlet::open(self.alloc), Outlet::open(self.alloc), command),
            "deaf" => self.execute(Outlet::open(self.alloc), Outlet::stuck(self.alloc), rest),
            "quiet" => {
                self.execute(Outlet::open(self.alloc), Outlet::open(self.alloc), rest)?;
                self.shown.clear();
                Ok(())
            }
            _ => match Outlet::named(self.alloc, verb) {
                Some(outlet) => self.execute(outlet, Outlet::open(self.alloc), rest),
                None => Ok(self.shown.push_str("no such command\n")?),
            },
        }
    }

    // Runs a command line of dmlw with these outputs, and prints what it wrote and how it ended.
    fn execute(&mut self, out: Outlet, err: Outlet, line: &str) -> Result<(), AllocError> {
        let (mut out, mut err) = (out, err);
        self.execute_on(&mut out, &mut err, line)
    }

    // Runs a command line as `execute` does, but borrows the outputs.
    fn execute_on(
        &mut self,
        out: &mut Outlet,
        err: &mut Outlet,
        line: &str,
    ) -> Result<(), AllocError> {
        let words = words_of(self.alloc, line)?;
        let ended = execute_over(self.rt, self.alloc, &words, &mut self.folder, out, err);
        let is_held = out.is_held() || err.is_held();
        push_told(&mut self.shown, out.taken(), err.taken())?;
        push_ending(
            &mut self.shown,
            ended.exit.status(),
            is_held,
            ended.err_taken,
        )
    }

    // `narrow dmlw ..`: runs a command line once for each proper prefix of its whole output, with a
    // standard output that takes only this many bytes. Each run must print the prefix. Then this
    // prints how many runs there were, and each fault that a run reported, once.
    fn narrow(&mut self, line: &str, whole: &str) -> Result<(), AllocError> {
        let mut seen = String::new(self.alloc);
        for room in 0..whole.len() {
            self.shown.clear();
            let out = Outlet::narrow(self.alloc, room);
            self.execute(out, Outlet::open(self.alloc), line)?;
            let beginning = whole.as_bytes().get(..room).unwrap_or_default();
            let is_beginning = self.shown.as_bytes().starts_with(beginning);
            note_refusal(&mut seen, self.shown.as_str(), is_beginning)?;
        }
        self.shown.clear();
        writeln!(self.shown, "{} outputs", whole.len())?;
        self.shown.push_str(seen.as_str())?;
        Ok(())
    }

    // Returns the content of the file `name`, or nothing if it doesn't exist.
    fn taken(&self, name: &str) -> Result<Vec<u8>, AllocError> {
        Vec::from_slice(self.alloc, self.folder.bytes(name).unwrap_or_default())
    }
}

// Notes the fault that a run with a narrow output reported, unless it is noted already.
fn note_refusal(seen: &mut String, shown: &str, is_beginning: bool) -> Result<(), AllocError> {
    let told = match shown.split_once("! ") {
        Some((_, told)) => told,
        None => shown,
    };
    if !is_beginning {
        seen.push_str("not a beginning\n")?;
    }
    if !seen.contains(told) {
        seen.push_str("! ")?;
        seen.push_str(told)?;
    }
    Ok(())
}

// Runs a command line on a folder and two outputs. `./NAME` is another name of the file `NAME`.
fn execute_over<H: Threads + Wait + Sync>(
    rt: &H,
    alloc: Global,
    words: &[&str],
    folder: &mut Folder,
    out: &mut Outlet,
    err: &mut Outlet,
) -> Ended {
    let mut session = Session {
        alloc,
        explains: false,
        files: Here { folder },
        out: Output::new(out),
        err,
    };
    execute(rt, words, &mut session)
}

// Returns the words of a command line, split at each space.
fn words_of<'a>(alloc: Global, line: &'a str) -> Result<Vec<&'a str>, AllocError> {
    let mut words = Vec::new(alloc);
    for word in line.split(' ') {
        words.push(word)?;
    }
    Ok(words)
}

// Appends lines in which `number` replaces each `%`.
fn push_numbered(
    alloc: Global,
    bytes: &mut Vec<u8>,
    lines: &str,
    number: u32,
) -> Result<(), AllocError> {
    let digits = number.to_string(alloc)?;
    for byte in lines.as_bytes() {
        if *byte == b'%' {
            bytes.extend_from_slice(digits.as_bytes())?;
        } else {
            bytes.push(*byte)?;
        }
    }
    Ok(())
}

// Appends the output of a command, and then each line of its standard error after `! `.
fn push_told(shown: &mut String, out: &[u8], err: &[u8]) -> Result<(), AllocError> {
    push_text(shown, out)?;
    let faults = str::from_utf8(err).unwrap_or("no text\n");
    if faults.is_empty() {
        return Ok(());
    }
    let lines = faults.strip_suffix("\n").unwrap_or(faults);
    for line in lines.split('\n') {
        shown.push_str("! ")?;
        shown.push_str(line)?;
        shown.push('\n')?;
    }
    end_line(shown, faults)
}

// Appends a line if an output wasn't flushed, and a line if a part of the error output was lost.
// Then appends the status, unless it is 0.
fn push_ending(
    shown: &mut String,
    status: u8,
    is_held: bool,
    is_told: bool,
) -> Result<(), AllocError> {
    if is_held {
        shown.push_str("(held back)\n")?;
    }
    if !is_told {
        shown.push_str("(not all told)\n")?;
    }
    if status != 0 {
        writeln!(shown, "[{status}]")?;
    }
    Ok(())
}

// Appends a text, with `\r` for each carriage return. If the text doesn't end with a line feed,
// appends a line that says so.
fn push_text(shown: &mut String, bytes: &[u8]) -> Result<(), AllocError> {
    let text = str::from_utf8(bytes).unwrap_or("no text\n");
    if text.is_empty() {
        return Ok(());
    }
    for letter in text.strip_suffix("\n").unwrap_or(text).chars() {
        match letter {
            '\r' => shown.push_str("\\r")?,
            other => shown.push(other)?,
        }
    }
    shown.push('\n')?;
    end_line(shown, text)
}

// Appends a line that says so if `text` doesn't end with a line feed.
fn end_line(shown: &mut String, text: &str) -> Result<(), AllocError> {
    if !text.ends_with('\n') {
        shown.push_str("(no line feed)\n")?;
    }
    Ok(())
}
