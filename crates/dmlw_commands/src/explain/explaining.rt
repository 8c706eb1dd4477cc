//! What `--explain` adds after a command's report, given the command's result and the names of its
//! files. Each function returns lines that begin with two spaces. The text is empty if not
//! `explains`, if there is nothing to add, or if it can't be written.
ghost use Rattle.std.specs.Prelude.{◌≡◌, [], false};
ghost use Rattle.std.specs.String.{string_bytes};
ghost use Rattle.dmlw_files.specs.Files.{KeepsFiles};

use crate::explain::advice::write_advice;
use crate::explain::files::{
    write_file_of_judging, write_file_of_reading, write_file_of_recording, write_file_of_writing,
};
use crate::explain::logs::{write_log, write_next, write_size};
use crate::explain::refused_line::write_line;
use crate::explain::script_text::{Grammar, has_line, log_room};
use bio::Status;
use dmlw_files::{Files, read_text};
use refusals::{Fault, Refusal, RunError};
use std::alloc::Global;
use std::fmt;
use std::fmt::Write;

/// Returns what `--explain` adds after a recording with the result `done`.
pub fn explain_recording<F: Files>(
    alloc: Global,
    explains: bool,
    done: Result<Status, RunError>,
    script: &str,
    log: &str,
    files: &mut F,
) -> String
    ensures silent { explains ≡ false → string_bytes result ≡ [] }
    ensures kept { KeepsFiles (F.contents files.old) (F.contents files.new) }
    ensures unwritten { F.writes files.new ≡ F.writes files.old }
{
    let mut text = String::new(alloc);
    if !explains {
        return text;
    }
    let names = ScriptNames {
        grammar: Grammar::Recorder,
        script,
        log,
    };
    match write_recording(alloc, fault_of(done), names, files, &mut text) {
        Ok(()) => text,
        Err(_) => String::new(alloc),
    }
}

/// Returns what `--explain` adds after a run of seats.
pub fn explain_running<F: Files>(
    alloc: Global,
    explains: bool,
    done: Result<Status, RunError>,
    script: &str,
    log: &str,
    files: &mut F,
) -> String
    ensures silent { explains ≡ false → string_bytes result ≡ [] }
    ensures kept { KeepsFiles (F.contents files.old) (F.contents files.new) }
    ensures unwritten { F.writes files.new ≡ F.writes files.old }
{
    let mut text = String::new(alloc);
    if !explains {
        return text;
    }
    let names = ScriptNames {
        grammar: Grammar::Seats,
        script,
        log,
    };
    match write_recording(alloc, fault_of(done), names, files, &mut text) {
        Ok(()) => text,
        Err(_) => String::new(alloc),
    }
}

/// Returns what `--explain` adds after a command that only reads a log.
pub fn explain_reading<F: Files>(
    alloc: Global,
    explains: bool,
    done: Result<(), RunError>,
    log: &str,
    files: &mut F,
) -> String
    ensures silent { explains ≡ false → string_bytes result ≡ [] }
    ensures kept { KeepsFiles (F.contents files.old) (F.contents files.new) }
    ensures unwritten { F.writes files.new ≡ F.writes files.old }
{
    let mut text = String::new(alloc);
    if !explains {
        return text;
    }
    match write_reading(alloc, done, log, files, &mut text) {
        Ok(()) => text,
        Err(_) => String::new(alloc),
    }
}

/// Returns what `--explain` adds after a fault of a command that asks about an image.
pub fn explain_judging<F: Files>(
    alloc: Global,
    explains: bool,
    done: Result<(), RunError>,
    script: &str,
    image: &str,
    files: &mut F,
) -> String
    ensures silent { explains ≡ false → string_bytes result ≡ [] }
    ensures kept { KeepsFiles (F.contents files.old) (F.contents files.new) }
    ensures unwritten { F.writes files.new ≡ F.writes files.old }
{
    let mut text = String::new(alloc);
    if !explains {
        return text;
    }
    match write_judging(alloc, done, script, image, files, &mut text) {
        Ok(()) => text,
        Err(_) => String::new(alloc),
    }
}

/// The names of the files of a replay.
#[derive(Clone, Copy, Debug)]
pub struct ReplayNames<'a> {
    /// The log that is replayed.
    pub log: &'a str,
    /// The image on which the log is replayed.
    pub first: &'a str,
    /// The image that is written.
    pub out: &'a str,
}

/// Returns what `--explain` adds after a replay.
pub fn explain_replaying<F: Files>(
    alloc: Global,
    explains: bool,
    done: Result<u64, RunError>,
    names: ReplayNames,
    files: &mut F,
) -> String
    ensures silent { explains ≡ false → string_bytes result ≡ [] }
    ensures kept { KeepsFiles (F.contents files.old) (F.contents files.new) }
    ensures unwritten { F.writes files.new ≡ F.writes files.old }
{
    let mut text = String::new(alloc);
    if !explains {
        return text;
    }
    match write_replaying(alloc, done, names, files, &mut text) {
        Ok(()) => text,
        Err(_) => String::new(alloc),
    }
}

// Writes the explanation of a replay with this result.
fn write_replaying<F: Files, W: Write>(
    alloc: Global,
    done: Result<u64, RunError>,
    names: ReplayNames,
    files: &mut F,
    to: &mut W,
) -> fmt::Result
    ensures kept { KeepsFiles (F.contents files.old) (F.contents files.new) }
    ensures unwritten { F.writes files.new ≡ F.writes files.old }
{
    let ReplayNames { log, first, out } = names;
    let Err(error) = done else {
        return Ok(());
    };
    match error.fault().refusal {
        Refusal::File => write_file_of_writing(alloc, log, first, out, files, to),
        Refusal::PastTarget => {
            let sentence =
                "it reaches past the end of the image, which must be as large as the recorded device";
            write_next(alloc, log, error.applied(), sentence, files, to)?;
            write_size(alloc, first, files, to)
        }
        refusal => write_log(alloc, log, refusal, files, to),
    }
}

/// The names of the files of a copy.
#[derive(Clone, Copy, Debug)]
pub struct CopyNames<'a> {
    /// The log that is copied.
    pub log: &'a str,
    /// The image of the new log, which is written.
    pub out: &'a str,
}

/// Returns what `--explain` adds after a copy.
pub fn explain_copying<F: Files>(
    alloc: Global,
    explains: bool,
    done: Result<u64, RunError>,
    names: CopyNames,
    files: &mut F,
) -> String
    ensures silent { explains ≡ false → string_bytes result ≡ [] }
    ensures kept { KeepsFiles (F.contents files.old) (F.contents files.new) }
    ensures unwritten { F.writes files.new ≡ F.writes files.old }
{
    let mut text = String::new(alloc);
    if !explains {
        return text;
    }
    match write_copying(alloc, done, names, files, &mut text) {
        Ok(()) => text,
        Err(_) => String::new(alloc),
    }
}

// Writes the explanation of a copy with this result.
fn write_copying<F: Files, W: Write>(
    alloc: Global,
    done: Result<u64, RunError>,
    names: CopyNames,
    files: &mut F,
    to: &mut W,
) -> fmt::Result
    ensures kept { KeepsFiles (F.contents files.old) (F.contents files.new) }
    ensures unwritten { F.writes files.new ≡ F.writes files.old }
{
    let CopyNames { log, out } = names;
    let Err(error) = done else {
        return Ok(());
    };
    match error.fault().refusal {
        Refusal::File => write_file_of_writing(alloc, log, log, out, files, to),
        Refusal::Full => {
            let sentence = "it doesn't fit: give the new log more sectors";
            write_next(alloc, log, error.applied(), sentence, files, to)
        }
        Refusal::Unaligned => {
            let sentence =
                "its place or its length isn't a multiple of 4096 bytes, which a log with such sectors needs";
            write_next(alloc, log, error.applied(), sentence, files, to)
        }
        refusal => write_log(alloc, log, refusal, files, to),
    }
}

// The names of the files of a recording or a run, and the kind of its script.
#[derive(Clone, Copy)]
struct ScriptNames<'a> {
    grammar: Grammar,
    script: &'a str,
    log: &'a str,
}

// Writes the explanation of a recording or a run with this fault, or without a fault.
fn write_recording<F: Files, W: Write>(
    alloc: Global,
    fault: Option<Fault>,
    names: ScriptNames,
    files: &mut F,
    to: &mut W,
) -> fmt::Result
    ensures kept { KeepsFiles (F.contents files.old) (F.contents files.new) }
    ensures unwritten { F.writes files.new ≡ F.writes files.old }
{
    let ScriptNames {
        grammar,
        script,
        log,
    } = names;
    let Some(Fault { line, refusal }) = fault else {
        return write_unclosed(alloc, grammar, script, files, to);
    };
    match line {
        Some(number) => write_line_of(alloc, grammar, script, number, refusal, files, to),
        None if refusal == Refusal::File => write_file_of_recording(alloc, script, log, files, to),
        None if refusal == Refusal::Full => write_full(alloc, grammar, script, files, to),
        None => write_advice(script, refusal, to),
    }
}

// Writes that the entries of a script don't fit in its log, and how large the log has to be.
fn write_full<F: Files, W: Write>(
    alloc: Global,
    grammar: Grammar,
    script: &str,
    files: &mut F,
    to: &mut W,
) -> fmt::Result
    ensures kept { KeepsFiles (F.contents files.old) (F.contents files.new) }
    ensures unwritten { F.writes files.new ≡ F.writes files.old }
{
    let text = read_text(alloc, script, files).map_err(|_| fmt::Error)?;
    let sectors = log_room(grammar, &text);
    writeln!(
        to,
        "  {script}: the entries don't fit in the log: one of {sectors} sectors has room for all requests and marks of the script (line `log <sectors>`)"
    )
}

// Writes the faulty line of a script, and advice.
fn write_line_of<F: Files, W: Write>(
    alloc: Global,
    grammar: Grammar,
    script: &str,
    number: u64,
    refusal: Refusal,
    files: &mut F,
    to: &mut W,
) -> fmt::Result
    ensures kept { KeepsFiles (F.contents files.old) (F.contents files.new) }
    ensures unwritten { F.writes files.new ≡ F.writes files.old }
{
    let text = read_text(alloc, script, files).map_err(|_| fmt::Error)?;
    write_line(alloc, grammar, script, &text, number, refusal, to)
}

// Writes the explanation of a command that only reads a log, with this result.
fn write_reading<F: Files, W: Write>(
    alloc: Global,
    done: Result<(), RunError>,
    log: &str,
    files: &mut F,
    to: &mut W,
) -> fmt::Result
    ensures kept { KeepsFiles (F.contents files.old) (F.contents files.new) }
    ensures unwritten { F.writes files.new ≡ F.writes files.old }
{
    let Err(error) = done else {
        return Ok(());
    };
    match error.fault().refusal {
        Refusal::File => write_file_of_reading(alloc, log, files, to),
        refusal => write_log(alloc, log, refusal, files, to),
    }
}

// Writes the explanation of a command that asks about an image, with this result.
fn write_judging<F: Files, W: Write>(
    alloc: Global,
    done: Result<(), RunError>,
    script: &str,
    image: &str,
    files: &mut F,
    to: &mut W,
) -> fmt::Result
    ensures kept { KeepsFiles (F.contents files.old) (F.contents files.new) }
    ensures unwritten { F.writes files.new ≡ F.writes files.old }
{
    let Err(error) = done else {
        return Ok(());
    };
    let Fault { line, refusal } = error.fault();
    match line {
        Some(number) => write_line_of(alloc, Grammar::Recorder, script, number, refusal, files, to),
        None if refusal == Refusal::File => write_file_of_judging(alloc, script, image, files, to),
        None => write_advice(script, refusal, to),
    }
}

// Returns the fault that ended a recording early, if there is one.
fn fault_of(done: Result<Status, RunError>) -> Option<Fault> {
    match done {
        Ok(status) => {
            let end = status.end?;
            Some(Fault::from(Refusal::from(end)))
        }
        Err(error) => Some(error.fault()),
    }
}

// Writes that the script of a recording has no `close`, if it has none.
fn write_unclosed<F: Files, W: Write>(
    alloc: Global,
    grammar: Grammar,
    script: &str,
    files: &mut F,
    to: &mut W,
) -> fmt::Result
    ensures kept { KeepsFiles (F.contents files.old) (F.contents files.new) }
    ensures unwritten { F.writes files.new ≡ F.writes files.old }
{
    if grammar == Grammar::Seats {
        return Ok(());
    }
    let text = read_text(alloc, script, files).map_err(|_| fmt::Error)?;
    if has_line(&text, b"close") {
        return Ok(());
    }
    writeln!(
        to,
        "  {script} has no line `close`: only what its lines `turn` placed is in the log"
    )
}
