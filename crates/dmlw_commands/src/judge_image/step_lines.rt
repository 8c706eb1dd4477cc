//! What `--explain` adds for `judge` and `path`. After a run it adds each step with the script's
//! line for the step. After a no, it adds the line of the event that rules the sector out.
//!
//! Which line a step gets:
//! - a submission or a landing: the line that submits the request;
//! - an end: the line that ends the request;
//! - a destage: the line of the request that landed last;
//! - power: the line of the last submission or end before it.
ghost use Rattle.std.specs.Prelude.{◌≡◌, [], false};
ghost use Rattle.std.specs.String.{string_bytes};
ghost use Rattle.dmlw_files.specs.Files.{KeepsFiles};

use crate::explain::is_event;
use bio::Id;
use dmlw_files::{Files, read_text};
use std::alloc::{AllocError, Global};
use std::fmt;
use std::fmt::Write;
use world::Step;

// A line of a script that is an event of its run (`is_event`).
#[derive(Clone, Copy)]
struct EventLine<'a> {
    // The line's number, counted from 1.
    number: u64,
    text: &'a [u8],
}

// How far the steps of a run were matched to lines.
#[derive(Drop)]
struct MatchedSteps {
    // The index after the last submission or end.
    next: usize,
    // The index of the request that landed last.
    landed: usize,
}

// Returns the steps of a run, each with its line of the script in the file `script`: lines that
// begin with two spaces. Empty if not `explains`, if the script can't be read, or if memory ran
// out.
pub(crate) fn explain_run<F: Files>(
    alloc: Global,
    explains: bool,
    run: &[Step],
    script: &str,
    files: &mut F,
) -> String
    ensures silent { explains ≡ false → string_bytes result ≡ [] }
    ensures kept { KeepsFiles (F.contents files.old) (F.contents files.new) }
    ensures unwritten { F.writes files.new ≡ F.writes files.old }
{
    let mut text = String::new(alloc);
    if !explains {
        return text;
    }
    match write_run(alloc, run, script, files, &mut text) {
        Ok(()) => text,
        Err(_) => String::new(alloc),
    }
}

/// Returns which line of the script in the file `script` an event is: a line that begins with two
/// spaces. Empty if not `explains`, if the event has no line, if the script can't be read, or if
/// memory ran out.
pub(crate) fn explain_event<F: Files>(
    alloc: Global,
    explains: bool,
    event: Id,
    script: &str,
    files: &mut F,
) -> String
    ensures silent { explains ≡ false → string_bytes result ≡ [] }
    ensures kept { KeepsFiles (F.contents files.old) (F.contents files.new) }
    ensures unwritten { F.writes files.new ≡ F.writes files.old }
{
    let mut text = String::new(alloc);
    if !explains {
        return text;
    }
    match write_event(alloc, event, script, files, &mut text) {
        Ok(()) => text,
        Err(_) => String::new(alloc),
    }
}

fn write_event<F: Files, W: Write>(
    alloc: Global,
    event: Id,
    script: &str,
    files: &mut F,
    to: &mut W,
) -> fmt::Result
    ensures kept { KeepsFiles (F.contents files.old) (F.contents files.new) }
    ensures unwritten { F.writes files.new ≡ F.writes files.old }
{
    let text = read_text(alloc, script, files).map_err(|_| fmt::Error)?;
    let lines = event_lines(alloc, &text).map_err(|_| fmt::Error)?;
    let place = event.place();
    match lines.get(place as usize) {
        Some(EventLine { number, text }) => {
            let text = str::from_utf8(text).unwrap_or_default();
            writeln!(to, "  event {place} is line {number} of {script}: {text}")
        }
        None => Ok(()),
    }
}

fn write_run<F: Files, W: Write>(
    alloc: Global,
    run: &[Step],
    script: &str,
    files: &mut F,
    to: &mut W,
) -> fmt::Result
    ensures kept { KeepsFiles (F.contents files.old) (F.contents files.new) }
    ensures unwritten { F.writes files.new ≡ F.writes files.old }
{
    let text = read_text(alloc, script, files).map_err(|_| fmt::Error)?;
    let lines = event_lines(alloc, &text).map_err(|_| fmt::Error)?;
    writeln!(to, "  the steps and their lines of {script}:")?;
    write_steps(&lines, run, to)
}

// Returns the lines of a script's text that are events of its run, in order.
fn event_lines(alloc: Global, text: &[u8]) -> Result<Vec<EventLine<'_>>, AllocError> {
    let mut lines = Vec::new(alloc);
    let mut number: u64 = 0;
    for line in text.split(is_line_feed) {
        number = number.saturating_add(1);
        if is_event(line) {
            lines.push(EventLine { number, text: line })?;
        }
    }
    Ok(lines)
}

// Returns whether a byte ends a line.
fn is_line_feed(byte: &u8) -> bool {
    *byte == b'\n'
}

fn write_steps<W: Write>(lines: &[EventLine], run: &[Step], to: &mut W) -> fmt::Result {
    let mut told = MatchedSteps { next: 0, landed: 0 };
    for step in run {
        match told.place_of(lines, *step) {
            Some(place) => write_step(*step, lines.get(place), to)?,
            None => write_step(*step, None, to)?,
        }
    }
    Ok(())
}

// Writes a step with its line, or only the step if it has no line. Power has no line if it fails
// before the first submission or end.
fn write_step<W: Write>(step: Step, line: Option<&EventLine>, to: &mut W) -> fmt::Result {
    let Some(EventLine { number, text }) = line else {
        return writeln!(to, "    {step}");
    };
    let text = str::from_utf8(text).unwrap_or_default();
    match step {
        Step::Power => writeln!(to, "    {step}: after line {number}: {text}"),
        _ => writeln!(to, "    {step}: line {number}: {text}"),
    }
}

impl MatchedSteps {
    // Returns the index of the event that a step belongs to, after the steps before it. None if
    // power fails before the first submission or end.
    fn place_of(&mut self, lines: &[EventLine], step: Step) -> Option<usize> {
        match step {
            Step::Submit(id) => Some(self.pass(id.place() as usize)),
            Step::End(_, _) => Some(self.pass(end_from(lines, self.next))),
            Step::Land(id, _) => {
                self.landed = id.place() as usize;
                Some(self.landed)
            }
            Step::Destage(_) => Some(self.landed),
            Step::Power => self.next.checked_sub(1),
        }
    }

    // Goes past the event with this index, and returns the index.
    fn pass(&mut self, place: usize) -> usize {
        self.next = place.saturating_add(1);
        place
    }
}

// Returns the index of the first event at or after `from` that ends a request.
fn end_from(lines: &[EventLine], from: usize) -> usize {
    for place in from..lines.len() {
        if lines[place].text.starts_with(b"c ".as_slice()) {
            return place;
        }
    }
    lines.len()
}
