//! Explains the line of a script at which a command was refused, from the lines before it.
use crate::explain::advice::advice;
use crate::explain::counted::{Counted, counted_sectors};
use crate::explain::layers::{write_bad_value, write_unknown_target, write_wrong_count};
use crate::explain::line::{EscapedBytes, explain_line, write_forms};
use crate::explain::messages::write_message;
use crate::explain::script_text::{
    Grammar, Numbered, count_of, end_of, first_open, line_at, line_of, number_at, open_requests,
    submission_of, submitted_by, word_at,
};
use bio::MAX_REQUEST_SECTORS;
use refusals::{Refusal, number_of};
use std::alloc::Global;
use std::fmt;
use std::fmt::Write;

/// Writes line `number` of a script, at which a command was refused, why it was refused, and
/// advice.
pub(crate) fn write_line<W: Write>(
    alloc: Global,
    grammar: Grammar,
    script: &str,
    text: &[u8],
    number: u64,
    refusal: Refusal,
    to: &mut W,
) -> fmt::Result {
    // An empty line is faulty only if the script ends there.
    let Some(line) = line_at(text, number).filter(|line| !line.is_empty()) else {
        return write_too_short(grammar, script, text, number, to);
    };
    let shown = EscapedBytes(line);
    writeln!(to, "  line {number} of {script}: {shown}")?;
    let line = Numbered { number, text: line };
    match refusal {
        Refusal::BadLine => explain_line(grammar, text, line, to),
        Refusal::BadId => write_id(text, line, to),
        Refusal::PastEnd => write_past_end(grammar, text, line, to),
        Refusal::TooLong => write_too_long(grammar, line, to),
        Refusal::Busy => write_busy(alloc, text, line, to),
        Refusal::UnknownTarget => write_unknown_target(line.text, to),
        Refusal::WrongCount => write_wrong_count(line.text, to),
        Refusal::BadNumber => write_bad_value(line.text, to),
        Refusal::OutOfRange => write_out_of_range(text, line, to),
        Refusal::BadMessage | Refusal::AlreadyBad | Refusal::NotBad => {
            write_message(text, line, refusal, to)
        }
        _ => write_sentence(refusal, to),
    }
}

// Returns the lines with which a script begins, and how many they are.
fn head_of(grammar: Grammar) -> (&'static str, usize) {
    match grammar {
        Grammar::Recorder => ("`data` and `log`", 2),
        Grammar::Seats => ("`data`, `log` and `seats`", 3),
    }
}

// Writes the advice about a refusal, if there is any.
fn write_sentence<W: Write>(refusal: Refusal, to: &mut W) -> fmt::Result {
    match advice(refusal) {
        "" => Ok(()),
        advice => writeln!(to, "  {advice}"),
    }
}

// Writes that a script ends before its head is complete.
fn write_too_short<W: Write>(
    grammar: Grammar,
    script: &str,
    text: &[u8],
    number: u64,
    to: &mut W,
) -> fmt::Result {
    let (head, lines) = head_of(grammar);
    if text.is_empty() {
        write!(to, "  {script} is empty")?;
    } else {
        write!(to, "  {script} ends before its line {number}")?;
    }
    writeln!(to, "; a script begins with the lines {head}:")?;
    write_forms(grammar, lines, to)
}

// Writes why an id can't be submitted or ended: an earlier line did it, or no line submitted the
// id.
fn write_id<W: Write>(text: &[u8], line: Numbered, to: &mut W) -> fmt::Result {
    let id = word_at(line.text, 1).unwrap_or_default();
    let shown = EscapedBytes(id);
    if submitted_by(line.text).is_some() {
        return match submission_of(text, line.number, id) {
            Some(Numbered { number, .. }) => writeln!(
                to,
                "  `{shown}` is submitted in line {number} already: an id is submitted once in a script"
            ),
            None => write_sentence(Refusal::BadId, to),
        };
    }
    match (
        submission_of(text, line.number, id),
        end_of(text, line.number, id),
    ) {
        (None, _) => writeln!(to, "  no line before this one submits `{shown}`"),
        (Some(_), Some(Numbered { number, .. })) => {
            writeln!(to, "  `{shown}` isn't open: line {number} already ended it")
        }
        _ => write_sentence(Refusal::BadId, to),
    }
}

// Returns the first sector and the sector count of a line's request, if the line has them.
fn range_of(grammar: Grammar, line: &[u8]) -> Option<(u64, u64)> {
    // In a line `r <first> <count>` they are words 1 and 2, in other lines words 2 and 3.
    let place = match grammar {
        Grammar::Recorder if word_at(line, 0) == Some(b"r".as_slice()) => 1,
        _ => 2,
    };
    let first = number_at(line, place)?;
    let count = number_at(line, place + 1)?;
    Some((first, count))
}

// Returns a disk's sector count as seen from the top of its layers. This is the count of the disk's
// last layer before line `before`, or of the disk if it has no layer there.
fn sectors_of(text: &[u8], before: u64, disk: &[u8], layer: &[u8]) -> Option<u64> {
    match line_of(text, before, layer) {
        Some(Numbered { text: line, .. }) => number_at(line, 2),
        None => number_at(line_of(text, before, disk)?.text, 1),
    }
}

// Writes where a request ends, and where the data disk ends.
fn write_past_end<W: Write>(
    grammar: Grammar,
    text: &[u8],
    line: Numbered,
    to: &mut W,
) -> fmt::Result {
    let disk = sectors_of(text, line.number, b"data", b"data-layer");
    match (range_of(grammar, line.text), disk) {
        (Some((first, count)), Some(disk)) => {
            let size = counted_sectors(disk);
            let layers = match count_of(text, line.number, b"data-layer") {
                0 => "",
                _ => ", seen from the top of its layers",
            };
            writeln!(
                to,
                "  the request {first}+{count} reaches past the data disk, which has {size}, counted from 0{layers}"
            )
        }
        _ => write_sentence(Refusal::PastEnd, to),
    }
}

// Writes a request's sector count, and the most that it may have.
fn write_too_long<W: Write>(grammar: Grammar, line: Numbered, to: &mut W) -> fmt::Result {
    match range_of(grammar, line.text) {
        Some((_, count)) => writeln!(
            to,
            "  the request has {count} sectors; the maximum is {MAX_REQUEST_SECTORS}"
        ),
        None => write_sentence(Refusal::TooLong, to),
    }
}

// Writes how many requests are still open at a close, and the id of the first of them.
fn write_busy<W: Write>(alloc: Global, text: &[u8], line: Numbered, to: &mut W) -> fmt::Result {
    let count = open_requests(text, line.number);
    let open = Counted {
        count,
        one: "request is",
        many: "requests are",
    };
    write!(to, "  {open} still open here")?;
    if let Some(id) = first_open(alloc, text, line.number) {
        let id = EscapedBytes(id);
        let which = if count == 1 { "" } else { " the first of them" };
        write!(to, ",{which} `{id}`")?;
    }
    writeln!(to, ": end each by a line `c <id>` before the `close`")
}

// Writes that a layer reaches past the end of the device below it. If it doesn't, writes that one
// of the layer's numbers is out of range.
fn write_out_of_range<W: Write>(text: &[u8], line: Numbered, to: &mut W) -> fmt::Result {
    let beneath = match word_at(line.text, 0) {
        Some(b"data-layer") => sectors_of(text, line.number, b"data", b"data-layer"),
        _ => sectors_of(text, line.number, b"log", b"log-layer"),
    };
    match (beneath, layer_range(line.text)) {
        (Some(size), Some((offset, length))) if offset > size || length > size - offset => {
            let size = counted_sectors(size);
            writeln!(
                to,
                "  the layer {offset}+{length} ends past the device below it, which has {size}, counted from 0"
            )
        }
        _ => write_bad_value(line.text, to),
    }
}

// Returns the first sector that a layer uses on the device below it, and the layer's length. None
// if the line lacks one. An error layer begins at 0.
fn layer_range(line: &[u8]) -> Option<(u64, u64)> {
    let length = number_at(line, 2)?;
    match word_at(line, 5) {
        Some(offset) => Some((number_of(offset)?, length)),
        None => Some((0, length)),
    }
}
