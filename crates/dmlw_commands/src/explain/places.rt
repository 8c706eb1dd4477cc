//! Explains why a script can't have a line at this point, though the line's words are right.
use crate::explain::line::EscapedBytes;
use crate::explain::script_text::{
    Grammar, Numbered, begins_with, count_of, first_of_body, line_of, number_at, word_at,
};
use bio::MAX_DEVICE_SECTORS;
use dmlw_script::{MAX_LAYERS, MAX_SEATS};
use std::fmt;
use std::fmt::Write;

/// Writes why a line with right words can't be at this point, or which of its numbers is out of
/// range.
pub(crate) fn write_place<W: Write>(
    grammar: Grammar,
    text: &[u8],
    line: Numbered,
    to: &mut W,
) -> fmt::Result {
    if let Some(Numbered { number, .. }) = line_of(text, line.number, b"crash") {
        return writeln!(to, "  no line may follow the `crash` in line {number}");
    }
    match next_of_head(grammar, text, line.number) {
        Some(word) if begins_with(line.text, word.as_bytes()) => write_range(line, to),
        Some(word) => writeln!(
            to,
            "  a line `{word}` must come before this one: a script begins with {}",
            head_of(grammar)
        ),
        None => write_behind_head(text, line, to),
    }
}

// Returns the lines of a script's head, in order.
fn head_of(grammar: Grammar) -> &'static str {
    match grammar {
        Grammar::Recorder => "`data`, and then `log`",
        Grammar::Seats => "`data`, then `log`, and then `seats`",
    }
}

// Returns the first word of the next line that the head still lacks before the line `before`. None
// if the head is complete.
fn next_of_head(grammar: Grammar, text: &[u8], before: u64) -> Option<&'static str> {
    if line_of(text, before, b"data").is_none() {
        Some("data")
    } else if line_of(text, before, b"log").is_none() {
        Some("log")
    } else if grammar == Grammar::Seats && line_of(text, before, b"seats").is_none() {
        Some("seats")
    } else {
        None
    }
}

// Writes the allowed range of the number in a line of the head.
fn write_range<W: Write>(line: Numbered, to: &mut W) -> fmt::Result {
    let number = EscapedBytes(word_at(line.text, 1).unwrap_or_default());
    let (least, most, condition) = match word_at(line.text, 0) {
        Some(b"seats") => (1, MAX_SEATS, ""),
        Some(b"log") if word_at(line.text, 2).is_some() => {
            (8, MAX_DEVICE_SECTORS, ", with the word 4096")
        }
        _ => (1, MAX_DEVICE_SECTORS, ""),
    };
    writeln!(
        to,
        "  the number {number} is out of range: it is {least} to {most}{condition}"
    )
}

// Writes why a line can't come after the head, or at this point among layers and other lines.
fn write_behind_head<W: Write>(text: &[u8], line: Numbered, to: &mut W) -> fmt::Result {
    match word_at(line.text, 0) {
        Some(b"data") => write_twice(text, line, b"data", to),
        Some(b"log") => write_twice(text, line, b"log", to),
        Some(b"seats") => write_twice(text, line, b"seats", to),
        Some(b"data-layer") => write_layer(text, line, b"data-layer", to),
        Some(b"log-layer") => write_layer(text, line, b"log-layer", to),
        Some(b"at") => write_moment(text, line, to),
        Some([b's', number @ ..]) => write_seat(text, line, number, to),
        _ => Ok(()),
    }
}

// Writes that the script already has this line, and that it may have only one.
fn write_twice<W: Write>(text: &[u8], line: Numbered, word: &[u8], to: &mut W) -> fmt::Result {
    let Some(Numbered { number, .. }) = line_of(text, line.number, word) else {
        return Ok(());
    };
    let word = EscapedBytes(word);
    writeln!(
        to,
        "  line {number} is already a `{word}` line: a script has only one"
    )
}

// Writes which line may not come before a layer's line, that the disk has too many layers, or that
// the layer is too short.
fn write_layer<W: Write>(text: &[u8], line: Numbered, word: &[u8], to: &mut W) -> fmt::Result {
    if let Some(Numbered { number, .. }) = first_of_body(text, line.number) {
        return writeln!(
            to,
            "  layers must come before the requests, and line {number} isn't a layer"
        );
    }
    if word == b"data-layer".as_slice() {
        if let Some(Numbered { number, .. }) = line_of(text, line.number, b"log-layer") {
            return writeln!(
                to,
                "  the data disk's layers must come before the log's, and line {number} is a `log-layer`"
            );
        }
    }
    if count_of(text, line.number, word) >= MAX_LAYERS as u64 {
        return writeln!(
            to,
            "  this disk already has {MAX_LAYERS} layers, which is the maximum"
        );
    }
    writeln!(
        to,
        "  with log sectors of 4096 bytes a layer over the log has at least 8 sectors"
    )
}

// Writes that a line's time is before an earlier line's time.
fn write_moment<W: Write>(text: &[u8], line: Numbered, to: &mut W) -> fmt::Result {
    let Some(
        Numbered {
            number,
            text: before,
        },
    ) = line_of(text, line.number, b"at")
    else {
        return Ok(());
    };
    let moment = EscapedBytes(word_at(line.text, 1).unwrap_or_default());
    let earlier = EscapedBytes(word_at(before, 1).unwrap_or_default());
    writeln!(
        to,
        "  the time {moment} is before {earlier}, which line {number} sets: times don't go back"
    )
}

// Writes that the script doesn't have this seat, and which seats it has.
fn write_seat<W: Write>(text: &[u8], line: Numbered, seat: &[u8], to: &mut W) -> fmt::Result {
    let Some(Numbered { text: seats, .. }) = line_of(text, line.number, b"seats") else {
        return Ok(());
    };
    let Some(count) = number_at(seats, 1) else {
        return Ok(());
    };
    let seat = EscapedBytes(seat);
    let last = count.saturating_sub(1);
    writeln!(
        to,
        "  there is no seat {seat}: there are {count}, s0 to s{last}"
    )
}
