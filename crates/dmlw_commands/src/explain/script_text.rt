//! A script as text: finds lines by number and first word, and the ids of requests. The explanation
//! of one line uses this to look at the other lines.
use dmlw_script::recorder_forms;
use refusals::number_of;
use std::alloc::{AllocError, Global};
use std::collections::BTreeSet;

/// The two kinds of script.
#[derive(Clone, Copy, PartialEq, Eq)]
pub(crate) enum Grammar {
    /// The script of one recorder.
    Recorder,
    /// The script of several seats.
    Seats,
}

/// A line of a script and its number, counted from 1.
#[derive(Clone, Copy)]
pub(crate) struct Numbered<'a> {
    pub(crate) number: u64,
    pub(crate) text: &'a [u8],
}

pub(crate) fn is_line_end(byte: &u8) -> bool {
    *byte == b'\n'
}

pub(crate) fn is_space(byte: &u8) -> bool {
    *byte == b' '
}

pub(crate) fn line_at(text: &[u8], number: u64) -> Option<&[u8]> {
    text.split(is_line_end)
        .nth(number.saturating_sub(1) as usize)
}

pub(crate) fn has_line(text: &[u8], wanted: &[u8]) -> bool {
    for line in text.split(is_line_end) {
        if line == wanted {
            return true;
        }
    }
    false
}

/// Returns word `place` of a line, counted from 0.
pub(crate) fn word_at(line: &[u8], place: usize) -> Option<&[u8]> {
    line.split(is_space).filter(is_filled).nth(place)
}

/// Returns word `place` of a line as a number, if it is a number.
pub(crate) fn number_at(line: &[u8], place: usize) -> Option<u64> {
    number_of(word_at(line, place)?)
}

fn is_filled(word: &&[u8]) -> bool {
    !word.is_empty()
}

pub(crate) fn begins_with(line: &[u8], word: &[u8]) -> bool {
    word_at(line, 0) == Some(word)
}

/// Returns the last line before line `before` that begins with `word`.
pub(crate) fn line_of<'a>(text: &'a [u8], before: u64, word: &[u8]) -> Option<Numbered<'a>> {
    let mut found = None;
    let mut number: u64 = 0;
    for line in text.split(is_line_end).take(lines_before(before)) {
        number = number.saturating_add(1);
        if begins_with(line, word) {
            found = Some(Numbered { number, text: line });
        }
    }
    found
}

/// Counts the lines before line `before` that begin with `word`.
pub(crate) fn count_of(text: &[u8], before: u64, word: &[u8]) -> u64 {
    let mut count: u64 = 0;
    for line in text.split(is_line_end).take(lines_before(before)) {
        if begins_with(line, word) {
            count = count.saturating_add(1);
        }
    }
    count
}

/// Returns one of the lines before line `before` that begin with `word`: the n-th of these lines,
/// counted from 1.
pub(crate) fn nth_of<'a>(
    text: &'a [u8],
    before: u64,
    word: &[u8],
    wanted: u64,
) -> Option<&'a [u8]> {
    let mut count: u64 = 0;
    for line in text.split(is_line_end).take(lines_before(before)) {
        if begins_with(line, word) {
            count = count.saturating_add(1);
            if count == wanted {
                return Some(line);
            }
        }
    }
    None
}

/// Returns the first line before line `before` that is after the head: not a comment, not empty,
/// and not a line of the head.
pub(crate) fn first_of_body(text: &[u8], before: u64) -> Option<Numbered<'_>> {
    let mut number: u64 = 0;
    for line in text.split(is_line_end).take(lines_before(before)) {
        number = number.saturating_add(1);
        if !is_of_head(line) {
            return Some(Numbered { number, text: line });
        }
    }
    None
}

// Returns whether a line is skipped, or belongs to a script's head.
fn is_of_head(line: &[u8]) -> bool {
    let first = line.split(is_space).next().unwrap_or_default();
    first.is_empty()
        || first.starts_with(b"#".as_slice())
        || first == b"data".as_slice()
        || first == b"log".as_slice()
        || first == b"seats".as_slice()
        || first == b"data-layer".as_slice()
        || first == b"log-layer".as_slice()
}

/// Returns the line before line `before` that submits the request `id`.
pub(crate) fn submission_of<'a>(text: &'a [u8], before: u64, id: &[u8]) -> Option<Numbered<'a>> {
    let mut number: u64 = 0;
    for line in text.split(is_line_end).take(lines_before(before)) {
        number = number.saturating_add(1);
        if submitted_by(line) == Some(id) {
            return Some(Numbered { number, text: line });
        }
    }
    None
}

/// Returns the line before line `before` that ends the request `id`.
pub(crate) fn end_of<'a>(text: &'a [u8], before: u64, id: &[u8]) -> Option<Numbered<'a>> {
    let mut number: u64 = 0;
    for line in text.split(is_line_end).take(lines_before(before)) {
        number = number.saturating_add(1);
        if begins_with(line, b"c") && word_at(line, 1) == Some(id) {
            return Some(Numbered { number, text: line });
        }
    }
    None
}

/// Counts the requests that are submitted but not ended before line `before`. The script has to be
/// readable up to this line.
pub(crate) fn open_requests(text: &[u8], before: u64) -> u64 {
    let mut open: u64 = 0;
    for line in text.split(is_line_end).take(lines_before(before)) {
        if submitted_by(line).is_some() {
            open = open.saturating_add(1);
        } else if begins_with(line, b"c") {
            open = open.saturating_sub(1);
        }
    }
    open
}

/// Returns the id of the first request that is submitted but not ended before line `before`. Returns
/// None if there is none, or if an allocation fails.
pub(crate) fn first_open<'a>(alloc: Global, text: &'a [u8], before: u64) -> Option<&'a [u8]> {
    let ended = ended_before(alloc, text, before).ok()?;
    for line in text.split(is_line_end).take(lines_before(before)) {
        if let Some(id) = submitted_by(line) {
            if !ended.contains(&id) {
                return Some(id);
            }
        }
    }
    None
}

// Returns the ids of the requests that are ended before line `before`.
fn ended_before<'a>(
    alloc: Global,
    text: &'a [u8],
    before: u64,
) -> Result<BTreeSet<&'a [u8]>, AllocError> {
    let mut ended = BTreeSet::new(alloc);
    for line in text.split(is_line_end).take(lines_before(before)) {
        if begins_with(line, b"c") {
            ended.insert(word_at(line, 1).unwrap_or_default())?;
        }
    }
    Ok(ended)
}

// Returns how many lines stand before line `before`.
fn lines_before(before: u64) -> usize {
    before.saturating_sub(1) as usize
}

/// Returns the id of the request that a line of a recorder's script submits, if it submits one.
pub(crate) fn submitted_by(line: &[u8]) -> Option<&[u8]> {
    if begins_with(line, b"c") || !has_id(line) {
        return None;
    }
    word_at(line, 1)
}

// Returns whether the second word of a line is an id, by the form of lines with its first word.
fn has_id(line: &[u8]) -> bool {
    let Some(first) = word_at(line, 0) else {
        return false;
    };
    for form in recorder_forms() {
        let form = form.as_bytes();
        if begins_with(form, first) && word_at(form, 1) == Some(b"<id>".as_slice()) {
            return true;
        }
    }
    false
}

/// Returns how many sectors of 512 bytes a log needs to have room for all requests and marks of a
/// script.
pub(crate) fn log_room(grammar: Grammar, text: &[u8]) -> u64 {
    let unit = match line_of(text, u64::MAX, b"log") {
        Some(log) if word_at(log.text, 2).is_some() => LARGE_UNIT,
        _ => 1,
    };
    // The super block, the end mark, and the last log sector, which is never used.
    let mut sectors: u64 = unit.saturating_mul(3);
    for line in text.split(is_line_end) {
        sectors = sectors.saturating_add(entry_room(grammar, line, unit));
    }
    sectors
}

// A log sector of 4,096 bytes has this many sectors of 512 bytes.
const LARGE_UNIT: u64 = 8;

// Returns how many sectors the entry of a script's line takes in a log whose log sectors have `unit`
// sectors.
fn entry_room(grammar: Grammar, line: &[u8], unit: u64) -> u64 {
    let place = match grammar {
        Grammar::Recorder => 0,
        Grammar::Seats => 1,
    };
    let word = word_at(line, place).unwrap_or_default();
    if line.starts_with(b"#".as_slice()) {
        return 0;
    }
    if word == b"w".as_slice() {
        return unit.saturating_add(number_at(line, 3).unwrap_or_default());
    }
    if word == b"f".as_slice() || word == b"d".as_slice() || word == b"mark".as_slice() {
        return unit;
    }
    0
}

/// Returns whether a line of a recorder's script is an event: it submits or ends a request, or is a
/// mark or the close.
pub(crate) fn is_event(line: &[u8]) -> bool {
    has_id(line) || begins_with(line, b"mark") || begins_with(line, b"close")
}
