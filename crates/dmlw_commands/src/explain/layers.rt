//! Explains a wrong line of a layer: which of its words is wrong, and which form the line should
//! have.
use crate::explain::line::EscapedBytes;
use crate::explain::script_text::{is_space, word_at};
use layer_table::{BadValue, bad_value};
use refusals::cut;
use std::fmt;
use std::fmt::Write;

// The form of a layer's line after its first word, and how many words it has.
#[derive(Clone, Copy)]
struct LayerForm {
    form: &'static str,
    counts: &'static str,
}

const LINEAR: LayerForm = LayerForm {
    form: "0 <length> linear <dev> <offset>",
    counts: "5 words",
};

const ERROR: LayerForm = LayerForm {
    form: "0 <length> error",
    counts: "3 words",
};

const FLAKEY: LayerForm = LayerForm {
    form: "0 <length> flakey <dev> <offset> <up> <down> [0 | 1 <feature>]",
    counts: "7 to 9 words",
};

const FUSE: LayerForm = LayerForm {
    form: "0 <length> fuse <dev> <offset> <calls>",
    counts: "6 words",
};

const DUST: LayerForm = LayerForm {
    form: "0 <length> dust <dev> <offset> <blksz>",
    counts: "6 words",
};

const DELAY: LayerForm = LayerForm {
    form: "0 <length> delay <dev> <offset> <ms> [<dev> <offset> <ms> [<dev> <offset> <ms>]]",
    counts: "6, 9 or 12 words",
};

// Returns the form of lines with the target that `line` names. None if there is no such target.
fn form_of(line: &[u8]) -> Option<LayerForm> {
    let target = word_at(line, 3)?;
    if target == b"linear".as_slice() {
        return Some(LINEAR);
    }
    if target == b"error".as_slice() {
        return Some(ERROR);
    }
    if target == b"flakey".as_slice() {
        return Some(FLAKEY);
    }
    if target == b"fuse".as_slice() {
        return Some(FUSE);
    }
    if target == b"dust".as_slice() {
        return Some(DUST);
    }
    if target == b"delay".as_slice() {
        return Some(DELAY);
    }
    None
}

/// Writes that a layer's line names an unknown target.
pub(crate) fn write_unknown_target<W: Write>(line: &[u8], to: &mut W) -> fmt::Result {
    let word = EscapedBytes(word_at(line, 3).unwrap_or_default());
    writeln!(
        to,
        "  the word `{word}` isn't a target: the targets are linear, error, flakey, dust, delay and fuse"
    )
}

/// Writes how many words a layer's line has, and how many it should have.
pub(crate) fn write_wrong_count<W: Write>(line: &[u8], to: &mut W) -> fmt::Result {
    let count = line
        .split(is_space)
        .filter(|word| !word.is_empty())
        .count()
        .saturating_sub(1);
    match form_of(line) {
        Some(LayerForm { form, counts, .. }) => writeln!(
            to,
            "  the layer's line has {count} words after its first, but this target takes {counts}: {form}"
        ),
        None => writeln!(
            to,
            "  the layer's line has {count} words after its first, but needs at least 3: 0 <length> <target> .."
        ),
    }
}

/// Writes which word of a layer's line isn't a number but should be, or which number is out of its
/// range.
pub(crate) fn write_bad_value<W: Write>(line: &[u8], to: &mut W) -> fmt::Result {
    let table = cut(line, b' ').1.unwrap_or_default();
    match bad_value(table) {
        Some(BadValue::NoNumber(place)) => write_no_number(line, place.saturating_add(1), to),
        Some(BadValue::Start(start)) => writeln!(to, "  the start is {start}, but must be 0"),
        Some(BadValue::Length { length, most }) => writeln!(
            to,
            "  the length {length} is out of range: it is 1 to {most} sectors"
        ),
        Some(BadValue::Cycle { most }) => writeln!(
            to,
            "  the seconds up and down are out of range: together they are 1 to {most}"
        ),
        Some(BadValue::Block { bytes, least, most }) => writeln!(
            to,
            "  the block size {bytes} is out of range: it is a power of two from {least} to {most}"
        ),
        Some(BadValue::Delay { most }) => writeln!(
            to,
            "  a delay is at most {most} milliseconds, and all delays of a layer name the same device and offset"
        ),
        None => writeln!(
            to,
            "  a number in the layer's line is out of range: `dmlw help formats` has the ranges"
        ),
    }
}

// Writes that the word at `place` of a layer's line isn't a number.
fn write_no_number<W: Write>(line: &[u8], place: usize, to: &mut W) -> fmt::Result {
    let word = EscapedBytes(word_at(line, place).unwrap_or_default());
    let form = form_of(line).map_or("", |target| target.form);
    writeln!(
        to,
        "  the word `{word}` isn't a decimal number below 2^64: {form}"
    )
}
