//! Explains a line that a script can't have, or can't have at this point. It names a usual mistake,
//! the first wrong word, or what a line at this point needs.
use crate::explain::places::write_place;
use crate::explain::script_text::{Grammar, Numbered, is_space};
use dmlw_script::{recorder_forms, seat_forms};
use refusals::number_of;
use std::fmt;
use std::fmt::Write;

// The word for a seat in a form.
const SEAT: &[u8] = b"s<k>";

// The end of the form of a crash line.
const PICK: &[u8] = b"<pick> ..";

// The most bytes of a line that are shown.
const SHOWN_BYTES: usize = 100;

/// Explains a line that a script can't have, or can't have at this point. Writes a usual mistake if
/// there is one. Otherwise writes the first word that doesn't fit the line's form, or what a line
/// at this point needs.
pub(crate) fn explain_line<W: Write>(
    grammar: Grammar,
    text: &[u8],
    line: Numbered,
    to: &mut W,
) -> fmt::Result {
    let form = form_of(grammar, line.text);
    if let Some(cause) = cause_of(line.text) {
        writeln!(to, "  {cause}")?;
        return match form {
            Some(form) => writeln!(to, "  the form of the line: {form}"),
            None => Ok(()),
        };
    }
    match form {
        Some(form) => {
            write_bad_word(grammar, text, line, form, to)?;
            writeln!(to, "  the form of the line: {form}")
        }
        None => write_unknown(grammar, line.text, to),
    }
}

// Writes that no line begins with this word, and lists the forms of lines.
fn write_unknown<W: Write>(grammar: Grammar, line: &[u8], to: &mut W) -> fmt::Result {
    let word = EscapedBytes(line.split(is_space).next().unwrap_or_default());
    if form_of(other_of(grammar), line).is_some() {
        let (own, other) = match grammar {
            Grammar::Recorder => ("record", "run"),
            Grammar::Seats => ("run", "record"),
        };
        writeln!(
            to,
            "  this line belongs to a script of `dmlw {other}`, not of `dmlw {own}`"
        )?;
        if grammar == Grammar::Recorder {
            return Ok(());
        }
    }
    match grammar {
        Grammar::Recorder => writeln!(
            to,
            "  no line begins with the word `{word}`; the lines are:"
        )?,
        Grammar::Seats => writeln!(
            to,
            "  no line begins like this; a script of seats has these lines, and its first seat is s0:"
        )?,
    }
    write_forms(grammar, usize::MAX, to)
}

// Returns the other kind of script.
fn other_of(grammar: Grammar) -> Grammar {
    match grammar {
        Grammar::Recorder => Grammar::Seats,
        Grammar::Seats => Grammar::Recorder,
    }
}

/// Writes the forms of the lines that a script can have, but at most the first `most`.
pub(crate) fn write_forms<W: Write>(grammar: Grammar, most: usize, to: &mut W) -> fmt::Result {
    for form in forms_of(grammar).iter().take(most) {
        writeln!(to, "    {form}")?;
    }
    Ok(())
}

fn forms_of(grammar: Grammar) -> &'static [&'static str] {
    match grammar {
        Grammar::Recorder => recorder_forms(),
        Grammar::Seats => seat_forms(),
    }
}

/// Bytes of a script, printed with escapes; at most the first 100.
#[derive(Clone, Copy)]
pub(crate) struct EscapedBytes<'a>(pub(crate) &'a [u8]);

impl fmt::Display for EscapedBytes<'_> {
    fn fmt<W: Write>(&self, f: &mut fmt::Formatter<W>) -> fmt::Result {
        let Some(front) = self.0.get(..SHOWN_BYTES) else {
            let all = self.0.escape_ascii();
            return write!(f, "{all}");
        };
        let front = front.escape_ascii();
        let rest = if self.0.len() > SHOWN_BYTES {
            "..."
        } else {
            ""
        };
        write!(f, "{front}{rest}")
    }
}

// Returns a usual mistake in a line, such as a tab.
fn cause_of(line: &[u8]) -> Option<&'static str> {
    if line.starts_with(b"\xef\xbb\xbf".as_slice()) {
        return Some(
            "it begins with a byte order mark (ef bb bf): save the script as text without one",
        );
    }
    if is_text(line) && has_own_words(line) {
        return None;
    }
    if line.ends_with(b"\r".as_slice()) {
        return Some("it ends with a carriage return: lines must end with only a line feed");
    }
    if line.contains(&b'\t') {
        return Some("it has a tab: words are separated by one space");
    }
    if !is_text(line) {
        return Some("it has a byte that isn't ASCII text");
    }
    if line.split(is_space).any(|word| word.is_empty()) {
        return Some(
            "it has an extra space: words are separated by one space, and a line has none at its ends",
        );
    }
    if line.iter().any(|byte| byte.is_ascii_uppercase()) {
        return Some("it has an upper case letter: words are in lower case");
    }
    None
}

// Returns whether a line's words have their own rules. The text of a mark or a message is taken as
// it is, and a layer's table line has its own grammar.
fn has_own_words(line: &[u8]) -> bool {
    line.starts_with(b"mark ".as_slice())
        || line.starts_with(b"message ".as_slice())
        || line.starts_with(b"data-layer ".as_slice())
        || line.starts_with(b"log-layer ".as_slice())
}

// Returns the form of lines that begin like `line`.
fn form_of(grammar: Grammar, line: &[u8]) -> Option<&'static str> {
    for form in forms_of(grammar) {
        if begins_as(form.as_bytes(), line) {
            return Some(form);
        }
    }
    None
}

// Returns whether `line` begins like `form`: with the same first word, and in a seat's line also
// the same second word.
fn begins_as(form: &[u8], line: &[u8]) -> bool {
    let mut words = line.split(is_space);
    let mut wanted = form.split(is_space);
    let first = wanted.next().unwrap_or_default();
    if !fits(first, words.next().unwrap_or_default()) {
        return false;
    }
    first != SEAT || words.next() == wanted.next()
}

// Writes the first word of a line that doesn't fit a form. If all words fit, writes what a line at
// this point needs.
fn write_bad_word<W: Write>(
    grammar: Grammar,
    text: &[u8],
    line: Numbered,
    form: &str,
    to: &mut W,
) -> fmt::Result {
    match flaw_of(line.text, form.as_bytes()) {
        WordFault::None => write_place(grammar, text, line, to),
        WordFault::Missing(wanted) if wanted == b"<text>".as_slice() => writeln!(
            to,
            "  a space is missing: the text is what follows it, and may be empty"
        ),
        WordFault::Missing(wanted) => {
            let kind = EscapedBytes(wanted);
            writeln!(to, "  the word {kind} is missing")
        }
        WordFault::Misfit(wanted, word) => {
            let (word, kind) = (EscapedBytes(word), EscapedBytes(wanted));
            let meaning = meaning_of(wanted);
            writeln!(to, "  the word `{word}` isn't {kind}: {meaning}")
        }
        WordFault::TooMany(word) => {
            let word = EscapedBytes(word);
            let order = if form.ends_with("]") {
                ", or is out of order"
            } else {
                ""
            };
            writeln!(to, "  the word `{word}` is extra{order}")
        }
    }
}

// How a line doesn't fit a form.
enum WordFault<'a> {
    None,
    // A word of this kind is missing.
    Missing(&'a [u8]),
    // The kind of word that is needed, and the word that is there.
    Misfit(&'a [u8], &'a [u8]),
    // This word comes after all words of the form.
    TooMany(&'a [u8]),
}

// Returns the first word of a line that doesn't fit a form.
fn flaw_of<'a>(line: &'a [u8], form: &'a [u8]) -> WordFault<'a> {
    if form.ends_with(PICK) {
        return pick_flaw(line);
    }
    let mut words = line.split(is_space);
    let mut next = words.next();
    for wanted in form.split(is_space) {
        match next {
            // The rest of the line is a free text, or has its own grammar.
            Some(_) if wanted == b"<text>".as_slice() || wanted == b"0".as_slice() =>
                return WordFault::None,
            Some(word) if fits(wanted, word) => next = words.next(),
            _ if wanted.starts_with(b"[".as_slice()) => {}
            Some(word) => return WordFault::Misfit(wanted, word),
            None => return WordFault::Missing(wanted),
        }
    }
    match next {
        Some(word) => WordFault::TooMany(word),
        None => WordFault::None,
    }
}
// Returns the first pick of a crash that isn't a number.
fn pick_flaw(line: &[u8]) -> WordFault<'_> {
    for word in line.split(is_space).skip(1) {
        if number_of(word).is_none() {
            return WordFault::Misfit(b"<pick>", word);
        }
    }
    WordFault::None
}

// Returns whether a word is of the kind `wanted`, a word of a form.
fn fits(wanted: &[u8], word: &[u8]) -> bool {
    if wanted == b"<id>".as_slice() {
        return is_id(word);
    }
    if wanted == b"<byte>".as_slice() {
        return word.len() == 2 && word.iter().all(is_digit_of_byte);
    }
    if wanted == b"<disk>".as_slice() {
        return word == b"data".as_slice() || word == b"log".as_slice();
    }
    if wanted == SEAT {
        return is_seat(word);
    }
    match wanted {
        [b'<', ..] => number_of(word).is_some(),
        [b'[', option @ .., b']'] => word == option,
        _ => word == wanted,
    }
}

// Describes the words of the kind `wanted`.
fn meaning_of(wanted: &[u8]) -> &'static str {
    match wanted {
        b"<id>" => "1 to 16 of the characters a to z and 0 to 9",
        b"<byte>" => "two hexadecimal digits of 0 to 9 and a to f",
        b"<disk>" => "data or log",
        _ => "a decimal number below 2^64",
    }
}

fn is_id(word: &[u8]) -> bool {
    !word.is_empty() && word.len() <= 16 && word.iter().all(is_letter_of_id)
}

// Returns whether a word has the form of a seat's name; the script may lack this seat.
fn is_seat(word: &[u8]) -> bool {
    match word {
        [b's', number @ ..] => number_of(number).is_some(),
        _ => false,
    }
}

// Returns whether a script's line may have these bytes.
fn is_text(line: &[u8]) -> bool {
    line.is_ascii() && !line.contains(&0)
}

fn is_letter_of_id(byte: &u8) -> bool {
    byte.is_ascii_lowercase() || byte.is_ascii_digit()
}

fn is_digit_of_byte(byte: &u8) -> bool {
    matches!(*byte, b'0'..=b'9' | b'a'..=b'f')
}
