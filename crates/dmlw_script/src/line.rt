//! Parses a line of a script. The result depends only on the words of the line, not on the lines
//! before it.
ghost use Rattle.std.specs.Prelude.{◌≡◌, option_copied, option_map};
ghost use Rattle.dmlw_script.specs.LineMeaning.{as_meaning};
ghost use Rattle.dmlw_script.specs.Words.{is_line_byte as is_a_line_byte};
ghost use Rattle.dmlw_script.specs.Words.{is_line_text as is_a_line_text};
ghost use Rattle.dmlw_script.specs.inside.LineParser.{body_words};
ghost use Rattle.dmlw_script.specs.inside.LineParser.{discard_words as the_discard_words};
ghost use Rattle.dmlw_script.specs.inside.LineParser.{disk_of_word, head_words as the_head};
ghost use Rattle.dmlw_script.specs.inside.LineParser.{layer_meaning as the_layer, log_of as the_log};
ghost use Rattle.dmlw_script.specs.inside.LineParser.{lone_word, message_of as the_message};
ghost use Rattle.dmlw_script.specs.inside.LineParser.{parse_words, plain_parts};
ghost use Rattle.dmlw_script.specs.inside.LineParser.{read_of as the_read};
ghost use Rattle.dmlw_script.specs.inside.LineParser.{sectors_of as the_sectors};
ghost use Rattle.dmlw_script.specs.inside.LineParser.{size_of as the_size};
ghost use Rattle.dmlw_script.specs.inside.LineParser.{step, submission_of as the_submission};
ghost use Rattle.dmlw_script.specs.inside.LineParser.{submit_of as the_submit};
ghost use Rattle.dmlw_script.specs.inside.LineParser.{write_words as the_write_words};

use crate::command::{DiskName, Step, Submission};
use crate::options::options_of;
use crate::script_id::ScriptId;
use crate::values::byte_of;
use bio::{Ms, SectorSize};
use layer_table::{LayerSpec, TableError, parse_line};
use refusals::{cut, number_of};

// The forms of the lines of a recorder's script. A word in angle brackets stands for a value, and a
// word in square brackets may be left out.
const RECORDER_FORMS: [&str; 15] = [
    "data <sectors>",
    "log <sectors> [4096]",
    "data-layer 0 <length> <target> ..",
    "log-layer 0 <length> <target> ..",
    "at <ms>",
    "w <id> <first> <count> <byte> [flush] [fua] [meta]",
    "f <id>",
    "d <id> <first> <count>",
    "c <id>",
    "r <first> <count>",
    "turn",
    "mark <text>",
    "message <disk> <layer> <text>",
    "close",
    "crash <pick> ..",
];

// The forms of the lines of a run's script, as in `RECORDER_FORMS`.
const SEAT_FORMS: [&str; 9] = [
    "data <sectors>",
    "log <sectors> [4096]",
    "seats <n>",
    "data-layer 0 <length> <target> ..",
    "log-layer 0 <length> <target> ..",
    "s<k> w <first> <count> <byte> [flush] [fua] [meta]",
    "s<k> f",
    "s<k> d <first> <count>",
    "s<k> mark <text>",
];

/// The meaning of a line that is no crash.
#[derive(Drop)]
pub(crate) enum Line {
    /// A line of the head.
    Head(HeadLine),
    /// A line of the body.
    Body(BodyLine),
}

/// The meaning of a line of a head.
#[derive(Clone, Copy)]
pub(crate) enum HeadLine {
    /// `data <sectors>`
    Data {
        sectors: u64,
    },
    /// `log <sectors> [4096]`
    Log {
        sectors: u64,
        size: SectorSize,
    },
    /// `data-layer <table line>` or `log-layer <table line>`: the layer that the table line asks
    /// for, or why it asks for none
    Layer {
        over: DiskName,
        asked: Result<LayerSpec, TableError>,
    },
}

/// The meaning of a line of a body.
#[derive(Drop)]
pub(crate) enum BodyLine {
    /// A line that submits a request with the id `name`.
    Submit {
        name: ScriptId,
        submission: Submission,
    },
    /// `c <id>`
    Complete {
        name: ScriptId,
    },
    /// A line that names no request.
    Step(Step),
}

/// Returns the forms of the lines of a recorder's script, for people to read. A word in angle
/// brackets stands for a value, and a word in square brackets may be left out.
pub fn recorder_forms() -> &'static [&'static str] {
    &RECORDER_FORMS
}

/// Returns the forms of the lines of a run's script, in the notation of `recorder_forms`.
pub fn seat_forms() -> &'static [&'static str] {
    &SEAT_FORMS
}

/// Parses a line that needs no memory for its words. `verb` is its first word, and `words` are the
/// other words, if it has any. Returns None if the line isn't of the grammar.
pub(crate) fn parse_parts(verb: &[u8], words: Option<&[u8]>) -> Option<Line>
    ensures { option_map as_meaning result ≡ plain_parts verb.now (option_copied words.entry) }
{
    match words {
        Some(words) => parse_words(verb, words),
        None => lone_word(verb),
    }
}

// Parses a line of the single word `verb`.
fn lone_word(verb: &[u8]) -> Option<Line>
    ensures { option_map as_meaning result ≡ lone_word verb.now }
{
    match verb {
        b"close" => Some(Line::Body(BodyLine::Step(Step::Close))),
        b"turn" => Some(Line::Body(BodyLine::Step(Step::Turn))),
        _ => None,
    }
}

// Parses a line with the first word `verb` and the other words `words`.
fn parse_words(verb: &[u8], words: &[u8]) -> Option<Line>
    ensures { option_map as_meaning result ≡ parse_words verb.now words.now }
{
    match head_words(verb, words) {
        Some(line) => Some(Line::Head(line)),
        None => body_words(verb, words),
    }
}

/// Parses a line of the head with the first word `verb` and the other words `words`. Returns None
/// if it isn't of the grammar.
pub(crate) fn head_words(verb: &[u8], words: &[u8]) -> Option<HeadLine>
    ensures { result ≡ the_head verb.now words.now }
{
    if verb == b"data".as_slice() {
        Some(HeadLine::Data {
            sectors: number_of(words)?,
        })
    } else if verb == b"log".as_slice() {
        log_of(words)
    } else if verb == b"data-layer".as_slice() {
        Some(layer_of(DiskName::Data, words))
    } else if verb == b"log-layer".as_slice() {
        Some(layer_of(DiskName::Log, words))
    } else {
        None
    }
}

// Parses the words of the log disk's line: its number of sectors, and `4096` if the log's sectors
// have 4,096 bytes.
fn log_of(words: &[u8]) -> Option<HeadLine>
    ensures { result ≡ the_log words.now }
{
    let (sectors, size) = cut(words, b' ');
    Some(HeadLine::Log {
        sectors: number_of(sectors)?,
        size: size_of(size)?,
    })
}

// Returns the size of the log's sectors: 512 bytes without a word, and 4,096 for the word `4096`.
fn size_of(word: Option<&[u8]>) -> Option<SectorSize>
    ensures { result ≡ the_size (option_copied word.entry) }
{
    match word {
        None => Some(SectorSize::B512),
        Some(b"4096") => Some(SectorSize::B4096),
        Some(_) => None,
    }
}

// Returns the line of a layer over a disk, with the table line `text`.
fn layer_of(over: DiskName, text: &[u8]) -> HeadLine
    ensures { result ≡ the_layer over text.now }
{
    HeadLine::Layer {
        over,
        asked: parse_line(text),
    }
}

// Parses a line of the body with the first word `verb` and the other words `words`.
fn body_words(verb: &[u8], words: &[u8]) -> Option<Line>
    ensures { option_map as_meaning result ≡ body_words verb.now words.now }
{
    match verb {
        b"c" => Some(Line::Body(BodyLine::Complete {
            name: ScriptId::of_word(words)?,
        })),
        b"r" => read_of(words),
        b"at" => Some(Line::Body(BodyLine::Step(Step::At {
            time: Ms::new(number_of(words)?),
        }))),
        _ => submit_of(verb, words),
    }
}

// Parses a line that submits a request: `verb` is its first word, and `words` are its id and the
// words of the request.
fn submit_of(verb: &[u8], words: &[u8]) -> Option<Line>
    ensures { option_map as_meaning result ≡ the_submit verb.now words.now }
{
    let (name, rest) = cut(words, b' ');
    Some(Line::Body(BodyLine::Submit {
        name: ScriptId::of_word(name)?,
        submission: submission_of(verb, rest)?,
    }))
}

/// Parses a request with the first word `verb` and the other words, if there are any. The words
/// have no id. Returns None if they are no request.
pub(crate) fn submission_of(verb: &[u8], words: Option<&[u8]>) -> Option<Submission>
    ensures { result ≡ the_submission verb.now (option_copied words.entry) }
{
    match (verb, words) {
        (b"w", Some(words)) => write_words(words),
        (b"d", Some(words)) => discard_words(words),
        (b"f", None) => Some(Submission::Flush),
        _ => None,
    }
}

// Parses the words of a write: its first sector, its number of sectors, its byte and its options.
fn write_words(words: &[u8]) -> Option<Submission>
    ensures { result ≡ the_write_words words.now }
{
    let (first, rest) = cut(words, b' ');
    let (count, rest) = cut(rest?, b' ');
    let (byte, options) = cut(rest?, b' ');
    Some(Submission::Write {
        first: number_of(first)?,
        count: number_of(count)?,
        byte: byte_of(byte)?,
        options: options_of(options)?,
    })
}

// Parses the words of a discard: its first sector and its number of sectors.
fn discard_words(words: &[u8]) -> Option<Submission>
    ensures { result ≡ the_discard_words words.now }
{
    let (first, count) = sectors_of(words)?;
    Some(Submission::Discard { first, count })
}

// Parses the words of a read: its first sector and its number of sectors.
fn read_of(words: &[u8]) -> Option<Line>
    ensures { option_map as_meaning result ≡ the_read words.now }
{
    let (first, count) = sectors_of(words)?;
    Some(Line::Body(BodyLine::Step(Step::Read { first, count })))
}

// Parses a first sector and a number of sectors.
fn sectors_of(words: &[u8]) -> Option<(u64, u64)>
    ensures { result ≡ the_sectors words.now }
{
    let (first, count) = cut(words, b' ');
    Some((number_of(first)?, number_of(count?)?))
}

/// Parses the words of a message: the name of a disk, the number of a layer, and the text. Returns
/// None if they aren't of the grammar.
pub(crate) fn message_of(words: Option<&[u8]>) -> Option<(DiskName, u64, &[u8])>
    ensures { option_map (λ message. step (Step.Message message.0 message.1 message.2.now)) result
        ≡ the_message (option_copied words.entry) }
{
    let (disk, rest) = cut(words?, b' ');
    let over = disk_of(disk)?;
    let (layer, text) = cut(rest?, b' ');
    let layer = number_of(layer)?;
    match text {
        Some(text) if is_line_text(text) => Some((over, layer, text)),
        _ => None,
    }
}

fn disk_of(word: &[u8]) -> Option<DiskName>
    ensures { result ≡ disk_of_word word.now }
{
    match word {
        b"data" => Some(DiskName::Data),
        b"log" => Some(DiskName::Log),
        _ => None,
    }
}

/// Returns whether each byte of a text may be in a line.
pub(crate) fn is_line_text(text: &[u8]) -> bool
    ensures { result ≡ is_a_line_text text.now }
{
    text.iter().all(|byte| is_line_byte(*byte))
}

// Returns whether a byte may be in a line: it is ASCII, and neither zero nor a line feed.
fn is_line_byte(byte: u8) -> bool
    ensures { result ≡ is_a_line_byte byte }
{
    0 < byte && byte < 128 && byte != b'\n'
}
