//! Parses a line of a run's script. The result depends only on the words of the line.
ghost use Rattle.std.specs.Prelude.{◌≡◌, IfErr, IfOk, Some, option_copied};
ghost use Rattle.dmlw_script.specs.inside.LineParser.{IsNoRunLine, IsUnread, seat_call_of as the_call};
ghost use Rattle.dmlw_script.specs.inside.LineParser.{mark_call, parse_run_line, run_head_line};
ghost use Rattle.dmlw_script.specs.inside.LineParser.{seat_line, seat_of as the_seat};

use crate::command::Submission;
use crate::line::{HeadLine, head_words, is_line_text, submission_of};
use crate::line_error::LineError;
use crate::reader::shared_text;
use bio::Bytes;
use refusals::{Refusal, cut, number_of};
use std::alloc::Global;

/// The call of a seat.
#[derive(Debug, Drop)]
pub enum RunCall {
    /// Submits a request. In a script its sectors are limited as those of a recorder's script are.
    Submit(Submission),
    /// Adds a mark with this text, which may be empty, to the log. In a script each byte is ASCII,
    /// and neither zero nor a line feed. The bytes are shared: cloning them takes no memory.
    Mark { text: Bytes },
}

/// One line of the body of a run's script.
#[derive(Debug, Drop)]
pub struct SeatCall {
    /// The seat, counted from 0. In a script it is below the number of seats.
    pub seat: u64,
    /// The call of the seat.
    pub call: RunCall,
}

/// The meaning of a line of a run's script.
#[derive(Drop)]
pub(crate) enum RunLine {
    /// A line of the head that a recorder's script may have too.
    Head(HeadLine),
    /// `seats <n>`
    Seats(u64),
    /// `s<k>`, a space, and the words of the seat's call
    Body(SeatCall),
}

/// Parses a line of a run's script that isn't skipped. Refuses a line with no meaning as `BadLine`.
pub(crate) fn run_line_of(alloc: Global, line: &[u8]) -> Result<RunLine, LineError>
    ensures said { IfOk result (λ said. parse_run_line line.now ≡ Some said) }
    ensures none { IfErr result (λ error. IsNoRunLine error (parse_run_line line.now)) }
{
    let (verb, words) = cut(line, b' ');
    let words = words.ok_or(Refusal::BadLine)?;
    match head_line_of(verb, words) {
        Some(line) => Ok(line),
        None => seat_line_of(alloc, verb, words),
    }
}

// Parses a line of the head with the first word `verb` and the other words `words`.
fn head_line_of(verb: &[u8], words: &[u8]) -> Option<RunLine>
    ensures { result ≡ run_head_line verb.now words.now }
{
    if verb == b"seats".as_slice() {
        Some(RunLine::Seats(number_of(words)?))
    } else {
        Some(RunLine::Head(head_words(verb, words)?))
    }
}

// Parses a line of the body: `verb` is its seat, and `words` are the words of the call.
fn seat_line_of(alloc: Global, verb: &[u8], words: &[u8]) -> Result<RunLine, LineError>
    ensures said { IfOk result (λ said. seat_line verb.now words.now ≡ Some said) }
    ensures none { IfErr result (λ error. IsNoRunLine error (seat_line verb.now words.now)) }
{
    let seat = seat_of(verb).ok_or(Refusal::BadLine)?;
    let (verb, words) = cut(words, b' ');
    let call = call_of(alloc, verb, words)?;
    Ok(RunLine::Body(SeatCall { seat, call }))
}

// Parses the word of a seat: `s` and its number.
fn seat_of(word: &[u8]) -> Option<u64>
    ensures { result ≡ the_seat word.now }
{
    match word {
        [b's', number @ ..] => number_of(number),
        _ => None,
    }
}

// Parses the call of a seat: `verb` is its first word, and `words` are the other words, if there
// are any.
fn call_of(alloc: Global, verb: &[u8], words: Option<&[u8]>) -> Result<RunCall, LineError>
    ensures said { IfOk result (λ call. the_call verb.now (option_copied words.entry) ≡ Some call) }
    ensures none { IfErr result
        (λ error. IsUnread error (the_call verb.now (option_copied words.entry))) }
{
    if verb == b"mark".as_slice() {
        return mark_of(alloc, words);
    }
    let submission = submission_of(verb, words).ok_or(Refusal::BadLine)?;
    Ok(RunCall::Submit(submission))
}

// Parses a mark with this text; None stands for a call with no space after `mark`.
fn mark_of(alloc: Global, text: Option<&[u8]>) -> Result<RunCall, LineError>
    ensures said { IfOk result (λ call. mark_call (option_copied text.entry) ≡ Some call) }
    ensures none { IfErr result (λ error. IsUnread error (mark_call (option_copied text.entry))) }
{
    match text {
        Some(text) if is_line_text(text) => {
            let text = shared_text(alloc, text)?;
            Ok(RunCall::Mark { text })
        }
        _ => Err(LineError::Refused(Refusal::BadLine)),
    }
}
