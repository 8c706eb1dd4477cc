//! Reads the text of a recorder's script. `read_script` returns the script, or the first line at
//! fault.
ghost use Rattle.std.specs.Prelude.{◌≡◌, ◌<◌, ◌∷◌, [], Err, None, IfErr, IfOk, MatchOption, OnOk};
ghost use Rattle.std.specs.Prelude.{length, option_copied, option_map};
ghost use Rattle.dmlw_script.specs.LineMeaning.{as_meaning};
ghost use Rattle.dmlw_script.specs.LineMeaning as parsed_lines;
ghost use Rattle.dmlw_script.specs.inside.LineParser.{mark_of, message_of as the_message};
ghost use Rattle.dmlw_script.specs.inside.LineParser.{parse_parts};
ghost use Rattle.dmlw_script.specs.inside.LineParser.{picks_of as the_picks, plain_parts};
ghost use Rattle.dmlw_script.specs.Words.{is_skipped as is_a_skipped_line, command_line, lines_of};
ghost use Rattle.dmlw_script.specs.Words.{is_ascii_line as is_plain_line};
ghost use Rattle.dmlw_script.specs.Grammar.{IsTextOf};
ghost use Rattle.dmlw_script.specs.Plans.{ScriptValue};
ghost use Rattle.dmlw_script.specs.FirstFault.{IsFaultOf};
ghost use Rattle.dmlw_script.specs.Language.{IsReadAs};
ghost use Rattle.dmlw_script.specs.inside.Readers.{fault_of, read_text, ReadsLine};

use crate::command::Step;
use crate::draft::BodyReader;
use crate::head::{Head, HeadPart};
use crate::line::{BodyLine, HeadLine, Line, is_line_text, message_of, parse_parts};
use crate::line_error::LineError;
use crate::script::Script;
use crate::values::picks_of;
use bio::Bytes;
use refusals::{Fault, Refusal, cut};
use std::alloc::{AllocError, Global};

// A recorder's script, as far as it was read.
#[derive(Drop)]
struct ScriptReader {
    alloc: Global,
    head: Head,
    draft: BodyReader,
    // The picks of the crash that ended the script; empty if none did.
    picks: Vec<u64>,
}

impl ScriptReader {
    ghost use Rattle.dmlw_script.specs.inside.Drafts.{AgreesWithStep};
    ghost use Rattle.dmlw_script.specs.inside.Readers.{body_line, finish_step, has_begun};
    ghost use Rattle.dmlw_script.specs.inside.Readers.{line_step, unread, progress_of};
    ghost use Rattle.dmlw_script.specs.inside.Readers.{parsed_step, step_if_parsed, with_head};
    ghost use Rattle.dmlw_script.specs.inside.Readers.{FinishesReading, IsEarly, IsReader};
    ghost use Rattle.dmlw_script.specs.inside.Heads.{head_step};
    ghost use Rattle.dmlw_script.specs.Plans.{IsPlan};

    fn new(alloc: Global) -> ScriptReader
        ensures reader { IsReader result }
        ensures empty { progress_of result ≡ unread }
    {
        ScriptReader {
            alloc,
            head: Head::new(alloc),
            draft: BodyReader::new(alloc),
            picks: Vec::new(alloc),
        }
    }

    // Reads the next line.
    fn read_line(&mut self, line: &[u8]) -> Result<(), LineError>
        requires { IsReader self.old }
        ensures reader { OnOk result (IsReader self.new) }
        ensures step { AgreesWithStep result (progress_of self.new)
            (line_step (progress_of self.old) line.now) }
    {
        if !is_ascii_line(line) {
            return Err(LineError::Refused(Refusal::BadLine));
        }
        if is_skipped(line) {
            return Ok(());
        }
        let (verb, words) = cut(line, b' ');
        self.read_words(verb, words)
    }

    // Reads a line that isn't skipped. `verb` is its first word, and `words` are the other words,
    // if it has any.
    fn read_words(&mut self, verb: &[u8], words: Option<&[u8]>) -> Result<(), LineError>
        requires { IsReader self.old }
        ensures reader { OnOk result (IsReader self.new) }
        ensures step { AgreesWithStep result (progress_of self.new)
            (step_if_parsed (progress_of self.old)
            (parse_parts verb.now (option_copied words.entry))) }
    {
        if verb == b"crash".as_slice() {
            self.read_crash(words)
        } else if verb == b"mark".as_slice() {
            self.read_mark(words)
        } else if verb == b"message".as_slice() {
            self.read_message(words)
        } else {
            self.read_plain(verb, words)
        }
    }

    // Reads a line that isn't skipped, and needs no memory for its words. `verb` and `words` are as
    // in `read_words`.
    fn read_plain(&mut self, verb: &[u8], words: Option<&[u8]>) -> Result<(), LineError>
        requires { IsReader self.old }
        ensures reader { OnOk result (IsReader self.new) }
        ensures step { AgreesWithStep result (progress_of self.new)
            (step_if_parsed (progress_of self.old)
            (plain_parts verb.now (option_copied words.entry))) }
    {
        let parsed = parse_parts(verb, words).ok_or(Refusal::BadLine)?;
        self.read_parsed(parsed)
    }

    // Checks that the head has both disks, and that no crash ended the script. A line that takes
    // memory for its words takes it only after this test.
    fn check_head(&self) -> Result<(), Refusal>
        ensures whole { IfOk result (λ _. self.now.head.part ≡ HeadPart.Whole) }
        ensures refused { IfErr result (IsEarly (progress_of self.now)) }
    {
        match self.head.part {
            HeadPart::Whole => Ok(()),
            HeadPart::Nothing | HeadPart::Data | HeadPart::Ended => Err(Refusal::BadLine),
        }
    }

    // Reads a crash with the picks in these words.
    #[tactic(auto, using(crate::proofs::EarlyLines::crash_early))]
    fn read_crash(&mut self, words: Option<&[u8]>) -> Result<(), LineError>
        requires { IsReader self.old }
        ensures reader { OnOk result (IsReader self.new) }
        ensures step { AgreesWithStep result (progress_of self.new)
            (step_if_parsed (progress_of self.old)
            (option_map parsed_lines.Crash (the_picks (option_copied words.entry)))) }
        ensures memory { result ≡ Err LineError.Memory → self.old.head.part ≡ HeadPart.Whole }
    {
        self.check_head()?;
        let picks = picks_of(self.alloc, words)?;
        self.end(picks)
    }

    // Ends the script by a crash with these picks.
    fn end(&mut self, picks: Vec<u64>) -> Result<(), LineError>
        requires { IsReader self.old }
        ensures reader { OnOk result (IsReader self.new) }
        ensures step { AgreesWithStep result (progress_of self.new)
            (parsed_step (progress_of self.old) (parsed_lines.Crash picks.items)) }
    {
        let HeadPart::Whole = self.head.part else {
            return Err(LineError::Refused(Refusal::BadLine));
        };
        self.head.part = HeadPart::Ended;
        self.picks = picks;
        Ok(())
    }

    // Reads a mark with this text; None stands for a line with no space after `mark`.
    #[tactic(auto, using(crate::proofs::EarlyLines::mark_early))]
    fn read_mark(&mut self, text: Option<&[u8]>) -> Result<(), LineError>
        requires { IsReader self.old }
        ensures reader { OnOk result (IsReader self.new) }
        ensures step { AgreesWithStep result (progress_of self.new)
            (step_if_parsed (progress_of self.old) (mark_of (option_copied text.entry))) }
        ensures memory { result ≡ Err LineError.Memory → self.old.head.part ≡ HeadPart.Whole }
    {
        self.check_head()?;
        match text {
            Some(text) if is_line_text(text) => {
                let text = shared_text(self.alloc, text)?;
                self.read_parsed(Line::Body(BodyLine::Step(Step::Mark { text })))
            }
            _ => Err(LineError::Refused(Refusal::BadLine)),
        }
    }

    // Reads a message with these words: the name of a disk, the number of a layer, and the text.
    #[tactic(auto, using(crate::proofs::EarlyLines::message_early))]
    fn read_message(&mut self, words: Option<&[u8]>) -> Result<(), LineError>
        requires { IsReader self.old }
        ensures reader { OnOk result (IsReader self.new) }
        ensures step { AgreesWithStep result (progress_of self.new)
            (step_if_parsed (progress_of self.old) (the_message (option_copied words.entry))) }
        ensures memory { result ≡ Err LineError.Memory → self.old.head.part ≡ HeadPart.Whole }
    {
        self.check_head()?;
        let (over, layer, text) = message_of(words).ok_or(Refusal::BadLine)?;
        let shared = shared_text(self.alloc, text)?;
        self.read_parsed(Line::Body(BodyLine::Step(Step::Message {
            over,
            layer,
            text: shared,
        })))
    }

    // Reads the next line, which has the meaning `parsed`.
    fn read_parsed(&mut self, parsed: Line) -> Result<(), LineError>
        requires { IsReader self.old }
        ensures reader { OnOk result (IsReader self.new) }
        ensures step { AgreesWithStep result (progress_of self.new)
            (parsed_step (progress_of self.old) (as_meaning parsed)) }
    {
        match parsed {
            Line::Head(line) => self.read_head(line),
            Line::Body(line) => self.read_body(line),
        }
    }

    // Reads the next line of the head.
    fn read_head(&mut self, line: HeadLine) -> Result<(), LineError>
        requires { IsReader self.old }
        ensures reader { OnOk result (IsReader self.new) }
        ensures step { AgreesWithStep result (progress_of self.new)
            (with_head (progress_of self.old)
            (head_step (progress_of self.old).head
            (has_begun (progress_of self.old).body.body) line)) }
    {
        let began = !self.draft.commands.is_empty();
        self.head.read(self.alloc, line, began)
    }

    // Reads the next line of the body.
    fn read_body(&mut self, line: BodyLine) -> Result<(), LineError>
        requires { IsReader self.old }
        ensures reader { OnOk result (IsReader self.new) }
        ensures step { AgreesWithStep result (progress_of self.new)
            (body_line (progress_of self.old).head (progress_of self.old) line) }
    {
        match self.head.part {
            HeadPart::Whole => {
                let sectors = self.head.data_disk.top_sectors();
                self.draft.read(line, sectors, self.head.log_size)
            }
            _ => Err(LineError::Refused(Refusal::BadLine)),
        }
    }

    // Returns the script, or `BadLine` if the text ends before the lines of both disks.
    fn finish(self) -> Result<Script, LineError>
        requires { IfOk (finish_step (progress_of self)) IsPlan }
        ensures { FinishesReading result (finish_step (progress_of self)) }
    {
        let ScriptReader {
            alloc: _,
            head,
            draft,
            picks,
        } = self;
        let Head {
            part,
            data_disk,
            log_disk,
            log_size,
        } = head;
        match part {
            HeadPart::Whole => { Ok(draft.into_script(data_disk, log_disk, log_size, None)) }
            HeadPart::Ended => { Ok(draft.into_script(data_disk, log_disk, log_size, Some(picks))) }
            _ => Err(LineError::Refused(Refusal::BadLine)),
        }
    }
}

/// Reads the text of a recorder's script, in time linear in its length. Nothing is read after the
/// first fault.
///
/// A fault has the number of its line, from 1, and one of these refusals. If several fit, the first
/// in this list is reported.
///
/// `BadLine`: the line isn't of the grammar at its place. This includes a byte that is zero or not
/// ASCII, also in a comment, and an `at` that decreases the time. It includes a layer's line out of
/// its place, and a fifth layer for one disk. If the text ends inside the head, the fault is at the
/// line after the last.
///
/// `UnknownTarget`, `WrongCount`, `BadNumber`, `BadFeature` or `OutOfRange`: the table line of a
/// layer asks for no layer.
///
/// `OutOfRange`: a layer isn't within the device below it.
///
/// `BadLine`: a layer of the log disk is shorter than a sector of the log.
///
/// `BadId`: an id is submitted again, or the request that a line ends isn't open.
///
/// `NotWhole`, `TooLong`, `PastEnd` or `Unaligned`: `bio::check_sized` refuses the sectors of a
/// line. It tests them for the top of the data disk and the size of the log's sectors.
///
/// If memory runs out, the refusal is `Memory`, and the fault has no line.
pub fn read_script(alloc: Global, text: &[u8]) -> Result<Script, Fault>
    // If the result is a script, the text is a text of this script.
    ensures found { IfOk result (λ script. IsTextOf text.now script) }
    // If the text is a text of a script, the result is this script, or memory ran out.
    ensures only { (plan : ScriptValue) → IsTextOf text.now plan → IsReadAs plan result }
    // A fault names the first line at fault, or reports that memory ran out.
    ensures fault { IfErr result (λ fault. IsFaultOf text.now fault fault.line) }
{
    read(alloc, text)
}

// Reads the lines of a text in turn, up to the first fault.
fn read(alloc: Global, text: &[u8]) -> Result<Script, Fault>
    ensures { ReadsLine result (read_text text.now) }
{
    let mut reader = ScriptReader::new(alloc);
    let mut number: u64 = 1;
    let mut rest = text;
    while let Some((line, after)) = next_line(rest) {
        if let Err(error) = reader.read_line(line) {
            return Err(fault_at(number, error));
        }
        number += 1;
        rest = after;
    }
    match reader.finish() {
        Ok(script) => Ok(script),
        Err(error) => Err(fault_at(number, error)),
    }
}

/// Returns a copy of the text; cloning the copy takes no more memory.
pub(crate) fn shared_text(alloc: Global, text: &[u8]) -> Result<Bytes, AllocError>
    ensures { IfOk result (λ shared. shared ≡ text.now) }
{
    Bytes::from_vec(text.to_vec(alloc)?).into_shared()
}

/// Returns the first line of the text and the text after it; None if the text is empty.
pub(crate) fn next_line(text: &[u8]) -> Option<(&[u8], &[u8])>
    ensures { MatchOption result (text.now ≡ []) (λ next.
        (lines_of text.now ≡ next.0.now ∷ lines_of next.1.now)
        × (length next.1.now < length text.now)) }
{
    if text.is_empty() {
        return None;
    }
    let (line, after) = cut(text, b'\n');
    match after {
        Some(after) => Some((line, after)),
        None => Some((line, &[])),
    }
}

/// Returns the fault that reports an error at a line; out of memory names no line.
pub(crate) fn fault_at(line: u64, error: LineError) -> Fault
    ensures { result ≡ fault_of line error }
{
    match error {
        LineError::Memory => Fault {
            line: None,
            refusal: Refusal::Memory,
        },
        LineError::Refused(refusal) => Fault {
            line: Some(line),
            refusal,
        },
    }
}

/// Returns whether each byte of a line is ASCII, and not zero.
pub(crate) fn is_ascii_line(line: &[u8]) -> bool
    ensures { result ≡ is_plain_line line.now }
{
    line.iter().all(|byte| 0 < *byte && *byte < 128)
}

/// Returns whether a line is empty, or a comment: its first byte is `#`.
pub(crate) fn is_skipped(line: &[u8]) -> bool
    ensures { result ≡ is_a_skipped_line line.now }
{
    match line {
        [] => true,
        [first, ..] => *first == b'#',
    }
}

/// Returns the number, from 1, of the unskipped line at the index `place`; None if the text has no
/// such line. `place` counts the unskipped lines from 0, those of the head included. For a script,
/// the place of a command's line is `head_lines` more than the index of the command. The crash's
/// line comes after that of the last command. The call takes no memory, and one pass over the text.
pub fn line_of(text: &[u8], place: usize) -> Option<u64>
    ensures { result ≡ command_line text.now place }
{
    let mut left = place;
    let mut number: u64 = 1;
    let mut rest = text;
    while let Some((line, after)) = next_line(rest) {
        if !is_skipped(line) {
            if left == 0 {
                return Some(number);
            }
            left -= 1;
        }
        number += 1;
        rest = after;
    }
    None
}
