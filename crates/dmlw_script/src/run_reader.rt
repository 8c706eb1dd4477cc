//! Reads the text of a run's script. `read_run_script` returns the script, or the first line at
//! fault.
ghost use Rattle.std.specs.Prelude.{IfErr, IfOk};
ghost use Rattle.bio.specs.Requests.{bytes_of};
ghost use Rattle.dmlw_script.specs.Grammar.{IsRunText};
ghost use Rattle.dmlw_script.specs.RunPlans.{call_answer, RunPlan};
ghost use Rattle.dmlw_script.specs.Language.{IsReadAs};
ghost use Rattle.dmlw_script.specs.RunFirstFault.{IsRunFaultAt};
ghost use Rattle.dmlw_script.specs.inside.Drafts.{as_refusal, AgreesWithStep};
ghost use Rattle.dmlw_script.specs.inside.Readers.{ReadsLine, read_run_text};

use crate::draft::check_submission;
use crate::head::{Head, HeadPart};
use crate::line::HeadLine;
use crate::line_error::LineError;
use crate::reader::{fault_at, is_ascii_line, is_skipped, next_line};
use crate::run_line::{RunCall, RunLine, SeatCall, run_line_of};
use crate::run_script::RunScript;
use bio::SectorSize;
use refusals::{Fault, Refusal};
use std::alloc::Global;

/// The maximum number of seats of a run.
pub const MAX_SEATS: u64 = 64;

// A run's script, as far as it was read.
#[derive(Drop)]
struct RunReader {
    alloc: Global,
    head: Head,
    // The number of seats; None until its line is read.
    seats: Option<u64>,
    calls: Vec<SeatCall>,
}

impl RunReader {
    ghost use Rattle.std.specs.Prelude.{◌≡◌};
    ghost use Rattle.dmlw_script.specs.RunPlans.{IsRunPlan};
    ghost use Rattle.dmlw_script.specs.inside.Readers.{FinishesReading, call_line, nothing_read};
    ghost use Rattle.dmlw_script.specs.inside.Readers.{run_finish_step, run_head_step};
    ghost use Rattle.dmlw_script.specs.inside.Readers.{run_line_step, run_progress, said_step};
    ghost use Rattle.dmlw_script.specs.inside.Readers.{seats_line};

    fn new(alloc: Global) -> RunReader
        ensures { run_progress result ≡ nothing_read }
    {
        RunReader {
            alloc,
            head: Head::new(alloc),
            seats: None,
            calls: Vec::new(alloc),
        }
    }

    // Reads the next line.
    fn read_line(&mut self, line: &[u8]) -> Result<(), LineError>
        ensures { AgreesWithStep result (run_progress self.new)
            (run_line_step (run_progress self.old) line.now) }
    {
        if !is_ascii_line(line) {
            return Err(LineError::Refused(Refusal::BadLine));
        }
        if is_skipped(line) {
            return Ok(());
        }
        let said = run_line_of(self.alloc, line)?;
        self.read_said(said)
    }

    // Reads the next line, which has the meaning `said`.
    fn read_said(&mut self, said: RunLine) -> Result<(), LineError>
        ensures { AgreesWithStep result (run_progress self.new) (said_step (run_progress self.old) said) }
    {
        match said {
            RunLine::Head(line) => self.read_head(line),
            RunLine::Seats(count) => self.read_seats(count),
            RunLine::Body(line) => self.read_call(line),
        }
    }

    // Reads the next line of the head, which isn't the number of seats. No layer may come before
    // the number of seats, or after a line of the body.
    fn read_head(&mut self, line: HeadLine) -> Result<(), LineError>
        ensures { AgreesWithStep result (run_progress self.new)
            (run_head_step (run_progress self.old) line) }
    {
        let closed = self.seats.is_none() || !self.calls.is_empty();
        self.head.read(self.alloc, line, closed)
    }

    // Reads the line of the number of seats: 1 to 64, only once, and after the lines of both disks.
    fn read_seats(&mut self, count: u64) -> Result<(), LineError>
        ensures { AgreesWithStep result (run_progress self.new)
            (seats_line (run_progress self.old).head self.old.seats (run_progress self.old) count) }
    {
        match (self.head.part, self.seats) {
            (HeadPart::Whole, None) if 1 <= count && count <= MAX_SEATS => {
                self.seats = Some(count);
                Ok(())
            }
            _ => Err(LineError::Refused(Refusal::BadLine)),
        }
    }

    // Reads the next line of the body. Its seat must be below the number of seats.
    fn read_call(&mut self, line: SeatCall) -> Result<(), LineError>
        ensures { AgreesWithStep result (run_progress self.new)
            (call_line (run_progress self.old).head self.old.seats (run_progress self.old) line) }
    {
        match (self.head.part, self.seats) {
            (HeadPart::Whole, Some(seats)) if line.seat < seats => {
                check_call(
                    &line.call,
                    self.head.data_disk.top_sectors(),
                    self.head.log_size,
                )?;
                self.calls.push(line)?;
                Ok(())
            }
            _ => Err(LineError::Refused(Refusal::BadLine)),
        }
    }

    // Returns the script, or `BadLine` if the text ends before the lines of both disks and of the
    // number of seats.
    fn finish(self) -> Result<RunScript, LineError>
        requires { IfOk (run_finish_step (run_progress self)) IsRunPlan }
        ensures { FinishesReading result (run_finish_step (run_progress self)) }
    {
        let RunReader {
            alloc: _,
            head,
            seats,
            calls,
        } = self;
        let Head {
            part,
            data_disk,
            log_disk,
            log_size,
        } = head;
        match (part, seats) {
            (HeadPart::Whole, Some(seats)) => {
                Ok(RunScript::new(data_disk, log_disk, log_size, seats, calls))
            }
            _ => Err(LineError::Refused(Refusal::BadLine)),
        }
    }
}

/// Reads the text of a run's script, in time linear in its length. Nothing is read after the first
/// fault.
///
/// A fault has the number of its line, from 1, and one of these refusals. If several fit, the first
/// in this list is reported.
///
/// `BadLine`: the line isn't of the grammar at its place. This includes a byte that is zero or not
/// ASCII, also in a comment, and a seat that doesn't exist. It includes a number of seats that
/// isn't 1 to 64, and a layer's line before the number of seats. It includes a layer's line out of
/// its place, and a fifth layer for one disk. If the text ends inside the head, the fault is at the
/// line after the last.
///
/// `UnknownTarget`, `WrongCount`, `BadNumber`, `BadFeature` or `OutOfRange`: the table line of a
/// layer asks for no layer.
///
/// `OutOfRange`: a layer isn't within the device below it.
///
/// `BadLine`: a layer of the log disk is shorter than a sector of the log.
///
/// `NotWhole`, `TooLong`, `PastEnd` or `Unaligned`: `bio::check_sized` refuses the sectors of a
/// line. It tests them for the top of the data disk and the size of the log's sectors.
///
/// If memory runs out, the refusal is `Memory`, and the fault has no line.
pub fn read_run_script(alloc: Global, text: &[u8]) -> Result<RunScript, Fault>
    // If the result is a script, the text is a text of this script.
    ensures found { IfOk result (λ script. IsRunText text.now script) }
    // If the text is a text of a run's script, the result is this script, or memory ran out.
    ensures only { (plan : RunPlan) → IsRunText text.now plan → IsReadAs plan result }
    // A fault names the first line at fault, or reports that memory ran out.
    ensures fault { IfErr result (λ fault. IsRunFaultAt text.now fault fault.line) }
{
    read_run(alloc, text)
}

// Reads the lines of a text in turn, up to the first fault.
fn read_run(alloc: Global, text: &[u8]) -> Result<RunScript, Fault>
    ensures { ReadsLine result (read_run_text text.now) }
{
    let mut reader = RunReader::new(alloc);
    let mut number: u64 = 1;
    let mut rest = text;
    while let Some((line, after)) = next_line(rest) {
        if let Err(error) = reader.read_line(line) {
            return Err(fault_at(number, error));
        }
        number += 1;
        rest = after;
    }
    match reader.finish() {
        Ok(script) => Ok(script),
        Err(error) => Err(fault_at(number, error)),
    }
}

// Checks the sectors that a call covers, for a disk of `sectors` sectors and log sectors of the
// size `log_size`.
fn check_call(call: &RunCall, sectors: u64, log_size: SectorSize) -> Result<(), LineError>
    ensures { AgreesWithStep result tt (as_refusal (call_answer (bytes_of log_size) sectors call.now)) }
{
    match call {
        RunCall::Submit(submission) => check_submission(*submission, sectors, log_size),
        RunCall::Mark { .. } => Ok(()),
    }
}
