//! Prints a run's script: `print_run_script` returns its canonical text.
ghost use Rattle.std.specs.Prelude.{◌≡◌, ◌++◌, flat_map, map, IfOk, OnOk};
ghost use Rattle.dmlw_script.specs.Grammar.{IsRunText, call_line, ended_run_line, run_text};
ghost use Rattle.dmlw_script.specs.Grammar.{seats_line};
ghost use Rattle.dmlw_script.specs.RunPlans.{run_head};
ghost use Rattle.dmlw_script.specs.Fields.{call_fields, fields_text};

use crate::parts::push_value;
use crate::printed_head::{push_disk_layers, push_disks};
use crate::run_line::{RunCall, SeatCall};
use crate::run_script::RunScript;
use crate::steps::push_mark;
use crate::submissions::{push_submission, push_word};
use std::alloc::{AllocError, Global};

/// Returns the canonical text of a run's script: no comments, no empty lines, no leading zeroes,
/// and a line feed after each line. Reading it gives the same script, unless memory runs out.
pub fn print_run_script(alloc: Global, script: &RunScript) -> Result<Vec<u8>, AllocError>
    ensures spelled { IfOk result (λ text. text.items ≡ run_text script.now) }
    // The result is a text of this script (so `read_run_script` reads it as this script).
    ensures again { IfOk result (λ text. IsRunText text.items script.now) }
{
    // For the prover: the canonical text of a run's script is a text of it.
    crate::laws::each_run_script_has_a_text();
    let mut out = Vec::new(alloc);
    push_run_head(&mut out, script)?;
    push_calls(&mut out, script.calls())?;
    Ok(out)
}

// Appends the lines of a run's head: the disks, the number of seats, and the layers.
#[tactic(auto, using(crate::proofs::Spelling::run_head_written))]
fn push_run_head(out: &mut Vec<u8>, script: &RunScript) -> Result<(), AllocError>
    ensures { OnOk result (out.new.items
        ≡ out.old.items ++ flat_map ended_run_line (run_head script.now)) }
{
    let data_disk = script.data();
    let log_disk = script.log();
    push_disks(
        out,
        data_disk.sectors(),
        log_disk.sectors(),
        script.log_size(),
    )?;
    push_seats(out, script.seats())?;
    push_disk_layers(out, data_disk, log_disk)
}

// Appends the line of the number of seats.
fn push_seats(out: &mut Vec<u8>, seats: u64) -> Result<(), AllocError>
    ensures { OnOk result (out.new.items ≡ out.old.items ++ ended_run_line (seats_line seats)) }
{
    push_value(out, b"seats ", seats)?;
    out.push(b'\n')?;
    Ok(())
}

// Appends the lines of the seats' calls.
fn push_calls(out: &mut Vec<u8>, calls: &[SeatCall]) -> Result<(), AllocError>
    ensures { OnOk result (out.new.items
        ≡ out.old.items ++ flat_map ended_run_line (map call_line calls.now)) }
{
    for call in calls {
        push_seat_call(out, call)?;
    }
    Ok(())
}

// Appends the line of a seat's call.
fn push_seat_call(out: &mut Vec<u8>, line: &SeatCall) -> Result<(), AllocError>
    ensures { OnOk result (out.new.items ≡ out.old.items ++ ended_run_line (call_line line.now)) }
{
    push_value(out, b"s", line.seat)?;
    out.push(b' ')?;
    push_call(out, &line.call)?;
    out.push(b'\n')?;
    Ok(())
}

// Appends the words of a call, after its seat and a space.
fn push_call(out: &mut Vec<u8>, call: &RunCall) -> Result<(), AllocError>
    ensures { OnOk result (out.new.items ≡ out.old.items ++ fields_text (call_fields call.now)) }
{
    match call {
        RunCall::Submit(submission) => {
            push_word(out, *submission)?;
            push_submission(out, *submission)
        }
        RunCall::Mark { text } => push_mark(out, text.as_slice()),
    }
}
