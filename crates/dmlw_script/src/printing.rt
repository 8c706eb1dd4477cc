//! Prints a recorder's script: `print_script` returns its canonical text.
ghost use Rattle.std.specs.Prelude.{◌≡◌, ◌<◌, ◌+◌, ◌^◌, ◌++◌, flat_map, length, IfOk, OnOk};
ghost use Rattle.dmlw_script.specs.Grammar.{IsTextOf, canonical_text, ended_line, ending_text};
ghost use Rattle.dmlw_script.specs.Grammar.{line_text};
ghost use Rattle.dmlw_script.specs.LineMeaning as parsed_lines;
ghost use Rattle.dmlw_script.specs.declared.line.BodyLine.TheVariants as body_lines;
ghost use Rattle.dmlw_script.specs.Plans.{count_after_command, lines_of_body, line_at, HasName};

use crate::command::{Command, Submission};
use crate::parts::push_name;
use crate::printed_head::push_head;
use crate::script::Script;
use crate::script_id::ScriptId;
use crate::steps::push_step;
use crate::submissions::{push_submission, push_word};
use refusals::push_number;
use std::alloc::{AllocError, Global};

/// Returns the canonical text of a recorder's script: no comments, no empty lines, no leading
/// zeroes, and a line feed after each line. Reading it gives the same script, unless memory runs
/// out.
pub fn print_script(alloc: Global, script: &Script) -> Result<Vec<u8>, AllocError>
    ensures spelled { IfOk result (λ text. text.items ≡ canonical_text script.now) }
    // The result is a text of this script (so `read_script` reads it as this script).
    ensures again { IfOk result (λ text. IsTextOf text.items script.now) }
{
    // For the prover: the canonical text of a script is a text of it.
    crate::laws::each_script_has_a_text();
    let mut out = Vec::new(alloc);
    push_head(&mut out, script.data(), script.log(), script.log_size())?;
    push_body(&mut out, script)?;
    push_ending(&mut out, script)?;
    Ok(out)
}

// Appends the line of the crash that ends the script, if one does.
fn push_ending(out: &mut Vec<u8>, script: &Script) -> Result<(), AllocError>
    ensures { OnOk result (out.new.items ≡ out.old.items ++ ending_text script.now.ending) }
{
    match script.crash() {
        Some(picks) => push_crash(out, picks),
        None => Ok(()),
    }
}

// Appends the line of a crash with these picks.
fn push_crash(out: &mut Vec<u8>, picks: &[u64]) -> Result<(), AllocError>
    ensures { OnOk result (out.new.items
        ≡ out.old.items ++ ended_line (parsed_lines.Crash picks.now)) }
{
    push_picks(out, picks)?;
    out.push(b'\n')?;
    Ok(())
}

// Appends the line of a crash with these picks, without its line feed.
fn push_picks(out: &mut Vec<u8>, picks: &[u64]) -> Result<(), AllocError>
    ensures { OnOk result (out.new.items
        ≡ out.old.items ++ line_text (parsed_lines.Crash picks.now)) }
{
    out.extend_from_slice(b"crash")?;
    for pick in picks {
        out.push(b' ')?;
        push_number(out, *pick)?;
    }
    Ok(())
}

// Appends the lines of a script's body.
fn push_body(out: &mut Vec<u8>, script: &Script) -> Result<(), AllocError>
    ensures { OnOk result (out.new.items
        ≡ out.old.items ++ flat_map ended_line
        (lines_of_body script.now.names 0 script.now.commands)) }
{
    let names = script.names();
    let mut before = 0;
    for command in script.commands() {
        push_command(out, names, before, command)?;
        before = submitted_after(before, command);
    }
    Ok(())
}

// Appends the line of a command. `before` requests were submitted before it.
fn push_command(
    out: &mut Vec<u8>,
    names: &[ScriptId],
    before: usize,
    command: &Command,
) -> Result<(), AllocError>
    requires { HasName (length names.now) before command.now }
    ensures { OnOk result (out.new.items
        ≡ out.old.items ++ ended_line (parsed_lines.Body (line_at names.now before command.now))) }
{
    match command {
        Command::Submit(submission) => push_submit(out, names[before], *submission)?,
        Command::Complete { request } => push_name(out, b"c ", names[*request])?,
        Command::Step(step) => push_step(out, step)?,
    }
    out.push(b'\n')?;
    Ok(())
}

// Appends the line of a submission, without its line feed.
#[tactic(auto, using(crate::proofs::Spelling::after_field))]
fn push_submit(out: &mut Vec<u8>, name: ScriptId, submission: Submission) -> Result<(), AllocError>
    ensures { OnOk result (out.new.items
        ≡ out.old.items ++ line_text (parsed_lines.Body (body_lines.Submit name submission))) }
{
    push_word(out, submission)?;
    push_name(out, b" ", name)?;
    push_submission(out, submission)
}

// Returns the number of requests submitted before the next command, if `before` were submitted
// before `command`.
fn submitted_after(before: usize, command: &Command) -> usize
    requires { before + 1 < 2 ^ 64 }
    ensures { result ≡ count_after_command before command.now }
{
    match command {
        Command::Submit(_) => before + 1,
        Command::Complete { .. } | Command::Step(_) => before,
    }
}
