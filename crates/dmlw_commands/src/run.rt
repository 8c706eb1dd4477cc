//! `run SCRIPT LOG`: runs the seats of a script, each in its own thread.
ghost use Rattle.std.specs.Prelude.{◌≡◌, Err, IfErr, IfOk, List, OnOk, Option, ℕ};
ghost use Rattle.std.specs.Io.KnownBytes.{Appends};
ghost use Rattle.refusals.specs.declared.refusal.Refusal.TheVariants as refusals;
ghost use Rattle.refusals.specs.Errors.{IsFileError, refused_by};
ghost use Rattle.dmlw_commands.specs.Ends.{EndsAsCommand, ReportsLine, err_stream, exit_after, fault_line};
ghost use Rattle.dmlw_commands.specs.Seen.{seen};
ghost use Rattle.dmlw_commands.specs.declared.exit.Exit.{Exit};
ghost use Rattle.dmlw_files.specs.Files.{IsTooLong, MatchesContents, image_of};
ghost use Rattle.dmlw_commands.specs.Records.{FailsRecording, PrintsLog, RecordsScript, of_seats};
ghost use Rattle.dmlw_commands.specs.Records.{seat_line, seat_lines};

use crate::explain::explain_running;
use crate::record::{print_end, script_text};
use crate::{Ended, end_recording};
use bio::Status;
use dmlw_files::{Files, Session};
use dmlw_script::read_run_script;
use refusals::RunError;
use script_runner::{Ran, Tally, run_seats};
use std::alloc::Global;
use std::io::Write;
use std::sync::Wait;
use std::thread::Threads;

/// Executes `run SCRIPT LOG`: runs the seats of a script over a new log, each in its own thread,
/// and returns how it ended. It ends like `record`, but takes the other kind of script.
pub fn run<F: Files, O: Write, E: Write, H: Threads + Wait + Sync>(
    rt: &H,
    script: &str,
    log: &str,
    session: &mut Session<F, O, E>,
) -> Ended
    ensures ends { EndsAsCommand (RecordsScript of_seats script.now log.now) exit_after session.old.explains
        (seen (F.contents session.old.files) (F.writes session.old.files)
        (O.contents session.old.out) (E.contents session.old.err))
        (seen (F.contents session.new.files) (F.writes session.new.files)
        (O.contents session.new.out) (E.contents session.new.err)) result }
    // If both names are the same, the command is refused as a file.
    ensures same { script.now ≡ log.now →
        ReportsLine (err_stream session.old.explains (E.contents session.old.err)
        (E.contents session.new.err)) Exit.Refused
        (fault_line (refused_by refusals.File)) result }
    // If a script is known to have more than 4 MiB, the command is refused.
    ensures within { IsTooLong 4194304 (F.contents session.old.files script.now)
        → result.exit ≡ Exit.Refused }
{
    let alloc = session.alloc;
    let done = run_named(rt, alloc, script, log, &mut session.files, &mut session.out);
    let more = explain_running(
        alloc,
        session.explains,
        done,
        script,
        log,
        &mut session.files,
    );
    end_recording(
        alloc,
        done,
        more.as_str(),
        &mut session.out,
        &mut session.err,
    )
}

// Runs the seats of the script in the file `script`, and writes the log to the file `log`.
fn run_named<F: Files, O: Write, H: Threads + Wait + Sync>(
    rt: &H,
    alloc: Global,
    script: &str,
    log: &str,
    files: &mut F,
    out: &mut O,
) -> Result<Status, RunError>
    ensures did { (err : Option (List ℕ)) → RecordsScript of_seats script.now log.now
        (seen (F.contents files.old) (F.writes files.old) (O.contents out.old) err)
        (seen (F.contents files.new) (F.writes files.new) (O.contents out.new) err) result }
    ensures same { script.now ≡ log.now → result ≡ Err (refused_by refusals.File) }
    ensures within { IsTooLong 4194304 (F.contents files.old script.now)
        → exit_after result ≡ Exit.Refused }
{
    let text = script_text(alloc, script, log, files)?;
    let Ran { disk, status, .. } = run_text(rt, alloc, &text, out)?;
    files.write(alloc, log, disk)?;
    Ok(status)
}

// Runs the script with this text, and prints a line for each seat and the log's status.
fn run_text<O: Write, H: Threads + Wait + Sync>(
    rt: &H,
    alloc: Global,
    text: &[u8],
    out: &mut O,
) -> Result<Ran, RunError>
    ensures printed { (contents : Option (List ℕ)) → MatchesContents contents text.now →
        IfOk result (λ ran. PrintsLog of_seats contents ran.status (image_of ran.disk)
        (O.contents out.old) (O.contents out.new)) }
    ensures faults { (contents : Option (List ℕ)) → MatchesContents contents text.now →
        IfErr result
        (FailsRecording of_seats contents (O.contents out.old) (O.contents out.new)) }
{
    let script = read_run_script(alloc, text)?;
    let ran = run_seats(rt, alloc, &script)?;
    print_seats(ran.tallies.as_slice(), out)?;
    print_end(ran.status, ran.lies, out)?;
    Ok(ran)
}

// Prints a line for each seat, in their order.
fn print_seats<O: Write>(tallies: &[Tally], out: &mut O) -> Result<(), RunError>
    ensures printed { OnOk result
        (Appends (O.contents out.old) (O.contents out.new) (seat_lines 0 tallies.now)) }
    ensures faults { IfErr result IsFileError }
{
    for number in 0..tallies.len() {
        print_seat(number, &tallies[number], out)?;
    }
    Ok(())
}

// Prints the line of one seat.
fn print_seat<O: Write>(number: usize, tally: &Tally, out: &mut O) -> Result<(), RunError>
    ensures printed { OnOk result
        (Appends (O.contents out.old) (O.contents out.new) (seat_line number tally.now)) }
    ensures faults { IfErr result IsFileError }
{
    writeln!(
        out,
        "seat {number}: {} done {} logged {} failed {} not logged {} refused",
        tally.done, tally.logged, tally.failed, tally.not_logged, tally.refused
    )?;
    Ok(())
}
