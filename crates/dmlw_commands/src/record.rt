//! `record SCRIPT LOG`: records the requests of a script in a new log.
ghost use Rattle.std.specs.Prelude.{◌≡◌, Err, IfErr, IfOk, List, OnOk, Option, ℕ};
ghost use Rattle.std.specs.Io.KnownBytes.{Appends};
ghost use Rattle.refusals.specs.declared.refusal.Refusal.TheVariants as refusals;
ghost use Rattle.refusals.specs.Errors.{IsFileError, refused_by};
ghost use Rattle.dmlw_commands.specs.Ends.{EndsAsCommand, ReportsLine, err_stream, exit_after, exit_of};
ghost use Rattle.dmlw_commands.specs.Ends.{fault_line};
ghost use Rattle.dmlw_commands.specs.Seen.{seen};
ghost use Rattle.dmlw_commands.specs.declared.exit.Exit.{Exit};
ghost use Rattle.std.specs.Result.{IsErrAnd};
ghost use Rattle.dmlw_files.specs.Files.{IsTooLong, KeepsFiles, MatchesContents, image_of};
ghost use Rattle.dmlw_commands.specs.Records.{FailsRecording, PrintsLog, RecordsScript, end_lines};
ghost use Rattle.dmlw_commands.specs.Records.{lies_line, of_recorder, status_line};

use crate::ending::{Ended, end_recording};
use crate::explain::explain_recording;
use bio::Status;
use dmlw_files::{Files, Session, read_text};
use dmlw_script::read_script;
use refusals::{Refusal, RunError};
use script_runner::{Lies, RunResult};
use std::alloc::Global;
use std::io::Write;

/// Executes `record SCRIPT LOG`: records the requests of a script in a new log, and returns how it
/// ended. `script` and `log` are names of files. The output goes to `out` before the log is
/// written, also if logging ended early. A fault is reported to `err`, with advice if the session
/// `explains`.
///
/// If the command is done, LOG holds the log. If logging ended early, LOG holds the log up to
/// there, unless no log could be made. If the command is refused, each file holds what it held. A
/// log never overwrites its script.
pub fn record<F: Files, O: Write, E: Write>(
    script: &str,
    log: &str,
    session: &mut Session<F, O, E>,
) -> Ended
    ensures ends { EndsAsCommand (RecordsScript of_recorder script.now log.now) exit_after session.old.explains
        (seen (F.contents session.old.files) (F.writes session.old.files)
        (O.contents session.old.out) (E.contents session.old.err))
        (seen (F.contents session.new.files) (F.writes session.new.files)
        (O.contents session.new.out) (E.contents session.new.err)) result }
    // If both names are the same, the command is refused as a file.
    ensures same { script.now ≡ log.now →
        ReportsLine (err_stream session.old.explains (E.contents session.old.err)
        (E.contents session.new.err)) Exit.Refused
        (fault_line (refused_by refusals.File)) result }
    // If a script is known to have more than 4 MiB, the command is refused.
    ensures within { IsTooLong 4194304 (F.contents session.old.files script.now)
        → result.exit ≡ Exit.Refused }
{
    let alloc = session.alloc;
    let recorded = record_script(alloc, script, log, &mut session.files, &mut session.out);
    let more = explain_recording(
        alloc,
        session.explains,
        recorded,
        script,
        log,
        &mut session.files,
    );
    end_recording(
        alloc,
        recorded,
        more.as_str(),
        &mut session.out,
        &mut session.err,
    )
}

// Records the script in the file `script`, and writes its log to the file `log`.
fn record_script<F: Files, O: Write>(
    alloc: Global,
    script: &str,
    log: &str,
    files: &mut F,
    out: &mut O,
) -> Result<Status, RunError>
    ensures did { (err : Option (List ℕ)) → RecordsScript of_recorder script.now log.now
        (seen (F.contents files.old) (F.writes files.old) (O.contents out.old) err)
        (seen (F.contents files.new) (F.writes files.new) (O.contents out.new) err) result }
    ensures same { script.now ≡ log.now → result ≡ Err (refused_by refusals.File) }
    ensures within { IsTooLong 4194304 (F.contents files.old script.now)
        → exit_after result ≡ Exit.Refused }
{
    let text = script_text(alloc, script, log, files)?;
    let RunResult { disk, status, .. } = run_text(alloc, &text, out)?;
    files.write(alloc, log, disk)?;
    Ok(status)
}

/// Reads the script in the file `script`. Refused as a file if `log`, the file of its log, is the
/// same file.
pub(crate) fn script_text<F: Files>(
    alloc: Global,
    script: &str,
    log: &str,
    files: &mut F,
) -> Result<Vec<u8>, RunError>
    ensures contents { IfOk result
        (λ text. MatchesContents (F.contents files.old script.now) text.items) }
    ensures faults { IfErr result IsFileError }
    ensures same { script.now ≡ log.now → result ≡ Err (refused_by refusals.File) }
    ensures within { IsTooLong 4194304 (F.contents files.old script.now)
        → IsErrAnd result (λ fault. exit_of fault ≡ Exit.Refused) }
    ensures kept { KeepsFiles (F.contents files.old) (F.contents files.new) }
    ensures unwritten { F.writes files.new ≡ F.writes files.old }
{
    if files.is_same(script, log) {
        return Err(RunError::from(Refusal::File));
    }
    Ok(read_text(alloc, script, files)?)
}

// Runs the script with this text, and prints its output and the log's status.
fn run_text<O: Write>(alloc: Global, text: &[u8], out: &mut O) -> Result<RunResult, RunError>
    ensures printed { (contents : Option (List ℕ)) → MatchesContents contents text.now →
        IfOk result (λ made. PrintsLog of_recorder contents made.status (image_of made.disk)
        (O.contents out.old) (O.contents out.new)) }
    ensures faults { (contents : Option (List ℕ)) → MatchesContents contents text.now →
        IfErr result
        (FailsRecording of_recorder contents (O.contents out.old) (O.contents out.new)) }
{
    let script = read_script(alloc, text)?;
    let recorded = script_runner::record(alloc, text, &script, out)?;
    print_end(recorded.status, recorded.lies, out)?;
    Ok(recorded)
}

/// Prints a log's status, and how often the layers lied if they did.
pub fn print_end<O: Write>(status: Status, lies: Lies, out: &mut O) -> Result<(), RunError>
    ensures printed { OnOk result
        (Appends (O.contents out.old) (O.contents out.new) (end_lines status lies)) }
    ensures faults { IfErr result IsFileError }
{
    print_status(status, out)?;
    print_lies(lies, out)?;
    out.flush()?;
    Ok(())
}

// Prints a log's status.
fn print_status<O: Write>(status: Status, out: &mut O) -> Result<(), RunError>
    ensures printed { OnOk result
        (Appends (O.contents out.old) (O.contents out.new) (status_line status)) }
    ensures faults { IfErr result IsFileError }
{
    writeln!(out, "{status}")?;
    Ok(())
}

// Prints how often the layers of the data disk and of the log's disk lied, if any layer lied.
fn print_lies<O: Write>(lies: Lies, out: &mut O) -> Result<(), RunError>
    ensures printed { OnOk result
        (Appends (O.contents out.old) (O.contents out.new) (lies_line lies)) }
    ensures faults { IfErr result IsFileError }
{
    if lies.data_disk == 0 && lies.log_disk == 0 {
        return Ok(());
    }
    writeln!(out, "lies {} {}", lies.data_disk, lies.log_disk)?;
    Ok(())
}
