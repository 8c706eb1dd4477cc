//! `replay LOG FIRST OUT WHAT`: applies a log's entries to an image, up to the entry that WHAT
//! names.
ghost use Rattle.std.specs.Prelude.{◌≡◌, ◌⊎◌, Err, IfErr, IfOk, List, OnOk, Option, ℕ};
ghost use Rattle.std.specs.Io.KnownBytes.{Appends};
ghost use Rattle.refusals.specs.Errors.{IsFileError, refused_by};
ghost use Rattle.dmlw_commands.specs.declared.exit.Exit.{Exit};
ghost use Rattle.refusals.specs.declared.refusal.Refusal.TheVariants as refusals;
ghost use Rattle.dmlw_commands.specs.Ends.{EndsAsCommand, ReportsLine, err_stream, exit_by, fault_line};
ghost use Rattle.dmlw_commands.specs.Seen.{seen};
ghost use Rattle.dmlw_files.specs.Files.{KeepsFiles, image_of};
ghost use Rattle.dmlw_commands.specs.Replays.{FailsReplay, IsReplayedFrom, ReplaysLog, replayed_line};

use crate::explain::{ReplayNames, explain_replaying};
use crate::replay_log::images::{Replayed, replay_images};
use crate::{Ended, Exit, end};
use dmlw_files::{Files, Session, read_image};
use refusals::{Refusal, RunError};
use replay::Upto;
use std::alloc::Global;
use std::io::Write;

/// Executes `replay LOG FIRST OUT WHAT`, and returns how it ended. It applies the entries of the
/// log in the file LOG to the image in the file FIRST, up to the entry that `upto` names. The file
/// OUT gets the resulting image.
///
/// The number of applied entries goes to `out` before the image is written. A fault is reported to
/// `err`, with advice if the session `explains`. OUT may be FIRST. If OUT and LOG are one file, the
/// command is refused as a file.
///
/// An entry's place and length count sectors of the log. A FUA entry is applied as any other. Both
/// images have whole sectors of 512 bytes, from 1 to 1,048,576. If the command is done, OUT holds
/// the image. If it is refused, each file holds what it held.
pub fn replay<F: Files, O: Write, E: Write>(
    names: ReplayNames,
    upto: &Upto,
    session: &mut Session<F, O, E>,
) -> Ended
    ensures ends { EndsAsCommand (ReplaysLog names.entry.log.now names.entry.first.now names.entry.out.now
        upto.now) exit_by session.old.explains
        (seen (F.contents session.old.files) (F.writes session.old.files)
        (O.contents session.old.out) (E.contents session.old.err))
        (seen (F.contents session.new.files) (F.writes session.new.files)
        (O.contents session.new.out) (E.contents session.new.err)) result }
    ensures exits { (result.exit ≡ Exit.Done) ⊎ (result.exit ≡ Exit.Refused) }
    // If LOG and OUT are the same name, the command is refused as a file.
    ensures same { names.entry.log.now ≡ names.entry.out.now →
        ReportsLine (err_stream session.old.explains (E.contents session.old.err)
        (E.contents session.new.err)) Exit.Refused
        (fault_line (refused_by refusals.File)) result }
{
    let alloc = session.alloc;
    let done = replay_files(alloc, names, upto, &mut session.files, &mut session.out);
    let more = explain_replaying(alloc, session.explains, done, names, &mut session.files);
    end(
        alloc,
        done,
        more.as_str(),
        &mut session.out,
        &mut session.err,
    )
}

// Replays the log in a file, prints the number of entries, and writes the image.
fn replay_files<F: Files, O: Write>(
    alloc: Global,
    names: ReplayNames,
    upto: &Upto,
    files: &mut F,
    out: &mut O,
) -> Result<u64, RunError>
    ensures did { (err : Option (List ℕ)) → ReplaysLog names.entry.log.now names.entry.first.now
        names.entry.out.now upto.now
        (seen (F.contents files.old) (F.writes files.old) (O.contents out.old) err)
        (seen (F.contents files.new) (F.writes files.new) (O.contents out.new) err) result }
    ensures same { names.entry.log.now ≡ names.entry.out.now
        → result ≡ Err (refused_by refusals.File) }
{
    if files.is_same(names.log, names.out) {
        return Err(RunError::from(Refusal::File));
    }
    let Replayed { count, disk } = replay_named(alloc, names.log, names.first, upto, files)?;
    print_count(count, out)?;
    files.write(alloc, names.out, disk)?;
    Ok(count)
}

// Replays the log in the file `log` on the image in the file `first`, and writes no file.
fn replay_named<F: Files>(
    alloc: Global,
    log: &str,
    first: &str,
    upto: &Upto,
    files: &mut F,
) -> Result<Replayed, RunError>
    ensures replayed { IfOk result (λ done.
        IsReplayedFrom (F.contents files.old log.now)
        (F.contents files.old first.now) upto.now done.count (image_of done.disk)) }
    ensures fails { IfErr result
        (FailsReplay (F.contents files.old log.now) (F.contents files.old first.now) upto.now) }
    ensures kept { KeepsFiles (F.contents files.old) (F.contents files.new) }
    ensures unwritten { F.writes files.new ≡ F.writes files.old }
{
    let log = read_image(alloc, log, files)?;
    let first = read_image(alloc, first, files)?;
    replay_images(alloc, log, first, upto)
}

// Prints the number of replayed entries.
fn print_count<O: Write>(count: u64, out: &mut O) -> Result<(), RunError>
    ensures printed { OnOk result
        (Appends (O.contents out.old) (O.contents out.new) (replayed_line count)) }
    ensures fails { IfErr result IsFileError }
{
    writeln!(out, "replayed {count}")?;
    out.flush()?;
    Ok(())
}
