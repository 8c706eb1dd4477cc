// `copy LOG OUT SECTORS`: copies the log in a file, and writes the image of the new one.
ghost use Rattle.std.specs.Prelude.{◌≡◌, ◌≤◌, ◌⊎◌, Err, IfErr, IfOk, List, OnOk, Option, ℕ};
ghost use Rattle.std.specs.Io.KnownBytes.{Appends};
ghost use Rattle.refusals.specs.Errors.{IsFileError, refused_by};
ghost use Rattle.dmlw_commands.specs.declared.exit.Exit.{Exit};
ghost use Rattle.refusals.specs.declared.refusal.Refusal.TheVariants as refusals;
ghost use Rattle.dmlw_commands.specs.Ends.{EndsAsCommand, ReportsLine, err_stream, exit_by, fault_line};
ghost use Rattle.dmlw_commands.specs.Seen.{seen};
ghost use Rattle.dmlw_files.specs.Files.{KeepsFiles, image_of};
ghost use Rattle.dmlw_commands.specs.LogCopies.{Copies, FailsCopy, IsCopiedFrom, copied_line};

use crate::copy_log::images::{Copied, copy_image};
use crate::explain::{CopyNames, explain_copying};
use crate::{Ended, Exit, end};
use dmlw_files::{Files, Session, read_image};
use refusals::{Refusal, RunError};
use std::alloc::Global;
use std::io::Write;

/// Executes `copy LOG OUT SECTORS`, and returns how it ended. It copies the log in the file LOG to
/// a new log with sectors of 4,096 bytes. The new log's disk has `sectors` sectors of 512 bytes,
/// from 8 to 1,048,576; the file OUT gets its image.
///
/// The number of copied entries goes to `out` before the image is written. A fault is reported to
/// `err`, with advice if the session `explains`. If OUT and LOG are one file, the command is
/// refused as a file.
///
/// Each entry keeps its flags, its body, and its place and length in bytes. The copy stops before
/// an entry whose place or length isn't a multiple of 4,096 bytes. It also stops before an entry
/// that doesn't fit, and at a fault of the log. Then nothing is written.
///
/// If the command is done, OUT holds the image of the new log's disk. If it is refused, each file
/// holds what it held.
pub fn copy<F: Files, O: Write, E: Write>(
    names: CopyNames,
    sectors: u64,
    session: &mut Session<F, O, E>,
) -> Ended
    requires least { 8 ≤ sectors }
    requires most { sectors ≤ 1048576 }
    ensures ends { EndsAsCommand (Copies names.entry.log.now names.entry.out.now sectors) exit_by session.old.explains
        (seen (F.contents session.old.files) (F.writes session.old.files)
        (O.contents session.old.out) (E.contents session.old.err))
        (seen (F.contents session.new.files) (F.writes session.new.files)
        (O.contents session.new.out) (E.contents session.new.err)) result }
    ensures exits { (result.exit ≡ Exit.Done) ⊎ (result.exit ≡ Exit.Refused) }
    // If LOG and OUT are the same name, the command is refused as a file.
    ensures same { names.entry.log.now ≡ names.entry.out.now →
        ReportsLine (err_stream session.old.explains (E.contents session.old.err)
        (E.contents session.new.err)) Exit.Refused
        (fault_line (refused_by refusals.File)) result }
{
    let alloc = session.alloc;
    let done = copy_file(alloc, names, sectors, &mut session.files, &mut session.out);
    let more = explain_copying(alloc, session.explains, done, names, &mut session.files);
    end(
        alloc,
        done,
        more.as_str(),
        &mut session.out,
        &mut session.err,
    )
}

// Copies the log in a file, prints the number of entries, and writes the image.
fn copy_file<F: Files, O: Write>(
    alloc: Global,
    names: CopyNames,
    sectors: u64,
    files: &mut F,
    out: &mut O,
) -> Result<u64, RunError>
    requires least { 8 ≤ sectors }
    requires most { sectors ≤ 1048576 }
    ensures did { (err : Option (List ℕ)) → Copies names.entry.log.now names.entry.out.now sectors
        (seen (F.contents files.old) (F.writes files.old) (O.contents out.old) err)
        (seen (F.contents files.new) (F.writes files.new) (O.contents out.new) err) result }
    ensures same { names.entry.log.now ≡ names.entry.out.now
        → result ≡ Err (refused_by refusals.File) }
{
    if files.is_same(names.log, names.out) {
        return Err(RunError::from(Refusal::File));
    }
    let Copied { count, disk } = copy_named(alloc, names.log, sectors, files)?;
    print_count(count, out)?;
    files.write(alloc, names.out, disk)?;
    Ok(count)
}

// Copies the log in the file `log`, and writes no file.
fn copy_named<F: Files>(
    alloc: Global,
    log: &str,
    sectors: u64,
    files: &mut F,
) -> Result<Copied, RunError>
    requires least { 8 ≤ sectors }
    requires most { sectors ≤ 1048576 }
    ensures copied { IfOk result
        (λ done. IsCopiedFrom (F.contents files.old log.now) done.count sectors
        (image_of done.disk)) }
    ensures fails { IfErr result (FailsCopy (F.contents files.old log.now) sectors) }
    ensures kept { KeepsFiles (F.contents files.old) (F.contents files.new) }
    ensures unwritten { F.writes files.new ≡ F.writes files.old }
{
    let log = read_image(alloc, log, files)?;
    copy_image(alloc, log, sectors)
}

// Prints the number of copied entries.
fn print_count<O: Write>(count: u64, out: &mut O) -> Result<(), RunError>
    ensures printed { OnOk result
        (Appends (O.contents out.old) (O.contents out.new) (copied_line count)) }
    ensures fails { IfErr result IsFileError }
{
    writeln!(out, "copied {count}")?;
    out.flush()?;
    Ok(())
}
