//! Executes a command line (`execute`), or reports that its words can't be read (`refuse`).
ghost use Rattle.std.specs.Prelude.{◌≡◌, Bool, IfErr, OnOk, false, map, true};
ghost use Rattle.std.specs.Io.KnownBytes.{Appends, Keeps};
ghost use Rattle.std.specs.IoError.{error_kind};
ghost use Rattle.clap.specs.Words.{kind_of};
ghost use Rattle.dmlw.specs.CommandLine.{DoesWords, has_explain};
ghost use Rattle.dmlw.specs.Commands.{EndsTask, bad_word_text};
ghost use Rattle.dmlw.specs.Endings.{EndsCommand, EndsUntasked, PrintsPage, ReportsBy, ReportsPage};
ghost use Rattle.dmlw.specs.Endings.{ReportsUntasked, is_asked_for, unread_exit};
ghost use Rattle.dmlw_commands.specs.Ends.{err_stream, exit_status_of};
ghost use Rattle.dmlw_commands.specs.Seen.{seen};
ghost use Rattle.refusals.specs.Errors.{IsFileError};
ghost use Rattle.dmlw_commands.specs.declared.exit.Exit.TheVariants.{Usage};

use crate::command_line::{has_explain, read_words, unread, without_explain};
use crate::task::{BadWord, Task};
use clap::Error;
use clap::error::ErrorKind;
use dmlw_commands::copy_log::copy;
use dmlw_commands::judge_image::{judge, path};
use dmlw_commands::list::list;
use dmlw_commands::record::record;
use dmlw_commands::replay_log::replay;
use dmlw_commands::run::run;
use dmlw_commands::status::status;
use dmlw_commands::{Ended, Exit, end, report};
use dmlw_files::{Files, Session};
use refusals::{Refusal, RunError};
use std::alloc::Global;
use std::convert::AsStr;
use std::io;
use std::io::Write;
use std::sync::Wait;
use std::thread::Threads;

/// Runs a command line, and returns how it ended. The first of `words` is the program's name.
///
/// The exit status is 0 if the command is done, and 1 if it is refused or rules an image out. It is
/// 2 if the command line isn't one of the program's, and 3 if logging ended early.
///
/// Results go to the session's `out`, and faults to its `err`. If `words` have `--explain`, advice
/// may follow a fault. If `out` or a file can't be written, the command is refused.
///
/// `rt` starts threads and waits for them. Only the command `run` uses it.
///
/// The contract holds for all words: `execute` does the task that `words` ask for (`DoesWords`).
/// `crate::laws` says which words ask for which command.
pub fn execute<'a, S: AsStr, F: Files, O: Write, E: Write, H: Threads + Wait + Sync>(
    rt: &H,
    words: &'a [S],
    session: &mut Session<F, O, E>,
) -> Ended
    ensures does { DoesWords (map S.text words.entry.now)
        (seen (F.contents session.old.files) (F.writes session.old.files)
        (O.contents session.old.out) (E.contents session.old.err))
        (seen (F.contents session.new.files) (F.writes session.new.files)
        (O.contents session.new.out) (E.contents session.new.err)) result }
    ensures command { EndsCommand
        (seen (F.contents session.old.files) (F.writes session.old.files)
        (O.contents session.old.out) (E.contents session.old.err))
        (seen (F.contents session.new.files) (F.writes session.new.files)
        (O.contents session.new.out) (E.contents session.new.err)) result.exit }
    // Without `--explain`, nothing goes to `err` if the command is done. If it is refused and `err`
    // took all, `err` got exactly one line.
    ensures told { has_explain (map S.text words.entry.now) ≡ false
        → ReportsBy result.exit result (E.contents session.old.err) (E.contents session.new.err) }
{
    let alloc = session.alloc;
    session.explains = has_explain(words);
    match without_explain(alloc, words) {
        Ok(plain) => {
            let task = read_words(alloc, &plain);
            perform(rt, task, session)
        }
        Err(error) => {
            let task = unread(error);
            perform(rt, task, session)
        }
    }
}

// Does a task, and returns how it ended.
fn perform<F: Files, O: Write, E: Write, H: Threads + Wait + Sync>(
    rt: &H,
    task: Task<'_>,
    session: &mut Session<F, O, E>,
) -> Ended
    ensures { EndsTask task.entry session.old.explains
        (seen (F.contents session.old.files) (F.writes session.old.files)
        (O.contents session.old.out) (E.contents session.old.err))
        (seen (F.contents session.new.files) (F.writes session.new.files)
        (O.contents session.new.out) (E.contents session.new.err)) result }
{
    match task {
        Task::Record { script, log } => record(script, log, session),
        Task::Run { script, log } => run(rt, script, log, session),
        Task::List { log } => list(log, session),
        Task::Status { log } => status(log, session),
        Task::Replay { names, upto } => replay(names, &upto, session),
        Task::Copy { names, sectors } => copy(names, sectors.sectors(), session),
        Task::Judge {
            script,
            moment,
            image,
        } => judge(script, moment, image, session),
        Task::Path {
            script,
            moment,
            image,
        } => path(script, moment, image, session),
        Task::Formats(page) => {
            print_page(session.alloc, page, &mut session.out, &mut session.err)
        }
        Task::Show(text) => show(session.alloc, text, &mut session.out, &mut session.err),
        Task::HasBadWord(flaw, word) => report_bad_word(flaw, word, &mut session.err),
    }
}

/// Writes to `err` why the words of a command line can't be read. Returns the exit status: 2 if a
/// word isn't UTF-8 text, otherwise 1.
pub fn refuse<E: Write>(alloc: Global, error: io::Error, err: &mut E) -> u8
    ensures { result ≡ exit_status_of (unread_exit (error_kind error)) }
{
    let exit = match error.kind() {
        io::ErrorKind::InvalidData => {
            let _ = writeln!(err, "error: a word of the command line isn't UTF-8 text");
            Exit::Usage
        }
        _ => report(alloc, RunError::from(error), "", err).exit,
    };
    exit.status()
}

// Prints a page. If it can't be printed, reports the fault to `err`.
fn print_page<O: Write, E: Write>(alloc: Global, page: &str, out: &mut O, err: &mut E) -> Ended
    ensures { (explains : Bool) → ReportsPage page.now (O.contents out.old) (O.contents out.new)
        (err_stream explains (E.contents err.old) (E.contents err.new)) result }
{
    let printed = write_page(page, out);
    end(alloc, printed, "", out, err)
}

fn write_page<O: Write>(page: &str, out: &mut O) -> Result<(), RunError>
    ensures { PrintsPage page.now (O.contents out.old) (O.contents out.new) result }
{
    out.write_all(page.as_bytes())?;
    out.flush()?;
    Ok(())
}

// Prints the message about a word that has a wrong form for its argument.
fn report_bad_word<E: Write>(flaw: BadWord, word: &str, err: &mut E) -> Ended
    ensures usage { result.exit ≡ Usage }
    ensures told { result.err_taken ≡ true
        → Appends (E.contents err.old) (E.contents err.new) (bad_word_text flaw word.now) }
{
    Ended {
        exit: Exit::Usage,
        err_taken: write_bad_word(flaw, word, err).is_ok(),
    }
}

fn write_bad_word<E: Write>(flaw: BadWord, word: &str, err: &mut E) -> io::Result<()>
    ensures { OnOk result (Appends (E.contents err.old) (E.contents err.new)
        (bad_word_text flaw word.now)) }
{
    let forms = flaw.forms();
    writeln!(err, "error: invalid value '{word}' for {forms}")?;
    err.flush()?;
    Ok(())
}

// Prints clap's text: help and the version to `out`, and why a command line has no task to `err`.
fn show<O: Write, E: Write>(alloc: Global, text: Error, out: &mut O, err: &mut E) -> Ended
    ensures ends { EndsUntasked (kind_of text) result.exit }
    ensures silent { is_asked_for (kind_of text) ≡ false
        → Keeps (O.contents out.old) (O.contents out.new) }
    ensures tells { (explains : Bool) → ReportsUntasked (kind_of text)
        (err_stream explains (E.contents err.old) (E.contents err.new)) result }
{
    match text.kind() {
        ErrorKind::OutOfMemory => report(alloc, RunError::from(Refusal::Memory), "", err),
        ErrorKind::DisplayHelp | ErrorKind::DisplayVersion => {
            end(alloc, print(&text, out), "", out, err)
        }
        _ => Ended {
            exit: Exit::Usage,
            err_taken: print(&text, err).is_ok(),
        },
    }
}

fn print<W: Write>(text: &Error, to: &mut W) -> Result<(), RunError>
    ensures { IfErr result IsFileError }
{
    write!(to, "{text}")?;
    to.flush()?;
    Ok(())
}
