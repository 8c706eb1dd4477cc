//! How a command ends: its exit, and the line that reports a fault.
ghost use Rattle.std.specs.Prelude.{◌≡◌, ◌++◌, [], Err, OnOk, true};
ghost use Rattle.std.specs.Io.KnownBytes.{Appends, Keeps};
ghost use Rattle.dmlw_commands.specs.declared.exit.Exit.{Exit};
ghost use Rattle.dmlw_commands.specs.Ends.{exit_after, exit_by, exit_of, fault_line, reported_line};

use crate::exit::Exit;
use bio::Status;
use refusals::RunError;
use std::alloc::Global;
use std::io;
use std::io::Write;

/// How a command ended, and whether the error stream took all that was written to it.
#[derive(Clone, Copy, Debug, PartialEq, Eq)]
pub struct Ended {
    pub exit: Exit,
    pub err_taken: bool,
}

/// Ends a command with the result `done`. If it is a fault, flushes `out`, and then writes the
/// fault's line and `more` to `err`. Otherwise only `more` goes to `err`.
pub fn end<T: Copy, O: Write, E: Write>(
    alloc: Global,
    done: Result<T, RunError>,
    more: &str,
    out: &mut O,
    err: &mut E,
) -> Ended
    ensures exit { result.exit ≡ exit_by done }
    ensures kept { Keeps (O.contents out.old) (O.contents out.new) }
    ensures quiet { reported_line done ≡ [] → more.now ≡ []
        → E.contents err.new ≡ E.contents err.old }
    ensures told { result.err_taken ≡ true
        → Appends (E.contents err.old) (E.contents err.new) (reported_line done ++ more.now) }
{
    match done {
        Ok(_) => end_well(Exit::Done, more, err),
        Err(fault) => {
            let _ = out.flush();
            report(alloc, fault, more, err)
        }
    }
}

/// Ends a recording with the result `done`. If logging ended early, the exit is `LoggingEnded`, and
/// only `more` goes to `err`. If the recording failed, the fault is reported as by `end`.
pub fn end_recording<O: Write, E: Write>(
    alloc: Global,
    done: Result<Status, RunError>,
    more: &str,
    out: &mut O,
    err: &mut E,
) -> Ended
    ensures exit { result.exit ≡ exit_after done }
    ensures kept { Keeps (O.contents out.old) (O.contents out.new) }
    ensures quiet { reported_line done ≡ [] → more.now ≡ []
        → E.contents err.new ≡ E.contents err.old }
    ensures told { result.err_taken ≡ true
        → Appends (E.contents err.old) (E.contents err.new) (reported_line done ++ more.now) }
{
    match done {
        Ok(status) => end_well(Exit::from(status.end), more, err),
        Err(_) => end(alloc, done, more, out, err),
    }
}

/// Ends a command that reports no fault: only `more` goes to `err`.
pub fn end_well<E: Write>(exit: Exit, more: &str, err: &mut E) -> Ended
    ensures exit { result.exit ≡ exit }
    ensures quiet { more.now ≡ [] → E.contents err.new ≡ E.contents err.old }
    ensures told { result.err_taken ≡ true
        → Appends (E.contents err.old) (E.contents err.new) more.now }
{
    Ended {
        exit,
        err_taken: more.is_empty() || tell(more, err).is_ok(),
    }
}

/// Writes a fault's line and `more` to `err`, in one write if there is memory to join them.
pub fn report<E: Write>(alloc: Global, fault: RunError, more: &str, err: &mut E) -> Ended
    ensures exit { result.exit ≡ exit_of fault }
    ensures told { result.err_taken ≡ true
        → Appends (E.contents err.old) (E.contents err.new) (fault_line fault ++ more.now) }
{
    Ended {
        exit: Exit::from(fault),
        err_taken: tell_fault(alloc, fault, more, err).is_ok(),
    }
}

// Writes a fault's line and `more`: in one write, or in parts if there is no memory to join them.
fn tell_fault<E: Write>(alloc: Global, fault: RunError, more: &str, err: &mut E) -> io::Result<()>
    ensures { OnOk result (Appends (E.contents err.old) (E.contents err.new)
        (fault_line fault ++ more.now)) }
{
    match format!(in alloc; "dmlw: {fault}\n{more}") {
        Ok(text) => tell(&text, err),
        Err(_) => {
            write!(err, "dmlw: {fault}\n{more}")?;
            err.flush()
        }
    }
}

// Writes and flushes a text.
fn tell<E: Write>(text: &str, err: &mut E) -> io::Result<()>
    ensures { OnOk result (Appends (E.contents err.old) (E.contents err.new) text.now) }
{
    err.write_all(text.as_bytes())?;
    err.flush()
}
