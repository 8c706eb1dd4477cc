//! The error that ends a command early (`RunError`); the commands return it. It holds a refusal as
//! it is printed (`Fault`), or a cause that ends logging (`End`).
ghost use Rattle.std.specs.Prelude.{◌≡◌, Some};
ghost use Rattle.std.specs.IoError.{error_kind};
ghost use Rattle.refusals.specs.Errors.{end_refusal, error_text, fault_of, fault_text, io_refusal};
ghost use Rattle.refusals.specs.Errors.{memory_error, refused_by, taken_before, without_line};
ghost use Rattle.refusals.specs.declared.run_error.RunError.TheVariants.{Refused, LoggingEnded};

use crate::refusal::Refusal;
use std::alloc::AllocError;
use std::{fmt, io};
use thiserror::Error;

/// Why logging ended.
#[derive(Clone, Copy, Debug, PartialEq, Eq, Error)]
pub enum End {
    /// The next entry doesn't fit in the log.
    #[error("the log is full")]
    Full,
    /// The log's device failed.
    #[error("the log's device failed")]
    Device,
    /// An allocation failed.
    #[error("no memory for the log")]
    Memory,
}

impl From<End> for Refusal {
    ghost from_gives = { λ end refusal. refusal ≡ end_refusal end };

    fn from(end: End) -> Refusal {
        match end {
            End::Full => Refusal::Full,
            End::Device => Refusal::Device,
            End::Memory => Refusal::EndMemory,
        }
    }
}

/// A refusal, and for a script the line at fault.
#[derive(Clone, Copy, Debug, PartialEq, Eq)]
pub struct Fault {
    /// The line at fault, counted from 1; none if no line is to blame, as when memory ran out.
    pub line: Option<u64>,
    pub refusal: Refusal,
}

/// Prints `line <n>: <number> <name>`, or `<number> <name>` if no line is at fault.
impl fmt::Display for Fault {
    ghost output = { λ fault. Some (fault_text fault) };

    fn fmt<W: fmt::Write>(&self, f: &mut fmt::Formatter<W>) -> fmt::Result {
        let refusal = self.refusal;
        match self.line {
            Some(line) => write!(f, "line {line}: {refusal}"),
            None => write!(f, "{refusal}"),
        }
    }
}

impl std::error::Error for Fault {}

impl From<Refusal> for Fault {
    ghost from_gives = { λ refusal fault. fault ≡ without_line refusal };

    fn from(refusal: Refusal) -> Fault {
        Fault {
            line: None,
            refusal,
        }
    }
}

/// Why a command ended early. Printed as its fault (`Fault`). If a replay or a copy of a log
/// stopped, ` after <n> entries` follows: it had taken n entries.
#[derive(Clone, Copy, Debug, PartialEq, Eq)]
pub enum RunError {
    /// The command was refused; for a script, the fault may name a line.
    Refused(Fault),
    /// Logging ended before the command was done.
    LoggingEnded(End),
    /// A replay or a copy of a log stopped after `applied` of its entries.
    StoppedAfter { applied: u64, refusal: Refusal },
}

impl RunError {
    /// Returns the error's fault: a script's line, if one is at fault, and a refusal.
    pub fn fault(self) -> Fault
        ensures { result ≡ fault_of self }
    {
        match self {
            RunError::Refused(fault) => fault,
            RunError::LoggingEnded(end) => Fault::from(Refusal::from(end)),
            RunError::StoppedAfter { refusal, .. } => Fault::from(refusal),
        }
    }

    /// Returns how many entries a replay or a copy had taken when it stopped; 0 for other errors.
    pub fn applied(self) -> u64
        ensures { result ≡ taken_before self }
    {
        match self {
            RunError::StoppedAfter { applied, .. } => applied,
            _ => 0,
        }
    }
}

impl fmt::Display for RunError {
    ghost output = { λ error. Some (error_text error) };

    fn fmt<W: fmt::Write>(&self, f: &mut fmt::Formatter<W>) -> fmt::Result {
        match self {
            RunError::Refused(fault) => write!(f, "{fault}"),
            RunError::LoggingEnded(end) => {
                let refusal = Refusal::from(*end);
                write!(f, "{refusal}")
            }
            RunError::StoppedAfter { applied, refusal } => {
                write!(f, "{refusal} after {applied} entries")
            }
        }
    }
}

impl std::error::Error for RunError {}

impl From<Fault> for RunError {
    ghost from_gives = { λ fault error. error ≡ Refused fault };

    fn from(fault: Fault) -> RunError {
        RunError::Refused(fault)
    }
}

impl From<Refusal> for RunError {
    ghost from_gives = { λ refusal error. error ≡ refused_by refusal };

    fn from(refusal: Refusal) -> RunError {
        RunError::Refused(Fault::from(refusal))
    }
}

impl From<io::Error> for RunError {
    ghost from_gives = { λ io_error error. error ≡ refused_by (io_refusal (error_kind io_error)) };

    fn from(error: io::Error) -> RunError {
        match error.kind() {
            io::ErrorKind::OutOfMemory => RunError::from(Refusal::Memory),
            _ => RunError::from(Refusal::File),
        }
    }
}

impl From<AllocError> for RunError {
    ghost from_gives = { λ _ error. error ≡ memory_error };

    fn from(_error: AllocError) -> RunError {
        RunError::from(Refusal::Memory)
    }
}

impl From<End> for RunError {
    ghost from_gives = { λ end error. error ≡ LoggingEnded end };

    fn from(end: End) -> RunError {
        RunError::LoggingEnded(end)
    }
}
