//! The exit status of a command.
ghost use Rattle.std.specs.Prelude.{◌≡◌};
ghost use Rattle.dmlw_commands.specs.Ends.{exit_at, exit_of, exit_status_of};

use bio::End;
use refusals::RunError;

/// How a command ended.
#[derive(Clone, Copy, Debug, PartialEq, Eq)]
pub enum Exit {
    /// The command did what it was asked to do.
    Done,
    /// The command was refused.
    Refused,
    /// The command line isn't one of the program's.
    Usage,
    /// Logging ended early: the log has the entries up to there, or no log could be made.
    LoggingEnded,
    /// The command found that the image isn't possible.
    RuledOut,
}

impl Exit {
    pub fn status(self) -> u8
        ensures { result ≡ exit_status_of self }
    {
        match self {
            Exit::Done => 0,
            Exit::Refused => 1,
            Exit::Usage => 2,
            Exit::LoggingEnded => 3,
            Exit::RuledOut => 1,
        }
    }
}

impl From<Option<End>> for Exit {
    ghost from_gives = { λ end exit. exit ≡ exit_at end };

    fn from(end: Option<End>) -> Exit {
        match end {
            None => Exit::Done,
            Some(_) => Exit::LoggingEnded,
        }
    }
}

impl From<RunError> for Exit {
    ghost from_gives = { λ fault exit. exit ≡ exit_of fault };

    fn from(fault: RunError) -> Exit {
        match fault {
            RunError::Refused(_) => Exit::Refused,
            RunError::LoggingEnded(_) => Exit::LoggingEnded,
            RunError::StoppedAfter { .. } => Exit::Refused,
        }
    }
}
