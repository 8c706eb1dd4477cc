//! Why a line stops the run of a script.
ghost use Rattle.std.specs.Prelude.{◌≡◌};
ghost use Rattle.std.specs.IoError.{error_kind};
ghost use Rattle.refusals.specs.Errors.{io_refusal, memory_error, refused_by};
ghost use Rattle.script_runner.specs.declared.step_error.StepError.TheVariants.{AtLine, Whole};

use refusals::{Refusal, RunError};
use std::alloc::{AllocError, AllocFailed};
use std::io;
use thiserror::Error;

/// The reason for which a line stops the run of a script.
#[derive(Clone, Copy, Debug, PartialEq, Eq, Error)]
pub enum StepError {
    /// The line is refused. The fault will name this line.
    #[error("the line is refused: {0}")]
    AtLine(Refusal),
    /// The run ends with this fault, which names no line.
    #[error("{0}")]
    Whole(RunError),
}

impl<T: Drop> From<AllocFailed<T>> for StepError {
    ghost from_gives = { λ _ stop. stop ≡ Whole memory_error };

    fn from(_error: AllocFailed<T>) -> StepError {
        StepError::Whole(RunError::from(Refusal::Memory))
    }
}

impl From<AllocError> for StepError {
    ghost from_gives = { λ _ stop. stop ≡ Whole memory_error };

    fn from(error: AllocError) -> StepError {
        StepError::Whole(RunError::from(error))
    }
}

impl From<io::Error> for StepError {
    ghost from_gives = { λ error stop.
        stop ≡ Whole (refused_by (io_refusal (error_kind error))) };

    fn from(error: io::Error) -> StepError {
        StepError::Whole(RunError::from(error))
    }
}
