//! A step of a device with a cache, its text, and why a step isn't taken.
ghost use Rattle.std.specs.Prelude.{Some, ◌≡◌};
ghost use Rattle.world.specs.declared.step.StepError.TheVariants as errors;
ghost use Rattle.world.specs.Texts.{end_text, step_refusal, step_text};

use bio::Id;
use refusals::Refusal;
use std::alloc::AllocError;
use std::fmt;
use thiserror::Error;

/// A step of a device with a cache. An id is the index of the request's submission in the event
/// list; sectors are counted from 0. The text of a step is `submit <id>`, `land <id> <sector>`,
/// `destage <sector>`, `end <id> ok`, `end <id> failed` or `power`.
#[derive(Clone, Copy, Debug, PartialEq, Eq)]
pub enum Step {
    /// The request is submitted.
    Submit(Id),
    /// The request's value for this sector, which the request covers, lands in the cache.
    Land(Id, u64),
    /// The newest value that landed in this sector becomes durable.
    Destage(u64),
    /// The request ends, with success if the flag is true.
    End(Id, bool),
    /// Power fails: only the durable content stays.
    Power,
}

impl fmt::Display for Step {
    ghost output = { λ step. Some (step_text step) };

    fn fmt<W: fmt::Write>(&self, f: &mut fmt::Formatter<W>) -> fmt::Result {
        match *self {
            Step::Submit(id) => {
                let place = id.place();
                write!(f, "submit {place}")
            }
            Step::Land(id, sector) => {
                let place = id.place();
                write!(f, "land {place} {sector}")
            }
            Step::Destage(sector) => write!(f, "destage {sector}"),
            Step::End(id, ok) => {
                let place = id.place();
                let result = RequestEnd(ok);
                write!(f, "end {place} {result}")
            }
            Step::Power => f.write_str("power"),
        }
    }
}

// How a request ended.
#[derive(Clone, Copy)]
struct RequestEnd(bool);

impl fmt::Display for RequestEnd {
    ghost output = { λ ended. Some (end_text ended.0) };

    fn fmt<W: fmt::Write>(&self, f: &mut fmt::Formatter<W>) -> fmt::Result {
        if self.0 {
            f.write_str("ok")
        } else {
            f.write_str("failed")
        }
    }
}

/// Why a step isn't taken.
#[derive(Clone, Copy, Debug, PartialEq, Eq, Error)]
pub enum StepError {
    /// The device can't take this step.
    #[error("the device can't take this step")]
    BadStep,
    /// An allocation failed.
    #[error("no memory")]
    Memory,
}

impl From<StepError> for Refusal {
    ghost from_gives = { λ error refusal. refusal ≡ step_refusal error };

    fn from(error: StepError) -> Refusal {
        match error {
            StepError::BadStep => Refusal::BadStep,
            StepError::Memory => Refusal::Memory,
        }
    }
}

impl From<AllocError> for StepError {
    ghost from_gives = { λ _ error. error ≡ errors.Memory };

    fn from(_error: AllocError) -> StepError {
        StepError::Memory
    }
}
