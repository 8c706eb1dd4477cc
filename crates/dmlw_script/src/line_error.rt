//! Why reading a script fails: an allocation failed, or a line is at fault.
ghost use Rattle.std.specs.Prelude.{◌≡◌};
ghost use Rattle.dmlw_script.specs.declared.line_error.LineError.TheVariants.{Memory};
ghost use Rattle.dmlw_script.specs.declared.line_error.LineError.TheVariants as line_errors;
ghost use Rattle.bio.specs.Refusals.{bad_bio_refusal};
ghost use Rattle.layer_table.specs.TableLines.{table_refusal};

use bio::BadBio;
use layer_table::TableError;
use refusals::Refusal;
use std::alloc::{AllocError, AllocFailed};

/// Why reading a line fails.
#[derive(Clone, Copy)]
pub(crate) enum LineError {
    /// An allocation failed.
    Memory,
    /// The line is refused.
    Refused(Refusal),
}

impl<T: Drop> From<AllocFailed<T>> for LineError {
    ghost from_gives = { λ _ stop. stop ≡ Memory };

    fn from(_failed: AllocFailed<T>) -> LineError {
        LineError::Memory
    }
}

impl From<AllocError> for LineError {
    ghost from_gives = { λ _ stop. stop ≡ Memory };

    fn from(_error: AllocError) -> LineError {
        LineError::Memory
    }
}

impl From<Refusal> for LineError {
    ghost from_gives = { λ refusal stop. stop ≡ line_errors.Refused refusal };

    fn from(refusal: Refusal) -> LineError {
        LineError::Refused(refusal)
    }
}

impl From<BadBio> for LineError {
    ghost from_gives = { λ bad stop. stop ≡ line_errors.Refused (bad_bio_refusal bad) };

    fn from(bad: BadBio) -> LineError {
        LineError::Refused(Refusal::from(bad))
    }
}

impl From<TableError> for LineError {
    ghost from_gives = { λ error stop. stop ≡ line_errors.Refused (table_refusal error) };

    fn from(error: TableError) -> LineError {
        LineError::Refused(Refusal::from(error))
    }
}
