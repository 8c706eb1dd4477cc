//! Why a line of a table asks for no layer, and the refusal that is shown for it. `parse_line`
//! returns it, and the parser of scripts passes it on.
ghost use Rattle.std.specs.Prelude.{◌≡◌};
ghost use Rattle.layer_table.specs.TableLines.{table_refusal};

use refusals::Refusal;
use thiserror::Error;

/// Why a line asks for no layer.
#[derive(Clone, Copy, Debug, PartialEq, Eq, Error)]
pub enum TableError {
    /// The line's third word names no target.
    #[error("no target of this name")]
    UnknownTarget,
    /// The line has fewer than three words, or a number of words that its target doesn't allow.
    #[error("too many words, or too few")]
    WrongCount,
    /// A word that must be a number isn't one.
    #[error("a word that is no number")]
    BadNumber,
    /// A value is out of its range, the start isn't 0, or two groups of a delay line name different
    /// devices or offsets.
    #[error("a value out of its range")]
    OutOfRange,
    /// A feature of a flakey line, or their count, doesn't exist.
    #[error("no such feature")]
    BadFeature,
}

impl From<TableError> for Refusal {
    ghost from_gives = { λ error refusal. refusal ≡ table_refusal error };

    fn from(error: TableError) -> Refusal {
        match error {
            TableError::UnknownTarget => Refusal::UnknownTarget,
            TableError::WrongCount => Refusal::WrongCount,
            TableError::BadNumber => Refusal::BadNumber,
            TableError::OutOfRange => Refusal::OutOfRange,
            TableError::BadFeature => Refusal::BadFeature,
        }
    }
}
