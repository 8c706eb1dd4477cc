//! Tests whether an answer of a device or of the recorder says that memory ran out.
ghost use Rattle.std.specs.Prelude.{◌≡◌};
ghost use Rattle.recorder.specs.Calls.{last_turn};
ghost use Rattle.script_runner.specs.Lines.{is_memory_end, is_refusal, is_out_of_memory};

use bio::{DevError, End, Ms};
use recorder::{Reply, Turn};

// Returns whether the data device answered that its memory ran out.
pub(crate) fn is_out_of_memory(answer: &Result<Ms, DevError>) -> bool
    ensures { result ≡ is_out_of_memory answer.now }
{
    matches!(answer, Err(DevError::Memory))
}

// Returns whether a turn reports that logging ended because memory ran out.
pub(crate) fn is_memory_end(turn: &Turn) -> bool
    ensures { result ≡ is_memory_end turn.now }
{
    matches!(turn, Turn::Ended(End::Memory))
}

// Returns whether the recorder refused an event.
pub(crate) fn is_refusal(reply: &Reply) -> bool
    ensures { result ≡ is_refusal reply.now }
{
    matches!(reply, Reply::Refused(_))
}

// Returns the last turn of a drain that ended with this result.
pub(crate) fn last_turn(ended: Result<(), End>) -> Turn
    ensures { result ≡ last_turn ended }
{
    match ended {
        Ok(()) => Turn::Nothing,
        Err(cause) => Turn::Ended(cause),
    }
}
