//! Messages to a layer of a device, and the errors that refuse a message. A layer with bad blocks
//! obeys messages; a stack of layers passes each message to the layer with its number.
ghost use Rattle.std.specs.Prelude.{◌≡◌, List, Result, ℕ};
ghost use Rattle.blockdev.specs.Messages.{Unchanged, message_refusal};

use crate::BlockDev;
use refusals::Refusal;
use std::alloc::AllocFailed;
use thiserror::Error;

/// Why a message is refused.
#[derive(Clone, Copy, Debug, PartialEq, Eq, Error)]
pub enum MessageError {
    /// The layer takes no such message, the message's block isn't within the layer, or there is no
    /// such layer.
    #[error("no such message")]
    BadMessage,
    /// The block is already listed as bad.
    #[error("the block is listed as bad")]
    AlreadyBad,
    /// The block isn't listed as bad.
    #[error("the block isn't listed as bad")]
    NotBad,
    /// An allocation failed.
    #[error("no memory")]
    Memory,
}

impl From<MessageError> for Refusal {
    ghost from_gives = { λ error refusal. refusal ≡ message_refusal error };

    fn from(error: MessageError) -> Refusal {
        match error {
            MessageError::BadMessage => Refusal::BadMessage,
            MessageError::AlreadyBad => Refusal::AlreadyBad,
            MessageError::NotBad => Refusal::NotBad,
            MessageError::Memory => Refusal::Memory,
        }
    }
}

impl<T: Drop> From<AllocFailed<T>> for MessageError {
    ghost use Rattle.blockdev.specs.declared.message.MessageError.TheVariants.{Memory};

    ghost from_gives = { λ _ error. error ≡ Memory };

    fn from(_error: AllocFailed<T>) -> MessageError {
        MessageError::Memory
    }
}

/// A device with a layer that takes messages, which change the effect of later calls.
pub trait Message: BlockDev {
    ghost use Rattle.blockdev.specs.declared.message.MessageError.{MessageError};

    /// Whether this message to this layer can return this result and take the device from the first
    /// state to the second.
    ghost answers: { Self → ℕ → List ℕ → Result (Unit {0}) MessageError → Self → Type 0 };

    /// Passes a message to a layer; the layers are numbered from 1. Whatever the result, the
    /// content, the contents that a crash may leave, and the counts of faults and lies are
    /// unchanged. The errors are BadMessage, AlreadyBad, NotBad and Memory.
    fn message(&mut self, layer: u64, text: &str) -> Result<(), MessageError>
        ensures same { Unchanged (Self.shown self.old) (Self.shown self.new) }
        ensures answers { answers self.old layer text.now result self.new };
}
