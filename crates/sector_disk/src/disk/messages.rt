//! Messages that reach the disk below all layers: each fails with `BadMessage`.
ghost use Rattle.std.specs.Prelude.{◌≡◌, Err};
ghost use Rattle.blockdev.specs.declared.message.MessageError.TheVariants.{BadMessage};

use crate::disk::SectorDisk;
use blockdev::{Message, MessageError};

impl Message for SectorDisk {
    // A disk takes no message.
    ghost answers = { λ old layer text result new. (result ≡ Err BadMessage) × (new ≡ old) };

    fn message(&mut self, _layer: u64, _text: &str) -> Result<(), MessageError> {
        Err(MessageError::BadMessage)
    }
}
