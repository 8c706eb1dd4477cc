//! Passes a message to a layer of a stack, given the layer's number; the lowest layer is 1. Scripts
//! change a layer's bad blocks by messages.
ghost use Rattle.layer_table.specs.StackMessages.{StackAnswers};

use crate::stack::Stack;
use blockdev::{Message, MessageError};

/// A message goes to layer number `layer`; the lowest layer is 1. If there is no such layer, or it
/// isn't a dust layer, the error is BadMessage.
impl Message for Stack {
    ghost answers = { λ old layer text result new. StackAnswers old layer text result new };

    fn message(&mut self, layer: u64, text: &str) -> Result<(), MessageError> {
        match layer {
            1..=4 => self.top.message(5 - layer, text),
            _ => Err(MessageError::BadMessage),
        }
    }
}
