//! `Two`: the second slot of a stack, over the lowest, as a device. Each call and message goes to
//! the slot. specs/TwoLevel defines the view, the calls and the answers to messages.
use crate::levels::One;
use crate::slot::Slot;
use bio::{DevError, Ms};
use blockdev::{BlockDev, Message, MessageError};

/// The second slot, over the lowest.
#[derive(Drop)]
pub(crate) struct Two {
    pub(crate) top: Slot<One>,
}

impl BlockDev for Two {
    ghost use Rattle.layer_table.specs.TwoLevel.{two_does, two_lawful, two_shown};

    ghost shown = { two_shown };

    ghost does = { two_does };

    fn sectors(&self) -> u64 {
        self.top.sectors()
    }

    fn read(&mut self, now: Ms, first: u64, buffer: &mut [u8]) -> Result<Ms, DevError> {
        self.top.read(now, first, buffer)
    }

    fn write(&mut self, now: Ms, first: u64, bytes: &[u8], fua: bool) -> Result<Ms, DevError> {
        self.top.write(now, first, bytes, fua)
    }

    fn discard(&mut self, now: Ms, first: u64, count: u64) -> Result<Ms, DevError> {
        self.top.discard(now, first, count)
    }

    fn flush(&mut self, now: Ms) -> Result<Ms, DevError> {
        self.top.flush(now)
    }

    fn faults(&self) -> u64 {
        self.top.faults()
    }

    fn lies(&self) -> u64 {
        self.top.lies()
    }

    ghost lawful = { two_lawful };
}

impl Message for Two {
    ghost use Rattle.layer_table.specs.TwoLevel.{two_answers};

    ghost answers = { two_answers };

    fn message(&mut self, layer: u64, text: &str) -> Result<(), MessageError> {
        self.top.message(layer, text)
    }
}
