//! `Three`: the third slot of a stack, over the second, as a device. Each call and message goes to
//! the slot. specs/ThreeLevel defines the view, the calls and the answers to messages.
use crate::levels::Two;
use crate::slot::Slot;
use bio::{DevError, Ms};
use blockdev::{BlockDev, Message, MessageError};

/// The third slot, over the second.
#[derive(Drop)]
pub(crate) struct Three {
    pub(crate) top: Slot<Two>,
}

impl BlockDev for Three {
    ghost use Rattle.layer_table.specs.ThreeLevel.{three_does, three_lawful, three_shown};

    ghost shown = { three_shown };

    ghost does = { three_does };

    fn sectors(&self) -> u64 {
        self.top.sectors()
    }

    fn read(&mut self, now: Ms, first: u64, buffer: &mut [u8]) -> Result<Ms, DevError> {
        self.top.read(now, first, buffer)
    }

    fn write(&mut self, now: Ms, first: u64, bytes: &[u8], fua: bool) -> Result<Ms, DevError> {
        self.top.write(now, first, bytes, fua)
    }

    fn discard(&mut self, now: Ms, first: u64, count: u64) -> Result<Ms, DevError> {
        self.top.discard(now, first, count)
    }

    fn flush(&mut self, now: Ms) -> Result<Ms, DevError> {
        self.top.flush(now)
    }

    fn faults(&self) -> u64 {
        self.top.faults()
    }

    fn lies(&self) -> u64 {
        self.top.lies()
    }

    ghost lawful = { three_lawful };
}

impl Message for Three {
    ghost use Rattle.layer_table.specs.ThreeLevel.{three_answers};

    ghost answers = { three_answers };

    fn message(&mut self, layer: u64, text: &str) -> Result<(), MessageError> {
        self.top.message(layer, text)
    }
}
