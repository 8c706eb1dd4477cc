//! `One`: the lowest slot of a stack, as a device. Each call and message goes to the slot.
//! specs/OneLevel defines the view, the calls and the answers to messages.
use crate::slot::Slot;
use bio::{DevError, Ms};
use blockdev::{BlockDev, Message, MessageError};
use sector_disk::SectorDisk;

/// The lowest slot, over the disk.
#[derive(Drop)]
pub(crate) struct One {
    pub(crate) top: Slot<SectorDisk>,
}

impl BlockDev for One {
    ghost use Rattle.layer_table.specs.OneLevel.{one_does, one_lawful, one_shown};

    ghost shown = { one_shown };

    ghost does = { one_does };

    fn sectors(&self) -> u64 {
        self.top.sectors()
    }

    fn read(&mut self, now: Ms, first: u64, buffer: &mut [u8]) -> Result<Ms, DevError> {
        self.top.read(now, first, buffer)
    }

    fn write(&mut self, now: Ms, first: u64, bytes: &[u8], fua: bool) -> Result<Ms, DevError> {
        self.top.write(now, first, bytes, fua)
    }

    fn discard(&mut self, now: Ms, first: u64, count: u64) -> Result<Ms, DevError> {
        self.top.discard(now, first, count)
    }

    fn flush(&mut self, now: Ms) -> Result<Ms, DevError> {
        self.top.flush(now)
    }

    fn faults(&self) -> u64 {
        self.top.faults()
    }

    fn lies(&self) -> u64 {
        self.top.lies()
    }

    ghost lawful = { one_lawful };
}

impl Message for One {
    ghost use Rattle.layer_table.specs.OneLevel.{one_answers};

    ghost answers = { one_answers };

    fn message(&mut self, layer: u64, text: &str) -> Result<(), MessageError> {
        self.top.message(layer, text)
    }
}
