//! A stack is a block device: each call goes to its top slot. `lawful` proves the device law for
//! every stack (specs/StackLaws).
ghost use Rattle.layer_table.specs.Layers.{stack_does, stack_shown};
ghost use Rattle.layer_table.specs.StackLaws.{stack_lawful};

use crate::stack::Stack;
use bio::{DevError, Ms};
use blockdev::BlockDev;

impl BlockDev for Stack {
    ghost shown = { stack_shown };

    ghost does = { stack_does };

    fn sectors(&self) -> u64 {
        self.top.sectors()
    }

    #[tactic(auto, using(crate::specs::StackLaws::no_gap_kept))]
    fn read(&mut self, now: Ms, first: u64, buffer: &mut [u8]) -> Result<Ms, DevError> {
        self.top.read(now, first, buffer)
    }

    #[tactic(auto, using(crate::specs::StackLaws::no_gap_kept))]
    fn write(&mut self, now: Ms, first: u64, bytes: &[u8], fua: bool) -> Result<Ms, DevError> {
        self.top.write(now, first, bytes, fua)
    }

    #[tactic(auto, using(crate::specs::StackLaws::no_gap_kept))]
    fn discard(&mut self, now: Ms, first: u64, count: u64) -> Result<Ms, DevError> {
        self.top.discard(now, first, count)
    }

    #[tactic(auto, using(crate::specs::StackLaws::no_gap_kept))]
    fn flush(&mut self, now: Ms) -> Result<Ms, DevError> {
        self.top.flush(now)
    }

    fn faults(&self) -> u64 {
        self.top.faults()
    }

    fn lies(&self) -> u64 {
        self.top.lies()
    }

    ghost lawful = { stack_lawful };
}
