//! A device that lies: it drops each write, discard and flush, and answers Ok.
ghost use Rattle.std.specs.Prelude.{true};
ghost use Rattle.blockdev.specs.OwnCounts.{counted, lawful_counted};

use bio::{DevError, Ms};
use blockdev::BlockDev;

/// Drops each write, discard and flush, answers Ok, and counts a lie. Passes reads to `lower`.
#[derive(Drop)]
pub struct Lying<D: BlockDev + Drop> {
    pub lower: D,
    lies: u64,
}

impl<D: BlockDev + Drop> Lying<D> {
    pub fn new(lower: D) -> Lying<D> {
        Lying { lower, lies: 0 }
    }
}

impl<D: BlockDev + Drop> BlockDev for Lying<D> {
    ghost shown = { λ device. counted (D.shown device.lower) 0 device.lies true };

    ghost does = { λ _ _ _ _ _. Unit {0} };

    fn sectors(&self) -> u64 {
        self.lower.sectors()
    }

    fn read(&mut self, now: Ms, first: u64, buffer: &mut [u8]) -> Result<Ms, DevError> {
        self.lower.read(now, first, buffer)
    }

    fn write(&mut self, now: Ms, _first: u64, _bytes: &[u8], _fua: bool) -> Result<Ms, DevError> {
        self.lies = self.lies.saturating_add(1);
        Ok(now)
    }

    fn discard(&mut self, now: Ms, _first: u64, _count: u64) -> Result<Ms, DevError> {
        self.lies = self.lies.saturating_add(1);
        Ok(now)
    }

    fn flush(&mut self, now: Ms) -> Result<Ms, DevError> {
        self.lies = self.lies.saturating_add(1);
        Ok(now)
    }

    fn faults(&self) -> u64 {
        self.lower.faults()
    }

    fn lies(&self) -> u64 {
        self.lower.lies().saturating_add(self.lies)
    }

    ghost lawful = { λ device. lawful_counted (D.shown device.lower) 0 device.lies true
        (D.lawful device.lower) };
}
