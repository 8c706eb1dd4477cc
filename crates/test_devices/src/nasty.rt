//! A device that does some calls, but answers that they failed.
ghost use Rattle.std.specs.Prelude.{false};
ghost use Rattle.blockdev.specs.OwnCounts.{counted, lawful_counted};

use bio::{DevError, Ms};
use blockdev::BlockDev;

/// Passes the first `left` writes, discards and flushes to `lower`. Then it still passes each such
/// call, but answers Io.
#[derive(Drop)]
pub struct Nasty<D: BlockDev + Drop> {
    pub lower: D,
    left: u64,
    faults: u64,
}

impl<D: BlockDev + Drop> Nasty<D> {
    pub fn new(lower: D, passes: u64) -> Nasty<D> {
        Nasty {
            lower,
            left: passes,
            faults: 0,
        }
    }
}

impl<D: BlockDev + Drop> BlockDev for Nasty<D> {
    ghost shown = { λ device. counted (D.shown device.lower) device.faults 0 false };

    ghost does = { λ _ _ _ _ _. Unit {0} };

    fn sectors(&self) -> u64 {
        self.lower.sectors()
    }

    fn read(&mut self, now: Ms, first: u64, buffer: &mut [u8]) -> Result<Ms, DevError> {
        self.lower.read(now, first, buffer)
    }

    fn write(&mut self, now: Ms, first: u64, bytes: &[u8], fua: bool) -> Result<Ms, DevError> {
        let ended = self.lower.write(now, first, bytes, fua)?;
        if self.left == 0 {
            self.faults = self.faults.saturating_add(1);
            return Err(DevError::Io);
        }
        self.left -= 1;
        Ok(ended)
    }

    fn discard(&mut self, now: Ms, first: u64, count: u64) -> Result<Ms, DevError> {
        let ended = self.lower.discard(now, first, count)?;
        if self.left == 0 {
            self.faults = self.faults.saturating_add(1);
            return Err(DevError::Io);
        }
        self.left -= 1;
        Ok(ended)
    }

    fn flush(&mut self, now: Ms) -> Result<Ms, DevError> {
        let ended = self.lower.flush(now)?;
        if self.left == 0 {
            self.faults = self.faults.saturating_add(1);
            return Err(DevError::Io);
        }
        self.left -= 1;
        Ok(ended)
    }

    fn faults(&self) -> u64 {
        self.lower.faults().saturating_add(self.faults)
    }

    fn lies(&self) -> u64 {
        self.lower.lies()
    }

    ghost lawful = { λ device. lawful_counted (D.shown device.lower) device.faults 0 false
        (D.lawful device.lower) };
}
