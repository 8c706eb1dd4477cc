//! A device that fails exactly one of its calls.
ghost use Rattle.std.specs.Prelude.{◌≡◌, ◌+◌, ◌^◌, ◌-◌, false, min, true};
ghost use Rattle.blockdev.specs.OwnCounts.{counted, lawful_counted};

use bio::{DevError, Ms};
use blockdev::BlockDev;

/// A device that passes `left` calls, fails the next call with Io, and passes each later one.
#[derive(Drop)]
pub struct FailingOnce<D: BlockDev + Drop> {
    pub lower: D,
    left: Option<u64>,
    faults: u64,
}

impl<D: BlockDev + Drop> FailingOnce<D> {
    /// Returns a device that passes `passes` calls, and then fails one.
    pub fn after(lower: D, passes: u64) -> FailingOnce<D> {
        FailingOnce {
            lower,
            left: Some(passes),
            faults: 0,
        }
    }

    // Counts a call. Returns whether this call has to fail.
    fn fails(&mut self) -> bool
        ensures lower { self.new.lower ≡ self.old.lower }
        ensures fails { result ≡ true → self.new.faults ≡ min (self.old.faults + 1) (2 ^ 64 - 1) }
        ensures passes { result ≡ false → self.new.faults ≡ self.old.faults }
    {
        match self.left {
            None => false,
            Some(0) => {
                self.left = None;
                self.faults = self.faults.saturating_add(1);
                true
            }
            Some(left) => {
                self.left = Some(left - 1);
                false
            }
        }
    }
}

impl<D: BlockDev + Drop> BlockDev for FailingOnce<D> {
    ghost shown = { λ device. counted (D.shown device.lower) device.faults 0 false };

    ghost does = { λ _ _ _ _ _. Unit {0} };

    fn sectors(&self) -> u64 {
        self.lower.sectors()
    }

    fn read(&mut self, now: Ms, first: u64, buffer: &mut [u8]) -> Result<Ms, DevError> {
        if self.fails() {
            return Err(DevError::Io);
        }
        self.lower.read(now, first, buffer)
    }

    fn write(&mut self, now: Ms, first: u64, bytes: &[u8], fua: bool) -> Result<Ms, DevError> {
        if self.fails() {
            return Err(DevError::Io);
        }
        self.lower.write(now, first, bytes, fua)
    }

    fn discard(&mut self, now: Ms, first: u64, count: u64) -> Result<Ms, DevError> {
        if self.fails() {
            return Err(DevError::Io);
        }
        self.lower.discard(now, first, count)
    }

    fn flush(&mut self, now: Ms) -> Result<Ms, DevError> {
        if self.fails() {
            return Err(DevError::Io);
        }
        self.lower.flush(now)
    }

    fn faults(&self) -> u64 {
        self.lower.faults().saturating_add(self.faults)
    }

    fn lies(&self) -> u64 {
        self.lower.lies()
    }

    ghost lawful = { λ device. lawful_counted (D.shown device.lower) device.faults 0 false
        (D.lawful device.lower) };
}
