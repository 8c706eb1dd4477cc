//! A device that fails its calls after some that succeed.
ghost use Rattle.std.specs.Prelude.{false};
ghost use Rattle.blockdev.specs.OwnCounts.{counted, lawful_counted};

use bio::{DevError, Ms};
use blockdev::BlockDev;

/// Passes the first `left` calls of the chosen kinds to `lower`, and fails later ones with Io.
/// Passes all calls of the other kinds.
#[derive(Drop)]
pub struct Failing<D: BlockDev + Drop> {
    pub lower: D,
    in_reads: bool,
    in_changes: bool,
    left: u64,
    faults: u64,
}

impl<D: BlockDev + Drop> Failing<D> {
    /// Returns a device that passes only the first `passes` reads, but every write, discard and
    /// flush.
    pub fn in_reads(lower: D, passes: u64) -> Failing<D> {
        Failing {
            lower,
            in_reads: true,
            in_changes: false,
            left: passes,
            faults: 0,
        }
    }

    /// Returns a device that passes only the first `passes` writes, discards and flushes, but every
    /// read.
    pub fn in_changes(lower: D, passes: u64) -> Failing<D> {
        Failing {
            lower,
            in_reads: false,
            in_changes: true,
            left: passes,
            faults: 0,
        }
    }

    /// Returns a device that passes only the first `passes` calls, of any kind.
    pub fn in_calls(lower: D, passes: u64) -> Failing<D> {
        Failing {
            lower,
            in_reads: true,
            in_changes: true,
            left: passes,
            faults: 0,
        }
    }
}

impl<D: BlockDev + Drop> BlockDev for Failing<D> {
    ghost shown = { λ device. counted (D.shown device.lower) device.faults 0 false };

    ghost does = { λ _ _ _ _ _. Unit {0} };

    fn sectors(&self) -> u64 {
        self.lower.sectors()
    }

    fn read(&mut self, now: Ms, first: u64, buffer: &mut [u8]) -> Result<Ms, DevError> {
        if self.in_reads {
            if self.left == 0 {
                self.faults = self.faults.saturating_add(1);
                return Err(DevError::Io);
            }
            self.left -= 1;
        }
        self.lower.read(now, first, buffer)
    }

    fn write(&mut self, now: Ms, first: u64, bytes: &[u8], fua: bool) -> Result<Ms, DevError> {
        if self.in_changes {
            if self.left == 0 {
                self.faults = self.faults.saturating_add(1);
                return Err(DevError::Io);
            }
            self.left -= 1;
        }
        self.lower.write(now, first, bytes, fua)
    }

    fn discard(&mut self, now: Ms, first: u64, count: u64) -> Result<Ms, DevError> {
        if self.in_changes {
            if self.left == 0 {
                self.faults = self.faults.saturating_add(1);
                return Err(DevError::Io);
            }
            self.left -= 1;
        }
        self.lower.discard(now, first, count)
    }

    fn flush(&mut self, now: Ms) -> Result<Ms, DevError> {
        if self.in_changes {
            if self.left == 0 {
                self.faults = self.faults.saturating_add(1);
                return Err(DevError::Io);
            }
            self.left -= 1;
        }
        self.lower.flush(now)
    }

    fn faults(&self) -> u64 {
        self.lower.faults().saturating_add(self.faults)
    }

    fn lies(&self) -> u64 {
        self.lower.lies()
    }

    ghost lawful = { λ device. lawful_counted (D.shown device.lower) device.faults 0 false
        (D.lawful device.lower) };
}
