//! The trait `BlockDev`: sectors that are read, written, discarded and flushed, under contracts.
//! Disks, layers and stacks implement the trait; recorders, readers and replays call devices only
//! through the trait.
ghost use Rattle.std.specs.Prelude.{◌≡◌, ◌/◌, OnOk, Result, false, length, ℕ};
ghost use Rattle.bio.specs.declared.outcome.DevError.{DevError};
ghost use Rattle.blockdev.specs.View.{Call, Discards, Flushes, IsByteRange, IsLawful, IsRange};
ghost use Rattle.blockdev.specs.View.{Reads, View, Writes};
ghost use Rattle.blockdev.specs.Law.{DeviceFrame, HasCause, WriteDone, NoLie, CrashSetKept};
ghost use Rattle.blockdev.specs.Law.{FlushDone};
ghost use Rattle.bio.specs.Content.{discards, gather, nothing, writes};

use bio::{DevError, Ms};

/// A device of 1 to 1,048,576 sectors of 512 bytes, with a cache that a crash may lose.
///
/// A call begins at the time `now`, and an Ok returns the time of its end. The caller ensures that
/// a range that is read, written or discarded is at least one whole sector, all within the device.
/// A flush and FUA promise what Linux's Documentation/block/writeback_cache_control.rst asks of a
/// device. If a write, a discard or a flush returns Ok, its promises hold unless the call lied
/// (`NoLie`): unless it reported work that wasn't done.
pub trait BlockDev {
    /// The view of the device in contracts.
    ghost shown: { Self → View };

    /// Whether this call, made at this time, can return this result and take the device from the
    /// first state to the second.
    ghost does: { Self → Call → ℕ → Result ℕ DevError → Self → Type 0 };

    /// Returns the number of sectors, which never changes.
    fn sectors(&self) -> u64
        ensures { result ≡ (shown self.now).size };

    /// Reads whole sectors from `first` on. After an Ok the buffer has their bytes; after an error
    /// it may have any bytes.
    fn read(&mut self, now: Ms, first: u64, buffer: &mut [u8]) -> Result<Ms, DevError>
        requires { IsByteRange (shown self.old).size first (length buffer.old) }

        // After an Ok, the buffer has the bytes of the sectors.
        ensures bytes { OnOk result
            (buffer.new ≡ gather (shown self.old).content first (length buffer.old / 512)) }

        // The call changes neither the content nor the contents that a crash may leave.
        ensures goes { DeviceFrame nothing (shown self.old) (shown self.new) }
        ensures stays { CrashSetKept (shown self.old) (shown self.new) }

        ensures cause { HasCause now (shown self.old) (shown self.new) result }
        ensures does { does self.old (Reads first buffer.old buffer.new) now result self.new };

    /// Writes whole sectors from `first` on. With `fua` they are durable at an Ok. After an error
    /// each of these sectors has its old value or its new one.
    fn write(&mut self, now: Ms, first: u64, bytes: &[u8], fua: bool) -> Result<Ms, DevError>
        requires { IsByteRange (shown self.old).size first (length bytes.now) }

        // Whatever the result, each of the sectors has its old value or its new one.
        ensures goes { DeviceFrame (writes first bytes.now) (shown self.old) (shown self.new) }

        // After an Ok without a lie, all of them have the new value.
        ensures lands { OnOk result (NoLie (shown self.old) (shown self.new) →
            WriteDone (writes first bytes.now) fua (shown self.old) (shown self.new)) }

        ensures cause { HasCause now (shown self.old) (shown self.new) result }
        ensures does { does self.old (Writes first bytes.now fua) now result self.new };

    /// Makes `count` sectors from `first` on zeroes, cached like a write without FUA. After an
    /// error each of these sectors has its old value or zeroes.
    fn discard(&mut self, now: Ms, first: u64, count: u64) -> Result<Ms, DevError>
        requires { IsRange (shown self.old).size first count }

        // Whatever the result, each of the sectors has its old value or is zeroes.
        ensures goes { DeviceFrame (discards first count) (shown self.old) (shown self.new) }

        // After an Ok without a lie, all of them are zeroes.
        ensures lands { OnOk result (NoLie (shown self.old) (shown self.new) →
            WriteDone (discards first count) false (shown self.old) (shown self.new)) }

        ensures cause { HasCause now (shown self.old) (shown self.new) result }
        ensures does { does self.old (Discards first count) now result self.new };

    /// Makes all earlier writes and discards durable: after an Ok a crash leaves the content.
    fn flush(&mut self, now: Ms) -> Result<Ms, DevError>
        // Whatever the result, the content is unchanged, and a crash may leave nothing new.
        ensures goes { DeviceFrame nothing (shown self.old) (shown self.new) }

        // After an Ok without a lie, a crash leaves the content.
        ensures syncs { OnOk result
            (NoLie (shown self.old) (shown self.new) → FlushDone (shown self.new)) }

        ensures cause { HasCause now (shown self.old) (shown self.new) result }
        ensures does { does self.old Flushes now result self.new };

    /// Returns how many calls of the device, or of a device below it, failed; at most 2^64 - 1.
    fn faults(&self) -> u64
        ensures { result ≡ (shown self.now).faults };

    /// Returns how many calls of the device, or of a device below it, were reported done but
    /// weren't; at most 2^64 - 1.
    fn lies(&self) -> u64
        ensures { result ≡ (shown self.now).lies };

    /// The properties that a device always has.
    ghost lawful: { (device : Self) → IsLawful (shown device) };
}
