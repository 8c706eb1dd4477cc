//! Laws of block devices: what a crash leaves of flushed and FUA writes, and of a call that the
//! crash interrupts. Each function does nothing; its clauses are the law.
ghost use Rattle.std.specs.Prelude.{◌≡◌, ◌<◌, ◌≤◌, Bool, List, None, true, ℕ};
ghost use Rattle.blockdev.specs.Law.{DeviceFrame, IsTorn, WriteDone, FlushDone};
ghost use Rattle.bio.specs.Content.{Content, HasBytes, HasWholeSectors, Patch, nothing, writes};

use crate::BlockDev;

/// If a write is done, and a flush that satisfies its frame is done after it, whatever a crash then
/// leaves has the write's bytes.
pub fn flushed_writes_outlive_crashes<D: BlockDev>()
    ensures { (before written flushed : D) (first : ℕ) (bytes : List ℕ) (fua : Bool)
        (left : Content) →
        WriteDone (writes first bytes) fua (D.shown before) (D.shown written) →
        DeviceFrame nothing (D.shown written) (D.shown flushed) → FlushDone (D.shown flushed) →
        (D.shown flushed).crash left → HasBytes left first bytes }
{}

/// If a write with FUA is done, whatever a crash then leaves has the write's bytes.
pub fn fua_writes_outlive_crashes<D: BlockDev>()
    ensures { (before written : D) (first : ℕ) (bytes : List ℕ) (left : Content) →
        WriteDone (writes first bytes) true (D.shown before) (D.shown written) →
        (D.shown written).crash left → HasBytes left first bytes }
{}

/// If a sector has the same value in whatever a crash leaves, it keeps this value through each call
/// that has no value for it.
pub fn durable_sectors_stay<D: BlockDev>()
    ensures { (before after : D) (patch : Patch) (sector : ℕ) (value : List ℕ) →
        DeviceFrame patch (D.shown before) (D.shown after) → patch sector ≡ None →
        ((left : Content) → (D.shown before).crash left → left sector ≡ value) →
        (left : Content) → (D.shown after).crash left → left sector ≡ value }
{}

/// A call, even a failed one, tears at most its own sectors. A crash after the call leaves a
/// content that it could leave before the call, with the call's values in some sectors.
pub fn calls_tear_their_own_sectors<D: BlockDev>()
    ensures { (before after : D) (patch : Patch) (left : Content) →
        DeviceFrame patch (D.shown before) (D.shown after) → (D.shown after).crash left →
        IsTorn patch (D.shown before).crash left }
{}

/// A crash during a call tears at most the call's own sectors too. Such a crash leaves a content
/// that a crash could leave before the call, with the call's values in some of their sectors.
pub fn calls_tear_their_own_sectors_at_any_moment<D: BlockDev>()
    ensures { (before after : D) (patch : Patch) (left : Content) →
        DeviceFrame patch (D.shown before) (D.shown after) →
        (D.shown after).since (D.shown before).clock left →
        IsTorn patch (D.shown before).crash left }
{}

/// Each content that a crash may leave has whole sectors of 512 bytes, and so has the device's
/// content.
pub fn crashes_leave_whole_sectors<D: BlockDev>()
    ensures crash { (device : D) (left : Content) → (D.shown device).crash left →
        HasWholeSectors (D.shown device).size left }
    ensures content { (device : D)
        → HasWholeSectors (D.shown device).size (D.shown device).content }
{}

/// Devices have 1 to 1,048,576 sectors, and calls don't change their size.
pub fn devices_keep_their_size<D: BlockDev>()
    ensures some { (device : D) → 0 < (D.shown device).size }
    ensures few { (device : D) → (D.shown device).size ≤ 1048576 }
    ensures kept { (before after : D) (patch : Patch) →
        DeviceFrame patch (D.shown before) (D.shown after)
        → (D.shown after).size ≡ (D.shown before).size }
{}
