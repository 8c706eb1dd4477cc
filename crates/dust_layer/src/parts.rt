//! Does a part of a call, on some of its sectors, on the lower device. `blocks` does a write, a
//! discard or a read by such parts, one for each block.
ghost use Rattle.std.specs.Prelude.{◌≡◌, ◌<◌, ◌≤◌, ◌+◌, ◌-◌, ◌*◌, ◌/◌, OnOk, drop, length};
ghost use Rattle.std.specs.Prelude.{take};
ghost use Rattle.blockdev.specs.View.{IsByteRange, IsRange, Reads};
ghost use Rattle.blockdev.specs.Law.{DeviceFrame, HasCause, WriteDone, NoLie, CrashSetKept};
ghost use Rattle.bio.specs.Content.{gather, nothing};
ghost use Rattle.dust_layer.specs.Walk.{bytes_within, change_call, listed_count, fua_of, part_within};
ghost use Rattle.dust_layer.specs.Walk.{patch_of, reach};

use bio::{DevError, Ms, SECTOR_BYTES};
use blockdev::BlockDev;

/// Why a call stops before its end.
pub(crate) enum Stop {
    /// A bad block.
    Struck,
    /// An error of the lower device.
    Below(DevError),
}

/// What a call does to its sectors.
#[derive(Clone, Copy)]
pub(crate) enum PartChange<'a> {
    /// It writes these bytes; the flag says if the write is durable when it ends.
    Write(&'a [u8], bool),
    /// It discards them.
    Discard,
}

/// Returns the first sector of block `place`, but at least `first` and at most `first + count`. A
/// block has `block` sectors.
pub(crate) fn reach(block: u64, first: u64, count: u64, place: u64) -> u64
    requires block { place * block < 18446744073709551616 }
    requires end { first + count < 18446744073709551616 }
    ensures { result ≡ reach block first count place }
{
    (first + count).min(first.max(place * block))
}

// Returns the bytes of the sectors from `from` to before `to`. `bytes` begins at sector `first`.
fn bytes_within(bytes: &[u8], first: u64, from: u64, to: u64) -> &[u8]
    requires from { first ≤ from }
    requires order { from ≤ to }
    requires within { 512 * (to - first) ≤ length bytes.now }
    ensures { result.now ≡ bytes_within first from to bytes.now }
{
    let (_before, rest) = bytes.split_at((SECTOR_BYTES * (from - first)) as usize);
    let (part, _after) = rest.split_at((SECTOR_BYTES * (to - from)) as usize);
    part
}

/// Does the part of a write or a discard from sector `from` to before `to`.
pub(crate) fn change_part<D: BlockDev>(
    lower: &mut D,
    now: Ms,
    first: u64,
    count: u64,
    from: u64,
    to: u64,
    change: PartChange<'_>,
) -> Result<Ms, DevError>
    requires range { IsRange (D.shown lower.old).size first count }
    requires count { listed_count (change_call first count change) ≡ count }
    requires from { first ≤ from }
    requires order { from < to }
    requires within { to ≤ first + count }
    ensures goes { DeviceFrame (patch_of (part_within from to (change_call first count change.entry)))
        (D.shown lower.old) (D.shown lower.new) }
    ensures lands { OnOk result (NoLie (D.shown lower.old) (D.shown lower.new) →
        WriteDone (patch_of (part_within from to (change_call first count change.entry)))
        (fua_of change.entry) (D.shown lower.old) (D.shown lower.new)) }
    ensures cause { HasCause now (D.shown lower.old) (D.shown lower.new) result }
    ensures does { D.does lower.old
        (part_within from to (change_call first count change.entry)) now result lower.new }
{
    match change {
        PartChange::Write(bytes, fua) => {
            lower.write(now, from, bytes_within(bytes, first, from, to), fua)
        }
        PartChange::Discard => lower.discard(now, from, to - from),
    }
}

/// Does the part of a read from sector `from` to before `to`.
pub(crate) fn read_part<D: BlockDev>(
    lower: &mut D,
    now: Ms,
    first: u64,
    from: u64,
    to: u64,
    buffer: &mut [u8],
) -> Result<Ms, DevError>
    requires range { IsByteRange (D.shown lower.old).size first (length buffer.old) }
    requires from { first ≤ from }
    requires order { from < to }
    requires within { to ≤ first + length buffer.old / 512 }
    ensures length { length buffer.new ≡ length buffer.old }
    ensures before { take (512 * (from - first)) buffer.new
        ≡ take (512 * (from - first)) buffer.old }
    ensures behind { drop (512 * (to - first)) buffer.new ≡ drop (512 * (to - first)) buffer.old }
    ensures bytes { OnOk result
        (bytes_within first from to buffer.new
        ≡ gather (D.shown lower.old).content from (to - from)) }
    ensures goes { DeviceFrame nothing (D.shown lower.old) (D.shown lower.new) }
    ensures stays { CrashSetKept (D.shown lower.old) (D.shown lower.new) }
    ensures cause { HasCause now (D.shown lower.old) (D.shown lower.new) result }
    ensures does { D.does lower.old
        (Reads from (bytes_within first from to buffer.old)
        (bytes_within first from to buffer.new)) now result lower.new }
{
    let start = (SECTOR_BYTES * (from - first)) as usize;
    let size = (SECTOR_BYTES * (to - from)) as usize;
    lower.read(now, from, &mut buffer[start..start + size])
}
