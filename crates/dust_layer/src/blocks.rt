//! Does writes, discards and reads block by block, up to the first part that isn't done. `Dust`
//! uses these functions in the mode in which bad blocks fail calls.
ghost use Rattle.std.specs.Prelude.{◌≡◌, ◌<◌, ◌≤◌, ◌/◌, OnOk, length};
ghost use Rattle.blockdev.specs.View.{IsByteRange, IsRange, Reads};
ghost use Rattle.blockdev.specs.Law.{DeviceFrame, WriteDone, NoLie, CrashSetKept};
ghost use Rattle.bio.specs.Content.{gather, nothing};
ghost use Rattle.dust_layer.specs.Walk.{ByBlock, HasCauseBelow, change_call, listed_count, fua_of, listed_counts};
ghost use Rattle.dust_layer.specs.Walk.{patch_of};

use crate::bad_blocks::BadBlocks;
use crate::parts::{PartChange, Stop, change_part, reach, read_part};
use bio::{Ms, SECTOR_BYTES};
use blockdev::BlockDev;

/// Does a write or a discard block by block. Each part starts at the time at which the part before
/// it ended. A block with a count above 0 stops the call, and its count is lowered by one. If the
/// part of a listed block ends Ok, the block leaves the list. An error of the lower device stops
/// the call too.
pub(crate) fn change_blocks<D: BlockDev>(
    lower: &mut D,
    bad: &mut BadBlocks,
    block: u64,
    now: Ms,
    first: u64,
    count: u64,
    change: PartChange<'_>,
) -> Result<Ms, Stop>
    requires some { 0 < block }
    requires few { block ≤ 2097152 }
    requires range { IsRange (D.shown lower.old).size first count }
    requires count { listed_count (change_call first count change) ≡ count }
    ensures goes { DeviceFrame (patch_of (change_call first count change.entry)) (D.shown lower.old)
        (D.shown lower.new) }
    ensures lands { OnOk result (NoLie (D.shown lower.old) (D.shown lower.new) →
        WriteDone (patch_of (change_call first count change.entry)) (fua_of change.entry)
        (D.shown lower.old) (D.shown lower.new)) }
    ensures cause { HasCauseBelow now (D.shown lower.old) (D.shown lower.new) result }
    ensures blocks { ByBlock D.does block (change_call first count change.entry) (listed_counts bad.old)
        (listed_counts bad.new) lower.old now lower.new result }
{
    let begin = first / block;
    let blocks = (first + count - 1) / block + 1 - begin;
    let mut from = first;
    let mut end = now;
    for done in 0..blocks {
        let place = begin + done;
        if bad.strike(place) {
            return Err(Stop::Struck);
        }
        let to = reach(block, first, count, place + 1);
        end = match change_part(lower, end, first, count, from, to, change) {
            Ok(end) => end,
            Err(error) => return Err(Stop::Below(error)),
        };
        bad.forget(place);
        from = to;
    }
    Ok(end)
}

/// Does a read block by block. Each part starts at the time at which the part before it ended. A
/// listed block or an error of the lower device stops the read. The list stays.
pub(crate) fn read_blocks<D: BlockDev>(
    lower: &mut D,
    bad: &BadBlocks,
    block: u64,
    now: Ms,
    first: u64,
    buffer: &mut [u8],
) -> Result<Ms, Stop>
    requires some { 0 < block }
    requires few { block ≤ 2097152 }
    requires range { IsByteRange (D.shown lower.old).size first (length buffer.old) }
    ensures bytes { OnOk result
        (buffer.new ≡ gather (D.shown lower.old).content first (length buffer.old / 512)) }
    ensures goes { DeviceFrame nothing (D.shown lower.old) (D.shown lower.new) }
    ensures stays { CrashSetKept (D.shown lower.old) (D.shown lower.new) }
    ensures cause { HasCauseBelow now (D.shown lower.old) (D.shown lower.new) result }
    ensures blocks { ByBlock D.does block (Reads first buffer.old buffer.new) (listed_counts bad.now)
        (listed_counts bad.now) lower.old now lower.new result }
{
    let count = buffer.len() as u64 / SECTOR_BYTES;
    let begin = first / block;
    let blocks = (first + count - 1) / block + 1 - begin;
    let mut from = first;
    let mut end = now;
    for done in 0..blocks {
        let place = begin + done;
        if bad.has(place) {
            return Err(Stop::Struck);
        }
        let to = reach(block, first, count, place + 1);
        end = match read_part(lower, end, first, from, to, buffer) {
            Ok(end) => end,
            Err(error) => return Err(Stop::Below(error)),
        };
        from = to;
    }
    Ok(end)
}
