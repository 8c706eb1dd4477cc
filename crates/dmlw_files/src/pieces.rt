//! Writes the image of a disk piece by piece, so that memory holds no second copy of the image.
ghost use Rattle.std.specs.Prelude.{◌≡◌, ◌≤◌, ◌<◌, ◌/◌, ◌%◌, ◌+◌, OnOk, length};
ghost use Rattle.std.specs.Io.KnownBytes.{Appends};
ghost use Rattle.bio.specs.Content.{gather};
ghost use Rattle.sector_disk.specs.DiskView.{shown_of};

use bio::{Ms, SECTOR_BYTES};
use blockdev::BlockDev;
use sector_disk::SectorDisk;
use std::io;
use std::io::Write;

/// The size of a sector in bytes.
const SECTOR: usize = SECTOR_BYTES as usize;

/// A piece has at most this many sectors.
const PIECE_SECTORS: u64 = 128;

/// The size of the buffer for pieces in bytes.
pub(crate) const PIECE: usize = PIECE_SECTORS as usize * SECTOR;

// Reads as many sectors of a disk's image as `piece` has, from sector `first` on.
fn read_piece(disk: &mut SectorDisk, first: u64, piece: &mut [u8])
    requires some { 0 < length piece.old }
    requires whole { length piece.old % 512 ≡ 0 }
    requires within { first + length piece.old / 512 ≤ (shown_of disk.old).size }
    ensures read { piece.new ≡ gather (shown_of disk.old).content first (length piece.old / 512) }
    ensures size { (shown_of disk.new).size ≡ (shown_of disk.old).size }
    ensures content { (shown_of disk.new).content ≡ (shown_of disk.old).content }
{
    // A read of a disk in memory can't fail.
    let _ = disk.read(Ms::new(0), first, piece);
}

// Writes as many sectors of a disk's image as `piece` has, from sector `first` on. If memory doesn't
// have their bytes one after another, they go through `piece`.
fn write_piece<W: Write>(
    disk: &mut SectorDisk,
    first: u64,
    piece: &mut [u8],
    out: &mut W,
) -> io::Result<()>
    requires some { 0 < length piece.old }
    requires whole { length piece.old % 512 ≡ 0 }
    requires within { first + length piece.old / 512 ≤ (shown_of disk.old).size }
    ensures written { OnOk result (Appends (W.contents out.old) (W.contents out.new)
        (gather (shown_of disk.old).content first (length piece.old / 512))) }
    ensures size { (shown_of disk.new).size ≡ (shown_of disk.old).size }
    ensures content { (shown_of disk.new).content ≡ (shown_of disk.old).content }
{
    if let Some(bytes) = disk.stored(first, piece.len() as u64 / SECTOR_BYTES) {
        return out.write_all(bytes);
    }
    read_piece(disk, first, piece);
    out.write_all(piece)
}

/// Writes the first `sectors` sectors of a disk, piece by piece. `buffer` is room for a piece.
pub(crate) fn write_sectors<W: Write>(
    disk: &mut SectorDisk,
    sectors: u64,
    buffer: &mut [u8],
    out: &mut W,
) -> io::Result<()>
    requires within { sectors ≤ (shown_of disk.old).size }
    requires buffer { length buffer.old ≡ 65536 }
    ensures { OnOk result (Appends (W.contents out.old) (W.contents out.new)
        (gather (shown_of disk.old).content 0 sectors)) }
{
    for number in 0..sectors.div_ceil(PIECE_SECTORS) {
        let first = number * PIECE_SECTORS;
        let count = (sectors - first).min(PIECE_SECTORS);
        write_piece(disk, first, &mut buffer[..count as usize * SECTOR], out)?;
    }
    Ok(())
}
