//! The sectors that a request names.
ghost use Rattle.std.specs.Prelude.{◌≡◌, ◌+◌, ◌/◌, ◌%◌, ◌<◌, ◌≤◌, IfOk};
ghost use Rattle.bio.specs.Requests.{bytes_of};
ghost use Rattle.nbd.specs.Wire.{request_range};

use crate::fault::RequestFault;
use crate::wire::RequestHeader;
use bio::{SECTOR_BYTES, SectorSize};

/// Some sectors of 512 bytes of the data device.
#[derive(Clone, Copy, Debug, PartialEq, Eq)]
pub struct Range {
    /// The first sector.
    pub first: u64,
    /// The number of sectors.
    pub count: u64,
}

// Returns the sectors that a request names on a device of `sectors` sectors. The request must be
// whole blocks, at least one, and within the device.
pub(crate) fn range_of(
    header: &RequestHeader,
    block: SectorSize,
    sectors: u64,
) -> Result<Range, RequestFault>
    requires { sectors ≤ 1048576 }
    ensures is { result ≡ request_range (bytes_of block) sectors header.now }
    ensures fits { IfOk result (λ range. (0 < range.count) × (range.first + range.count ≤ sectors)
        × (range.first ≡ header.now.offset / 512) × (range.count ≡ header.now.length / 512)
        × (header.now.offset % bytes_of block ≡ 0) × (header.now.length % bytes_of block ≡ 0)) }
{
    let length = u64::from(header.length);
    let block = u64::from(block.bytes());
    if length == 0 || length % block != 0 || header.offset % block != 0 {
        return Err(RequestFault::Invalid);
    }
    let range = Range {
        first: header.offset / SECTOR_BYTES,
        count: length / SECTOR_BYTES,
    };
    if range.count > sectors || range.first > sectors - range.count {
        return Err(RequestFault::NoSpace);
    }
    Ok(range)
}
