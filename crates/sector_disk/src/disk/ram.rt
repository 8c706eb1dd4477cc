//! A disk in memory that stores no past, so that a write of much data may reuse the memory of the
//! data that it replaces.
ghost use Rattle.std.proofs.Props.{props};
ghost use Rattle.std.specs.Prelude.{◌<◌};
ghost use Rattle.sector_disk.specs.inside.Storage.{IsRam};

use crate::call::PastCall;
use std::alloc::Global;

mod device;

/// A disk in memory, of 1 to 1,048,576 sectors of 512 bytes, that stores no past. So a crash may
/// leave anything, and what would have to be durable fails: a flush, and a write with FUA.
///
/// A write of a whole piece of the image (65,536 bytes) replaces the piece. Another call takes
/// 64 bytes, and a write also its bytes, except the repeated bytes at its end.
#[derive(Debug, Drop)]
pub struct RamDisk {
    alloc: Global,
    sectors: u64,
    // The image, and then the calls that replaced no piece of it.
    calls: Vec<PastCall>,
    // For each sector, the index of the call whose value it has.
    newest: Vec<usize>,
    // The number of calls that failed with Io.
    faults: u64,
    ghost counted: { faults < 18446744073709551616 },
    ghost kept: { IsRam sectors calls.items newest.items } by { Prim.hlevel props },
}
