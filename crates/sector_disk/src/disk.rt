//! A disk in memory that stores its past, so that contracts know exactly what a crash may leave.
ghost use Rattle.std.proofs.Props.{props};
ghost use Rattle.std.specs.Prelude.{◌≤◌, length, vec_capacity};
ghost use Rattle.sector_disk.specs.inside.Storage.{IsStorage};

use crate::call::PastCall;
pub use ram::RamDisk;
use std::alloc::Global;

mod device;
mod image;
mod messages;
mod power;
mod ram;

/// A disk in memory, of 1 to 1,048,576 sectors of 512 bytes, with a cache that `crash` loses.
///
/// The disk stores each call for as long as the disk lives. A call takes 64 bytes, and a write also
/// its bytes, except the repeated bytes at its end. If the previous calls of a call's sectors
/// differ, each run of sectors with the same previous call takes 16 bytes more. From the first call
/// on, the disk has a table of 8 bytes for each sector. It also has room for a second table, which
/// the first crash fills.
///
/// For example (`a_crash_loses_a_write` of `device_tests`):
/// ```
/// let mut disk = SectorDisk::new(rt.alloc(), 8).expect(&rt, "memory");
/// disk.write(Ms::new(0), 3, &[7; 512], false)
///     .expect(&rt, "memory");
/// disk.crash(&[]);
/// let bytes = disk.into_bytes().expect(&rt, "memory");
/// assert!(rt; bytes.iter().all(|byte| *byte == 0));
/// ```
#[derive(Debug, Drop)]
pub struct SectorDisk {
    alloc: Global,
    sectors: u64,
    // The writes and discards since the disk was made. The first one is the disk's first content.
    calls: Vec<PastCall>,
    // For each sector, the index of the call whose value it has. Empty before the second call: then
    // each sector has the value of the first call.
    newest: Vec<usize>,
    // For each sector, the index of the call whose value it had when the past began, at the last
    // crash. Empty before the first crash: then each sector has the value of the first call. It has
    // room for all sectors.
    base: Vec<usize>,
    // The number of calls when the past began.
    begun: usize,
    // The number of calls at the last flush or crash.
    synced: usize,
    // Whether a flush came after the last call or crash.
    flushed: bool,
    ghost room: { length newest.items ≤ vec_capacity base },
    ghost kept: { IsStorage sectors calls.items newest.items base.items begun synced flushed } by { Prim.hlevel props },
}
