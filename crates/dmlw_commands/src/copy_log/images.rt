// Copies the log in an image to a new log, on disks in memory.
ghost use Rattle.std.specs.Prelude.{◌≡◌, ◌≤◌, IfErr, IfOk};
ghost use Rattle.sector_disk.specs.DiskView.{shown_of};
ghost use Rattle.log_store.specs.Calls.{store_of};
ghost use Rattle.refusals.specs.Errors.{memory_error};
ghost use Rattle.dmlw_files.specs.Files.{IsImage, image_of};
ghost use Rattle.dmlw_commands.specs.LogCopies.{FailsOnImage, IsBegun, IsCopied, copy_stopped};

use crate::opened::open_image;
use bio::{End, SectorSize};
use log_store::LogStore;
use refusals::{Refusal, RunError};
use replay::{CopyFault, copy_log};
use sector_disk::{Image, SectorDisk};
use std::alloc::Global;

/// The result of a copy.
#[derive(Debug, Drop)]
pub(crate) struct Copied {
    /// The number of entries that were copied.
    pub(crate) count: u64,
    /// The new log's disk.
    pub(crate) disk: SectorDisk,
}

/// Copies the log in an image to a new log with sectors of 4,096 bytes. The new log's disk has
/// `sectors` sectors of 512 bytes, from 8 to 1,048,576. Both disks and one entry are in memory. The
/// old log's disk is dropped at the end.
pub(crate) fn copy_image(alloc: Global, log: Image, sectors: u64) -> Result<Copied, RunError>
    requires log { IsImage log }
    requires least { 8 ≤ sectors }
    requires most { sectors ≤ 1048576 }
    ensures copied { IfOk result
        (λ done. IsCopied log done.count sectors (image_of done.disk)) }
    ensures fails { IfErr result (FailsOnImage log sectors) }
{
    let mut reader = open_image(alloc, log)?;
    let mut store = begin_log(alloc, sectors)?;
    match copy_log(&mut reader, &mut store) {
        Ok(count) => {
            let disk = store.into_device();
            Ok(Copied { count, disk })
        }
        Err(fault) => Err(stopped(fault)),
    }
}

// Turns the fault of a copy into the command's error.
fn stopped(fault: CopyFault) -> RunError
    ensures { result ≡ copy_stopped fault }
{
    RunError::StoppedAfter {
        applied: fault.applied,
        refusal: Refusal::from(fault.cause),
    }
}

// Creates the new log, on a disk of `sectors` sectors of zeroes. If memory runs out here, it
// reports this, and not that logging ended: no entry was copied yet.
fn begin_log(alloc: Global, sectors: u64) -> Result<LogStore<SectorDisk>, RunError>
    requires least { 8 ≤ sectors }
    requires most { sectors ≤ 1048576 }
    ensures begun { IfOk result (λ store. IsBegun sectors (store_of store)) }
    ensures memory { IfErr result (λ fault. fault ≡ memory_error) }
{
    let disk = new_disk(alloc, sectors)?;
    match LogStore::create_sized(disk, SectorSize::B4096) {
        Ok(store) => Ok(store),
        Err((_disk, End::Memory)) => Err(RunError::from(Refusal::Memory)),
        Err((_disk, End::Full | End::Device)) => unreachable!(
            "a disk in memory never fails, and has room"
        ),
    }
}

// Returns a disk of `sectors` sectors of zeroes.
fn new_disk(alloc: Global, sectors: u64) -> Result<SectorDisk, RunError>
    requires least { 8 ≤ sectors }
    requires most { sectors ≤ 1048576 }
    ensures size { IfOk result (λ disk. (shown_of disk).size ≡ sectors) }
    ensures memory { IfErr result (λ fault. fault ≡ memory_error) }
{
    match SectorDisk::new(alloc, sectors) {
        Ok(disk) => Ok(disk),
        Err(error) => Err(RunError::from(error)),
    }
}
