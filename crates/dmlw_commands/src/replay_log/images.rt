//! Replays the log in an image on the disk that another image becomes.
ghost use Rattle.std.specs.Prelude.{◌≡◌, ◌/◌, IfErr, IfOk, length};
ghost use Rattle.sector_disk.specs.DiskView.{PastBegins, shown_of};
ghost use Rattle.sector_disk.specs.RamView.{HoldsImage, ram_view};
ghost use Rattle.bio.specs.Content.{sector_of};
ghost use Rattle.refusals.specs.Errors.{memory_error};
ghost use Rattle.dmlw_files.specs.Files.{IsImage, image_of};
ghost use Rattle.dmlw_commands.specs.Replays.{FailsOnImages, ImageIsReplayed, stop_by};

use headline::{ReopenError, reopen_and_replay};
use refusals::{Refusal, RunError};
use replay::Upto;
use sector_disk::{Image, RamDisk, SectorDisk};
use std::alloc::Global;

/// The result of a replay.
#[derive(Debug, Drop)]
pub(crate) struct Replayed {
    /// The number of entries that were replayed.
    pub(crate) count: u64,
    /// The disk with the resulting image.
    pub(crate) disk: SectorDisk,
}

/// Replays a log on the disk that the image `first` becomes, up to the end that `upto` names. It
/// calls `reopen_and_replay`, whose contract has the headline. The log's disk is dropped at the
/// end.
pub(crate) fn replay_images(
    alloc: Global,
    log: Image,
    first: Image,
    upto: &Upto,
) -> Result<Replayed, RunError>
    requires log { IsImage log }
    requires first { IsImage first }
    ensures replayed { IfOk result
        (λ done. ImageIsReplayed log first upto.now done.count (image_of done.disk)) }
    ensures fails { IfErr result (FailsOnImages log first upto.now) }
{
    let log = disk_of(alloc, log)?;
    let mut disk = ram_of(alloc, first)?;
    let (_log, done) = reopen_and_replay(alloc, log, &mut disk, upto);
    match done {
        Ok(count) => {
            let disk = disk.into_disk()?;
            Ok(Replayed { count, disk })
        }
        Err(error) => Err(stop_of(error)),
    }
}

// Returns the command's fault if a log can't be opened, or its replay stopped.
fn stop_of(error: ReopenError) -> RunError
    ensures { result ≡ stop_by error }
{
    match error {
        ReopenError::Open(error) => RunError::from(Refusal::from(error)),
        ReopenError::Replay(stop) => RunError::StoppedAfter {
            applied: stop.applied,
            refusal: Refusal::from(stop.cause),
        },
    }
}

fn disk_of(alloc: Global, image: Image) -> Result<SectorDisk, RunError>
    requires { IsImage image }
    ensures begins { IfOk result
        (λ disk. PastBegins (length image / 512) (sector_of image) (shown_of disk)) }
    ensures memory { IfErr result (λ fault. fault ≡ memory_error) }
{
    match SectorDisk::from_image(alloc, image) {
        Ok(disk) => Ok(disk),
        Err(error) => Err(RunError::from(error)),
    }
}

// Makes a disk without a past of an image.
fn ram_of(alloc: Global, image: Image) -> Result<RamDisk, RunError>
    requires { IsImage image }
    ensures holds { IfOk result (λ disk. HoldsImage image (ram_view disk)) }
    ensures memory { IfErr result (λ fault. fault ≡ memory_error) }
{
    match RamDisk::from_image(alloc, image) {
        Ok(disk) => Ok(disk),
        Err(error) => Err(RunError::from(error)),
    }
}
