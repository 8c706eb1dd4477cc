// Opens the log of an image, which becomes a disk without a copy. The log's entries are read one by
// one, without a write's data.
ghost use Rattle.std.specs.Prelude.{◌≡◌, ◌⊎◌, IfErr, IfOk, List, Option, false};
ghost use Rattle.log_format.specs.declared.entry.Entry.{Entry};
ghost use Rattle.log_reader.specs.declared.fault.LogFault.{LogFault};
ghost use Rattle.log_reader.specs.Reader.{GivesWithin, Keeps, reader_of};
ghost use Rattle.log_reader.specs.DiskLog.{ReadsDiskLog};
ghost use Rattle.refusals.specs.Errors.{memory_error};
ghost use Rattle.dmlw_files.specs.Files.{IsImage};
ghost use Rattle.dmlw_commands.specs.Lists.{GivesNext, Opens, RefusesImage};

use blockdev::laws::crashes_leave_whole_sectors;
use log_format::{Entry, Placed};
use log_reader::LogReader;
use refusals::{Refusal, RunError};
use sector_disk::{Image, SectorDisk};
use std::alloc::Global;

pub(crate) fn open_image(alloc: Global, image: Image) -> Result<LogReader<SectorDisk>, RunError>
    requires { IsImage image }
    ensures opened { IfOk result (λ reader. Opens image (reader_of reader)) }
    ensures refused { IfErr result
        (λ fault. (fault ≡ memory_error) ⊎ RefusesImage image fault) }
{
    // For the prover: a device's content has whole sectors of 512 bytes.
    crashes_leave_whole_sectors::<SectorDisk>();
    let disk = SectorDisk::from_image(alloc, image)?;
    match LogReader::open(alloc, disk) {
        Ok(reader) => Ok(reader),
        Err((_disk, error)) => Err(RunError::from(Refusal::from(error))),
    }
}

// Reads the next entry in the log of an image, without a write's data. None after the last entry.
pub(crate) fn next_of_image(
    reader: &mut LogReader<SectorDisk>,
) -> Result<Option<(Placed, Entry)>, RunError>
    requires { (reader_of reader.old).failed ≡ false }
    ensures gives { (es : List Entry) (fault : Option LogFault) →
        ReadsDiskLog (reader_of reader.old).device.size (reader_of reader.old).device.content
        (reader_of reader.old).head es fault →
        GivesNext es fault (reader_of reader.old) (reader_of reader.new) result }
    ensures within { GivesWithin (reader_of reader.old).device.size
        (reader_of reader.old).head.sectorsize result }
    ensures keeps { Keeps (reader_of reader.old) (reader_of reader.new) }
{
    match reader.next_head() {
        Ok(found) => Ok(found),
        Err(error) => Err(RunError::from(Refusal::from(error))),
    }
}
