//! Reads the head of a script, line by line: the disks, the size of the log's sectors, and the
//! layers.
ghost use Rattle.std.specs.Prelude.{◌≡◌, List, false, ℕ};
ghost use Rattle.bio.specs.Requests.{bytes_of};
ghost use Rattle.dmlw_script.specs.Plans.{is_disk_size as is_a_disk_size};
ghost use Rattle.dmlw_script.specs.Plans.{is_log_disk_size as is_a_log_disk_size};
ghost use Rattle.dmlw_script.specs.Plans.{layer_is_within as is_within_them};
ghost use Rattle.dmlw_script.specs.inside.Drafts.{AgreesWithStep};
ghost use Rattle.dmlw_script.specs.inside.Heads.{head_step, layer_in, layer_step, stage_of};
ghost use Rattle.dmlw_script.specs.inside.Stages as heads;

use crate::command::DiskName;
use crate::disk::DiskSpec;
use crate::line::HeadLine;
use crate::line_error::LineError;
use bio::{MAX_DEVICE_SECTORS, SectorSize};
use layer_table::{LayerSpec, TableError};
use refusals::Refusal;
use std::alloc::Global;

/// The maximum number of layers over one disk.
pub const MAX_LAYERS: usize = 4;

/// How much of the head of a script was read, and whether a crash has ended the script.
#[derive(Clone, Copy)]
pub(crate) enum HeadPart {
    /// Nothing was read. The line of the data disk comes next.
    Nothing,
    /// The line of the data disk was read. The line of the log disk comes next.
    Data,
    /// The lines of both disks were read, and no crash.
    Whole,
    /// The whole script was read: a crash has ended it.
    Ended,
}

/// The head of a script, as far as it was read.
#[derive(Drop)]
pub(crate) struct Head {
    pub(crate) part: HeadPart,
    /// The data disk; it has 0 sectors until its line is read.
    pub(crate) data_disk: DiskSpec,
    /// The log disk; it has 0 sectors until its line is read.
    pub(crate) log_disk: DiskSpec,
    /// The size of the log's sectors; it is 512 bytes until the log disk's line is read.
    pub(crate) log_size: SectorSize,
}

impl Head {
    pub(crate) fn new(alloc: Global) -> Head
        ensures { (picks : List ℕ) → stage_of picks result ≡ heads.Empty }
    {
        Head {
            part: HeadPart::Nothing,
            data_disk: DiskSpec::new(alloc, 0),
            log_disk: DiskSpec::new(alloc, 0),
            log_size: SectorSize::B512,
        }
    }

    /// Reads the next line of the head. If `began`, no layer may follow.
    pub(crate) fn read(
        &mut self,
        alloc: Global,
        line: HeadLine,
        began: bool,
    ) -> Result<(), LineError>
        ensures { (picks : List ℕ)
            → AgreesWithStep result (stage_of picks self.new)
            (head_step (stage_of picks self.old) began line) }
    {
        match (self.part, line) {
            (HeadPart::Nothing, HeadLine::Data { sectors }) if is_disk_size(sectors) => {
                self.data_disk = DiskSpec::new(alloc, sectors);
                self.part = HeadPart::Data;
                Ok(())
            }
            (HeadPart::Data, HeadLine::Log { sectors, size }) if is_log_disk_size(sectors, size) =>
                {
                    self.log_disk = DiskSpec::new(alloc, sectors);
                    self.log_size = size;
                    self.part = HeadPart::Whole;
                    Ok(())
                }
            (HeadPart::Whole, HeadLine::Layer { over, asked }) if !began => self.layer(over, asked),
            _ => Err(LineError::Refused(Refusal::BadLine)),
        }
    }

    // Reads the line of a layer in a head that has both disks and no body yet.
    fn layer(
        &mut self,
        over: DiskName,
        asked: Result<LayerSpec, TableError>,
    ) -> Result<(), LineError>
        requires { self.old.part ≡ HeadPart.Whole }
        ensures { (picks : List ℕ)
            → AgreesWithStep result (stage_of picks self.new)
            (layer_in false self.old.data_disk self.old.log_disk self.old.log_size over asked) }
    {
        match over {
            DiskName::Data if self.log_disk.layers().is_empty() => {
                push_layer(&mut self.data_disk, asked, 1)
            }
            DiskName::Data => Err(LineError::Refused(Refusal::BadLine)),
            DiskName::Log => push_layer(&mut self.log_disk, asked, self.log_size.sectors()),
        }
    }
}

// Puts the layer that a line asks for on top of a disk. Refuses a fifth layer, and a line that asks
// for no layer. Also refuses a layer that isn't within the device below it, or has fewer than
// `least` sectors.
fn push_layer(
    disk: &mut DiskSpec,
    asked: Result<LayerSpec, TableError>,
    least: u64,
) -> Result<(), LineError>
    ensures { AgreesWithStep result disk.new (layer_step least disk.old asked) }
{
    if disk.layers().len() >= MAX_LAYERS {
        return Err(LineError::Refused(Refusal::BadLine));
    }
    let layer = asked?;
    if !is_within(layer, disk.top_sectors()) {
        return Err(LineError::Refused(Refusal::OutOfRange));
    }
    if layer.length < least {
        return Err(LineError::Refused(Refusal::BadLine));
    }
    disk.push(layer)?;
    Ok(())
}

// Returns whether the layer is within the device below it, which has `sectors` sectors.
fn is_within(layer: LayerSpec, sectors: u64) -> bool
    ensures { result ≡ is_within_them layer sectors }
{
    layer.offset <= sectors && layer.length <= sectors - layer.offset
}

// Returns whether a disk may have `sectors` sectors.
fn is_disk_size(sectors: u64) -> bool
    ensures { result ≡ is_a_disk_size sectors }
{
    0 < sectors && sectors <= MAX_DEVICE_SECTORS
}

// Returns whether a log disk may have `sectors` sectors: a disk may, and one log sector of the size
// `size` fits on it.
fn is_log_disk_size(sectors: u64, size: SectorSize) -> bool
    ensures { result ≡ is_a_log_disk_size (bytes_of size) sectors }
{
    is_disk_size(sectors) && size.sectors() <= sectors
}
