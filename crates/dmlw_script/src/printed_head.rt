//! Prints the lines of a script's head.
ghost use Rattle.std.specs.Prelude.{◌≡◌, ◌++◌, flat_map, map, OnOk};
ghost use Rattle.dmlw_script.specs.Grammar.{ended_line, line_text};
ghost use Rattle.dmlw_script.specs.Plans.{data_line, head_of, layer_line, log_line};
ghost use Rattle.dmlw_script.specs.declared.command.DiskName.TheVariants as disks;

use crate::command::DiskName;
use crate::disk::DiskSpec;
use crate::parts::push_value;
use bio::SectorSize;
use layer_table::{LayerSpec, push_line};
use std::alloc::AllocError;

// Appends the lines of a head without a number of seats: the disks and their layers.
pub(crate) fn push_head(
    out: &mut Vec<u8>,
    data_disk: &DiskSpec,
    log_disk: &DiskSpec,
    log_size: SectorSize,
) -> Result<(), AllocError>
    ensures { OnOk result (out.new.items
        ≡ out.old.items ++ flat_map ended_line (head_of data_disk.now log_disk.now log_size)) }
{
    push_disks(out, data_disk.sectors(), log_disk.sectors(), log_size)?;
    push_disk_layers(out, data_disk, log_disk)
}

// Appends the lines of both disks: the number of sectors of each, and the size of the log's
// sectors.
pub(crate) fn push_disks(
    out: &mut Vec<u8>,
    data_sectors: u64,
    log_sectors: u64,
    log_size: SectorSize,
) -> Result<(), AllocError>
    ensures { OnOk result (out.new.items
        ≡ out.old.items ++ (ended_line (data_line data_sectors)
        ++ ended_line (log_line log_sectors log_size))) }
{
    push_value(out, b"data ", data_sectors)?;
    out.push(b'\n')?;
    push_log(out, log_sectors, log_size)?;
    out.push(b'\n')?;
    Ok(())
}

// Appends the lines of the data disk's layers, then of the log disk's.
pub(crate) fn push_disk_layers(
    out: &mut Vec<u8>,
    data_disk: &DiskSpec,
    log_disk: &DiskSpec,
) -> Result<(), AllocError>
    ensures { OnOk result (out.new.items ≡ out.old.items
        ++ (flat_map ended_line (map (layer_line disks.Data) data_disk.now.layers)
        ++ flat_map ended_line (map (layer_line disks.Log) log_disk.now.layers))) }
{
    push_layers(out, DiskName::Data, data_disk.layers())?;
    push_layers(out, DiskName::Log, log_disk.layers())
}

// Appends the line of the log disk, without its line feed. The size of the log's sectors is printed
// only if it is 4,096 bytes.
fn push_log(out: &mut Vec<u8>, sectors: u64, size: SectorSize) -> Result<(), AllocError>
    ensures { OnOk result (out.new.items ≡ out.old.items ++ line_text (log_line sectors size)) }
{
    push_value(out, b"log ", sectors)?;
    match size {
        SectorSize::B512 => Ok(()),
        SectorSize::B4096 => out.extend_from_slice(b" 4096"),
    }
}

// Appends the lines of the layers over a disk.
fn push_layers(out: &mut Vec<u8>, over: DiskName, layers: &[LayerSpec]) -> Result<(), AllocError>
    ensures { OnOk result (out.new.items
        ≡ out.old.items ++ flat_map ended_line (map (layer_line over) layers.now)) }
{
    for layer in layers {
        push_layer(out, over, layer)?;
    }
    Ok(())
}

// Appends the line of one layer over a disk.
fn push_layer(out: &mut Vec<u8>, over: DiskName, layer: &LayerSpec) -> Result<(), AllocError>
    ensures { OnOk result (out.new.items
        ≡ out.old.items ++ ended_line (layer_line over layer.now)) }
{
    let verb: &[u8] = match over {
        DiskName::Data => b"data-layer ",
        DiskName::Log => b"log-layer ",
    };
    out.extend_from_slice(verb)?;
    push_line(out, layer)?;
    out.push(b'\n')?;
    Ok(())
}
