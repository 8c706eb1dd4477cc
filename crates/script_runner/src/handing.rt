//! Passes a script's requests to the data device.
ghost use Rattle.std.specs.Prelude.{◌≡◌, ◌*◌, IfSome, Ok, option_map, IsTrue, is_ok, length};
ghost use Rattle.bio.specs.Requests.{check_answer, range_answer};
ghost use Rattle.blockdev.specs.View.{Flushes, IsByteRange, Writes};
ghost use Rattle.script_runner.specs.Lines.{PassesRequest, ReadsSectors};

use bio::{Bio, DevError, Ms, SECTOR_BYTES};
use blockdev::BlockDev;
use std::alloc::Global;

// The size of a sector in bytes.
const SECTOR: usize = SECTOR_BYTES as usize;

/// Passes a request to a device, and returns the answer to the last call. A write with flush is
/// passed as a flush, and then as a write if the flush succeeds. A read makes no call, and returns
/// `Ok(now)`.
pub fn do_request<D: BlockDev>(device: &mut D, now: Ms, bio: &Bio) -> Result<Ms, DevError>
    requires { IsTrue (is_ok (check_answer bio.now (D.shown device.old).size)) }
    ensures does { PassesRequest D.does now bio.now result device.old device.new }
    ensures size { (D.shown device.new).size ≡ (D.shown device.old).size }
{
    match bio {
        Bio::Write {
            first,
            bytes,
            flush: true,
            fua,
            ..
        } => match flush(device, now) {
            Ok(_) => write(device, now, *first, bytes.as_slice(), *fua),
            Err(error) => Err(error),
        },
        Bio::Write {
            first,
            bytes,
            fua,
            ..
        } => write(device, now, *first, bytes.as_slice(), *fua),
        Bio::Flush => flush(device, now),
        Bio::Discard { first, count } => device.discard(now, *first, *count),
        Bio::Read { .. } => Ok(now),
    }
}

// Flushes a device, and returns its answer.
fn flush<D: BlockDev>(device: &mut D, now: Ms) -> Result<Ms, DevError>
    ensures does { D.does device.old Flushes now result device.new }
    ensures size { (D.shown device.new).size ≡ (D.shown device.old).size }
{
    device.flush(now)
}

// Writes whole sectors to a device, and returns its answer.
fn write<D: BlockDev>(
    device: &mut D,
    now: Ms,
    first: u64,
    bytes: &[u8],
    fua: bool,
) -> Result<Ms, DevError>
    requires { IsByteRange (D.shown device.old).size first (length bytes.now) }
    ensures does { D.does device.old (Writes first bytes.now fua) now result device.new }
    ensures size { (D.shown device.new).size ≡ (D.shown device.old).size }
{
    device.write(now, first, bytes, fua)
}

/// Reads sectors of a device. Returns None if memory for them runs out, or if the device fails the
/// read.
pub fn read_sectors<D: BlockDev>(
    device: &mut D,
    alloc: Global,
    now: Ms,
    first: u64,
    count: u64,
) -> Option<Vec<u8>>
    requires { range_answer first count (D.shown device.old).size ≡ Ok tt }
    ensures reads { ReadsSectors D.does now first count
        (option_map (λ bytes. bytes.items) result) device.old device.new }
    ensures length { IfSome result (λ bytes. length bytes.items ≡ count * 512) }
    ensures size { (D.shown device.new).size ≡ (D.shown device.old).size }
{
    let mut buffer = vec![in alloc; 0; count as usize * SECTOR].ok()?;
    match device.read(now, first, buffer.as_mut_slice()) {
        Ok(_) => Some(buffer),
        Err(_) => None,
    }
}
