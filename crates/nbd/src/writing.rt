//! Writes, trims and flushes. Each is cut into requests that the recorder takes, and these are
//! recorded one after another.
ghost use Rattle.std.specs.Prelude.{◌≡◌, ◌<◌, ◌≤◌, ◌*◌, Err, IfErr, IfOk, List, Ok, false, length, true, ℕ};
ghost use Rattle.std.specs.Io.KnownBytes.{Consumes, IsAtEnd};
ghost use Rattle.bio.specs.declared.request.Bio.{Bio};
ghost use Rattle.bio.specs.declared.request.Bio.TheVariants as bios;
ghost use Rattle.nbd.specs.Requests.{AreDiscards, BreaksIn, GiveInTurn, IsInDevice, Trims};
ghost use Rattle.nbd.specs.Requests.{TrimsParts, WritesBody, WritesParts};
ghost use Rattle.nbd.specs.Serving.{GivesResult, ServerFrame};

use crate::fault::RequestFault;
use crate::laws::servers_go_as_one;
use crate::pipes::{skip, take_all};
use crate::range::{Range, range_of};
use crate::reading::buffer_for;
use crate::server::Server;
use crate::session::SessionEnd;
use crate::wire::RequestHeader;
use bio::{Bio, Bytes, MAX_REQUEST_SECTORS, Ms, SECTOR_BYTES};
use blockdev::BlockDev;
use std::io::Read;

// Reads the data of a write, and does the write, in parts of at most 2,048 sectors. If a part
// fails, the later parts aren't done. All the data is read in any case.
pub(crate) fn write<D: BlockDev + Drop, L: BlockDev + Drop, I: Read>(
    server: &mut Server<D, L>,
    header: &RequestHeader,
    now: Ms,
    input: &mut I,
) -> Result<Result<(), RequestFault>, SessionEnd>
    ensures writes { IfOk result (λ answer. (body : List ℕ) × (length body ≡ header.now.length)
        × Consumes (I.remaining input.old) (I.remaining input.new) body
        × WritesBody now header.now body answer server.old server.new) }
    ensures breaks { BreaksIn server.old server.new }
    ensures ended { result ≡ Err SessionEnd.InputEnded → IsAtEnd (I.remaining input.new) }
    ensures goes { ServerFrame server.old server.new }
{
    match range_of(header, server.block(), server.sectors()) {
        Ok(range) => write_parts(server, range, header.has_fua(), now, input),
        Err(fault) => refuse_write(server, header.length, fault, input),
    }
}

// Reads the data of a write that is refused, and drops it.
#[tactic(auto, using(crate::proofs::Breaks::breaks_none))]
fn refuse_write<D: BlockDev + Drop, L: BlockDev + Drop, I: Read>(
    server: &mut Server<D, L>,
    bytes: u32,
    fault: RequestFault,
    input: &mut I,
) -> Result<Result<(), RequestFault>, SessionEnd>
    ensures drops { IfOk result (λ answer. (answer ≡ Err fault) × ((body : List ℕ)
        × (length body ≡ bytes)
        × Consumes (I.remaining input.old) (I.remaining input.new) body)) }
    ensures same { server.new ≡ server.old }
    ensures breaks { BreaksIn server.old server.new }
    ensures ended { result ≡ Err SessionEnd.InputEnded → IsAtEnd (I.remaining input.new) }
    ensures goes { ServerFrame server.old server.new }
{
    servers_go_as_one::<D, L>();
    skip(input, u64::from(bytes))?;
    Ok(Err(fault))
}

// Reads the data of a write over these sectors, and does the write.
fn write_parts<D: BlockDev + Drop, L: BlockDev + Drop, I: Read>(
    server: &mut Server<D, L>,
    range: Range,
    fua: bool,
    now: Ms,
    input: &mut I,
) -> Result<Result<(), RequestFault>, SessionEnd>
    requires { IsInDevice server.old range }
    ensures writes { IfOk result (λ answer. (body : List ℕ) × (length body ≡ range.count * 512)
        × Consumes (I.remaining input.old) (I.remaining input.new) body
        × WritesParts now fua range.first body answer server.old server.new) }
    ensures breaks { BreaksIn server.old server.new }
    ensures ended { result ≡ Err SessionEnd.InputEnded → IsAtEnd (I.remaining input.new) }
    ensures goes { ServerFrame server.old server.new }
{
    // For the prover: `ServerFrame` holds for two calls if it holds for each.
    servers_go_as_one::<D, L>();
    let mut done = 0;
    while done < range.count {
        let part = Range {
            first: range.first + done,
            count: (range.count - done).min(MAX_REQUEST_SECTORS),
        };
        if let Err(fault) = write_part(server, part, fua, now, input)? {
            skip(input, (range.count - done - part.count) * SECTOR_BYTES)?;
            return Ok(Err(fault));
        }
        done += part.count;
    }
    Ok(Ok(()))
}

// Reads the data of one part of a write, and does this part.
fn write_part<D: BlockDev + Drop, L: BlockDev + Drop, I: Read>(
    server: &mut Server<D, L>,
    part: Range,
    fua: bool,
    now: Ms,
    input: &mut I,
) -> Result<Result<(), RequestFault>, SessionEnd>
    requires device { IsInDevice server.old part }
    requires some { 0 < part.count }
    requires short { part.count ≤ 2048 }
    ensures writes { IfOk result (λ answer. (body : List ℕ) × (length body ≡ part.count * 512)
        × Consumes (I.remaining input.old) (I.remaining input.new) body
        × GivesResult now (bios.Write part.first body false fua false) answer server.old server.new) }
    ensures kept { IfErr result (λ end. server.new ≡ server.old) }
    ensures ended { result ≡ Err SessionEnd.InputEnded → IsAtEnd (I.remaining input.new) }
    ensures goes { ServerFrame server.old server.new }
{
    // For the prover: `ServerFrame` holds if nothing happens.
    servers_go_as_one::<D, L>();
    let Ok(mut bytes) = buffer_for(server.alloc(), part.count) else {
        skip(input, part.count * SECTOR_BYTES)?;
        return Ok(Err(RequestFault::NoMemory));
    };
    take_all(input, &mut bytes)?;
    let Ok(bytes) = Bytes::from_vec(bytes).into_shared() else {
        return Ok(Err(RequestFault::NoMemory));
    };
    Ok(server.record(
        now,
        Bio::Write {
            first: part.first,
            bytes,
            flush: false,
            fua,
            meta: false,
        },
    ))
}

// Makes the sectors of a trim zeroes, in parts of at most 2,048 sectors, and flushes the device
// then if the trim has FUA. If a part fails, the later ones aren't done.
pub(crate) fn trim<D: BlockDev + Drop, L: BlockDev + Drop>(
    server: &mut Server<D, L>,
    header: &RequestHeader,
    now: Ms,
) -> Result<(), RequestFault>
    ensures trims { Trims now header.now result server.old server.new }
    ensures goes { ServerFrame server.old server.new }
{
    // For the prover: `ServerFrame` holds if nothing happens.
    servers_go_as_one::<D, L>();
    match range_of(header, server.block(), server.sectors()) {
        Ok(range) => trim_parts(server, range, header.has_fua(), now),
        Err(fault) => Err(fault),
    }
}

// Makes these sectors zeroes, and flushes the device then if `fua` is true.
fn trim_parts<D: BlockDev + Drop, L: BlockDev + Drop>(
    server: &mut Server<D, L>,
    range: Range,
    fua: bool,
    now: Ms,
) -> Result<(), RequestFault>
    requires { IsInDevice server.old range }
    ensures trims { TrimsParts now fua range result server.old server.new }
    ensures goes { ServerFrame server.old server.new }
{
    // For the prover: `ServerFrame` holds for two calls if it holds for each.
    servers_go_as_one::<D, L>();
    match discard_parts(server, range, now) {
        Ok(()) => flush_if(server, fua, now),
        Err(fault) => Err(fault),
    }
}

// Flushes the device if `fua` is true.
fn flush_if<D: BlockDev + Drop, L: BlockDev + Drop>(
    server: &mut Server<D, L>,
    fua: bool,
    now: Ms,
) -> Result<(), RequestFault>
    ensures gives { fua ≡ true → GivesResult now bios.Flush result server.old server.new }
    ensures none { fua ≡ false → (result ≡ Ok tt) × (server.new ≡ server.old) }
    ensures goes { ServerFrame server.old server.new }
{
    // For the prover: `ServerFrame` holds if nothing happens.
    servers_go_as_one::<D, L>();
    if fua {
        return flush(server, now);
    }
    Ok(())
}

// Discards these sectors.
fn discard_parts<D: BlockDev + Drop, L: BlockDev + Drop>(
    server: &mut Server<D, L>,
    range: Range,
    now: Ms,
) -> Result<(), RequestFault>
    requires { IsInDevice server.old range }
    ensures discards { (parts : List Bio) × AreDiscards range.first range.count parts
        × GiveInTurn now parts result server.old server.new }
    ensures goes { ServerFrame server.old server.new }
{
    // For the prover: `ServerFrame` holds for two calls if it holds for each.
    servers_go_as_one::<D, L>();
    let mut done = 0;
    while done < range.count {
        let part = Range {
            first: range.first + done,
            count: (range.count - done).min(MAX_REQUEST_SECTORS),
        };
        if let Err(fault) = discard_part(server, part, now) {
            return Err(fault);
        }
        done += part.count;
    }
    Ok(())
}

// Discards the sectors of one part of a trim.
fn discard_part<D: BlockDev + Drop, L: BlockDev + Drop>(
    server: &mut Server<D, L>,
    part: Range,
    now: Ms,
) -> Result<(), RequestFault>
    requires device { IsInDevice server.old part }
    requires some { 0 < part.count }
    requires short { part.count ≤ 2048 }
    ensures gives { GivesResult now (bios.Discard part.first part.count) result server.old server.new }
    ensures goes { ServerFrame server.old server.new }
{
    server.record(
        now,
        Bio::Discard {
            first: part.first,
            count: part.count,
        },
    )
}

// Flushes the device.
pub(crate) fn flush<D: BlockDev + Drop, L: BlockDev + Drop>(
    server: &mut Server<D, L>,
    now: Ms,
) -> Result<(), RequestFault>
    ensures gives { GivesResult now bios.Flush result server.old server.new }
    ensures goes { ServerFrame server.old server.new }
{
    server.record(now, Bio::Flush)
}
