//! Reads.
ghost use Rattle.std.specs.Prelude.{min, ◌≡◌, ◌≢◌, ◌<◌, ◌≤◌, Err, IfErr, IfOk, OnOk, List, length, ◌*◌, ℕ};
ghost use Rattle.std.specs.Io.KnownBytes.{Appends};
ghost use Rattle.bio.specs.Content.{gather};
ghost use Rattle.nbd.specs.Requests.{AnswersRead, FailsInRange, IsInDevice, OnlyReadsData, SendsRange};
ghost use Rattle.nbd.specs.Serving.{ServerFrame};

use crate::fault::RequestFault;
use crate::laws::servers_go_as_one;
use crate::pipes::send;
use crate::range::{Range, range_of};
use crate::server::Server;
use crate::session::{SessionEnd, reply};
use crate::wire::{RequestHeader, reply_header};
use bio::{MAX_REQUEST_SECTORS, Ms, SECTOR_BYTES};
use blockdev::BlockDev;
use std::alloc::{AllocError, Global};
use std::io::Write;

// Does a read, and sends its reply with the data.
#[tactic(auto, using(crate::proofs::Parts::reads_none))]
pub(crate) fn answer_read<D: BlockDev + Drop, L: BlockDev + Drop, O: Write>(
    server: &mut Server<D, L>,
    header: &RequestHeader,
    now: Ms,
    output: &mut O,
) -> Result<(), SessionEnd>
    ensures answers { OnOk result ((out : List ℕ)
        × Appends (O.contents output.old) (O.contents output.new) out
        × AnswersRead now header.now out server.old server.new) }
    ensures only { OnlyReadsData server.old server.new }
    ensures not_ended { result ≢ Err SessionEnd.InputEnded }
    ensures goes { ServerFrame server.old server.new }
{
    // For the prover: `ServerFrame` holds if nothing happens.
    servers_go_as_one::<D, L>();
    match range_of(header, server.block(), server.sectors()) {
        Ok(range) => answer_range(server, range, header.cookie, now, output),
        Err(fault) => reply(output, header.cookie, Err(fault)),
    }
}

// Reads these sectors, and sends the reply with the data.
#[tactic(auto, using(crate::proofs::Parts::reads_none))]
fn answer_range<D: BlockDev + Drop, L: BlockDev + Drop, O: Write>(
    server: &mut Server<D, L>,
    range: Range,
    cookie: u64,
    now: Ms,
    output: &mut O,
) -> Result<(), SessionEnd>
    requires device { IsInDevice server.old range }
    requires some { 0 < range.count }
    ensures answers { OnOk result ((out : List ℕ)
        × Appends (O.contents output.old) (O.contents output.new) out
        × SendsRange now range cookie out server.old server.new) }
    ensures only { OnlyReadsData server.old server.new }
    ensures not_ended { result ≢ Err SessionEnd.InputEnded }
    ensures goes { ServerFrame server.old server.new }
{
    // For the prover: `ServerFrame` holds if nothing happens.
    servers_go_as_one::<D, L>();
    let Ok(mut buffer) = buffer_for(server.alloc(), range.count.min(MAX_REQUEST_SECTORS)) else {
        return reply(output, cookie, Err(RequestFault::NoMemory));
    };
    if range.count <= MAX_REQUEST_SECTORS {
        return answer_short(server, range, cookie, now, buffer.as_mut_slice(), output);
    }
    answer_long(server, range, cookie, now, buffer.as_mut_slice(), output)
}

// Reads sectors that fit in the buffer, and sends the reply with the data.
fn answer_short<D: BlockDev + Drop, L: BlockDev + Drop, O: Write>(
    server: &mut Server<D, L>,
    range: Range,
    cookie: u64,
    now: Ms,
    buffer: &mut [u8],
    output: &mut O,
) -> Result<(), SessionEnd>
    requires device { IsInDevice server.old range }
    requires some { 0 < range.count }
    requires buffer { length buffer.old ≡ range.count * 512 }
    ensures answers { OnOk result ((out : List ℕ)
        × Appends (O.contents output.old) (O.contents output.new) out
        × SendsRange now range cookie out server.old server.new) }
    ensures only { OnlyReadsData server.old server.new }
    ensures not_ended { result ≢ Err SessionEnd.InputEnded }
    ensures goes { ServerFrame server.old server.new }
{
    match server.read(now, range.first, buffer) {
        Ok(()) => {
            send(output, &reply_header(0, cookie))?;
            send(output, buffer)
        }
        Err(fault) => reply(output, cookie, Err(fault)),
    }
}

// Reads sectors that don't fit in the buffer, and sends the reply with the data. A reply tells an
// error before its data, and so much data isn't held in memory as a whole. So it is read twice:
// first to see whether the device fails a read.
fn answer_long<D: BlockDev + Drop, L: BlockDev + Drop, O: Write>(
    server: &mut Server<D, L>,
    range: Range,
    cookie: u64,
    now: Ms,
    buffer: &mut [u8],
    output: &mut O,
) -> Result<(), SessionEnd>
    requires device { IsInDevice server.old range }
    requires buffer { length buffer.old ≡ min range.count 2048 * 512 }
    ensures answers { OnOk result ((out : List ℕ)
        × Appends (O.contents output.old) (O.contents output.new) out
        × SendsRange now range cookie out server.old server.new) }
    ensures only { OnlyReadsData server.old server.new }
    ensures not_ended { result ≢ Err SessionEnd.InputEnded }
    ensures goes { ServerFrame server.old server.new }
{
    // For the prover: `ServerFrame` holds for two calls if it holds for each.
    servers_go_as_one::<D, L>();
    match try_parts(server, range, now, buffer) {
        Ok(()) => {
            send(output, &reply_header(0, cookie))?;
            send_parts(server, range, now, buffer, output)
        }
        Err(fault) => reply(output, cookie, Err(fault)),
    }
}

// Reads all sectors of the range, a part at a time, to see whether the device fails a read.
fn try_parts<D: BlockDev + Drop, L: BlockDev + Drop>(
    server: &mut Server<D, L>,
    range: Range,
    now: Ms,
    buffer: &mut [u8],
) -> Result<(), RequestFault>
    requires device { IsInDevice server.old range }
    requires buffer { length buffer.old ≡ min range.count 2048 * 512 }
    ensures fails { IfErr result (λ fault. FailsInRange now range fault server.old server.new) }
    ensures length { length buffer.new ≡ length buffer.old }
    ensures only { OnlyReadsData server.old server.new }
    ensures goes { ServerFrame server.old server.new }
{
    // For the prover: `ServerFrame` holds for two calls if it holds for each.
    servers_go_as_one::<D, L>();
    let mut done = 0;
    while done < range.count {
        let count = (range.count - done).min(MAX_REQUEST_SECTORS);
        let part = &mut buffer[..(count * SECTOR_BYTES) as usize];
        if let Err(fault) = server.read(now, range.first + done, part) {
            return Err(fault);
        }
        done += count;
    }
    Ok(())
}

// Reads all sectors of the range, a part at a time, and sends them.
fn send_parts<D: BlockDev + Drop, L: BlockDev + Drop, O: Write>(
    server: &mut Server<D, L>,
    range: Range,
    now: Ms,
    buffer: &mut [u8],
    output: &mut O,
) -> Result<(), SessionEnd>
    requires device { IsInDevice server.old range }
    requires buffer { length buffer.old ≡ min range.count 2048 * 512 }
    ensures sends { OnOk result (Appends (O.contents output.old) (O.contents output.new)
        (gather (D.shown server.old.disk).content range.first range.count)) }
    ensures only { OnlyReadsData server.old server.new }
    ensures not_ended { result ≢ Err SessionEnd.InputEnded }
    ensures goes { ServerFrame server.old server.new }
{
    // For the prover: `ServerFrame` holds for two calls if it holds for each.
    servers_go_as_one::<D, L>();
    let mut done = 0;
    while done < range.count {
        let count = (range.count - done).min(MAX_REQUEST_SECTORS);
        let part = &mut buffer[..(count * SECTOR_BYTES) as usize];
        let Ok(()) = server.read(now, range.first + done, part) else {
            return Err(SessionEnd::ReadFailed);
        };
        send(output, part)?;
        done += count;
    }
    Ok(())
}

// Returns a buffer of `count` sectors.
pub(crate) fn buffer_for(alloc: Global, count: u64) -> Result<Vec<u8>, AllocError>
    requires { count ≤ 2048 }
    ensures { IfOk result (λ buffer. length buffer.items ≡ count * 512) }
{
    vec![in alloc; 0; (count * SECTOR_BYTES) as usize]
}
