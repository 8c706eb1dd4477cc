//! The requests of a session, one after another, up to its end.
ghost use Rattle.std.specs.Prelude.{◌≡◌, ◌≢◌, ◌++◌, Err, IfErr, IfOk, OnOk, List, [], false, length, true, ℕ};
ghost use Rattle.std.specs.Io.KnownBytes.{Appends, Consumes, IsAtEnd};
ghost use Rattle.nbd.specs.declared.server.Server.{Server};
ghost use Rattle.nbd.specs.Requests.{RepliesTo, BreaksIn, BreaksOff, Disconnects, Plays};
ghost use Rattle.nbd.specs.Serving.{ServerFrame};
ghost use Rattle.nbd.specs.Wire.{command_of, error_of, reply_bytes};

use crate::fault::RequestFault;
use crate::host::Host;
use crate::laws::servers_go_as_one;
use crate::pipes::{send, take};
use crate::reading::answer_read;
use crate::server::Server;
use crate::wire::{REQUEST_BYTES, RequestHeader, RequestKind, read_header, reply_header};
use crate::writing::{flush, trim, write};
use bio::{End, Ms};
use blockdev::BlockDev;
use std::io::{Read, Write};

/// Why a handshake or a session broke off.
#[derive(Clone, Copy, Debug, PartialEq, Eq)]
pub enum SessionEnd {
    /// The input ended, between two requests or within one.
    InputEnded,
    /// The client sent something that isn't of the protocol.
    BadRequest,
    /// The input can't be read.
    InputFailed,
    /// The output can't be written.
    OutputFailed,
    /// The data device failed a read whose reply had begun.
    ReadFailed,
    /// Memory for an option ran out.
    NoMemory,
    /// There were 2^64 - 1 requests or options.
    TooLong,
}

/// Does and answers the requests of the input, until the client disconnects. Before each request
/// the marks that were set meanwhile are recorded. Returns why the session broke off, if it did
/// before the client disconnected.
pub fn transmit<D: BlockDev + Drop, L: BlockDev + Drop, I: Read, O: Write, H: Host>(
    server: &mut Server<D, L>,
    input: &mut I,
    output: &mut O,
    host: &mut H,
) -> Result<(), SessionEnd>
    ensures disconnected { OnOk result ((taken out : List ℕ)
        × Consumes (I.remaining input.old) (I.remaining input.new) taken
        × Appends (O.contents output.old) (O.contents output.new) out
        × Disconnects taken out server.old server.new) }
    ensures broke_off { IfErr result (λ end. BreaksOff (I.remaining input.old)
        (O.contents output.old) server.old server.new) }
    ensures ended { result ≡ Err SessionEnd.InputEnded → IsAtEnd (I.remaining input.new) }
    ensures goes { ServerFrame server.old server.new }
{
    // For the prover: `ServerFrame` holds for two calls if it holds for each.
    servers_go_as_one::<D, L>();
    for _ in 0..u64::MAX {
        let goes_on = serve_next(server, input, output, host)?;
        if !goes_on {
            return Ok(());
        }
    }
    Err(SessionEnd::TooLong)
}

// Does and answers the next request, and returns true; or returns false if the client disconnects
// by it. The marks that were set before it came are recorded first.
fn serve_next<D: BlockDev + Drop, L: BlockDev + Drop, I: Read, O: Write, H: Host>(
    server: &mut Server<D, L>,
    input: &mut I,
    output: &mut O,
    host: &mut H,
) -> Result<bool, SessionEnd>
    ensures serves { IfOk result (λ goes_on. (taken out : List ℕ)
        × Consumes (I.remaining input.old) (I.remaining input.new) taken
        × Appends (O.contents output.old) (O.contents output.new) out
        × (goes_on ≡ true → Plays taken out server.old server.new)
        × (goes_on ≡ false → Disconnects taken out server.old server.new)) }
    ensures breaks { (last : Server D L D.BlockDev L.BlockDev) × Plays [] [] server.old last
        × BreaksIn last server.new }
    ensures ended { result ≡ Err SessionEnd.InputEnded → IsAtEnd (I.remaining input.new) }
    ensures goes { ServerFrame server.old server.new }
{
    // For the prover: `ServerFrame` holds for two calls if it holds for each.
    servers_go_as_one::<D, L>();
    let mut bytes = [0; REQUEST_BYTES];
    let filled = take(input, &mut bytes);
    note_marks(server, host);
    match filled {
        Ok(()) => serve_request(server, &bytes, input, output, host),
        Err(end) => Err(end),
    }
}

// Records the marks that were set since the last look.
fn note_marks<D: BlockDev + Drop, L: BlockDev + Drop, H: Host>(
    server: &mut Server<D, L>,
    host: &mut H,
)
    ensures plays { Plays [] [] server.old server.new }
    ensures goes { ServerFrame server.old server.new }
{
    // For the prover: `ServerFrame` holds for two calls if it holds for each.
    servers_go_as_one::<D, L>();
    for _ in 0..u64::MAX {
        let Some(text) = host.next_mark() else {
            return;
        };
        server.mark(host.now(), text);
    }
}

// Does and answers the request of the header `bytes`, and returns true; or returns false if the
// client disconnects by it.
#[tactic(auto, using(crate::proofs::Breaks::breaks_none))]
fn serve_request<D: BlockDev + Drop, L: BlockDev + Drop, I: Read, O: Write, H: Host>(
    server: &mut Server<D, L>,
    bytes: &[u8],
    input: &mut I,
    output: &mut O,
    host: &mut H,
) -> Result<bool, SessionEnd>
    requires { length bytes.now ≡ 28 }
    ensures serves { IfOk result (λ goes_on. (body out : List ℕ)
        × Consumes (I.remaining input.old) (I.remaining input.new) body
        × Appends (O.contents output.old) (O.contents output.new) out
        × (goes_on ≡ true → Plays (bytes.now ++ body) out server.old server.new)
        × (goes_on ≡ false → Disconnects (bytes.now ++ body) out server.old server.new)) }
    ensures breaks { BreaksIn server.old server.new }
    ensures ended { result ≡ Err SessionEnd.InputEnded → IsAtEnd (I.remaining input.new) }
    ensures goes { ServerFrame server.old server.new }
{
    // For the prover: `ServerFrame` holds if nothing happens.
    servers_go_as_one::<D, L>();
    let Some(header) = read_header(bytes) else {
        return Err(SessionEnd::BadRequest);
    };
    if let RequestKind::Disconnect = header.command() {
        return Ok(false);
    }
    host.request_came(&header);
    let before = server.recorder().status().end;
    answer(server, &header, host.now(), input, output)?;
    tell_end(host, before, server.recorder().status().end);
    Ok(true)
}

// Tells the surroundings if logging ended in a request.
fn tell_end<H: Host>(host: &mut H, before: Option<End>, after: Option<End>) {
    if let (None, Some(cause)) = (before, after) {
        host.logging_ended(cause);
    }
}

// Does a request other than one to disconnect, and sends its reply.
fn answer<D: BlockDev + Drop, L: BlockDev + Drop, I: Read, O: Write>(
    server: &mut Server<D, L>,
    header: &RequestHeader,
    now: Ms,
    input: &mut I,
    output: &mut O,
) -> Result<(), SessionEnd>
    requires { command_of header.now.kind ≢ RequestKind.Disconnect }
    ensures answers { OnOk result ((body out : List ℕ)
        × Consumes (I.remaining input.old) (I.remaining input.new) body
        × Appends (O.contents output.old) (O.contents output.new) out
        × RepliesTo (command_of header.now.kind) now header.now body out server.old server.new) }
    ensures breaks { BreaksIn server.old server.new }
    ensures ended { result ≡ Err SessionEnd.InputEnded → IsAtEnd (I.remaining input.new) }
    ensures goes { ServerFrame server.old server.new }
{
    // For the prover: `ServerFrame` holds if nothing happens.
    servers_go_as_one::<D, L>();
    match header.command() {
        RequestKind::Read => answer_read(server, header, now, output),
        RequestKind::Write => answer_write(server, header, now, input, output),
        RequestKind::Flush => {
            let done = flush(server, now);
            reply(output, header.cookie, done)
        }
        RequestKind::Trim => {
            let done = trim(server, header, now);
            reply(output, header.cookie, done)
        }
        RequestKind::Other => reply(output, header.cookie, Err(RequestFault::Invalid)),
        RequestKind::Disconnect => Ok(()),
    }
}

// Does a write, and sends its reply.
fn answer_write<D: BlockDev + Drop, L: BlockDev + Drop, I: Read, O: Write>(
    server: &mut Server<D, L>,
    header: &RequestHeader,
    now: Ms,
    input: &mut I,
    output: &mut O,
) -> Result<(), SessionEnd>
    ensures answers { OnOk result ((body out : List ℕ)
        × Consumes (I.remaining input.old) (I.remaining input.new) body
        × Appends (O.contents output.old) (O.contents output.new) out
        × RepliesTo RequestKind.Write now header.now body out server.old server.new) }
    ensures breaks { BreaksIn server.old server.new }
    ensures ended { result ≡ Err SessionEnd.InputEnded → IsAtEnd (I.remaining input.new) }
    ensures goes { ServerFrame server.old server.new }
{
    let done = write(server, header, now, input)?;
    reply(output, header.cookie, done)
}

// Sends a reply without data.
pub(crate) fn reply<O: Write>(
    output: &mut O,
    cookie: u64,
    done: Result<(), RequestFault>,
) -> Result<(), SessionEnd>
    ensures sends { OnOk result (Appends (O.contents output.old) (O.contents output.new)
        (reply_bytes (error_of done) cookie)) }
    ensures not_ended { result ≢ Err SessionEnd.InputEnded }
{
    let error = match done {
        Ok(()) => 0,
        Err(fault) => fault.number(),
    };
    send(output, &reply_header(error, cookie))
}
