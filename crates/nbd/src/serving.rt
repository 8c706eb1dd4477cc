//! A whole session: the handshake, the requests, and the end of recording.
ghost use Rattle.std.specs.Prelude.{◌≡◌, IfOk, List, Ok, ℕ};
ghost use Rattle.std.specs.Io.KnownBytes.{Appends, Consumes};
ghost use Rattle.nbd.specs.declared.server.Server.{Server};
ghost use Rattle.nbd.specs.declared.session.SessionEnd.{SessionEnd};
ghost use Rattle.nbd.specs.Sessions.{IsBroken, SessionIsPlayed};
ghost use Rattle.nbd.specs.Serving.{EndsLog, ServerFrame};

use crate::host::Host;
use crate::laws::servers_go_as_one;
use crate::negotiation::{Export, Negotiated, negotiate};
use crate::server::Server;
use crate::session::{SessionEnd, transmit};
use bio::SECTOR_BYTES;
use blockdev::BlockDev;
use refusals::Refusal;
use std::io::{Read, Write};

/// How a session ended.
#[derive(Clone, Copy, Debug, PartialEq, Eq)]
pub enum Served {
    /// The client disconnected.
    Disconnected,
    /// The client left at the handshake.
    Left,
    /// The session broke off.
    BrokeOff(SessionEnd),
}

/// Serves a session: makes the handshake, does and answers the requests, and closes recording at
/// last, however the session ended. The close is refused if memory runs out for it.
pub fn serve<D: BlockDev + Drop, L: BlockDev + Drop, I: Read, O: Write, H: Host>(
    server: &mut Server<D, L>,
    input: &mut I,
    output: &mut O,
    host: &mut H,
) -> Result<Served, Refusal>
    ensures session { result ≡ Ok Served.Disconnected → (taken out : List ℕ)
        × Consumes (I.remaining input.old) (I.remaining input.new) taken
        × Appends (O.contents output.old) (O.contents output.new) out
        × ((now : ℕ) × (last : Server D L D.BlockDev L.BlockDev)
        × SessionIsPlayed taken out server.old last × EndsLog now last server.new) }
    ensures broke_off { (end : SessionEnd) → result ≡ Ok (Served.BrokeOff end) → (now : ℕ)
        × (last : Server D L D.BlockDev L.BlockDev)
        × IsBroken (I.remaining input.old) (O.contents output.old) server.old last
        × EndsLog now last server.new }
    ensures closes { IfOk result (λ how. (now : ℕ) × (last : Server D L D.BlockDev L.BlockDev)
        × ServerFrame server.old last × EndsLog now last server.new) }
    ensures goes { ServerFrame server.old server.new }
{
    // For the prover: `ServerFrame` holds for two calls if it holds for each.
    servers_go_as_one::<D, L>();
    let how = play(server, input, output, host);
    let now = host.now();
    match server.close(now) {
        Ok(()) => Ok(how),
        Err(refusal) => Err(refusal),
    }
}

// Makes the handshake, and does and answers the requests.
fn play<D: BlockDev + Drop, L: BlockDev + Drop, I: Read, O: Write, H: Host>(
    server: &mut Server<D, L>,
    input: &mut I,
    output: &mut O,
    host: &mut H,
) -> Served
    ensures plays { result ≡ Served.Disconnected → (taken out : List ℕ)
        × Consumes (I.remaining input.old) (I.remaining input.new) taken
        × Appends (O.contents output.old) (O.contents output.new) out
        × SessionIsPlayed taken out server.old server.new }
    ensures breaks { (end : SessionEnd) → result ≡ Served.BrokeOff end
        → IsBroken (I.remaining input.old) (O.contents output.old) server.old server.new }
    ensures goes { ServerFrame server.old server.new }
{
    // For the prover: `ServerFrame` holds if nothing happens.
    servers_go_as_one::<D, L>();
    let export = Export {
        bytes: server.sectors() * SECTOR_BYTES,
        block: server.block(),
    };
    match negotiate(server.alloc(), export, input, output) {
        Ok(Negotiated::Begun) => match transmit(server, input, output, host) {
            Ok(()) => Served::Disconnected,
            Err(end) => Served::BrokeOff(end),
        },
        Ok(Negotiated::Left) => Served::Left,
        Err(end) => Served::BrokeOff(end),
    }
}
