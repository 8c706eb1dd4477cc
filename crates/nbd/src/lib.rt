//! A server of the NBD protocol over a recorder: a file system's requests come as bytes, and each
//! is recorded, done on the data device and answered.
//!
//! The protocol is doc/proto.md of the NetworkBlockDevice project: the fixed newstyle handshake
//! (`negotiate`), then requests with simple replies (`transmit`). `serve` does both, and closes
//! recording at last. `Server` has the recorder and the data device, and does one request at a
//! time. So the recorder's events are the requests in the order in which they came, and what holds
//! for the recorder's log holds for a session's.
//!
//! Input and output are any reader and writer. The contracts speak of their bytes where these are
//! known, as they are for bytes in memory. `specs/Wire` says what the bytes of requests and replies
//! mean, `specs/Serving` what each request does, `specs/Requests` what a session does.
#![tactic(auto)]

pub use fault::RequestFault;
pub use host::Host;
pub use negotiation::{Export, Negotiated, negotiate};
pub use range::Range;
pub use server::Server;
pub use serving::{Served, serve};
pub use session::{SessionEnd, transmit};
pub use wire::{REQUEST_BYTES, RequestHeader, RequestKind};

mod fault;
mod host;
pub mod laws;
mod negotiation;
mod pipes;
mod range;
mod reading;
mod server;
mod serving;
mod session;
mod wire;
mod writing;
