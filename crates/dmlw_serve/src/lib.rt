//! `serve HEAD FIRST LOG`: the session of one client of the NBD protocol, recorded in a new log.
//!
//! `serve` makes the disks that HEAD names, lets crate `nbd` answer the client, and writes LOG.
//! `Surroundings` gives a session the system's time, and the lines of a file as marks, and counts the
//! client's requests. `Asked` is what the words of a command line ask for.
#![tactic(auto)]

pub use counts::Counts;
pub use session::{ServeNames, ServedSession, print_session, serve};
pub use surroundings::Surroundings;
pub use words::{Asked, read_words};

mod counts;
mod session;
mod surroundings;
mod words;
