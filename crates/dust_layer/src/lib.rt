//! `Dust`, a device with bad blocks over any other device. In one of its two modes, bad blocks fail
//! calls. In that mode, a block leaves the list of bad blocks if a write or a discard of it
//! succeeds.
#![tactic(auto)]

pub use dust::Dust;
pub use mode::Mode;

mod apply;
mod bad_blocks;
mod blocks;
mod dust;
pub mod laws;
mod mode;
mod order;
mod parts;
