//! A disk in memory. Its contracts say exactly what a crash may leave.
//!
//! `SectorDisk` is a device that fails only if an allocation fails, and never lies. The disk stores
//! its past: its first content, and each write and discard since. `crash` leaves exactly what its
//! picks name (`specs/Candidates`). `RamDisk` stores no past, so it promises nothing about a crash.
#![tactic(auto)]

pub use disk::{RamDisk, SectorDisk};
pub use pieces::Image;

mod call;
mod choice;
mod disk;
mod filled;
pub mod laws;
mod packed;
mod piece;
mod pieces;
mod runs;
