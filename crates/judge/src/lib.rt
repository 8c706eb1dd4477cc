//! Judges whether an image could have been on a device, had power failed after some events.
//!
//! In each sector, a device may hold any value that flush, FUA and completion allow (`Possible` in
//! `bio`). `could_hold` returns whether an image has only such values. If not, it returns the
//! lowest sector that has another value, and the request that rules this value out, if any
//! (`specs/Verdicts`). To decide, `could_hold` makes an `Account` of the events and the image.
//! `is_lawful` returns whether a recorder may have recorded a list of events.
#![tactic(auto)]

pub use accounts::{Account, First};
pub use held::{SECTOR, place_in, sector_bytes};
pub use images::{beginning, could_hold};
pub use lawful::is_lawful;
pub use verdict::Verdict;

mod accounts;
mod ends;
mod held;
mod images;
mod kept;
mod lawful;
pub mod laws;
mod verdict;
