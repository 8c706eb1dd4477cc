//! The headline in one call: opens a log that a crash left, and replays it.
//!
//! `reopen_and_replay` does both, on any devices. Its clause `headline` connects the result to the
//! recorder that wrote the log (`specs/Headline`). The recorded device could hold what the replay
//! leaves, had power failed at a moment to which the replayed entries belong. `laws` shows that its
//! premises can be met.
#![tactic(auto)]

pub use reopening::{ReopenError, reopen_and_replay};

pub mod laws;
mod reopening;
