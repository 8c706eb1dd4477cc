//! Block devices over another one. They map its sectors, delay its calls, or fail or drop them.
//!
//! `Linear` is a range of the lower device's sectors. Every other layer of this crate is a `Ruled`.
//! Its fault rule (`FaultRule`) decides by a `Target` whether, and when, the lower device does a
//! call.
#![tactic(auto)]

pub use devices::{AsDelay, AsError, AsFlakey, AsFuse, Delay, ErrorDev, Flakey, Fuse};
pub use fault_rule::{CallKind, CallVerdict, FaultRule, Feature, Target};
pub use linear::Linear;
pub use ruled::Ruled;

mod devices;
mod fault_rule;
pub mod laws;
mod linear;
mod ruled;
