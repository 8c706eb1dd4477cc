//! A device with a cache, as a machine: requests land in sectors, sectors are destaged, requests
//! end, power fails.
//!
//! `specs/Machine` defines the machine's steps, which runs fit an event list, and the content that a
//! run leaves. By the law `possible_is_exact`, the judge's rule (`Possible`
//! in `bio`) allows exactly the contents that such runs leave. `reach` makes a run that leaves a
//! given image. A `World` is such a device as code: it takes steps one by one.
#![tactic(auto)]

pub use cache::World;
pub use reaching::{Finding, find, reach};
pub use step::{Step, StepError};

mod allowed;
mod cache;
mod cell;
pub mod laws;
mod plan;
mod putting;
mod reaching;
mod step;
