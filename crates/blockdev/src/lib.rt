//! The law of a block device: how a call changes its content, and what a crash may leave.
//!
//! `BlockDev` is the trait of all devices. `Message` is the trait of devices with a layer that
//! takes messages. Contracts see a device as a `View` (`specs/View`). The records of `specs/Law`
//! define what a call may do to the view. A message leaves the view unchanged (`Unchanged` in
//! `specs/Messages`). `laws` has laws that follow from these definitions.
#![tactic(auto)]

pub use device::BlockDev;
pub use message::{Message, MessageError};

mod device;
pub mod laws;
mod message;
