//! The three lower slots, each as a device with a named type. Without the names, each further slot
//! would double the length of the type, and of the proofs over it.

mod building;
mod one;
mod three;
mod two;

pub(crate) use building::layer;
pub(crate) use one::One;
pub(crate) use three::Three;
pub(crate) use two::Two;
