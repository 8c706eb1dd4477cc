//! Stacks of layers over a disk in memory, as the lines of a table ask for them.
//!
//! `parse_line` parses a line, or returns the error of the first failed test. `push_line` prints
//! the canonical text of a layer. `specs/TableLines` defines which layer a line's words ask for: it
//! has a row for each target, and the tests in their order. `line_laws` states laws of lines.
//!
//! A `Slot` is a device, or one layer over a range of it. A `Stack` is four slots over a disk, each
//! over the next, and is itself a device. Contracts see the layers of a stack as a list, the top
//! first (`specs/Layers`). The view of a stack and the effect of its calls follow from that list
//! and the disk (`laws`).
#![tactic(auto)]

pub use fault_layers::{Feature, Target};
pub use layer_spec::{BadValue, LayerSpec, bad_value, parse_line, push_line};
pub use slot::Slot;
pub use stack::Stack;
pub use table_error::TableError;

pub mod laws;
mod layer_spec;
mod levels;
pub mod line_laws;
mod slot;
mod stack;
mod table_error;
