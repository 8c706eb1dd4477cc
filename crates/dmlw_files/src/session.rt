//! What a command works with: the allocator, its files and its streams.
use std::alloc::Global;

/// What a command works with. It reads and writes `files`, prints on `out`, and reports faults on
/// `err`. If `explains`, advice follows a fault.
#[derive(Debug, Drop)]
pub struct Session<F, O, E> {
    pub alloc: Global,
    pub explains: bool,
    pub files: F,
    pub out: O,
    pub err: E,
}
