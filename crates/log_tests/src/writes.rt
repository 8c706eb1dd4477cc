//! The bytes of writes and marks of these tests.
use bio::Bytes;
use std::alloc::Global;
use std::process::Abort;

pub fn filled(rt: &impl Abort, alloc: Global, byte: u8, length: usize) -> Bytes {
    Bytes::from_vec(vec![in alloc; byte; length].expect(rt, "memory"))
}
