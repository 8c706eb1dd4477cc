//! Bytes that often end with a repeated byte, as the data of a sector does. The repeated byte is
//! stored once, and the bytes before it as they are.
ghost use Rattle.std.specs.Prelude.{◌≡◌, ◌+◌, ◌++◌, ◌-◌, ◌<◌, ◌≤◌, IfOk, IfSome, OnOk, drop, length, replicate, take};

use std::alloc::{AllocError, Global};
use std::marker::Model;

/// A list of bytes. A repeated byte at its end takes no memory.
#[derive(Debug, Drop)]
pub struct FilledBytes {
    // The bytes before the repeated byte.
    bytes: Vec<u8>,
    // How often the byte `fill` follows them.
    more: u32,
    // The repeated byte.
    fill: u8,
}

impl Model for FilledBytes {
    ghost use Rattle.std.specs.Prelude.{◌+◌, ◌<◌, ◌++◌, List, length, replicate, ℕ};

    ghost Value = { List ℕ };

    ghost view = { λ b. b.bytes.items ++ replicate b.more b.fill };

    ghost invariant = { λ b. length b.bytes.items + b.more < 18446744073709551616 };
}

// Moves `end` back while the N bytes before it are all `fill`, and returns it. From `end` on, all
// bytes are `fill` already.
fn without_groups<const N: usize>(bytes: &[u8], end: usize, fill: u8) -> usize
    requires some { 0 < N }
    requires within { end ≤ length bytes.now }
    requires filled { drop end bytes.now ≡ replicate (length bytes.now - end) fill }
    ensures within { result ≤ length bytes.now }
    ensures filled { drop result bytes.now ≡ replicate (length bytes.now - result) fill }
{
    let group = [fill; N];
    let mut end = end;
    while end >= N && &bytes[end - N..end] == group.as_slice() {
        end -= N;
    }
    end
}

/// Returns the lowest index from which on all bytes are `fill`.
pub(crate) fn count_before(bytes: &[u8], fill: u8) -> usize
    ensures within { result ≤ length bytes.now }
    ensures filled { drop result bytes.now ≡ replicate (length bytes.now - result) fill }
{
    let end = without_groups::<512>(bytes, bytes.len(), fill);
    let end = without_groups::<128>(bytes, end, fill);
    let end = without_groups::<32>(bytes, end, fill);
    let end = without_groups::<8>(bytes, end, fill);
    without_groups::<1>(bytes, end, fill)
}

// Returns how many bytes to store, and how often `fill` follows them. The bytes from `end` on are
// all `fill`; if their count doesn't fit in 32 bits, all bytes are stored.
fn split_counts(bytes: &[u8], end: usize, fill: u8) -> (usize, u32)
    requires within { end ≤ length bytes.now }
    requires filled { drop end bytes.now ≡ replicate (length bytes.now - end) fill }
    ensures all { result.0 + result.1 ≡ length bytes.now }
    ensures filled { drop result.0 bytes.now ≡ replicate result.1 fill }
{
    match u32::try_from(bytes.len() - end) {
        Ok(more) => (end, more),
        Err(_) => (bytes.len(), 0),
    }
}

impl FilledBytes {
    /// Returns an empty list of bytes. Takes no memory.
    pub fn empty(alloc: Global) -> FilledBytes
        ensures { length result ≡ 0 }
    {
        FilledBytes {
            bytes: Vec::new(alloc),
            more: 0,
            fill: 0,
        }
    }

    /// Makes the list of a vector's bytes, and stores the vector as it is. Takes no memory.
    pub fn from_vec(bytes: Vec<u8>) -> FilledBytes
        ensures { result ≡ bytes.items }
    {
        FilledBytes {
            bytes,
            more: 0,
            fill: 0,
        }
    }

    /// Makes the list of a slice's bytes. Takes memory for the bytes up to the last one that
    /// differs from the byte at the end.
    ///
    /// # Errors
    ///
    /// An allocation fails.
    pub fn from_slice(alloc: Global, bytes: &[u8]) -> Result<FilledBytes, AllocError>
        ensures { IfOk result (λ copy. copy ≡ bytes.now) }
    {
        let fill = bytes.last().copied().unwrap_or(0);
        FilledBytes::from_filled(alloc, bytes, count_before(bytes, fill), fill)
    }

    /// Makes the list of a slice's bytes; from `end` on, all of them are `fill`. Takes memory for
    /// the bytes before `end`.
    ///
    /// # Errors
    ///
    /// An allocation fails.
    pub(crate) fn from_filled(
        alloc: Global,
        bytes: &[u8],
        end: usize,
        fill: u8,
    ) -> Result<FilledBytes, AllocError>
        requires within { end ≤ length bytes.now }
        requires filled { drop end bytes.now ≡ replicate (length bytes.now - end) fill }
        ensures { IfOk result (λ copy. copy ≡ bytes.now) }
    {
        let (held, more) = split_counts(bytes, end, fill);
        let mut stored = Vec::with_capacity(alloc, held)?;
        stored.extend_from_slice(&bytes[..held])?;
        Ok(FilledBytes {
            bytes: stored,
            more,
            fill,
        })
    }

    /// Returns the number of bytes.
    pub fn len(&self) -> usize
        ensures { result ≡ length self.now }
    {
        self.bytes.len() + self.more as usize
    }

    /// Reads bytes from index `from` on, until the buffer is full.
    pub fn read(&self, from: usize, buffer: &mut [u8])
        requires { from + length buffer.old ≤ length self.now }
        ensures { buffer.new ≡ take (length buffer.old) (drop from self.now) }
    {
        let from = from.min(self.bytes.len());
        let held = (self.bytes.len() - from).min(buffer.len());
        let (first, rest) = buffer.split_at_mut(held);
        first.copy_from_slice(&self.bytes[from..from + held]);
        rest.fill(self.fill);
    }

    /// Returns the `count` bytes from index `from` on, if they are stored as they are.
    pub(crate) fn stored(&self, from: usize, count: usize) -> Option<&[u8]>
        ensures within { IfSome result (λ part. from + count ≤ length self.now) }
        ensures part { IfSome result (λ part. part.now ≡ take count (drop from self.now)) }
    {
        if from <= self.bytes.len() && count <= self.bytes.len() - from {
            return Some(&self.bytes[from..from + count]);
        }
        None
    }

    /// Appends the bytes to a vector. If an allocation fails, a prefix of the bytes may be
    /// appended.
    ///
    /// # Errors
    ///
    /// An allocation fails.
    pub(crate) fn append_to(&self, to: &mut Vec<u8>) -> Result<(), AllocError>
        requires { length to.old.items + length self.now < 18446744073709551616 }
        ensures { OnOk result (to.new.items ≡ to.old.items ++ self.now) }
    {
        to.extend_from_slice(&self.bytes)?;
        to.resize(to.len() + self.more as usize, self.fill)
    }

    /// Returns the bytes as a vector. Takes no memory if `from_vec` made the list.
    ///
    /// # Errors
    ///
    /// An allocation fails.
    pub fn into_vec(self) -> Result<Vec<u8>, AllocError>
        ensures { IfOk result (λ bytes. bytes.items ≡ self) }
    {
        let FilledBytes {
            mut bytes,
            more,
            fill,
        } = self;
        bytes.resize(bytes.len() + more as usize, fill)?;
        Ok(bytes)
    }
}
