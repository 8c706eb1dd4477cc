//! The list of a device's bad blocks. A block's count is how many writes and discards it still
//! fails. Calls (`blocks`) and messages (`apply`) change the list.
ghost use Rattle.std.specs.Prelude.{◌≡◌, ◌-◌, IfErr, Err, Ok, OnErr, OnOk, Some, None, false};
ghost use Rattle.std.specs.Prelude.{is_some, nat_lt, true};
ghost use Rattle.blockdev.specs.declared.message.MessageError.TheVariants.{AlreadyBad, Memory};
ghost use Rattle.blockdev.specs.declared.message.MessageError.TheVariants.{NotBad};
ghost use Rattle.dust_layer.specs.Walk.{IsList, IsNoList, count_left, listed_counts, with_entry};

use blockdev::MessageError;
use std::alloc::{AllocError, Global};
use std::collections::BTreeMap;

/// The bad blocks of a device, each with the count of writes and discards that it still fails.
#[derive(Drop)]
pub(crate) struct BadBlocks {
    counts: BTreeMap<u64, u8>,
}

impl BadBlocks {
    /// Returns an empty list.
    pub(crate) fn new(alloc: Global) -> BadBlocks
        ensures { IsNoList (listed_counts result) }
    {
        BadBlocks {
            counts: BTreeMap::new(alloc),
        }
    }

    /// Returns whether a block is listed.
    pub(crate) fn has(&self, block: u64) -> bool
        ensures { result ≡ is_some (listed_counts self.now block) }
    {
        self.counts.contains_key(&block)
    }

    /// Returns whether `block` fails a write or a discard: whether it is listed with a count above
    /// 0. If so, lowers the count by one.
    pub(crate) fn strike(&mut self, block: u64) -> bool
        ensures struck { result ≡ nat_lt 0 (count_left (listed_counts self.old) block) }
        ensures less { result ≡ true
            → IsList (listed_counts self.new)
            (with_entry block (Some (count_left (listed_counts self.old) block - 1)) (listed_counts self.old)) }
        ensures same { result ≡ false → IsList (listed_counts self.new) (listed_counts self.old) }
    {
        match self.counts.get_mut(&block) {
            Some(count) if *count > 0 => {
                *count -= 1;
                true
            }
            _ => false,
        }
    }

    /// Removes a block from the list, if it is listed.
    pub(crate) fn forget(&mut self, block: u64)
        ensures { IsList (listed_counts self.new) (with_entry block None (listed_counts self.old)) }
    {
        let _count = self.counts.remove(&block);
    }

    /// Lists `block` with the count `count`, which replaces its old count. If an allocation fails,
    /// returns the error, and the list stays.
    pub(crate) fn add(&mut self, block: u64, count: u8) -> Result<(), AllocError>
        ensures added { OnOk result
            (IsList (listed_counts self.new) (with_entry block (Some count) (listed_counts self.old))) }
        ensures same { OnErr result (IsList (listed_counts self.new) (listed_counts self.old)) }
    {
        self.counts.insert(block, count)?;
        Ok(())
    }

    /// Removes all blocks from the list.
    pub(crate) fn clear(&mut self)
        ensures { IsNoList (listed_counts self.new) }
    {
        self.counts.clear();
    }

    /// Lists `block` with the count `count`, if it isn't listed yet. Fails with AlreadyBad if the
    /// block is listed, and with Memory if an allocation fails. After an error the list is
    /// unchanged.
    pub(crate) fn list(&mut self, block: u64, count: u8) -> Result<(), MessageError>
        ensures added { OnOk result
            (IsList (listed_counts self.new) (with_entry block (Some count) (listed_counts self.old))) }
        ensures same { OnErr result (IsList (listed_counts self.new) (listed_counts self.old)) }
        ensures already { is_some (listed_counts self.old block) ≡ true → result ≡ Err AlreadyBad }
        ensures fresh { is_some (listed_counts self.old block) ≡ false
            → IfErr result (λ error. error ≡ Memory) }
    {
        if self.has(block) {
            return Err(MessageError::AlreadyBad);
        }
        match self.add(block, count) {
            Ok(()) => Ok(()),
            Err(_) => Err(MessageError::Memory),
        }
    }

    /// Removes a block from the list. If the block isn't listed, fails with NotBad, and the list
    /// stays.
    pub(crate) fn unlist(&mut self, block: u64) -> Result<(), MessageError>
        ensures removed { is_some (listed_counts self.old block) ≡ true →
            (result ≡ Ok tt) × IsList (listed_counts self.new) (with_entry block None (listed_counts self.old)) }
        ensures refused { is_some (listed_counts self.old block) ≡ false →
            (result ≡ Err NotBad) × IsList (listed_counts self.new) (listed_counts self.old) }
    {
        if !self.has(block) {
            return Err(MessageError::NotBad);
        }
        self.forget(block);
        Ok(())
    }
}
