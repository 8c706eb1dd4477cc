//! `Dust`: the layer with bad blocks, like Linux's dm-dust. In bypass it passes every call. In the
//! other mode it does reads, writes and discards block by block.
ghost use Rattle.std.proofs.Props.{props};
ghost use Rattle.dust_layer.specs.Orders.{IsBlock, IsBlockSize};

use crate::apply::apply;
use crate::bad_blocks::BadBlocks;
use crate::blocks::{change_blocks, read_blocks};
use crate::mode::Mode;
use crate::order::order_of;
use crate::parts::{PartChange, Stop};
use bio::{DevError, Ms, SECTOR_BYTES};
use blockdev::{BlockDev, Message, MessageError};
use std::alloc::Global;

/// A device that has bad blocks (Linux's Documentation/admin-guide/device-mapper/dm-dust.rst).
#[derive(Drop)]
pub struct Dust<D: Drop> {
    lower: D,
    // The number of sectors of a block.
    block: u64,
    bad: BadBlocks,
    mode: Mode,
    // How many calls a bad block failed; at most 2^64 - 1.
    faults: u64,
    ghost fits: { IsBlock block } by { Prim.hlevel props },
}

impl<D: BlockDev + Drop> Dust<D> {
    ghost use Rattle.std.specs.Prelude.{◌≡◌, ◌/◌};
    ghost use Rattle.dust_layer.specs.Walk.{IsNoList, listed_counts};
    ghost use Rattle.dust_layer.specs.DustRule.{answer_of, faults_after};
    ghost use Rattle.dust_layer.specs.declared.mode.Mode.TheVariants.{Bypass};

    /// Returns a device over `lower` whose blocks have `block_bytes` bytes, a power of two from 512
    /// to 1,073,741,824. It has no bad block, and is in bypass.
    pub fn new(alloc: Global, lower: D, block_bytes: u64) -> Dust<D>
        requires { IsBlockSize block_bytes }
        ensures lower { result.lower ≡ lower }
        ensures block { result.block ≡ block_bytes / 512 }
        ensures bad { IsNoList (listed_counts result.bad) }
        ensures mode { result.mode ≡ Bypass }
        ensures faults { result.faults ≡ 0 }
    {
        Dust {
            lower,
            block: block_bytes / SECTOR_BYTES,
            bad: BadBlocks::new(alloc),
            mode: Mode::Bypass,
            faults: 0,
        }
    }

    /// Returns the mode: whether bad blocks fail calls.
    pub fn mode(&self) -> Mode
        ensures { result ≡ self.now.mode }
    {
        self.mode
    }

    /// Returns the lower device.
    pub fn into_lower(self) -> D
        ensures { result ≡ self.lower }
    {
        self.lower
    }

    // Returns the answer to a call that went block by block. If a bad block stopped the call,
    // counts a fault.
    fn answer(&mut self, end: Result<Ms, Stop>) -> Result<Ms, DevError>
        ensures answer { result ≡ answer_of end }
        ensures faults { self.new.faults ≡ faults_after end self.old.faults }
        ensures lower { self.new.lower ≡ self.old.lower }
        ensures block { self.new.block ≡ self.old.block }
        ensures bad { self.new.bad ≡ self.old.bad }
        ensures mode { self.new.mode ≡ self.old.mode }
    {
        match end {
            Ok(end) => Ok(end),
            Err(Stop::Struck) => {
                self.faults = self.faults.saturating_add(1);
                Err(DevError::Io)
            }
            Err(Stop::Below(error)) => Err(error),
        }
    }
}

impl<D: BlockDev + Drop> BlockDev for Dust<D> {
    ghost use Rattle.std.specs.Prelude.{◌≡◌, false};
    ghost use Rattle.blockdev.specs.OwnCounts.{counted, lawful_counted};
    ghost use Rattle.dust_layer.specs.DustRule.{IsDusted};

    ghost shown = { λ device. counted (D.shown device.lower) device.faults 0 false };

    // `IsDusted` says what the device does in each mode.
    ghost does = { λ old call now result new. IsDusted D.does call now result old new };

    fn sectors(&self) -> u64 {
        self.lower.sectors()
    }

    fn read(&mut self, now: Ms, first: u64, buffer: &mut [u8]) -> Result<Ms, DevError> {
        match self.mode {
            Mode::Bypass => self.lower.read(now, first, buffer),
            Mode::FailReadOnBadBlock => {
                let end = read_blocks(&mut self.lower, &self.bad, self.block, now, first, buffer);
                self.answer(end)
            }
        }
    }

    fn write(&mut self, now: Ms, first: u64, bytes: &[u8], fua: bool) -> Result<Ms, DevError> {
        match self.mode {
            Mode::Bypass => self.lower.write(now, first, bytes, fua),
            Mode::FailReadOnBadBlock => {
                let count = bytes.len() as u64 / SECTOR_BYTES;
                let change = PartChange::Write(bytes, fua);
                let end = change_blocks(
                    &mut self.lower,
                    &mut self.bad,
                    self.block,
                    now,
                    first,
                    count,
                    change,
                );
                self.answer(end)
            }
        }
    }

    fn discard(&mut self, now: Ms, first: u64, count: u64) -> Result<Ms, DevError> {
        match self.mode {
            Mode::Bypass => self.lower.discard(now, first, count),
            Mode::FailReadOnBadBlock => {
                let end = change_blocks(
                    &mut self.lower,
                    &mut self.bad,
                    self.block,
                    now,
                    first,
                    count,
                    PartChange::Discard,
                );
                self.answer(end)
            }
        }
    }

    fn flush(&mut self, now: Ms) -> Result<Ms, DevError> {
        self.lower.flush(now)
    }

    fn faults(&self) -> u64 {
        self.lower.faults().saturating_add(self.faults)
    }

    fn lies(&self) -> u64 {
        self.lower.lies()
    }

    ghost lawful = { λ device. lawful_counted (D.shown device.lower) device.faults 0 false
        (D.lawful device.lower) };
}

impl<D: Message + Drop> Dust<D> {
    ghost use Rattle.std.specs.Prelude.{◌≡◌};
    ghost use Rattle.blockdev.specs.Messages.{Unchanged};

    /// Passes the message to the lower device, for its layer `layer`, and returns the answer. The
    /// bad blocks, the mode and the faults of this device stay.
    pub fn message_below(&mut self, layer: u64, text: &str) -> Result<(), MessageError>
        ensures same { Unchanged (D.shown self.old.lower) (D.shown self.new.lower) }
        ensures answers { D.answers self.old.lower layer text.now result self.new.lower }
        ensures block { self.new.block ≡ self.old.block }
        ensures bad { self.new.bad ≡ self.old.bad }
        ensures mode { self.new.mode ≡ self.old.mode }
        ensures faults { self.new.faults ≡ self.old.faults }
    {
        self.lower.message(layer, text)
    }
}

impl<D: BlockDev + Drop> Message for Dust<D> {
    ghost use Rattle.std.specs.Prelude.{◌≡◌};
    ghost use Rattle.dust_layer.specs.DustRule.{IsMessageDone};

    ghost answers = { λ old layer text result new. IsMessageDone
        (D.shown old.lower).size layer text result old new };

    fn message(&mut self, layer: u64, text: &str) -> Result<(), MessageError> {
        if layer != 1 {
            return Err(MessageError::BadMessage);
        }
        let Some(order) = order_of(text.as_bytes()) else {
            return Err(MessageError::BadMessage);
        };
        let sectors = self.lower.sectors();
        let mut enabled = self.mode.is_enabled();
        let answer = apply(&mut self.bad, &mut enabled, self.block, sectors, order);
        self.mode = Mode::of(enabled);
        answer
    }
}
