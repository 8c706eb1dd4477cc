//! `Slot`: a device, or one layer over a range of it. A `Stack` has four slots, each over the next,
//! and its calls go through them.
use bio::{DevError, Ms};
use blockdev::{BlockDev, Message, MessageError};
use dust_layer::Dust;
use fault_layers::{Linear, Ruled};

/// A slot for a layer: only the device below, or one layer over a range of it.
#[derive(Drop)]
pub enum Slot<D: BlockDev + Drop> {
    /// The device below.
    Bare(D),
    /// A range of the device below, with a fault rule.
    Decided(Ruled<Linear<D>, ()>),
    /// A range of the device below, with bad blocks.
    Dusted(Dust<Linear<D>>),
}

impl<D: BlockDev + Drop> BlockDev for Slot<D> {
    ghost use Rattle.layer_table.specs.Slots.{slot_does, slot_shown};
    ghost use Rattle.layer_table.specs.SlotLaws.{slot_lawful};

    ghost shown = { slot_shown };

    ghost does = { slot_does };

    fn sectors(&self) -> u64 {
        match self {
            Slot::Bare(device) => device.sectors(),
            Slot::Decided(layer) => layer.sectors(),
            Slot::Dusted(layer) => layer.sectors(),
        }
    }

    fn read(&mut self, now: Ms, first: u64, buffer: &mut [u8]) -> Result<Ms, DevError> {
        match self {
            Slot::Bare(device) => device.read(now, first, buffer),
            Slot::Decided(layer) => layer.read(now, first, buffer),
            Slot::Dusted(layer) => layer.read(now, first, buffer),
        }
    }

    fn write(&mut self, now: Ms, first: u64, bytes: &[u8], fua: bool) -> Result<Ms, DevError> {
        match self {
            Slot::Bare(device) => device.write(now, first, bytes, fua),
            Slot::Decided(layer) => layer.write(now, first, bytes, fua),
            Slot::Dusted(layer) => layer.write(now, first, bytes, fua),
        }
    }

    fn discard(&mut self, now: Ms, first: u64, count: u64) -> Result<Ms, DevError> {
        match self {
            Slot::Bare(device) => device.discard(now, first, count),
            Slot::Decided(layer) => layer.discard(now, first, count),
            Slot::Dusted(layer) => layer.discard(now, first, count),
        }
    }

    fn flush(&mut self, now: Ms) -> Result<Ms, DevError> {
        match self {
            Slot::Bare(device) => device.flush(now),
            Slot::Decided(layer) => layer.flush(now),
            Slot::Dusted(layer) => layer.flush(now),
        }
    }

    fn faults(&self) -> u64 {
        match self {
            Slot::Bare(device) => device.faults(),
            Slot::Decided(layer) => layer.faults(),
            Slot::Dusted(layer) => layer.faults(),
        }
    }

    fn lies(&self) -> u64 {
        match self {
            Slot::Bare(device) => device.lies(),
            Slot::Decided(layer) => layer.lies(),
            Slot::Dusted(layer) => layer.lies(),
        }
    }

    ghost lawful = { slot_lawful D.lawful };
}

impl<D: BlockDev + Drop> Slot<D> {
    ghost use Rattle.std.specs.Prelude.{◌≡◌};
    ghost use Rattle.blockdev.specs.Messages.{Unchanged};
    ghost use Rattle.layer_table.specs.Slots.{AnswersItself, device_of, has_layer, slot_shown};

    /// Returns the device below.
    pub fn into_device(self) -> D
        ensures { result ≡ device_of self }
    {
        match self {
            Slot::Bare(device) => device,
            Slot::Decided(layer) => layer.into_lower().into_lower(),
            Slot::Dusted(layer) => layer.into_lower().into_lower(),
        }
    }

    pub fn has_layer(&self) -> bool
        ensures { result ≡ has_layer self.now }
    {
        !matches!(self, Slot::Bare(_))
    }

    // Passes a message to the layer in the slot. Only a dust layer takes messages; otherwise the
    // error is BadMessage.
    fn own_message(&mut self, text: &str) -> Result<(), MessageError>
        ensures same { Unchanged (slot_shown self.old) (slot_shown self.new) }
        ensures answers { AnswersItself self.old text.now result self.new }
    {
        match self {
            Slot::Dusted(layer) => layer.message(1, text),
            _ => Err(MessageError::BadMessage),
        }
    }
}

impl<D: Message + Drop> Slot<D> {
    ghost use Rattle.blockdev.specs.Messages.{Unchanged};
    ghost use Rattle.layer_table.specs.Slots.{AnswersBelow, slot_shown};

    // Passes a message to the device below. `layer` counts from 1, the top layer of that device.
    fn message_below(&mut self, layer: u64, text: &str) -> Result<(), MessageError>
        ensures same { Unchanged (slot_shown self.old) (slot_shown self.new) }
        ensures answers { AnswersBelow D.answers self.old layer text.now result self.new }
    {
        match self {
            Slot::Bare(device) => device.message(layer, text),
            Slot::Decided(ruled) => ruled.message(layer, text),
            Slot::Dusted(dust) => dust.message_below(layer, text),
        }
    }
}

impl<D: Message + Drop> Message for Slot<D> {
    ghost use Rattle.layer_table.specs.Slots.{SlotAnswers};

    // The slot's own layer is layer 1. The layers of the device below are numbered from 2 on.
    ghost answers = { λ old layer text result new. SlotAnswers D.answers old layer text result
        new };

    fn message(&mut self, layer: u64, text: &str) -> Result<(), MessageError> {
        match layer {
            0 => Err(MessageError::BadMessage),
            1 => self.own_message(text),
            _ => self.message_below(layer - 1, text),
        }
    }
}
