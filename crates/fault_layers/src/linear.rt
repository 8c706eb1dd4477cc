//! The linear layer: a range of another device's sectors as a device of its own. `layer_table` puts
//! a `Linear` below each layer that it makes.
ghost use Rattle.std.proofs.Props.{props};
ghost use Rattle.blockdev.specs.View.{IsRange};

use bio::{DevError, Ms};
use blockdev::{BlockDev, Message, MessageError};

/// A range of the lower device's sectors, as a device of its own. Its sector 0 is sector `offset`
/// of the lower device (Linux's Documentation/admin-guide/device-mapper/linear.rst).
#[derive(Drop)]
pub struct Linear<D: BlockDev + Drop> {
    lower: D,
    // The range's first sector in the lower device, and the range's number of sectors.
    offset: u64,
    length: u64,
    ghost fits: { IsRange (D.shown lower).size offset length } by { Prim.hlevel props },
}

impl<D: BlockDev + Drop> Linear<D> {
    ghost use Rattle.std.specs.Prelude.{◌≡◌};

    /// Returns the range of the `length` sectors of `lower` from `offset` on. `length` is at least
    /// 1, and all of these sectors are within `lower`.
    pub fn new(lower: D, offset: u64, length: u64) -> Linear<D>
        requires { IsRange (D.shown lower).size offset length }
        ensures lower { result.lower ≡ lower }
        ensures offset { result.offset ≡ offset }
        ensures length { result.length ≡ length }
    {
        Linear {
            lower,
            offset,
            length,
        }
    }

    /// Returns the lower device.
    pub fn into_lower(self) -> D
        ensures { result ≡ self.lower }
    {
        self.lower
    }
}

impl<D: BlockDev + Drop> BlockDev for Linear<D> {
    ghost use Rattle.std.specs.Prelude.{◌≡◌};
    ghost use Rattle.fault_layers.specs.Window.{call_from, window};
    ghost use Rattle.fault_layers.specs.WindowLaws.{lawful_window};

    ghost shown = { λ device. window (D.shown device.lower) device.offset device.length };

    // The lower device does the call, shifted by `offset` sectors. The range stays.
    ghost does = { λ old call now result new.
        D.does old.lower (call_from old.offset call) now result new.lower
        × (new.offset ≡ old.offset) × (new.length ≡ old.length) };

    fn sectors(&self) -> u64 {
        self.length
    }

    fn read(&mut self, now: Ms, first: u64, buffer: &mut [u8]) -> Result<Ms, DevError> {
        self.lower.read(now, self.offset + first, buffer)
    }

    #[tactic(auto, using(crate::specs::WindowLaws::lands_window_writes))]
    fn write(&mut self, now: Ms, first: u64, bytes: &[u8], fua: bool) -> Result<Ms, DevError> {
        self.lower.write(now, self.offset + first, bytes, fua)
    }

    #[tactic(auto, using(crate::specs::WindowLaws::lands_window_discards))]
    fn discard(&mut self, now: Ms, first: u64, count: u64) -> Result<Ms, DevError> {
        self.lower.discard(now, self.offset + first, count)
    }

    fn flush(&mut self, now: Ms) -> Result<Ms, DevError> {
        self.lower.flush(now)
    }

    fn faults(&self) -> u64 {
        self.lower.faults()
    }

    fn lies(&self) -> u64 {
        self.lower.lies()
    }

    ghost lawful = { λ device.
        lawful_window (D.shown device.lower) device.offset device.length device.fits
        (D.lawful device.lower) };
}

impl<D: Message + Drop> Message for Linear<D> {
    ghost use Rattle.std.specs.Prelude.{◌≡◌};

    // The lower device answers the message. The range stays.
    ghost answers = { λ old layer text result new.
        D.answers old.lower layer text result new.lower × (new.offset ≡ old.offset)
        × (new.length ≡ old.length) };

    #[tactic(auto, using(crate::specs::WindowLaws::unchanged_window))]
    fn message(&mut self, layer: u64, text: &str) -> Result<(), MessageError> {
        self.lower.message(layer, text)
    }
}
