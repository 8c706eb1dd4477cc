//! A time in milliseconds. Device calls receive and return a time; layers that delay add a time.
ghost use Rattle.std.specs.Prelude.{◌≡◌, ℕ};
ghost use Rattle.bio.specs.Moments.{later_by};

use std::marker::Model;

/// A time in milliseconds, from 0 to 2^64 - 1. Contracts see it as that number.
#[derive(Clone, Copy, Debug, PartialEq, Eq)]
pub struct Ms {
    milliseconds: u64,
}

impl Model for Ms {
    ghost Value = { ℕ };

    ghost view = { λ moment. moment.milliseconds };

    ghost inverse = { λ milliseconds. record { milliseconds = milliseconds } };
}

impl Ms {
    pub fn new(milliseconds: u64) -> Ms
        ensures { result ≡ milliseconds }
    {
        Ms { milliseconds }
    }

    pub fn milliseconds(self) -> u64
        ensures { result ≡ self }
    {
        self.milliseconds
    }

    /// Returns the time that is `delay` later, or 2^64 - 1 if that is past the last time.
    pub fn later_by(self, delay: Ms) -> Ms
        ensures { result ≡ later_by self delay }
    {
        Ms {
            milliseconds: self.milliseconds.saturating_add(delay.milliseconds),
        }
    }
}
