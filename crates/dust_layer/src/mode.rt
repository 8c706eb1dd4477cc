//! The two modes of a device with bad blocks, and dm-dust's words for them.
//! The messages `enable` and `disable` change the mode of a `Dust`.
ghost use Rattle.dust_layer.specs.DustRule.{is_enabled};
ghost use Rattle.dust_layer.specs.Orders.{mode_text};

/// What a device does with calls at its bad blocks.
#[derive(Clone, Copy, Debug, PartialEq, Eq)]
pub enum Mode {
    /// Every call is passed to the lower device.
    Bypass,
    /// Calls at bad blocks fail.
    FailReadOnBadBlock,
}

impl Mode {
    ghost use Rattle.std.specs.Prelude.{◌≡◌};

    /// Returns the mode's word, as dm-dust prints it.
    pub fn text(self) -> &'static str
        ensures { result.now ≡ mode_text self }
    {
        match self {
            Mode::Bypass => "bypass",
            Mode::FailReadOnBadBlock => "fail_read_on_bad_block",
        }
    }

    // Returns FailReadOnBadBlock if `enabled`, and otherwise Bypass.
    pub(crate) fn of(enabled: bool) -> Mode
        ensures { is_enabled result ≡ enabled }
    {
        if enabled {
            Mode::FailReadOnBadBlock
        } else {
            Mode::Bypass
        }
    }

    // Returns whether bad blocks fail calls.
    pub(crate) fn is_enabled(self) -> bool
        ensures { result ≡ is_enabled self }
    {
        match self {
            Mode::Bypass => false,
            Mode::FailReadOnBadBlock => true,
        }
    }
}
