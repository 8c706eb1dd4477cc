//! The error, flakey, fuse and delay layers. Each is a `Ruled` over any block device, and its fault
//! rule holds the layer's target.
ghost use Rattle.fault_layers.specs.declared.fault_rule.Target.TheVariants as targets;

use crate::fault_rule::{FaultRule, Feature, Target};
use crate::ruled::Ruled;
use bio::Ms;
use blockdev::BlockDev;

/// Marks the `Ruled` that is an `ErrorDev`. It holds no data.
#[derive(Clone, Copy, Drop)]
pub struct AsError {}

/// Marks the `Ruled` that is a `Flakey`. It holds no data.
#[derive(Clone, Copy, Drop)]
pub struct AsFlakey {}

/// Marks the `Ruled` that is a `Fuse`. It holds no data.
#[derive(Clone, Copy, Drop)]
pub struct AsFuse {}

/// Marks the `Ruled` that is a `Delay`. It holds no data.
#[derive(Clone, Copy, Drop)]
pub struct AsDelay {}

/// A device that fails each read, write, discard and flush with Io, like the device-mapper target
/// `error`.
pub type ErrorDev<D> = Ruled<D, AsError>;

/// A device that passes every call for some seconds, then follows its `Feature` for some seconds,
/// and so on (Linux's Documentation/admin-guide/device-mapper/dm-flakey.rst).
pub type Flakey<D> = Ruled<D, AsFlakey>;

/// A device that passes a number of writes, discards and flushes, and then fails them. It passes
/// every read. This isn't a device-mapper target: it is the project's own.
pub type Fuse<D> = Ruled<D, AsFuse>;

/// A device that passes each call to the lower device after a delay (Linux's
/// Documentation/admin-guide/device-mapper/delay.rst).
pub type Delay<D> = Ruled<D, AsDelay>;

impl<D: BlockDev + Drop> ErrorDev<D> {
    ghost use Rattle.std.specs.Prelude.{◌≡◌};

    /// Returns an error device over `lower`.
    pub fn new(lower: D) -> ErrorDev<D>
        ensures lower { result.lower ≡ lower }
        ensures target { result.fault_rule ≡ record { target = targets.Error; load = 0 } }
        ensures faults { result.faults ≡ 0 }
        ensures lies { result.lies ≡ 0 }
    {
        Ruled::over(lower, FaultRule::new(Target::Error, Ms::new(0)), AsError {})
    }
}

impl<D: BlockDev + Drop> Flakey<D> {
    ghost use Rattle.std.specs.Prelude.{◌≡◌};
    ghost use Rattle.fault_layers.specs.Verdicts.{IsCycle};

    /// Returns a flakey device over `lower`. From the time `load` on it is up for `up` seconds,
    /// then down for `down` seconds, and so on. A time before `load` counts as `load`. The sum of
    /// `up` and `down` is 1 to 4294967295.
    pub fn new(lower: D, up: u64, down: u64, feature: Feature, load: Ms) -> Flakey<D>
        requires { IsCycle up down }
        ensures lower { result.lower ≡ lower }
        ensures cycle { result.fault_rule
            ≡ record { target = targets.Flakey up down feature; load = load } }
        ensures faults { result.faults ≡ 0 }
        ensures lies { result.lies ≡ 0 }
    {
        Ruled::over(
            lower,
            FaultRule::new(Target::Flakey { up, down, feature }, load),
            AsFlakey {},
        )
    }
}

impl<D: BlockDev + Drop> Fuse<D> {
    ghost use Rattle.std.specs.Prelude.{◌≡◌};

    /// Returns a fuse over `lower`. It passes all reads, and the first `calls` calls that are
    /// writes, discards or flushes.
    pub fn new(lower: D, calls: u64) -> Fuse<D>
        ensures lower { result.lower ≡ lower }
        ensures calls { result.fault_rule ≡ record { target = targets.Fuse calls; load = 0 } }
        ensures faults { result.faults ≡ 0 }
        ensures lies { result.lies ≡ 0 }
    {
        Ruled::over(
            lower,
            FaultRule::new(Target::Fuse { calls }, Ms::new(0)),
            AsFuse {},
        )
    }
}

impl<D: BlockDev + Drop> Delay<D> {
    ghost use Rattle.std.specs.Prelude.{◌≡◌};

    /// Returns a delay device over `lower`. Its reads begin later by `read`, its writes and
    /// discards by `write`, and its flushes by `flush`. If the later time is past 2^64 - 1
    /// milliseconds, the call begins at 2^64 - 1.
    pub fn new(lower: D, read: Ms, write: Ms, flush: Ms) -> Delay<D>
        ensures lower { result.lower ≡ lower }
        ensures delays { result.fault_rule
            ≡ record { target = targets.Delay read write flush; load = 0 } }
        ensures faults { result.faults ≡ 0 }
        ensures lies { result.lies ≡ 0 }
    {
        let target = Target::Delay {
            read: read.milliseconds(),
            write: write.milliseconds(),
            flush: flush.milliseconds(),
        };
        Ruled::over(lower, FaultRule::new(target, Ms::new(0)), AsDelay {})
    }
}
