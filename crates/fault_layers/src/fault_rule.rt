//! The targets of layers, and the `FaultRule` that decides by a layer's target whether, and when,
//! the lower device does a call. `Ruled` asks its fault rule about each call. The rules are in
//! specs/Verdicts; for `Dust`, in the crate `dust_layer`.
ghost use Rattle.std.specs.Prelude.{◌≡◌};
ghost use Rattle.fault_layers.specs.Verdicts.{delay_of, flakey_verdict, IsCycle};

use bio::Ms;
use std::marker::Model;

/// What a flakey device does while it is down.
#[derive(Clone, Copy, Debug, PartialEq, Eq)]
pub enum Feature {
    /// It answers Io to every call.
    None,
    /// It answers Io to reads, and passes the other calls.
    ErrorReads,
    /// It answers Io to writes, discards and flushes, and passes reads.
    ErrorWrites,
    /// It drops writes, discards and flushes, and reports them as done at once. It passes reads.
    DropWrites,
}

/// The target of a layer, with its parameters.
#[derive(Clone, Copy, Debug, PartialEq, Eq)]
pub enum Target {
    /// It passes every call.
    Linear,
    /// It fails every call.
    Error,
    /// It passes every call for `up` seconds, then follows `feature` for `down` seconds, and so on.
    /// The sum of `up` and `down` is 1 to 4294967295.
    Flakey {
        up: u64,
        down: u64,
        feature: Feature,
    },
    /// It passes `calls` writes, discards and flushes, and fails each later one. It passes every
    /// read. This isn't a device-mapper target: only dmlw has it.
    Fuse {
        calls: u64,
    },
    /// Its blocks can be bad. A block has `block_bytes` bytes, a power of two from 512 to
    /// 1,073,741,824.
    Dust {
        block_bytes: u64,
    },
    /// Its reads begin `read` milliseconds later, its writes and discards `write`, and its flushes
    /// `flush`, each at most 4294967295.
    Delay {
        read: u64,
        write: u64,
        flush: u64,
    },
}

/// The kind of a device call.
#[derive(Clone, Copy, Debug, PartialEq, Eq)]
pub enum CallKind {
    Read,
    Write,
    Discard,
    Flush,
}

/// What a fault rule decides about a call.
#[derive(Clone, Copy, Debug, PartialEq, Eq)]
pub enum CallVerdict {
    /// The lower device does the call, and answers it.
    Pass,
    /// The lower device begins the call this many milliseconds later, and answers it.
    Delay(Ms),
    /// The call fails with Io, and the lower device isn't called.
    Fail,
    /// The call is reported as done at once, and the lower device isn't called: a lie.
    Drop,
}

/// A layer's target, and the time of its load. The fault rule decides which calls reach the lower
/// device, and when. Contracts see a fault rule as `Loaded`.
#[derive(Clone, Copy, Debug, Drop, PartialEq, Eq)]
pub struct FaultRule {
    target: Target,
    load: Ms,
}

impl Model for FaultRule {
    ghost use Rattle.fault_layers.specs.Verdicts.{HasCycle, Loaded};

    ghost Value = { Loaded };

    ghost view = { λ fault_rule. record { target = fault_rule.target; load = fault_rule.load } };

    ghost inverse = { λ loaded. record { target = loaded.target; load = loaded.load } };

    ghost invariant = { λ fault_rule. HasCycle fault_rule.target };
}

impl FaultRule {
    ghost use Rattle.fault_layers.specs.Verdicts.{loaded_after, rule_verdict, HasCycle};

    /// Returns a fault rule with this target. A flakey target's seconds count from `load`. A time
    /// before `load` counts as `load`.
    pub fn new(target: Target, load: Ms) -> FaultRule
        requires { HasCycle target }
        ensures { result ≡ record { target = target; load = load } }
    {
        FaultRule { target, load }
    }

    /// Decides about one call of kind `kind` that begins at `now`. If a fuse passes a write, a
    /// discard or a flush, it has one call fewer left.
    pub fn decide(&mut self, kind: CallKind, now: Ms) -> CallVerdict
        ensures verdict { result ≡ rule_verdict self.old kind now }
        ensures after { self.new ≡ loaded_after self.old kind now }
    {
        match self.target {
            Target::Linear | Target::Dust { .. } => CallVerdict::Pass,
            Target::Error => CallVerdict::Fail,
            Target::Flakey { up, down, feature } => {
                flakey_verdict(up, down, feature, self.load, kind, now)
            }
            Target::Fuse { calls } => {
                if kind == CallKind::Read {
                    CallVerdict::Pass
                } else if calls == 0 {
                    CallVerdict::Fail
                } else {
                    self.target = Target::Fuse { calls: calls - 1 };
                    CallVerdict::Pass
                }
            }
            Target::Delay { read, write, flush } => {
                CallVerdict::Delay(Ms::new(delay_of(read, write, flush, kind)))
            }
        }
    }
}

// Returns a flakey target's verdict about a call at `now`. While the target is up, it is Pass.
// While the target is down, `feature` and `kind` decide.
fn flakey_verdict(
    up: u64,
    down: u64,
    feature: Feature,
    load: Ms,
    kind: CallKind,
    now: Ms,
) -> CallVerdict
    requires { IsCycle up down }
    ensures { result ≡ flakey_verdict
        (record { up = up; down = down; feature = feature; load = load }) kind now }
{
    let since = now.milliseconds().saturating_sub(load.milliseconds());
    if since % (1000 * (up + down)) < 1000 * up {
        return CallVerdict::Pass;
    }
    match (feature, kind) {
        (Feature::None, _) => CallVerdict::Fail,
        (Feature::ErrorReads, CallKind::Read) => CallVerdict::Fail,
        (Feature::ErrorReads, _) => CallVerdict::Pass,
        (_, CallKind::Read) => CallVerdict::Pass,
        (Feature::ErrorWrites, _) => CallVerdict::Fail,
        (Feature::DropWrites, _) => CallVerdict::Drop,
    }
}

// Returns the delay of a call of kind `kind`, in milliseconds. A discard is delayed like a write.
fn delay_of(read: u64, write: u64, flush: u64, kind: CallKind) -> u64
    ensures { result ≡ delay_of (record { read = read; write = write; flush = flush }) kind }
{
    match kind {
        CallKind::Read => read,
        CallKind::Write | CallKind::Discard => write,
        CallKind::Flush => flush,
    }
}
