//! `Ruled`, a device over another one. It asks its fault rule about each call, and counts the calls
//! that it fails (faults) and drops (lies). The error, flakey, fuse and delay layers are `Ruled`
//! devices (src/devices.rt).
use crate::fault_rule::{CallKind, CallVerdict, FaultRule};
use bio::{DevError, Ms};
use blockdev::{BlockDev, Message, MessageError};

/// A device whose fault rule decides for each call whether, and when, the lower device does it. `K`
/// only distinguishes the kinds of layers.
#[derive(Drop)]
pub struct Ruled<D: BlockDev + Drop, K: Drop> {
    lower: D,
    fault_rule: FaultRule,
    // How many calls this device failed, and how many it dropped. Both counts stop at 2^64 - 1.
    faults: u64,
    lies: u64,
    kind: K,
}

impl<D: BlockDev + Drop, K: Drop> Ruled<D, K> {
    ghost use Rattle.std.specs.Prelude.{◌≡◌, Err, Ok};
    ghost use Rattle.bio.specs.declared.outcome.DevError.TheVariants.{Io};
    ghost use Rattle.blockdev.specs.OwnCounts.{one_more};

    /// Returns a device over `lower` with the fault rule `fault_rule`. Its counts of faults and
    /// lies are 0.
    pub fn over(lower: D, fault_rule: FaultRule, kind: K) -> Ruled<D, K>
        ensures lower { result.lower ≡ lower }
        ensures fault_rule { result.fault_rule ≡ fault_rule }
        ensures faults { result.faults ≡ 0 }
        ensures lies { result.lies ≡ 0 }
    {
        Ruled {
            lower,
            fault_rule,
            faults: 0,
            lies: 0,
            kind,
        }
    }

    /// Returns the lower device.
    pub fn into_lower(self) -> D
        ensures { result ≡ self.lower }
    {
        self.lower
    }

    // Counts a fault, and returns the answer to a call that fails.
    fn fail(&mut self) -> Result<Ms, DevError>
        ensures io { result ≡ Err Io }
        ensures faults { self.new.faults ≡ one_more self.old.faults }
        ensures lies { self.new.lies ≡ self.old.lies }
        ensures lower { self.new.lower ≡ self.old.lower }
        ensures fault_rule { self.new.fault_rule ≡ self.old.fault_rule }
    {
        self.faults = self.faults.saturating_add(1);
        Err(DevError::Io)
    }

    // Counts a lie, and returns the answer to a dropped call: it ends Ok at `now`.
    fn lose(&mut self, now: Ms) -> Result<Ms, DevError>
        ensures ok { result ≡ Ok now }
        ensures faults { self.new.faults ≡ self.old.faults }
        ensures lies { self.new.lies ≡ one_more self.old.lies }
        ensures lower { self.new.lower ≡ self.old.lower }
        ensures fault_rule { self.new.fault_rule ≡ self.old.fault_rule }
    {
        self.lies = self.lies.saturating_add(1);
        Ok(now)
    }
}

#[tactic(auto, using(crate::specs::Verdicts::rule_honest, crate::specs::Verdicts::rule_stays, crate::specs::Verdicts::rule_keeps_reads))]
impl<D: BlockDev + Drop, K: Drop> BlockDev for Ruled<D, K> {
    ghost use Rattle.blockdev.specs.OwnCounts.{counted, lawful_counted};
    ghost use Rattle.std.specs.Prelude.{◌≡◌};
    ghost use Rattle.fault_layers.specs.Decision.{IsDecided, call_kind};
    ghost use Rattle.fault_layers.specs.Verdicts.{drops_writes, loaded_after, rule_verdict};

    ghost shown = { λ device. counted (D.shown device.lower) device.faults device.lies
        (drops_writes device.fault_rule.target) };

    // The device does what the fault rule's verdict says (`IsDecided`), and then has the fault rule
    // after the call.
    ghost does = { λ old call now result new.
        IsDecided (rule_verdict old.fault_rule (call_kind call) now)
        (λ begun. D.does old.lower call begun result new.lower) call now result old new
        × (new.fault_rule ≡ loaded_after old.fault_rule (call_kind call) now) };

    fn sectors(&self) -> u64 {
        self.lower.sectors()
    }

    fn read(&mut self, now: Ms, first: u64, buffer: &mut [u8]) -> Result<Ms, DevError> {
        match self.fault_rule.decide(CallKind::Read, now) {
            CallVerdict::Pass => self.lower.read(now, first, buffer),
            CallVerdict::Delay(by) => self.lower.read(now.later_by(by), first, buffer),
            CallVerdict::Fail | CallVerdict::Drop => self.fail(),
        }
    }

    fn write(&mut self, now: Ms, first: u64, bytes: &[u8], fua: bool) -> Result<Ms, DevError> {
        match self.fault_rule.decide(CallKind::Write, now) {
            CallVerdict::Pass => self.lower.write(now, first, bytes, fua),
            CallVerdict::Delay(by) => self.lower.write(now.later_by(by), first, bytes, fua),
            CallVerdict::Fail => self.fail(),
            CallVerdict::Drop => self.lose(now),
        }
    }

    fn discard(&mut self, now: Ms, first: u64, count: u64) -> Result<Ms, DevError> {
        match self.fault_rule.decide(CallKind::Discard, now) {
            CallVerdict::Pass => self.lower.discard(now, first, count),
            CallVerdict::Delay(by) => self.lower.discard(now.later_by(by), first, count),
            CallVerdict::Fail => self.fail(),
            CallVerdict::Drop => self.lose(now),
        }
    }

    fn flush(&mut self, now: Ms) -> Result<Ms, DevError> {
        match self.fault_rule.decide(CallKind::Flush, now) {
            CallVerdict::Pass => self.lower.flush(now),
            CallVerdict::Delay(by) => self.lower.flush(now.later_by(by)),
            CallVerdict::Fail => self.fail(),
            CallVerdict::Drop => self.lose(now),
        }
    }

    fn faults(&self) -> u64 {
        self.lower.faults().saturating_add(self.faults)
    }

    fn lies(&self) -> u64 {
        self.lower.lies().saturating_add(self.lies)
    }

    ghost lawful = { λ device.
        lawful_counted (D.shown device.lower) device.faults device.lies
        (drops_writes device.fault_rule.target) (D.lawful device.lower) };
}

impl<D: Message + Drop, K: Drop> Message for Ruled<D, K> {
    ghost use Rattle.std.specs.Prelude.{◌≡◌};

    // The lower device answers the message. The fault rule and the counts of this device stay.
    ghost answers = { λ old layer text result new.
        D.answers old.lower layer text result new.lower × (new.fault_rule ≡ old.fault_rule)
        × (new.faults ≡ old.faults) × (new.lies ≡ old.lies) };

    fn message(&mut self, layer: u64, text: &str) -> Result<(), MessageError> {
        self.lower.message(layer, text)
    }
}
