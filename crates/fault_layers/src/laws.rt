//! Laws of the layers. Each function does nothing, and its `ensures` clauses are the law.
ghost use Rattle.std.specs.Prelude.{◌≡◌, false, Ok, ℕ};
ghost use Rattle.bio.specs.Moments.{later_by};
ghost use Rattle.blockdev.specs.View.{Call};
ghost use Rattle.fault_layers.specs.Decision.{IsDecided, call_kind};
ghost use Rattle.fault_layers.specs.declared.fault_rule.CallKind.{CallKind};
ghost use Rattle.fault_layers.specs.declared.fault_rule.CallKind.TheVariants.{Read};
ghost use Rattle.fault_layers.specs.declared.fault_rule.CallVerdict.TheVariants as verdicts;
ghost use Rattle.fault_layers.specs.Verdicts.{delay_of, delay_verdict, drops_writes, loaded_after};
ghost use Rattle.fault_layers.specs.Verdicts.{rule_verdict, Delays, Loaded};
ghost use Rattle.sector_disk.specs.DiskView.{DoesOnDisk};

use crate::{AsDelay, Ruled};
use sector_disk::SectorDisk;

/// No fault rule drops a read. If a fault rule's target may not drop writes (`drops_writes`), the
/// fault rule drops no call. No decision changes whether a target may drop writes.
pub fn fault_rules_drop_only_writes()
    ensures reads { (fault_rule : Loaded) (now : ℕ) → rule_verdict fault_rule Read now ≡ verdicts.Drop → ⊥ }
    ensures honest { (fault_rule : Loaded) (kind : CallKind) (now : ℕ) → drops_writes fault_rule.target ≡ false
        → rule_verdict fault_rule kind now ≡ verdicts.Drop → ⊥ }
    ensures stays { (fault_rule : Loaded) (kind : CallKind) (now : ℕ)
        → drops_writes (loaded_after fault_rule kind now).target ≡ drops_writes fault_rule.target }
{}

/// Let a call of a delay layer over a disk in memory end Ok. Then it ends at `now` plus its delay,
/// at most 2^64 - 1. The disk itself ends each call at once.
#[tactic(auto, using(crate::specs::DelayLaws::ends_later))]
pub fn delayed_calls_of_a_disk_end_just_later()
    ensures { (old new : Ruled SectorDisk AsDelay) (delays : Delays) (call : Call) (now end : ℕ)
        → IsDecided (delay_verdict delays (call_kind call) now)
        (λ begun. DoesOnDisk old.lower call begun (Ok end) new.lower) call now (Ok end) old new →
        end ≡ later_by now (delay_of delays (call_kind call)) }
{}
