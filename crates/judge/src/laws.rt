//! Laws of verdicts: an image has only one, which the last flush and durable request decide.
ghost use Rattle.std.specs.Prelude.{◌≡◌, ◌&&◌, ◌||◌, List, Option, slice_get, ℕ};
ghost use Rattle.bio.specs.declared.event.CoreEvent.{CoreEvent};
ghost use Rattle.bio.specs.Events.{is_before, submits};
ghost use Rattle.bio.specs.Possible.{ended_ok, is_durable, is_replaced};
ghost use Rattle.bio.specs.Requests.{has_fua};
ghost use Rattle.bio.specs.Content.{Content};
ghost use Rattle.judge.specs.declared.verdict.Verdict.{Verdict};
ghost use Rattle.judge.specs.declared.verdict.Verdict.TheVariants.{Yes, No};
ghost use Rattle.judge.specs.Accounts.{IsLastFlush};
ghost use Rattle.judge.specs.Verdicts.{IsLastKept, IsVerdict};

/// An image has only one verdict. It isn't both yes and no, and two verdicts are equal.
#[tactic(auto, using(crate::proofs::AccountVerdict::one_verdict))]
pub fn verdicts_differ()
    ensures apart { (sectors : ℕ) (events : List CoreEvent) (first now : Content) (sector : ℕ)
        (by : Option ℕ) →
        IsVerdict sectors events first now Yes → IsVerdict sectors events first now (No sector by)
        → ⊥ }
    ensures one { (sectors : ℕ) (events : List CoreEvent) (first now : Content)
        (verdict other : Verdict) →
        IsVerdict sectors events first now verdict → IsVerdict sectors events first now other
        → verdict ≡ other }
{}

/// Let `flush` be the last submitted flush that ended with success. A request is durable exactly if
/// it ended with success, and has FUA or ended before the submission of `flush`.
#[tactic(auto, using(crate::proofs::AccountVerdict::durable_by_last))]
pub fn the_last_flush_decides()
    ensures { (events : List CoreEvent) (flush id : ℕ) → IsLastFlush events flush
        → is_durable events id
        ≡ (ended_ok events id &&
        (submits has_fua (slice_get events id) || is_before events id flush)) }
{}

/// Let `last` be the last submitted durable request over a sector. A request is replaced there
/// exactly if it ended before the submission of `last`.
#[tactic(auto, using(crate::proofs::AccountVerdict::replaced_by_last))]
pub fn the_last_durable_request_decides()
    ensures { (events : List CoreEvent) (sector last id : ℕ) → IsLastKept events sector last →
        is_replaced events sector id ≡ is_before events id last }
{}
