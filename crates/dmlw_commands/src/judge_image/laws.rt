//! Laws of verdicts: each is a function that does nothing, and its contract is the law.
ghost use Rattle.std.specs.Prelude.{◌≡◌, ◌/◌, IsTrue, List, take, true, ℕ};
ghost use Rattle.bio.specs.declared.event.CoreEvent.{CoreEvent};
ghost use Rattle.bio.specs.Events.{all_aligned, is_well_formed};
ghost use Rattle.bio.specs.Requests.{bytes_of};
ghost use Rattle.log_format.specs.Entries.{is_sector_size};
ghost use Rattle.dmlw_script.specs.Plans.{ScriptValue};
ghost use Rattle.judge.specs.declared.verdict.Verdict.{Verdict};
ghost use Rattle.judge.specs.declared.verdict.Verdict.TheVariants.{Yes};
ghost use Rattle.judge.specs.Verdicts.{IsVerdict};
ghost use Rattle.bio.specs.Content.{Content};
ghost use Rattle.world.specs.Machine.{IsFinding};
ghost use Rattle.world.specs.declared.reaching.Finding.{Finding};
ghost use Rattle.dmlw_commands.specs.Judgements.{BeginsLog, HasVerdict, IsFound, IsJudged};
ghost use Rattle.dmlw_commands.specs.Judgements.{IsReplayedTo, Question, blank, replayed_first};
ghost use Rattle.dmlw_commands.specs.Judgements.{verdict_of};

use judge::laws::verdicts_differ;
use pending::laws::prefixes_are_possible;
use world::laws::possible_is_exact;

/// The content after replaying a prefix of a script's log over zeroes is judged possible. The
/// prefix has to belong to a moment up to which logging goes on (`BeginsLog`).
/// - `content`: if the events are well formed and aligned, the verdict on this content after
///   `moment` events is yes.
/// - `judged`: if an image has this content, its verdict is yes, by the same events and moment.
/// - `asked`: the verdict is also yes if the image and the script are in files.
///
/// The log may have any sector size that a log can have.
pub fn replayed_prefixes_are_judged_possible()
    ensures content { (size : ℕ) (events : List CoreEvent) (moment count bytes : ℕ)
        → IsTrue (is_sector_size size) →
        IsTrue (all_aligned size events) → is_well_formed events ≡ true
        → BeginsLog size events moment count →
        IsVerdict (bytes / 512) (take moment events) (blank bytes)
        (replayed_first size events count bytes) Yes }
    ensures judged { (plan : ScriptValue) (moment count : ℕ) (image : List ℕ) (verdict : Verdict) →
        (judged : IsJudged plan moment image verdict)
        → IsReplayedTo (bytes_of plan.log_size) judged.events moment count image → verdict ≡ Yes }
    ensures asked { (asked : Question) (count : ℕ) (verdict : Verdict)
        → (has : HasVerdict asked verdict) →
        IsReplayedTo (bytes_of has.plan.log_size) has.judged.events asked.moment count has.image
        → verdict ≡ Yes }
{
    prefixes_are_possible();
}

/// `path` and `judge` agree on an image. If both see the same events, the verdict is yes if and
/// only if the finding is a run. Otherwise verdict and finding are the same no.
pub fn findings_are_verdicts()
    ensures content { (sectors : ℕ) (events : List CoreEvent) (first now : Content)
        (verdict : Verdict) (finding : Finding) →
        IsVerdict sectors events first now verdict → IsFinding sectors events first now finding
        → verdict ≡ verdict_of finding }
    ensures judged { (plan : ScriptValue) (moment : ℕ) (image : List ℕ) (verdict : Verdict)
        (finding : Finding) →
        (judged : IsJudged plan moment image verdict) → (found : IsFound plan moment image finding)
        → judged.events ≡ found.events →
        verdict ≡ verdict_of finding }
{
    verdicts_differ();
    possible_is_exact();
}
