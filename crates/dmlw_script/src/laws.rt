//! Laws of the grammar, and what always holds for a script. Each function does nothing; its clauses
//! are the law.
ghost use Rattle.std.specs.Prelude.{◌≡◌, ◌≢◌, ◌<◌, ◌≤◌, ◌+◌, ◌++◌, ◌∷◌, ◌⊎◌, [], None, Some};
ghost use Rattle.std.specs.Prelude.{true, ℕ, List};
ghost use Rattle.std.specs.List.{AllByRecursion};
ghost use Rattle.bio.specs.Requests.{bytes_of};
ghost use Rattle.refusals.specs.declared.refusal.Refusal.{Refusal};
ghost use Rattle.dmlw_script.specs.declared.command.Command.{Command};
ghost use Rattle.dmlw_script.specs.declared.command.Command.TheVariants.{Complete};
ghost use Rattle.dmlw_script.specs.Grammar.{AreRunLines, IsRunText, run_text, canonical_text};
ghost use Rattle.dmlw_script.specs.Grammar.{IsLineOf, IsTextOf, AreLinesOf};
ghost use Rattle.dmlw_script.specs.Words.{IsUnbroken, lines_of, is_skipped, command_line};
ghost use Rattle.dmlw_script.specs.Words.{with_line_feeds, is_ascii_line};
ghost use Rattle.dmlw_script.specs.Plans.{IsPlan, CanFollow, ScriptValue, count_after_head};
ghost use Rattle.dmlw_script.specs.Plans.{head_count, top_of};
ghost use Rattle.dmlw_script.specs.FirstFault.{IsFirstFault};
ghost use Rattle.dmlw_script.specs.RunPlans.{IsRunPlan, RunPlan};
ghost use Rattle.dmlw_script.specs.RunFirstFault.{IsFirstRunFault};

use crate::script::Script;

/// If no line has a line feed, the text with a line feed after each line has exactly these lines.
/// So has the text without the last line feed, if the last line isn't empty.
#[tactic(auto, using(crate::proofs::CanonicalTextLaws::ended_lines, crate::proofs::CanonicalTextLaws::ended_but_last))]
pub fn lines_make_a_text()
    ensures with_line_feeds { (lines : List (List ℕ)) → AllByRecursion IsUnbroken lines
        → lines_of (with_line_feeds lines) ≡ lines }
    ensures last { (lines : List (List ℕ)) (last : List ℕ) → AllByRecursion IsUnbroken lines
        → IsUnbroken last → last ≢ [] →
        lines_of (with_line_feeds lines ++ last) ≡ lines ++ last ∷ [] }
{}

/// A text is the text of at most one recorder's script.
pub fn one_script()
    ensures { (text : List ℕ) (plan other : ScriptValue) → IsTextOf text plan → IsTextOf text other
        → plan ≡ other }
{}

/// The canonical text of a recorder's script is a text of the script.
#[tactic(auto, using(crate::proofs::CanonicalTextLaws::spelling_spells))]
pub fn each_script_has_a_text()
    ensures { (plan : ScriptValue) → IsPlan plan → IsTextOf (canonical_text plan) plan }
{}

/// If two recorder's scripts have the same canonical text, they are equal.
#[tactic(auto, using(crate::proofs::ScriptLaws::same_from_spelling))]
pub fn scripts_have_own_texts()
    ensures { (plan other : ScriptValue) → IsPlan plan → IsPlan other
        → canonical_text plan ≡ canonical_text other → plan ≡ other }
{}

/// Adding an empty line, or an ASCII comment without zero bytes, to the lines of a script keeps the
/// script. So does removing an empty line or a comment.
pub fn skipped_lines_say_nothing()
    ensures put_in { (before after : List (List ℕ)) (line : List ℕ) (plan : ScriptValue) →
        is_ascii_line line ≡ true → is_skipped line ≡ true →
        AreLinesOf (before ++ after) plan → AreLinesOf (before ++ line ∷ after) plan }
    ensures left_out { (before after : List (List ℕ)) (line : List ℕ) (plan : ScriptValue) →
        is_skipped line ≡ true →
        AreLinesOf (before ++ line ∷ after) plan → AreLinesOf (before ++ after) plan }
{}

/// `command_line` finds the line of each command of a script, and of the crash that ends it.
/// `place` counts the commands from 0, and the crash comes after the last command. `says`: the line
/// found has the meaning of the command or crash. It comes after the lines of the head and of the
/// commands before `place`. `found`: a line is found for each command, and for the crash. `one`:
/// only one line fits a place. `none`: no line is found for a later place.
pub fn lines_are_those_of_commands()
    ensures says { (text : List ℕ) (plan : ScriptValue) (place number : ℕ) → IsTextOf text plan →
        command_line text (place + head_count plan) ≡ Some number
        → IsLineOf (lines_of text) plan place number }
    ensures found { (text : List ℕ) (plan : ScriptValue) (place : ℕ) → IsTextOf text plan →
        place < count_after_head plan
        → (number : ℕ) × (command_line text (place + head_count plan) ≡ Some number) }
    ensures one { (lines : List (List ℕ)) (plan : ScriptValue) (place m n : ℕ) →
        IsLineOf lines plan place m → IsLineOf lines plan place n → m ≡ n }
    ensures none { (text : List ℕ) (plan : ScriptValue) (place : ℕ) → IsTextOf text plan →
        count_after_head plan ≤ place → command_line text (place + head_count plan) ≡ None }
{}

/// Each command of a script may follow the commands before it (`CanFollow`), and no request ends
/// twice.
#[tactic(auto, using(crate::proofs::ScriptLaws::can_follow, crate::proofs::ScriptLaws::ends_once))]
pub fn requests_end_once()
    ensures can_follow { (plan : ScriptValue) (before : List Command) (command : Command)
        (rest : List Command) →
        IsPlan plan → plan.commands ≡ before ++ command ∷ rest →
        CanFollow (bytes_of plan.log_size) (top_of plan.data_disk) before command }
    ensures once { (plan : ScriptValue) (before between rest : List Command) (request : ℕ)
        → IsPlan plan →
        plan.commands ≡ before ++ Complete request ∷ (between ++ Complete request ∷ rest) → ⊥ }
{}

/// Lines are those of a recorder's script, or have a first fault. The first fault is one line with
/// one refusal. The lines of a script have no first fault.
pub fn texts_have_one_first_fault()
    ensures each { (lines : List (List ℕ)) → ((plan : ScriptValue) × AreLinesOf lines plan)
        ⊎ ((line : ℕ) × (refusal : Refusal) × IsFirstFault lines line refusal) }
    ensures one { (lines : List (List ℕ)) (m n : ℕ) (r s : Refusal) →
        IsFirstFault lines m r → IsFirstFault lines n s → (m ≡ n) × (r ≡ s) }
    ensures none { (lines : List (List ℕ)) (plan : ScriptValue) (m : ℕ) (r : Refusal) →
        AreLinesOf lines plan → IsFirstFault lines m r → ⊥ }
{}

/// The canonical text of a run's script is a text of the script.
#[tactic(auto, using(crate::proofs::CanonicalTextLaws::run_text_is))]
pub fn each_run_script_has_a_text()
    ensures { (plan : RunPlan) → IsRunPlan plan → IsRunText (run_text plan) plan }
{}

/// A text is the text of at most one run's script.
#[tactic(auto, using(crate::proofs::CanonicalTextLaws::one_run_script_of))]
pub fn one_run_script()
    ensures { (text : List ℕ) (plan other : RunPlan) → IsRunText text plan → IsRunText text other
        → plan ≡ other }
{}

/// If two run's scripts have the same canonical text, they are equal.
#[tactic(auto, using(crate::proofs::CanonicalTextLaws::same_from_run_text))]
pub fn run_scripts_have_own_texts()
    ensures { (plan other : RunPlan) → IsRunPlan plan → IsRunPlan other
        → run_text plan ≡ run_text other → plan ≡ other }
{}

/// Lines are those of a run's script, or have a first fault. The first fault is one line with one
/// refusal. The lines of a run's script have no first fault.
pub fn run_texts_have_one_first_fault()
    ensures each { (lines : List (List ℕ)) → ((plan : RunPlan) × AreRunLines lines plan)
        ⊎ ((line : ℕ) × (refusal : Refusal) × IsFirstRunFault lines line refusal) }
    ensures one { (lines : List (List ℕ)) (m n : ℕ) (r s : Refusal) →
        IsFirstRunFault lines m r → IsFirstRunFault lines n s → (m ≡ n) × (r ≡ s) }
    ensures none { (lines : List (List ℕ)) (plan : RunPlan) (m : ℕ) (r : Refusal) →
        AreRunLines lines plan → IsFirstRunFault lines m r → ⊥ }
{}

/// Each recorder's script satisfies `IsPlan`.
pub fn scripts_are_plans(script: &Script)
    ensures { IsPlan script.now }
{
    script.commands();
}
