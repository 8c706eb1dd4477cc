//! What a crash of a shared recorder leaves of its log, in the plain definitions of the headline
//! (`specs/PlainCrash`).
ghost use Rattle.std.specs.Prelude.{IsTrue, List, ℕ};
ghost use Rattle.bio.specs.Content.{Content};
ghost use Rattle.bio.specs.Events.{is_lawful_sized};
ghost use Rattle.lock_state.specs.Comparison.{IsTakenPrefix};
ghost use Rattle.lock_state.specs.PlacedItems.{entries_in};
ghost use Rattle.lock_state.specs.declared.note.LogItem.{LogItem as Placing};
ghost use Rattle.log_store.specs.Store.{IsLogPrefix};
ghost use Rattle.pending.specs.CoreState.{CoreState};
ghost use Rattle.pending.specs.Plain.{LeavesPlainLog};

/// If a content has a log of the first placed entries, and these are a prefix of the completion
/// list, then the log's prefixes replay to what the recorded device could hold (`LeavesPlainLog`).
pub fn placed_logs_are_plain()
    ensures { (sectors size few : ℕ) (core : CoreState) (placed : List Placing) (left : Content)
        → IsTrue (is_lawful_sized core.sector_bytes sectors core.events)
        → IsTakenPrefix core placed
        → IsLogPrefix size core.sector_bytes (entries_in placed) few left
        → LeavesPlainLog core.sector_bytes size few core.events left }
{
    pending::plain::lists_are_plain();
    pending::plain::logs_are_plain();
    pending::plain::prefixes_could_be_held();
}
