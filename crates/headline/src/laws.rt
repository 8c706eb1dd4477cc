//! Laws about the headline. Each function does nothing; its contract is the law. The headline's
//! promise is never empty, and a crash leaves what `reopen_and_replay` asks for.
ghost use Rattle.std.specs.Prelude.{◌≡◌, ◌≤◌, ℕ, List, length};
ghost use Rattle.bio.specs.Content.{AgreeBelow, Content};
ghost use Rattle.bio.specs.declared.event.CoreEvent.{CoreEvent};
ghost use Rattle.headline.specs.Headline.{HoldsLogOf};
ghost use Rattle.pending.specs.CompletionList.{BelongsTo, completion_list, dm_log_writes};
ghost use Rattle.pending.specs.CompletionList.{last_moment};
ghost use Rattle.recorder.specs.PlainCrash.{LeavesAcknowledged};
ghost use Rattle.recorder.specs.Calls.{core_of, recorder_view};
ghost use Rattle.recorder.specs.declared.recorder.Recorder.{Recorder};

use blockdev::BlockDev;
use pending::laws::stopped_lists_stay;

/// Each prefix of the completion list belongs to some moment up to the last moment. So the
/// headline's promise about the moments to which `count` entries belong is about at least one
/// moment.
pub fn each_count_belongs_to_a_moment()
    ensures { (size : ℕ) (events : List CoreEvent) (count : ℕ)
        → count ≤ length (completion_list (dm_log_writes size) events) →
        (moment : ℕ) × (moment ≤ last_moment events)
        × BelongsTo (dm_log_writes size) events moment count }
{
    stopped_lists_stay();
}

/// If a device has the size of a recorder's log device, and the content that a crash left there, it
/// holds a log (`HoldsLogOf`). The log has the first `count` entries. `reopen_and_replay` asks for
/// such a log. By the recorder's clause `crash`, all acknowledged entries are among them.
pub fn crashed_logs_are_held<L: BlockDev + Drop, D: BlockDev>()
    ensures { (old new : Recorder L L.BlockDev) (left : Content) (log : D)
        → (is : LeavesAcknowledged (recorder_view old) (recorder_view new) left)
        → (D.shown log).size ≡ (recorder_view new).store.device.size
        → AgreeBelow (D.shown log).size left (D.shown log).content →
        HoldsLogOf (core_of new).sector_bytes (core_of new).events is.plain.ids is.plain.count
        (D.shown log) }
{}
