//! The headline for a recorder whose log is on a stack of layers, and laws about the runs of
//! scripts.
ghost use Rattle.std.specs.Prelude.{◌++◌, ◌≡◌, ◌≤◌, [], List, None, Some, false, length, slice_get};
ghost use Rattle.std.specs.Prelude.{take, ℕ};
ghost use Rattle.bio.specs.declared.event.CoreEvent.TheVariants.{Mark};
ghost use Rattle.recorder.specs.declared.reply.Reply.TheVariants.{Queued};
ghost use Rattle.dmlw_script.specs.declared.command.Command.{Command};
ghost use Rattle.dmlw_script.specs.declared.script_id.ScriptId.{ScriptId};
ghost use Rattle.log_format.specs.LogOf.{IsLogOf};
ghost use Rattle.bio.specs.Events.{has_no_close};
ghost use Rattle.pending.specs.CoreState.{IsSound};
ghost use Rattle.recorder.specs.Growth.{HasWholeLog, RecorderFrame, ReplaysToPossible};
ghost use Rattle.recorder.specs.RecorderView.{listed_entries};
ghost use Rattle.layer_table.specs.Layers.{stack_shown};
ghost use Rattle.script_runner.specs.DiskRun.{DiskRecorder, DiskRun, IsUnmade, Starts};
ghost use Rattle.refusals.specs.declared.run_error.RunError.{RunError};
ghost use Rattle.refusals.specs.declared.run_error.RunError.TheVariants.{LoggingEnded};
ghost use Rattle.dmlw_script.specs.Plans.{Disk, ScriptValue};
ghost use Rattle.refusals.specs.declared.run_error.End.TheVariants as ends;
ghost use Rattle.recorder.specs.Calls.{core_of, recorder_view};
ghost use Rattle.bio.specs.Content.{Content};
ghost use Rattle.std.specs.List.{AllZip};
ghost use Rattle.script_runner.specs.declared.request.Request.{Request};
ghost use Rattle.script_runner.specs.Runs.{LogIsWritten, submissions_of, RunsLines};
ghost use Rattle.script_runner.specs.Runs.{TrackedAreRecorded, IsRequestOf};
ghost use Rattle.script_runner.specs.Lines.{answering, RecordsMark};

use crate::Running;
use blockdev::Message;
use layer_table::Stack;

/// The headline, for a recorder whose log is on a stack of layers. The recorder gets any list of
/// submissions, completions, marks and writer's turns. The layers fail any calls. A crash comes at
/// any moment, inside a log write too. Then the reopened log is a prefix of the completion list,
/// with every mark and FUA write acknowledged as logged. Replaying any prefix of the log gives a
/// content that the recorded device could hold, had power failed there.
///
/// `old` is the recorder before some of its calls, and `new` after them. `RecorderFrame` holds for
/// each call, and for several (`recorder::laws::several_calls_go_as_one`). `left` is what a crash
/// at any moment since `old` may have left on the log's device. The only premise is that no layer
/// of the log lied. Four other premises aren't needed:
/// - The log was created. A `Recorder` always has a created log.
/// - The log's device keeps the law of devices. This is proved for each stack.
/// - The recorded device is blank at first. Its first content may be any.
/// - The devices answer when the log is reopened and replayed. Both are definitions here, which
///   `log_reader::LogReader` and `replay::replay` compute. For that, the devices must answer Ok
///   without a new lie, and memory must suffice.
pub fn headline()
    ensures { (old new : DiskRecorder) (left : Content)
        → RecorderFrame (recorder_view old) (recorder_view new) →
        (stack_shown new.store.device).lies ≡ 0
        → (stack_shown new.store.device).since (stack_shown old.store.device).clock left →
        ReplaysToPossible (recorder_view old) (recorder_view new) left }
{
    recorder::laws::crashed_logs_replay_to_what_could_be::<Stack>();
}

/// On a disk without layers, a log can be made unless memory runs out. This holds for log sectors
/// of either size.
pub fn bare_logs_fail_only_by_memory()
    ensures { (bytes : ℕ) (disk : Disk) (fault : RunError) → disk.layers ≡ []
        → IsUnmade bytes disk fault → fault ≡ LoggingEnded ends.Memory }
{
    layer_table::laws::stacks_do_what_their_layers_do();
}

/// The lines of a script change the recorder only as its calls can. Its events only grow, and what
/// was placed or settled before is placed or settled after them.
pub fn lines_go_as_one_call<D: Message + Drop, L: Message + Drop>()
    ensures { (names : List ScriptId) (body : List Command) (text : List ℕ)
        (old new : Running D L D.BlockDev L.BlockDev) →
        RunsLines (answering D.answers L.answers) names body text old new
        → RecorderFrame (recorder_view old.recorder) (recorder_view new.recorder) }
{
    recorder::laws::several_calls_go_as_one::<L>();
}

/// Calls of both devices begin at the same time. At the start of a script this time is 0. If both
/// devices have the same time before some lines, they have the same time after the lines. So each
/// line calls its device at the time that the last `at` set.
pub fn both_devices_are_called_at_one_time<D: Message + Drop, L: Message + Drop>()
    ensures start { (plan : ScriptValue) (run : DiskRun) → Starts plan run
        → run.recorder.store.time ≡ run.time }
    ensures lines { (names : List ScriptId) (body : List Command) (text : List ℕ)
        (old new : Running D L D.BlockDev L.BlockDev) →
        RunsLines (answering D.answers L.answers) names body text old new
        → old.recorder.store.time ≡ old.time →
        new.recorder.store.time ≡ new.time }
{}

/// Each line that submits adds one request to the run, in the order of the lines. It is the request
/// that the line asks for, unless memory ran out for it. If the recorder tracks a request by an id,
/// the event at this id is the request's Submit. This holds after the lines if it held before them.
pub fn requests_are_in_the_events<D: Message + Drop, L: Message + Drop>()
    ensures asked { (names : List ScriptId) (body : List Command) (text : List ℕ)
        (old new : Running D L D.BlockDev L.BlockDev) →
        RunsLines (answering D.answers L.answers) names body text old new
        → (more : List Request) × (new.requests.items ≡ old.requests.items ++ more)
        × AllZip IsRequestOf (submissions_of body) more }
    ensures recorded { (names : List ScriptId) (body : List Command) (text : List ℕ)
        (old new : Running D L D.BlockDev L.BlockDev) →
        RunsLines (answering D.answers L.answers) names body text old new → TrackedAreRecorded old
        → TrackedAreRecorded new }
{}

/// If a line queued a mark, the recorder's event at its id is the mark with its text. Lines that
/// run later don't change this.
pub fn marks_are_in_the_events<D: Message + Drop, L: Message + Drop>()
    ensures { (names : List ScriptId) (body : List Command) (mark text more : List ℕ) (id : ℕ)
        (old mid new : Running D L D.BlockDev L.BlockDev) →
        (line : RecordsMark mark text old mid) → line.reply ≡ Queued id
        → RunsLines (answering D.answers L.answers) names body more mid new →
        slice_get (core_of new.recorder).events id ≡ Some (Mark mark) }
{
    lines_go_as_one_call::<D, L>();
}

/// If the log's device didn't lie, each content that a crash during a script's run may have left
/// has a log. This log is a prefix of the completion list of the recorder's events. It has all
/// entries that were settled when the run began.
pub fn crashes_of_a_run_leave_prefixes<D: Message + Drop, L: Message + Drop>()
    ensures { (names : List ScriptId) (body : List Command) (text : List ℕ)
        (old new : Running D L D.BlockDev L.BlockDev) (left : Content) →
        RunsLines (answering D.answers L.answers) names body text old new
        → (recorder_view new.recorder).store.device.lies ≡ 0 →
        (recorder_view new.recorder).store.device.since
        (recorder_view old.recorder).store.device.clock left →
        (count : ℕ) × (old.recorder.store.settled ≤ count)
        × (count ≤ length (listed_entries (core_of new.recorder)))
        × IsLogOf (recorder_view new.recorder).store.device.size left
        (core_of new.recorder).sector_bytes (take count (listed_entries (core_of new.recorder))) }
{
    lines_go_as_one_call::<D, L>();
    recorder::laws::crashes_leave_prefixes::<L>();
}

/// If recording is closed and logging hasn't ended, the whole completion list of the recorder's
/// events is placed. If this holds before some lines, it holds after them, even for lines after the
/// Close. Unless the log's device lied, the device's content then has the whole log, and so has
/// each content that a crash may leave.
pub fn closed_runs_leave_whole_logs<D: Message + Drop, L: Message + Drop>()
    ensures placed { (names : List ScriptId) (body : List Command) (text : List ℕ)
        (old new : Running D L D.BlockDev L.BlockDev) →
        RunsLines (answering D.answers L.answers) names body text old new → LogIsWritten old.recorder
        → LogIsWritten new.recorder }
    ensures whole { (names : List ScriptId) (body : List Command) (text : List ℕ)
        (old new : Running D L D.BlockDev L.BlockDev) →
        RunsLines (answering D.answers L.answers) names body text old new → LogIsWritten old.recorder
        → IsSound (core_of new.recorder) → new.recorder.end ≡ None →
        has_no_close (core_of new.recorder).events ≡ false
        → (recorder_view new.recorder).store.device.lies ≡ 0 →
        HasWholeLog (recorder_view new.recorder) }
{
    recorder::laws::closed_logs_are_whole::<L>();
}
