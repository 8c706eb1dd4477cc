//! Runs a script to get only the recorder's events, which the command `judge` needs.
ghost use Rattle.std.specs.Prelude.{◌≡◌, ◌&&◌, IfErr, IfOk, false, not, true};
ghost use Rattle.std.specs.List.{list_any};
ghost use Rattle.bio.specs.Events.{all_aligned, is_lawful};
ghost use Rattle.bio.specs.Requests.{bytes_of};
ghost use Rattle.dmlw_script.specs.Plans.{top_of};
ghost use Rattle.refusals.specs.Errors.{memory_error};
ghost use Rattle.script_runner.specs.DiskRun.{FailsRehearsal, IsRehearsed, is_memory_stop};

use crate::laws::lines_go_as_one_call;
use crate::playing::play_on_disks;
use bio::{CoreEvent, End};
use dmlw_script::Script;
use dmlw_script::laws::scripts_are_plans;
use layer_table::Stack;
use recorder::Recorder;
use refusals::{Refusal, RunError};
use std::alloc::Global;
use std::io;
use std::marker::Model;

/// The recorder after a script ran for its events. Its value in contracts is the list of these
/// events.
#[derive(Drop)]
pub struct Rehearsed {
    recorder: Recorder<Stack>,
}

impl Model for Rehearsed {
    ghost use Rattle.std.specs.Prelude.{List};
    ghost use Rattle.bio.specs.declared.event.CoreEvent.{CoreEvent};

    ghost Value = { List CoreEvent };

    ghost use Rattle.recorder.specs.Calls.{core_of};

    ghost view = { λ rehearsed. (core_of rehearsed.recorder).events };
}

impl Rehearsed {
    /// Returns the recorder's events, in order.
    pub fn events(&self) -> &[CoreEvent]
        ensures { result.now ≡ self.now }
    {
        self.recorder.events()
    }
}

/// Runs `script` as `record` does, and keeps only the recorder's events. `text` is the script's
/// text. The log and what the lines print are dropped. If logging ends before the script does, the
/// run goes on. The call fails if `record` would fail.
///
/// If memory runs out in a run that goes on, the events may differ from those with enough memory.
/// Then the call fails with Memory, without a line. This doesn't apply to a read, since what it
/// prints is dropped.
pub fn events_of_run(alloc: Global, text: &[u8], script: &Script) -> Result<Rehearsed, RunError>
    ensures rehearsed { IfOk result (IsRehearsed script.now) }
    // The events are lawful for a device of the size of the data disk's topmost layer.
    ensures lawful { IfOk result (λ events. is_lawful (top_of script.now.data_disk) events ≡ true) }
    // Each request in the events is aligned to the log's sectors.
    ensures aligned { IfOk result
        (λ events. all_aligned (bytes_of script.now.log_size) events ≡ true) }
    ensures faults { IfErr result (FailsRehearsal text.now script.now) }
{
    // For the prover: the lines change the recorder as its calls do, and the script satisfies
    // `IsPlan`, as every script does.
    lines_go_as_one_call::<Stack, Stack>();
    scripts_are_plans(script);
    let played = play_on_disks(alloc, text, script, &mut io::sink())?;
    let ample = had_memory(played.ample, played.recorder.events());
    kept_if(
        ample,
        Rehearsed {
            recorder: played.recorder,
        },
    )
}

// Returns whether memory sufficed: `asked` says it for the script's lines, `events` for logging.
fn had_memory(asked: bool, events: &[CoreEvent]) -> bool
    ensures { result ≡ (asked && not (list_any is_memory_stop events.now)) }
{
    asked && !has_memory_stop(events)
}

// Returns `made` if memory sufficed, otherwise the fault Memory. For the prover: `T` is a type
// parameter here, so the prover doesn't look into the drop of `made`.
fn kept_if<T: Drop>(ample: bool, made: T) -> Result<T, RunError>
    ensures kept { IfOk result (λ it. (it ≡ made) × (ample ≡ true)) }
    ensures refused { IfErr result (λ fault. (fault ≡ memory_error) × (ample ≡ false)) }
{
    if !ample {
        return Err(RunError::from(Refusal::Memory));
    }
    Ok(made)
}

// Returns whether one of the events is a Stop because memory ran out.
fn has_memory_stop(events: &[CoreEvent]) -> bool
    ensures { result ≡ list_any is_memory_stop events.now }
{
    events.iter().any(|event| is_memory_stop(event))
}

// Returns whether an event is a Stop because memory ran out.
fn is_memory_stop(event: &CoreEvent) -> bool
    ensures { result ≡ is_memory_stop event.now }
{
    matches!(event, CoreEvent::Stop(End::Memory))
}
