//! Runs the lines of a script, up to the first line that is refused.
ghost use Rattle.bio.specs.Requests.{bytes_of};
ghost use Rattle.dmlw_script.specs.Plans.{top_of};
ghost use Rattle.recorder.specs.Calls.{core_of};
ghost use Rattle.std.specs.Prelude.{◌≡◌, IfErr, OnOk, []};
ghost use Rattle.script_runner.specs.Lines.{answering};
ghost use Rattle.script_runner.specs.Runs.{EndsRun, PrintsLines};

use crate::running::Running;
use crate::step_error::StepError;
use blockdev::Message;
use dmlw_script::{Script, laws, line_of};
use refusals::{Fault, RunError};
use std::io::Write;

/// Runs the lines of `script` from the first one on; `text` is the script's text. `running` has no
/// requests yet. Its data device has the size of the data disk's topmost layer, and its log has the
/// sectors that the script names. What the lines print is written to `out`.
///
/// If a line is refused, the run ends, and the fault names the line. If the output can't be written,
/// or memory runs out for the run itself, the run ends too, and the fault names no line.
pub fn run<D: Message + Drop, L: Message + Drop, O: Write>(
    text: &[u8],
    script: &Script,
    running: &mut Running<D, L>,
    out: &mut O,
) -> Result<(), RunError>
    requires size { (D.shown running.old.disk).size ≡ top_of script.now.data_disk }
    requires sectors { (core_of running.old.recorder).sector_bytes ≡ bytes_of script.now.log_size }
    requires first { running.old.requests.items ≡ [] }
    ensures runs { OnOk result
        (PrintsLines (answering D.answers L.answers) script.now.names script.now.commands
        (O.contents out.old) (O.contents out.new) running.old running.new) }
    ensures size { (D.shown running.new.disk).size ≡ (D.shown running.old.disk).size }
    ensures faults { IfErr result
        (EndsRun (answering D.answers L.answers) text.now script.now (O.contents out.old)
        (O.contents out.new) running.old) }
{
    // For the prover: each line of a script may follow the lines before it, and no request ends
    // twice.
    laws::requests_end_once();
    for (place, command) in script.commands().iter().enumerate() {
        match running.run_line(command, script.names(), out) {
            Ok(()) => {}
            Err(StepError::Whole(fault)) => return Err(fault),
            Err(StepError::AtLine(refusal)) => {
                let line = line_of(text, script.head_lines() + place);
                return Err(RunError::Refused(Fault { line, refusal }));
            }
        }
    }
    Ok(())
}
