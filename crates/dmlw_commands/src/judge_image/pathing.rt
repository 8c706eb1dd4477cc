//! `path SCRIPT M IMAGE`: prints how a power failure could leave an image on a script's data disk.
ghost use Rattle.dmlw_commands.specs.Ends.{EndsAsCommand};
ghost use Rattle.dmlw_commands.specs.Judgements.{AnswersOf, exit_answered, finding_meaning};
ghost use Rattle.dmlw_commands.specs.Seen.{seen};

use crate::Ended;
use crate::judge_image::answering::{AskedImage, ask};
use dmlw_files::{Files, Session};
use std::io::Write;
use world::Finding;

/// Executes `path SCRIPT M IMAGE`, and returns how it ended. Runs a script as `record` does, on a
/// data disk of zeroes, and prints a machine run that leaves the image. The run has the submissions
/// and ends among the recorder's first `moment` events.
///
/// Each step is a line, and the last line is `power`. An id is the index of an event. `script` and
/// `image` are names of files, and both are read first.
///
/// The disk is seen from the top of its layers. If no run leaves the image, the verdict's line is
/// printed, the exit is `RuledOut`, and no fault is reported. Faults are those of `judge`.
pub fn path<F: Files, O: Write, E: Write>(
    script: &str,
    moment: u64,
    image: &str,
    session: &mut Session<F, O, E>,
) -> Ended
    ensures ends { EndsAsCommand (AnswersOf finding_meaning script.now moment image.now)
        (exit_answered finding_meaning) session.old.explains
        (seen (F.contents session.old.files) (F.writes session.old.files)
        (O.contents session.old.out) (E.contents session.old.err))
        (seen (F.contents session.new.files) (F.writes session.new.files)
        (O.contents session.new.out) (E.contents session.new.err)) result }
{
    let asked = AskedImage {
        script,
        moment,
        image,
    };
    ask::<Finding, F, O, E>(asked, session)
}
