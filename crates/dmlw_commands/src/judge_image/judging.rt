//! `judge SCRIPT M IMAGE`: prints whether a power failure could leave an image on a script's data
//! disk.
ghost use Rattle.dmlw_commands.specs.Ends.{EndsAsCommand};
ghost use Rattle.dmlw_commands.specs.Judgements.{AnswersOf, exit_answered, verdict_meaning};
ghost use Rattle.dmlw_commands.specs.Seen.{seen};

use crate::judge_image::answer::Answer;
use crate::judge_image::answering::{AskedImage, ask};
use crate::judge_image::step_lines::explain_event;
use crate::{Ended, Exit};
use bio::CoreEvent;
use dmlw_files::{Files, Session};
use judge::{First, Verdict, could_hold};
use std::alloc::{AllocError, Global};
use std::io;
use std::io::Write;

/// Executes `judge SCRIPT M IMAGE`, and returns how it ended. Runs the script as `record` does, on
/// a data disk of zeroes. Prints whether a power failure after the first `moment` of the recorder's
/// events could leave the image on this disk. `script` and `image` are names of files, and both are
/// read first.
///
/// The disk is seen from the top of its layers. If the verdict is no, the exit is `RuledOut`, and
/// no fault is reported. These are refused:
///
/// - a file that can't be read, is too long, or is no image (32);
/// - a script with a faulty line, which is named;
/// - a run that fails;
/// - a `moment` past the last event, or an image of another size than the disk (34).
///
/// If no log can be made, the exit is `LoggingEnded`. A fault is reported to `err`, with advice if
/// the session `explains`.
pub fn judge<F: Files, O: Write, E: Write>(
    script: &str,
    moment: u64,
    image: &str,
    session: &mut Session<F, O, E>,
) -> Ended
    ensures ends { EndsAsCommand (AnswersOf verdict_meaning script.now moment image.now)
        (exit_answered verdict_meaning) session.old.explains
        (seen (F.contents session.old.files) (F.writes session.old.files)
        (O.contents session.old.out) (E.contents session.old.err))
        (seen (F.contents session.new.files) (F.writes session.new.files)
        (O.contents session.new.out) (E.contents session.new.err)) result }
{
    let asked = AskedImage {
        script,
        moment,
        image,
    };
    ask::<Verdict, F, O, E>(asked, session)
}

impl Answer for Verdict {
    ghost meaning = { verdict_meaning };

    fn on_image(
        alloc: Global,
        events: &[CoreEvent],
        moment: u64,
        image: &[u8],
    ) -> Result<Verdict, AllocError> {
        could_hold(alloc, events, moment, First::Zeroes, image)
    }

    fn print<O: Write>(&self, out: &mut O) -> io::Result<()> {
        let verdict = *self;
        writeln!(out, "{verdict}")
    }

    fn explain<F: Files>(
        &self,
        alloc: Global,
        explains: bool,
        script: &str,
        files: &mut F,
    ) -> String {
        match *self {
            Verdict::No { by: Some(id), .. } => {
                explain_event(alloc, explains, id, script, files)
            }
            _ => String::new(alloc),
        }
    }

    fn exit(&self) -> Exit {
        match self {
            Verdict::Yes => Exit::Done,
            Verdict::No { .. } => Exit::RuledOut,
        }
    }
}
