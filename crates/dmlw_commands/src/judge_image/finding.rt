//! The answer of `path`: a machine run that leaves the image, or what rules the image out.
ghost use Rattle.std.specs.Prelude.{OnOk};
ghost use Rattle.std.specs.Io.KnownBytes.{Appends};
ghost use Rattle.std.specs.List.{flat_map};
ghost use Rattle.dmlw_commands.specs.Judgements.{finding_meaning, step_line};

use crate::Exit;
use crate::judge_image::answer::Answer;
use crate::judge_image::step_lines::{explain_event, explain_run};
use bio::CoreEvent;
use dmlw_files::Files;
use judge::{First, Verdict};
use std::alloc::{AllocError, Global};
use std::io;
use std::io::Write;
use world::{Finding, Step, find};

impl Answer for Finding {
    ghost meaning = { finding_meaning };

    fn on_image(
        alloc: Global,
        events: &[CoreEvent],
        moment: u64,
        image: &[u8],
    ) -> Result<Finding, AllocError> {
        find(alloc, events, moment, First::Zeroes, image)
    }

    fn print<O: Write>(&self, out: &mut O) -> io::Result<()> {
        match self {
            Finding::Run(run) => print_run(run, out),
            Finding::RuledOut { sector, by } => {
                let verdict = Verdict::No {
                    sector: *sector,
                    by: *by,
                };
                writeln!(out, "{verdict}")
            }
        }
    }

    fn explain<F: Files>(
        &self,
        alloc: Global,
        explains: bool,
        script: &str,
        files: &mut F,
    ) -> String {
        match self {
            Finding::Run(run) => explain_run(alloc, explains, run, script, files),
            Finding::RuledOut { by: Some(id), .. } => {
                explain_event(alloc, explains, *id, script, files)
            }
            Finding::RuledOut { by: None, .. } => String::new(alloc),
        }
    }

    fn exit(&self) -> Exit {
        match self {
            Finding::Run(_) => Exit::Done,
            Finding::RuledOut { .. } => Exit::RuledOut,
        }
    }
}

// Prints a line for each step of a run.
fn print_run<O: Write>(run: &[Step], out: &mut O) -> io::Result<()>
    ensures { OnOk result (Appends (O.contents out.old) (O.contents out.new)
        (flat_map step_line run.now)) }
{
    for step in run {
        writeln!(out, "{step}")?;
    }
    Ok(())
}
