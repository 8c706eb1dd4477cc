// Runs a transcript, line by line.
use crate::scene::Scene;
use crate::tally::CommandTally;
use std::alloc::{AllocError, Global};
use std::sync::Wait;
use std::thread::Threads;

// A command with its input, and its expected output.
#[derive(Drop)]
struct CommandRun {
    command: String,
    given: String,
    wanted: String,
}

impl CommandRun {
    fn new(alloc: Global) -> CommandRun {
        CommandRun {
            command: String::new(alloc),
            given: String::new(alloc),
            wanted: String::new(alloc),
        }
    }

    fn begin(&mut self, command: &str) -> Result<(), AllocError> {
        self.command.push_str(command)?;
        Ok(())
    }

    // Clears the command, its input and its expected output.
    fn clear(&mut self) {
        self.command.clear();
        self.given.clear();
        self.wanted.clear();
    }
}

// What is printed for a transcript, and whether that is the whole transcript.
#[derive(Drop)]
struct Transcribed {
    text: String,
    is_again: bool,
}

/// Runs a transcript's commands in order, and returns what is printed for it. If `is_again`, that
/// is the whole transcript with each command's actual output; otherwise only the commands that
/// differ.
pub fn run<H: Threads + Wait + Sync>(
    alloc: Global,
    text: &str,
    is_again: bool,
    scene: &mut Scene<'_, H>,
    tally: &mut CommandTally,
) -> Result<String, AllocError> {
    let mut report = Transcribed {
        text: String::new(alloc),
        is_again,
    };
    run_steps(alloc, text, &mut report, scene, tally)?;
    Ok(report.text)
}

// Runs the commands of a transcript from its first line to its last.
fn run_steps<H: Threads + Wait + Sync>(
    alloc: Global,
    text: &str,
    report: &mut Transcribed,
    scene: &mut Scene<'_, H>,
    tally: &mut CommandTally,
) -> Result<(), AllocError> {
    let mut step = CommandRun::new(alloc);
    go_through(text, &mut step, report, scene, tally)
}

// Goes through the lines of a transcript.
fn go_through<H: Threads + Wait + Sync>(
    text: &str,
    step: &mut CommandRun,
    report: &mut Transcribed,
    scene: &mut Scene<'_, H>,
    tally: &mut CommandTally,
) -> Result<(), AllocError> {
    let text = text.strip_suffix("\n").unwrap_or(text);
    for line in text.split('\n') {
        take_line(line, step, report, scene, tally)?;
    }
    end_step(step, report, scene, tally)
}

// Takes one line: a command, its input, its expected output, or prose.
fn take_line<H: Threads + Wait + Sync>(
    line: &str,
    step: &mut CommandRun,
    report: &mut Transcribed,
    scene: &mut Scene<'_, H>,
    tally: &mut CommandTally,
) -> Result<(), AllocError> {
    if let Some(command) = line.strip_prefix("  $ ") {
        end_step(step, report, scene, tally)?;
        step.begin(command)?;
        return copy_line(line, report);
    }
    if let Some(given) = line.strip_prefix("  >") {
        push_line(&mut step.given, given.strip_prefix(" ").unwrap_or(given))?;
        return copy_line(line, report);
    }
    if let Some(wanted) = line.strip_prefix("  ") {
        return push_line(&mut step.wanted, wanted);
    }
    end_step(step, report, scene, tally)?;
    copy_line(line, report)
}

// Runs the last command now that all its lines were taken, and notes its output.
fn end_step<H: Threads + Wait + Sync>(
    step: &mut CommandRun,
    report: &mut Transcribed,
    scene: &mut Scene<'_, H>,
    tally: &mut CommandTally,
) -> Result<(), AllocError> {
    if step.command.is_empty() {
        return Ok(());
    }
    scene.run(step.command.as_str(), step.given.as_str())?;
    let is_same = scene.shown() == step.wanted.as_str();
    tally.count(is_same);
    if report.is_again {
        push_indented(&mut report.text, scene.shown())?;
    } else if !is_same {
        tell_difference(&mut report.text, step.command.as_str(), scene.shown())?;
    }
    step.clear();
    Ok(())
}

// Appends a command whose output differs, with its actual output.
fn tell_difference(text: &mut String, command: &str, shown: &str) -> Result<(), AllocError> {
    text.push_str("  $ ")?;
    push_line(text, command)?;
    push_indented(text, shown)
}

// Appends a line of the transcript if the whole transcript is printed.
fn copy_line(line: &str, report: &mut Transcribed) -> Result<(), AllocError> {
    if report.is_again {
        push_line(&mut report.text, line)?;
    }
    Ok(())
}

fn push_line(text: &mut String, line: &str) -> Result<(), AllocError> {
    text.push_str(line)?;
    text.push('\n')?;
    Ok(())
}

// Appends lines, each with two spaces before it.
fn push_indented(text: &mut String, lines: &str) -> Result<(), AllocError> {
    let lines = match lines.strip_suffix("\n") {
        Some(lines) => lines,
        None => return Ok(()),
    };
    for line in lines.split('\n') {
        text.push_str("  ")?;
        push_line(text, line)?;
    }
    Ok(())
}
