//! Runs transcripts and series of commands over files in memory, and compares their output with the
//! expected output.
//!
//! A transcript is a text. A line that isn't indented is prose. A line `  $ COMMAND` begins a
//! command (`scene` lists them), and lines `  > TEXT` are its input. Other lines that two spaces
//! indent are its expected output.
//!
//! Each argument that ends in `.t` names a transcript. For each, the program prints the commands
//! whose output differs, with the actual output, and then a line with counts. A last line has the
//! counts of all. If the first argument is `again`, it prints each whole transcript with the actual
//! outputs.
//!
//! Each other argument names a series (`series`). The lines of the series are printed last.
#![tactic(auto)]

mod bytes;
mod calls;
mod images;
mod scene;
mod series;
mod tally;
mod transcript;

use crate::scene::Scene;
use crate::series::Report;
use crate::tally::CommandTally;
use dmlw_files::{HostFiles, read_text};
use std::process::ExitCode;
use std::sync::Wait;
use std::thread::Threads;
use std::{env, io};

fn main(rt: HostRuntime) -> io::Result<ExitCode> {
    let words: Vec<String> = env::args(&rt)?.collect(rt.alloc())?;
    let is_again = words.get(1).is_some_and(|word| word.as_str() == "again");
    let first = if is_again { 2 } else { 1 };
    let mut all = CommandTally::new();
    let mut report = Report::new(rt.alloc());
    for name in words.iter().skip(first) {
        let name = name.as_str();
        if name.ends_with(".t") {
            let text = transcript_of(&rt, name)?;
            let shown = run(&rt, name, &text, is_again, &mut all)?;
            rt.print(shown.as_str())?;
        } else {
            series::run(&rt, rt.alloc(), name, &mut report)?;
        }
    }
    if !is_again {
        println!(rt; "all: {all}")?;
    }
    rt.print(report.text())?;
    let has_run = words.len() > first;
    let is_good = has_run && (is_again || all.is_good()) && report.differ() == 0;
    Ok(ExitCode::from(u8::from(!is_good)))
}

// Returns the text of the transcript `name`, of at most 4 MiB. Returns an empty text if it can't be
// read.
fn transcript_of<R: std::rt::Files + AllocGlobal>(rt: &R, name: &str) -> io::Result<String> {
    let mut files = HostFiles::new(rt, rt.alloc());
    let text = read_text(rt.alloc(), name, &mut files).unwrap_or(Vec::new(rt.alloc()));
    Ok(String::from_utf8(text).unwrap_or(String::new(rt.alloc())))
}

// Runs a transcript, and returns what is printed for it. If `is_again`, that is the whole
// transcript with its actual outputs; otherwise the commands that differ, and a line with counts.
fn run<R: AllocGlobal + Threads + Wait + Sync>(
    rt: &R,
    name: &str,
    text: &str,
    is_again: bool,
    all: &mut CommandTally,
) -> io::Result<String> {
    let mut scene = Scene::new(rt, rt.alloc());
    run_in(rt, name, text, is_again, &mut scene, all)
}

// Runs a transcript as `run` does, with the files of `scene`.
fn run_in<R: AllocGlobal + Threads + Wait + Sync>(
    rt: &R,
    name: &str,
    text: &str,
    is_again: bool,
    scene: &mut Scene<'_, R>,
    all: &mut CommandTally,
) -> io::Result<String> {
    let mut here = CommandTally::new();
    let mut shown = transcript::run(rt.alloc(), text, is_again, scene, &mut here)?;
    if !is_again {
        shown.push_str(format!(in rt.alloc(); "{name}: {here}\n")?.as_str())?;
    }
    all.add(&here);
    Ok(shown)
}
