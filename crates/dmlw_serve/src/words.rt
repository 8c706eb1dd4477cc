//! The words of `dmlw serve`.
use crate::session::ServeNames;
use clap::{Arg, ArgMatches, Command, Error};
use std::alloc::{AllocError, Global};
use std::convert::AsStr;

/// What the words of `dmlw serve` ask for.
#[derive(Drop)]
pub enum Asked<'a> {
    /// Serve a client. The lines of the file `marks`, if there is one, are marks.
    Serve {
        names: ServeNames<'a>,
        marks: Option<&'a str>,
    },
    /// Show clap's text: help, or why the words can't be read.
    Show(Error),
}

/// Reads the words of `dmlw serve`, of which the first is `serve`.
pub fn read_words<'a, S: AsStr>(alloc: Global, words: &'a [S]) -> Asked<'a> {
    match parse(alloc, words) {
        Ok(matches) => match asked_of(&matches) {
            Some(asked) => asked,
            None => Asked::Show(Error::from(AllocError)),
        },
        Err(error) => Asked::Show(error),
    }
}

fn parse<'a, S: AsStr>(alloc: Global, words: &'a [S]) -> Result<ArgMatches<'a>, Error> {
    command(alloc)?.try_get_matches_from(words)
}

fn asked_of<'a>(matches: &ArgMatches<'a>) -> Option<Asked<'a>> {
    let head = matches.get_str("HEAD")?;
    let first = matches.get_str("FIRST")?;
    let log = matches.get_str("LOG")?;
    Some(Asked::Serve {
        names: ServeNames { head, first, log },
        marks: matches.get_str("marks"),
    })
}

// Returns the command for `clap`.
fn command<'a>(alloc: Global) -> Result<Command<'a>, AllocError> {
    let marks = Arg::new(alloc, "marks")
        .long("marks")
        .value_name("FILE")
        .help("A file whose appended lines are recorded as marks");
    Command::new(alloc, "dmlw serve")
        .about("Serves an NBD client on standard input and output, and records it in a new log")
        .arg(needed(
            alloc,
            "HEAD",
            "A script with the lines data, log and layers only",
        ))?
        .arg(needed(alloc, "FIRST", "The first content of the data disk"))?
        .arg(needed(alloc, "LOG", "The log to write"))?
        .arg(marks)
}

fn needed<'a>(alloc: Global, name: &'a str, help: &'a str) -> Arg<'a> {
    Arg::new(alloc, name).required(true).help(help)
}
