//! Parses a command line with `clap`, and finds the task that it asks for.
ghost use Rattle.std.specs.Prelude.{◌≡◌, ◌⊎◌, List, ℕ, ◌++◌, IfOk, IfSome, None, OnOk, Some, false};
ghost use Rattle.std.specs.Prelude.{is_some, map, not, true};
ghost use Rattle.std.specs.List.{filter, list_any};
ghost use Rattle.clap.specs.Words.{FailsBy, fault_of, found_of, kind_of, rows_of, subcommand_of};
ghost use Rattle.clap.specs.Words.{subcommand_rows_of};
ghost use Rattle.dmlw.specs.CommandLine.{EnteredCommand, IsAskedBy, IsComplete, ReadsTask, IsReadByClap};
ghost use Rattle.dmlw.specs.CommandLine.{has_explain, is_explain, is_formats, program_app};
ghost use Rattle.dmlw.specs.CommandLine.{without_explain};

use crate::formats::FORMATS;
use crate::program::{Name, program_command};
use crate::task::{Task, task_by};
use clap::error::ErrorKind;
use clap::{ArgMatches, Error};
use std::alloc::{AllocError, Global};
use std::convert::AsStr;

// Returns the task of a parsed command line. Returns None if it enters no command, or a word is
// missing.
fn task_of<'a>(matches: &ArgMatches<'a>) -> Option<Task<'a>>
    ensures asks { IfSome result (IsAskedBy (subcommand_rows_of matches.now)) }
    ensures complete { (entered : EnteredCommand) → subcommand_rows_of matches.now ≡ Some entered →
        IsComplete entered → is_some result ≡ true }
{
    let (word, found) = entered(matches)?;
    let name = Name::of(word)?;
    task_by(name, found)
}

// Returns the name of the entered command, and the words that were entered for it.
fn entered<'m, 'a>(matches: &'m ArgMatches<'a>) -> Option<(&'a str, &'m ArgMatches<'a>)>
    ensures some { IfSome result
        (λ found. subcommand_rows_of matches.now
        ≡ Some (found.0.now, rows_of (found_of found.1.now))) }
    ensures none { result ≡ None → subcommand_rows_of matches.now ≡ None }
{
    matches.subcommand()
}

// Parses the command line with `clap`.
fn parse<'a, S: AsStr>(alloc: Global, words: &'a [S]) -> Result<ArgMatches<'a>, Error>
    ensures entered { IfOk result (λ matches.
        subcommand_rows_of matches ≡ subcommand_of program_app (map S.text words.entry.now)) }
    ensures faults { FailsBy (fault_of program_app (map S.text words.entry.now)) result }
{
    program_command(alloc)?.try_get_matches_from(words)
}

// Returns the error for a command line in which clap found no fault, but which lacks a word.
fn incomplete(alloc: Global) -> Error
    ensures { (kind_of result ≡ ErrorKind.OutOfMemory)
        ⊎ (kind_of result ≡ ErrorKind.MissingRequiredArgument) }
{
    match missing_word(alloc) {
        Ok(error) => error,
        Err(error) => Error::from(error),
    }
}

fn missing_word(alloc: Global) -> Result<Error, AllocError>
    ensures { IfOk result (λ error. kind_of error ≡ ErrorKind.MissingRequiredArgument) }
{
    program_command(alloc)?.error(ErrorKind::MissingRequiredArgument, "a word is missing")
}

fn is_explain(word: &str) -> bool
    ensures { result ≡ is_explain word.now }
{
    word == "--explain"
}

/// Returns whether `--explain` is among the words after the program's name.
pub fn has_explain<S: AsStr>(words: &[S]) -> bool
    ensures { result ≡ has_explain (map S.text words.now) }
{
    match words {
        [_, rest @ ..] => are_explaining(rest),
        [] => false,
    }
}

// Returns whether one of these words is `--explain`. They don't begin with the program's name.
fn are_explaining<S: AsStr>(words: &[S]) -> bool
    ensures { result ≡ list_any (λ word. is_explain (S.text word)) words.now }
{
    words.iter().any(|word| is_explain(word.as_str()))
}

/// Returns the command line without the words `--explain`. The program's name stays in it.
pub fn without_explain<'a, S: AsStr>(
    alloc: Global,
    words: &'a [S],
) -> Result<Vec<&'a str>, AllocError>
    ensures { IfOk result (λ plain. map (λ word. word.now) plain.items
        ≡ without_explain (map S.text words.entry.now)) }
{
    let mut plain = Vec::new(alloc);
    if let [program, rest @ ..] = words {
        plain.push(program.as_str())?;
        push_plain(rest, &mut plain)?;
    }
    Ok(plain)
}

// Appends these words except `--explain`. They don't begin with the program's name.
fn push_plain<'a, S: AsStr>(words: &'a [S], plain: &mut Vec<&'a str>) -> Result<(), AllocError>
    ensures { OnOk result (map (λ word. word.now) plain.new.items ≡
        map (λ word. word.now) plain.old.items
        ++ filter (λ word. not (is_explain word)) (map S.text words.entry.now)) }
{
    for word in words {
        let word = word.as_str();
        if !is_explain(word) {
            plain.push(word)?;
        }
    }
    Ok(())
}

// Returns whether a command line is `help formats`.
fn is_formats(words: &[&str]) -> bool
    ensures { result ≡ is_formats (map (λ word. word.now) words.now) }
{
    match words {
        [_, first, second] => *first == "help" && *second == "formats",
        _ => false,
    }
}

/// Parses a command line without `--explain`, and returns its task. The first word is the program's
/// name. `help formats` asks for the page of the formats; `clap` parses all other words. The name
/// of a file is used as it is, and can't begin with a hyphen.
pub fn read_words<'a>(alloc: Global, words: &'a [&'a str]) -> Task<'a>
    ensures { ReadsTask (map (λ word. word.now) words.entry.now) result }
{
    if is_formats(words) {
        return Task::Formats(FORMATS);
    }
    read_commands(alloc, words)
}

/// Returns the task of a command line that can't be parsed because memory ran out.
pub fn unread<'a>(error: AllocError) -> Task<'a>
    ensures { (words : List (List ℕ)) → ReadsTask words result }
{
    Task::Show(Error::from(error))
}

// Parses a command line with `clap`, and returns its task.
fn read_commands<'a, S: AsStr>(alloc: Global, words: &'a [S]) -> Task<'a>
    ensures { IsReadByClap (map S.text words.entry.now) result }
{
    match parse(alloc, words) {
        Ok(matches) => match task_of(&matches) {
            Some(task) => task,
            None => Task::Show(incomplete(alloc)),
        },
        Err(error) => Task::Show(error),
    }
}
