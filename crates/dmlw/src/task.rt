//! The tasks for which a command line can ask, and how each command's task is made of the words that
//! were entered for its arguments.
ghost use Rattle.std.specs.Prelude.{◌≡◌, IfSome, is_some, option_map, true};
ghost use Rattle.clap.specs.Words.{first_of, found_of, rows_of};
ghost use Rattle.dmlw.specs.Commands.{AsksBy, HasWords, allowed_forms};
ghost use Rattle.dmlw.specs.declared.program.Name.TheVariants as names;

use crate::program::Name;
use crate::sector_count::SectorCount;
use clap::{ArgMatches, Error};
use dmlw_commands::explain::{CopyNames, ReplayNames};
use dmlw_commands::replay_log::upto_of;
use refusals::number_of;
use replay::Upto;

/// What a command line asks for. `script`, `log` and `image` are names of files.
#[derive(Debug, Drop)]
pub enum Task<'a> {
    /// Record the requests of the script in the file `script`, in a new log.
    Record {
        script: &'a str,
        log: &'a str,
    },
    /// Run the seats of the script in the file `script`, each in its own thread, and record their
    /// requests in a new log.
    Run {
        script: &'a str,
        log: &'a str,
    },
    /// List the entries of a log.
    List {
        log: &'a str,
    },
    /// Print the status of a log.
    Status {
        log: &'a str,
    },
    /// Replay a log onto an image, up to the end `upto`.
    Replay {
        names: ReplayNames<'a>,
        upto: Upto<'a>,
    },
    /// Copy a log to a new log with sectors of 4,096 bytes, on a disk of `sectors` sectors of 512
    /// bytes.
    Copy {
        names: CopyNames<'a>,
        sectors: SectorCount,
    },
    /// Print whether a power failure after the first `moment` events could leave the image on the
    /// script's data disk.
    Judge {
        script: &'a str,
        moment: u64,
        image: &'a str,
    },
    /// Print how a power failure after the first `moment` events could leave the image on the
    /// script's data disk.
    Path {
        script: &'a str,
        moment: u64,
        image: &'a str,
    },
    /// Print the page of the formats.
    Formats(&'static str),
    /// Print clap's text: help, the version, or why the command line has no task.
    Show(Error),
    /// Report that a word has a wrong form for its argument (`BadWord`).
    HasBadWord(BadWord, &'a str),
}

/// Why a word is wrong, though `clap` accepts it.
#[derive(Clone, Copy, Debug, PartialEq, Eq)]
pub enum BadWord {
    /// WHAT isn't `entries:<n>`, `mark:<text>` or `flush`.
    What,
    /// SECTORS isn't a number from 8 to 1,048,576.
    Sectors,
    /// M isn't a number of 1 to 20 decimal digits below 2^64.
    Moment,
}

impl BadWord {
    /// Returns the argument's name, the forms that the argument may have, and the command that
    /// prints help.
    pub fn forms(self) -> &'static str
        ensures { result.now ≡ allowed_forms self }
    {
        match self {
            BadWord::What => {
                "'<WHAT>'\n  [possible values: entries:<n> with n below 2^64, mark:<text>, flush]\n\nFor more information, try 'dmlw help replay'."
            }
            BadWord::Sectors => {
                "'<SECTORS>'\n  [possible values: a number from 8 to 1048576]\n\nFor more information, try 'dmlw help copy'."
            }
            BadWord::Moment => {
                "'<M>'\n  [possible values: a number of 1 to 20 digits, below 2^64]\n\nFor more information, try 'dmlw help judge'."
            }
        }
    }
}

/// Makes the task of the command `name` from the words that were entered for it. Returns None if one
/// is missing.
pub fn task_by<'a>(name: Name, found: &ArgMatches<'a>) -> Option<Task<'a>>
    ensures asks { IfSome result (AsksBy name (rows_of (found_of found.now))) }
    ensures complete { HasWords name (rows_of (found_of found.now)) → is_some result ≡ true }
{
    match name {
        Name::Record => record_task(found),
        Name::Run => run_task(found),
        Name::List => list_task(found),
        Name::Status => status_task(found),
        Name::Replay => replay_task(found),
        Name::Copy => copy_task(found),
        Name::Judge => judge_task(found),
        Name::Path => path_task(found),
    }
}

// Makes the task of `record` from the words that were entered. Returns None if one is missing.
fn record_task<'a>(found: &ArgMatches<'a>) -> Option<Task<'a>>
    ensures asks { IfSome result (AsksBy names.Record (rows_of (found_of found.now))) }
    ensures complete { HasWords names.Record (rows_of (found_of found.now))
        → is_some result ≡ true }
{
    let script = word_of(found, "SCRIPT")?;
    let log = word_of(found, "LOG")?;
    Some(Task::Record { script, log })
}

// Makes the task of `run`; None if a word is missing.
fn run_task<'a>(found: &ArgMatches<'a>) -> Option<Task<'a>>
    ensures asks { IfSome result (AsksBy names.Run (rows_of (found_of found.now))) }
    ensures complete { HasWords names.Run (rows_of (found_of found.now)) → is_some result ≡ true }
{
    let script = word_of(found, "SCRIPT")?;
    let log = word_of(found, "LOG")?;
    Some(Task::Run { script, log })
}

// Makes the task of `list`; None if a word is missing.
fn list_task<'a>(found: &ArgMatches<'a>) -> Option<Task<'a>>
    ensures asks { IfSome result (AsksBy names.List (rows_of (found_of found.now))) }
    ensures complete { HasWords names.List (rows_of (found_of found.now)) → is_some result ≡ true }
{
    let log = word_of(found, "LOG")?;
    Some(Task::List { log })
}

// Makes the task of `status`; None if a word is missing.
fn status_task<'a>(found: &ArgMatches<'a>) -> Option<Task<'a>>
    ensures asks { IfSome result (AsksBy names.Status (rows_of (found_of found.now))) }
    ensures complete { HasWords names.Status (rows_of (found_of found.now))
        → is_some result ≡ true }
{
    let log = word_of(found, "LOG")?;
    Some(Task::Status { log })
}

// Makes the task of `replay`; None if a word is missing. If WHAT names no end of a replay, the
// task reports this.
fn replay_task<'a>(found: &ArgMatches<'a>) -> Option<Task<'a>>
    ensures asks { IfSome result (AsksBy names.Replay (rows_of (found_of found.now))) }
    ensures complete { HasWords names.Replay (rows_of (found_of found.now))
        → is_some result ≡ true }
{
    let log = word_of(found, "LOG")?;
    let first = word_of(found, "FIRST")?;
    let out = word_of(found, "OUT")?;
    let what = word_of(found, "WHAT")?;
    match upto_of(what.as_bytes()) {
        Some(upto) => {
            let names = ReplayNames { log, first, out };
            Some(Task::Replay { names, upto })
        }
        None => Some(Task::HasBadWord(BadWord::What, what)),
    }
}

// Makes the task of `copy`; None if a word is missing. If SECTORS isn't a number from 8 to
// 1,048,576, the task reports this.
fn copy_task<'a>(found: &ArgMatches<'a>) -> Option<Task<'a>>
    ensures asks { IfSome result (AsksBy names.Copy (rows_of (found_of found.now))) }
    ensures complete { HasWords names.Copy (rows_of (found_of found.now)) → is_some result ≡ true }
{
    let log = word_of(found, "LOG")?;
    let out = word_of(found, "OUT")?;
    let sectors = word_of(found, "SECTORS")?;
    match SectorCount::of(sectors.as_bytes()) {
        Some(sectors) => {
            let names = CopyNames { log, out };
            Some(Task::Copy { names, sectors })
        }
        None => Some(Task::HasBadWord(BadWord::Sectors, sectors)),
    }
}

// Makes the task of `judge`; None if a word is missing. If M isn't a number, the task reports
// this.
fn judge_task<'a>(found: &ArgMatches<'a>) -> Option<Task<'a>>
    ensures asks { IfSome result (AsksBy names.Judge (rows_of (found_of found.now))) }
    ensures complete { HasWords names.Judge (rows_of (found_of found.now)) → is_some result ≡ true }
{
    let script = word_of(found, "SCRIPT")?;
    let moment = word_of(found, "M")?;
    let image = word_of(found, "IMAGE")?;
    match number_of(moment.as_bytes()) {
        Some(moment) => Some(Task::Judge {
            script,
            moment,
            image,
        }),
        None => Some(Task::HasBadWord(BadWord::Moment, moment)),
    }
}

// Makes the task of `path`; None if a word is missing. If M isn't a number, the task reports this.
fn path_task<'a>(found: &ArgMatches<'a>) -> Option<Task<'a>>
    ensures asks { IfSome result (AsksBy names.Path (rows_of (found_of found.now))) }
    ensures complete { HasWords names.Path (rows_of (found_of found.now)) → is_some result ≡ true }
{
    let script = word_of(found, "SCRIPT")?;
    let moment = word_of(found, "M")?;
    let image = word_of(found, "IMAGE")?;
    match number_of(moment.as_bytes()) {
        Some(moment) => Some(Task::Path {
            script,
            moment,
            image,
        }),
        None => Some(Task::HasBadWord(BadWord::Moment, moment)),
    }
}

// Returns the word that was entered for an argument, if one was.
fn word_of<'a>(found: &ArgMatches<'a>, argument: &str) -> Option<&'a str>
    ensures { option_map (λ word. word.now) result
        ≡ first_of argument.now (rows_of (found_of found.now)) }
{
    found.get_str(argument)
}
