//! The commands of the program: their names, and their words and help for `clap`.
ghost use Rattle.std.specs.Prelude.{◌≡◌, IfOk, false, map};
ghost use Rattle.clap.specs.Words.{app_of, rule_of};
ghost use Rattle.dmlw.specs.CommandLine.{IsCommandOf, bare_app, command_app, needed, program_app};
ghost use Rattle.dmlw.specs.Commands.{all_names, arguments, name_of, name_text};

use clap::{Arg, Command};
use std::alloc::{AllocError, Global};

/// The name of a command.
#[derive(Clone, Copy, Debug, PartialEq, Eq)]
pub enum Name {
    Record,
    Run,
    List,
    Status,
    Replay,
    Copy,
    Judge,
    Path,
}

// What the help says of a command: its name, what it does, and its arguments, each with its help.
#[derive(Clone, Copy)]
struct Words<'a> {
    name: &'a str,
    about: &'a str,
    arguments: &'a [(&'a str, &'a str)],
}

impl Name {
    /// Returns the command that a word names; None for any other word.
    pub fn of(word: &str) -> Option<Name>
        ensures { result ≡ name_of word.now }
    {
        let names = Name::all();
        for name in names {
            if word == name.words().name {
                return Some(*name);
            }
        }
        None
    }

    // Returns all commands, in the order in which the help lists them.
    fn all() -> &'static [Name]
        ensures { result.now ≡ all_names }
    {
        &[
            Name::Record,
            Name::Run,
            Name::List,
            Name::Status,
            Name::Replay,
            Name::Copy,
            Name::Judge,
            Name::Path,
        ]
    }

    fn words<'a>(self) -> Words<'a>
        ensures name { result.name.now ≡ name_text self }
        ensures arguments { map (λ argument. argument.0.now) result.arguments.now
            ≡ arguments self }
    {
        match self {
            Name::Record => Words {
                name: "record",
                about: "Records the requests of a script in a new log",
                arguments: &[
                    ("SCRIPT", "The script to read"),
                    ("LOG", "The log to write"),
                ],
            },
            Name::Run => Words {
                name: "run",
                about: "Runs the seats of a script in threads, and records them in a new log",
                arguments: &[
                    ("SCRIPT", "The script to read"),
                    ("LOG", "The log to write"),
                ],
            },
            Name::List => Words {
                name: "list",
                about: "Lists the entries of a log",
                arguments: &[("LOG", "The log to read")],
            },
            Name::Status => Words {
                name: "status",
                about: "Prints how many entries a log has, and how far they reach",
                arguments: &[("LOG", "The log to read")],
            },
            Name::Replay => Words {
                name: "replay",
                about: "Replays a prefix of a log on an image",
                arguments: &[
                    ("LOG", "The log to read"),
                    ("FIRST", "The image to begin with"),
                    ("OUT", "The image to write"),
                    ("WHAT", "entries:<n>, mark:<text> or flush"),
                ],
            },
            Name::Copy => Words {
                name: "copy",
                about: "Copies a log to one with sectors of 4096 bytes",
                arguments: &[
                    ("LOG", "The log to read"),
                    ("OUT", "The log to write"),
                    ("SECTORS", "The sectors of the new log's disk"),
                ],
            },
            Name::Judge => Words {
                name: "judge",
                about: "Judges whether an image could have been on the device",
                arguments: &[
                    ("SCRIPT", "The script to read"),
                    ("M", "The number of events before the power failure"),
                    ("IMAGE", "The image to judge"),
                ],
            },
            Name::Path => Words {
                name: "path",
                about: "Prints how an image could have come to be on the device",
                arguments: &[
                    ("SCRIPT", "The script to read"),
                    ("M", "The number of events before the power failure"),
                    ("IMAGE", "The image to judge"),
                ],
            },
        }
    }
}

// The text of `help`. It lists the commands, and also `help formats`.
const HELP: &str = "\
Records block requests in a log, and reads logs back

Usage: dmlw [--explain] <COMMAND>

Commands:
  record        Records the requests of a script in a new log
  run           Runs the seats of a script in threads, and records them in a new log
  serve         Serves an NBD client on standard input and output, and records it in a new log
  list          Lists the entries of a log
  status        Prints how many entries a log has, and how far they reach
  replay        Replays a prefix of a log on an image
  copy          Copies a log to one with sectors of 4096 bytes
  judge         Judges whether an image could have been on the device
  path          Prints how an image could have come to be on the device
  help          Prints this page, or with a command's name that command's words
  help formats  Prints the grammar of scripts, the faults and the limits

Options:
      --explain  In any place: adds lines that help after a fault's line. DMLW_EXPLAIN=1 does the same
      --rebuild  The only word, for the launcher ./dmlw: proves and builds the program again
  -h, --help     Print help
  -V, --version  Print version

Exit status: 0 done, 1 refused or ruled out, 2 usage, 3 logging ended before its time.
A status such as 3 4 says: 3 entries, of which the last uses sector 4.";

// The help of `judge` and `path` on events.
const EVENTS: &str = "\
An event is a line of the script with an id, which submits a request or ends one, a mark, or the
close; so is the end of logging, if that comes first. Events count from 0. Other lines aren't events.

  data 16
  log 32
  w a 5 1 41    event 0
  c a           event 1
  f b           event 2
  c b           event 3
  close         event 4

M is 0 to 5 here. At 3 the flush hasn't ended: sector 5 may hold zeroes, or the bytes of a. At 4 it
has, and made a durable: event 0 rules zeroes out. With --explain its line of the script is printed.";

/// Returns the program's commands for `clap`.
pub fn program_command<'a>(alloc: Global) -> Result<Command<'a>, AllocError>
    ensures { IfOk result (λ command. app_of command ≡ program_app) }
{
    let mut program = bare_command(alloc);
    let names = Name::all();
    for name in names {
        let command = command_of(alloc, *name)?;
        program = program.subcommand(command)?;
    }
    Ok(program)
}

// Returns the program for `clap`, without its commands.
fn bare_command<'a>(alloc: Global) -> Command<'a>
    ensures { app_of result ≡ bare_app }
{
    Command::new(alloc, "dmlw")
        .version("1.1.0-pre.3 (log format version 1)")
        .override_help(HELP)
        .subcommand_required(true)
        .arg_required_else_help(true)
}

// Returns a command for `clap`, with its arguments and its help.
fn command_of<'a>(alloc: Global, name: Name) -> Result<Command<'a>, AllocError>
    ensures { IfOk result (IsCommandOf (command_app name)) }
{
    let words = name.words();
    let arguments = words.arguments;
    let mut command = Command::new(alloc, words.name).about(words.about);
    for (word, help) in arguments {
        command = command.arg(argument(alloc, word, help))?;
    }
    match name {
        Name::Judge | Name::Path => Ok(command.after_help(EVENTS)),
        _ => Ok(command),
    }
}

// Returns a required argument of a command.
fn argument<'a>(alloc: Global, name: &'a str, help: &'a str) -> Arg<'a>
    ensures rule { rule_of result ≡ needed name.entry.now }
    ensures own { result.global ≡ false }
{
    Arg::new(alloc, name).required(true).help(help)
}
