//! The library of dmlw: it runs command lines, with files and writers of any kind.
//!
//! `execute` runs one command line. Its contract says, for each command, what is printed and which
//! file write is asked for (`specs/Commands`). `command_line` parses the words by `program`, and
//! `task` makes a task of them. `dmlw_commands` has the commands. `laws` says what each command does
//! if its file names don't begin with a hyphen.
#![tactic(auto)]

pub use dmlw_commands::{Ended, Exit};
pub use dmlw_files::{FileError, FileFailure, Files, HostFiles, Output, Session};
pub use executing::{execute, refuse};

mod command_line;
mod executing;
mod formats;
pub mod laws;
mod program;
mod sector_count;
mod task;
