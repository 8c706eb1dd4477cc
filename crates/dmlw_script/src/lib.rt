//! Reads and prints the scripts of `dmlw record` and of `dmlw run`. A recorder's script is a text
//! of lines. Its head has the sizes of the disks and of the log's sectors, and the layers over the
//! disks. Its body submits requests, ends them, and has steps such as reads, marks and times. A
//! crash of the log disk may end it. A run's script has a number of seats, and its body has
//! requests and marks of the seats.
//!
//! `read_script` and `read_run_script` read a text, or return the first line at fault. In a
//! recorder's script the number of a request is the number of submissions before it. So a caller
//! that goes over the commands needs no map of ids. `print_script` and `print_run_script` write the
//! canonical text of a script. Reading that text gives the same script, unless memory runs out.
//!
//! `specs/Fields` defines the words of each kind of line. `specs/Grammar` is the grammar, a
//! relation between texts and scripts, and has the canonical text of a script. `specs/Plans` defines
//! the value of a script, `specs/RunPlans` that of a run's script, and `specs/Words` the text of an
//! id. For a new kind of line, add a case to `Submission` or `Step`, and to `submission_fields` or
//! `step_fields`. For a new option of a write, add a field to `option_fields`.
#![tactic(auto)]

pub use command::{Command, DiskName, Step, Submission, WriteOptions};
pub use disk::DiskSpec;
pub use head::MAX_LAYERS;
pub use line::{recorder_forms, seat_forms};
pub use printing::print_script;
pub use reader::{line_of, read_script};
pub use run_line::{RunCall, SeatCall};
pub use run_printing::print_run_script;
pub use run_reader::{MAX_SEATS, read_run_script};
pub use run_script::RunScript;
pub use script::Script;
pub use script_id::ScriptId;

mod command;
mod disk;
mod draft;
mod head;
pub mod laws;
mod line;
mod line_error;
mod options;
mod parts;
mod printed_head;
mod printing;
mod reader;
mod run_line;
mod run_printing;
mod run_reader;
mod run_script;
mod script;
mod script_id;
mod steps;
mod submissions;
mod values;
