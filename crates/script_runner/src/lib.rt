//! Runs the scripts of `dmlw record` and `dmlw run`, on disks in memory.
//!
//! `record` runs a script with one thread. Requests go to the recorder and to the data device, and
//! a line is printed for the end of each. `Running` is a script's run so far: the recorder, the
//! data device, and the submitted requests. `run` runs the lines of a script in order.
//! `specs/Lines` says what each kind of line does and prints, and `specs/Runs` what all lines do
//! together.
//!
//! `run_seats` runs a script of seats. A thread for each seat makes the calls of its lines in
//! order, and another thread writes the log. Then the recorder is closed. `specs/SeatRuns` says
//! what a run returns: each seat's tally, and the log's disk.
#![tactic(auto)]

pub use asking::complete_request;
pub use handing::{do_request, read_sectors};
pub use playing::{new_recorder, new_stack, stack_over};
pub use recording::{Lies, RunResult, record};
pub use rehearsing::{Rehearsed, events_of_run};
pub use request::{Request, bio_of};
pub use run_script::run;
pub use running::Running;
pub use seat_run::{Ran, run_seats};
pub use seat_work::Work;
pub use step_error::StepError;
pub use tally::{Outcome, Tally};
pub use write_data::WriteData;

mod asking;
mod handing;
pub mod laws;
mod playing;
mod print;
mod recording;
mod rehearsing;
mod request;
mod run_script;
mod running;
mod seat_run;
mod seat_threads;
mod seat_work;
mod shortage;
mod step_error;
mod tally;
mod write_data;
