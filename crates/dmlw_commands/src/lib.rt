//! The commands of dmlw, over files and writers of any kind.
//!
//! - `record` runs a script of one recorder, and asks for its log to be written (`specs/Records`).
//! - `run` does this for a script of several seats (`specs/Records`).
//! - `list` and `status` print what a log's image holds (`specs/Lists`).
//! - `replay` and `copy` make an image of a log (`specs/Replays`, `specs/LogCopies`).
//! - `judge` and `path` print whether a power failure could leave an image on a script's data disk
//!   (`specs/Judgements`).
//!
//! Each command reports its fault and returns how it ended (`specs/Ends`). `explain` has what
//! `--explain` adds after a fault's line. The commands use the file system by `Files` of
//! `dmlw_files`.
#![tactic(auto)]

pub use ending::{Ended, end, end_recording, end_well, report};
pub use exit::Exit;

pub mod copy_log;
mod ending;
mod exit;
pub mod explain;
pub mod judge_image;
pub mod list;
mod opened;
pub mod record;
pub mod replay_log;
pub mod run;
pub mod status;
