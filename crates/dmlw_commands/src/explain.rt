//! What `--explain` adds after a fault's line: the faulty line and word of a script, which file
//! can't be used and why, and advice. It adds nothing without `--explain`, and changes no file.
//! Tests show the texts.

mod advice;
mod counted;
mod explaining;
mod files;
mod layers;
mod line;
mod logs;
mod messages;
mod packed;
mod places;
mod refused_line;
mod script_text;

pub use counted::{Counted, counted_sectors};
pub use explaining::{
    CopyNames, ReplayNames, explain_copying, explain_judging, explain_reading, explain_recording,
    explain_replaying, explain_running,
};
pub(crate) use script_text::is_event;
