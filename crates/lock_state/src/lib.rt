//! The values under the three locks of a recorder that threads share, and the steps that a thread
//! makes under each lock. No function of this crate waits or starts a thread.
//!
//! A thread that takes a lock knows only the invariant of the value under it. So this crate states
//! all that concerns threads: what holds under each lock, and how each step changes the value under
//! the lock and the caller's seat.
#![tactic(auto)]

pub use closing::drain;
pub use compare::{are_causes, are_named, are_unrecorded, is_list_of, names};
pub use data::DataState;
pub use entry_of::is_entry_of;
pub use handles::{Fresh, Handle, Numbered, Registry, Whose};
pub use log::{LogParts, LogState, Receipt};
pub use note::{Done, LogItem, Own, ReportedCauses, Unplaced, Unrecorded, UnrecordedCall};
pub use part::{Seat, SeatPart, WriterPart};
pub use queue::{QueueParts, QueueState};
pub use run::{EndTable, ReadingTable, Run, StopTable};
pub use served::{CallsSeen, is_served};
pub use stop::{FirstStop, ShownCause, StopPart};

mod checking;
mod closing;
mod compare;
mod data;
mod entry_of;
mod handles;
mod log;
mod note;
mod part;
mod queue;
mod run;
mod served;
mod stop;
