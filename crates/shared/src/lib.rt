//! A recorder that threads share. Each thread has a seat, and one thread writes the log.
//!
//! Three locks guard three values of `lock_state`. One has the queue with the history, one the log
//! with the writer's seat at the board, and one the recorded device. Further locks guard the
//! receipts that the writer hands over. No thread takes a lock while it holds another lock. So no
//! thread holds the queue's lock while it calls a device. The contract of a call says what the call
//! adds to its seat's list, for each answer. No contract says when a lock is taken, or that a thread
//! runs or is woken.
#![tactic(auto)]

pub use answer::{Answer, MarkAnswer, MarkRefusal};
pub use board::{Names, StatusSeat};
pub use closing::{Closed, Ending, Mismatch, Open, Unclosed};
pub use lock_state::{Done, LogItem, Receipt, Run, Seat};
pub use plain::placed_logs_are_plain;
pub use published::PublishedBoard;
pub use shared::{Shared, Started, WriterSeat};
pub use unnamed::Unnamed;

mod answer;
mod calls;
mod closing;
mod desk;
mod log_desk;
mod marks;
mod plain;
mod published;
mod shared;
mod unnamed;
mod waiters;
mod waiting;
mod writing;
