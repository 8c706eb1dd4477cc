//! The command `copy`. It copies the log in a file to a new log with sectors of 4,096 bytes. It
//! asks for a write of the new log's disk image (`specs/LogCopies`). `laws` says that both logs
//! replay to the same content.
pub use copying::copy;

mod copying;
mod images;
pub mod laws;
