//! The files and streams of the commands.
//!
//! `Files` is a command's access to files by name (`specs/Files`). `HostFiles` is the files of the
//! operating system; nothing is proved about their contents. `read_text` and `read_image` read
//! scripts and images, and check their sizes (`specs/Files`). `Output` is a writer whose reader
//! may go away. A `Session` has the files and streams of a command.
#![tactic(auto)]

pub use files::{FileError, FileFailure, Files};
pub use host_files::{HostFiles, fill};
pub use image::{MAX_IMAGE_BYTES, read_image};
pub use output::Output;
pub use session::Session;
pub use text::{MAX_SCRIPT_BYTES, read_text};

mod files;
mod holes;
mod host_files;
mod image;
mod output;
mod pieces;
mod session;
mod text;
