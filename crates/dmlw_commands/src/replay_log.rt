//! The command `replay`. It applies the entries of the log in a file, up to a named one, to the
//! image in another file. It asks for a write of the resulting image (`specs/Replays`).
pub use replaying::replay;
pub use what::upto_of;

mod images;
mod replaying;
mod what;
