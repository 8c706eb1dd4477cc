//! The commands `judge` and `path`. `judge` rehearses a script, and prints whether a power failure
//! could leave an image on its data disk (`specs/Judgements`). The power failure comes after a
//! given number of the recorder's events. `path` prints a machine run that leaves the image, if
//! there is one.
//!
//! Both share `answering`, which takes an `Answer`. `laws` says that `judge` rules out no prefix of
//! the script's log.
pub use judging::judge;
pub use pathing::path;

mod answer;
mod answering;
mod finding;
mod judging;
pub mod laws;
mod moments;
mod pathing;
mod step_lines;
