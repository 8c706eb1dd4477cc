//! The parts that all crates share: the project's refusals and their texts, the errors that end a
//! command early, and the words of a line.
//!
//! A `Refusal` is a row of one table: a number from 1 to 38 and a name (`specs/Table`). A `Fault`
//! is a refusal and, for a script, the line at fault. Its text is `24 Busy` or `line 4: 24 Busy`
//! (`specs/Errors`). `End` is the cause that ended logging. `RunError` is the error of a script's
//! run and of each command (`specs/Errors`). It is a fault, the cause that ended logging, or the
//! refusal that stopped a replay or a copy. Each error of a call, in any crate, converts to the
//! refusal that reports it.
//!
//! `cut`, `count_words` and `word_at` split a line into words, `number_of` parses decimal digits,
//! and `push_number` prints them (`specs/Words`).
#![tactic(auto)]

pub use cutting::{ascii_text, count_words, cut, word_at};
pub use numbers::{number_of, push_number};
pub use refusal::Refusal;
pub use run_error::{End, Fault, RunError};

mod cutting;
mod numbers;
mod refusal;
mod run_error;
pub mod word_laws;
