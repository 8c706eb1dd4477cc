//! Tests of the program that a transcript can't make: with lack of memory, with long images, and
//! with generated scripts. Also tests of public functions whose results no
//! command shows as a whole. Transcripts (crate `transcripts`) test what a command prints and
//! writes.
#![tactic(auto)]

#[cfg(test)]
mod client_sessions;
#[cfg(test)]
mod commands;
#[cfg(test)]
mod copied_logs;
#[cfg(test)]
mod crashed_logs;
#[cfg(test)]
mod forced;
#[cfg(test)]
mod layers;
#[cfg(test)]
mod runs;
#[cfg(test)]
mod scripts;
