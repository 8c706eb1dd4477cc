//! Tests of `log_format`, `pending`, `log_reader`, `log_store`, `recorder` and `replay`, through
//! their public functions. They are in their own crate, so that a changed test doesn't make the
//! prover prove the tested crates again.
#![tactic(auto)]

#[cfg(test)]
mod examples;
#[cfg(test)]
mod format;
#[cfg(test)]
mod images;
#[cfg(test)]
mod links;
#[cfg(test)]
mod recorders;
#[cfg(test)]
mod recording;
#[cfg(test)]
mod replaying;
#[cfg(test)]
mod short_lists;
#[cfg(test)]
mod storing;
#[cfg(test)]
mod writes;
