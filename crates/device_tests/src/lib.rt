//! Tests of `refusals`, `bio`, `judge`, `world`, the chains of `pending`, the devices
//! `sector_disk`, `fault_layers`, `dust_layer` and `layer_table`, and the system's files of
//! `dmlw_files`, through their public functions.
//! They are in their own crate, so that a changed test doesn't make the prover prove those crates,
//! or the devices of `test_devices`, again.
#![tactic(auto)]

#[cfg(test)]
mod calls;
#[cfg(test)]
mod chains_of_values;
#[cfg(test)]
mod disk;
#[cfg(test)]
mod dust;
#[cfg(test)]
mod examples;
#[cfg(test)]
mod faults;
#[cfg(test)]
mod host;
#[cfg(test)]
mod refusals_shown;
#[cfg(test)]
mod requests;
#[cfg(test)]
mod table;
#[cfg(test)]
mod verdicts;
#[cfg(test)]
mod watched_files;
#[cfg(test)]
mod words_of_lines;
#[cfg(test)]
mod worlds;
