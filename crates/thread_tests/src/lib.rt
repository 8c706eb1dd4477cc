//! Tests of `board`, `lock_state` and `shared`, through their public functions. They are in their
//! own crate, so that a changed test doesn't make the prover prove the tested crates again.
#![tactic(auto)]

#[cfg(test)]
mod barrier;
#[cfg(test)]
mod boards;
#[cfg(test)]
mod course;
#[cfg(test)]
mod histories;
#[cfg(test)]
mod large;
#[cfg(test)]
mod one;
#[cfg(test)]
mod play;
#[cfg(test)]
mod recording;
#[cfg(test)]
mod scenes;
#[cfg(test)]
mod waking;
#[cfg(test)]
mod work;
