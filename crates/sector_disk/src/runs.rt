//! A list of numbers, stored as runs: a number, and how often it repeats.
ghost use Rattle.std.specs.Prelude.{◌≡◌, ◌≤◌, ◌<◌, ◌++◌, [], IfOk, drop, length, replicate};
ghost use Rattle.std.specs.Prelude.{slice_get};
ghost use Rattle.sector_disk.specs.inside.Packed.{unrolled};

use std::alloc::{AllocError, Global};
use std::marker::Model;

// A number, and how often it repeats.
#[derive(Clone, Copy, Debug, Drop)]
struct NumberRun {
    count: usize,
    value: usize,
}

/// A list of numbers. Takes memory only if it has more than one run.
#[derive(Debug, Drop)]
pub struct Runs {
    held: StoredNumbers,
}

// The ways to store the numbers, in two words.
#[derive(Debug, Drop)]
enum StoredNumbers {
    // One run: a number, and how often it repeats.
    One { count: u32, value: usize },
    // The runs of the list, in order.
    More(Box<Vec<NumberRun>>),
}

impl Model for Runs {
    ghost use Rattle.std.specs.Prelude.{List, ℕ};

    ghost Value = { List ℕ };

    ghost use Rattle.sector_disk.specs.inside.Packed.{held_values};

    ghost view = { λ r. held_values r.held };
}

// Returns the first run of a list.
fn first_run(values: &[usize]) -> NumberRun
    ensures within { result.count ≤ length values.now }
    ensures run { values.now ≡ replicate result.count result.value ++ drop result.count values.now }
    ensures some { 0 < length values.now → 0 < result.count }
{
    let value = values.first().copied().unwrap_or(0);
    let mut count = 0;
    while count < values.len() && values[count] == value {
        count += 1;
    }
    NumberRun { count, value }
}

// Returns the number at an index of the list that the runs store.
fn value_at(runs: &[NumberRun], index: usize) -> Option<usize>
    ensures { result ≡ slice_get (unrolled runs.now) index }
{
    let mut rest = runs;
    let mut left = index;
    while let [run, later @ ..] = rest {
        if left < run.count {
            return Some(run.value);
        }
        left -= run.count;
        rest = later;
    }
    None
}

// Returns the runs of a list.
fn runs_of(alloc: Global, values: &[usize]) -> Result<Vec<NumberRun>, AllocError>
    ensures { IfOk result (λ runs. unrolled runs.items ≡ values.now) }
{
    let mut runs = Vec::new(alloc);
    let mut rest = values;
    while !rest.is_empty() {
        let run = first_run(rest);
        runs.push(run)?;
        rest = &rest[run.count..];
    }
    Ok(runs)
}

impl Runs {
    /// Returns an empty list of numbers. Takes no memory.
    pub fn empty() -> Runs
        ensures { result ≡ [] }
    {
        Runs::repeated(0, 0)
    }

    // Makes a list of one number, `count` times. Takes no memory.
    fn repeated(count: u32, value: usize) -> Runs
        ensures { result ≡ replicate count value }
    {
        Runs {
            held: StoredNumbers::One { count, value },
        }
    }

    /// Makes a list of the numbers of a slice.
    ///
    /// # Errors
    ///
    /// An allocation fails.
    pub fn from_slice(alloc: Global, values: &[usize]) -> Result<Runs, AllocError>
        ensures { IfOk result (λ runs. runs ≡ values.now) }
    {
        let first = first_run(values);
        if first.count == values.len() {
            if let Ok(count) = u32::try_from(first.count) {
                return Ok(Runs::repeated(count, first.value));
            }
        }
        let runs = runs_of(alloc, values)?;
        Ok(Runs {
            held: StoredNumbers::More(Box::new(alloc, runs)?),
        })
    }

    /// Returns the number at an index.
    pub fn get(&self, index: usize) -> Option<usize>
        ensures { result ≡ slice_get self.now index }
    {
        match &self.held {
            StoredNumbers::One { count, value } => (index < *count as usize).then_some(*value),
            StoredNumbers::More(runs) => value_at(runs, index),
        }
    }
}
