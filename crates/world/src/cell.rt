//! A `Cell`: the requests that landed in one sector, oldest first, and how many of them had landed
//! when the sector was last destaged.
ghost use Rattle.std.specs.Prelude.{◌≡◌, ◌∷◌, ◌≤◌, ◌<◌, OnErr, OnOk, get_or, length, reverse};
ghost use Rattle.std.specs.Prelude.{slice_set, take};
ghost use Rattle.world.specs.Cells.{CellState, empty_cell, landing, settling};
ghost use Rattle.world.specs.Machine.{is_among, newest};

use bio::Id;
use std::alloc::{AllocError, Global};
use std::marker::Model;

/// The requests that landed in one sector, `ids`, of which the first `safe` had landed when the
/// sector was last destaged. Contracts see both lists newest first.
#[derive(Debug, Drop)]
pub struct Cell {
    ids: Vec<u64>,
    safe: usize,
}

impl Model for Cell {
    ghost Value = { CellState };

    ghost view = { λ cell. record {
      landed = reverse cell.ids.items;
      settled = reverse (take cell.safe cell.ids.items);
    } };

    ghost invariant = { λ cell. cell.safe ≤ length cell.ids.items };
}

impl Cell {
    /// Returns the cell of a sector on which nothing landed.
    pub fn new(alloc: Global) -> Cell
        ensures { result ≡ empty_cell }
    {
        Cell {
            ids: Vec::new(alloc),
            safe: 0,
        }
    }

    /// Records that the request `id` lands in the sector.
    pub fn land(&mut self, id: u64) -> Result<(), AllocError>
        ensures landed { OnOk result
            (self.new ≡ record self.old { landed = id ∷ self.old.landed }) }
        ensures refused { OnErr result (self.new ≡ self.old) }
    {
        self.ids.push(id)?;
        Ok(())
    }

    /// Records that the sector is destaged.
    pub fn settle(&mut self)
        ensures { self.new ≡ record self.old { settled = self.old.landed } }
    {
        self.safe = self.ids.len();
    }

    /// Returns the request that landed last, if any.
    pub fn newest(&self) -> Option<Id>
        ensures { result ≡ newest self.now.landed }
    {
        newest_of(&self.ids)
    }

    /// Returns whether the request has landed.
    pub fn has_landed(&self, id: u64) -> bool
        ensures { result ≡ is_among self.now.landed id }
    {
        is_among(&self.ids, id)
    }

    /// Returns whether the request had landed when the sector was last destaged.
    pub fn has_settled(&self, id: u64) -> bool
        ensures { result ≡ is_among self.now.settled id }
    {
        is_among(&self.ids[..self.safe], id)
    }
}

// Returns the last of `ids`, which are oldest first.
fn newest_of(ids: &[u64]) -> Option<Id>
    ensures { result ≡ newest (reverse ids.now) }
{
    match ids.last() {
        Some(id) => Some(Id::new(*id)),
        None => None,
    }
}

// Returns whether `id` is one of `ids`. `ids` are oldest first; the contract reverses them.
#[tactic(auto, using(crate::proofs::Lists::any_reverse))]
fn is_among(ids: &[u64], id: u64) -> bool
    ensures { result ≡ is_among (reverse ids.now) id }
{
    contains(ids, id)
}

// Returns whether `id` is one of `ids`. The contract doesn't reverse them.
fn contains(ids: &[u64], id: u64) -> bool
    ensures { result ≡ is_among ids.now id }
{
    ids.iter().any(|other| *other == id)
}

/// Records that a request lands in a sector.
pub fn land_in(cells: &mut [Cell], sector: usize, id: u64) -> Result<(), AllocError>
    requires { sector < length cells.old }
    ensures landed { OnOk result
        (cells.new ≡ slice_set cells.old sector (landing id (get_or cells.old sector empty_cell))) }
    ensures refused { OnErr result (cells.new ≡ cells.old) }
{
    cells[sector].land(id)
}

/// Records that a sector is destaged.
pub fn settle_in(cells: &mut [Cell], sector: usize)
    requires { sector < length cells.old }
    ensures { cells.new ≡ slice_set cells.old sector
        (settling (get_or cells.old sector empty_cell)) }
{
    cells[sector].settle();
}
