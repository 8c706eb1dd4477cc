//! The links between rows, and the one function that changes them.
ghost use Rattle.std.specs.Prelude.{◌≡◌, ℕ, ◌+◌, ◌-◌, ◌^◌, ◌<◌, ◌≤◌, min, None, [], ◌∷◌, ◌++◌};
ghost use Rattle.std.specs.Prelude.{length, replicate, slice_set, IfOk, IfSome, IsOk, OnErr, OnOk};
ghost use Rattle.std.specs.Prelude.{vec_capacity, vec_len};
ghost use Rattle.pending.specs.inside.Tables.{ChangeIsWithin, after, last_in, lasts_after, next_after};

use std::alloc::{AllocError, Global};
use std::fmt::{self, Debug, Formatter};
use std::marker::Model;

/// A change of one link.
#[derive(Clone, Copy, Debug)]
pub enum LinkChange {
    /// Sets the last row of this chain; None means that the chain has no rows.
    Last(usize, Option<usize>),
    /// Makes the link of the first row lead to the second row.
    Next(usize, usize),
}

/// The link of a row: `to` is the row to which it leads. `from` is the row whose link was last made
/// to lead to this row; contracts don't see it.
#[derive(Drop)]
struct Link {
    to: usize,
    from: usize,
}

impl Model for Link {
    ghost use Rattle.std.specs.Prelude.{ℕ};

    ghost Value = { ℕ };

    ghost view = { λ link. link.to };
}

impl Debug for Link {
    fn fmt<W: fmt::Write>(&self, f: &mut Formatter<W>) -> fmt::Result {
        Debug::fmt(&self.to, f)
    }
}

impl Link {
    fn to(&self) -> usize
        ensures { result ≡ self.now }
    {
        self.to
    }

    // Returns the row whose link leads to this row, unless that link was changed since.
    fn from(&self) -> usize {
        self.from
    }
}

/// The last row of a chain, if the chain has rows: an `Option<usize>` in one word.
#[derive(Clone, Drop)]
struct LastRow {
    // `usize::MAX` if the chain has no rows. No row of a table has this number.
    row: usize,
}

impl Model for LastRow {
    ghost use Rattle.std.specs.Prelude.{Option, ℕ};

    ghost Value = { Option ℕ };

    ghost use Rattle.pending.specs.inside.LastRows.{row_in};

    ghost view = { λ last. row_in last.row };
}

impl Debug for LastRow {
    fn fmt<W: fmt::Write>(&self, f: &mut Formatter<W>) -> fmt::Result {
        Debug::fmt(&self.row(), f)
    }
}

impl LastRow {
    fn new(row: Option<usize>) -> LastRow
        requires { IfSome row (λ row. row < 18446744073709551615) }
        ensures { result ≡ row }
    {
        LastRow {
            row: row.unwrap_or(usize::MAX),
        }
    }

    fn row(&self) -> Option<usize>
        ensures { result ≡ self.now }
    {
        if self.row == usize::MAX {
            None
        } else {
            Some(self.row)
        }
    }
}

/// The row to which the link of each row leads, and the last row of each chain.
#[derive(Debug, Drop)]
pub struct Links {
    next: Vec<Link>,
    lasts: Vec<LastRow>,
    // How many links were changed; 2^64 - 1 if there were more.
    changed: u64,
}

impl Links {
    /// Returns links without rows, for chain 0 and `chains` other chains.
    pub fn new(alloc: Global, chains: usize) -> Result<Links, AllocError>
        ensures next { IfOk result (λ links. links.next.items ≡ []) }
        ensures lasts { IfOk result (λ links. links.lasts.items ≡ replicate (chains + 1) None) }
        ensures changed { IfOk result (λ links. links.changed ≡ 0) }
    {
        let mut lasts = vec![in alloc; LastRow::new(None); chains]?;
        lasts.push(LastRow::new(None))?;
        Ok(Links {
            next: Vec::new(alloc),
            lasts,
            changed: 0,
        })
    }

    /// Returns the row to which the link of `row` leads.
    pub fn next(&self, row: usize) -> usize
        requires { row < length self.now.next.items }
        ensures { result ≡ after self.now.next.items row }
    {
        self.next[row].to()
    }

    /// Returns the row whose link leads to `row`. Tries first the row that is noted at `row`, and
    /// searches only if its link leads elsewhere.
    pub fn before(&self, row: usize) -> usize
        requires { (some : ℕ) × (some < length self.now.next.items)
            × (after self.now.next.items some ≡ row) }
        ensures within { result < length self.now.next.items }
        ensures leads { after self.now.next.items result ≡ row }
    {
        if row < self.next.len() {
            let noted = self.next[row].from();
            if noted < self.next.len() && self.next(noted) == row {
                return noted;
            }
        }
        for other in 0..self.next.len() {
            if self.next(other) == row {
                return other;
            }
        }
        unreachable!()
    }

    /// Returns the last row of a chain, if the chain has rows.
    pub fn last(&self, chain: usize) -> Option<usize>
        requires { chain < length self.now.lasts.items }
        ensures { result ≡ last_in self.now.lasts.items chain }
    {
        self.lasts[chain].row()
    }

    /// Returns how many links were changed; 2^64 - 1 if there were more.
    pub fn changed(&self) -> u64
        ensures { result ≡ self.now.changed }
    {
        self.changed
    }

    /// Makes one change, and counts it.
    pub fn write(&mut self, change: LinkChange)
        requires { ChangeIsWithin self.old.next.items self.old.lasts.items change }
        ensures next { self.new.next.items ≡ next_after self.old.next.items change }
        ensures lasts { self.new.lasts.items ≡ lasts_after self.old.lasts.items change }
        ensures changed { self.new.changed ≡ min (self.old.changed + 1) (2 ^ 64 - 1) }
        ensures rises { self.old.changed ≤ self.new.changed }
        ensures row_room { vec_capacity self.new.next ≡ vec_capacity self.old.next }
        ensures chain_room { vec_capacity self.new.lasts ≡ vec_capacity self.old.lasts }
    {
        match change {
            LinkChange::Last(chain, row) => self.lasts[chain] = LastRow::new(row),
            LinkChange::Next(row, to) => {
                self.next[row].to = to;
                if to < self.next.len() {
                    self.next[to].from = row;
                }
            }
        }
        self.changed = self.changed.saturating_add(1);
    }

    /// Makes room for `more` more chains.
    pub fn reserve_chains(&mut self, more: usize) -> Result<(), AllocError>
        ensures next { self.new.next ≡ self.old.next }
        ensures lasts { self.new.lasts.items ≡ self.old.lasts.items }
        ensures changed { self.new.changed ≡ self.old.changed }
        ensures ok { OnOk result
            (length self.new.lasts.items + more ≤ vec_capacity self.new.lasts) }
        ensures room { vec_capacity self.old.lasts ≤ vec_capacity self.new.lasts }
        ensures succeeds { length self.old.lasts.items + more ≤ vec_capacity self.old.lasts
            → IsOk result }
        ensures full { OnErr result
            (vec_capacity self.old.lasts < length self.old.lasts.items + more) }
        ensures err { OnErr result (vec_capacity self.new.lasts ≡ vec_capacity self.old.lasts) }
    {
        self.lasts.reserve(more)
    }

    /// Makes room for `more` more rows.
    pub fn reserve_rows(&mut self, more: usize) -> Result<(), AllocError>
        ensures next { self.new.next.items ≡ self.old.next.items }
        ensures lasts { self.new.lasts ≡ self.old.lasts }
        ensures changed { self.new.changed ≡ self.old.changed }
        ensures ok { OnOk result (length self.new.next.items + more ≤ vec_capacity self.new.next) }
        ensures room { vec_capacity self.old.next ≤ vec_capacity self.new.next }
        ensures succeeds { length self.old.next.items + more ≤ vec_capacity self.old.next
            → IsOk result }
        ensures full { OnErr result
            (vec_capacity self.old.next < length self.old.next.items + more) }
        ensures err { OnErr result (vec_capacity self.new.next ≡ vec_capacity self.old.next) }
    {
        self.next.reserve(more)
    }

    /// Adds a chain without rows.
    pub fn begin(&mut self)
        requires { vec_len self.old.lasts < vec_capacity self.old.lasts }
        ensures next { self.new.next ≡ self.old.next }
        ensures lasts { self.new.lasts.items ≡ self.old.lasts.items ++ None ∷ [] }
        ensures changed { self.new.changed ≡ self.old.changed }
        ensures room { vec_capacity self.new.lasts ≡ vec_capacity self.old.lasts }
    {
        self.lasts.push_reserved(LastRow::new(None));
    }

    /// Adds a row that is in no chain.
    pub fn add_row(&mut self)
        requires { vec_len self.old.next < vec_capacity self.old.next }
        ensures next { self.new.next.items ≡ self.old.next.items ++ 0 ∷ [] }
        ensures lasts { self.new.lasts ≡ self.old.lasts }
        ensures changed { self.new.changed ≡ self.old.changed }
        ensures room { vec_capacity self.new.next ≡ vec_capacity self.old.next }
    {
        self.next.push_reserved(Link { to: 0, from: 0 });
    }

    /// Returns the number of chains, including chain 0.
    pub fn chains(&self) -> usize
        ensures { result ≡ length self.now.lasts.items }
    {
        self.lasts.len()
    }

    pub fn rows(&self) -> usize
        ensures { result ≡ length self.now.next.items }
    {
        self.next.len()
    }
}
