//! A table of chains of values, and the calls that change it.
ghost use Rattle.std.specs.Prelude.{◌≡◌, ◌≢◌, ◌+◌, ◌<◌, ◌≤◌, ◌==◌, None, Some, Option, []};
ghost use Rattle.std.specs.Prelude.{◌∷◌, ◌++◌, length, replicate, max, IfOk, IsOk, OnOk, OnErr};
ghost use Rattle.std.specs.Prelude.{OnSome, slice_get};
ghost use Rattle.std.specs.Option.{option_copied};
ghost use Rattle.pending.specs.ChainsView.{ChangesFew, KeepsRoom, chain_in, count_in, fronted};
ghost use Rattle.pending.specs.ChainsView.{joined, lengthened, new_rows_room, shortened};
ghost use Rattle.pending.specs.ChainsView.{with_first};

use crate::chains::links::Links;
use crate::chains::marks::Marks;
use crate::chains::rings;
use crate::chains::rows::{FREE, open_row, put_value, take_value, value_mut};
use crate::chains::walk::{Walk, first_row, seen_last};
use std::alloc::{AllocError, Global};
use std::marker::Model;

/// How many rows can be marked.
const MARKED_ROWS: usize = 65_536;

/// Chains of values. The chains have the numbers from 1 on.
#[derive(Debug, Drop)]
pub struct Chains<T> {
    pub(crate) links: Links,
    // The value in each row; None in a free row.
    pub(crate) rows: Vec<Option<T>>,
    pub(crate) walk: Option<Walk>,
    pub(crate) marks: Marks,
}

impl<T> Model for Chains<T> {
    ghost use Rattle.std.specs.Prelude.{vec_capacity};
    ghost use Rattle.pending.specs.ChainsView.{ShownChains, shown_code};

    ghost Value = { ShownChains T };

    ghost coded = { shown_code T.code };

    ghost use Rattle.pending.specs.inside.Tables.{IsMarked, shown_of};

    ghost view = { λ c. shown_of c.links c.rows.items (vec_capacity c.rows) c.walk };

    ghost invariant = { λ c. IsMarked c.links c.rows.items c.walk c.marks.rows.items };
}

impl<T: Drop> Chains<T> {
    ghost use Rattle.std.specs.Borrow.{sem};
    ghost use Rattle.pending.specs.Lends.{lends_first};

    /// Returns a table of `chains` empty chains, with the numbers from 1 on.
    ///
    /// # Errors
    ///
    /// Memory ran out.
    pub fn new(alloc: Global, chains: usize) -> Result<Chains<T>, AllocError>
        ensures chains { IfOk result (λ table. table.chains ≡ replicate (chains + 1) []) }
        ensures changed { IfOk result (λ table. table.changed ≡ 0) }
        ensures walked { IfOk result (λ table. table.walked ≡ None) }
        ensures rows { IfOk result (λ table. table.rows ≡ 0) }
    {
        Ok(Chains {
            links: Links::new(alloc, chains)?,
            rows: Vec::new(alloc),
            walk: None,
            marks: Marks::new(alloc, MARKED_ROWS)?,
        })
    }

    /// Makes room for `more` more chains, which can then be begun without allocating.
    ///
    /// # Errors
    ///
    /// Memory ran out. Nothing changes.
    pub fn reserve(&mut self, more: usize) -> Result<(), AllocError>
        ensures same { self.new ≡ record self.old { room = self.new.room } }
        ensures room { OnOk result (more ≤ self.new.room) }
        ensures kept { self.old.room ≤ self.new.room }
        ensures succeeds { more ≤ self.old.room → IsOk result }
        ensures full { OnErr result (self.old.room < more) }
        ensures err { OnErr result (self.new ≡ self.old) }
    {
        self.links.reserve_chains(more)
    }

    /// Makes room for `more` more values, which can then be put into new rows without allocating.
    ///
    /// # Errors
    ///
    /// Memory ran out. The chains don't change.
    pub fn reserve_rows(&mut self, more: usize) -> Result<(), AllocError>
        ensures same { self.new ≡ record self.old { spare = self.new.spare } }
        ensures spare { OnOk result (more ≤ self.new.spare) }
        ensures room { OnOk result (more ≤ new_rows_room self.new) }
        ensures kept { self.old.spare ≤ self.new.spare }
        ensures succeeds { more ≤ new_rows_room self.old → IsOk result }
        ensures full { OnErr result (new_rows_room self.old < more) }
    {
        self.links.reserve_rows(more)?;
        self.rows.reserve(more)
    }

    /// Makes room for one more value, unless a row is free.
    ///
    /// # Errors
    ///
    /// Memory ran out. The chains don't change.
    pub fn reserve_row(&mut self) -> Result<(), AllocError>
        ensures same { self.new ≡ record self.old { spare = self.new.spare } }
        ensures spare { OnOk result (0 < self.new.spare) }
        ensures kept { self.old.spare ≤ self.new.spare }
        ensures succeeds { 0 < self.old.spare → IsOk result }
        ensures full { OnErr result (self.old.spare ≡ 0) }
    {
        if self.links.last(FREE).is_some() {
            return Ok(());
        }
        self.reserve_rows(1)
    }

    /// Adds an empty chain. Allocates nothing.
    pub fn begin(&mut self)
        requires { 0 < self.old.room }
        ensures chains { self.new.chains ≡ self.old.chains ++ [] ∷ [] }
        ensures room { self.new.room + 1 ≡ self.old.room }
        ensures rest { self.new ≡ record self.old {
          chains = self.new.chains;
          room = self.new.room;
        } }
    {
        self.links.begin();
    }

    /// Appends a value to a chain, in a free row if there is one. Changes at most 4 links, and
    /// allocates nothing.
    pub fn add_reserved(&mut self, chain: usize, value: T)
        requires rests { self.old.walked ≡ None }
        requires chain { 0 < chain × chain < length self.old.chains }
        requires spare { 0 < self.old.spare }
        ensures chains { self.new.chains ≡ lengthened self.old.chains chain value }
        ensures changed { ChangesFew self.old self.new 4 }
        ensures walked { self.new.walked ≡ None }
        ensures rows { self.new.rows ≡ max self.old.rows (count_in self.new.chains) }
        ensures room { self.new.room ≡ self.old.room }
        ensures spare { self.new.spare + 1 ≡ self.old.spare }
    {
        let row = open_row(&mut self.links, &mut self.rows);
        put_value(&mut self.rows, row, value);
        rings::put_last(&mut self.links, chain, row);
    }

    /// Appends all values of chain `from` to chain `onto`. Changes at most 4 links, and moves no
    /// value.
    pub fn join(&mut self, from: usize, onto: usize)
        requires rests { self.old.walked ≡ None }
        requires from { 0 < from × from < length self.old.chains }
        requires onto { 0 < onto × onto < length self.old.chains }
        requires apart { from ≢ onto }
        ensures chains { self.new.chains ≡ joined self.old.chains from onto }
        ensures changed { ChangesFew self.old self.new 4 }
        ensures walked { self.new.walked ≡ None }
        ensures room { KeepsRoom self.old self.new }
    {
        self.marks.leave(from);
        rings::join(&mut self.links, from, onto);
    }

    /// Puts all values of chain `from` before those of chain `onto`. Changes at most 3 links, and
    /// moves no value.
    pub fn put_before(&mut self, from: usize, onto: usize)
        requires rests { self.old.walked ≡ None }
        requires from { 0 < from × from < length self.old.chains }
        requires onto { 0 < onto × onto < length self.old.chains }
        requires apart { from ≢ onto }
        ensures chains { self.new.chains ≡ fronted self.old.chains from onto }
        ensures changed { ChangesFew self.old self.new 3 }
        ensures walked { self.new.walked ≡ None }
        ensures room { KeepsRoom self.old self.new }
    {
        self.marks.leave(from);
        rings::put_before(&mut self.links, from, onto);
    }

    /// Takes the first value out of a chain, if there is one, and frees its row. Changes at most 3
    /// links.
    pub fn take_first(&mut self, chain: usize) -> Option<T>
        requires rests { self.old.walked ≡ None }
        requires chain { 0 < chain × chain < length self.old.chains }
        ensures taken { result ≡ slice_get (chain_in self.old.chains chain) 0 }
        ensures chains { self.new.chains ≡ shortened self.old.chains chain }
        ensures changed { ChangesFew self.old self.new 3 }
        ensures walked { self.new.walked ≡ None }
        ensures rows { self.new.rows ≡ self.old.rows }
        ensures room { self.new.room ≡ self.old.room }
        ensures spare { OnSome result (self.new.spare ≡ self.old.spare + 1) }
        ensures none { result ≡ None → self.new ≡ self.old }
    {
        let row = rings::take_first(&mut self.links, chain)?;
        self.marks.remove(row);
        let value = take_value(&mut self.rows, row);
        rings::put_first(&mut self.links, FREE, row);
        value
    }

    /// Appends a value to a chain, in a free row if there is one. Changes at most 4 links.
    ///
    /// # Errors
    ///
    /// Memory ran out. The chains don't change, and the value is dropped.
    pub fn add(&mut self, chain: usize, value: T) -> Result<(), AllocError>
        requires rests { self.old.walked ≡ None }
        requires chain { 0 < chain × chain < length self.old.chains }
        ensures chains { OnOk result (self.new.chains ≡ lengthened self.old.chains chain value) }
        ensures changed { ChangesFew self.old self.new 4 }
        ensures walked { self.new.walked ≡ None }
        ensures rows { OnOk result (self.new.rows ≡ max self.old.rows (count_in self.new.chains)) }
        ensures room { self.new.room ≡ self.old.room }
        ensures succeeds { 0 < self.old.spare → IsOk result }
        ensures err { OnErr result (self.new ≡ record self.old { spare = self.new.spare }) }
    {
        self.reserve_row()?;
        self.add_reserved(chain, value);
        Ok(())
    }

    /// Adds a chain with one value, in a free row if there is one. Changes at most 4 links.
    ///
    /// # Errors
    ///
    /// Memory ran out. The chains don't change, and the value is dropped.
    pub fn begin_with(&mut self, value: T) -> Result<(), AllocError>
        requires rests { self.old.walked ≡ None }
        ensures chains { OnOk result (self.new.chains ≡ self.old.chains ++ (value ∷ []) ∷ []) }
        ensures changed { ChangesFew self.old self.new 4 }
        ensures walked { self.new.walked ≡ None }
        ensures rows { OnOk result (self.new.rows ≡ max self.old.rows (count_in self.new.chains)) }
        ensures succeeds { 0 < self.old.room → 0 < self.old.spare → IsOk result }
        ensures err { OnErr result
            (self.new ≡ record self.old { room = self.new.room; spare = self.new.spare }) }
    {
        self.reserve(1)?;
        self.reserve_row()?;
        let chain = self.chains();
        self.begin();
        self.add_reserved(chain, value);
        Ok(())
    }

    /// Returns the number of chains, with chain 0. The next chain that is begun gets this number.
    pub fn chains(&self) -> usize
        ensures count { result ≡ length self.now.chains }
        ensures some { 0 < result }
    {
        self.links.chains()
    }

    /// Returns the first value of a chain. If the chain is being walked, this is the value at which
    /// the walk is.
    pub fn first(&self, chain: usize) -> Option<&T>
        requires { 0 < chain × chain < length self.now.chains }
        ensures { option_copied result ≡ slice_get (chain_in self.now.chains chain) 0 }
    {
        let last = seen_last(&self.links, self.walk, chain)?;
        self.rows[self.links.next(last)].as_ref()
    }

    pub fn is_empty(&self, chain: usize) -> bool
        requires { 0 < chain × chain < length self.now.chains }
        ensures { result ≡ (length (chain_in self.now.chains chain) == 0) }
    {
        seen_last(&self.links, self.walk, chain).is_none()
    }

    /// Replaces the first value of a chain, and returns the old value. Changes no link. If the
    /// chain is empty, drops the new value.
    pub fn replace_first(&mut self, chain: usize, value: T) -> Option<T>
        requires { 0 < chain × chain < length self.old.chains }
        ensures replaced { result ≡ slice_get (chain_in self.old.chains chain) 0 }
        ensures chains { OnSome result (self.new.chains ≡ with_first self.old.chains chain value) }
        ensures rest { self.new ≡ record self.old { chains = self.new.chains } }
        ensures none { result ≡ None → self.new ≡ self.old }
    {
        let last = seen_last(&self.links, self.walk, chain)?;
        let row = self.links.next(last);
        put_value(&mut self.rows, row, value)
    }

    /// Returns a reference to the first value of a chain that isn't empty, so that the caller can
    /// change the value. Changes no link.
    pub fn first_mut(&mut self, chain: usize) -> &mut T
        requires chain { 0 < chain × chain < length self.old.chains }
        requires some { 0 < length (chain_in self.old.chains chain) }
        ensures* writes_back { sem 𝓛 (lends_first T.row self.entry chain result) }
        ensures value { slice_get (chain_in self.old.chains chain) 0 ≡ Some result.now }
    {
        let row = first_row(&self.links, self.walk, chain);
        value_mut(&mut self.rows[row])
    }

    /// Returns the chain that is being walked, if there is one.
    pub fn walked(&self) -> Option<usize>
        ensures { result ≡ self.now.walked }
    {
        Some(self.walk?.chain)
    }

    /// Returns how many links were changed; 2^64 - 1 if there were more.
    pub fn links_changed(&self) -> u64
        ensures { result ≡ self.now.changed }
    {
        self.links.changed()
    }
}
