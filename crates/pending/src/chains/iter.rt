//! The values of one chain, in order.
ghost use Rattle.std.specs.Prelude.{◌≡◌, ◌==◌, ◌<◌, None, Some, length, if◌then◌else◌};
ghost use Rattle.std.specs.Iterator.{YieldsFirstRef, item_count};
ghost use Rattle.pending.specs.ChainsView.{chain_in};

use crate::chains::links::Links;
use crate::chains::table::Chains;
use crate::chains::walk::seen_last;
use std::iter::FusedIterator;
use std::marker::Model;

/// Iterates over the values of a chain. Its value in contracts is the list of the values that are
/// left. A step takes the same time whatever the chain's length is.
#[derive(Drop)]
pub struct Iter<'a, T> {
    links: &'a Links,
    rows: &'a [Option<T>],
    // The chain's last row, if the chain has rows.
    last: usize,
    // The row before the next value's row; at first the last row, since its link leads to the
    // first. None at the end.
    at: Option<usize>,
}

impl<'a, T> Model for Iter<'a, T> {
    ghost use Rattle.std.specs.Prelude.{List};
    ghost use Rattle.pending.specs.inside.Tables.{IsLook, values_left};

    ghost Value = { List T };

    ghost view = { λ it. values_left it.links.now.next.items it.rows.now it.last it.at };

    ghost invariant = { λ it. IsLook it.links.now.next.items it.rows.now it.last it.at };
}

impl<'a, T> Iterator for Iter<'a, T> {
    type Item = &'a T;

    ghost next_gives = { YieldsFirstRef (λ it. it) };

    ghost remaining = { item_count (λ it. it) };

    fn next(&mut self) -> Option<&'a T> {
        let row = self.links.next(self.at?);
        let rows = self.rows;
        let value = rows[row].as_ref();
        self.at = unless_last(row, self.last);
        value
    }
}

impl<'a, T> FusedIterator for Iter<'a, T> {}

fn unless_last(row: usize, last: usize) -> Option<usize>
    ensures { result ≡ (if row == last then None else Some row) }
{
    if row == last { None } else { Some(row) }
}

impl<T: Drop> Chains<T> {
    /// Returns the values of a chain, in order. If the chain is being walked, the first value is
    /// the one at which the walk is.
    pub fn iter(&self, chain: usize) -> Iter<'_, T>
        requires { 0 < chain × chain < length self.now.chains }
        ensures { result ≡ chain_in self.now.chains chain }
    {
        let at = seen_last(&self.links, self.walk, chain);
        Iter {
            links: &self.links,
            rows: self.rows.as_slice(),
            last: at.unwrap_or(0),
            at,
        }
    }
}
