//! The rows of a table: which row a value gets, and how the value is put in or taken out.
ghost use Rattle.std.specs.Prelude.{◌≡◌, ℕ, IsSome, ◌+◌, ◌-◌, ◌<◌, ◌≤◌, None, Some, List, length};
ghost use Rattle.std.specs.Prelude.{map, max, slice_set, vec_capacity};
ghost use Rattle.std.specs.Borrow.{Lends, sem};
ghost use Rattle.std.specs.contracts.option.Option.{the_row};
ghost use Rattle.pending.specs.ChainsView.{chain_in, shortened};
ghost use Rattle.pending.specs.inside.Tables.{HasRow, IsOpen, IsTable, spare_in, value_at};
ghost use Rattle.pending.specs.inside.Tables.{values_of};

use crate::chains::links::Links;
use crate::chains::rings;
use std::mem;

/// The number of the chain of the free rows.
pub const FREE: usize = 0;

/// Returns a loose row for a value: the first free row, or a new row if none is free. Makes at most
/// 1 change.
pub fn open_row<T>(links: &mut Links, rows: &mut Vec<Option<T>>) -> usize
    requires { HasRow links.old rows.old.items (vec_capacity rows.old) }
    ensures opened { (chains : List (List ℕ))
        → IsTable links.old.next.items links.old.lasts.items rows.old.items chains →
        IsOpen links.new.next.items links.new.lasts.items rows.new.items result
        (shortened chains 0) }
    ensures shown { (chains : List (List ℕ))
        → IsTable links.old.next.items links.old.lasts.items rows.old.items chains →
        map (values_of rows.new.items) (shortened chains 0)
        ≡ map (values_of rows.old.items) chains }
    ensures rows { (chains : List (List ℕ))
        → IsTable links.old.next.items links.old.lasts.items rows.old.items chains →
        length rows.new.items ≡ max (length rows.old.items)
        (length rows.old.items - length (chain_in chains 0) + 1) }
    ensures spare { (chains : List (List ℕ))
        → IsTable links.old.next.items links.old.lasts.items rows.old.items chains →
        spare_in links.new rows.new.items (vec_capacity rows.new) (shortened chains 0) + 1
        ≡ spare_in links.old rows.old.items (vec_capacity rows.old) chains }
    ensures few { links.new.changed ≤ links.old.changed + 1 }
    ensures rises { links.old.changed ≤ links.new.changed }
    ensures chains { length links.new.lasts.items ≡ length links.old.lasts.items }
    ensures chain_room { vec_capacity links.new.lasts ≡ vec_capacity links.old.lasts }
{
    match rings::take_first(links, FREE) {
        Some(row) => row,
        None => {
            let row = rows.len();
            links.add_row();
            rows.push_reserved(None);
            row
        }
    }
}

/// Takes the value out of a row.
pub fn take_value<T>(rows: &mut Vec<Option<T>>, row: usize) -> Option<T>
    requires { row < length rows.old.items }
    ensures taken { result ≡ value_at rows.old.items row }
    ensures left { rows.new.items ≡ slice_set rows.old.items row None }
    ensures room { vec_capacity rows.new ≡ vec_capacity rows.old }
{
    mem::replace(&mut rows[row], None)
}

pub fn put_value<T>(rows: &mut Vec<Option<T>>, row: usize, value: T) -> Option<T>
    requires { row < length rows.old.items }
    ensures taken { result ≡ value_at rows.old.items row }
    ensures put { rows.new.items ≡ slice_set rows.old.items row (Some value) }
    ensures room { vec_capacity rows.new ≡ vec_capacity rows.old }
{
    mem::replace(&mut rows[row], Some(value))
}

/// Returns a reference to the value in a row that has one, so that the caller can change the value.
pub fn value_mut<T>(slot: &mut Option<T>) -> &mut T
    requires { IsSome slot.old }
    ensures* lends { sem 𝓛 (Lends (the_row T.row) T.row slot.entry result Some) }
    ensures value { slot.old ≡ Some result.now }
{
    match slot {
        Some(value) => value,
        None => unreachable!(),
    }
}
