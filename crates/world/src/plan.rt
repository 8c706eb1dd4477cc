//! The plan's steps for one request, sector by sector.
//!
//! If a request's value is wanted in a sector, the request lands there at its end, or after all
//! events if it has no end. Otherwise the request lands there at its submission, if it ends with
//! success.
ghost use Rattle.std.specs.Prelude.{◌≡◌, ◌+◌, ◌^◌, ◌<◌, ◌++◌, OnOk, Some};
ghost use Rattle.bio.specs.declared.event.CoreEvent.TheVariants as core_events;
ghost use Rattle.bio.specs.Requests.{first_sector, sector_count};
ghost use Rattle.judge.specs.Accounts.{place_at};
ghost use Rattle.world.specs.inside.{by_sector, is_upto, is_wanted, lands_if, lands_late, sure_by};
ghost use Rattle.world.specs.inside.{touch};

use crate::step::Step;
use bio::{Bio, Id};
use judge::Account;
use std::alloc::AllocError;

// Returns whether `id` is the wanted request.
fn is_wanted(wanted: Option<usize>, id: usize) -> bool
    ensures { result ≡ is_wanted wanted id }
{
    match wanted {
        Some(wanted) => wanted == id,
        None => false,
    }
}

// Returns whether `id` is at most `last`; false if `last` is none.
fn is_upto(id: usize, last: Option<usize>) -> bool
    ensures { result ≡ is_upto id last }
{
    match last {
        Some(last) => id <= last,
        None => false,
    }
}

// If `lands`, adds to `run` a landing of the request `id` in the sector. If also `settles`, adds a
// destage of the sector after it.
fn touch(
    run: &mut Vec<Step>,
    lands: bool,
    settles: bool,
    id: usize,
    sector: u64,
) -> Result<(), AllocError>
    ensures { OnOk result (run.new.items ≡ run.old.items ++ touch lands settles id sector) }
{
    if !lands {
        return Ok(());
    }
    run.push(Step::Land(Id::new(id as u64), sector))?;
    if settles {
        run.push(Step::Destage(sector))?;
    }
    Ok(())
}

// Adds a request's steps for one sector at the request's submission. The request lands there if
// `has_to`, unless it is the wanted request.
fn lands_early(
    run: &mut Vec<Step>,
    account: &Account,
    id: usize,
    has_to: bool,
    sector: u64,
) -> Result<(), AllocError>
    ensures { OnOk result (run.new.items ≡ run.old.items
        ++ lands_if has_to (place_at account.now.held.items)
        (sure_by account.now.last.items) id sector) }
{
    let lands = !is_wanted(account.held_from(sector as usize), id) && has_to;
    let settles = is_upto(id, account.last_over(sector as usize));
    touch(run, lands, settles, id, sector)
}

// Adds a request's steps for one sector at the request's end: it lands there if it is the wanted
// request.
fn lands_late(
    run: &mut Vec<Step>,
    account: &Account,
    id: usize,
    sector: u64,
) -> Result<(), AllocError>
    ensures { OnOk result (run.new.items
        ≡ run.old.items ++ lands_late (place_at account.now.held.items) id sector) }
{
    let lands = is_wanted(account.held_from(sector as usize), id);
    touch(run, lands, true, id, sector)
}

/// Adds a request's steps for all its sectors at the request's submission. `has_to` says whether
/// the request ends with success: only then does it land now.
pub fn land_early(
    run: &mut Vec<Step>,
    account: &Account,
    id: usize,
    has_to: bool,
    bio: &Bio,
) -> Result<(), AllocError>
    requires { first_sector bio.now + sector_count bio.now < 2 ^ 64 }
    ensures { OnOk result (run.new.items ≡ run.old.items
        ++ by_sector (lands_if has_to (place_at account.now.held.items)
        (sure_by account.now.last.items) id)
        (Some (core_events.Submit bio.now))) }
{
    let first = bio.first_sector();
    for place in 0..bio.sector_count() {
        lands_early(run, account, id, has_to, first + place)?;
    }
    Ok(())
}

/// Adds a request's steps for all its sectors at the request's end.
pub fn land_late(
    run: &mut Vec<Step>,
    account: &Account,
    id: usize,
    bio: &Bio,
) -> Result<(), AllocError>
    requires { first_sector bio.now + sector_count bio.now < 2 ^ 64 }
    ensures { OnOk result (run.new.items ≡ run.old.items
        ++ by_sector (lands_late (place_at account.now.held.items) id)
        (Some (core_events.Submit bio.now))) }
{
    let first = bio.first_sector();
    for place in 0..bio.sector_count() {
        lands_late(run, account, id, first + place)?;
    }
    Ok(())
}
