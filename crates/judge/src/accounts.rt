//! The account of a list of events and an image, and the verdict that follows from it. `could_hold`
//! makes an account, then asks for the verdict.
ghost use Rattle.std.specs.Prelude.{◌≡◌, ◌/◌, ◌%◌, ◌<◌, IfOk, List, length, true};
ghost use Rattle.bio.specs.declared.event.CoreEvent.{CoreEvent};
ghost use Rattle.bio.specs.Events.{is_lawful};
ghost use Rattle.bio.specs.Content.{sector_of};
ghost use Rattle.std.specs.Str.{bytes_eq};
ghost use Rattle.judge.specs.Accounts.{IsAccount, IsFirstOf, first_on, place_at};
ghost use Rattle.judge.specs.Verdicts.{IsVerdict};
ghost use Rattle.judge.specs.inside.{IsVerdictOf, is_at_first, could_hold_value};

use crate::ends::{end_at, ends_of};
use crate::held::{SECTOR, held_values, sector_bytes};
use crate::kept::last_kept;
use crate::verdict::Verdict;
use bio::{CoreEvent, Id};
use std::alloc::{AllocError, Global};

/// The content of a device before the first event.
#[derive(Clone, Copy, Debug)]
pub enum First<'a> {
    /// Zeroes in each sector.
    Zeroes,
    /// The content of this image: whole sectors of 512 bytes, as many as the device has.
    Image(&'a [u8]),
}

/// The account of a list of events and an image. An event is named by its index, from 0.
#[derive(Debug, Drop)]
pub struct Account {
    /// For each request, at the index of the request's submission: the index of the request's end.
    pub ends: Vec<Option<usize>>,
    /// For each sector: the durable request over it that was submitted last.
    pub last: Vec<Option<usize>>,
    /// For each sector: the last submitted request whose value the image has there, and which isn't
    /// replaced there (`is_held_from`).
    pub held: Vec<Option<usize>>,
}

impl Account {
    /// Makes the account of these events and an image, as if power failed after the last event.
    /// Takes 32 bytes of memory for each sector of the image and 16 for each event. Takes time
    /// proportional to the number of sectors of all requests together. Lack of memory is the only
    /// error.
    pub fn of(alloc: Global, events: &[CoreEvent], image: &[u8]) -> Result<Account, AllocError>
        ensures { IfOk result (IsAccount events.now (sector_of image.now)
            (length image.now / 512)) }
    {
        let ends = ends_of(alloc, events)?;
        let last = last_kept(alloc, events, &ends, image.len() / SECTOR)?;
        let held = held_values(alloc, events, &ends, &last, image)?;
        Ok(Account { ends, last, held })
    }

    /// Returns the verdict on the image of this account, if `first` was on the device before the
    /// first event. The image is whole sectors of 512 bytes, and `first` has as many bytes.
    pub fn verdict(&self, first: First, image: &[u8]) -> Verdict
        requires whole { length image.now % 512 ≡ 0 }
        requires same { IsFirstOf (length image.now) first }
        ensures { (events : List CoreEvent) → is_lawful (length image.now / 512) events ≡ true →
            IsAccount events (sector_of image.now) (length image.now / 512) self.now →
            IsVerdict (length image.now / 512) events (first_on first.entry (length image.now))
            (sector_of image.now) result }
    {
        lowest_failing(&self.held, &self.last, first, image)
    }

    /// Returns the index at which the request `id` ended, if it ended.
    pub fn end(&self, id: usize) -> Option<usize>
        ensures { result ≡ place_at self.now.ends.items id }
    {
        end_at(&self.ends, id)
    }

    /// Returns the durable request over the sector that was submitted last, if any.
    pub fn last_over(&self, sector: usize) -> Option<usize>
        ensures { result ≡ place_at self.now.last.items sector }
    {
        end_at(&self.last, sector)
    }

    /// Returns the last submitted request whose value the sector has, and which isn't replaced
    /// there, if any.
    pub fn held_from(&self, sector: usize) -> Option<usize>
        ensures { result ≡ place_at self.now.held.items sector }
    {
        end_at(&self.held, sector)
    }
}

// Returns whether the image has the value of `first` in the sector.
#[tactic(auto, using(crate::proofs::HeldValues::zero_sector))]
fn has_first(first: First, image: &[u8], sector: usize) -> bool
    requires within { sector < length image.now / 512 }
    requires same { IsFirstOf (length image.now) first }
    ensures { result ≡ bytes_eq (sector_of image.now sector)
        (first_on first.entry (length image.now) sector) }
{
    let bytes = sector_bytes(image, sector);
    match first {
        First::Zeroes => bytes == [0; SECTOR].as_slice(),
        First::Image(first) => bytes == sector_bytes(first, sector),
    }
}

// Returns whether the image has the value of `first` in the sector, and no durable request covers
// the sector.
fn is_at_first(last: &[Option<usize>], first: First, image: &[u8], sector: usize) -> bool
    requires within { sector < length image.now / 512 }
    requires same { IsFirstOf (length image.now) first }
    ensures { result ≡ is_at_first last.now (first_on first.entry (length image.now))
        (sector_of image.now) sector }
{
    end_at(last, sector).is_none() && has_first(first, image, sector)
}

// Returns whether `held` has a request for the sector, or the sector passes `is_at_first`.
fn could_hold_value(
    held: &[Option<usize>],
    last: &[Option<usize>],
    first: First,
    image: &[u8],
    sector: usize,
) -> bool
    requires within { sector < length image.now / 512 }
    requires same { IsFirstOf (length image.now) first }
    ensures { result ≡ could_hold_value held.now last.now (first_on first.entry (length image.now))
        (sector_of image.now) sector }
{
    end_at(held, sector).is_some() || is_at_first(last, first, image, sector)
}

// Returns the durable request over the sector that was submitted last, if any.
fn last_over(last: &[Option<usize>], sector: usize) -> Option<Id>
    ensures { result ≡ place_at last.now sector }
{
    match end_at(last, sector) {
        Some(place) => Some(Id::new(place as u64)),
        None => None,
    }
}

// Returns `Yes` if all sectors pass `could_hold_value`, or else `No` with the lowest sector that doesn't.
fn lowest_failing(
    held: &[Option<usize>],
    last: &[Option<usize>],
    first: First,
    image: &[u8],
) -> Verdict
    requires same { IsFirstOf (length image.now) first }
    ensures { IsVerdictOf held.now last.now (first_on first.entry (length image.now))
        (sector_of image.now) (length image.now / 512) result }
{
    for sector in 0..image.len() / SECTOR {
        if !could_hold_value(held, last, first, image, sector) {
            return Verdict::No {
                sector: sector as u64,
                by: last_over(last, sector),
            };
        }
    }
    Verdict::Yes
}
