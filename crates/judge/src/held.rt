//! Finds, for each sector of an image, the last submitted request whose value the sector has, and
//! which no durable request replaced there. `Account::of` ends with this pass.
ghost use Rattle.std.specs.Prelude.{◌≡◌, ◌&&◌, ◌<◌, ◌≤◌, ◌⊎◌, ◌+◌, ◌*◌, ◌/◌, IfOk};
ghost use Rattle.std.specs.Prelude.{MatchOption, Option, Some, if◌then◌else◌, length};
ghost use Rattle.std.specs.Prelude.{ℕ};
ghost use Rattle.bio.specs.declared.event.CoreEvent.TheVariants.{Submit};
ghost use Rattle.bio.specs.Possible.{values_at, values_of};
ghost use Rattle.bio.specs.Content.{discards, sector_of, writes};
ghost use Rattle.judge.specs.inside.{AreEnds, AreFit, AreHeld, AreLastKept, has_value_of};
ghost use Rattle.judge.specs.Accounts.{is_value, place_at};

use crate::ends::{end_at, is_before};
use crate::kept::covered;
use bio::{Bio, CoreEvent, SECTOR_BYTES};
use std::alloc::{AllocError, Global};

/// The size of a sector in bytes.
pub const SECTOR: usize = SECTOR_BYTES as usize;

#[tactic(auto, using(crate::proofs::HeldValues::part_is_sector))]
pub fn sector_bytes(image: &[u8], sector: usize) -> &[u8]
    requires { sector < length image.now / 512 }
    ensures { result.now ≡ sector_of image.now sector }
{
    let from = sector * SECTOR;
    &image[from..from + SECTOR]
}

/// Returns the index of a sector among the `count` sectors from `first` on; none if it isn't one of
/// them.
pub fn place_in(first: u64, count: u64, sector: usize) -> Option<usize>
    ensures { MatchOption result ((sector < first) ⊎ (first + count ≤ sector))
        (λ place. (sector ≡ first + place) × (place < count)) }
{
    let sector = sector as u64;
    if sector < first || sector - first >= count {
        return None;
    }
    Some((sector - first) as usize)
}

// Returns whether a write puts exactly the bytes `value` in the sector.
#[tactic(auto, using(crate::proofs::HeldValues::no_value, crate::proofs::HeldValues::some_value))]
fn writes_value(first: u64, bytes: &[u8], sector: usize, value: &[u8]) -> bool
    ensures { result ≡ is_value (writes first bytes.now sector) value.now }
{
    match place_in(first, (bytes.len() / SECTOR) as u64, sector) {
        Some(place) => sector_bytes(bytes, place) == value,
        None => false,
    }
}

// Returns whether a discard covers the sector, and `value` is zeroes.
#[tactic(auto, using(crate::proofs::HeldValues::no_value, crate::proofs::HeldValues::some_value))]
fn discards_value(first: u64, count: u64, sector: usize, value: &[u8]) -> bool
    ensures { result ≡ is_value (discards first count sector) value.now }
{
    match place_in(first, count, sector) {
        Some(_) => [0; SECTOR].as_slice() == value,
        None => false,
    }
}

// Returns whether the request puts exactly the bytes `value` in the sector.
fn bio_value(bio: &Bio, sector: usize, value: &[u8]) -> bool
    ensures { result ≡ is_value (values_of bio.now sector) value.now }
{
    match bio {
        Bio::Write { first, bytes, .. } => { writes_value(*first, bytes.as_slice(), sector, value) }
        Bio::Discard { first, count } => discards_value(*first, *count, sector, value),
        Bio::Flush | Bio::Read { .. } => false,
    }
}

// Returns whether the event submits a request that puts exactly the bytes `value` in the sector.
fn has_value(event: &CoreEvent, sector: usize, value: &[u8]) -> bool
    ensures { result ≡ is_value (values_at (Some event.now) sector) value.now }
{
    match event {
        CoreEvent::Submit(bio) => bio_value(bio, sector, value),
        _ => false,
    }
}

// Returns whether the sector has the value of the event's request, and that request didn't end
// before the sector's entry in `last`. `end` is the index of the end. `last` has the last durable
// request over each sector.
fn fits(
    event: &CoreEvent,
    end: Option<usize>,
    last: &[Option<usize>],
    image: &[u8],
    sector: usize,
) -> bool
    requires { sector < length image.now / 512 }
    ensures { result ≡ has_value_of (Some event.now) end last.now (sector_of image.now) sector }
{
    !is_before(end, end_at(last, sector)) && has_value(event, sector, sector_bytes(image, sector))
}

// Sets the entries of `held` to `place`, for the sectors of the range that pass `fits`.
#[tactic(auto, using(crate::proofs::HeldValues::fit_here, crate::proofs::HeldValues::fit_not))]
fn hold_range(
    held: &mut Vec<Option<usize>>,
    place: usize,
    event: &CoreEvent,
    end: Option<usize>,
    last: &[Option<usize>],
    image: &[u8],
    range: (usize, usize),
)
    requires order { range.0 ≤ range.1 }
    requires within { range.1 ≤ length held.old.items }
    requires image { length held.old.items ≤ length image.now / 512 }
    ensures { AreFit (Some event.now) end last.now
        (sector_of image.now) place range.0 range.1 held.old.items held.new.items }
{
    let (from, to) = range;
    for sector in from..to {
        if fits(event, end, last, image, sector) {
            held[sector] = Some(place);
        }
    }
}

// Sets the entries of `held` to `place`, for the sectors that pass `fits`.
fn hold_values(
    held: &mut Vec<Option<usize>>,
    place: usize,
    event: &CoreEvent,
    end: Option<usize>,
    last: &[Option<usize>],
    image: &[u8],
)
    requires image { length held.old.items ≤ length image.now / 512 }
    ensures size { length held.new.items ≡ length held.old.items }
    ensures held { (sector : ℕ) → sector < length held.old.items → place_at held.new.items sector
        ≡ (if has_value_of (Some event.now) end last.now
        (sector_of image.now) sector then Some place else place_at held.old.items sector) }
{
    let range = covered(event, held.len());
    hold_range(held, place, event, end, last, image, range);
}

/// Returns, for each sector of the image, the last submitted request whose value the sector has,
/// and which isn't replaced there.
pub fn held_values(
    alloc: Global,
    events: &[CoreEvent],
    ends: &[Option<usize>],
    last: &[Option<usize>],
    image: &[u8],
) -> Result<Vec<Option<usize>>, AllocError>
    requires ends { AreEnds events.now (length events.now) ends.now }
    requires last { AreLastKept events.now (length image.now / 512) (length events.now) last.now }
    ensures { IfOk result (λ held.
        AreHeld events.now (sector_of image.now) (length image.now / 512)
        (length events.now) held.items) }
{
    let mut held = vec![in alloc; None; last.len()]?;
    for (place, event) in events.iter().enumerate() {
        hold_values(&mut held, place, event, end_at(ends, place), last, image);
    }
    Ok(held)
}
