//! Puts a request's value for one sector into an image.
ghost use Rattle.std.specs.Prelude.{◌≡◌, ◌/◌, ◌<◌, Some, length, slice_get};
ghost use Rattle.bio.specs.Possible.{values_at, values_of};
ghost use Rattle.bio.specs.Content.{Patch, discards, writes};
ghost use Rattle.world.specs.Cells.{PutsSector};
ghost use Rattle.world.specs.Machine.{values_of_id};

use bio::{Bio, CoreEvent, Id};
use judge::{SECTOR, place_in, sector_bytes};

/// Puts the value that the request `newest` has for the sector into the image, if there is such a
/// request and value.
pub fn put_newest(image: &mut [u8], events: &[CoreEvent], newest: Option<Id>, sector: usize)
    requires { sector < length image.old / 512 }
    ensures { PutsSector (values_of_id events.now newest) sector image.old image.new }
{
    match newest {
        Some(id) => put_id(image, events, id.place(), sector),
        None => {}
    }
}

// Puts the value that the request of the event at index `id` has for the sector, if any.
fn put_id(image: &mut [u8], events: &[CoreEvent], id: u64, sector: usize)
    requires { sector < length image.old / 512 }
    ensures { PutsSector (values_at (slice_get events.now id)) sector image.old image.new }
{
    match events.get(id as usize) {
        Some(event) => put_event(image, event, sector),
        None => {}
    }
}

// Puts the value that the event's request has for the sector, if any.
fn put_event(image: &mut [u8], event: &CoreEvent, sector: usize)
    requires { sector < length image.old / 512 }
    ensures { PutsSector (values_at (Some event.now)) sector image.old image.new }
{
    match event {
        CoreEvent::Submit(bio) => put_bio(image, bio, sector),
        CoreEvent::Complete { .. } | CoreEvent::Mark(_) | CoreEvent::Stop(_) | CoreEvent::Close =>
            {}
    }
}

// Puts the value that the request has for the sector, if any.
fn put_bio(image: &mut [u8], bio: &Bio, sector: usize)
    requires { sector < length image.old / 512 }
    ensures { PutsSector (values_of bio.now) sector image.old image.new }
{
    match bio {
        Bio::Write { first, bytes, .. } => put_written(image, *first, bytes.as_slice(), sector),
        Bio::Discard { first, count } => put_zeroes(image, *first, *count, sector),
        Bio::Flush | Bio::Read { .. } => {}
    }
}

// Puts the bytes that a write has for the sector, if it covers the sector.
fn put_written(image: &mut [u8], first: u64, bytes: &[u8], sector: usize)
    requires { sector < length image.old / 512 }
    ensures { PutsSector (writes first bytes.now) sector image.old image.new }
{
    match place_in(first, (bytes.len() / SECTOR) as u64, sector) {
        Some(place) => put_bytes(image, sector, sector_bytes(bytes, place)),
        None => {}
    }
}

// Puts zeroes in the sector, if a discard of `count` sectors from `first` on covers it.
fn put_zeroes(image: &mut [u8], first: u64, count: u64, sector: usize)
    requires { sector < length image.old / 512 }
    ensures { PutsSector (discards first count) sector image.old image.new }
{
    match place_in(first, count, sector) {
        Some(_) => put_bytes(image, sector, [0; SECTOR].as_slice()),
        None => {}
    }
}

fn put_bytes(image: &mut [u8], sector: usize, part: &[u8])
    requires within { sector < length image.old / 512 }
    requires part { length part.now ≡ 512 }
    ensures { (patch : Patch) → patch sector ≡ Some part.now
        → PutsSector patch sector image.old image.new }
{
    let from = sector * SECTOR;
    image[from..from + SECTOR].copy_from_slice(part);
}
