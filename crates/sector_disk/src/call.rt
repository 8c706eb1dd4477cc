//! The writes and discards that a disk stores as its past, and reads of the values that they put in
//! sectors.
ghost use Rattle.std.specs.Prelude.{ℕ, false, true, ◌∷◌, ◌++◌, ◌≡◌, ◌%◌, ◌*◌, ◌+◌, ◌/◌, ◌<◌, ◌≤◌, IfOk};
ghost use Rattle.std.specs.Prelude.{IfSome, None, OnErr, OnOk, Some, [], drop, length};
ghost use Rattle.std.specs.Prelude.{replicate, slice_get, take, unwrap_or};
ghost use Rattle.sector_disk.specs.inside.Storage.{PlacesAreWithin, IsFilled, before_at, content_at, change_count};
ghost use Rattle.sector_disk.specs.inside.Storage.{is_image_in, is_open, is_write_of, place_of};
ghost use Rattle.sector_disk.specs.inside.Storage.{put_over, value_at, value_in};
ghost use Rattle.bio.specs.Content.{gather, put, writes};

use crate::filled::FilledBytes;
use crate::pieces::Image;
use crate::runs::Runs;
use bio::SECTOR_BYTES;
use std::alloc::{AllocError, Global};
use std::mem;

/// The size of a sector in bytes.
pub const SECTOR: usize = SECTOR_BYTES as usize;

// The number of sectors of a piece of an image.
const PIECE_SECTORS: usize = 128;

/// The values that a call puts in its sectors.
#[derive(Debug, Drop)]
pub enum PastChange {
    /// The bytes of a write: whole sectors.
    Write(FilledBytes),
    /// The bytes of an image, in pieces: whole sectors.
    Image(Image),
    /// Zeroes, in the given number of sectors.
    Discard(u64),
}

impl PastChange {
    /// Returns the number of sectors that the change covers.
    pub fn sectors(&self) -> u64
        ensures { result ≡ change_count self.now }
    {
        match self {
            PastChange::Write(bytes) => (bytes.len() / SECTOR) as u64,
            PastChange::Image(image) => (image.len() / SECTOR) as u64,
            PastChange::Discard(count) => *count,
        }
    }
}

/// A write or a discard in a disk's past. A disk stores all its calls, so a call is small.
#[derive(Debug, Drop)]
pub struct PastCall {
    /// The first sector of the call. A disk has less than 2^32 sectors, so 32 bits suffice.
    pub first: u32,
    pub fua: bool,
    /// Whether a flush came between the previous call and this call.
    pub after_flush: bool,
    pub change: PastChange,
    /// For each of the call's sectors, the index of the call whose value the sector had before.
    pub before: Runs,
}

const _: () = prove!(mem::size_of::<PastCall>() <= 64);

// Reads the value that a write from `first` on put in the sector; zeroes if it put none.
fn read_written(bytes: &FilledBytes, first: u64, sector: u64, buffer: &mut [u8])
    requires { length buffer.old ≡ 512 }
    ensures { buffer.new ≡ unwrap_or (writes first bytes.now sector) (replicate 512 0) }
{
    let count = (bytes.len() / SECTOR) as u64;
    if sector < first || sector - first >= count {
        buffer.fill(0);
        return;
    }
    bytes.read((sector - first) as usize * SECTOR, buffer);
}

// Reads the value that an image from `first` on has for the sector; zeroes if it has none.
fn read_image(image: &Image, first: u64, sector: u64, buffer: &mut [u8])
    requires { length buffer.old ≡ 512 }
    ensures { buffer.new ≡ unwrap_or (writes first image.now sector) (replicate 512 0) }
{
    let count = (image.len() / SECTOR) as u64;
    if sector < first || sector - first >= count {
        buffer.fill(0);
        return;
    }
    image.read_sector((sector - first) as usize * SECTOR, buffer);
}

// Reads the value that the call put in the sector; zeroes if it put none.
#[tactic(auto, using(crate::specs::inside::Storage::change_values, crate::proofs::ImageBack::discarded))]
fn read_call(call: &PastCall, sector: u64, buffer: &mut [u8])
    requires { length buffer.old ≡ 512 }
    ensures { buffer.new ≡ value_in (Some call.now) sector }
{
    match &call.change {
        PastChange::Write(bytes) => read_written(bytes, u64::from(call.first), sector, buffer),
        PastChange::Image(image) => read_image(image, u64::from(call.first), sector, buffer),
        PastChange::Discard(_) => buffer.fill(0),
    }
}

// Reads the value that the call at index `place` put in the sector; zeroes if there is no such
// value.
fn read_place(calls: &[PastCall], place: usize, sector: u64, buffer: &mut [u8])
    requires { length buffer.old ≡ 512 }
    ensures { buffer.new ≡ value_at calls.now place sector }
{
    match calls.get(place) {
        Some(call) => read_call(call, sector, buffer),
        None => buffer.fill(0),
    }
}

// Returns the index that `places` has for the sector, or 0 if the table is too short.
fn place_of(places: &[usize], sector: usize) -> usize
    ensures { result ≡ place_of places.now sector }
{
    places.get(sector).copied().unwrap_or(0)
}

// Returns whether the table's entries of `count` sectors from `first` on are all 0.
fn are_first(places: &[usize], first: usize, count: usize) -> bool
    requires { first + count ≤ 1048576 }
    ensures { result ≡ true → (index : ℕ) → index < count → place_of places.now (first + index) ≡ 0 }
{
    if places.is_empty() {
        return true;
    }
    for index in 0..count {
        if place_of(places, first + index) != 0 {
            return false;
        }
    }
    true
}

// Returns the image that the first call is, if it begins at sector 0 and no later call put a value
// in the `count` sectors from `first` on.
fn image_below<'a>(
    calls: &'a [PastCall],
    places: &[usize],
    first: usize,
    count: usize,
) -> Option<&'a Image>
    requires { first + count ≤ 1048576 }
    ensures { IfSome result (λ image. 512 * (first + count) ≤ length image.now →
        take (512 * count) (drop (512 * first) image.now)
        ≡ gather (content_at calls.now places.now) first count) }
{
    let call = calls.first()?;
    if call.first != 0 || !are_first(places, first, count) {
        return None;
    }
    match &call.change {
        PastChange::Image(image) => Some(image),
        PastChange::Write(_) | PastChange::Discard(_) => None,
    }
}

// Reads whole sectors from `first` on, if `image_below` has them in one piece that stores its bytes
// as they are. Returns whether this is so.
fn read_run(calls: &[PastCall], places: &[usize], first: usize, buffer: &mut [u8]) -> bool
    requires whole { length buffer.old % 512 ≡ 0 }
    requires within { first + length buffer.old / 512 ≤ 1048576 }
    ensures { result ≡ true → buffer.new ≡ gather (content_at calls.now places.now) first
        (length buffer.old / 512) }
{
    match image_below(calls, places, first, buffer.len() / SECTOR) {
        Some(image) => image.read_run(first * SECTOR, buffer),
        None => false,
    }
}

/// Returns the bytes of `count` sectors from `first` on, if memory has them one after another. Each
/// sector has the value of the call whose index `places` has for it.
pub fn stored<'a>(
    calls: &'a [PastCall],
    places: &[usize],
    first: usize,
    count: usize,
) -> Option<&'a [u8]>
    requires { first + count ≤ 1048576 }
    ensures { IfSome result
        (λ bytes. bytes.now ≡ gather (content_at calls.now places.now) first count) }
{
    image_below(calls, places, first, count)?.stored(first * SECTOR, count * SECTOR)
}

// Does what `read_places` does. It is quick if the sectors are in one piece of an image.
fn read_part(calls: &[PastCall], places: &[usize], first: usize, buffer: &mut [u8])
    requires whole { length buffer.old % 512 ≡ 0 }
    requires within { first + length buffer.old / 512 ≤ 1048576 }
    ensures { buffer.new ≡ gather (content_at calls.now places.now) first
        (length buffer.old / 512) }
{
    if read_run(calls, places, first, buffer) {
        return;
    }
    for index in 0..buffer.len() / SECTOR {
        let sector = first + index;
        let from = index * SECTOR;
        read_place(
            calls,
            place_of(places, sector),
            sector as u64,
            &mut buffer[from..from + SECTOR],
        );
    }
}

/// Reads whole sectors from `first` on. Each sector gets the value of the call whose index `places`
/// has for it.
pub fn read_places(calls: &[PastCall], places: &[usize], first: usize, buffer: &mut [u8])
    requires whole { length buffer.old % 512 ≡ 0 }
    requires within { first + length buffer.old / 512 ≤ 1048576 }
    ensures { buffer.new ≡ gather (content_at calls.now places.now) first
        (length buffer.old / 512) }
{
    let sectors = buffer.len() / SECTOR;
    let mut index = 0;
    while index < sectors {
        let sector = first + index;
        let count = (sectors - index).min(PIECE_SECTORS - sector % PIECE_SECTORS);
        let from = index * SECTOR;
        read_part(
            calls,
            places,
            sector,
            &mut buffer[from..from + count * SECTOR],
        );
        index += count;
    }
}

// Puts a part of 65,536 bytes from sector `first` on into the call's image. Returns whether the call
// is an image from sector 0 on that has a piece there. If not, nothing is changed.
fn replace_in(
    alloc: Global,
    call: &mut PastCall,
    first: usize,
    part: &[u8],
) -> Result<bool, AllocError>
    requires part { length part.now ≡ 65536 }
    requires place { first % 128 ≡ 0 }
    ensures done { IfOk result (λ done. done ≡ true → (sector : ℕ) →
        value_in (Some call.new) sector ≡ put (writes first part.now) (value_in (Some call.old)) sector) }
    ensures other { IfOk result (λ done. done ≡ false → call.new ≡ call.old) }
    ensures err { OnErr result (call.new ≡ call.old) }
{
    if call.first != 0 {
        return Ok(false);
    }
    let PastChange::Image(image) = &mut call.change else {
        return Ok(false);
    };
    if (image.len() / SECTOR).saturating_sub(first) < PIECE_SECTORS {
        return Ok(false);
    }
    image.replace(alloc, first * SECTOR, part)?;
    Ok(true)
}

// Does what `put_piece` does to the calls in a slice.
fn put_piece_in(
    alloc: Global,
    calls: &mut [PastCall],
    newest: &mut Vec<usize>,
    first: usize,
    part: &[u8],
) -> Result<bool, AllocError>
    requires { first + length part.now / 512 ≤ length newest.old.items }
    ensures done { IfOk result (λ done. done ≡ true → (sector : ℕ) →
        content_at calls.new newest.new.items sector
        ≡ put (writes first part.now) (content_at calls.old newest.old.items) sector) }
    ensures other { IfOk result (λ done. done ≡ false →
        (calls.new ≡ calls.old) × (newest.new.items ≡ newest.old.items)) }
    ensures err { OnErr result
        ((calls.new ≡ calls.old) × (newest.new.items ≡ newest.old.items)) }
    ensures table { length newest.new.items ≡ length newest.old.items }
    ensures within { PlacesAreWithin calls.old newest.old.items → PlacesAreWithin calls.new newest.new.items }
{
    if part.len() != PIECE_SECTORS * SECTOR || first % PIECE_SECTORS != 0 {
        return Ok(false);
    }
    let Some(call) = calls.first_mut() else {
        return Ok(false);
    };
    let done = replace_in(alloc, call, first, part)?;
    if done {
        fill_places(newest, first, PIECE_SECTORS, 0);
    }
    Ok(done)
}

/// Puts a part from sector `first` on into the image that the first call is, if the part is one of
/// its pieces. Returns whether it is. If not, or if an allocation fails, nothing is changed.
pub fn put_piece(
    alloc: Global,
    calls: &mut Vec<PastCall>,
    newest: &mut Vec<usize>,
    first: usize,
    part: &[u8],
) -> Result<bool, AllocError>
    requires { first + length part.now / 512 ≤ length newest.old.items }
    ensures done { IfOk result (λ done. done ≡ true → (sector : ℕ) →
        content_at calls.new.items newest.new.items sector
        ≡ put (writes first part.now) (content_at calls.old.items newest.old.items) sector) }
    ensures other { IfOk result (λ done. done ≡ false →
        (calls.new.items ≡ calls.old.items) × (newest.new.items ≡ newest.old.items)) }
    ensures err { OnErr result
        ((calls.new.items ≡ calls.old.items) × (newest.new.items ≡ newest.old.items)) }
    ensures table { length newest.new.items ≡ length newest.old.items }
    ensures within { PlacesAreWithin calls.old.items newest.old.items → PlacesAreWithin calls.new.items newest.new.items }
{
    put_piece_in(alloc, calls, newest, first, part)
}

/// Returns whether the first call is a write of `sectors` sectors from sector 0 on.
pub fn begins_with_image(calls: &[PastCall], sectors: usize) -> bool
    requires { sectors ≤ 1048576 }
    ensures { result ≡ is_image_in (slice_get calls.now 0) sectors }
{
    match calls.first() {
        Some(call) => call.first == 0 && is_write_of(&call.change, sectors),
        None => false,
    }
}

fn is_write_of(change: &PastChange, sectors: usize) -> bool
    requires { sectors ≤ 1048576 }
    ensures { result ≡ is_write_of change.now sectors }
{
    match change {
        PastChange::Write(bytes) => bytes.len() == sectors * SECTOR,
        PastChange::Image(_) | PastChange::Discard(_) => false,
    }
}

// Puts the values of later calls into an image: for each sector whose index in `places` isn't 0.
// `later` are the calls after the first.
fn put_later(later: &[PastCall], places: &[usize], sectors: usize, image: &mut [u8])
    requires whole { length image.old ≡ 512 * sectors }
    requires few { sectors ≤ 1048576 }
    ensures { image.new ≡ gather (put_over later.now places.now image.old) 0 sectors }
{
    for sector in 0..sectors {
        let place = place_of(places, sector);
        if place > 0 {
            let from = sector * SECTOR;
            read_place(
                later,
                place - 1,
                sector as u64,
                &mut image[from..from + SECTOR],
            );
        }
    }
}

// Does what `put_later` does to an image in a vector.
fn put_in(later: &[PastCall], places: &[usize], sectors: usize, image: &mut Vec<u8>)
    requires whole { length image.old.items ≡ 512 * sectors }
    requires few { sectors ≤ 1048576 }
    ensures { image.new.items ≡ gather (put_over later.now places.now image.old.items) 0 sectors }
{
    put_later(later, places, sectors, image);
}

/// Returns the bytes of all sectors, each with the value of the call whose index `places` has for
/// it. The first call is a write of all sectors, and its bytes are reused for the result. Lack of
/// memory is an error.
pub fn take_image(
    alloc: Global,
    calls: &mut [PastCall],
    places: &[usize],
    sectors: usize,
) -> Result<Vec<u8>, AllocError>
    requires image { is_image_in (slice_get calls.old 0) sectors ≡ true }
    requires few { sectors ≤ 1048576 }
    ensures { IfOk result (λ image. image.items
        ≡ gather (content_at calls.old places.now) 0 sectors) }
{
    if let [first, later @ ..] = calls {
        if let PastChange::Write(bytes) = &mut first.change {
            let mut image = mem::replace(bytes, FilledBytes::empty(alloc)).into_vec()?;
            put_in(later, places, sectors, &mut image);
            return Ok(image);
        }
    }
    Ok(Vec::new(alloc))
}

/// Copies the table's entries of `count` sectors from `first` on. Lack of memory is an error.
pub fn copy_places(
    alloc: Global,
    places: &[usize],
    first: usize,
    count: usize,
) -> Result<Runs, AllocError>
    requires { first + count ≤ length places.now }
    ensures { IfOk result (λ copy. copy ≡ take count (drop first places.now)) }
{
    Runs::from_slice(alloc, &places[first..first + count])
}

// Sets the table's entries of `count` sectors from `first` on to `place`.
fn fill_places(places: &mut Vec<usize>, first: usize, count: usize, place: usize)
    requires { first + count ≤ length places.old.items }
    ensures { IsFilled first count place places.old.items places.new.items }
{
    places[first..first + count].fill(place);
}

/// Appends a call, and makes it the newest call of its sectors. If an allocation fails, nothing is
/// changed.
pub fn add_call(
    calls: &mut Vec<PastCall>,
    newest: &mut Vec<usize>,
    call: PastCall,
    count: usize,
) -> Result<(), AllocError>
    requires { call.first + count ≤ length newest.old.items }
    ensures calls { OnOk result (calls.new.items ≡ calls.old.items ++ call ∷ []) }
    ensures newest { OnOk result
        (IsFilled call.first count (length calls.old.items) newest.old.items newest.new.items) }
    ensures err { OnErr result
        ((calls.new.items ≡ calls.old.items) × (newest.new.items ≡ newest.old.items)) }
{
    let place = calls.len();
    let first = call.first as usize;
    calls.push(call)?;
    fill_places(newest, first, count, place);
    Ok(())
}

/// Returns whether the call at index `place` isn't durable: it has no FUA, and came after the last
/// flush or crash.
pub fn is_open(calls: &[PastCall], synced: usize, place: usize) -> bool
    ensures { result ≡ is_open calls.now synced place }
{
    synced <= place && calls.get(place).is_some_and(|call| !call.fua)
}

/// Returns the index of the call whose value the sector had before the call at `place`.
pub fn before(calls: &[PastCall], place: usize, sector: usize) -> usize
    ensures { result ≡ before_at calls.now place sector }
{
    let Some(call) = calls.get(place) else {
        return 0;
    };
    let index = (sector as u64).saturating_sub(u64::from(call.first));
    call.before.get(index as usize).unwrap_or(0)
}
