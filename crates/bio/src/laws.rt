//! The laws of the definitions in `specs/`: covered sectors, overlaps, order of ends, and lawful
//! event lists.
ghost use Rattle.std.specs.Prelude.{◌≡◌, ◌≢◌, ◌↔◌, ◌+◌, ◌/◌, ◌<◌, ◌≤◌, Bool, EachIndex, IsTrue};
ghost use Rattle.std.specs.Prelude.{List, Ok, Some, false, length, slice_index, ℕ};
ghost use Rattle.bio.specs.declared.event.CoreEvent.{CoreEvent};
ghost use Rattle.bio.specs.declared.request.Bio.{Bio};
ghost use Rattle.bio.specs.declared.request.Bio.TheVariants.{Write, Flush, Discard, Read};
ghost use Rattle.bio.specs.Requests.{check_answer, check_sized_answer, covers, is_aligned};
ghost use Rattle.bio.specs.Requests.{overlaps};
ghost use Rattle.bio.specs.Events.{end_of, is_before, is_lawful, is_lawful_sized, is_text};

use crate::MAX_REQUEST_SECTORS;

/// A request covers at most 2,048 sectors.
pub fn limits()
    ensures { MAX_REQUEST_SECTORS ≡ 2048 }
{}

/// A write covers the sectors from its first on, one for each whole sector of its bytes. A discard
/// covers `count` sectors from its first on. A read and a flush cover none.
pub fn sectors_are_covered()
    ensures write { (first : ℕ) (bytes : List ℕ) (flush fua meta : Bool) (sector : ℕ) →
        IsTrue (covers (Write first bytes flush fua meta) sector)
        ↔ ((first ≤ sector) × (sector < first + length bytes / 512)) }
    ensures discard { (first count sector : ℕ) →
        IsTrue (covers (Discard first count) sector)
        ↔ ((first ≤ sector) × (sector < first + count)) }
    ensures read { (first count sector : ℕ) → covers (Read first count) sector ≡ false }
    ensures flush { (sector : ℕ) → covers Flush sector ≡ false }
{}

/// Two requests overlap exactly if both cover some common sector.
pub fn overlaps_are_common_sectors()
    ensures { (a b : Bio) → IsTrue (overlaps a b)
        ↔ ((sector : ℕ) × IsTrue (covers a sector) × IsTrue (covers b sector)) }
{}

/// One request ended before another was submitted exactly if its end has the lower index.
pub fn ends_come_before()
    ensures { (events : List CoreEvent) (earlier later : ℕ)
        → IsTrue (is_before events earlier later)
        ↔ ((end : ℕ) × (end_of events earlier ≡ Some end) × (end < later)) }
{}

/// A text passes `is_text` exactly if none of its bytes is zero.
pub fn texts_have_no_zero()
    ensures { (text : List ℕ) →
        IsTrue (is_text text) ↔ EachIndex text (λ k. slice_index text k ≢ 0) }
{}

/// If a request may be sent to a device, it may be sent to each larger device.
pub fn larger_devices_take_more()
    ensures { (bio : Bio) (sectors more : ℕ) → check_answer bio sectors ≡ Ok tt → sectors ≤ more →
        check_answer bio more ≡ Ok tt }
{}

/// A request may be recorded in a log with sectors of `size` bytes exactly if it passes two tests.
/// It may be sent to the device, and it is aligned to `size`.
pub fn sized_requests_pass_both()
    ensures { (size : ℕ) (bio : Bio) (sectors : ℕ) → (check_sized_answer size bio sectors ≡ Ok tt)
        ↔ ((check_answer bio sectors ≡ Ok tt) × IsTrue (is_aligned size bio)) }
{}

/// With log sectors of 512 bytes each request is aligned. So `check_sized` returns the result of
/// `check`, and `is_lawful_sized` is `is_lawful`.
pub fn small_sectors_take_each_request()
    ensures answer { (bio : Bio) (sectors : ℕ)
        → check_sized_answer 512 bio sectors ≡ check_answer bio sectors }
    ensures lawful { (sectors : ℕ) (events : List CoreEvent)
        → is_lawful_sized 512 sectors events ≡ is_lawful sectors events }
{}
