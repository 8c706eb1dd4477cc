//! Judges an image: could a device have held it, had power failed after some events?
ghost use Rattle.std.specs.Prelude.{◌≡◌, ◌/◌, ◌%◌, IfOk, length, take, true};
ghost use Rattle.bio.specs.Events.{is_lawful};
ghost use Rattle.bio.specs.Content.{sector_of};
ghost use Rattle.judge.specs.Accounts.{IsFirstOf, first_on};
ghost use Rattle.judge.specs.Verdicts.{IsVerdict};

use crate::accounts::{Account, First};
use crate::verdict::Verdict;
use bio::CoreEvent;
use std::alloc::{AllocError, Global};
use std::cmp;

/// Judges whether a device could have held the image, had power failed after the first `moment`
/// events. `first` is the content before the first event. A recorder of the device may have
/// recorded `events` (`is_lawful`). If `moment` is past the last event, it means all events. The
/// image has the device's length in bytes, whole sectors of 512.
///
/// A sector could hold its first value if no durable request covers it. It could hold the value of
/// a submitted request, unless that request ended before a durable request over the sector was
/// submitted. A request is durable if it ended with success, and either has FUA or ended before the
/// submission of a flush that ended with success.
///
/// Takes 32 bytes of memory for each sector and 16 for each event. Takes time proportional to the
/// number of sectors of all requests together. Lack of memory is the only error.
///
/// For example (`an_image_that_nothing_wrote` of `device_tests`):
/// ```
/// let flush = CoreEvent::Submit(Bio::Flush);
/// let end = CoreEvent::Complete {
///     id: Id::new(0),
///     ok: true,
/// };
/// let events = [flush, end];
/// let image = vec![in rt.alloc(); 7; 512].expect(&rt, "memory");
/// assert!(rt; image.len() % 512 == 0 && is_lawful(&events, (image.len() / 512) as u64));
/// let verdict = could_hold(rt.alloc(), &events, 2, First::Zeroes, &image).expect(&rt, "memory");
/// assert!(rt;
///     verdict
///         == Verdict::No {
///             sector: 0,
///             by: None
///         }
/// );
/// ```
pub fn could_hold(
    alloc: Global,
    events: &[CoreEvent],
    moment: u64,
    first: First,
    image: &[u8],
) -> Result<Verdict, AllocError>
    requires whole { length image.now % 512 ≡ 0 }
    requires same { IsFirstOf (length image.now) first }
    requires lawful { is_lawful (length image.now / 512) events.now ≡ true }
    ensures { IfOk result
        (IsVerdict (length image.now / 512) (take moment events.now)
        (first_on first.entry (length image.now)) (sector_of image.now)) }
{
    let events = beginning(events, moment);
    Ok(Account::of(alloc, events, image)?.verdict(first, image))
}

/// Returns the first `moment` events; all of them if there are fewer.
pub fn beginning(events: &[CoreEvent], moment: u64) -> &[CoreEvent]
    ensures { result.now ≡ take moment events.now }
{
    let count = cmp::min(moment, events.len() as u64);
    &events[..count as usize]
}
