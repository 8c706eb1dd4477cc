//! Decides whether a list of events is lawful for a device. `could_hold` requires this.
ghost use Rattle.std.specs.Prelude.{◌≡◌, ◌<◌, Some, is_none, length, slice_get};
ghost use Rattle.bio.specs.Events.{can_follow, end_of, has_no_close, has_no_stop, is_close};
ghost use Rattle.bio.specs.Events.{is_end_of, is_lawful, is_open_at, is_recording, is_request};
ghost use Rattle.bio.specs.Events.{is_stop, is_text, is_well_formed, is_within, none_open};
ghost use Rattle.bio.specs.Places.{all_below};

use bio::{CoreEvent, check};

/// Returns whether each event may follow those before it, and each request is one for a device of
/// `sectors` sectors of 512 bytes. A recorder's events are lawful for a device of 1,048,576 sectors.
/// Takes no memory. Takes time proportional to the square of the list's length.
pub fn is_lawful(events: &[CoreEvent], sectors: u64) -> bool
    ensures { result ≡ is_lawful sectors events.now }
{
    is_well_formed(events) && are_within(events, sectors)
}

// Returns whether each event may come after those before it.
fn is_well_formed(events: &[CoreEvent]) -> bool
    ensures { result ≡ is_well_formed events.now }
{
    for (place, event) in events.iter().enumerate() {
        if !can_follow(&events[..place], event) {
            return false;
        }
    }
    true
}

// Returns whether the event may come after `events`.
fn can_follow(events: &[CoreEvent], event: &CoreEvent) -> bool
    ensures { result ≡ can_follow events.now (Some event.now) }
{
    match event {
        CoreEvent::Submit(bio) => is_recording(events) && bio.is_tracked(),
        CoreEvent::Complete { id, .. } => {
            has_no_close(events) && is_open_at(events, id.place() as usize)
        }
        CoreEvent::Mark(text) => is_recording(events) && is_text(text.as_slice()),
        CoreEvent::Stop(_) => is_recording(events),
        CoreEvent::Close => has_no_close(events) && none_open(events),
    }
}

// Returns whether no Stop and no Close is among the events.
fn is_recording(events: &[CoreEvent]) -> bool
    ensures { result ≡ is_recording events.now }
{
    has_no_stop(events) && has_no_close(events)
}

// Returns whether no Stop is among the events.
fn has_no_stop(events: &[CoreEvent]) -> bool
    ensures { result ≡ has_no_stop events.now }
{
    for event in events {
        if event.is_stop() {
            return false;
        }
    }
    true
}

// Returns whether no Close is among the events.
fn has_no_close(events: &[CoreEvent]) -> bool
    ensures { result ≡ has_no_close events.now }
{
    for event in events {
        if event.is_close() {
            return false;
        }
    }
    true
}

// Returns whether the event ends the request that was submitted at index `id`.
fn is_end_of(event: &CoreEvent, id: usize) -> bool
    ensures { result ≡ is_end_of id (Some event.now) }
{
    match event {
        CoreEvent::Complete { id: ended, .. } => ended.place() == id as u64,
        _ => false,
    }
}

// Returns whether the event submits a write, a discard or a flush.
fn is_request(event: &CoreEvent) -> bool
    ensures { result ≡ is_request (Some event.now) }
{
    match event {
        CoreEvent::Submit(bio) => bio.is_tracked(),
        _ => false,
    }
}

// Returns whether the event at index `id` submits a request that hasn't ended.
fn is_open_at(events: &[CoreEvent], id: usize) -> bool
    ensures { result ≡ is_open_at events.now id }
{
    match events.get(id) {
        Some(event) => is_request(event) && has_no_end(events, id),
        None => false,
    }
}

// Returns whether no event after index `id` ends the request `id`.
fn has_no_end(events: &[CoreEvent], id: usize) -> bool
    requires { id < length events.now }
    ensures { result ≡ is_none (end_of events.now id) }
{
    for place in id + 1..events.len() {
        if is_end_of(&events[place], id) {
            return false;
        }
    }
    true
}

// Returns whether no request is open.
fn none_open(events: &[CoreEvent]) -> bool
    ensures { result ≡ none_open events.now }
{
    for id in 0..events.len() {
        if is_open_at(events, id) {
            return false;
        }
    }
    true
}

// Returns whether the text has no zero byte.
fn is_text(text: &[u8]) -> bool
    ensures { result ≡ is_text text.now }
{
    text.iter().all(|byte| *byte != 0)
}

// Returns whether each submitted request passes `check` for a device of `sectors` sectors.
fn are_within(events: &[CoreEvent], sectors: u64) -> bool
    ensures { result ≡ all_below (λ place. is_within sectors (slice_get events.now place))
        (length events.now) }
{
    for event in events {
        if !is_within(event, sectors) {
            return false;
        }
    }
    true
}

// Returns whether the event's request passes `check`; true if the event submits none.
fn is_within(event: &CoreEvent, sectors: u64) -> bool
    ensures { result ≡ is_within sectors (Some event.now) }
{
    match event {
        CoreEvent::Submit(bio) => check(bio, sectors).is_ok(),
        _ => true,
    }
}
