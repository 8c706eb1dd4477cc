//! Makes a run that leaves an image, from the judge's account of the image. `dmlw_commands` prints
//! the answer (`Finding`).
//!
//! The plan has steps for each event, then for each request that hasn't ended. Its last step is
//! that power fails.
ghost use Rattle.std.specs.Prelude.{◌≡◌, ℕ, ◌/◌, ◌%◌, ◌++◌, IfOk, MatchOption, OnOk, Some, length};
ghost use Rattle.std.specs.Prelude.{slice_get, take, true};
ghost use Rattle.bio.specs.Events.{end_of, is_lawful, is_open_at};
ghost use Rattle.bio.specs.Possible.{ended_ok, is_success};
ghost use Rattle.judge.specs.Accounts.{IsFirstOf, first_on, place_at};
ghost use Rattle.bio.specs.Content.{sector_of};
ghost use Rattle.bio.specs.Places.{collect};
ghost use Rattle.world.specs.Machine.{IsFinding, IsReachable, Leaves};
ghost use Rattle.world.specs.inside.{EndsFit, by_sector, lands_late, plan, steps_left, steps_of};
ghost use Rattle.world.specs.inside.{sure_by};

use crate::allowed::is_request;
use crate::plan::{land_early, land_late};
use crate::step::Step;
use bio::{CoreEvent, Id};
use judge::{Account, First, Verdict, beginning};
use std::alloc::{AllocError, Global};

/// The answer about an image.
#[derive(Debug, Drop)]
pub enum Finding {
    /// The steps of a run of the cache machine that fits the events and leaves the image, in order.
    Run(Vec<Step>),
    /// No run leaves the image. `sector` is the lowest sector whose value the device could not
    /// hold. `by` is the durable request over this sector that was submitted last; none if no
    /// durable request covers it.
    RuledOut { sector: u64, by: Option<Id> },
}

/// Makes a machine run that fits the first `moment` events and leaves the image, if `first` was on
/// the device before the first event. Returns none if there is no such run. A recorder of the
/// device may have recorded `events` (`is_lawful`). If `moment` is past the last event, it means
/// all events. The image has the device's length in bytes, whole sectors of 512.
///
/// Takes 32 bytes of memory for each sector, 16 for each event, and memory for the run's steps. A
/// run has at most two steps for each sector of each request, one for each submission and end, and
/// one for the power failure. Takes time proportional to all these numbers together. Lack of memory
/// is the only error.
pub fn reach(
    alloc: Global,
    events: &[CoreEvent],
    moment: u64,
    first: First,
    image: &[u8],
) -> Result<Option<Vec<Step>>, AllocError>
    requires whole { length image.now % 512 ≡ 0 }
    requires same { IsFirstOf (length image.now) first }
    requires lawful { is_lawful (length image.now / 512) events.now ≡ true }
    ensures { IfOk result (λ found. MatchOption found
        (IsReachable (take moment events.now) (first_on first.entry (length image.now))
        (sector_of image.now) → ⊥)
        (λ run. Leaves (take moment events.now) (first_on first.entry (length image.now)) run.items
        (sector_of image.now))) }
{
    match find(alloc, events, moment, first, image)? {
        Finding::Run(run) => Ok(Some(run)),
        Finding::RuledOut { .. } => Ok(None),
    }
}

/// Makes a run as `reach` does. If there is no such run, returns the sector and the request that
/// `could_hold` returns for the image. One account of the image serves both.
pub fn find(
    alloc: Global,
    events: &[CoreEvent],
    moment: u64,
    first: First,
    image: &[u8],
) -> Result<Finding, AllocError>
    requires whole { length image.now % 512 ≡ 0 }
    requires same { IsFirstOf (length image.now) first }
    requires lawful { is_lawful (length image.now / 512) events.now ≡ true }
    ensures { IfOk result (IsFinding (length image.now / 512) (take moment events.now)
        (first_on first.entry (length image.now)) (sector_of image.now)) }
{
    let events = beginning(events, moment);
    let account = Account::of(alloc, events, image)?;
    match account.verdict(first, image) {
        Verdict::Yes => Ok(Finding::Run(run_of(alloc, events, &account)?)),
        Verdict::No { sector, by } => Ok(Finding::RuledOut { sector, by }),
    }
}

// Returns the run of the plan that the account gives.
fn run_of(alloc: Global, events: &[CoreEvent], account: &Account) -> Result<Vec<Step>, AllocError>
    requires ends { (id : ℕ) → place_at account.now.ends.items id ≡ end_of events.now id }
    requires within { EndsFit events.now }
    ensures { IfOk result (λ run.
        run.items ≡ plan events.now (place_at account.now.held.items)
        (sure_by account.now.last.items)) }
{
    let mut run = Vec::new(alloc);
    follow(&mut run, events, account)?;
    finish(&mut run, events, account)?;
    run.push(Step::Power)?;
    Ok(run)
}

// Adds the plan's steps for all events.
fn follow(run: &mut Vec<Step>, events: &[CoreEvent], account: &Account) -> Result<(), AllocError>
    requires ends { (id : ℕ) → place_at account.now.ends.items id ≡ end_of events.now id }
    requires within { EndsFit events.now }
    ensures { OnOk result (run.new.items ≡ run.old.items ++ collect (λ place. steps_of events.now
        (place_at account.now.held.items) (sure_by account.now.last.items) place
        (slice_get events.now place)) (length events.now)) }
{
    for (place, event) in events.iter().enumerate() {
        take_event(run, events, account, place, event)?;
    }
    Ok(())
}

// Adds the plan's steps for the event at index `place`.
fn take_event(
    run: &mut Vec<Step>,
    events: &[CoreEvent],
    account: &Account,
    place: usize,
    event: &CoreEvent,
) -> Result<(), AllocError>
    requires ends { (id : ℕ) → place_at account.now.ends.items id ≡ end_of events.now id }
    requires within { EndsFit events.now }
    requires there { slice_get events.now place ≡ Some event.now }
    ensures { OnOk result (run.new.items ≡ run.old.items ++ steps_of events.now
        (place_at account.now.held.items) (sure_by account.now.last.items) place (Some event.now)) }
{
    match event {
        CoreEvent::Submit(bio) => {
            run.push(Step::Submit(Id::new(place as u64)))?;
            let has_to = ended_ok(events, account, place);
            land_early(run, account, place, has_to, bio)
        }
        CoreEvent::Complete { id, ok } => {
            land_at(run, events, account, id.place() as usize)?;
            run.push(Step::End(*id, *ok))?;
            Ok(())
        }
        CoreEvent::Mark(_) | CoreEvent::Stop(_) | CoreEvent::Close => Ok(()),
    }
}

// Returns whether the request `id` ended with success.
fn ended_ok(events: &[CoreEvent], account: &Account, id: usize) -> bool
    requires { (id : ℕ) → place_at account.now.ends.items id ≡ end_of events.now id }
    ensures { result ≡ ended_ok events.now id }
{
    match account.end(id) {
        Some(end) => is_success_at(events, end),
        None => false,
    }
}

// Returns whether the event at index `place` is an end with success.
fn is_success_at(events: &[CoreEvent], place: usize) -> bool
    ensures { result ≡ is_success (slice_get events.now place) }
{
    match events.get(place) {
        Some(event) => matches!(event, CoreEvent::Complete { ok: true, .. }),
        None => false,
    }
}

// Adds the plan's steps for the end of the request `id`.
fn land_at(
    run: &mut Vec<Step>,
    events: &[CoreEvent],
    account: &Account,
    id: usize,
) -> Result<(), AllocError>
    requires { EndsFit events.now }
    ensures { OnOk result (run.new.items ≡ run.old.items
        ++ by_sector (lands_late (place_at account.now.held.items) id) (slice_get events.now id)) }
{
    match events.get(id) {
        Some(event) => land_event(run, events, account, id, event),
        None => Ok(()),
    }
}

// Adds the plan's steps for the request `id`, which `event` submits, at its end.
fn land_event(
    run: &mut Vec<Step>,
    events: &[CoreEvent],
    account: &Account,
    id: usize,
    event: &CoreEvent,
) -> Result<(), AllocError>
    requires within { EndsFit events.now }
    requires there { slice_get events.now id ≡ Some event.now }
    ensures { OnOk result (run.new.items ≡ run.old.items
        ++ by_sector (lands_late (place_at account.now.held.items) id) (Some event.now)) }
{
    match event {
        CoreEvent::Submit(bio) => land_late(run, account, id, bio),
        CoreEvent::Complete { .. } | CoreEvent::Mark(_) | CoreEvent::Stop(_) | CoreEvent::Close =>
            Ok(()),
    }
}

// Adds the plan's steps for all requests that haven't ended.
fn finish(run: &mut Vec<Step>, events: &[CoreEvent], account: &Account) -> Result<(), AllocError>
    requires ends { (id : ℕ) → place_at account.now.ends.items id ≡ end_of events.now id }
    requires within { EndsFit events.now }
    ensures { OnOk result (run.new.items ≡ run.old.items
        ++ collect (steps_left events.now (place_at account.now.held.items)) (length events.now)) }
{
    for id in 0..events.len() {
        land_left(run, events, account, id)?;
    }
    Ok(())
}

// Adds the plan's steps for the request `id`, if it hasn't ended.
fn land_left(
    run: &mut Vec<Step>,
    events: &[CoreEvent],
    account: &Account,
    id: usize,
) -> Result<(), AllocError>
    requires ends { (id : ℕ) → place_at account.now.ends.items id ≡ end_of events.now id }
    requires within { EndsFit events.now }
    ensures { OnOk result (run.new.items ≡ run.old.items
        ++ steps_left events.now (place_at account.now.held.items) id) }
{
    if is_open_at(events, account, id) {
        land_at(run, events, account, id)?;
    }
    Ok(())
}

// Returns whether `id` is a request that hasn't ended.
fn is_open_at(events: &[CoreEvent], account: &Account, id: usize) -> bool
    requires { (id : ℕ) → place_at account.now.ends.items id ≡ end_of events.now id }
    ensures { result ≡ is_open_at events.now id }
{
    match events.get(id) {
        Some(event) => is_request(event) && account.end(id).is_none(),
        None => false,
    }
}
