//! Tests of how many links the core changes, and of whether it uses its rows again.
use bio::{Bio, Id};
use pending::*;
use std::alloc::Global;
use std::process::Abort;

// Submits a discard of one sector, and returns its id.
fn submit(rt: &impl Abort, core: &mut Core, sector: u64) -> u64 {
    let answer = core
        .submit(&Bio::Discard {
            first: sector,
            count: 1,
        })
        .expect(rt, "memory");
    match answer {
        Submitted::Tracked(id) => id.place(),
        Submitted::Passed => u64::MAX,
    }
}

// Ends the request with the id `place` with success, if it is open.
fn end(core: &mut Core, place: u64) {
    let id = Id::new(place);
    if core.is_open(id) {
        core.complete(id, true);
    }
}

// Submits `count` discards; their ids are `from` and the next ones. Then ends them in steps of
// seven, modulo `count`.
fn end_all(rt: &impl Abort, core: &mut Core, from: u64, count: u64) {
    for sector in 0..count {
        submit(rt, core, sector);
    }
    for number in 0..count {
        end(
            core,
            from.wrapping_add(number.wrapping_mul(7).checked_rem(count).unwrap_or(0)),
        );
    }
}

// Takes the next entry, and returns its id.
fn next_place(core: &mut Core) -> Option<u64> {
    let (id, _entry) = core.take()?;
    Some(id.place())
}

// Takes `count` entries and one more. Returns how many of them come in the order of their ends,
// with `flush` last.
fn take_all(core: &mut Core, from: u64, count: u64, flush: u64) -> u64 {
    let mut right: u64 = 0;
    for number in 0..count {
        let place = from.wrapping_add(number.wrapping_mul(7).checked_rem(count).unwrap_or(0));
        right = right.saturating_add(u64::from(next_place(core) == Some(place)));
    }
    right.saturating_add(u64::from(next_place(core) == Some(flush)))
}

#[test]
fn a_flush_changes_few_links(rt: HostRuntime) {
    let mut core = Core::new(rt.alloc()).expect(&rt, "memory");
    end_all(&rt, &mut core, 0, 1000);
    let flush = core.events().len() as u64;
    let before = core.links_changed();
    core.submit(&Bio::Flush).expect(&rt, "memory");
    let submitted = core.links_changed();
    end(&mut core, flush);
    let ended = core.links_changed();
    let (one, two) = (
        submitted.saturating_sub(before),
        ended.saturating_sub(submitted),
    );
    assert!(rt; 1 <= one && one <= 8, "submission: {one}");
    assert!(rt; 1001 <= two && two <= 3 * 1001 + 8, "end: {two}");
    assert_eq!(rt; take_all(&mut core, 0, 1000, flush), 1001);
    assert!(rt; core.take().is_none());
}

// Returns how many rows the core's chains have. It counts them in the core's debug text.
fn rows_shown(rt: &impl Abort, alloc: Global, core: &Core) -> usize {
    let shown = format!(in alloc; "{core:?}").expect(rt, "memory");
    let (_, links) = shown.as_str().split_once("next: [").unwrap_or(("", ""));
    let (rows, _) = links.split_once(']').unwrap_or(("", ""));
    rows.split(',').count()
}

// In each of `count` rounds, `requests` requests end, a flush ends, and all entries are taken.
// Returns how many rows there are after the second and after the last round.
fn rounds(rt: &impl Abort, alloc: Global, count: u64, requests: u64) -> (usize, usize) {
    let mut core = Core::new(alloc).expect(rt, "memory");
    let mut second = 0;
    for round in 0..count {
        let from = core.events().len() as u64;
        end_all(rt, &mut core, from, requests);
        let flush = core.events().len() as u64;
        core.submit(&Bio::Flush).expect(rt, "memory");
        end(&mut core, flush);
        for _ in 0..requests.saturating_add(1) {
            core.take();
        }
        if round == 1 {
            second = rows_shown(rt, alloc, &core);
        }
    }
    (second, rows_shown(rt, alloc, &core))
}

#[test]
fn rows_are_used_again(rt: HostRuntime) {
    assert_eq!(rt; rounds(&rt, rt.alloc(), 200, 100), (101, 101));
}
