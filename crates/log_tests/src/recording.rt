//! Tests of the core: how events make the completion list.
use crate::writes::filled;
use bio::{Bio, End, Id};
use pending::*;
use std::alloc::Global;
use std::process::Abort;
use test_devices::rows_are_told;

// Returns a write of `length` bytes. Bits 0, 1 and 2 of `flags` are flush, FUA and meta.
fn write(rt: &impl Abort, alloc: Global, first: u64, length: usize, flags: u64) -> Bio {
    Bio::Write {
        first,
        bytes: filled(rt, alloc, 65, length),
        flush: flags % 2 == 1,
        fua: flags / 2 % 2 == 1,
        meta: flags / 4 % 2 == 1,
    }
}

// Returns the request that a word names. `both` is a write of two sectors with flush.
fn request(rt: &impl Abort, alloc: Global, word: &str, number: u64) -> Bio {
    match word {
        "write" => write(rt, alloc, number, 512, 0),
        "fua" => write(rt, alloc, number, 512, 2),
        "both" => write(rt, alloc, number, 1024, 1),
        "discard" => Bio::Discard {
            first: number,
            count: 1,
        },
        "read" => Bio::Read {
            first: number,
            count: 1,
        },
        _ => Bio::Flush,
    }
}

// Returns the id of a submission, or the largest number if the request was passed.
fn place_of(answer: Submitted) -> u64 {
    match answer {
        Submitted::Tracked(id) => id.place(),
        Submitted::Passed => u64::MAX,
    }
}

// Ends the request with the id `place`, if it is open.
fn end(core: &mut Core, place: u64, ok: bool) {
    let id = Id::new(place);
    if core.is_open(id) {
        core.complete(id, ok);
    }
}

// Takes all entries. Returns `id first+count flags;` for each.
fn taken(rt: &impl Abort, alloc: Global, core: &mut Core) -> String {
    let mut shown = String::new(alloc);
    for _ in 0..100 {
        let Some((id, entry)) = core.take() else {
            break;
        };
        let item = format!(in alloc;
            "{} {}+{} {};",
            id.place(),
            entry.sector,
            entry.nr_sectors,
            entry.flags.bits()
        )
        .expect(rt, "memory");
        shown.push_str(item.as_str()).expect(rt, "memory");
    }
    shown
}

// Records a mark whose text has `length` bytes `byte`. Returns a text only if the mark isn't
// queued.
fn marked(rt: &impl Abort, alloc: Global, core: &mut Core, byte: u8, length: u64) -> String {
    match core.mark(&filled(rt, alloc, byte, length as usize)) {
        Ok(Marked::Queued(_)) => String::new(alloc),
        Ok(Marked::Passed) => String::from_str(alloc, "passed;").expect(rt, "memory"),
        Err(error) => format!(in alloc; "{error};").expect(rt, "memory"),
    }
}

// Takes a step: a word and its number. Returns what the step shows, if anything.
fn play(rt: &impl Abort, alloc: Global, core: &mut Core, word: &str, number: u64) -> String {
    match word {
        "end" => end(core, number, true),
        "fail" => end(core, number, false),
        "stop" => core.stop(End::Device),
        "take" => return taken(rt, alloc, core),
        "close" => {
            if let Err(error) = core.close() {
                return format!(in alloc; "{error};").expect(rt, "memory");
            }
        }
        "mark" | "zero" => return marked(
            rt,
            alloc,
            core,
            if word == "mark" { 120 } else { 0 },
            number,
        ),
        _ => {
            if core
                .submit(&request(rt, alloc, word, number))
                .expect(rt, "memory")
                == Submitted::Passed
            {
                return String::from_str(alloc, "passed;").expect(rt, "memory");
            }
        }
    }
    String::new(alloc)
}

// Takes these steps, which are separated by commas, and returns what they show.
fn play_all(rt: &impl Abort, alloc: Global, core: &mut Core, steps: &str) -> String {
    let mut shown = String::new(alloc);
    for step in steps.split(',') {
        let (word, number) = step.split_once(' ').unwrap_or((step, ""));
        let told = play(rt, alloc, core, word, number.parse::<u64>().unwrap_or(0));
        shown.push_str(told.as_str()).expect(rt, "memory");
    }
    shown
}

// Takes these steps. Returns what they show, and the number of recorded events.
fn played(rt: &impl Abort, alloc: Global, core: &mut Core, steps: &str) -> String {
    let shown = play_all(rt, alloc, core, steps);
    format!(in alloc; "{shown}{}", core.events().len()).expect(rt, "memory")
}

// Rows `steps=what they show`: `take` shows `id first+count flags;` for each entry, and the last
// number counts events. A flush queues what ended before its submission. A FUA write is queued when
// it ends, even if it fails. In the list it comes after an older write or discard of the same
// sector, and before writes and discards of other sectors. A core with an open request can't be
// closed. Nothing is queued after a stop. If the later of two flushes ends first, its end queues
// what ended before the later flush was submitted. A write with flush does so too. Recording goes
// on after a take. A mark waits for nothing.
const ROWS: &str =
    "write 10,write 20,write 30,end 2,end 1,flush,end 0,end 5,close,take=2 30+1 0;1 20+1 0;5 0+0 1;0 10+1 0;8 0+0 8;9
fua 5,fail 0,take,take=0 5+1 2;2
discard 1,close,end 0,close,close,flush,take=a request is open;passed;0 1+1 4;2 0+0 8;3
read 0,write 5,end 0,flush,stop,stop,end 2,flush,close,take=passed;passed;6
write 5,end 0,flush,flush,end 3,fua 9,end 5,end 2,close,take=0 5+1 0;3 0+0 1;5 9+1 2;2 0+0 1;8 0+0 8;9
fua 5,end 0,take,write 6,end 2,flush,write 7,discard 8,flush,end 6,take,end 5,take,end 7,take,end 4,take,close,take=0 5+1 2;2 6+1 0;7 0+0 1;4 0+0 1;6 8+1 4;5 7+1 0;12 0+0 8;13
mark 3,write 5,end 1,zero 1,mark 480,close,mark 1,take=a mark's text has a zero byte;passed;0 0+0 8;3 0+0 8;1 5+1 0;4 0+0 8;5
mark 0,stop,mark 1,zero 2,take=passed;a mark's text has a zero byte;2
write 5,end 0,fua 5,end 2,flush,end 4,close,take=0 5+1 0;2 5+1 2;4 0+0 1;6 0+0 8;7
discard 5,end 0,write 6,end 2,flush,fua 5,fail 5,take,end 4,take=0 5+1 4;5 5+1 2;2 6+1 0;4 0+0 1;8
write 5,end 0,flush,both 6,end 3,take,end 2,take=0 5+1 0;3 6+2 1;2 0+0 1;6";

#[test]
fn steps_are_answered(rt: HostRuntime) {
    let alloc = rt.alloc();
    assert!(rt;
        rows_are_told(
            &rt,
            ROWS,
            |steps| played(
                &rt,
                alloc,
                &mut Core::new(alloc).expect(&rt, "memory"),
                steps
            )
        )
    );
}

// Takes the next entry, and returns its id.
fn next_place(core: &mut Core) -> Option<u64> {
    let (id, _entry) = core.take()?;
    Some(id.place())
}

// Submits a write of sector `sector`, and ends it with success.
fn write_one(rt: &impl Abort, alloc: Global, core: &mut Core, sector: u64, flags: u64) {
    let place = place_of(
        core.submit(&write(rt, alloc, sector, 512, flags))
            .expect(rt, "memory"),
    );
    end(core, place, true);
}

// While 8,192 writes wait, a FUA write queues the waiting write of its own sector before itself. It
// queues no other write.
fn check_many(rt: &impl Abort, alloc: Global, core: &mut Core) {
    for sector in 0..8192 {
        write_one(rt, alloc, core, sector, 0);
    }
    write_one(rt, alloc, core, 8192, 2);
    assert!(rt; next_place(core) == Some(16_384));
    write_one(rt, alloc, core, 8191, 2);
    assert!(rt; next_place(core) == Some(16_382));
    assert!(rt; next_place(core) == Some(16_386));
    assert!(rt; core.hazard().is_none());
}

#[test]
fn one_of_many_is_taken(rt: HostRuntime) {
    check_many(
        &rt,
        rt.alloc(),
        &mut Core::new(rt.alloc()).expect(&rt, "memory"),
    )
}

// Returns a random request of the mix. It may be a flush or a write with flush only if `flushes`.
fn mixed(rt: &impl Abort, alloc: Global, random: u64, flushes: bool) -> Bio {
    match random % 4096 {
        0..64 if flushes => Bio::Flush,
        64..512 => Bio::Discard {
            first: random,
            count: 1,
        },
        512 => write(rt, alloc, random, 2048 * 512, 4),
        kind if flushes => write(rt, alloc, random, 512, kind),
        kind => write(rt, alloc, random, 512, kind / 2 * 2),
    }
}

// Submits `count` requests of the mix, and ends some, so that at most 200 are open.
fn submit_mixed(
    rt: &impl Abort,
    alloc: Global,
    core: &mut Core,
    open: &mut Vec<u64>,
    count: u64,
    flushes: bool,
) {
    let mut random: u64 = 1;
    for _ in 0..count {
        random = random
            .wrapping_mul(6_364_136_223_846_793_005)
            .wrapping_add(1);
        let bio = mixed(rt, alloc, random >> 40, flushes);
        open.push(place_of(core.submit(&bio).expect(rt, "memory")))
            .expect(rt, "memory");
        if open.len() > 200 {
            let place = open.swap_remove((random >> 33) as usize % open.len());
            end(core, place, random % 3 != 0);
        }
    }
}

// Records requests of the mix: some without flushes, many with flushes, and some without. Then
// records marks, ends all requests, and closes.
fn record_mix(rt: &impl Abort, alloc: Global, core: &mut Core) {
    let mut open = Vec::new(alloc);
    submit_mixed(rt, alloc, core, &mut open, 2_000, false);
    submit_mixed(rt, alloc, core, &mut open, 20_000, true);
    submit_mixed(rt, alloc, core, &mut open, 2_000, false);
    mark_often(rt, alloc, core);
    for place in open {
        end(core, place, false);
    }
    core.close().expect(rt, "a close");
}

// Records ten thousand marks.
fn mark_often(rt: &impl Abort, alloc: Global, core: &mut Core) {
    let text = filled(rt, alloc, 65, 512);
    for _ in 0..10_000 {
        core.mark(&text).expect(rt, "a mark");
    }
}

// Records a long mix, with up to 200 requests open at a time and many waiting. Checks that none is
// refused, and that all entries are taken.
fn check_mix(rt: &impl Abort, alloc: Global, core: &mut Core) {
    record_mix(rt, alloc, core);
    assert!(rt; core.events().len() == 58_001);
    for _ in 0..34_001 {
        assert!(rt; core.take().is_some());
    }
    assert!(rt; core.take().is_none());
}

#[test]
fn a_long_mix_is_recorded(rt: HostRuntime) {
    check_mix(
        &rt,
        rt.alloc(),
        &mut Core::new(rt.alloc()).expect(&rt, "memory"),
    )
}

#[test]
fn answers_differ(rt: HostRuntime) {
    assert!(rt; Submitted::Passed != Submitted::Tracked(Id::new(0)));
    assert!(rt; CloseError::Busy != CloseError::Memory);
    assert!(rt; MarkError::BadText != MarkError::Memory);
    assert!(rt; Marked::Passed != Marked::Queued(Id::new(0)));
    assert!(rt; HazardKind::Overlap != HazardKind::Flush);
    let shown = CloseError::Memory
        .to_string(rt.alloc())
        .expect(&rt, "memory");
    assert_eq!(rt; shown.as_str(), "no memory");
}
