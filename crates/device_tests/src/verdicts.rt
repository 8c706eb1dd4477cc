//! Tests of which images the judge allows, and which lists of events are lawful.

use bio::{Bio, Bytes, CoreEvent, End, Id};
use judge::{First, Verdict, could_hold, is_lawful};
use std::alloc::Global;
use std::process::Abort;
use test_devices::{holds, rows_are_told};

// Returns the submission of a write of `length` bytes, each `byte`, without flush.
fn write(
    rt: &impl Abort,
    alloc: Global,
    first: u64,
    length: usize,
    byte: u8,
    fua: bool,
) -> CoreEvent {
    CoreEvent::Submit(Bio::Write {
        first,
        bytes: Bytes::from_vec(vec![in alloc; byte; length].expect(rt, "memory")),
        flush: false,
        fua,
        meta: false,
    })
}

// Returns a mark whose text is the byte `byte`.
fn mark(rt: &impl Abort, alloc: Global, byte: u8) -> CoreEvent {
    CoreEvent::Mark(Bytes::from_vec(vec![in alloc; byte; 1].expect(rt, "memory")))
}

// Returns the event of a step. `w 3 1` submits a write of one sector, 3, filled with 1. `w3 3 1` is
// one of three sectors, `cut` one of 511 bytes, `fua` one with FUA. `d 3` submits a discard and `r
// 3` a read of sector 3, and `f` a flush. `m 0 120` is a mark of the byte 120. `c 2` completes with
// success what event 2 submitted, and `x 2` with failure.
fn event_of(rt: &impl Abort, alloc: Global, word: &str, number: u64, byte: u8) -> CoreEvent {
    match word {
        "w" => write(rt, alloc, number, 512, byte, false),
        "w3" => write(rt, alloc, number, 1536, byte, false),
        "cut" => write(rt, alloc, number, 511, byte, false),
        "fua" => write(rt, alloc, number, 512, byte, true),
        "m" => mark(rt, alloc, byte),
        "d" => CoreEvent::Submit(Bio::Discard {
            first: number,
            count: 1,
        }),
        "r" => CoreEvent::Submit(Bio::Read {
            first: number,
            count: 1,
        }),
        "f" => CoreEvent::Submit(Bio::Flush),
        "stop" => CoreEvent::Stop(End::Full),
        "close" => CoreEvent::Close,
        word => CoreEvent::Complete {
            id: Id::new(number),
            ok: word == "c",
        },
    }
}

// Returns the events of steps that commas separate.
pub fn events_of(rt: &impl Abort, alloc: Global, steps: &str) -> Vec<CoreEvent> {
    let mut events = Vec::new(alloc);
    for step in steps.split(",") {
        let mut words = step.split(" ");
        let word = words.next().unwrap_or_default();
        let number = words.next().unwrap_or_default().parse::<u64>().unwrap_or(0);
        let byte = words.next().unwrap_or_default().parse::<u8>().unwrap_or(0);
        if !word.is_empty() {
            events
                .push(event_of(rt, alloc, word, number, byte))
                .expect(rt, "memory");
        }
    }
    events
}

// Returns an image of zeroes, in which each word such as `3:7` fills a sector, here 3 with 7.
pub fn image_of(rt: &impl Abort, alloc: Global, sectors: u8, words: &str) -> Vec<u8> {
    let mut image = vec![in alloc; 0; sectors as usize * 512].expect(rt, "memory");
    for word in words.split(" ") {
        let mut parts = word.split(":");
        let sector = parts
            .next()
            .unwrap_or_default()
            .parse::<usize>()
            .unwrap_or(255);
        let byte = parts.next().unwrap_or_default().parse::<u8>().unwrap_or(0);
        for at in 0..image.len() {
            if at / 512 == sector {
                image[at] = byte;
            }
        }
    }
    image
}

fn has_zeroes(bytes: &[u8]) -> bool {
    bytes.iter().all(|byte| *byte == 0)
}

// Returns the verdict on `image` after `moment` events on the content `first`: `yes`, `no` with a
// sector, or `no` with a sector and the request that rules it out. If the events are unlawful, says
// so.
fn verdict_of(
    rt: &impl Abort,
    alloc: Global,
    events: &[CoreEvent],
    moment: u64,
    first: &[u8],
    image: &[u8],
) -> String {
    if image.len() % 512 != 0
        || first.len() != image.len()
        || !is_lawful(events, (image.len() / 512) as u64)
    {
        return String::from_str(alloc, "unlawful").expect(rt, "memory");
    }
    let verdict = could_hold(alloc, events, moment, First::Image(first), image);
    if has_zeroes(first) && could_hold(alloc, events, moment, First::Zeroes, image) != verdict {
        return String::from_str(alloc, "another one over zeroes").expect(rt, "memory");
    }
    verdict_text(rt, alloc, verdict.expect(rt, "memory"))
}

// Returns `yes`, or `no` with the sector and the request that rules the image out.
fn verdict_text(rt: &impl Abort, alloc: Global, verdict: Verdict) -> String {
    let told = match verdict {
        Verdict::Yes => String::from_str(alloc, "yes"),
        Verdict::No { sector, by: None } => format!(in alloc; "no {sector}"),
        Verdict::No {
            sector,
            by: Some(id),
        } => format!(in alloc; "no {sector} by {}", id.place()),
    };
    told.expect(rt, "memory")
}

// Returns the verdict for a row `sectors|events|moment|first|image`. Both images are zeroes except
// for the sectors that are named.
fn judged(rt: &impl Abort, alloc: Global, row: &str) -> String {
    let mut parts = row.split("|");
    let sectors = parts.next().unwrap_or_default().parse::<u8>().unwrap_or(0);
    let events = events_of(rt, alloc, parts.next().unwrap_or_default());
    let moment = parts.next().unwrap_or_default().parse::<u64>().unwrap_or(0);
    let first = image_of(rt, alloc, sectors, parts.next().unwrap_or_default());
    let image = image_of(rt, alloc, sectors, parts.next().unwrap_or_default());
    verdict_of(rt, alloc, &events, moment, &first, &image)
}

// Rows `sectors|events|moment|first|image=verdict`. Two writes of one sector, at moments before and
// after a flush. Three writes, two of which are flushed; a FUA write over a plain write; two
// flushes, the later of which ends first. A discard after a write; a flush and a FUA write that
// failed; FUA writes of one sector; a value that isn't submitted yet. A part of a write of three
// sectors; a first content that isn't zero; no event; no sector.
pub const ROWS: &str = "16|w 3 1,w 3 2,c 0,c 1,f,c 4|4||=yes
16|w 3 1,w 3 2,c 0,c 1,f,c 4|4||3:1=yes
16|w 3 1,w 3 2,c 0,c 1,f,c 4|4||3:2=yes
16|w 3 1,w 3 2,c 0,c 1,f,c 4|4||3:3=no 3
16|w 3 1,w 3 2,c 0,c 1,f,c 4|6||3:1=yes
16|w 3 1,w 3 2,c 0,c 1,f,c 4|6||3:2=yes
16|w 3 1,w 3 2,c 0,c 1,f,c 4|6||=no 3 by 1
16|w 3 1,w 3 2,c 0,c 1,f,c 4|7||=no 3 by 1
64|w 10 17,w 20 34,w 30 51,c 2,c 1,f,c 0,c 5,close|7||30:51=yes
64|w 10 17,w 20 34,w 30 51,c 2,c 1,f,c 0,c 5,close|8||30:51=no 20 by 1
64|w 10 17,w 20 34,w 30 51,c 2,c 1,f,c 0,c 5,close|8||20:34 30:51=yes
64|w 10 17,w 20 34,w 30 51,c 2,c 1,f,c 0,c 5,close|9||10:17 20:34 30:51=yes
16|w 5 97,c 0,fua 5 98,c 2,f,c 4,close|7||5:97=no 5 by 2
16|w 5 97,c 0,fua 5 98,c 2,f,c 4,close|3||5:97=yes
16|w 5 97,c 0,fua 5 98,c 2,f,c 4,close|7||5:98=yes
16|w 5 97,c 0,f,f,c 3,fua 9 99,c 5,c 2,close|4||=yes
16|w 5 97,c 0,f,f,c 3,fua 9 99,c 5,c 2,close|5||=no 5 by 0
16|w 5 97,c 0,f,f,c 3,fua 9 99,c 5,c 2,close|9||5:97 9:99=yes
16|w 1 127,c 0,d 1,c 2,f,c 4,close|7||=yes
16|w 1 127,c 0,d 1,c 2,f,c 4,close|7||1:127=no 1 by 2
16|w 1 127,c 0,d 1,c 2,f,c 4,close|4||1:127=yes
16|w 5 1,c 0,f,x 2|4||=yes
16|w 5 1,c 0,f,c 2|4||=no 5 by 0
16|fua 5 1,x 0|2||=yes
16|fua 5 1,c 0|2||=no 5 by 0
16|fua 5 1,c 0,fua 6 2,c 2|4||=no 5 by 0
16|fua 6 1,c 0,fua 5 2,c 2|4||=no 5 by 2
16|fua 5 1,c 0,fua 5 2,c 2,fua 5 3,c 4|6||5:1=no 5 by 4
16|fua 5 1,fua 5 2,fua 5 3,c 2,c 1,c 0|6||5:1=yes
16|w 5 1,w 5 2|0||5:1=no 5
16|w 5 1,w 5 2|1||5:1=yes
16|w 5 1,w 5 2|1||5:2=no 5
16|w 5 1,w 5 2|2||5:2=yes
8|w3 4 7,c 0,f,c 2|2||4:7 6:7=yes
8|w3 4 7,c 0,f,c 2|4||4:7 6:7=no 5 by 0
8|w3 4 7,c 0,f,c 2|4||4:7 5:7 6:7 7:7=no 7
8|d 1|1|1:9 2:9|1:9 2:9=yes
8|d 1|1|1:9 2:9|2:9=yes
8|d 1|1|1:9 2:9|1:9=no 2
8|d 1,m 0 120,f|3|1:9|1:8=no 1
4||0|3:1|3:1=yes
4||5|3:1|=no 3
0||0||=yes
0|f,c 0,m 0 120,f,stop,c 3,close|9||=yes";

#[test]
fn images_are_judged(rt: HostRuntime) {
    let alloc = rt.alloc();
    assert!(rt; rows_are_told(&rt, ROWS, |row| judged(&rt, alloc, row)));
}

// Lists of events for a device of 8 sectors. A list that begins with `=` is lawful. A list that
// begins with `!` breaks one rule: it ends what wasn't submitted, what has ended, itself, an end or
// a read. Or it has an event after a stop or a close, or a close with an open request. Or it has a
// read, or a mark with a zero byte. Or a request isn't whole sectors, or is past the device's end,
// at the list's beginning or later.
const LISTS: &str = "
=w 7 1
=w 7 1,c 0,d 0,f,m 0 120,x 2,c 3,close
=f,f,c 1,c 0
=w 1 1,stop,c 0,close
=stop,close
!c 0
!w 1 1,c 1
!w 1 1,c 2,c 0
!w 1 1,c 0,c 0
!w 1 1,c 0,c 1
!w 1 1,stop,w 2 1
!w 1 1,stop,f
!stop,stop
!stop,m 0 120
!close,w 1 1
!close,close
!close,stop
!close,m 0 120
!w 1 1,close
!w 1 1,close,c 0
!f,close
!r 1
!r 1,c 0
!m 0 0
!cut 1 1
!w 8 1
!w3 6 1
!d 8
!w 1 1,c 0,d 9";

#[test]
fn lawful_lists_are_told_apart(rt: HostRuntime) {
    for line in LISTS.split("\n") {
        let steps = line.trim_start_matches(|c| c == '=' || c == '!');
        let events = events_of(&rt, rt.alloc(), steps);
        assert!(rt; holds(&rt, is_lawful(&events, 8) != line.starts_with("!"), line));
    }
}

// Returns `count` writes, each with its end, and a flush. Write n fills sector n modulo 4,096 with
// the byte n modulo 251.
fn many_writes(rt: &impl Abort, alloc: Global, count: u64) -> Vec<CoreEvent> {
    let mut events = Vec::new(alloc);
    for number in 0..count {
        events
            .push(write(rt, alloc, number % 4096, 512, (number % 251) as u8, false))
            .expect(rt, "memory");
        let id = Id::new(events.len() as u64 - 1);
        events
            .push(CoreEvent::Complete { id, ok: true })
            .expect(rt, "memory");
    }
    let id = Id::new(events.len() as u64);
    events
        .push(CoreEvent::Submit(Bio::Flush))
        .expect(rt, "memory");
    events
        .push(CoreEvent::Complete { id, ok: true })
        .expect(rt, "memory");
    events
}

// Returns the image that the first `count` of the writes of `many_writes` leave.
fn many_sectors(rt: &impl Abort, alloc: Global, count: u64) -> Vec<u8> {
    let mut image = vec![in alloc; 0; 4096 * 512].expect(rt, "memory");
    for number in 0..count {
        let sector = (number % 4096) as usize;
        for at in 0..512 {
            let place = sector * 512 + at;
            if place < image.len() {
                image[place] = (number % 251) as u8;
            }
        }
    }
    image
}

// Returns the verdict, after all events, on the image that the first `count` writes leave.
fn verdict_on_many(rt: &impl Abort, alloc: Global, events: &[CoreEvent], count: u64) -> Verdict {
    let first = many_sectors(rt, alloc, 0);
    let image = many_sectors(rt, alloc, count);
    assert!(rt; image.len() % 512 == 0 && first.len() == image.len());
    assert!(rt; is_lawful(events, (image.len() / 512) as u64));
    could_hold(alloc, events, 20_000, First::Image(&first), &image).expect(rt, "memory")
}

// After 20,000 events on 4,096 sectors, the image with all last values is possible. The image
// without the last write isn't.
#[test]
fn long_lists_are_judged(rt: HostRuntime) {
    let alloc = rt.alloc();
    let events = many_writes(&rt, alloc, 9999);
    assert!(rt; events.len() == 20_000);
    assert!(rt; verdict_on_many(&rt, alloc, &events, 9999) == Verdict::Yes);
    let by = Some(Id::new(19_996));
    let ruled_out = Verdict::No { sector: 1806, by };
    assert!(rt; verdict_on_many(&rt, alloc, &events, 9998) == ruled_out);
}

#[test]
fn verdicts_are_compared(rt: HostRuntime) {
    let unsure = Verdict::No {
        sector: 1,
        by: None,
    };
    let sure = Verdict::No {
        sector: 1,
        by: Some(Id::new(1)),
    };
    assert!(rt; Verdict::Yes != unsure);
    assert!(rt; unsure != sure);
}
