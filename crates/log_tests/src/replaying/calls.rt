//! Tests of which calls a replay makes.
use super::{disk_of, image_of, number_of, upto_of};
use log_reader::LogReader;
use refusals::Refusal;
use replay::{ReplayFault, Upto, replay};
use sector_disk::SectorDisk;
use std::alloc::Global;
use std::io::Print;
use std::process::Abort;
use test_devices::{Failing, Watched, holds, is_told};

// A replay's log and its target, each on a device that notes its calls and may fail them.
#[derive(Drop)]
struct Pair {
    log: LogReader<Watched<Failing<SectorDisk>>>,
    target: Watched<Failing<SectorDisk>>,
}

// Returns the log of an image, whose device passes `log_passes` calls. Its target has `sectors`
// sectors of zeroes, and passes `passes` calls.
fn pair_of(
    rt: &impl Abort,
    alloc: Global,
    image: Vec<u8>,
    log_passes: u64,
    sectors: u64,
    passes: u64,
) -> Pair {
    let disk = Failing::in_calls(disk_of(rt, alloc, image), log_passes);
    let target = SectorDisk::new(alloc, sectors.clamp(1, 1_048_576)).expect(rt, "memory");
    let target = Failing::in_calls(target, passes);
    Pair {
        log: LogReader::open(alloc, Watched::new(alloc, disk))
            .ok()
            .expect(rt, "a log"),
        target: Watched::new(alloc, target),
    }
}

// Replays the log up to `upto`. Returns the answer, and the calls of the target.
fn step(rt: &impl Abort, alloc: Global, pair: &mut Pair, upto: &Upto) -> String {
    let mut text = match replay(&mut pair.log, &mut pair.target, upto) {
        Ok(count) => format!(in alloc; "{count}:").expect(rt, "memory"),
        Err(ReplayFault { applied, cause }) => {
            format!(in alloc; "{} after {applied}:", Refusal::from(cause)).expect(rt, "memory")
        }
    };
    text.push_str(pair.target.seen.as_str().trim_end())
        .expect(rt, "memory");
    pair.target.seen = String::new(alloc);
    text
}

// The parts of a log: writes with no flag, with FUA, with FLUSH and FUA, and without sectors; a
// flush; discards of three sectors and of none; a mark; a write with META.
const CALLS: &str =
    "8 1 9 512 0 512 5 1 0 0 1536 6 2 2 0 3072 8 1 3 0 4096 0 0 0 0 4608 0 0 1 0 5120 9 3 4 0 5632 0 0 4 0 6144 0 0 8 0 6656 1 1 16 0";

// A log with sectors of 4,096 bytes: a write, a discard, and a mark.
const LARGEST: &str = "8 1 3 4096 0 4096 1 1 2 0 12288 0 1 4 0 16384 0 0 8 0";

// A log with a write of 8,192 sectors.
const LONG: &str = "8 1 1 512 0 512 3 8192 0 0";

// A log with a discard of 131,072 sectors.
const WIDE: &str = "8 1 1 512 0 512 1 131072 4 0";

// A log of marks: `ab`, `a`, the empty text, the bytes 0 and 255, `a` again, and 480 zero bytes.
const MARKS: &str =
    "8 1 6 512 0 512 0 0 8 2 544 25185 0 0 0 1024 0 0 8 1 1056 97 0 0 0 1536 0 0 8 0 2048 0 0 8 2 2080 65280 0 0 0 2560 0 0 8 1 2592 97 0 0 0 3072 0 0 8 480";

// A log with a mark with FLUSH, a write with FLUSH, and a flush.
const FLUSHES: &str = "8 1 3 512 0 512 0 0 9 0 1024 2 1 1 0 2048 0 0 1 0";

// A log that counts one entry; a write, a flush and a mark follow it.
const STALE: &str = "8 1 1 512 0 512 5 1 0 0 1536 6 1 0 0 2560 0 0 1 0 3072 0 0 8 0";

// A log whose second entry can't be read.
const DAMAGED: &str = "8 1 2 512 0 512 5 1 0 0 1536 0 9223372036854775808 0 0";

fn image_named(rt: &impl Abort, alloc: Global, name: &str) -> Vec<u8> {
    match name {
        "calls" => image_of(rt, alloc, CALLS, 7_680),
        "largest" => image_of(rt, alloc, LARGEST, 20_480),
        "long" => image_of(rt, alloc, LONG, 4_195_328),
        "wide" => image_of(rt, alloc, WIDE, 1_024),
        "marks" => image_of(rt, alloc, MARKS, 3_584),
        "flushes" => image_of(rt, alloc, FLUSHES, 4_096),
        "stale" => image_of(rt, alloc, STALE, 4_096),
        _ => image_of(rt, alloc, DAMAGED, 4_096),
    }
}

// Returns the log and the target of a row `log passes sectors passes`: the image's name, how many
// calls the log's device passes, the target's sectors, and how many calls it passes. `-` means all
// calls.
fn pair_in(rt: &impl Abort, alloc: Global, row: &str) -> Pair {
    let mut words = row.split(' ');
    let image = image_named(rt, alloc, words.next().unwrap_or_default());
    let log_passes = number_of(words.next());
    let sectors = number_of(words.next());
    pair_of(
        rt,
        alloc,
        image,
        log_passes,
        sectors,
        number_of(words.next()),
    )
}

// Makes the replays `end=result`, which are separated by `;`, and checks each result.
fn assert_steps(
    rt: &(impl Abort + Print),
    alloc: Global,
    pair: &mut Pair,
    replays: &str,
    row: &str,
) {
    for replay in replays.split(';') {
        let (asked, wanted) = replay.split_once('=').unwrap_or_default();
        let found = step(rt, alloc, pair, &upto_of(asked));
        assert!(rt; is_told(rt, found.as_str(), wanted, row));
    }
}

// Makes the replays of each row `log passes sectors passes;end=result;..`. Checks that each call of
// the log's device is at time 0.
fn assert_replays(rt: &(impl Abort + Print), alloc: Global, rows: &str) {
    for row in rows.lines() {
        let (made, replays) = row.split_once(';').unwrap_or_default();
        let mut pair = pair_in(rt, alloc, made);
        assert_steps(rt, alloc, &mut pair, replays, row);
        let seen = pair.log.into_device().seen;
        assert!(rt; holds(rt, !seen.as_str().contains('@'), row));
    }
}

// Each entry with sectors makes one call, at time 0 and without FUA. Other entries make none.
#[test]
fn each_entry_is_one_call(rt: HostRuntime) {
    assert_replays(
        &rt,
        rt.alloc(),
        "calls - 16 -;9=9:w5+1 w6+2 w8+1 d9+3 w1+1
calls - 16 -;5=5:w5+1 w6+2 w8+1
calls - 11 -;9=27 PastTarget after 5:w5+1 w6+2 w8+1
largest - 16 -;3=3:w8+8 d0+8
largest - 15 -;3=27 PastTarget after 0:
long - 8195 -;1=1:w3+8192
wide - 131073 -;1=1:d1+131072
wide - 131072 -;1=27 PastTarget after 0:",
    )
}

// Appends an entry to the text of a long log, and its call to the expected calls.
fn push_discard(
    rt: &impl Abort,
    alloc: Global,
    number: u64,
    text: &mut String,
    wanted: &mut String,
) {
    let at = number.saturating_mul(512).saturating_add(512);
    let sector = number % 16;
    write!(text, " {at} {sector} 1 4 0").expect(rt, "memory");
    write!(wanted, "d{sector}+1 ").expect(rt, "memory");
}

// Replays a long log up to its first flush, and returns the result.
fn long_text(rt: &impl Abort, alloc: Global, text: &str) -> String {
    let image = image_of(rt, alloc, text, 15_361_024);
    let mut pair = pair_of(rt, alloc, image, u64::MAX, 16, u64::MAX);
    step(rt, alloc, &mut pair, &Upto::Flush)
}

// Thousands of discards make one call each, in their order. If later steps took longer, the test
// wouldn't end in time.
#[test]
fn thousands_of_entries_are_replayed(rt: HostRuntime) {
    let alloc = rt.alloc();
    let mut text = String::from_str(alloc, "8 1 30001 512 0").expect(&rt, "memory");
    let mut wanted = String::from_str(alloc, "30001:").expect(&rt, "memory");
    for number in 0..30_000 {
        push_discard(&rt, alloc, number, &mut text, &mut wanted);
    }
    text.push_str(" 15360512 0 0 1 0").expect(&rt, "memory");
    let found = long_text(&rt, alloc, text.as_str());
    assert!(rt; found.as_str() == wanted.as_str().trim_end());
}

#[test]
fn targets_that_fail_end_a_replay(rt: HostRuntime) {
    assert_replays(
        &rt,
        rt.alloc(),
        "calls - 16 0;9=1 Io after 0:w5+1
calls - 16 1;9=1 Io after 1:w5+1 w6+2
calls - 16 2;9=1 Io after 2:w5+1 w6+2 w8+1
calls - 16 3;9=1 Io after 5:w5+1 w6+2 w8+1 d9+3
calls - 16 4;9=1 Io after 8:w5+1 w6+2 w8+1 d9+3 w1+1
calls - 16 5;9=9:w5+1 w6+2 w8+1 d9+3 w1+1",
    )
}

// If the log's device fails, the replay ends too. If it fails in a search, no entry is applied. If
// it fails while an entry's header or data is read, that entry isn't applied.
#[test]
fn log_devices_that_fail_end_a_replay(rt: HostRuntime) {
    assert_replays(
        &rt,
        rt.alloc(),
        "calls 1 16 -;f=1 Io after 0:
calls 3 16 -;f=1 Io after 0:
calls 4 16 -;f=1 Io after 0:
calls 9 16 -;f=1 Io after 2:w5+1 w6+2
calls 1 16 -;m=1 Io after 0:
calls 1 16 -;9=1 Io after 0:
calls 2 16 -;9=1 Io after 0:
calls 3 16 -;9=1 Io after 1:w5+1
calls 4 16 -;9=1 Io after 1:w5+1
calls 5 16 -;9=1 Io after 2:w5+1 w6+2
calls 9 16 -;9=1 Io after 5:w5+1 w6+2 w8+1
calls 1 16 -;0=0:",
    )
}

// Replays the log `MARKS` up to the first mark of exactly the bytes `mark`, and checks the result.
fn check_mark(rt: &(impl Abort + Print), alloc: Global, mark: &[u8], wanted: &str) {
    let image = image_named(rt, alloc, "marks");
    let mut pair = pair_of(rt, alloc, image, u64::MAX, 16, u64::MAX);
    let found = step(rt, alloc, &mut pair, &Upto::Mark(mark));
    assert!(rt; is_told(rt, found.as_str(), wanted, "a mark"));
}

// A replay ends at the first mark that has exactly the given text, whatever its bytes are. A mark
// that only begins with the text doesn't count.
#[test]
fn marks_are_found_by_all_their_bytes(rt: HostRuntime) {
    let alloc = rt.alloc();
    assert_replays(
        &rt,
        alloc,
        "marks - 16 -;mab=1:
marks - 16 -;ma=2:
marks - 16 -;m=3:
marks - 16 -;mb=25 NoSuchMark after 0:",
    );
    check_mark(&rt, alloc, &[0, 255], "4:");
    check_mark(&rt, alloc, &[0; 480], "6:");
    check_mark(&rt, alloc, &[0; 479], "25 NoSuchMark after 0:")
}

// A replay begins where the replay before it ended.
#[test]
fn replays_go_on_from_the_place(rt: HostRuntime) {
    assert_replays(
        &rt,
        rt.alloc(),
        "marks - 16 -;ma=2:;ma=3:;ma=25 NoSuchMark after 0:;1=1:;1=33 PastEntries after 0:;0=0:
flushes - 16 -;f=2:w2+1;f=1:;f=26 NoFlush after 0:",
    )
}

// Entries that the super block doesn't count aren't read.
#[test]
fn stale_entries_are_not_replayed(rt: HostRuntime) {
    assert_replays(
        &rt,
        rt.alloc(),
        "stale - 16 -;2=33 PastEntries after 0:;18446744073709551615=33 PastEntries after 0:;f=26 NoFlush after 0:;m=25 NoSuchMark after 0:;1=1:w5+1;1=33 PastEntries after 0:",
    )
}

// If a reader refuses a call because of its log, it refuses later calls with 22. Only a call for
// too many entries has its own refusal. After any other refusal the reader goes on.
#[test]
fn readers_refuse_after_a_refusal(rt: HostRuntime) {
    assert_replays(
        &rt,
        rt.alloc(),
        "damaged - 16 -;3=33 PastEntries after 0:;2=17 TooLarge after 1:w5+1;1=22 Failed after 0:;f=22 Failed after 0:;m=22 Failed after 0:;2=33 PastEntries after 0:
damaged - 16 -;f=17 TooLarge after 0:;1=22 Failed after 0:
damaged - 5 -;1=27 PastTarget after 0:;1=17 TooLarge after 0:;1=22 Failed after 0:",
    )
}
