//! Tests of a device with a cache: which runs it takes, and what they leave.

use crate::verdicts::{ROWS, events_of, image_of};
use bio::{CoreEvent, Id};
use judge::{First, is_lawful};
use refusals::{Fault, Refusal};
use std::alloc::Global;
use std::process::Abort;
use test_devices::{holds, is_told, rows_are_told};
use world::{Step, StepError, World, reach};

// Returns a device that holds `first`, without a partial last sector.
fn world_of(rt: &impl Abort, alloc: Global, first: &[u8]) -> World {
    let whole = first.len() / 512 * 512;
    World::new(alloc, &first[..whole]).expect(rt, "memory")
}

// Takes a step, if the events are lawful for the device.
fn take(world: &mut World, events: &[CoreEvent], step: &Step) -> Result<(), StepError> {
    if !is_lawful(events, (world.image().len() / 512) as u64) {
        return Err(StepError::BadStep);
    }
    world.step(events, step)
}

// Returns whether a device that held `first` takes each step of `run`, and then holds `image`.
fn leaves(
    rt: &impl Abort,
    alloc: Global,
    events: &[CoreEvent],
    first: &[u8],
    run: &[Step],
    image: &[u8],
) -> bool {
    let mut world = world_of(rt, alloc, first);
    for step in run {
        if take(&mut world, events, step).is_err() {
            return false;
        }
    }
    world.image() == image
}

// Returns the steps as text, separated by commas.
fn run_text(rt: &impl Abort, alloc: Global, run: &[Step]) -> String {
    let mut text = String::new(alloc);
    for step in run {
        if !text.is_empty() {
            text.push_str(",").expect(rt, "memory");
        }
        write!(text, "{step}").expect(rt, "memory");
    }
    text
}

// Returns a run that leaves `image` after `moment` events, as text; or `none` if there is none. The
// device must take this run.
fn path(
    rt: &impl Abort,
    alloc: Global,
    events: &[CoreEvent],
    moment: u64,
    first: &[u8],
    image: &[u8],
) -> String {
    if image.len() % 512 != 0
        || first.len() != image.len()
        || !is_lawful(events, (image.len() / 512) as u64)
    {
        return String::from_str(alloc, "unlawful").expect(rt, "memory");
    }
    match reach(alloc, events, moment, First::Image(first), image).expect(rt, "memory") {
        Some(run) => {
            if leaves(rt, alloc, events, first, &run, image) {
                run_text(rt, alloc, &run)
            } else {
                String::from_str(alloc, "refused").expect(rt, "memory")
            }
        }
        None => String::from_str(alloc, "none").expect(rt, "memory"),
    }
}

// Returns a run for a row `sectors|events|moment|first|image`. Both images are zeroes except for
// the sectors that are named.
fn path_of(rt: &impl Abort, alloc: Global, row: &str) -> String {
    let mut parts = row.split("|");
    let sectors = parts.next().unwrap_or_default().parse::<u8>().unwrap_or(0);
    let events = events_of(rt, alloc, parts.next().unwrap_or_default());
    let moment = parts.next().unwrap_or_default().parse::<u64>().unwrap_or(0);
    let first = image_of(rt, alloc, sectors, parts.next().unwrap_or_default());
    let image = image_of(rt, alloc, sectors, parts.next().unwrap_or_default());
    path(rt, alloc, &events, moment, &first, &image)
}

// Rows `sectors|events|moment|first|image=run`. Two writes of one sector, at moments before and
// after a flush. An open request, and a request that failed; a discard; a flush that failed. No
// sector, with a mark, a stop and a close; no event.
const RUNS: &str =
    "16|w 3 1,w 3 2,c 0,c 1,f,c 4|4||=submit 0,land 0 3,submit 1,land 1 3,end 0 ok,end 1 ok,power
16|w 3 1,w 3 2,c 0,c 1,f,c 4|4||3:1=submit 0,submit 1,land 1 3,land 0 3,destage 3,end 0 ok,end 1 ok,power
16|w 3 1,w 3 2,c 0,c 1,f,c 4|4||3:2=submit 0,land 0 3,submit 1,end 0 ok,land 1 3,destage 3,end 1 ok,power
16|w 3 1,w 3 2,c 0,c 1,f,c 4|4||3:3=none
16|w 3 1,w 3 2,c 0,c 1,f,c 4|6||3:1=submit 0,submit 1,land 1 3,destage 3,land 0 3,destage 3,end 0 ok,end 1 ok,submit 4,end 4 ok,power
16|w 3 1,w 3 2,c 0,c 1,f,c 4|6||3:2=submit 0,land 0 3,destage 3,submit 1,end 0 ok,land 1 3,destage 3,end 1 ok,submit 4,end 4 ok,power
16|w 3 1,w 3 2,c 0,c 1,f,c 4|6||=none
16|w 5 1,w 5 2|2||5:2=submit 0,submit 1,land 1 5,destage 5,power
16|w 5 1,x 0|2||=submit 0,end 0 failed,power
16|w 5 1,x 0|2||5:1=submit 0,land 0 5,destage 5,end 0 failed,power
8|d 1|1|1:9 2:9|2:9=submit 0,land 0 1,destage 1,power
16|w 5 1,c 0,f,x 2|4||=submit 0,land 0 5,end 0 ok,submit 2,end 2 failed,power
0|f,c 0,m 0 120,f,stop,c 3,close|9||=submit 0,end 0 ok,submit 3,end 3 ok,power
4||0|3:1|3:1=power";

#[test]
fn runs_are_reached(rt: HostRuntime) {
    let alloc = rt.alloc();
    assert!(rt; rows_are_told(&rt, RUNS, |row| path_of(&rt, alloc, row)));
}

// If the judge allows the image of a row, a run leaves the image; otherwise no run does.
#[test]
fn possible_images_are_reached(rt: HostRuntime) {
    let alloc = rt.alloc();
    for row in ROWS.split("\n") {
        let (asked, verdict) = row.split_once("=").unwrap_or_default();
        let told = path_of(&rt, alloc, asked);
        let wanted = if verdict == "yes" {
            told.as_str().ends_with("power")
        } else {
            told.as_str() == "none"
        };
        assert!(rt; holds(&rt, wanted, row));
    }
}

// Returns the step that this text means.
fn step_of(text: &str) -> Step {
    let mut words = text.split(" ");
    let word = words.next().unwrap_or_default();
    let number = words.next().unwrap_or_default().parse::<u64>().unwrap_or(0);
    let last = words.next().unwrap_or_default();
    match word {
        "submit" => Step::Submit(Id::new(number)),
        "land" => Step::Land(Id::new(number), last.parse::<u64>().unwrap_or(0)),
        "destage" => Step::Destage(number),
        "end" => Step::End(Id::new(number), last == "ok"),
        _ => Step::Power,
    }
}

// Makes the steps of a row `events|steps`. Returns the answer to the last step: `ok`, or its
// refusal.
fn answer_of(rt: &impl Abort, alloc: Global, row: &str) -> String {
    let (list, steps) = row.split_once("|").unwrap_or_default();
    let events = events_of(rt, alloc, list);
    let image = image_of(rt, alloc, 8, "");
    let mut world = world_of(rt, alloc, &image);
    let mut answer: Result<(), StepError> = Ok(());
    for text in steps.split(",") {
        answer = take(&mut world, &events, &step_of(text));
    }
    match answer {
        Ok(()) => String::from_str(alloc, "ok").expect(rt, "memory"),
        Err(error) => {
            let fault = Fault {
                line: None,
                refusal: Refusal::from(error),
            };
            format!(in alloc; "{fault}").expect(rt, "memory")
        }
    }
}

// Rows `events|steps=the answer to the last step`. A second submission, and a submission of an end.
// A sector lands before its submission, after its end, in another sector, and twice. A destage of a
// sector before anything lands in it, and past the device's end. Ends before a landing, or with
// half of the sectors landed. A FUA write ends before it is destaged, and a flush while a write is
// only in the cache. Steps after the power failed.
const STEPS: &str = "w 3 1|submit 0=ok
w 3 1|submit 0,submit 0=35 BadStep
w 3 1,c 0|submit 1=35 BadStep
w 3 1|submit 7=35 BadStep
w 3 1|land 0 3=35 BadStep
w 3 1|submit 0,land 0 3=ok
w 3 1|submit 0,end 0 failed,land 0 3=35 BadStep
w 3 1|submit 0,land 0 4=35 BadStep
w 3 1|submit 0,land 0 3,land 0 3=35 BadStep
w 3 1|destage 3=35 BadStep
w 3 1|submit 0,land 0 3,destage 3=ok
w 3 1|submit 0,land 0 3,destage 3,destage 3=ok
w 3 1|submit 0,destage 99=35 BadStep
w 3 1|end 0 failed=35 BadStep
w 3 1|submit 0,end 0 failed=ok
w 3 1|submit 0,end 0 ok=35 BadStep
w 3 1|submit 0,land 0 3,end 0 ok=ok
w 3 1|submit 0,land 0 3,end 0 ok,end 0 ok=35 BadStep
w3 3 1|submit 0,land 0 3,land 0 5,end 0 ok=35 BadStep
w3 3 1|submit 0,land 0 3,land 0 5,land 0 4,end 0 ok=ok
fua 3 1|submit 0,land 0 3,end 0 ok=35 BadStep
fua 3 1|submit 0,land 0 3,destage 3,end 0 ok=ok
fua 3 1,w 3 2|submit 0,submit 1,land 1 3,destage 3,land 0 3,end 0 ok=35 BadStep
w 3 1,f|submit 0,land 0 3,end 0 ok,submit 1,end 1 ok=35 BadStep
w 3 1,f|submit 0,land 0 3,end 0 ok,submit 1,end 1 failed=ok
w 3 1,f|submit 0,land 0 3,end 0 ok,submit 1,destage 3,end 1 ok=ok
w 3 1,f|submit 0,submit 1,land 0 3,end 0 ok,end 1 ok=ok
w 3 1,f|submit 0,land 0 3,end 0 failed,submit 1,end 1 ok=ok
|power=ok
|power,power=35 BadStep
w 3 1|power,submit 0=35 BadStep
w 3 1|submit 0,land 0 3,power,destage 3=35 BadStep";

#[test]
fn steps_are_answered(rt: HostRuntime) {
    let alloc = rt.alloc();
    assert!(rt; rows_are_told(&rt, STEPS, |row| answer_of(&rt, alloc, row)));
}

// Rows `events|steps=the image that they leave`. If a write lands after a destage, it isn't durable
// until the next destage. A discard leaves zeroes.
const IMAGES: &str = "w 3 1,w 3 2|submit 0,submit 1,land 0 3,destage 3,land 1 3=3:1
w 3 1,w 3 2|submit 0,submit 1,land 0 3,destage 3,land 1 3,destage 3=3:2
w 3 1,w 3 2|submit 0,submit 1,land 1 3,land 0 3,destage 3,power=3:1
w 3 1,d 3|submit 0,submit 1,land 0 3,destage 3,land 1 3,destage 3=
w3 0 7|submit 0,land 0 2,land 0 0,destage 2,destage 0=0:7 2:7";

// Returns whether the steps of a row leave its image.
fn is_left(rt: &impl Abort, alloc: Global, row: &str) -> bool {
    let (asked, words) = row.split_once("=").unwrap_or_default();
    let (list, steps) = asked.split_once("|").unwrap_or_default();
    let events = events_of(rt, alloc, list);
    let first = image_of(rt, alloc, 8, "");
    let mut world = world_of(rt, alloc, &first);
    for text in steps.split(",") {
        if take(&mut world, &events, &step_of(text)).is_err() {
            return false;
        }
    }
    let image = image_of(rt, alloc, 8, words);
    world.image() == image.as_slice()
}

#[test]
fn images_are_left(rt: HostRuntime) {
    for row in IMAGES.split("\n") {
        assert!(rt; holds(&rt, is_left(&rt, rt.alloc(), row), row));
    }
}

#[test]
fn errors_are_compared(rt: HostRuntime) {
    assert!(rt; StepError::BadStep != StepError::Memory);
    assert!(rt; Refusal::from(StepError::Memory) == Refusal::Memory);
    assert!(rt; Step::Power != Step::Destage(3));
    assert!(rt; Step::End(Id::new(1), true) == step_of("end 1 ok"));
    let shown = format!(in rt.alloc(); "{}, {}", StepError::BadStep, StepError::Memory).expect(
        &rt, "memory",
    );
    let wanted = "the device can't take this step, no memory";
    assert!(rt; is_told(&rt, shown.as_str(), wanted, "errors"));
}
