//! Tests of stacks of layers, each made from a table line.
ghost use Rattle.std.specs.Prelude.{◌≡◌};
ghost use Rattle.std.specs.List.{AllByRecursion};
ghost use Rattle.fault_layers.specs.declared.fault_rule.Target.TheVariants.{Linear};
ghost use Rattle.layer_table.specs.TableLines.{IsLayerSpec};

use crate::calls::{DeviceCall, ask, asked};
use bio::Ms;
use blockdev::BlockDev;
use fault_layers::CallKind;
use layer_table::{LayerSpec, Stack, Target, parse_line};
use plain::{LOWER, Plain, UPPER, counts, plain_call};
use refusals::Refusal;
use sector_disk::SectorDisk;
use std::alloc::Global;
use std::io::Print;
use std::process::Abort;
use test_devices::is_same;

mod plain;

// The times of the rounds, in milliseconds: before and at each change of the flakey layers, and the
// last two times.
const MOMENTS: [u64; 12] = [
    0,
    2_999,
    9_999,
    10_000,
    12_999,
    13_000,
    14_999,
    15_000,
    17_999,
    18_000,
    18_446_744_073_709_551_614,
    18_446_744_073_709_551_615,
];

// Parses a table line, which must be right.
fn spec_of(rt: &impl Abort, line: &str) -> LayerSpec
    ensures { IsLayerSpec result }
{
    match parse_line(line.as_bytes()) {
        Ok(spec) => spec,
        Err(_) => panic!(rt; "{line}"),
    }
}

// Returns the stack, whether or not a layer was refused, and the refusal.
fn either<D: Drop>(put: Result<D, (D, Refusal)>) -> (D, Option<Refusal>) {
    match put {
        Ok(device) => (device, None),
        Err((device, refusal)) => (device, Some(refusal)),
    }
}

// Returns the disk under the layers of these lines, the lowest first, each loaded at the time after
// its line. A line that is refused adds no layer. Checks that the refusal of the last line is
// `ends`.
fn stack_of(
    rt: &impl Abort,
    alloc: Global,
    disk: SectorDisk,
    lines: &[(&str, u64)],
    ends: Option<Refusal>,
) -> Stack {
    let mut stack = Stack::new(disk);
    let mut refused = None;
    for (line, load) in lines {
        let (next, refusal) = either(stack.over(alloc, spec_of(rt, line), Ms::new(*load)));
        stack = next;
        refused = refusal;
    }
    assert_eq!(rt; refused, ends);
    stack
}

// Makes `calls` on a disk under the layers of these lines. Returns their result, and the disk's
// bytes afterwards.
fn on_stack<T: Drop, F: FnOnce(&mut Stack) -> T>(
    rt: &impl Abort,
    alloc: Global,
    disk: SectorDisk,
    lines: &[(&str, u64)],
    ends: Option<Refusal>,
    calls: F,
) -> (T, Vec<u8>)
    requires { F.IsAlwaysCallable calls }
{
    let stack = stack_of(rt, alloc, disk, lines, ends);
    asked(stack, calls, |stack| {
        stack.into_disk().into_bytes().expect(rt, "memory")
    })
}

// The calls of a round, in this order.
const KINDS: [CallKind; 7] = [
    CallKind::Read,
    CallKind::Write,
    CallKind::Read,
    CallKind::Discard,
    CallKind::Flush,
    CallKind::Write,
    CallKind::Read,
];

// Returns a round's call of this kind, of one sector, or of two sectors for a discard.
fn call_in(round: usize, kind: CallKind) -> DeviceCall {
    let first = round as u64 % 4;
    DeviceCall {
        kind,
        first,
        count: if kind == CallKind::Discard { 2 } else { 1 },
        byte: (round % 200) as u8 + 1,
        fua: first == 1,
    }
}

// Makes a call. Returns the byte that a read found, 0 for another call, or None if the call failed.
fn told<D: BlockDev + Drop>(
    rt: &impl Abort,
    device: &mut D,
    now: Ms,
    call: DeviceCall,
) -> Option<u8> {
    let answer = ask(rt, device, now, call);
    // The call may also end a millisecond later, since one of the layers may delay it.
    match answer.end {
        Ok(end) if end != now && end != now.later_by(Ms::new(1)) => None,
        Ok(_) if call.kind == CallKind::Read => Some(answer.byte()),
        Ok(_) => Some(0),
        Err(_) => None,
    }
}

// Makes the calls of all rounds on a device and on the plain model, and compares the answers.
fn play<D: BlockDev + Drop>(
    rt: &(impl Abort + Print),
    device: &mut D,
    layers: &mut [Plain],
    disk: &mut [u8],
) {
    for (round, now) in MOMENTS.into_iter().enumerate() {
        for kind in KINDS {
            let call = call_in(round, kind);
            let found = (now, kind, told(rt, device, Ms::new(now), call));
            let wanted = (now, kind, plain_call(layers, disk, now, call));
            assert!(rt; is_same(rt, &found, &wanted, "told in plain words"));
        }
    }
}

// Returns the plain model of the layers of these lines.
fn plain_layers(rt: &impl Abort, alloc: Global, lines: &[(&str, u64)]) -> Vec<Plain> {
    let mut layers = Vec::new(alloc);
    for (line, load) in lines {
        layers
            .push(Plain::new(spec_of(rt, line), *load))
            .expect(rt, "memory");
    }
    layers
}

// Plays all rounds on `device` and on the model of its layers. Compares the answers, and the counts
// of faults and lies. Returns the content of the model's disk.
fn play_all<D: BlockDev + Drop>(
    rt: &(impl Abort + Print),
    alloc: Global,
    device: &mut D,
    lines: &[(&str, u64)],
) -> [u8; 16] {
    let mut layers = plain_layers(rt, alloc, lines);
    let mut disk = [0; 16];
    play(rt, device, &mut layers, &mut disk);
    let found = (device.faults(), device.lies());
    assert!(rt; is_same(rt, &found, &counts(&layers), "faults and lies"));
    disk
}

// Plays all rounds on these layers, and compares the disk below with the model's disk.
fn check(rt: &(impl Abort + Print), alloc: Global, lines: &[(&str, u64)]) {
    let under = SectorDisk::new(alloc, 16).expect(rt, "memory");
    let (disk, image) = on_stack(rt, alloc, under, lines, None, |stack| {
        play_all(rt, alloc, stack, lines)
    });
    for (sector, value) in disk.iter().enumerate() {
        assert_eq!(rt; image.get(sector * 512), Some(value));
    }
}

// Checks each upper layer over each lower layer, below the layer of `top`, if it has one.
fn check_each(rt: &(impl Abort + Print), alloc: Global, top: &[(&str, u64)]) {
    for lower in LOWER.split('\n') {
        for upper in UPPER.split('\n') {
            match top {
                [] => check(rt, alloc, &[(lower, 0), (upper, 3_000)]),
                [top, ..] => check(rt, alloc, &[(lower, 0), (upper, 3_000), *top]),
            }
        }
    }
}

#[test]
fn layers_over_layers(rt: HostRuntime) {
    check_each(&rt, rt.alloc(), &[])
}

#[test]
fn fuses_over_layers(rt: HostRuntime) {
    for calls in 0..7 {
        let top = format!(in rt.alloc(); "0 8 fuse disk 0 {calls}").expect(&rt, "memory");
        check_each(&rt, rt.alloc(), &[(top.as_str(), 0)]);
    }
}

// Returns the specification of a linear layer of `length` sectors from sector `offset` on.
fn linear(length: u64, offset: u64) -> LayerSpec
    ensures { result ≡ record { length = length; offset = offset; target = Linear } }
{
    LayerSpec {
        length,
        offset,
        target: Target::Linear,
    }
}

// Returns the stack's sector count, or the refusal.
fn sectors_of<D: BlockDev + Drop>(put: Result<D, (D, Refusal)>) -> Result<u64, Refusal> {
    match put {
        Ok(device) => Ok(device.sectors()),
        Err((_, refusal)) => Err(refusal),
    }
}

// Puts these layers over a disk of 16 sectors. Returns the sector count of the topmost layer, or
// the refusal.
fn under(rt: &impl Abort, alloc: Global, layers: &[LayerSpec]) -> Result<u64, Refusal>
    requires { AllByRecursion IsLayerSpec layers.now }
{
    let disk = SectorDisk::new(alloc, 16).expect(rt, "memory");
    sectors_of(Stack::new(disk).layered(alloc, layers, Ms::new(0)))
}

#[test]
fn layers_are_put_over_at_once(rt: HostRuntime) {
    let alloc = rt.alloc();
    let four = [linear(12, 4), linear(8, 4), linear(4, 4), linear(2, 2)];
    assert!(rt; under(&rt, alloc, &[]) == Ok(16));
    assert!(rt; under(&rt, alloc, &four) == Ok(2));
    let past = [linear(12, 4), linear(8, 5)];
    assert!(rt; under(&rt, alloc, &past) == Err(Refusal::OutOfRange));
    let five = [
        linear(12, 4),
        linear(8, 4),
        linear(4, 4),
        linear(2, 2),
        linear(1, 0),
    ];
    assert!(rt; under(&rt, alloc, &five) == Err(Refusal::OutOfRange));
}
