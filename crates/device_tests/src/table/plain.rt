// The layers that are stacked, and a plain model of layers over a disk: a list of layers, and one
// byte for each sector of the disk.
use crate::calls::DeviceCall;
use bio::Ms;
use fault_layers::{CallKind, CallVerdict};
use layer_table::{Feature, LayerSpec, Target};

// Table lines for the lower layer, which lies over a disk of 16 sectors and is loaded at time 0.
pub(super) const LOWER: &str = "0 12 linear disk 2
0 12 error
0 12 flakey disk 1 10 5
0 12 flakey disk 1 10 5 1 error_reads
0 12 flakey disk 1 10 5 1 error_writes
0 12 flakey disk 1 10 5 1 drop_writes
0 12 fuse disk 3 9
0 12 dust disk 2 1024";

// Table lines for the upper layer, which is loaded at time 3,000.
pub(super) const UPPER: &str = "0 8 linear disk 4
0 8 error
0 8 flakey disk 4 10 5
0 8 flakey disk 4 10 5 1 error_reads
0 8 flakey disk 4 10 5 1 error_writes
0 8 flakey disk 4 10 5 1 drop_writes
0 8 fuse disk 1 6
0 8 dust disk 2 512
0 8 delay disk 3 1";

// A layer: its table line, and its load time in milliseconds. `passed` counts the writes, discards
// and flushes that it passed; `faults` and `lies` count the calls that it failed and dropped.
#[derive(Debug, Drop)]
pub(super) struct Plain {
    spec: LayerSpec,
    load: u64,
    passed: u64,
    faults: u64,
    lies: u64,
}

impl Plain {
    pub(super) fn new(spec: LayerSpec, load: u64) -> Plain {
        Plain {
            spec,
            load,
            passed: 0,
            faults: 0,
            lies: 0,
        }
    }
}

// Returns whether a flakey layer is down, `since` milliseconds after its load time.
fn is_down(up: u64, down: u64, since: u64) -> bool {
    let turn = up.saturating_add(down).saturating_mul(1000);
    since.checked_rem(turn).unwrap_or(0) >= up.saturating_mul(1000)
}

fn verdict(layer: &Plain, kind: CallKind, now: u64) -> CallVerdict {
    let is_read = kind == CallKind::Read;
    match layer.spec.target {
        // A dust layer passes each call until messages enable it.
        Target::Linear | Target::Dust { .. } => CallVerdict::Pass,
        Target::Delay { read, write, flush } => CallVerdict::Delay(Ms::new(match kind {
            CallKind::Read => read,
            CallKind::Flush => flush,
            _ => write,
        })),
        Target::Error => CallVerdict::Fail,
        Target::Fuse { calls } if is_read || layer.passed < calls => CallVerdict::Pass,
        Target::Fuse { .. } => CallVerdict::Fail,
        Target::Flakey { up, down, feature } => {
            match (is_down(up, down, now.saturating_sub(layer.load)), feature) {
                (false, _) => CallVerdict::Pass,
                (true, Feature::None) => CallVerdict::Fail,
                (true, Feature::ErrorReads) if is_read => CallVerdict::Fail,
                (true, Feature::ErrorWrites) if !is_read => CallVerdict::Fail,
                (true, Feature::DropWrites) if !is_read => CallVerdict::Drop,
                (true, _) => CallVerdict::Pass,
            }
        }
    }
}

// Returns how many calls all these layers failed, and how many they dropped.
pub(super) fn counts(layers: &[Plain]) -> (u64, u64) {
    let mut faults: u64 = 0;
    let mut lies: u64 = 0;
    for layer in layers {
        faults = faults.saturating_add(layer.faults);
        lies = lies.saturating_add(layer.lies);
    }
    (faults, lies)
}

// Makes a call on the disk itself. Returns the byte that a read found, or 0.
fn on_disk(disk: &mut [u8], kind: CallKind, first: usize, byte: u8) -> Option<u8> {
    match kind {
        CallKind::Read => return disk.get(first).copied(),
        CallKind::Write => put(disk, first, byte),
        CallKind::Discard => {
            put(disk, first, 0);
            put(disk, first.saturating_add(1), 0);
        }
        CallKind::Flush => {}
    }
    Some(0)
}

fn put(disk: &mut [u8], sector: usize, byte: u8) {
    if let Some(place) = disk.get_mut(sector) {
        *place = byte;
    }
}

// Makes a call on the topmost layer, which is the last. Returns the byte that a read found, 0 for
// another call, or None if the call failed.
pub(super) fn plain_call(
    layers: &mut [Plain],
    disk: &mut [u8],
    now: u64,
    call: DeviceCall,
) -> Option<u8> {
    let kind = call.kind;
    let mut sector = call.first;
    let mut begun = Ms::new(now);
    for layer in layers.iter_mut().rev() {
        match verdict(layer, kind, begun.milliseconds()) {
            CallVerdict::Pass => {}
            CallVerdict::Delay(by) => begun = begun.later_by(by),
            CallVerdict::Fail => {
                layer.faults = layer.faults.saturating_add(1);
                return None;
            }
            CallVerdict::Drop => {
                layer.lies = layer.lies.saturating_add(1);
                return Some(0);
            }
        }
        sector = sector.saturating_add(layer.spec.offset);
        layer.passed = layer
            .passed
            .saturating_add(u64::from(kind != CallKind::Read));
    }
    on_disk(disk, kind, sector as usize, call.byte)
}
