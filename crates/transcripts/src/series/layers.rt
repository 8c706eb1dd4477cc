// Layers under a log, and how many calls of a script pass them.
use std::alloc::{AllocError, Global};

/// A layer over a log's disk of 32 sectors.
#[derive(Clone, Copy, PartialEq, Eq)]
pub enum LogLayer {
    Linear,
    Error,
    /// It is up for ten seconds, then down for five.
    Flakey,
    /// Block 3 of it fails one write.
    Dust,
    Delay,
}

// The layers of which the stacks are made.
const LAYERS: [LogLayer; 5] = [
    LogLayer::Linear,
    LogLayer::Error,
    LogLayer::Flakey,
    LogLayer::Dust,
    LogLayer::Delay,
];

/// The number of stacks with at most three layers: 1 + 5 + 25 + 125.
pub const STACKS: u64 = 156;

/// A stack has at most this many layers.
const DEPTH: u64 = 3;

/// At this time in milliseconds the flakey layer is down.
pub const LATE: u64 = 12_000;

/// How many calls of a whole script change the log's disk. One makes the log. Two write the write's
/// header and data, and two more the entries of the flush and of the end mark. The last two settle
/// the three entries: a flush, and a write of the super block.
pub const WHOLE_RUN: u64 = 7;

impl LogLayer {
    /// Returns the layer's table line.
    pub fn line(self) -> &'static str {
        match self {
            LogLayer::Linear => "0 32 linear disk 0",
            LogLayer::Error => "0 32 error",
            LogLayer::Flakey => "0 32 flakey disk 0 10 5",
            LogLayer::Dust => "0 32 dust disk 0 512",
            LogLayer::Delay => "0 32 delay disk 0 1 disk 0 2 disk 0 3",
        }
    }

    // Returns how many of a script's calls pass the layer until it fails one. The log is made at
    // time 0, and the rest is done at `moment`. Only the fourth call writes sector 3 of the log,
    // which is bad in a dust layer.
    fn passes(self, moment: u64) -> u64 {
        match self {
            LogLayer::Linear | LogLayer::Delay => WHOLE_RUN,
            LogLayer::Error => 0,
            LogLayer::Flakey => { if moment == LATE { 1 } else { WHOLE_RUN } }
            LogLayer::Dust => 3,
        }
    }
}

/// Returns how many of a script's calls pass these layers and a fuse over them until one fails.
pub fn passed(layers: &[LogLayer], moment: u64, fuse: Option<u64>) -> u64 {
    let mut passed = fuse.unwrap_or(WHOLE_RUN).min(WHOLE_RUN);
    for layer in layers {
        passed = passed.min(layer.passes(moment));
    }
    passed
}

/// Returns stack number `number`, which is below `STACKS`. Its layers are the number's digits in
/// base five, from the lowest on, with the digits one to five.
pub fn stack_of(alloc: Global, number: u64) -> Result<Vec<LogLayer>, AllocError> {
    let mut layers = Vec::new(alloc);
    let mut rest = number;
    for _ in 0..DEPTH {
        if rest > 0 {
            rest -= 1;
            layers.push(layer_at(rest % 5))?;
            rest /= 5;
        }
    }
    Ok(layers)
}

// Returns the layer at index `number` of the five.
fn layer_at(number: u64) -> LogLayer {
    LAYERS
        .get(number as usize)
        .copied()
        .unwrap_or(LogLayer::Linear)
}
