// Counts with which fault commands that read a log ended.
use std::fmt;

/// The faults that reading a log can have; after them those that only a replay can have.
const FAULTS: [&str; 10] = [
    "13 BadMagic",
    "14 BadVersion",
    "15 BadSectorSize",
    "16 BadMark",
    "17 TooLarge",
    "21 CutShort",
    "25 NoSuchMark",
    "26 NoFlush",
    "27 PastTarget",
    "33 PastEntries",
];

/// Reading a log can have the first `LOG_FAULTS` faults.
pub const LOG_FAULTS: usize = 6;

/// A replay can have all faults.
pub const REPLAY_FAULTS: usize = 10;

/// How many commands ended without a fault, and how many with each of the first `known` faults.
#[derive(Drop)]
pub struct FaultCounts {
    known: usize,
    whole: u64,
    by_fault: [u64; 10],
}

impl FaultCounts {
    /// Returns counts of 0. Only the first `known` faults are possible.
    pub fn new(known: usize) -> FaultCounts {
        FaultCounts {
            known,
            whole: 0,
            by_fault: [0; 10],
        }
    }

    /// Counts a command that ended with this status and this error output. Returns false if this
    /// end isn't possible.
    pub fn count(&mut self, status: u8, err: &str) -> bool {
        if err.is_empty() {
            self.whole = self.whole.saturating_add(1);
            return status == 0;
        }
        let fault = fault_of(err);
        let counts = self.by_fault.iter_mut().take(self.known);
        for (name, count) in FAULTS.iter().zip(counts) {
            if *name == fault {
                *count = count.saturating_add(1);
                return status == 1;
            }
        }
        false
    }
}

// Returns the number and name of a fault from its line, without ` after <n> entries`.
fn fault_of(err: &str) -> &str {
    let line = err.strip_prefix("dmlw: ").unwrap_or_default();
    let line = line.strip_suffix("\n").unwrap_or_default();
    match line.split_once(" after ") {
        Some((fault, _)) => fault,
        None => line,
    }
}

impl fmt::Display for FaultCounts {
    fn fmt<W: fmt::Write>(&self, f: &mut fmt::Formatter<W>) -> fmt::Result {
        write!(f, "{} with no fault", self.whole)?;
        for (name, count) in FAULTS.iter().zip(self.by_fault.iter()) {
            if *count > 0 {
                write!(f, ", {count} with {name}")?;
            }
        }
        Ok(())
    }
}
