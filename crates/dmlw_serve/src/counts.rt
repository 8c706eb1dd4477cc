//! How many requests of each kind a client made.
ghost use Rattle.std.specs.Prelude.{◌≡◌, nat_lt};
ghost use Rattle.blockdev.specs.OwnCounts.{one_more};
ghost use Rattle.nbd.specs.Wire.{command_of, has_fua_flag};
ghost use Rattle.dmlw_serve.specs.Counts.{after_change, counts_after, longest, none};

use bio::{MAX_REQUEST_SECTORS, SECTOR_BYTES};
use nbd::{RequestHeader, RequestKind};
use std::fmt;
use std::fmt::{Display, Formatter, Write};

/// How many requests of each kind a client made. Each count stops at 2^64 - 1.
#[derive(Clone, Copy, Debug, PartialEq, Eq)]
pub struct Counts {
    pub reads: u64,
    pub writes: u64,
    pub flushes: u64,
    pub trims: u64,
    /// The writes and trims with FUA.
    pub flagged: u64,
    /// The writes and trims that are too long for one entry of the log, and so are recorded in
    /// parts.
    pub split: u64,
}

impl Counts {
    /// Returns the counts before the first request.
    pub fn new() -> Counts
        ensures { result ≡ none }
    {
        Counts {
            reads: 0,
            writes: 0,
            flushes: 0,
            trims: 0,
            flagged: 0,
            split: 0,
        }
    }

    /// Counts a request. One that the server doesn't offer isn't counted.
    pub fn add(&mut self, header: &RequestHeader)
        ensures { self.new ≡ counts_after (command_of header.now.kind) (has_fua_flag header.now)
            (nat_lt longest header.now.length) self.old }
    {
        match header.command() {
            RequestKind::Read => self.reads = after(self.reads),
            RequestKind::Write => {
                self.writes = after(self.writes);
                self.add_change(header);
            }
            RequestKind::Flush => self.flushes = after(self.flushes),
            RequestKind::Trim => {
                self.trims = after(self.trims);
                self.add_change(header);
            }
            RequestKind::Disconnect | RequestKind::Other => {}
        }
    }

    // Counts the FUA and the parts of a write or a trim.
    fn add_change(&mut self, header: &RequestHeader)
        ensures { self.new ≡ after_change (has_fua_flag header.now)
            (nat_lt longest header.now.length) self.old }
    {
        if header.has_fua() {
            self.flagged = after(self.flagged);
        }
        if u64::from(header.length) > MAX_REQUEST_SECTORS * SECTOR_BYTES {
            self.split = after(self.split);
        }
    }
}

// Returns a count after one more request.
fn after(count: u64) -> u64
    ensures { result ≡ one_more count }
{
    count.saturating_add(1)
}

impl Display for Counts {
    fn fmt<W: Write>(&self, f: &mut Formatter<W>) -> fmt::Result {
        let Counts {
            reads,
            writes,
            flushes,
            trims,
            flagged,
            split,
        } = self;
        write!(
            f,
            "requests: {reads} reads, {writes} writes, {flushes} flushes, {trims} trims; {flagged} with FUA, {split} split"
        )
    }
}
