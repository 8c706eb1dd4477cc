//! Streams that a command writes to, which may be full, closed or stuck.
use std::alloc::Global;
use std::io;
use std::io::Write;

/// A stream in memory that takes `room` bytes. If it is stuck, it can't be flushed.
#[derive(Drop)]
pub struct Outlet {
    taken: Vec<u8>,
    room: usize,
    // The error of a write if no room is left, and of a flush if the stream is stuck.
    kind: io::ErrorKind,
    is_stuck: bool,
    // Whether the stream took bytes that weren't flushed since.
    is_held: bool,
}

impl Outlet {
    /// Returns a stream that takes all bytes.
    pub fn open(alloc: Global) -> Outlet {
        Outlet {
            taken: Vec::new(alloc),
            room: usize::MAX,
            kind: io::ErrorKind::Other,
            is_stuck: false,
            is_held: false,
        }
    }

    /// Returns the stream that a word names. `full:<n>`, `memory:<n>` and `pipe:<n>` take `n`
    /// bytes. The error of the next write is that there is no room, no memory, or no reader.
    /// `stuck:full` and `stuck:memory` take all bytes, and fail a flush with the error of `full` or
    /// `memory`.
    pub fn named(alloc: Global, word: &str) -> Option<Outlet> {
        let (how, what) = word.split_once(':')?;
        let is_stuck = how == "stuck";
        let mut outlet = Outlet::open(alloc);
        outlet.kind = match if is_stuck { what } else { how } {
            "full" => io::ErrorKind::StorageFull,
            "memory" => io::ErrorKind::OutOfMemory,
            "pipe" => io::ErrorKind::BrokenPipe,
            _ => return None,
        };
        outlet.is_stuck = is_stuck;
        if !is_stuck {
            outlet.room = what.parse::<usize>().ok()?;
        }
        Some(outlet)
    }

    /// Returns a stream that takes `room` bytes.
    pub fn narrow(alloc: Global, room: usize) -> Outlet {
        let mut outlet = Outlet::open(alloc);
        outlet.room = room;
        outlet
    }

    /// Returns a stream that can't be flushed.
    pub fn stuck(alloc: Global) -> Outlet {
        let mut outlet = Outlet::open(alloc);
        outlet.is_stuck = true;
        outlet
    }

    /// Returns the bytes that the stream took.
    pub fn taken(&self) -> &[u8] {
        &self.taken
    }

    /// Returns whether the stream has bytes that could have been flushed but weren't.
    pub fn is_held(&self) -> bool {
        self.is_held && !self.is_stuck
    }
}

impl Write for Outlet {
    fn write(&mut self, buf: &[u8]) -> io::Result<usize> {
        let count = buf.len().min(self.room);
        if count == 0 && !buf.is_empty() {
            self.is_held = false;
            return Err(io::Error::from(self.kind));
        }
        self.taken.extend_from_slice(&buf[..count])?;
        self.room -= count;
        self.is_held = true;
        Ok(count)
    }

    fn flush(&mut self) -> io::Result<()> {
        if self.is_stuck {
            return Err(io::Error::from(self.kind));
        }
        self.is_held = false;
        Ok(())
    }
}
