//! The system's time, a file whose lines are marks, and the counts of a client's requests.
use crate::counts::Counts;
use bio::{End, Ms};
use nbd::{Host, RequestHeader};
use std::alloc::{AllocError, Global};
use std::io::{Read, Seek, SeekFrom, Write};
use std::rt::Files;
use std::time::{Clock, Instant};
use std::{fs, io};

// The file of marks is read in pieces of this many bytes.
const PIECE: usize = 512;

/// The system's time, and the lines that are appended to a file, as marks. The client's requests are
/// counted. What is noted of the log goes to `err`.
#[derive(Drop)]
pub struct Surroundings<'a, R: Clock + Files, E: Write + Drop> {
    runtime: &'a R,
    alloc: Global,
    begun: Instant,
    marks: Option<Lines<R::File>>,
    counts: Counts,
    err: E,
}

// The lines of a file, as far as they were read.
#[derive(Drop)]
struct Lines<F: Read> {
    file: F,
    // What was read and not returned yet.
    read: Vec<u8>,
}

impl<'a, R: Clock + Files, E: Write + Drop> Surroundings<'a, R, E> {
    /// Returns the surroundings of a session that begins now. The lines that stand in the file
    /// `marks` by now are no marks.
    pub fn new(
        runtime: &'a R,
        alloc: Global,
        marks: Option<&str>,
        err: E,
    ) -> io::Result<Surroundings<'a, R, E>> {
        let marks = match marks {
            Some(name) => Some(lines_of(runtime, alloc, name)?),
            None => None,
        };
        Ok(Surroundings {
            runtime,
            alloc,
            begun: Instant::now(runtime)?,
            marks,
            counts: Counts::new(),
            err,
        })
    }

    /// Returns how many requests of each kind came so far.
    pub fn counts(&self) -> Counts {
        self.counts
    }
}

// Opens a file behind its last line.
fn lines_of<R: Files>(runtime: &R, alloc: Global, name: &str) -> io::Result<Lines<R::File>> {
    let mut file = fs::open(runtime, name)?;
    file.seek(SeekFrom::End(0))?;
    Ok(Lines {
        file,
        read: Vec::new(alloc),
    })
}

impl<F: Read> Lines<F> {
    // Returns the next whole line of the file, if there is one by now.
    fn next(&mut self, alloc: Global) -> io::Result<Option<Vec<u8>>> {
        for _ in 0..u64::MAX {
            if let Some(end) = self.read.iter().position(|byte| *byte == b'\n') {
                return Ok(Some(self.take(alloc, end)?));
            }
            let mut piece = [0; PIECE];
            let count = self.file.read(&mut piece)?;
            if count == 0 {
                return Ok(None);
            }
            self.read.extend_from_slice(&piece[..count])?;
        }
        Ok(None)
    }

    // Returns the first `end` bytes that were read, and drops the end of the line behind them.
    fn take(&mut self, alloc: Global, end: usize) -> Result<Vec<u8>, AllocError> {
        let line = Vec::from_slice(alloc, self.read.get(..end).unwrap_or_default())?;
        let rest = Vec::from_slice(
            alloc,
            self.read.get(end.saturating_add(1)..).unwrap_or_default(),
        )?;
        self.read = rest;
        Ok(line)
    }
}

impl<R: Clock + Files, E: Write + Drop> Host for Surroundings<'_, R, E> {
    fn now(&mut self) -> Ms {
        match self.begun.elapsed(self.runtime) {
            Ok(time) => Ms::new(u64::try_from(time.as_millis()).unwrap_or(u64::MAX)),
            Err(_) => Ms::new(0),
        }
    }

    fn next_mark(&mut self) -> Option<Vec<u8>> {
        match &mut self.marks {
            Some(lines) => lines.next(self.alloc).unwrap_or(None),
            None => None,
        }
    }

    fn request_came(&mut self, header: &RequestHeader) {
        self.counts.add(header);
    }

    fn logging_ended(&mut self, cause: End) {
        let _ = writeln!(self.err, "dmlw: the session goes on unrecorded: {cause}");
    }
}
