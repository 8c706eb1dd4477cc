//! The commands of a recorder's script, one for each line of its body.
use bio::{Bytes, Ms};

/// The name of a disk of a script.
#[derive(Clone, Copy, Debug, PartialEq, Eq)]
pub enum DiskName {
    /// The disk that is recorded.
    Data,
    /// The disk that the log is written to.
    Log,
}

/// The options of a write.
#[derive(Clone, Copy, Debug, PartialEq, Eq)]
pub struct WriteOptions {
    /// The device's cache is flushed before the write.
    pub flush: bool,
    /// The data is durable when the write ends.
    pub fua: bool,
    /// The data is marked as metadata.
    pub meta: bool,
}

/// A request that a line of a script submits. Sectors have 512 bytes.
#[derive(Clone, Copy, Debug)]
pub enum Submission {
    /// Writes `byte` to each byte of `count` sectors from sector `first` on. In a script it covers
    /// 1 to 2,048 sectors, all within the top of the data disk. If the log's sectors have 4,096
    /// bytes, `first` and `count` are multiples of 8.
    Write {
        first: u64,
        count: u64,
        byte: u8,
        options: WriteOptions,
    },
    /// An empty flush.
    Flush,
    /// A discard of `count` sectors from sector `first` on. In a script its sectors are limited as
    /// those of a write are.
    Discard {
        first: u64,
        count: u64,
    },
}

/// A line of a script that names no request.
#[derive(Debug, Drop)]
pub enum Step {
    /// Ends the recording.
    Close,
    /// A read of `count` sectors from sector `first` on. In a script its sectors are limited as
    /// those of a write are.
    Read {
        first: u64,
        count: u64,
    },
    /// One turn of the writer.
    Turn,
    /// A mark with this text, which may be empty. In a script each byte is ASCII, and neither zero
    /// nor a line feed. The bytes are shared: cloning them takes no memory.
    Mark {
        text: Bytes,
    },
    /// Sets the time. In a script the time is 0 at first, and never decreases.
    At {
        time: Ms,
    },
    /// A message to a layer over the disk `over`. Layers are counted from 1, the lowest. Reading a
    /// script doesn't check that the layer exists, or that it takes the message. In a script each
    /// byte of the text is ASCII, and neither zero nor a line feed. The bytes are shared: cloning
    /// them takes no memory.
    Message {
        over: DiskName,
        layer: u64,
        text: Bytes,
    },
}

/// One line of the body of a recorder's script.
#[derive(Debug, Drop)]
pub enum Command {
    /// Submits the next request.
    Submit(Submission),
    /// Ends the request with the number `request`: the number of submissions before its submission.
    /// In a script the request was submitted before, and hasn't ended.
    Complete { request: usize },
    /// A line that names no request.
    Step(Step),
}
