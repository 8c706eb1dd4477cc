//! The list of all refusals, each with the number and the name that are printed.
ghost use Rattle.std.specs.Prelude.{◌≡◌, ◌-◌, Some, slice_get};
ghost use Rattle.refusals.specs.Table.{all_refusals, row_of};
ghost use Rattle.refusals.specs.Errors.{refusal_text};

use std::fmt;

/// The reasons why the project refuses something. Each refusal has its own number, from 1 to 38,
/// and a name. Only `Memory` and `EndMemory` have the same name.
#[derive(Clone, Copy, Debug, PartialEq, Eq)]
pub enum Refusal {
    /// A device failed in this call.
    Io,
    /// Memory ran out.
    Memory,
    /// A request reaches past the device's end.
    PastEnd,
    /// A request covers over 2,048 sectors.
    TooLong,
    /// A request's data isn't whole sectors, or the request covers no sector.
    NotWhole,
    /// A dust layer has no such message.
    BadMessage,
    /// The block is listed as bad.
    AlreadyBad,
    /// The block isn't listed as bad.
    NotBad,
    /// A table line names no target.
    UnknownTarget,
    /// A table line has a number of words that its target doesn't allow.
    WrongCount,
    /// A table line has a word that is no number where it needs a number.
    BadNumber,
    /// A value of a table line is out of its range.
    OutOfRange,
    /// A log doesn't begin with the magic number.
    BadMagic,
    /// A log is of another format version.
    BadVersion,
    /// A log's sector size is none of 512, 1024, 2048, 4096.
    BadSectorSize,
    /// A mark has sectors or a text that is too long.
    BadMark,
    /// An entry reaches past the largest size that a device can have.
    TooLarge,
    /// Logging ended: the next entry doesn't fit.
    Full,
    /// Logging ended: the log's device failed.
    Device,
    /// Logging ended: memory ran out.
    EndMemory,
    /// A log is shorter than its count of entries needs.
    CutShort,
    /// The log reader has returned an error before.
    Failed,
    /// A mark's text has a zero byte.
    BadText,
    /// Requests are open at the close.
    Busy,
    /// No mark has this text.
    NoSuchMark,
    /// The log has no flush from the given place on.
    NoFlush,
    /// An entry reaches past the target's end.
    PastTarget,
    /// A request isn't aligned to log sectors of 4,096 bytes, or an entry isn't aligned to the log
    /// sectors of its copy.
    Unaligned,
    /// A flakey line has no such feature.
    BadFeature,
    /// A script's line isn't of the grammar.
    BadLine,
    /// A script's id is submitted twice, or isn't open.
    BadId,
    /// A file can't be read or written, or has a length that isn't allowed.
    File,
    /// A command asks for more entries than the log has.
    PastEntries,
    /// A moment is past the last one, or an image hasn't the device's size.
    BadMoment,
    /// The cache machine has no such step.
    BadStep,
    /// A mark comes after the close.
    AfterClose,
    /// The seats at a close aren't the recorder's seats.
    Foreign,
    /// A thread can't be started.
    NoThread,
}

impl Refusal {
    // Returns the refusal's row in the table: its number and its name.
    fn row(self) -> (u8, &'static str)
        ensures number { result.0 ≡ (row_of self).0 }
        ensures name { result.1.now ≡ (row_of self).1 }
    {
        match self {
            Refusal::Io => (1, "Io"),
            Refusal::Memory => (2, "Memory"),
            Refusal::PastEnd => (3, "PastEnd"),
            Refusal::TooLong => (4, "TooLong"),
            Refusal::NotWhole => (5, "NotWhole"),
            Refusal::BadMessage => (6, "BadMessage"),
            Refusal::AlreadyBad => (7, "AlreadyBad"),
            Refusal::NotBad => (8, "NotBad"),
            Refusal::UnknownTarget => (9, "UnknownTarget"),
            Refusal::WrongCount => (10, "WrongCount"),
            Refusal::BadNumber => (11, "BadNumber"),
            Refusal::OutOfRange => (12, "OutOfRange"),
            Refusal::BadMagic => (13, "BadMagic"),
            Refusal::BadVersion => (14, "BadVersion"),
            Refusal::BadSectorSize => (15, "BadSectorSize"),
            Refusal::BadMark => (16, "BadMark"),
            Refusal::TooLarge => (17, "TooLarge"),
            Refusal::Full => (18, "Full"),
            Refusal::Device => (19, "Device"),
            Refusal::EndMemory => (20, "Memory"),
            Refusal::CutShort => (21, "CutShort"),
            Refusal::Failed => (22, "Failed"),
            Refusal::BadText => (23, "BadText"),
            Refusal::Busy => (24, "Busy"),
            Refusal::NoSuchMark => (25, "NoSuchMark"),
            Refusal::NoFlush => (26, "NoFlush"),
            Refusal::PastTarget => (27, "PastTarget"),
            Refusal::Unaligned => (28, "Unaligned"),
            Refusal::BadFeature => (29, "BadFeature"),
            Refusal::BadLine => (30, "BadLine"),
            Refusal::BadId => (31, "BadId"),
            Refusal::File => (32, "File"),
            Refusal::PastEntries => (33, "PastEntries"),
            Refusal::BadMoment => (34, "BadMoment"),
            Refusal::BadStep => (35, "BadStep"),
            Refusal::AfterClose => (36, "AfterClose"),
            Refusal::Foreign => (37, "Foreign"),
            Refusal::NoThread => (38, "NoThread"),
        }
    }

    /// Returns the number, from 1 to 38. In `all_refusals`, the refusal is at index `number - 1`,
    /// so no other refusal has the number.
    #[tactic(auto, using(crate::specs::Table::number_names))]
    pub fn number(self) -> u8
        ensures number { result ≡ (row_of self).0 }
        ensures place { slice_get all_refusals (result - 1) ≡ Some self }
    {
        self.row().0
    }

    /// Returns the name that is printed after the number.
    pub fn name(self) -> &'static str
        ensures { result.now ≡ (row_of self).1 }
    {
        self.row().1
    }
}

impl fmt::Display for Refusal {
    ghost output = { λ refusal. Some (refusal_text refusal) };

    fn fmt<W: fmt::Write>(&self, f: &mut fmt::Formatter<W>) -> fmt::Result {
        let number = self.number();
        let name = self.name();
        write!(f, "{number} {name}")
    }
}
