// What seats note, and why a step is refused.
use crate::run::{EndTable, Run};
use crate::stop::ShownCause;
use bio::{Bio, CoreEvent, End, Id};
use log_format::Entry;

/// An event of the history, with its index there.
#[derive(Debug, Drop)]
pub struct Own {
    pub place: Id,
    pub event: CoreEvent,
}

/// An entry of the log, with the index of the event that submitted it.
#[derive(Debug, Drop)]
pub struct LogItem {
    pub id: Id,
    pub entry: Entry,
}

/// A request that was passed to the recorded device, and whether it succeeded. If it isn't
/// recorded, `id` is None.
#[derive(Debug, Drop)]
pub struct Done {
    pub id: Option<Id>,
    pub bio: Bio,
    pub ok: bool,
}

/// A call that was passed to the device without being recorded. `place` is the event at which
/// recording had ended. `stop` is the cause of the Stop, or None if a Close ended recording.
#[derive(Clone, Copy, Debug, PartialEq, Eq)]
pub struct UnrecordedCall {
    pub place: Id,
    pub stop: Option<End>,
}

/// For each cause, whether it was reported to a seat as the reason for which logging ended.
#[derive(Clone, Copy, Debug, PartialEq, Eq)]
pub struct ReportedCauses {
    pub full: bool,
    pub device: bool,
    pub memory: bool,
}

/// Why the submission of a request wasn't recorded.
#[derive(Clone, Copy, Debug, PartialEq, Eq)]
pub enum Unrecorded {
    /// Memory ran out outside the core. Nothing changed.
    NoRoom,
    /// Memory ran out in the core. Logging ended.
    Stopped,
}

/// Why an item wasn't placed.
#[derive(Drop)]
pub enum Unplaced<R: Run> {
    /// The list of items has no room. Nothing changed.
    NoRoom,
    /// The log has ended, by this cause.
    Ended(ShownCause<EndTable<R>>),
}
