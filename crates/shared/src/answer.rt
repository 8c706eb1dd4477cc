// The answers to the requests and marks of a seat.
use bio::{BadBio, DevError, End};
use refusals::Refusal;
use thiserror::Error;

/// The answer to a request. `C` is the `Receipt` of the seat's recorder.
#[derive(Debug, Drop)]
pub enum Answer<C> {
    /// The request succeeded.
    Done,
    /// The request is a read that succeeded; these are the bytes.
    Read(Vec<u8>),
    /// The request is a write with FUA that succeeded; this is the receipt of its entry. A close
    /// that gets the receipt finds that each log that a crash leaves has the entry.
    Logged(C),
    /// The device failed the request, or memory ran out.
    Failed(DevError),
    /// The request is a write with FUA that succeeded, but logging ended by this cause before its
    /// entry was durable. The log may have the entry.
    NotLogged(End),
    /// The request doesn't pass its check. Nothing was recorded, and the device wasn't called.
    Refused(BadBio),
}

/// The answer to a mark. `C` is the `Receipt` of the seat's recorder.
#[derive(Debug, Drop)]
pub enum MarkAnswer<C> {
    /// This is the receipt of the mark's entry. A close that gets the receipt finds that each log
    /// that a crash leaves has the entry.
    Logged(C),
    /// Logging ended by this cause before the mark's entry was durable. The log may have the entry.
    NotLogged(End),
    /// The mark isn't recorded.
    Refused(MarkRefusal),
}

/// Why a mark isn't recorded.
#[derive(Clone, Copy, Debug, PartialEq, Eq, Error)]
pub enum MarkRefusal {
    /// The mark's text has a zero byte.
    #[error("a zero byte in a mark's text")]
    BadText,
    /// Memory ran out.
    #[error("no memory")]
    Memory,
    /// Recording was closed, and no Stop had ended it before the Close.
    #[error("recording was closed")]
    AfterClose,
}

impl From<MarkRefusal> for Refusal {
    ghost use Rattle.std.specs.Prelude.{◌≡◌};
    ghost use Rattle.shared.specs.SeatCalls.{refusal_of_mark};

    ghost from_gives = { λ error refusal. refusal ≡ refusal_of_mark error };

    fn from(error: MarkRefusal) -> Refusal {
        match error {
            MarkRefusal::BadText => Refusal::BadText,
            MarkRefusal::Memory => Refusal::Memory,
            MarkRefusal::AfterClose => Refusal::AfterClose,
        }
    }
}
