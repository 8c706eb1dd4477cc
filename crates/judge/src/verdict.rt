//! The answer of `could_hold`, and its text: `yes`, or the lowest sector that fails and what rules
//! its value out.
ghost use Rattle.std.specs.Prelude.{Some};
ghost use Rattle.judge.specs.Verdicts.{reason_text, verdict_text};

use bio::Id;
use std::fmt;

/// Whether an image could have been on a device, had power failed after some events. The text is
/// `yes`, `no sector <sector> ruled out by event <index>`, or
/// `no sector <sector> holds no submitted value`.
#[derive(Clone, Copy, Debug, PartialEq, Eq)]
pub enum Verdict {
    /// Each sector has a value that the device could hold.
    Yes,
    /// `sector` is the lowest whose value the device could not hold. `by` is the durable request
    /// over this sector that was submitted last; none if no durable request covers it.
    No { sector: u64, by: Option<Id> },
}

impl fmt::Display for Verdict {
    ghost output = { λ verdict. Some (verdict_text verdict) };

    fn fmt<W: fmt::Write>(&self, f: &mut fmt::Formatter<W>) -> fmt::Result {
        match *self {
            Verdict::Yes => f.write_str("yes"),
            Verdict::No { sector, by } => {
                let reason = Reason(by);
                write!(f, "no sector {sector} {reason}")
            }
        }
    }
}

// The text of a `No` after the sector: the request `by`, or that there is none.
#[derive(Clone, Copy)]
struct Reason(Option<Id>);

impl fmt::Display for Reason {
    ghost output = { λ reason. Some (reason_text reason.0) };

    fn fmt<W: fmt::Write>(&self, f: &mut fmt::Formatter<W>) -> fmt::Result {
        match self.0 {
            Some(id) => {
                let place = id.place();
                write!(f, "ruled out by event {place}")
            }
            None => f.write_str("holds no submitted value"),
        }
    }
}
