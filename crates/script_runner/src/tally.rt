//! The outcomes of a seat's calls, and their counts.
ghost use Rattle.std.specs.Prelude.{◌≡◌, ◌+◌, ◌-◌, ◌^◌, ◌<◌, ◌≤◌};
ghost use Rattle.script_runner.specs.SeatRuns.{TallyHasRoom, tally_with, mark_outcome, no_calls};
ghost use Rattle.script_runner.specs.SeatRuns.{outcome_of};

use lock_state::{Receipt, Run};
use shared::{Answer, MarkAnswer};

/// The outcome of a call.
#[derive(Clone, Copy, Debug, PartialEq, Eq)]
pub enum Outcome {
    /// The call succeeded.
    Done,
    /// The call succeeded, and each log that a crash leaves has its entry.
    Logged,
    /// The device failed, or memory ran out.
    Failed,
    /// Logging ended before the call's entry was durable.
    NotLogged,
    /// The recorder refused the call.
    Refused,
}

/// How many calls had each outcome.
#[derive(Clone, Copy, Debug, PartialEq, Eq)]
pub struct Tally {
    pub done: u64,
    pub logged: u64,
    pub failed: u64,
    pub not_logged: u64,
    pub refused: u64,
}

impl Outcome {
    // Returns the outcome of a request, given the recorder's answer.
    pub(crate) fn of_request<R: Run>(answer: &Answer<Receipt<R>>) -> Outcome
        ensures { result ≡ outcome_of answer.now }
    {
        match answer {
            Answer::Done | Answer::Read(_) => Outcome::Done,
            Answer::Logged(_) => Outcome::Logged,
            Answer::Failed(_) => Outcome::Failed,
            Answer::NotLogged(_) => Outcome::NotLogged,
            Answer::Refused(_) => Outcome::Refused,
        }
    }

    // Returns the outcome of a mark, given the recorder's answer.
    pub(crate) fn of_mark<R: Run>(answer: &MarkAnswer<Receipt<R>>) -> Outcome
        ensures { result ≡ mark_outcome answer.now }
    {
        match answer {
            MarkAnswer::Logged(_) => Outcome::Logged,
            MarkAnswer::NotLogged(_) => Outcome::NotLogged,
            MarkAnswer::Refused(_) => Outcome::Refused,
        }
    }
}

impl Tally {
    // Returns the tally before the first call.
    pub(crate) fn none() -> Tally
        ensures { result ≡ no_calls }
    {
        Tally {
            done: 0,
            logged: 0,
            failed: 0,
            not_logged: 0,
            refused: 0,
        }
    }

    // Counts one more call. Each count stops at 2^64 - 1.
    pub(crate) fn count(&mut self, outcome: Outcome)
        ensures { TallyHasRoom self.old → self.new ≡ tally_with self.old outcome }
    {
        match outcome {
            Outcome::Done => self.done = one_more(self.done),
            Outcome::Logged => self.logged = one_more(self.logged),
            Outcome::Failed => self.failed = one_more(self.failed),
            Outcome::NotLogged => self.not_logged = one_more(self.not_logged),
            Outcome::Refused => self.refused = one_more(self.refused),
        }
    }
}

// Returns the count plus one, at most 2^64 - 1.
fn one_more(count: u64) -> u64
    ensures counts { count < 2 ^ 64 - 1 → result ≡ count + 1 }
    ensures stops { 2 ^ 64 - 1 ≤ count → result ≡ count }
{
    count.saturating_add(1)
}
