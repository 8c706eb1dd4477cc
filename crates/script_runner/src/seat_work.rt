//! The calls that a thread makes at its seat.
ghost use Rattle.std.specs.Prelude.{◌≡◌, ◌==◌, ◌<◌, Ok, true, vec_capacity, vec_len};
ghost use Rattle.dmlw_script.specs.declared.run_line.RunCall.TheVariants.{Mark, Submit};
ghost use Rattle.dmlw_script.specs.Plans.{submission_answer};
ghost use Rattle.dmlw_script.specs.Words.{is_line_text};
ghost use Rattle.lock_state.specs.History.{new_part};
ghost use Rattle.script_runner.specs.inside.{CanMake, DoesLine, DoesLines, FitsRecorder, MakesSeatCall};
ghost use Rattle.script_runner.specs.inside.{new_player};
ghost use Rattle.script_runner.specs.SeatRuns.{and_kept, mark_receipt_in, receipt_in};

use crate::request::bio_of;
use crate::tally::{Outcome, Tally};
use crate::write_data::WriteData;
use bio::Ms;
use blockdev::BlockDev;
use board::Names;
use dmlw_script::{RunCall, RunScript, SeatCall, Submission};
use lock_state::{Receipt, Run, Seat};
use shared::{Answer, MarkAnswer, Shared};
use std::alloc::Global;
use std::marker::Model;
use std::sync::Wait;

/// A seat, with the counts of its outcomes and its receipts so far. Its value in contracts is a
/// `PlayerView`.
#[derive(Drop)]
pub struct Work<R: Run + Names> {
    pub(crate) number: u64,
    pub(crate) seat: Seat<R>,
    pub(crate) tally: Tally,
    // The receipts in the answers to the seat's calls, in order.
    pub(crate) receipts: Vec<Receipt<R>>,
    write_data: WriteData,
}

impl<R: Run + Names> Model for Work<R> {
    ghost use Rattle.script_runner.specs.inside.{PlayerView};

    ghost Value = { PlayerView };

    ghost view = { λ w. record {
      number = w.number;
      part = w.seat;
      tally = w.tally;
      receipts = w.receipts.items;
    } };
}

impl<R: Run + Names> Work<R> {
    /// Returns the work of seat `number`, before its first call.
    pub fn new(alloc: Global, number: u64, seat: Seat<R>) -> Work<R>
        requires { seat ≡ new_part number }
        ensures { result ≡ new_player number }
    {
        Work {
            number,
            seat,
            tally: Tally::none(),
            receipts: Vec::new(alloc),
            write_data: WriteData::none(alloc),
        }
    }

    /// Makes the calls of the seat's own lines in order, at time 0.
    pub fn run<D: BlockDev + Drop, L: BlockDev + Drop, H: Wait>(
        &mut self,
        rt: &H,
        script: &RunScript,
        recorder: &Shared<D, L, R>,
    )
        requires { FitsRecorder R.sector_bytes R.sectors script.now }
        ensures { DoesLines script.now.calls self.old self.new }
    {
        let lines = script.calls();
        for place in 0..lines.len() {
            self.run_line(rt, &lines[place], recorder);
        }
    }

    // Makes the call of a line, if the line belongs to this seat.
    fn run_line<D: BlockDev + Drop, L: BlockDev + Drop, H: Wait>(
        &mut self,
        rt: &H,
        line: &SeatCall,
        recorder: &Shared<D, L, R>,
    )
        requires { CanMake R.sector_bytes R.sectors line.now.call }
        ensures { DoesLine line.now self.old self.new }
    {
        if !is_own(line, self.number) {
            return;
        }
        let outcome = self.make(rt, &line.call, recorder);
        self.tally.count(outcome);
    }

    // Makes a call. Memory for its receipt is reserved first. If that fails, a request counts as
    // failed and a mark as refused, and the recorder isn't called.
    fn make<D: BlockDev + Drop, L: BlockDev + Drop, H: Wait>(
        &mut self,
        rt: &H,
        call: &RunCall,
        recorder: &Shared<D, L, R>,
    ) -> Outcome
        requires { CanMake R.sector_bytes R.sectors call.now }
        ensures made { MakesSeatCall call.now self.old result self.new }
    {
        match call {
            RunCall::Submit(submission) => self.submit(rt, *submission, recorder),
            RunCall::Mark { text } => self.mark(rt, text.as_slice(), recorder),
        }
    }

    // Submits a request. If memory for its receipt or its data runs out, the request counts as
    // failed, and the recorder isn't called.
    #[tactic(auto, using(crate::proofs::Seats::makes_request, crate::proofs::Seats::fails))]
    fn submit<D: BlockDev + Drop, L: BlockDev + Drop, H: Wait>(
        &mut self,
        rt: &H,
        submission: Submission,
        recorder: &Shared<D, L, R>,
    ) -> Outcome
        requires { submission_answer R.sector_bytes R.sectors submission ≡ Ok tt }
        ensures made { MakesSeatCall (Submit submission) self.old result self.new }
    {
        if self.receipts.reserve(1).is_err() {
            return Outcome::Failed;
        }
        let Ok(bio) = bio_of(&mut self.write_data, submission) else {
            return Outcome::Failed;
        };
        let answer = recorder.submit(rt, &mut self.seat, bio, Ms::new(0));
        let outcome = Outcome::of_request(&answer);
        keep(&mut self.receipts, receipt_of(answer));
        outcome
    }

    // Passes a mark to the recorder.
    #[tactic(auto, using(crate::proofs::Seats::line_is_text, crate::proofs::Seats::makes_mark, crate::proofs::Seats::refused))]
    fn mark<D: BlockDev + Drop, L: BlockDev + Drop, H: Wait>(
        &mut self,
        rt: &H,
        text: &[u8],
        recorder: &Shared<D, L, R>,
    ) -> Outcome
        requires { is_line_text text.now ≡ true }
        ensures made { MakesSeatCall (Mark text.now) self.old result self.new }
    {
        if self.receipts.reserve(1).is_err() {
            return Outcome::Refused;
        }
        let answer = recorder.mark(rt, &mut self.seat, text);
        let outcome = Outcome::of_mark(&answer);
        keep(&mut self.receipts, mark_receipt(answer));
        outcome
    }
}

// Returns whether the line belongs to seat `number`.
fn is_own(line: &SeatCall, number: u64) -> bool
    ensures { result ≡ (line.now.seat == number) }
{
    line.seat == number
}

// Stores a receipt for the close, if there is one. `receipts` has room for it.
fn keep<R: Run>(receipts: &mut Vec<Receipt<R>>, receipt: Option<Receipt<R>>)
    requires { vec_len receipts.old < vec_capacity receipts.old }
    ensures { receipts.new.items ≡ and_kept receipts.old.items receipt }
{
    if let Some(receipt) = receipt {
        receipts.push_reserved(receipt);
    }
}

// Returns the receipt in the answer to a request, if there is one.
fn receipt_of<C: Drop>(answer: Answer<C>) -> Option<C>
    ensures { result ≡ receipt_in answer }
{
    match answer {
        Answer::Logged(receipt) => Some(receipt),
        Answer::Done => None,
        Answer::Read(bytes) => {
            drop(bytes);
            None
        }
        Answer::Failed(_) | Answer::NotLogged(_) | Answer::Refused(_) => None,
    }
}

fn mark_receipt<C: Drop>(answer: MarkAnswer<C>) -> Option<C>
    ensures { result ≡ mark_receipt_in answer }
{
    match answer {
        MarkAnswer::Logged(receipt) => Some(receipt),
        _ => None,
    }
}
