//! The calls that a thread makes at its seat: a table of calls, and a tally of their answers.
use crate::barrier::Sign;
use crate::course::Course;
use bio::{Bio, Bytes, DevError, Ms};
use blockdev::BlockDev;
use board::Names;
use lock_state::{Receipt, Run, Seat};
use pending::CloseError;
use shared::{Answer, MarkAnswer, Shared};
use std::alloc::{AllocError, Global};
use std::sync::Wait;
use std::thread::sleep;
use std::time::{Clock, Duration};

// A seat pauses for so many milliseconds. A thread that has nothing to do falls asleep in a
// hundredth of this.
const PAUSE: u64 = 20;

/// A call of a seat. A write fills one sector with `byte`. A read of a sector must find `byte`.
#[derive(Clone, Copy, Debug, PartialEq, Eq)]
pub enum WorkCall {
    Write { first: u64, byte: u8, fua: bool },
    Read { first: u64, byte: u8 },
    Flush,
    Discard { first: u64 },
    Mark { byte: u8 },
    /// Calls `ask_close`. The tally counts it as done, as refused if the recorder is busy, or as
    /// starved if memory ran out.
    AskClose,
    /// Ends logging as if memory had run out. The tally counts it as done.
    GiveUp,
    /// Waits until the seats together have begun this many calls, and then for `PAUSE`
    /// milliseconds, so that those who wait fall asleep. The tally counts it as done.
    Pause { begun: u64 },
    /// Waits until the writer's thread has ended. The tally counts it as done, or as failed if the
    /// thread doesn't end.
    AwaitWriter,
}

/// How many calls had each answer.
#[derive(Clone, Copy, Debug, PartialEq, Eq)]
pub struct WorkTally {
    pub done: u64,
    pub logged: u64,
    pub failed: u64,
    /// How many calls failed because memory ran out; `failed` doesn't include them.
    pub starved: u64,
    pub not_logged: u64,
    pub refused: u64,
    /// How many reads found the expected byte.
    pub found: u64,
}

impl WorkTally {
    pub fn new() -> WorkTally {
        WorkTally {
            done: 0,
            logged: 0,
            failed: 0,
            starved: 0,
            not_logged: 0,
            refused: 0,
            found: 0,
        }
    }
}

// Adds one, unless the number is 2^64 - 1.
fn count(number: &mut u64) {
    *number = number.saturating_add(1);
}

/// A seat, with the tally of its calls and its receipts.
#[derive(Drop)]
pub struct SeatPlayer<R: Run + Names> {
    pub seat: Seat<R>,
    pub tally: WorkTally,
    pub receipts: Vec<Receipt<R>>,
}

/// A seat with its calls.
#[derive(Drop)]
pub struct SeatWork<R: Run + Names> {
    pub player: SeatPlayer<R>,
    /// The calls before `ask_close`.
    pub calls: Vec<WorkCall>,
    /// The calls after `ask_close`.
    pub late: Vec<WorkCall>,
    /// The sign of a barrier. The seat waits until the barrier holds a call, makes its own calls,
    /// and then releases the held call.
    pub after: Option<Sign>,
    /// Whether the barrier was still holding the call when it was released.
    pub let_go: bool,
}

impl<R: Run + Names> SeatWork<R> {
    /// Makes the calls in order, or the late calls if `late`.
    pub fn run<D: BlockDev + Drop, L: BlockDev + Drop, H: Wait + Clock>(
        &mut self,
        rt: &H,
        alloc: Global,
        recorder: &Shared<D, L, R>,
        course: &Course,
        late: bool,
    ) {
        if late {
            self.player
                .make_all(rt, alloc, recorder, course, self.late.as_slice());
            return;
        }
        if let Some(sign) = &self.after {
            sign.wait(rt);
        }
        self.player
            .make_all(rt, alloc, recorder, course, self.calls.as_slice());
        if let Some(sign) = &self.after {
            self.let_go = sign.let_go();
        }
    }
}

impl<R: Run + Names> SeatPlayer<R> {
    // Makes the calls in order.
    fn make_all<D: BlockDev + Drop, L: BlockDev + Drop, H: Wait + Clock>(
        &mut self,
        rt: &H,
        alloc: Global,
        recorder: &Shared<D, L, R>,
        course: &Course,
        calls: &[WorkCall],
    ) {
        for place in 0..calls.len() {
            self.make(rt, alloc, recorder, course, calls[place]);
        }
    }

    // Makes a call, and counts its answer. If the test itself runs out of memory, this counts as if
    // the recorder had.
    fn make<D: BlockDev + Drop, L: BlockDev + Drop, H: Wait + Clock>(
        &mut self,
        rt: &H,
        alloc: Global,
        recorder: &Shared<D, L, R>,
        course: &Course,
        call: WorkCall,
    ) {
        course.begin_call();
        match call {
            WorkCall::Mark { byte } => {
                let answer = recorder.mark(rt, &mut self.seat, &[byte]);
                self.count_mark(answer);
                return;
            }
            WorkCall::AskClose => {
                self.count_asked(recorder.ask_close(rt));
                return;
            }
            WorkCall::GiveUp => {
                recorder.give_up(rt);
                count(&mut self.tally.done);
                return;
            }
            WorkCall::Pause { begun } => {
                course.await_calls(rt, begun);
                sleep(rt, Duration::from_millis(PAUSE));
                count(&mut self.tally.done);
                return;
            }
            WorkCall::AwaitWriter => {
                self.count_end(course.await_writer(rt));
                return;
            }
            _ => {}
        }
        let Ok(bio) = bio_of(alloc, call) else {
            count(&mut self.tally.starved);
            return;
        };
        let answer = recorder.submit(rt, &mut self.seat, bio, Ms::new(0));
        self.count_answer(call, answer);
    }

    // Counts the answer to a request to close.
    fn count_asked(&mut self, asked: Result<(), CloseError>) {
        match asked {
            Ok(()) => count(&mut self.tally.done),
            Err(CloseError::Busy) => count(&mut self.tally.refused),
            Err(CloseError::Memory) => count(&mut self.tally.starved),
        }
    }

    // Counts whether the writer's thread has ended.
    fn count_end(&mut self, has_ended: bool) {
        if has_ended {
            count(&mut self.tally.done);
        } else {
            count(&mut self.tally.failed);
        }
    }

    fn count_mark(&mut self, answer: MarkAnswer<Receipt<R>>) {
        match answer {
            MarkAnswer::Logged(receipt) => {
                count(&mut self.tally.logged);
                let _ = self.receipts.push(receipt);
            }
            MarkAnswer::NotLogged(_) => count(&mut self.tally.not_logged),
            MarkAnswer::Refused(_) => count(&mut self.tally.refused),
        }
    }

    // Counts the answer to a request.
    fn count_answer(&mut self, call: WorkCall, answer: Answer<Receipt<R>>) {
        match answer {
            Answer::Done => count(&mut self.tally.done),
            Answer::Read(bytes) => {
                if is_filled(bytes.as_slice(), call) {
                    count(&mut self.tally.found);
                }
            }
            Answer::Logged(receipt) => {
                count(&mut self.tally.logged);
                let _ = self.receipts.push(receipt);
            }
            Answer::Failed(DevError::Io) => count(&mut self.tally.failed),
            Answer::Failed(DevError::Memory) => count(&mut self.tally.starved),
            Answer::NotLogged(_) => count(&mut self.tally.not_logged),
            Answer::Refused(_) => count(&mut self.tally.refused),
        }
    }
}

// Returns whether a read returned one sector filled with the expected byte.
fn is_filled(bytes: &[u8], call: WorkCall) -> bool {
    match call {
        WorkCall::Read { byte, .. } => bytes.len() == 512
            && bytes.iter().all(|&found| found == byte),
        _ => false,
    }
}

// Returns the request of a call; a flush for a call without a request.
fn bio_of(alloc: Global, call: WorkCall) -> Result<Bio, AllocError> {
    Ok(match call {
        WorkCall::Write { first, byte, fua } => Bio::Write {
            first,
            bytes: Bytes::from_vec(vec![in alloc; byte; 512]?),
            flush: false,
            fua,
            meta: false,
        },
        WorkCall::Read { first, .. } => Bio::Read { first, count: 1 },
        WorkCall::Discard { first } => Bio::Discard { first, count: 1 },
        WorkCall::Flush
        | WorkCall::Mark { .. }
        | WorkCall::AskClose
        | WorkCall::GiveUp
        | WorkCall::Pause { .. }
        | WorkCall::AwaitWriter => Bio::Flush,
    })
}
