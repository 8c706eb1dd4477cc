//! The run of a script so far (`Running`), and what each line does to it.
ghost use Rattle.std.specs.Prelude.{IsTrue};
ghost use Rattle.std.specs.List.{list_all};
ghost use Rattle.script_runner.specs.Submissions.{fits_device};

use crate::asking::{ask, complete_request};
use crate::handing::{do_request, read_sectors};
use crate::print::{name_of, print_mark, print_outcome, print_read, print_submission};
use crate::request::{Request, are_asked};
use crate::shortage::{is_memory_end, is_out_of_memory, is_refusal, last_turn};
use crate::step_error::StepError;
use crate::write_data::WriteData;
use bio::{Bytes, Event, Ms};
use blockdev::{BlockDev, Message};
use dmlw_script::{Command, DiskName, ScriptId, Step, Submission};
use recorder::{Recorder, Reply, laws};
use refusals::{Refusal, ascii_text};
use std::alloc::{AllocError, Global};
use std::io::Write;

/// A script's run so far: the recorder, the data device, and the submitted requests. The number of
/// a request is its index in the list.
#[derive(Drop)]
pub struct Running<D: BlockDev + Drop, L: BlockDev + Drop> {
    alloc: Global,
    recorder: Recorder<L>,
    disk: D,
    write_data: WriteData,
    requests: Vec<Request>,
    // The time of the next calls of both devices.
    time: Ms,
    // Whether memory ran out for a mark, for the log's writer, or for a data device's call other
    // than a read. If memory runs out for a submission, its request is `NotAsked` instead.
    short: bool,
    ghost fits: { IsTrue (list_all (fits_device (D.shown disk).size) requests.items) },
}

impl<D: BlockDev + Drop, L: BlockDev + Drop> Running<D, L> {
    ghost use Rattle.std.specs.Prelude.{◌≡◌, IfOk, [], false};
    ghost use Rattle.script_runner.specs.Lines.{had_memory};

    /// Returns the run of a script before its first line, at time 0, with room for `requests`
    /// requests.
    pub fn new(
        alloc: Global,
        recorder: Recorder<L>,
        disk: D,
        requests: usize,
    ) -> Result<Running<D, L>, AllocError>
        ensures made { IfOk result
            (λ run. (run.recorder ≡ recorder) × (run.disk ≡ disk) × (run.requests.items ≡ [])
            × (run.time ≡ 0) × (run.short ≡ false)) }
    {
        Ok(Running {
            alloc,
            recorder,
            disk,
            write_data: WriteData::none(alloc),
            requests: Vec::with_capacity(alloc, requests)?,
            time: Ms::new(0),
            short: false,
        })
    }

    pub fn recorder(&self) -> &Recorder<L>
        ensures { result.now ≡ self.now.recorder }
    {
        &self.recorder
    }

    /// Returns whether memory sufficed for all lines, except perhaps for reads.
    pub fn had_memory(&self) -> bool
        ensures { result ≡ had_memory self.now }
    {
        !self.short && are_asked(self.requests.as_slice())
    }

    /// Returns the recorder and the data device, unchanged.
    pub fn into_parts(self) -> (Recorder<L>, D)
        ensures recorder { result.0 ≡ self.recorder }
        ensures device { result.1 ≡ self.disk }
    {
        let Running { recorder, disk, .. } = self;
        (recorder, disk)
    }
}

impl<D: Message + Drop, L: Message + Drop> Running<D, L> {
    ghost use Rattle.std.specs.Prelude.{◌≡◌, ◌+◌, ◌<◌, IfErr, List, Ok, OnOk, [], length};
    ghost use Rattle.std.specs.Prelude.{true, ℕ};
    ghost use Rattle.std.specs.List.{AllByRecursion};
    ghost use Rattle.std.specs.Io.KnownBytes.{Appends};
    ghost use Rattle.bio.specs.Requests.{range_answer};
    ghost use Rattle.blockdev.specs.declared.message.MessageError.{MessageError};
    ghost use Rattle.blockdev.specs.Messages.{message_refusal};
    ghost use Rattle.dmlw_script.specs.Words.{is_line_text};
    ghost use Rattle.dmlw_script.specs.Plans.{HasName, IsName, submission_answer};
    ghost use Rattle.recorder.specs.declared.reply.Reply.TheVariants as replies;
    ghost use Rattle.recorder.specs.Calls.{Closes, core_of, recorder_view};
    ghost use Rattle.recorder.specs.Growth.{RecorderFrame};
    ghost use Rattle.script_runner.specs.declared.step_error.StepError.TheVariants.{AtLine};
    ghost use Rattle.script_runner.specs.Lines.{EndsRecording, EndsSubmitted, FitsDevice};
    ghost use Rattle.script_runner.specs.Lines.{GivesTurn, HasScriptText, PrintsLine, PrintsData};
    ghost use Rattle.script_runner.specs.Lines.{RefusesMessage, SetsTime, StopsForFile};
    ghost use Rattle.script_runner.specs.Lines.{StopsLine, SendsToLayer, RecordsMark, answering};
    ghost use Rattle.script_runner.specs.Lines.{submission_count};
    ghost use Rattle.script_runner.specs.inside.{StepKeeps};

    // Submits the next request, and prints that it failed if memory ran out.
    fn submit<O: Write>(
        &mut self,
        submission: Submission,
        names: &[ScriptId],
        out: &mut O,
    ) -> Result<(), StepError>
        requires fits { submission_answer (core_of self.old.recorder).sector_bytes
            (D.shown self.old.disk).size submission ≡ Ok tt }
        requires named { length self.old.requests.items < length names.now }
        requires ids { AllByRecursion IsName names.now }
        ensures runs { OnOk result
            (PrintsLine (answering D.answers L.answers) names.now (Command.Submit submission)
            (O.contents out.old) (O.contents out.new) self.old self.new) }
        ensures faults { IfErr result StopsForFile }
        ensures size { (D.shown self.new.disk).size ≡ (D.shown self.old.disk).size }
        ensures count { OnOk result
            (length self.new.requests.items ≡ length self.old.requests.items + 1) }
    {
        let request = ask(&mut self.recorder, &mut self.write_data, submission);
        print_submission(name_of(names, self.requests.len()), &request, out)?;
        self.requests.push(request)?;
        Ok(())
    }

    // Passes a request to the data device, and records and prints its result.
    fn complete<O: Write>(
        &mut self,
        request: usize,
        names: &[ScriptId],
        out: &mut O,
    ) -> Result<(), StepError>
        requires submitted { request < length self.old.requests.items }
        requires named { request < length names.now }
        requires ids { AllByRecursion IsName names.now }
        ensures runs { OnOk result
            (PrintsLine (answering D.answers L.answers) names.now (Command.Complete request)
            (O.contents out.old) (O.contents out.new) self.old self.new) }
        ensures faults { IfErr result StopsForFile }
        ensures size { (D.shown self.new.disk).size ≡ (D.shown self.old.disk).size }
        ensures count { OnOk result
            (length self.new.requests.items ≡ length self.old.requests.items) }
    {
        // For the prover: `RecorderFrame` holds for no call of the recorder, and for two if it
        // holds for each.
        laws::several_calls_go_as_one::<L>();
        match &self.requests[request] {
            Request::NotAsked => Ok(()),
            Request::Asked { bio, id } => {
                let answer = do_request(&mut self.disk, self.time, bio);
                let ok = answer.is_ok();
                self.short |= is_out_of_memory(&answer);
                complete_request(&mut self.recorder, *id, ok);
                print_outcome(name_of(names, request), ok, out)
            }
        }
    }

    // Reads `count` sectors of the data device from sector `first` on. Prints the first byte of
    // each sector, or that the read failed.
    fn read<O: Write>(&mut self, first: u64, count: u64, out: &mut O) -> Result<(), StepError>
        requires { range_answer first count (D.shown self.old.disk).size ≡ Ok tt }
        ensures keeps { StepKeeps self.old self.new }
        ensures runs { OnOk result ((text : List ℕ) × PrintsData first count text self.old self.new
            × Appends (O.contents out.old) (O.contents out.new) text) }
        ensures faults { IfErr result StopsForFile }
        ensures goes { RecorderFrame (recorder_view self.old.recorder)
            (recorder_view self.new.recorder) }
    {
        // For the prover: `RecorderFrame` holds for no call of the recorder, and for two if it
        // holds for each.
        laws::several_calls_go_as_one::<L>();
        let bytes = read_sectors(&mut self.disk, self.alloc, self.time, first, count);
        print_read(first, count, &bytes, out)
    }

    // Gives the writer a turn.
    fn turn(&mut self)
        ensures keeps { StepKeeps self.old self.new }
        ensures turns { GivesTurn [] self.old self.new }
        ensures goes { RecorderFrame (recorder_view self.old.recorder)
            (recorder_view self.new.recorder) }
    {
        let turn = self.recorder.turn();
        self.short |= is_memory_end(&turn);
    }

    // Passes a mark to the recorder. Prints `mark failed` if memory ran out.
    fn mark<O: Write>(&mut self, text: &Bytes, out: &mut O) -> Result<(), StepError>
        requires { is_line_text text.now ≡ true }
        ensures keeps { StepKeeps self.old self.new }
        ensures runs { OnOk result
            ((printed : List ℕ) × RecordsMark text.now printed self.old self.new
            × Appends (O.contents out.old) (O.contents out.new) printed) }
        ensures faults { IfErr result StopsForFile }
        ensures goes { OnOk result
            (RecorderFrame (recorder_view self.old.recorder) (recorder_view self.new.recorder)) }
    {
        let reply = self.recorder.event(Event::Mark(text.clone()?));
        self.short |= is_refusal(&reply);
        print_mark(reply, out)
    }

    // Sets the time of the later calls of both devices.
    fn set_time(&mut self, time: Ms)
        ensures sets { SetsTime time [] self.old self.new }
        ensures time { self.new.time ≡ time }
        ensures log_time { self.new.recorder.store.time ≡ time }
        ensures goes { RecorderFrame (recorder_view self.old.recorder)
            (recorder_view self.new.recorder) }
        ensures size { (D.shown self.new.disk).size ≡ (D.shown self.old.disk).size }
        ensures count { length self.new.requests.items ≡ length self.old.requests.items }
    {
        self.recorder.set_now(time);
        self.time = time;
    }

    // Closes recording. Then the writer takes turns until the log is complete or logging ends.
    fn close(&mut self) -> Result<(), StepError>
        ensures keeps { StepKeeps self.old self.new }
        ensures ends { OnOk result (EndsRecording [] self.old self.new) }
        ensures goes { OnOk result
            (RecorderFrame (recorder_view self.old.recorder) (recorder_view self.new.recorder)) }
        ensures refused { IfErr result (λ stop. (refusal : Refusal) × (stop ≡ AtLine refusal)
            × Closes (replies.Refused refusal) self.old.recorder self.new.recorder) }
    {
        // For the prover: `RecorderFrame` holds for no call of the recorder, and for two if it
        // holds for each.
        laws::several_calls_go_as_one::<L>();
        if let Reply::Refused(refusal) = self.recorder.event(Event::Close) {
            return Err(StepError::AtLine(refusal));
        }
        let ended = self.recorder.drain();
        self.short |= is_memory_end(&last_turn(ended));
        Ok(())
    }

    // Sends a message to a layer of a disk.
    #[tactic(auto, using(crate::proofs::LineSteps::line_ascii))]
    fn message(&mut self, over: DiskName, layer: u64, text: &Bytes) -> Result<(), StepError>
        requires { is_line_text text.now ≡ true }
        ensures keeps { StepKeeps self.old self.new }
        ensures tells { OnOk result
            (SendsToLayer (answering D.answers L.answers) over layer text.now [] self.old
            self.new) }
        ensures refused { IfErr result
            (λ stop. (error : MessageError) × (stop ≡ AtLine (message_refusal error))
            × RefusesMessage (answering D.answers L.answers) over layer text.now error self.old) }
        ensures goes { RecorderFrame (recorder_view self.old.recorder)
            (recorder_view self.new.recorder) }
    {
        // For the prover: `RecorderFrame` holds for no call of the recorder, and for two if it
        // holds for each.
        laws::several_calls_go_as_one::<L>();
        let text = ascii_text(text.as_slice());
        let answer = match over {
            DiskName::Data => self.disk.message(layer, text),
            DiskName::Log => self.recorder.message(layer, text),
        };
        match answer {
            Ok(()) => Ok(()),
            Err(error) => Err(StepError::AtLine(Refusal::from(error))),
        }
    }

    /// Runs a line, and writes to `out` what it prints.
    pub fn run_line<O: Write>(
        &mut self,
        command: &Command,
        names: &[ScriptId],
        out: &mut O,
    ) -> Result<(), StepError>
        requires fits { FitsDevice (core_of self.old.recorder).sector_bytes
            (D.shown self.old.disk).size command.now }
        requires text { HasScriptText command.now }
        requires named { HasName (length names.now) (length self.old.requests.items) command.now }
        requires submitted { EndsSubmitted (length self.old.requests.items) command.now }
        requires ids { AllByRecursion IsName names.now }
        ensures runs { OnOk result
            (PrintsLine (answering D.answers L.answers) names.now command.now (O.contents out.old)
            (O.contents out.new) self.old self.new) }
        ensures faults { IfErr result
            (StopsLine (answering D.answers L.answers) command.now (O.contents out.old)
            (O.contents out.new) self.old) }
        ensures size { (D.shown self.new.disk).size ≡ (D.shown self.old.disk).size }
        ensures count { OnOk result
            (length self.new.requests.items
            ≡ length self.old.requests.items + submission_count command.now) }
    {
        match command {
            Command::Submit(submission) => self.submit(*submission, names, out),
            Command::Complete { request } => self.complete(*request, names, out),
            Command::Step(step) => match step {
                Step::Close => self.close(),
                Step::Read { first, count } => self.read(*first, *count, out),
                Step::Mark { text } => self.mark(text, out),
                Step::Message { over, layer, text } => self.message(*over, *layer, text),
                Step::Turn => {
                    self.turn();
                    Ok(())
                }
                Step::At { time } => {
                    self.set_time(*time);
                    Ok(())
                }
            },
        }
    }
}
