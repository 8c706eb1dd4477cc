//! Reads the body of a recorder's script, line by line. It checks that ids are new and that
//! requests are open when they end.
ghost use Rattle.std.specs.Prelude.{◌≡◌, ◌<◌, ℕ, [], Ok, OnOk, false, length, option_map};
ghost use Rattle.bio.specs.Requests.{bytes_of};
ghost use Rattle.dmlw_script.specs.Plans.{time_at, range_test, submission_answer};
ghost use Rattle.dmlw_script.specs.inside.Drafts.{as_refusal, step_test, AgreesWithStep};

use crate::command::{Command, Step, Submission};
use crate::disk::DiskSpec;
use crate::line::BodyLine;
use crate::line_error::LineError;
use crate::script::Script;
use crate::script_id::ScriptId;
use bio::{BadBio, Bio, Ms, SectorSize, check_sized};
use indexmap::IndexSet;
use refusals::Refusal;
use std::alloc::Global;

/// The body of a script, as far as it was read.
#[derive(Drop)]
pub(crate) struct BodyReader {
    /// The ids that were submitted, in order.
    pub(crate) names: IndexSet<ScriptId>,
    // For each id of `names`, whether its request has ended.
    has_ended: Vec<bool>,
    pub(crate) commands: Vec<Command>,
    // The time after `commands`.
    time: Ms,
}

impl BodyReader {
    ghost use Rattle.dmlw_script.specs.inside.Drafts.{body_of, body_step, with_command};
    ghost use Rattle.dmlw_script.specs.inside.Drafts.{with_name};
    ghost use Rattle.dmlw_script.specs.inside.Drafts.{IsDraft};
    ghost use Rattle.dmlw_script.specs.Plans.{ends_request, IsPlan};

    pub(crate) fn new(alloc: Global) -> BodyReader
        ensures draft { IsDraft result }
        ensures empty { body_of result ≡ record { names = []; body = [] } }
    {
        BodyReader {
            names: IndexSet::new(alloc),
            has_ended: Vec::new(alloc),
            commands: Vec::new(alloc),
            time: Ms::new(0),
        }
    }

    /// Reads the next line. `sectors` is the number of sectors at the data disk's top, and
    /// `log_size` the size of the log's sectors.
    pub(crate) fn read(
        &mut self,
        parsed: BodyLine,
        sectors: u64,
        log_size: SectorSize,
    ) -> Result<(), LineError>
        requires { IsDraft self.old }
        ensures draft { OnOk result (IsDraft self.new) }
        ensures step { AgreesWithStep result (body_of self.new)
            (body_step (bytes_of log_size) sectors (body_of self.old) parsed) }
    {
        match parsed {
            BodyLine::Submit { name, submission } => {
                self.submit(name, submission, sectors, log_size)
            }
            BodyLine::Complete { name } => self.complete(name),
            BodyLine::Step(step) => self.step(step, sectors, log_size),
        }
    }

    // Reads a submission.
    fn submit(
        &mut self,
        name: ScriptId,
        submission: Submission,
        sectors: u64,
        log_size: SectorSize,
    ) -> Result<(), LineError>
        requires { IsDraft self.old }
        ensures draft { OnOk result (IsDraft self.new) }
        ensures step { AgreesWithStep result (body_of self.new)
            (body_step (bytes_of log_size) sectors (body_of self.old)
            (BodyLine.Submit name submission)) }
    {
        self.name_next(name)?;
        check_submission(submission, sectors, log_size)?;
        self.say(Command::Submit(submission))
    }

    // Reads the end of a request.
    fn complete(&mut self, name: ScriptId) -> Result<(), LineError>
        requires { IsDraft self.old }
        ensures draft { OnOk result (IsDraft self.new) }
        ensures step { AgreesWithStep result (body_of self.new)
            (body_step 0 0 (body_of self.old) (BodyLine.Complete name)) }
    {
        let request = self.names.get_index_of(&name).ok_or(Refusal::BadId)?;
        if self.has_ended[request] {
            return Err(LineError::Refused(Refusal::BadId));
        }
        self.end(request)
    }

    // Reads a line that names no request.
    fn step(&mut self, step: Step, sectors: u64, log_size: SectorSize) -> Result<(), LineError>
        requires { IsDraft self.old }
        ensures draft { OnOk result (IsDraft self.new) }
        ensures step { AgreesWithStep result (body_of self.new)
            (body_step (bytes_of log_size) sectors (body_of self.old) (BodyLine.Step step)) }
    {
        check_step(&step, sectors, log_size, self.time)?;
        self.say(Command::Step(step))
    }

    /// Returns the script with these disks, this size of the log's sectors, and the body that was
    /// read. `ending` has the picks of the crash that ends the script, if one does.
    pub(crate) fn into_script(
        self,
        data_disk: DiskSpec,
        log_disk: DiskSpec,
        log_size: SectorSize,
        ending: Option<Vec<u64>>,
    ) -> Script
        requires { IsPlan (record {
          data_disk = data_disk;
          log_disk = log_disk;
          log_size = log_size;
          names = (body_of self).names;
          commands = (body_of self).body;
          ending = option_map (λ picks. picks.items) ending;
        }) }
        ensures { result ≡ record {
          data_disk = data_disk;
          log_disk = log_disk;
          log_size = log_size;
          names = (body_of self).names;
          commands = (body_of self).body;
          ending = option_map (λ picks. picks.items) ending;
        } }
    {
        let BodyReader {
            names,
            has_ended: _,
            commands,
            time: _,
        } = self;
        Script::new(data_disk, log_disk, log_size, names, commands, ending)
    }

    // Adds the id of the next request, or refuses an id that isn't new.
    fn name_next(&mut self, name: ScriptId) -> Result<(), LineError>
        requires { IsDraft self.old }
        ensures draft { OnOk result (IsDraft self.new) }
        ensures step { AgreesWithStep result (body_of self.new) (with_name (body_of self.old) name) }
    {
        if !self.names.insert(name)? {
            return Err(LineError::Refused(Refusal::BadId));
        }
        self.has_ended.push(false)?;
        Ok(())
    }

    // Adds a line of the body that ends no request.
    fn say(&mut self, command: Command) -> Result<(), LineError>
        requires draft { IsDraft self.old }
        requires no_end { (request : ℕ) → ends_request request command ≡ false }
        ensures draft { OnOk result (IsDraft self.new) }
        ensures step { AgreesWithStep result (body_of self.new)
            (Ok (with_command (body_of self.old) command)) }
    {
        let time = time_after(self.time, &command);
        self.commands.push(command)?;
        self.time = time;
        Ok(())
    }

    fn end(&mut self, request: usize) -> Result<(), LineError>
        requires draft { IsDraft self.old }
        requires within { request < length self.old.names.keys }
        ensures draft { OnOk result (IsDraft self.new) }
        ensures step { AgreesWithStep result (body_of self.new)
            (Ok (with_command (body_of self.old) (Command.Complete request))) }
    {
        self.commands.push(Command::Complete { request })?;
        self.has_ended[request] = true;
        Ok(())
    }
}

/// Checks the sectors that a submission covers, for a disk of `sectors` sectors and log sectors of
/// the size `log_size`.
pub(crate) fn check_submission(
    submission: Submission,
    sectors: u64,
    log_size: SectorSize,
) -> Result<(), LineError>
    ensures { AgreesWithStep result tt
        (as_refusal (submission_answer (bytes_of log_size) sectors submission)) }
{
    match submission {
        Submission::Write { first, count, .. } | Submission::Discard { first, count } => {
            Ok(check_range(first, count, sectors, log_size)?)
        }
        Submission::Flush => Ok(()),
    }
}

// Checks `count` sectors from sector `first` on, for a disk of `sectors` sectors and log sectors of
// the size `log_size`.
fn check_range(first: u64, count: u64, sectors: u64, log_size: SectorSize) -> Result<(), BadBio>
    ensures { result ≡ range_test (bytes_of log_size) sectors first count }
{
    check_sized(&Bio::Read { first, count }, sectors, log_size)
}

// Checks a line that names no request. A read's sectors must pass `check_range`, and an `at` must
// not set a time before `time`. All other lines pass.
fn check_step(step: &Step, sectors: u64, log_size: SectorSize, time: Ms) -> Result<(), LineError>
    ensures { AgreesWithStep result tt (step_test (bytes_of log_size) sectors time step.now) }
{
    match step {
        Step::Read { first, count } => Ok(check_range(*first, *count, sectors, log_size)?),
        Step::At { time: later } if later.milliseconds() < time.milliseconds() => {
            Err(LineError::Refused(Refusal::BadLine))
        }
        _ => Ok(()),
    }
}

// Returns the time after a command, if the time before it is `time`.
fn time_after(time: Ms, command: &Command) -> Ms
    ensures { result ≡ time_at time command.now }
{
    match command {
        Command::Step(Step::At { time: later }) => *later,
        Command::Submit(_) | Command::Complete { .. } | Command::Step(_) => time,
    }
}
