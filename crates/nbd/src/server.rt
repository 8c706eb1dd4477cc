//! The recorder and the data device of a session (`Server`), and what each request does to them.
ghost use Rattle.std.specs.Prelude.{◌≡◌};
ghost use Rattle.bio.specs.Requests.{bytes_of};
ghost use Rattle.recorder.specs.Calls.{core_of};

use crate::fault::RequestFault;
use crate::laws::servers_go_as_one;
use bio::{Bio, Bytes, Event, Id, Ms, SectorSize};
use blockdev::BlockDev;
use recorder::{Recorder, Reply};
use refusals::Refusal;
use script_runner::{complete_request, do_request};
use std::alloc::Global;

/// The recorder and the data device of a session. Requests are done one at a time: each is
/// submitted, done on the data device and ended before the next one is submitted, and the log's
/// writer takes turns after each. So no request is open between two calls.
#[derive(Drop)]
pub struct Server<D: BlockDev + Drop, L: BlockDev + Drop> {
    alloc: Global,
    recorder: Recorder<L>,
    disk: D,
    size: SectorSize,
    ghost sized: { bytes_of size ≡ (core_of recorder).sector_bytes },
}

impl<D: BlockDev + Drop, L: BlockDev + Drop> Server<D, L> {
    ghost use Rattle.std.specs.Prelude.{◌≡◌, ◌≤◌, ◌/◌, IfErr, IfOk, IsTrue, Ok, OnOk, is_ok, is_some};
    ghost use Rattle.std.specs.Prelude.{length, true};
    ghost use Rattle.bio.specs.Content.{gather};
    ghost use Rattle.bio.specs.Requests.{bytes_of, check_answer, check_sized_answer, is_tracked};
    ghost use Rattle.blockdev.specs.View.{IsByteRange};
    ghost use Rattle.recorder.specs.Calls.{SubmitsRequest, core_of};
    ghost use Rattle.script_runner.specs.Lines.{reply_of};
    ghost use Rattle.nbd.specs.Requests.{FailsRead, OnlyReadsData};
    ghost use Rattle.nbd.specs.Serving.{CarriesOut, Empties, EndsLog, GivesResult, IsClosedBy, IsShort, IsSure};
    ghost use Rattle.nbd.specs.Serving.{IsTimed, Notes, NotesMark, ServerFrame};

    /// Returns the server of a session that hasn't begun. The recorder's log has sectors of `size`.
    pub fn new(alloc: Global, recorder: Recorder<L>, disk: D, size: SectorSize) -> Server<D, L>
        requires { bytes_of size ≡ (core_of recorder).sector_bytes }
        ensures made { (result.recorder ≡ recorder) × (result.disk ≡ disk) × (result.size ≡ size) }
    {
        Server {
            alloc,
            recorder,
            disk,
            size,
        }
    }

    pub fn recorder(&self) -> &Recorder<L>
        ensures { result.now ≡ self.now.recorder }
    {
        &self.recorder
    }

    // Returns the allocator of the session.
    pub(crate) fn alloc(&self) -> Global {
        self.alloc
    }

    /// Returns the number of the data device's sectors.
    pub fn sectors(&self) -> u64
        ensures size { result ≡ (D.shown self.now.disk).size }
        ensures few { result ≤ 1048576 }
    {
        self.disk.sectors()
    }

    /// Returns the size of a block: requests are whole blocks, which are the log's sectors.
    pub fn block(&self) -> SectorSize
        ensures { result ≡ self.now.size }
    {
        self.size
    }

    /// Returns the recorder and the data device, unchanged.
    pub fn into_parts(self) -> (Recorder<L>, D)
        ensures recorder { result.0 ≡ self.recorder }
        ensures device { result.1 ≡ self.disk }
    {
        let Server { recorder, disk, .. } = self;
        (recorder, disk)
    }

    // Sets the time of the recorder's later calls.
    fn set_now(&mut self, now: Ms)
        ensures times { IsTimed now self.old.recorder self.new.recorder }
        ensures device { self.new.disk ≡ self.old.disk }
        ensures goes { ServerFrame self.old self.new }
    {
        self.recorder.set_now(now);
    }

    // Lets the log's writer take turns until nothing is left to write or logging ends.
    fn drain(&mut self)
        ensures drains { Empties self.old.recorder self.new.recorder }
        ensures device { self.new.disk ≡ self.old.disk }
        ensures goes { ServerFrame self.old self.new }
    {
        let _ended = self.recorder.drain();
    }

    /// Records a request and does it on the data device. Then the log's writer takes turns until
    /// nothing is left to write or logging ends. A write with FUA ends well only if the recorder
    /// acknowledges it, or if logging has ended.
    pub fn record(&mut self, now: Ms, bio: Bio) -> Result<(), RequestFault>
        requires fits { check_sized_answer (bytes_of self.old.size) bio
            (D.shown self.old.disk).size ≡ Ok tt }
        requires tracked { is_tracked bio ≡ true }
        ensures gives { GivesResult now bio result self.old self.new }
        ensures goes { ServerFrame self.old self.new }
    {
        // For the prover: `ServerFrame` holds for two calls if it holds for each. What fits the
        // data device fits the largest one.
        servers_go_as_one::<D, L>();
        bio::laws::larger_devices_take_more();
        bio::laws::sized_requests_pass_both();
        self.set_now(now);
        match self.submit(&bio) {
            Ok(id) => {
                let done = self.carry_out(now, &bio, &id);
                self.drain();
                match done {
                    Ok(()) => self.confirm(bio.has_fua(), &id),
                    Err(fault) => Err(fault),
                }
            }
            Err(fault) => Err(fault),
        }
    }

    // Submits a request to the recorder. Returns the id by which the recorder tracks it, or None if
    // it isn't recorded any more.
    fn submit(&mut self, bio: &Bio) -> Result<Option<Id>, RequestFault>
        requires { check_sized_answer (core_of self.old.recorder).sector_bytes bio.now 1048576 ≡ Ok tt }
        ensures submits { IfOk result
            (λ id. SubmitsRequest bio.now (reply_of id) self.old.recorder self.new.recorder) }
        ensures short { IfErr result (λ fault. (fault ≡ RequestFault.NoMemory)
            × IsShort bio.now self.old.recorder self.new.recorder) }
        ensures device { self.new.disk ≡ self.old.disk }
        ensures goes { ServerFrame self.old self.new }
    {
        let Ok(asked) = bio.clone() else {
            return Err(RequestFault::NoMemory);
        };
        match self.recorder.event(Event::Submit(asked)) {
            Reply::Tracked(id) => Ok(Some(id)),
            Reply::Passed => Ok(None),
            _ => Err(RequestFault::NoMemory),
        }
    }

    // Does a request on the data device, and records its end with the device's result.
    fn carry_out(&mut self, now: Ms, bio: &Bio, id: &Option<Id>) -> Result<(), RequestFault>
        requires { IsTrue (is_ok (check_answer bio.now (D.shown self.old.disk).size)) }
        ensures does { CarriesOut now bio.now id.now result self.old self.new }
        ensures goes { ServerFrame self.old self.new }
    {
        let answer = do_request(&mut self.disk, now, bio);
        complete_request(&mut self.recorder, *id, answer.is_ok());
        match answer {
            Ok(_) => Ok(()),
            Err(error) => Err(RequestFault::from(error)),
        }
    }

    // Returns an error if a request has FUA, and the recorder isn't sure of it.
    fn confirm(&self, fua: bool, id: &Option<Id>) -> Result<(), RequestFault>
        ensures sure { OnOk result (fua ≡ true → IsSure id.now self.now.recorder) }
        ensures unsure { IfErr result (λ fault. (fault ≡ RequestFault.Io) × (fua ≡ true)) }
    {
        if fua && !self.is_sure(id) {
            return Err(RequestFault::Io);
        }
        Ok(())
    }

    /// Reads whole sectors of the data device, from sector `first` on. An error is the device's.
    pub fn read(&mut self, now: Ms, first: u64, buffer: &mut [u8]) -> Result<(), RequestFault>
        requires { IsByteRange (D.shown self.old.disk).size first (length buffer.old) }
        ensures bytes { OnOk result (buffer.new
            ≡ gather (D.shown self.old.disk).content first (length buffer.old / 512)) }
        ensures fails { IfErr result
            (λ fault. FailsRead now first buffer.old buffer.new fault self.old self.new) }
        ensures length { length buffer.new ≡ length buffer.old }
        ensures only { OnlyReadsData self.old self.new }
        ensures goes { ServerFrame self.old self.new }
    {
        recorder::laws::several_calls_go_as_one::<L>();
        match self.disk.read(now, first, buffer) {
            Ok(_) => Ok(()),
            Err(error) => Err(RequestFault::from(error)),
        }
    }

    // Returns whether a request is acknowledged, or isn't recorded since logging has ended.
    fn is_sure(&self, id: &Option<Id>) -> bool
        ensures { result ≡ true → IsSure id.now self.now.recorder }
    {
        match id {
            Some(id) => self.recorder.acknowledged(*id) || self.has_ended(),
            None => self.has_ended(),
        }
    }

    // Returns whether logging has ended.
    fn has_ended(&self) -> bool
        ensures { result ≡ is_some self.now.recorder.end }
    {
        self.recorder.status().end.is_some()
    }

    /// Records a mark, unless its text has a zero byte or memory runs out. Then the log's writer
    /// takes turns, so that the mark is acknowledged or logging has ended.
    pub fn mark(&mut self, now: Ms, text: Vec<u8>)
        ensures notes { NotesMark now text.items self.old self.new }
        ensures goes { ServerFrame self.old self.new }
    {
        servers_go_as_one::<D, L>();
        self.set_now(now);
        self.put_mark(text);
        self.drain();
    }

    // Passes a mark to the recorder.
    fn put_mark(&mut self, text: Vec<u8>)
        ensures marks { Notes text.items self.old.recorder self.new.recorder }
        ensures device { self.new.disk ≡ self.old.disk }
        ensures goes { ServerFrame self.old self.new }
    {
        let _reply = self.recorder.event(Event::Mark(Bytes::from_vec(text)));
    }

    /// Closes recording. Then the log's writer takes turns until the log is complete or logging
    /// ends. Refused if memory runs out.
    pub fn close(&mut self, now: Ms) -> Result<(), Refusal>
        ensures ends { OnOk result (EndsLog now self.old self.new) }
        ensures goes { ServerFrame self.old self.new }
    {
        servers_go_as_one::<D, L>();
        self.set_now(now);
        self.put_close()?;
        self.drain();
        Ok(())
    }

    // Closes recording.
    fn put_close(&mut self) -> Result<(), Refusal>
        ensures closes { OnOk result (IsClosedBy self.old.recorder self.new.recorder) }
        ensures device { self.new.disk ≡ self.old.disk }
        ensures goes { ServerFrame self.old self.new }
    {
        match self.recorder.event(Event::Close) {
            Reply::Refused(refusal) => Err(refusal),
            _ => Ok(()),
        }
    }
}
