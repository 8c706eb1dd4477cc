// The recorded device, and the requests that were passed to it.
ghost use Rattle.std.specs.Prelude.{◌≡◌, ◌⊎◌, ℕ, ◌≤◌, ◌/◌, [], ◌∷◌, ◌++◌, length, Ok, Err};
ghost use Rattle.std.specs.Prelude.{OnOk, IfErr, Some, true, false};
ghost use Rattle.bio.specs.Requests.{check_answer, is_tracked};
ghost use Rattle.bio.specs.Possible.{values_of};
ghost use Rattle.bio.specs.declared.outcome.DevError.TheVariants.{Memory};
ghost use Rattle.blockdev.specs.View.{DoesInTurn, Flushes, IsByteRange, Writes};
ghost use Rattle.bio.specs.Content.{Patched, gather, put, writes};
ghost use Rattle.lock_state.specs.Calls.{Data, Holds, IsDeviceRead, request_calls, done_call};
ghost use Rattle.lock_state.specs.History.{part_after_call};

use crate::note::Done;
use crate::part::SeatPart;
use crate::run::Run;
use bio::{Bio, DevError, Id, Ms};
use blockdev::BlockDev;
use std::alloc::Global;
use std::marker::{Model, PhantomData};

/// The value under the data lock: the recorded device, and the requests that were passed to the
/// device, in order. Its value in contracts is both.
#[derive(Drop)]
pub struct DataState<D: BlockDev + Drop, R: Run> {
    device: D,
    done: Vec<Done>,
    run: PhantomData<R>,
}

impl<D: BlockDev + Drop, R: Run> Model for DataState<D, R> {
    ghost use Rattle.lock_state.specs.Calls.{Data, KeepsData};

    ghost Value = { Data D };

    ghost view = { λ s. record { device = s.device; calls = s.done.items } };

    ghost invariant = { λ s. KeepsData R.sectors (D.shown s.device) s.done.items };
}

impl<D: BlockDev + Drop, R: Run> DataState<D, R> {
    /// Returns the value for a device that wasn't passed a request yet.
    pub fn new(alloc: Global, device: D) -> DataState<D, R>
        requires { (D.shown device).size ≡ R.sectors }
        ensures { result ≡ record { device = device; calls = [] } }
    {
        DataState {
            device,
            done: Vec::new(alloc),
            run: PhantomData,
        }
    }

    /// Passes the seat's request to the device, and notes it. The call for this request must be due,
    /// and isn't due any more then, whatever the result. A write with flush is passed as a flush, and
    /// then as a write if the flush succeeds. If memory for the note runs out, the device isn't called
    /// and only the seat changes.
    pub fn apply(&mut self, now: Ms, mine: &mut SeatPart<R>, bio: &Bio) -> Result<(), DevError>
        requires due { mine.old.due ≡ Some bio.now }
        requires tracked { is_tracked bio.now ≡ true }
        requires checked { check_answer bio.now R.sectors ≡ Ok tt }
        ensures called { mine.new ≡ part_after_call mine.old result }

        // If the result is Ok, all device calls of the request (`request_calls`) succeeded, and the
        // request is noted as succeeded.
        ensures done { OnOk result
            (self.new.calls ≡ self.old.calls ++ done_call mine.old.under_way bio.now true ∷ []) }
        ensures does { OnOk result
            (DoesInTurn D.does now (request_calls bio.now) self.old.device (Ok tt) self.new.device) }

        // Unless the device lied, each sector that the request covers then has the request's value.
        // Each other sector is unchanged.
        ensures content { OnOk result ((D.shown self.new.device).lies ≡ 0 → (sector : ℕ) →
            (D.shown self.new.device).content sector
            ≡ put (values_of bio.now) (D.shown self.old.device).content sector) }

        // If the result is an error, a device call of the request ended with this error, and the
        // request is noted as failed. Or memory for the note ran out, and nothing changed.
        ensures failed { IfErr result (λ error. ((error ≡ Memory) × (self.new ≡ self.old))
            ⊎ ((self.new.calls ≡ self.old.calls ++ done_call mine.old.under_way bio.now false ∷ [])
            × DoesInTurn D.does now (request_calls bio.now) self.old.device
            (Err error) self.new.device)) }
    {
        let result = self.call(now, mine.under_way, bio);
        mine.due = None;
        mine.made = result;
        result
    }

    // Passes a request to the device, and notes it, as `apply`.
    fn call(&mut self, now: Ms, id: Option<Id>, bio: &Bio) -> Result<(), DevError>
        requires tracked { is_tracked bio.now ≡ true }
        requires checked { check_answer bio.now R.sectors ≡ Ok tt }
        ensures done { OnOk result
            (self.new.calls ≡ self.old.calls ++ done_call id bio.now true ∷ []) }
        ensures does { OnOk result
            (DoesInTurn D.does now (request_calls bio.now) self.old.device (Ok tt) self.new.device) }
        ensures content { OnOk result ((D.shown self.new.device).lies ≡ 0 → (sector : ℕ) →
            (D.shown self.new.device).content sector
            ≡ put (values_of bio.now) (D.shown self.old.device).content sector) }
        ensures failed { IfErr result (λ error. ((error ≡ Memory) × (self.new ≡ self.old))
            ⊎ ((self.new.calls ≡ self.old.calls ++ done_call id bio.now false ∷ [])
            × DoesInTurn D.does now (request_calls bio.now) self.old.device
            (Err error) self.new.device)) }
    {
        self.done.reserve(1)?;
        let bio_kept = bio.clone()?;
        let result = do_request(&mut self.device, now, bio);
        self.done.push_reserved(Done {
            id,
            bio: bio_kept,
            ok: result.is_ok(),
        });
        result
    }

    /// Reads whole sectors of the device from sector `first` on. Makes one call of the device, and
    /// notes no request.
    pub fn read(&mut self, now: Ms, first: u64, buffer: &mut [u8]) -> Result<(), DevError>
        requires { IsByteRange R.sectors first (length buffer.old) }
        ensures calls { self.new.calls ≡ self.old.calls }
        ensures bytes { OnOk result
            (buffer.new ≡ gather (D.shown self.old.device).content first
            (length buffer.old / 512)) }
        ensures content { (sector : ℕ)
            → (D.shown self.new.device).content sector ≡ (D.shown self.old.device).content sector }
        ensures does { IsDeviceRead D.does now first buffer.old buffer.new self.old.device result
            self.new.device }
    {
        self.device.read(now, first, buffer)?;
        Ok(())
    }

    /// Returns the requests that were passed to the device, in order. Unless the device lied, each
    /// successfully written sector holds the value of its last successful request, or of a failed
    /// one after it.
    pub fn done(&self) -> &[Done]
        ensures calls { result.now ≡ self.now.calls }
        ensures holds { (D.shown self.now.device).lies ≡ 0
            → Holds (D.shown self.now.device).content self.now.calls }
    {
        self.done.as_slice()
    }

    /// Returns the device, and the requests that were passed to the device.
    pub fn into_parts(self) -> (D, Vec<Done>)
        ensures device { result.0 ≡ self.device }
        ensures calls { result.1.items ≡ self.calls }
        ensures size { (D.shown result.0).size ≡ R.sectors }
        ensures holds { (D.shown result.0).lies ≡ 0 → Holds (D.shown result.0).content self.calls }
    {
        let DataState {
            device,
            done,
            run: _,
        } = self;
        (device, done)
    }
}

// Passes a request to a device. A write with flush is passed as a flush, and then as a write if the
// flush succeeds.
fn do_request<D: BlockDev>(device: &mut D, now: Ms, bio: &Bio) -> Result<(), DevError>
    requires tracked { is_tracked bio.now ≡ true }
    requires checked { check_answer bio.now (D.shown device.old).size ≡ Ok tt }
    ensures size { (D.shown device.new).size ≡ (D.shown device.old).size }
    ensures lies { (D.shown device.old).lies ≤ (D.shown device.new).lies }
    ensures patched { Patched (values_of bio.now) (D.shown device.old).content
        (D.shown device.new).content }
    ensures whole { OnOk result ((D.shown device.new).lies ≡ 0 → (sector : ℕ) →
        (D.shown device.new).content sector
        ≡ put (values_of bio.now) (D.shown device.old).content sector) }
    ensures does { DoesInTurn D.does now (request_calls bio.now) device.old result device.new }
{
    match bio {
        Bio::Write {
            first,
            bytes,
            flush: true,
            fua,
            ..
        } => flush_and_write(device, now, *first, bytes.as_slice(), *fua),
        Bio::Write {
            first,
            bytes,
            fua,
            ..
        } => {
            device.write(now, *first, bytes.as_slice(), *fua)?;
            Ok(())
        }
        Bio::Flush => {
            device.flush(now)?;
            Ok(())
        }
        Bio::Discard { first, count } => {
            device.discard(now, *first, *count)?;
            Ok(())
        }
        Bio::Read { .. } => Ok(()),
    }
}

// Flushes a device, and then writes whole sectors to it if the flush succeeds.
fn flush_and_write<D: BlockDev>(
    device: &mut D,
    now: Ms,
    first: u64,
    bytes: &[u8],
    fua: bool,
) -> Result<(), DevError>
    requires { IsByteRange (D.shown device.old).size first (length bytes.now) }
    ensures size { (D.shown device.new).size ≡ (D.shown device.old).size }
    ensures lies { (D.shown device.old).lies ≤ (D.shown device.new).lies }
    ensures patched { Patched (writes first bytes.now) (D.shown device.old).content
        (D.shown device.new).content }
    ensures whole { OnOk result ((D.shown device.new).lies ≡ 0 → (sector : ℕ) →
        (D.shown device.new).content sector
        ≡ put (writes first bytes.now) (D.shown device.old).content sector) }
    ensures does { DoesInTurn D.does now
        (Flushes ∷ Writes first bytes.now fua ∷ []) device.old result device.new }
{
    device.flush(now)?;
    device.write(now, first, bytes, fua)?;
    Ok(())
}
