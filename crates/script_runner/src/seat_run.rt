//! Runs a script of seats: makes the disks and the recorder, runs the seats, and closes the
//! recorder.
ghost use Rattle.std.specs.Prelude.{◌≡◌, ◌<◌, ℕ, IfErr, IfOk, map};
ghost use Rattle.lock_state.specs.PlacedItems.{ground_of};
ghost use Rattle.script_runner.specs.SeatRuns.{FailsRun, RunsSeats, IsUnclosed, begins_of, joined};
ghost use Rattle.dmlw_script.specs.RunPlans.{IsRunPlan};
ghost use Rattle.layer_table.specs.Layers.{disk_of, stack_does, stack_shown};
ghost use Rattle.refusals.specs.declared.run_error.RunError.TheVariants.{LoggingEnded};
ghost use Rattle.script_runner.specs.DiskRun.{IsStackOf};
ghost use Rattle.sector_disk.specs.DiskView.{shown_of};
ghost use Rattle.bio.specs.Content.{gather};
ghost use Rattle.script_runner.specs.inside.{AreNewPlayers, FitsRecorder};
ghost use Rattle.shared.specs.Close.{AreNewSeats, IsClosed};
ghost use Rattle.shared.specs.PlainCrash.{IsCreated};
ghost use Rattle.layer_table.specs.declared.stack.Stack.{Stack};

use crate::playing::new_stack;
use crate::recording::Lies;
use crate::seat_threads::run_all;
use crate::seat_work::Work;
use crate::tally::Tally;
use bio::{End, Status};
use blockdev::BlockDev;
use board::Names;
use dmlw_script::RunScript;
use layer_table::Stack;
use lock_state::{Receipt, Run, Seat};
use refusals::{Refusal, RunError};
use sector_disk::SectorDisk;
use shared::{Closed, Ending, Shared, Started, Unclosed, Unnamed, WriterSeat};
use std::alloc::{AllocError, Global};
use std::marker::Brand;
use std::sync::Wait;
use std::thread::Threads;

/// What a run of a script of seats returns.
#[derive(Debug, Drop)]
pub struct Ran {
    /// The tally of each seat, in their order.
    pub tallies: Vec<Tally>,
    /// The log's disk, below its layers.
    pub disk: SectorDisk,
    /// The number of placed entries, the highest sector that they use, and the cause by which
    /// logging ended, if it ended.
    pub status: Status,
    /// The lies of the layers.
    pub lies: Lies,
}

/// Runs a script on two disks in memory, with the sizes and layers that the script names. Each seat
/// makes the calls of its lines in its own thread; then the recorder is closed. The log is returned
/// even if logging ended before the script did. If no log can be made, the fault says why. No fault
/// names a line.
pub fn run_seats<H: Threads + Wait + Sync>(
    rt: &H,
    alloc: Global,
    script: &RunScript,
) -> Result<Ran, RunError>
    ensures ran { IfOk result (λ ran.
        RunsSeats script.now ran.tallies.items ran.status ran.lies
        (gather (shown_of ran.disk).content 0 (shown_of ran.disk).size)) }
    ensures faults { IfErr result (FailsRun script.now) }
{
    let device = new_stack(alloc, script.data())?;
    let log = new_stack(alloc, script.log())?;
    let unnamed = Unnamed::new(alloc, script.seats())?;
    run_on::<Brand, H>(rt, alloc, unnamed, device, log, script)
}

// Runs a script with a data device, and with a new log on the device `log`. `unnamed` has the
// ledger, the table and the board that `R` names.
fn run_on<R: Run + Names + Send + Sync, H: Threads + Wait + Sync>(
    rt: &H,
    alloc: Global,
    unnamed: Unnamed,
    device: Stack,
    log: Stack,
    script: &RunScript,
) -> Result<Ran, RunError>
    requires ledger { (unnamed.ledger.name ≡ R.name) × (unnamed.ledger.parts ≡ R.parts)
        × (unnamed.ledger.parts ≡ script.now.seats) }
    requires some { 0 < script.now.seats }
    requires script { IsRunPlan script.now }
    requires table { (unnamed.table ≡ R.table) × (unnamed.stops ≡ R.stops)
        × (unnamed.ends ≡ R.ends) × (unnamed.reads ≡ R.reads) }
    requires board { unnamed.board ≡ R.board }
    requires fits { FitsRecorder R.sector_bytes R.sectors script.now }
    requires device { IsStackOf script.now.data_disk device }
    requires log { IsStackOf script.now.log_disk log }
    requires ground { R.log ≡ ground_of (stack_shown log) }
    requires begins { (made : Stack) → IsCreated stack_does R.sector_bytes log made
        → R.begins (stack_shown made).clock }
    requires begun { (reading : ℕ) → R.begins reading → begins_of R.sector_bytes log reading }
    ensures ran { IfOk result (λ ran.
        RunsSeats script.now ran.tallies.items ran.status ran.lies
        (gather (shown_of ran.disk).content 0 (shown_of ran.disk).size)) }
    ensures faults { IfErr result (FailsRun script.now) }
{
    let Started {
        recorder,
        seats,
        mut writer,
        readers: _,
    } = start::<R>(alloc, unnamed, device, log, script)?;
    let works = works_of(alloc, seats, script.seats())?;
    let works = run_all(rt, script, &recorder, &mut writer, works)?;
    let Parts {
        seats,
        tallies,
        receipts,
    } = parts_of(alloc, works)?;
    let closed = close(recorder, writer, seats, receipts)?;
    Ok(ran_of(tallies, closed))
}

// Returns a recorder with a new log, and with the seats that the script asks for.
fn start<R: Run + Names>(
    alloc: Global,
    unnamed: Unnamed,
    device: Stack,
    log: Stack,
    script: &RunScript,
) -> Result<Started<Stack, Stack, R>, RunError>
    requires ledger { (unnamed.ledger.name ≡ R.name) × (unnamed.ledger.parts ≡ R.parts)
        × (unnamed.ledger.parts ≡ script.now.seats) }
    requires table { (unnamed.table ≡ R.table) × (unnamed.stops ≡ R.stops)
        × (unnamed.ends ≡ R.ends) × (unnamed.reads ≡ R.reads) }
    requires board { unnamed.board ≡ R.board }
    requires fits { FitsRecorder R.sector_bytes R.sectors script.now }
    requires device { IsStackOf script.now.data_disk device }
    requires log { IsStackOf script.now.log_disk log }
    requires ground { R.log ≡ ground_of (stack_shown log) }
    requires begins { (made : Stack) → IsCreated stack_does R.sector_bytes log made
        → R.begins (stack_shown made).clock }
    ensures seats { IfOk result (λ started. AreNewSeats script.now.seats started.seats.items) }
    ensures faults { IfErr result (FailsRun script.now) }
{
    let size = script.log_size();
    match Shared::new_sized(alloc, unnamed, device, log, size, script.seats(), 0) {
        Ok(started) => Ok(started),
        Err(refused) => Err(RunError::LoggingEnded(end_of(refused))),
    }
}

// Drops both devices, and returns the cause for which no log could be made.
fn end_of(refused: (Stack, Stack, End)) -> End
    ensures { result ≡ refused.2 }
{
    refused.2
}

// Returns the `Work` of each seat, before its first call.
fn works_of<R: Run + Names>(
    alloc: Global,
    seats: Vec<Seat<R>>,
    many: u64,
) -> Result<Vec<Work<R>>, AllocError>
    requires { AreNewSeats many seats.items }
    ensures { IfOk result (λ works. AreNewPlayers many works.items) }
{
    let mut works = Vec::with_capacity(alloc, many as usize)?;
    for seat in seats {
        let number = works.len() as u64;
        works.push(Work::new(alloc, number, seat))?;
    }
    Ok(works)
}

// What the seats leave: their parts for the close, and their tallies.
struct Parts<R: Run + Names> {
    seats: Vec<Seat<R>>,
    tallies: Vec<Tally>,
    receipts: Vec<Receipt<R>>,
}

// Splits the works into their seats, their tallies in the same order, and their receipts.
#[tactic(auto, using(crate::proofs::SeatRunSteps::map_push, crate::proofs::SeatRunSteps::joined_next))]
fn parts_of<R: Run + Names>(alloc: Global, works: Vec<Work<R>>) -> Result<Parts<R>, AllocError>
    ensures seats { IfOk result
        (λ parts. parts.seats.items ≡ map (λ player. player.part) works.items) }
    ensures tallies { IfOk result
        (λ parts. parts.tallies.items ≡ map (λ player. player.tally) works.items) }
    ensures receipts { IfOk result
        (λ parts. parts.receipts.items ≡ joined (map (λ player. player.receipts) works.items)) }
{
    let mut seats = Vec::new(alloc);
    let mut tallies = Vec::new(alloc);
    let mut receipts = Vec::new(alloc);
    for work in works {
        tallies.push(work.tally)?;
        let mut given = work.receipts;
        receipts.append(&mut given)?;
        seats.push(work.seat)?;
    }
    Ok(Parts {
        seats,
        tallies,
        receipts,
    })
}

fn close<R: Run + Names>(
    recorder: Shared<Stack, Stack, R>,
    writer: WriterSeat<R>,
    seats: Vec<Seat<R>>,
    receipts: Vec<Receipt<R>>,
) -> Result<Closed<Stack, Stack>, Refusal>
    ensures closed { IfOk result (λ closed. IsClosed stack_does R.begins R.log R.sector_bytes
        R.sectors R.parts (stack_shown closed.device) (stack_shown closed.log) seats.items
        receipts.items closed) }
    ensures refused { IfErr result (IsUnclosed R.begins R.log R.sector_bytes R.sectors R.parts
        seats.items receipts.items) }
{
    match recorder.close(seats, writer, receipts) {
        Ok(
            Ending {
                closed,
                published: _,
                released: _,
                written: _,
                found: _,
            },
        ) => Ok(closed),
        Err(Unclosed::Busy(_)) => Err(Refusal::Busy),
        Err(Unclosed::Foreign(_)) => Err(Refusal::Foreign),
    }
}

// Returns the result of a run, from the tallies and the closed recorder.
fn ran_of(tallies: Vec<Tally>, closed: Closed<Stack, Stack>) -> Ran
    ensures tallies { result.tallies.items ≡ tallies.items }
    ensures status { result.status ≡ closed.status }
    ensures lies { result.lies
        ≡ record {
          data_disk = (stack_shown closed.device).lies;
          log_disk = (stack_shown closed.log).lies;
        } }
    ensures disk { result.disk ≡ disk_of closed.log }
{
    let lies = Lies {
        data_disk: closed.device.lies(),
        log_disk: closed.log.lies(),
    };
    Ran {
        tallies,
        status: closed.status,
        lies,
        disk: closed.log.into_disk(),
    }
}
