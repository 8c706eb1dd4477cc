//! Runs a script on two disks in memory, each under its layers, with a new log.
ghost use Rattle.std.specs.Prelude.{◌≡◌, ◌≤◌, ◌/◌, ◌⊎◌, IfErr, IfOk, []};
ghost use Rattle.bio.specs.Requests.{bytes_of};
ghost use Rattle.dmlw_script.specs.Plans.{IsDisk, top_of};
ghost use Rattle.sector_disk.specs.DiskView.{shown_of};
ghost use Rattle.layer_table.specs.Layers.{AreOver, disk_of, layers_of, layers_under, stack_shown};
ghost use Rattle.layer_table.specs.StackMessages.{StackAnswers};
ghost use Rattle.refusals.specs.Errors.{memory_error};
ghost use Rattle.script_runner.specs.DiskRun.{FailsOnDisks, IsNewOn, IsStackOf, IsUnmadeOn, Starts};
ghost use Rattle.script_runner.specs.DiskRun.{stack_answering};
ghost use Rattle.script_runner.specs.Lines.{answering};
ghost use Rattle.script_runner.specs.inside.{FailsPlaying, IsPlayed, StartsOnStack, StartsOn};

use crate::run_script::run;
use crate::running::Running;
use bio::{End, Ms, SectorSize};
use blockdev::{BlockDev, Message};
use dmlw_script::{DiskSpec, Script};
use layer_table::Stack;
use log_store::LogStore;
use recorder::Recorder;
use refusals::{Refusal, RunError};
use sector_disk::SectorDisk;
use std::alloc::Global;
use std::io::Write;

// What a script's run leaves, besides its output.
#[derive(Drop)]
pub(crate) struct Played<L: BlockDev + Drop> {
    // The recorder after the last line.
    pub(crate) recorder: Recorder<L>,
    // How many calls the layers of the data device dropped and reported as done.
    pub(crate) data_lies: u64,
    // Whether memory sufficed for everything that the lines asked, except perhaps for reads.
    pub(crate) ample: bool,
}

// Runs `script` on two disks in memory, each under the layers that the script names. `text` is the
// script's text.
pub(crate) fn play_on_disks<O: Write>(
    alloc: Global,
    text: &[u8],
    script: &Script,
    out: &mut O,
) -> Result<Played<Stack>, RunError>
    ensures played { IfOk result
        (λ played. IsPlayed stack_answering script.now (Starts script.now) (O.contents out.old)
        (O.contents out.new) played.recorder played.data_lies played.ample) }
    ensures faults { IfErr result
        (FailsOnDisks text.now script.now (O.contents out.old) (O.contents out.new)) }
{
    let log = new_stack(alloc, script.log())?;
    play_beside(alloc, text, script, log, out)
}

// Runs `script` with the data disk that it names, and with a new log on the device `log`.
fn play_beside<L: Message + Drop, O: Write>(
    alloc: Global,
    text: &[u8],
    script: &Script,
    log: L,
    out: &mut O,
) -> Result<Played<L>, RunError>
    requires { bytes_of script.now.log_size / 512 ≤ (L.shown log).size }
    ensures played { IfOk result
        (λ played. IsPlayed {l = L.BlockDev} (answering StackAnswers L.answers) script.now
        (StartsOnStack (bytes_of script.now.log_size) script.now.data_disk log) (O.contents out.old)
        (O.contents out.new) played.recorder played.data_lies played.ample) }
    ensures faults { IfErr result
        (FailsPlaying {l = L.BlockDev} (answering StackAnswers L.answers) text.now script.now
        (IsUnmadeOn L.BlockDev (bytes_of script.now.log_size) log)
        (StartsOnStack (bytes_of script.now.log_size) script.now.data_disk log) (O.contents out.old)
        (O.contents out.new)) }
{
    let data = new_stack(alloc, script.data())?;
    play(alloc, text, script, log, data, out)
}

// Runs a script with the data device `disk` and a new log on the device `log`. `log` has room for
// at least one log sector.
fn play<D: Message + Drop, L: Message + Drop, O: Write>(
    alloc: Global,
    text: &[u8],
    script: &Script,
    log: L,
    disk: D,
    out: &mut O,
) -> Result<Played<L>, RunError>
    requires size { (D.shown disk).size ≡ top_of script.now.data_disk }
    requires room { bytes_of script.now.log_size / 512 ≤ (L.shown log).size }
    ensures played { IfOk result
        (λ played. IsPlayed {d = D.BlockDev} {l = L.BlockDev}
        (answering D.answers L.answers) script.now
        (StartsOn (bytes_of script.now.log_size) disk log) (O.contents out.old)
        (O.contents out.new) played.recorder played.data_lies played.ample) }
    ensures faults { IfErr result
        (FailsPlaying {d = D.BlockDev} {l = L.BlockDev}
        (answering D.answers L.answers) text.now script.now
        (IsUnmadeOn L.BlockDev (bytes_of script.now.log_size) log)
        (StartsOn (bytes_of script.now.log_size) disk log) (O.contents out.old)
        (O.contents out.new)) }
{
    let mut running = start_on(alloc, log, script.log_size(), disk, script.names().len())?;
    run(text, script, &mut running, out)?;
    let ample = running.had_memory();
    let (recorder, disk) = running.into_parts();
    Ok(Played {
        recorder,
        data_lies: disk.lies(),
        ample,
    })
}

// Returns the run of a script before its first line: with the data device `disk`, with a new log on
// `log`, and with room for `requests` requests.
fn start_on<D: BlockDev + Drop, L: BlockDev + Drop>(
    alloc: Global,
    log: L,
    size: SectorSize,
    disk: D,
    requests: usize,
) -> Result<Running<D, L>, RunError>
    requires { bytes_of size / 512 ≤ (L.shown log).size }
    ensures starts { IfOk result (StartsOn (bytes_of size) disk log) }
    ensures faults { IfErr result
        (λ fault. (fault ≡ memory_error) ⊎ IsUnmadeOn L.BlockDev (bytes_of size) log fault) }
{
    let recorder = new_recorder(alloc, log, size)?;
    Ok(Running::new(alloc, recorder, disk, requests)?)
}

/// Returns a recorder with a new log on a device, with log sectors of size `size`.
pub fn new_recorder<L: BlockDev + Drop>(
    alloc: Global,
    device: L,
    size: SectorSize,
) -> Result<Recorder<L>, RunError>
    requires { bytes_of size / 512 ≤ (L.shown device).size }
    ensures made { IfOk result (IsNewOn (bytes_of size) device) }
    ensures faults { IfErr result
        (λ fault. (fault ≡ memory_error) ⊎ IsUnmadeOn L.BlockDev (bytes_of size) device fault) }
{
    match LogStore::create_sized(device, size) {
        Ok(store) => match Recorder::new(alloc, store) {
            Ok(recorder) => Ok(recorder),
            Err(_store) => Err(RunError::from(Refusal::Memory)),
        },
        Err(refused) => Err(RunError::LoggingEnded(end_of(refused))),
    }
}

// Drops the device, and returns the cause for which no log could be made on it.
fn end_of<D: Drop>(refused: (D, End)) -> End
    ensures { result ≡ refused.1 }
{
    refused.1
}

/// Returns a new disk of zeroes under the layers that `disk` names.
pub fn new_stack(alloc: Global, disk: &DiskSpec) -> Result<Stack, RunError>
    requires { IsDisk disk.now }
    ensures stack { IfOk result (IsStackOf disk.now) }
    ensures faults { IfErr result (λ fault. fault ≡ memory_error) }
{
    let bare = SectorDisk::new(alloc, disk.sectors())?;
    Ok(stack_over(alloc, bare, disk))
}

/// Returns the disk `bare`, which is as large as `disk` says, under the layers that `disk` names.
/// Each layer is loaded at time 0.
pub fn stack_over(alloc: Global, bare: SectorDisk, disk: &DiskSpec) -> Stack
    requires disk { IsDisk disk.now }
    requires size { (shown_of bare).size ≡ disk.now.sectors }
    ensures bare { disk_of result ≡ bare }
    ensures layers { layers_of result ≡ layers_under disk.now.layers 0 [] }
    ensures over { AreOver disk.now.layers (shown_of bare) (stack_shown result) }
{
    match Stack::new(bare).layered(alloc, disk.layers(), Ms::new(0)) {
        Ok(stack) => stack,
        Err(_) => unreachable!("the layers of a script's disk fit on it"),
    }
}
