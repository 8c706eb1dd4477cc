//! Records a script, and returns the log's disk, its status, and the counts of lies.
ghost use Rattle.std.specs.Prelude.{◌≡◌, IfErr, IfOk, List, option_copied, ℕ};
ghost use Rattle.std.specs.Io.KnownBytes.{Appends};
ghost use Rattle.bio.specs.Content.{AgreeBelow, gather};
ghost use Rattle.sector_disk.specs.DiskView.{shown_of};
ghost use Rattle.layer_table.specs.Layers.{disk_of};
ghost use Rattle.script_runner.specs.DiskRun.{FailsOnDisks, IsRecorded, left_on};

use crate::laws::{closed_runs_leave_whole_logs, lines_go_as_one_call};
use crate::playing::play_on_disks;
use bio::Status;
use blockdev::BlockDev;
use dmlw_script::Script;
use layer_table::Stack;
use recorder::laws::{crashed_logs_replay_to_what_could_be, recorders_are_sound};
use refusals::RunError;
use sector_disk::SectorDisk;
use std::alloc::Global;
use std::io::Write;

/// How many calls the layers of each disk dropped and reported as done. Each count stops at 2^64 -
/// 1.
#[derive(Clone, Copy, Debug, PartialEq, Eq)]
pub struct Lies {
    /// The lies of the layers over the data disk.
    pub data_disk: u64,
    /// The lies of the layers over the log's disk.
    pub log_disk: u64,
}

/// What recording a script leaves.
#[derive(Debug, Drop)]
pub struct RunResult {
    /// The log's disk, below its layers.
    pub disk: SectorDisk,
    /// The number of placed entries, the highest sector that they use, and the cause by which
    /// logging ended, if it ended.
    pub status: Status,
    /// The lies of the layers.
    pub lies: Lies,
}

/// Records `script` on two disks in memory, with the sizes and layers that the script names. `text`
/// is the script's text. What the lines print is written to `out`. If the script ends with a crash,
/// the log's disk is crashed at the end, with the script's picks.
///
/// The log is returned even if logging ended before the script did. If no log can be made, the
/// fault says why. If a line is refused, the fault names the line. If memory runs out or the output
/// can't be written, the fault names no line.
pub fn record<O: Write>(
    alloc: Global,
    text: &[u8],
    script: &Script,
    out: &mut O,
) -> Result<RunResult, RunError>
    ensures recorded { IfOk result (λ recorded. (printed : List ℕ)
        × (let image = gather (shown_of recorded.disk).content 0 (shown_of recorded.disk).size in
        IsRecorded script.now printed recorded.status recorded.lies image)
        × Appends (O.contents out.old) (O.contents out.new) printed) }
    ensures faults { IfErr result
        (FailsOnDisks text.now script.now (O.contents out.old) (O.contents out.new)) }
{
    // For the prover: what a crash leaves replays to what could be held, the lines change the
    // recorder as its calls do, and closed runs leave whole logs.
    crashed_logs_replay_to_what_could_be::<Stack>();
    lines_go_as_one_call::<Stack, Stack>();
    closed_runs_leave_whole_logs::<Stack, Stack>();
    let played = play_on_disks(alloc, text, script, out)?;
    // For the prover: what always holds for the recorder and its core.
    recorders_are_sound(&played.recorder);
    let status = played.recorder.status();
    let data_lies = played.data_lies;
    let log = played.recorder.into_device();
    let lies = Lies {
        data_disk: data_lies,
        log_disk: log.lies(),
    };
    let disk = left_disk(log, script.crash());
    Ok(RunResult { disk, status, lies })
}

// Returns the log's disk without its layers. With picks, it is crashed first.
fn left_disk(log: Stack, picks: Option<&[u64]>) -> SectorDisk
    ensures size { (shown_of result).size ≡ (shown_of (disk_of log)).size }
    ensures content { AgreeBelow (shown_of (disk_of log)).size
        (left_on (option_copied picks.entry) (disk_of log)) (shown_of result).content }
{
    let mut disk = log.into_disk();
    if let Some(picks) = picks {
        disk.crash(picks);
    }
    disk
}
