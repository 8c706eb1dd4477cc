//! The threads of a run: one for each seat, and one that writes the log.
ghost use Rattle.std.specs.Prelude.{◌≡◌, ◌⊎◌, IfErr, IfOk};
ghost use Rattle.refusals.specs.declared.refusal.Refusal.TheVariants as refusals;
ghost use Rattle.script_runner.specs.inside.{AreNewPlayers, DoesLines, FitsRecorder, HavePlayed};
ghost use Rattle.script_runner.specs.inside.{IsUnplayed};
ghost use Rattle.shared.specs.Close.{HasOpenRequest};

use crate::seat_work::Work;
use blockdev::BlockDev;
use board::Names;
use dmlw_script::RunScript;
use lock_state::Run;
use refusals::Refusal;
use shared::{Shared, WriterSeat};
use std::sync::Wait;
use std::thread;
use std::thread::Threads;

// Starts the writer's thread, makes each seat's calls in a thread, and asks the recorder to close.
// If a seat's thread can't be started, this thread makes the seat's calls. If the writer's thread
// can't be started, no call is made.
pub(crate) fn run_all<
    D: BlockDev + Drop + Send,
    L: BlockDev + Drop + Send,
    R: Run + Names + Send + Sync,
    H: Threads + Wait + Sync,
>(
    rt: &H,
    script: &RunScript,
    recorder: &Shared<D, L, R>,
    writer: &mut WriterSeat<R>,
    works: Vec<Work<R>>,
) -> Result<Vec<Work<R>>, Refusal>
    requires fits { FitsRecorder R.sector_bytes R.sectors script.now }
    requires new { AreNewPlayers script.now.seats works.items }
    ensures played { IfOk result
        (λ works. HavePlayed script.now.calls script.now.seats works.items) }
    ensures refused { IfErr result (IsUnplayed R.sector_bytes R.sectors
        script.now.calls script.now.seats) }
{
    thread::scope(
        thread::scope_env(),
        rt,
        |scope| -> Result<Vec<Work<R>>, Refusal>
            requires fits { FitsRecorder R.sector_bytes R.sectors script.now }
            requires new { AreNewPlayers script.now.seats works.items }
            ensures played { IfOk result
                (λ works. HavePlayed script.entry.now.calls script.entry.now.seats works.items) }
            ensures refused { IfErr result
                (IsUnplayed R.sector_bytes R.sectors script.entry.now.calls
                script.entry.now.seats) }
        {
            if scope
                .spawn(move || recorder.write_loop(rt, writer))
                .is_err()
            {
                return Err(Refusal::NoThread);
            }
            let played = play(rt, script, recorder, works);
            ask_close(rt, recorder)?;
            Ok(played)
        },
    )
}

// Makes the calls of all seats, in a thread for each seat.
fn play<
    D: BlockDev + Drop + Send,
    L: BlockDev + Drop + Send,
    R: Run + Names + Send + Sync,
    H: Threads + Wait + Sync,
>(rt: &H, script: &RunScript, recorder: &Shared<D, L, R>, works: Vec<Work<R>>) -> Vec<Work<R>>
    requires fits { FitsRecorder R.sector_bytes R.sectors script.now }
    requires new { AreNewPlayers script.now.seats works.items }
    ensures { HavePlayed script.now.calls script.now.seats result.items }
{
    let mut works = works;
    let threads = works.len().saturating_add(1);
    thread::for_each_mut(
        rt,
        works.as_mut_slice(),
        threads,
        &|_, work: &mut Work<R>|
            requires { FitsRecorder R.sector_bytes R.sectors script.now }
            ensures { DoesLines script.entry.now.calls work.old work.new }
        { work.run(rt, script, recorder) },
    );
    works
}

// Asks the recorder to close. If the recorder refuses, ends logging, since otherwise the writer
// would wait for more entries.
fn ask_close<D: BlockDev + Drop, L: BlockDev + Drop, R: Run + Names, H: Wait>(
    rt: &H,
    recorder: &Shared<D, L, R>,
) -> Result<(), Refusal>
    ensures { IfErr result (λ refusal. (refusal ≡ refusals.Memory)
        ⊎ ((refusal ≡ refusals.Busy) × HasOpenRequest R.sector_bytes R.sectors)) }
{
    if let Err(error) = recorder.ask_close(rt) {
        recorder.give_up(rt);
        return Err(Refusal::from(error));
    }
    Ok(())
}
