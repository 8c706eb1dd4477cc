//! The moments of a run that a question may name, and what `--explain` prints if the moment or the
//! image's size is wrong.
ghost use Rattle.std.specs.Prelude.{◌≡◌, ◌≤◌, [], Some, false, length};
ghost use Rattle.std.specs.String.{string_bytes};
ghost use Rattle.bio.specs.Events.{is_stop};
ghost use Rattle.dmlw_files.specs.Files.{KeepsFiles};
ghost use Rattle.pending.specs.CompletionList.{last_moment};

use crate::explain::{Counted, counted_sectors};
use crate::judge_image::answering::AskedImage;
use bio::{CoreEvent, SECTOR_BYTES};
use dmlw_files::{Files, read_image, read_text};
use dmlw_script::read_script;
use script_runner::events_of_run;
use std::alloc::Global;
use std::fmt;
use std::fmt::Write;

/// Returns the last moment of `events`: the number of events before the first Stop, or of all
/// events if there is no Stop. Each number from 0 up to it is a moment.
pub fn last_moment(events: &[CoreEvent]) -> usize
    ensures last { result ≡ last_moment events.now }
    ensures within { result ≤ length events.now }
{
    for (place, event) in events.iter().enumerate() {
        if event.is_stop() {
            return place;
        }
    }
    events.len()
}

// The last moment of a script's run, and what explains it.
#[derive(Clone, Copy)]
struct Moments {
    last: u64,
    // Whether logging ended before the script did.
    has_stopped: bool,
    // The size of the data disk in sectors, seen from the top of its layers.
    sectors: u64,
    has_layers: bool,
}

/// Returns what `--explain` adds if the moment or the image's size is wrong: lines that each begin
/// with two spaces. Empty if not `explains`, if a file can't be read or the script can't be
/// rehearsed, or if memory ran out.
pub(crate) fn explain_moment<F: Files>(
    alloc: Global,
    explains: bool,
    asked: AskedImage<'_>,
    files: &mut F,
) -> String
    ensures silent { explains ≡ false → string_bytes result ≡ [] }
    ensures kept { KeepsFiles (F.contents files.old) (F.contents files.new) }
    ensures unwritten { F.writes files.new ≡ F.writes files.old }
{
    let mut text = String::new(alloc);
    if !explains {
        return text;
    }
    match write_moment(alloc, asked, files, &mut text) {
        Ok(()) => text,
        Err(_) => String::new(alloc),
    }
}

// Writes how many events the script's run has, if the moment is past the last one. Writes the sizes
// of the disk and of the image, if they differ.
fn write_moment<F: Files, W: Write>(
    alloc: Global,
    asked: AskedImage<'_>,
    files: &mut F,
    to: &mut W,
) -> fmt::Result
    ensures kept { KeepsFiles (F.contents files.old) (F.contents files.new) }
    ensures unwritten { F.writes files.new ≡ F.writes files.old }
{
    let AskedImage {
        script,
        moment,
        image,
    } = asked;
    let text = read_text(alloc, script, files).map_err(|_| fmt::Error)?;
    let moments = moments_of(alloc, &text).ok_or(fmt::Error)?;
    let image_sectors = read_image(alloc, image, files)
        .map_err(|_| fmt::Error)?
        .len() as u64
        / SECTOR_BYTES;
    write_last(script, moment, moments, to)?;
    if image_sectors != moments.sectors {
        let image_size = counted_sectors(image_sectors);
        let disk = moments.sectors;
        let layers = if moments.has_layers {
            ", seen from the top of its layers"
        } else {
            ""
        };
        writeln!(
            to,
            "  the image {image} has {image_size}, and the data disk of {script} {disk}{layers}"
        )?;
    }
    Ok(())
}

// Writes how many events the run has, if `moment` is past the last one.
fn write_last<W: Write>(script: &str, moment: u64, moments: Moments, to: &mut W) -> fmt::Result {
    if moment <= moments.last {
        return Ok(());
    }
    let events = Counted {
        count: moments.last,
        one: "event",
        many: "events",
    };
    let until = if moments.has_stopped {
        " before logging ended"
    } else {
        ""
    };
    writeln!(
        to,
        "  the run of {script} has {events}{until}; you asked for {moment}"
    )
}

// Returns the moments of the run of the script with this text. None if the text isn't a script, its
// rehearsal fails, or memory runs out.
fn moments_of(alloc: Global, text: &[u8]) -> Option<Moments> {
    let script = read_script(alloc, text).ok()?;
    let rehearsed = events_of_run(alloc, text, &script).ok()?;
    let last = last_moment(rehearsed.events());
    Some(Moments {
        last: last as u64,
        has_stopped: last < rehearsed.events().len(),
        sectors: script.data().top_sectors(),
        has_layers: !script.data().layers().is_empty(),
    })
}
