//! A kind of answer about an image: how it is found and printed, and how it ends the command.
ghost use Rattle.std.specs.Prelude.{◌≡◌, ◌/◌, ◌%◌, IfOk, OnOk, [], false, length, take, true};
ghost use Rattle.std.specs.String.{string_bytes};
ghost use Rattle.dmlw_files.specs.Files.{KeepsFiles};
ghost use Rattle.std.specs.Io.KnownBytes.{Appends};
ghost use Rattle.bio.specs.Events.{is_lawful};
ghost use Rattle.bio.specs.Content.{sector_of};
ghost use Rattle.dmlw_commands.specs.Judgements.{Meaning, blank};

use crate::Exit;
use bio::CoreEvent;
use dmlw_files::Files;
use std::alloc::{AllocError, Global};
use std::io;
use std::io::Write;

// An answer about an image. Only the kind of answer differs between `judge` and `path`.
pub(crate) trait Answer: Drop {
    // What the answer claims, what is printed, and how it ends the command.
    ghost meaning: { Meaning Self };

    // Finds the answer after the first `moment` events, on a device that held zeroes at first. A
    // recorder of the device could have recorded `events`. The image has the device's size, in
    // whole sectors of 512 bytes. The only error is that memory ran out.
    fn on_image(
        alloc: Global,
        events: &[CoreEvent],
        moment: u64,
        image: &[u8],
    ) -> Result<Self, AllocError>
        requires whole { length image.now % 512 ≡ 0 }
        requires lawful { is_lawful (length image.now / 512) events.now ≡ true }
        ensures { IfOk result
            (meaning.says (length image.now / 512) (take moment events.now)
            (blank (length image.now)) (sector_of image.now)) };

    // Prints the answer.
    fn print<O: Write>(&self, out: &mut O) -> io::Result<()>
        ensures { OnOk result (Appends (O.contents out.old) (O.contents out.new)
            (meaning.printed self.now)) };

    // Returns what `--explain` adds after the answer: lines that each begin with two spaces.
    // `script` is the script's file. The result is empty if not `explains`.
    fn explain<F: Files>(
        &self,
        alloc: Global,
        explains: bool,
        script: &str,
        files: &mut F,
    ) -> String
        ensures silent { explains ≡ false → string_bytes result ≡ [] }
        ensures kept { KeepsFiles (F.contents files.old) (F.contents files.new) }
        ensures unwritten { F.writes files.new ≡ F.writes files.old };

    fn exit(&self) -> Exit
        ensures { result ≡ meaning.ends self.now };
}
