//! Reads an image from a file: whole sectors, at most 512 MiB.
ghost use Rattle.std.specs.Prelude.{◌≡◌, IfErr, IfOk};
ghost use Rattle.refusals.specs.Errors.{IsFileError, memory_error};
ghost use Rattle.dmlw_files.specs.Files.{FileHoldsImage, IsImage, KeepsFiles, MatchesContents};

use crate::files::Files;
use bio::SECTOR_BYTES;
use refusals::{Refusal, RunError};
use sector_disk::Image;
use std::alloc::Global;

/// An image has at most this many bytes, which are 1,048,576 sectors.
pub const MAX_IMAGE_BYTES: u64 = 536_870_912;

/// Reads the image in the file `name`: whole sectors of 512 bytes, at least one and at most 512
/// MiB. A file that holds no image, or can't be read, is refused with `File`. If the file is known
/// to hold an image, the call fails only if memory runs out.
#[tactic(auto, using(crate::specs::Files::image_within, crate::specs::Files::image_read))]
pub fn read_image<F: Files>(alloc: Global, name: &str, files: &mut F) -> Result<Image, RunError>
    ensures contents { IfOk result
        (λ image. MatchesContents (F.contents files.old name.now) image) }
    ensures whole { IfOk result (λ image. IsImage image) }
    ensures fault { IfErr result IsFileError }
    ensures readable { FileHoldsImage (F.contents files.old name.now)
        → IfErr result (λ fault. fault ≡ memory_error) }
    ensures kept { KeepsFiles (F.contents files.old) (F.contents files.new) }
    ensures unwritten { F.writes files.new ≡ F.writes files.old }
{
    let image = files.read(alloc, name, MAX_IMAGE_BYTES)?;
    if image.len() == 0 || image.len() as u64 % SECTOR_BYTES != 0 {
        return Err(RunError::from(Refusal::File));
    }
    Ok(image)
}
