//! Explains which file of a command can't be used, and why. Files are read again to find this out.
//! If a file can't be read again, nothing is printed about it.
ghost use Rattle.std.specs.Prelude.{◌≡◌};
ghost use Rattle.dmlw_files.specs.Files.{KeepsFiles};

use crate::explain::packed::{Packer, write_packed};
use bio::SECTOR_BYTES;
use dmlw_files::{FileFailure, Files, MAX_IMAGE_BYTES, MAX_SCRIPT_BYTES};
use sector_disk::Image;
use std::alloc::Global;
use std::fmt::Write;
use std::{fmt, io};

/// Writes that two names are the same file.
pub(crate) fn write_same<W: Write>(one: &str, other: &str, over: &str, to: &mut W) -> fmt::Result {
    writeln!(to, "  {one} and {other} are one file: {over}")
}

/// Writes which file of a recording can't be used, and why.
pub(crate) fn write_file_of_recording<F: Files, W: Write>(
    alloc: Global,
    script: &str,
    log: &str,
    files: &mut F,
    to: &mut W,
) -> fmt::Result
    ensures kept { KeepsFiles (F.contents files.old) (F.contents files.new) }
    ensures unwritten { F.writes files.new ≡ F.writes files.old }
{
    if files.is_same(script, log) {
        return write_same(script, log, "the log would be written over its script", to);
    }
    if let Some(FileFailure::Write(error)) = files.failure() {
        return write_unwritten(log, error, to);
    }
    if write_script_file(alloc, script, files, to)? {
        return Ok(());
    }
    write_output(to)
}

/// Writes whether the script or the image can't be used, and why.
pub(crate) fn write_file_of_judging<F: Files, W: Write>(
    alloc: Global,
    script: &str,
    image: &str,
    files: &mut F,
    to: &mut W,
) -> fmt::Result
    ensures kept { KeepsFiles (F.contents files.old) (F.contents files.new) }
    ensures unwritten { F.writes files.new ≡ F.writes files.old }
{
    if write_script_file(alloc, script, files, to)? || write_image_file(alloc, image, files, to)? {
        return Ok(());
    }
    write_output(to)
}

/// Writes why the log's file can't be used, or that the output can't be used.
pub(crate) fn write_file_of_reading<F: Files, W: Write>(
    alloc: Global,
    log: &str,
    files: &mut F,
    to: &mut W,
) -> fmt::Result
    ensures kept { KeepsFiles (F.contents files.old) (F.contents files.new) }
    ensures unwritten { F.writes files.new ≡ F.writes files.old }
{
    if write_image_file(alloc, log, files, to)? {
        return Ok(());
    }
    write_output(to)
}

/// Writes whether the log, the first image or the written image can't be used, and why. A copy has
/// no first image, and passes its log as `first` too.
pub(crate) fn write_file_of_writing<F: Files, W: Write>(
    alloc: Global,
    log: &str,
    first: &str,
    out: &str,
    files: &mut F,
    to: &mut W,
) -> fmt::Result
    ensures kept { KeepsFiles (F.contents files.old) (F.contents files.new) }
    ensures unwritten { F.writes files.new ≡ F.writes files.old }
{
    if files.is_same(log, out) {
        return write_same(log, out, "what is written would replace the log", to);
    }
    if let Some(FileFailure::Write(error)) = files.failure() {
        return write_unwritten(out, error, to);
    }
    if write_image_file(alloc, log, files, to)? || write_image_file(alloc, first, files, to)? {
        return Ok(());
    }
    write_output(to)
}

// Writes why a file can't be written, and what a regular file needs of its folder.
fn write_unwritten<W: Write>(name: &str, error: &io::Error, to: &mut W) -> fmt::Result {
    writeln!(to, "  {name} can't be written: {error}")?;
    match error.kind() {
        io::ErrorKind::NotFound => writeln!(
            to,
            "  its folder must exist; if {name} is a link, so must the file that it leads to"
        ),
        io::ErrorKind::PermissionDenied | io::ErrorKind::ReadOnlyFilesystem => writeln!(
            to,
            "  a regular file is first written next to {name}, and then renamed, so its folder must be writable; a device must be writable itself"
        ),
        io::ErrorKind::StorageFull | io::ErrorKind::QuotaExceeded => writeln!(
            to,
            "  a regular file is first written next to {name}, so its file system needs room for all of it; a device must be as large as what is written"
        ),
        _ => Ok(()),
    }
}

fn write_output<W: Write>(to: &mut W) -> fmt::Result {
    writeln!(to, "  the standard output can't be written")
}

// Writes why a script's file can't be read. Returns true if it can't.
fn write_script_file<F: Files, W: Write>(
    alloc: Global,
    script: &str,
    files: &mut F,
    to: &mut W,
) -> Result<bool, fmt::Error>
    ensures kept { KeepsFiles (F.contents files.old) (F.contents files.new) }
    ensures unwritten { F.writes files.new ≡ F.writes files.old }
{
    if files.read(alloc, script, MAX_SCRIPT_BYTES).is_ok() {
        return Ok(false);
    }
    write_unread(script, MAX_SCRIPT_BYTES, "a script", files, to)?;
    Ok(true)
}

// Writes why a file isn't an image. Returns true if it isn't, or if it can't be read again.
fn write_image_file<F: Files, W: Write>(
    alloc: Global,
    image: &str,
    files: &mut F,
    to: &mut W,
) -> Result<bool, fmt::Error>
    ensures kept { KeepsFiles (F.contents files.old) (F.contents files.new) }
    ensures unwritten { F.writes files.new ≡ F.writes files.old }
{
    match files.read(alloc, image, MAX_IMAGE_BYTES) {
        Ok(read) => {
            let packer = packer_of(alloc, &read);
            write_length(image, read.len() as u64, packer, to)
        }
        Err(_) => {
            write_unread(image, MAX_IMAGE_BYTES, "a log or an image", files, to)?;
            if let Some(FileFailure::TooLong(_)) = files.failure() {
                write_cut(image, to)?;
            }
            Ok(true)
        }
    }
}

// Writes how to cut a log that is too long.
fn write_cut<W: Write>(image: &str, to: &mut W) -> fmt::Result {
    writeln!(
        to,
        "  the entries within the first {MAX_IMAGE_BYTES} bytes of a log can be read: head -c {MAX_IMAGE_BYTES} {image} >cut.log"
    )
}

// Returns the program that packed an image, if its first bytes are of a packed file.
fn packer_of(alloc: Global, image: &Image) -> Option<Packer> {
    if image.len() > MAX_SCRIPT_BYTES as usize {
        return None;
    }
    Packer::of(image.to_vec(alloc).ok()?.as_slice())
}

// Writes that an image can't have `length` bytes, and how it is unpacked if it was packed by
// `packer`. Returns true if it can't.
fn write_length<W: Write>(
    image: &str,
    length: u64,
    packer: Option<Packer>,
    to: &mut W,
) -> Result<bool, fmt::Error> {
    let over = length % SECTOR_BYTES;
    let whole = length - over;
    if let Some(packer) = packer {
        write_packed(image, packer, to)?;
    } else if length == 0 {
        writeln!(
            to,
            "  {image} is empty: a log or an image has at least {SECTOR_BYTES} bytes"
        )?;
    } else if length < SECTOR_BYTES {
        writeln!(
            to,
            "  {image} has {length} bytes, less than a sector of {SECTOR_BYTES}"
        )?;
    } else if over != 0 {
        writeln!(
            to,
            "  {image} has {length} bytes, {over} more than a multiple of {SECTOR_BYTES}: head -c {whole} {image} >cut.img copies its whole sectors"
        )?;
    }
    Ok(length == 0 || over != 0)
}

// Returns whether a read failed because the file was read before, or because memory ran out.
// Neither is the fault of the file.
fn is_of_rereading(kind: io::ErrorKind) -> bool {
    kind == io::ErrorKind::NotSeekable || kind == io::ErrorKind::OutOfMemory
}

// Writes why the file `name` can't be read as `kind`, which has at most `limit` bytes. Writes
// nothing if the file couldn't be read a second time, or if memory ran out.
fn write_unread<F: Files, W: Write>(
    name: &str,
    limit: u64,
    kind: &str,
    files: &F,
    to: &mut W,
) -> fmt::Result {
    match files.failure() {
        Some(FileFailure::Read(error)) if is_of_rereading(error.kind()) => Ok(()),
        Some(FileFailure::Read(error)) | Some(FileFailure::Write(error)) => {
            writeln!(to, "  {name} can't be read: {error}")
        }
        Some(FileFailure::TooLong(length)) if *length > limit => writeln!(
            to,
            "  {name} has {length} bytes; {kind} has at most {limit}"
        ),
        Some(FileFailure::TooLong(_)) => {
            writeln!(
                to,
                "  {name} has more than {limit} bytes, the limit for {kind}"
            )
        }
        None => writeln!(
            to,
            "  {name} can't be read, or has more than {limit} bytes, the limit for {kind}"
        ),
    }
}
