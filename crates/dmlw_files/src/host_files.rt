//! Files of the operating system.
ghost use Rattle.std.specs.Prelude.{◌≡◌, ◌≤◌, ◌<◌, ◌+◌, ◌++◌, ◌%◌, IfOk, IfSome, None, OnOk};
ghost use Rattle.std.specs.Prelude.{is_some, length, take};
ghost use Rattle.std.specs.Io.KnownBytes.{Consumes, IsAtEnd};

use crate::files::{FileError, FileFailure, Files};
use crate::holes::{Holes, NewFile};
use crate::pieces::{PIECE, write_sectors};
use crate::text::MAX_SCRIPT_BYTES;
use bio::SECTOR_BYTES;
use blockdev::BlockDev;
use sector_disk::{Image, SectorDisk};
use std::alloc::{AllocError, Global};
use std::fs::{File, OpenFile, OpenOptions, Permissions};
use std::io::{Read, Seek, Write};
use std::os::unix::fs::{FileTypeExt, MetadataExt};
use std::{fs, io};

// A new file in a file's folder tries at most this many names.
const MAX_BESIDE: u32 = 1000;

// A file system takes names of 255 bytes, and `.dmlw-tmp-999` is 13 of them.
const MAX_FRONT_BYTES: usize = 255 - 13;

// A file is read in pieces of this many bytes, which is the size of an `Image`'s piece.
const READ_BYTES: usize = 65_536;

// A file can have at most this many bytes.
const MAX_FILE_BYTES: u64 = 9_223_372_036_854_775_807;

/// The files of the operating system. Nothing is proved about their contents.
///
/// A regular file is replaced as a whole or not at all. The bytes are written to a new file
/// `NAME.dmlw-tmp-<n>` in the same folder, or `.dmlw-tmp-<n>` if NAME is too long, which is then
/// renamed. A link isn't changed; the file
/// that it leads to is replaced. A pipe, a device, or a stream of the process such as
/// `/dev/stdout`, is written directly: the bytes are appended.
///
/// A pipe, a socket or a character device can be read only once. So this value remembers the bytes,
/// if there are at most 4,194,304. A later read of the name returns a copy of them. It
/// fails with `TooLong(0)` if the file is longer than its limit, else with `NotSeekable` if the
/// bytes weren't kept.
#[derive(Drop)]
pub struct HostFiles<'a, R: std::rt::Files> {
    runtime: &'a R,
    failure: Option<FileFailure>,
    spent: Vec<Spent>,
}

// A file that was read once and can't be read again. The read may have failed.
#[derive(Drop)]
struct Spent {
    name: String,
    // How many bytes were read: the limit plus one if the file is longer, 0 if the read failed.
    length: u64,
    // All bytes of the file; None if they were too many, or memory ran out.
    bytes: Option<Vec<u8>>,
}

impl Spent {
    // Returns the bytes of the file. Returns `Err(0)` if the file has more than `limit` bytes.
    // Fails if the bytes weren't remembered.
    fn read(&self, alloc: Global, limit: u64) -> io::Result<Result<Image, u64>>
        ensures { IfOk result (λ found. IfOk found (λ image. length image ≤ limit)) }
    {
        match &self.bytes {
            Some(bytes) if bytes.len() as u64 <= limit => {
                Ok(Ok(Image::from_slice(alloc, bytes)?))
            }
            _ if self.length > limit => Ok(Err(0)),
            _ => Err(io::Error::from(io::ErrorKind::NotSeekable)),
        }
    }
}

impl<'a, R: std::rt::Files> HostFiles<'a, R> {
    pub fn new(runtime: &'a R, alloc: Global) -> HostFiles<'a, R> {
        HostFiles {
            runtime,
            failure: None,
            spent: Vec::new(alloc),
        }
    }

    // Returns all bytes of a file. If they are more than `limit`, returns the length that the
    // system reports.
    fn find(&mut self, alloc: Global, name: &str, limit: u64) -> io::Result<Result<Image, u64>>
        ensures within { IfOk result (λ found. IfOk found (λ image. length image ≤ limit)) }
        ensures failure { self.new.failure ≡ self.old.failure }
    {
        if let Some(spent) = self.spent.iter().find(|spent| spent.name.as_str() == name) {
            return spent.read(alloc, limit);
        }
        if reads_again(self.runtime, name) {
            return read_file(self.runtime, alloc, name, limit);
        }
        self.read_once(alloc, name, limit)
    }

    // Reads a file that can be read only once, and remembers its bytes.
    fn read_once(&mut self, alloc: Global, name: &str, limit: u64) -> io::Result<Result<Image, u64>>
        ensures within { IfOk result (λ found. IfOk found (λ image. length image ≤ limit)) }
        ensures failure { self.new.failure ≡ self.old.failure }
    {
        // The memory for the name is allocated before the file is read.
        let kept_name = String::from_str(alloc, name)?;
        self.spent.reserve(1)?;
        let file = fs::open(self.runtime, name)?;
        let found = read_open::<R>(file, alloc, limit);
        let (length, bytes) = match &found {
            Ok(Ok(image)) => (image.len() as u64, kept(alloc, image)),
            Ok(Err(_)) => (limit.saturating_add(1), None),
            // The failed read may have taken some bytes.
            Err(_) => (0, None),
        };
        self.spent.push_reserved(Spent {
            name: kept_name,
            length,
            bytes,
        });
        found
    }

    // Notes why a call failed, and returns the error for this reason.
    fn keep(&mut self, failure: FileFailure) -> FileError {
        let error = match &failure {
            FileFailure::Read(error) | FileFailure::Write(error) => FileError::from(error.kind()),
            FileFailure::TooLong(_) => FileError::Unusable,
        };
        self.failure = Some(failure);
        error
    }
}

impl<R: std::rt::Files> Files for HostFiles<'_, R> {
    ghost contents = { λ _ _. None };

    ghost writes = { λ _. None };

    ghost has_failure = { λ files. is_some files.failure };

    fn read(&mut self, alloc: Global, name: &str, limit: u64) -> Result<Image, FileError> {
        self.failure = None;
        match self.find(alloc, name, limit) {
            Ok(Ok(image)) => Ok(image),
            Ok(Err(length)) => Err(self.keep(FileFailure::TooLong(length))),
            Err(error) => Err(self.keep(FileFailure::Read(error))),
        }
    }

    fn write(&mut self, alloc: Global, name: &str, disk: SectorDisk) -> Result<(), FileError> {
        self.failure = None;
        match write_file(self.runtime, alloc, name, disk) {
            Ok(()) => Ok(()),
            Err(error) => Err(self.keep(FileFailure::Write(error))),
        }
    }

    fn failure(&self) -> Option<&FileFailure> {
        self.failure.as_ref()
    }

    fn is_same(&self, first: &str, second: &str) -> bool {
        if first == second {
            return true;
        }
        match (
            fs::metadata(self.runtime, first),
            fs::metadata(self.runtime, second),
        ) {
            (Ok(one), Ok(other)) => one.dev() == other.dev() && one.ino() == other.ino(),
            _ => false,
        }
    }
}

// Returns whether a second read of a file can find its bytes again. Returns true if the file isn't
// found; then both reads fail.
fn reads_again<R: std::rt::Files>(runtime: &R, name: &str) -> bool {
    match fs::metadata(runtime, name) {
        Ok(found) => found.is_file() || found.is_dir() || found.file_type().is_block_device(),
        Err(_) => true,
    }
}

// Returns a copy of the bytes, if they are few enough to be remembered and memory suffices.
fn kept(alloc: Global, image: &Image) -> Option<Vec<u8>> {
    if image.len() as u64 > MAX_SCRIPT_BYTES {
        return None;
    }
    image.to_vec(alloc).ok()
}

// Opens a file and returns all its bytes. If they are more than `limit`, returns the length that
// the system reports.
fn read_file<R: std::rt::Files>(
    runtime: &R,
    alloc: Global,
    name: &str,
    limit: u64,
) -> io::Result<Result<Image, u64>>
    ensures { IfOk result (λ found. IfOk found (λ image. length image ≤ limit)) }
{
    let file = fs::open(runtime, name)?;
    read_open::<R>(file, alloc, limit)
}

// Returns all bytes of an open file. If they are more than `limit`, returns the length that the
// system reports.
fn read_open<R: std::rt::Files>(
    file: R::File,
    alloc: Global,
    limit: u64,
) -> io::Result<Result<Image, u64>>
    ensures { IfOk result (λ found. IfOk found (λ image. length image ≤ limit)) }
{
    let length = file.metadata()?.len();
    // If `limit` and one more byte can be read, the file is too long. No file has 2^63 bytes.
    let most = limit.min(MAX_FILE_BYTES) + 1;
    let mut room = vec![in alloc; 0; READ_BYTES]?;
    let image = read_rest(alloc, &mut file.take(most), most, &mut room)?;
    if image.len() as u64 > limit {
        return Ok(Err(length));
    }
    Ok(Ok(image))
}

// Reads the reader's remaining bytes piece by piece through `room`. If they are at most `most`,
// returns all of them.
fn read_rest<R: Read>(
    alloc: Global,
    reader: &mut R,
    most: u64,
    room: &mut [u8],
) -> io::Result<Image>
    requires most { most ≤ 9223372036854775808 }
    requires room { length room.old ≡ 65536 }
    ensures { IfOk result (λ image. IfSome (R.remaining reader.old)
        (λ rest. length rest ≤ most → image ≡ rest)) }
{
    let mut image = Image::empty(alloc);
    for _ in 0..most.div_ceil(READ_BYTES as u64) {
        if append_piece(alloc, reader, room, &mut image)? < READ_BYTES {
            break;
        }
    }
    Ok(image)
}

// Appends the reader's next 65,536 bytes to an image, or fewer at the reader's end. Returns how
// many.
fn append_piece<R: Read>(
    alloc: Global,
    reader: &mut R,
    room: &mut [u8],
    image: &mut Image,
) -> io::Result<usize>
    requires room { length room.old ≡ 65536 }
    requires whole { length image.old % 65536 ≡ 0 }
    requires fits { length image.old + 65536 < 18446744073709551616 }
    ensures few { IfOk result (λ count. count ≤ 65536) }
    ensures moved { IfOk result
        (λ count. Consumes (R.remaining reader.old) (R.remaining reader.new) (take count room.new)
        × (image.new ≡ image.old ++ take count room.new)) }
    ensures end { IfOk result (λ count. count < 65536 → IsAtEnd (R.remaining reader.new)) }
{
    let count = fill(reader, room)?;
    push_piece(alloc, &room[..count], image)?;
    Ok(count)
}

// Appends a piece to an image, unless the piece is empty.
fn push_piece(alloc: Global, piece: &[u8], image: &mut Image) -> Result<(), AllocError>
    requires whole { length image.old % 65536 ≡ 0 }
    requires few { length piece.now ≤ 65536 }
    requires fits { length image.old + length piece.now < 18446744073709551616 }
    ensures { OnOk result (image.new ≡ image.old ++ piece.now) }
{
    if piece.is_empty() {
        return Ok(());
    }
    image.push_slice(alloc, piece)
}

/// Reads until `buffer` is full or the reader has no more bytes. Returns how many bytes were read.
pub fn fill<R: Read>(reader: &mut R, buffer: &mut [u8]) -> io::Result<usize>
    ensures few { IfOk result (λ count. count ≤ length buffer.old) }
    ensures moved { IfOk result
        (λ count. Consumes (R.remaining reader.old) (R.remaining reader.new)
        (take count buffer.new)) }
    ensures end { IfOk result
        (λ count. count < length buffer.old → IsAtEnd (R.remaining reader.new)) }
{
    let mut count = 0;
    while count < buffer.len() {
        let (_, room) = buffer.split_at_mut(count);
        let read = reader.read(room)?;
        if read == 0 {
            break;
        }
        count += read;
    }
    Ok(count)
}

// Writes the image of a disk to the file `name`. Allocates the buffer before it touches any file.
fn write_file<R: std::rt::Files>(
    runtime: &R,
    alloc: Global,
    name: &str,
    disk: SectorDisk,
) -> io::Result<()> {
    let mut disk = disk;
    let mut buffer = vec![in alloc; 0; PIECE]?;
    write_image(runtime, alloc, name, &mut disk, &mut buffer)
}

// Writes the image of a disk to the file `name`. Replaces a regular file, and writes to any other
// file directly.
fn write_image<R: std::rt::Files>(
    runtime: &R,
    alloc: Global,
    name: &str,
    disk: &mut SectorDisk,
    buffer: &mut [u8],
) -> io::Result<()>
    requires { length buffer.old ≡ 65536 }
{
    if is_stream(name) {
        return write_through(runtime, name, disk, buffer);
    }
    match fs::metadata(runtime, name) {
        Ok(found) if found.is_file() => {
            let target = runtime.canonicalize(alloc, name)?;
            let mode = Some(found.permissions());
            replace(runtime, alloc, target.as_str(), mode, disk, buffer)
        }
        Ok(_) => write_through(runtime, name, disk, buffer),
        Err(error) => {
            // A link that leads to no file is refused.
            if error.kind() != io::ErrorKind::NotFound
                || fs::symlink_metadata(runtime, name).is_ok()
            {
                return Err(error);
            }
            replace(runtime, alloc, name, None, disk, buffer)
        }
    }
}

// Returns whether a name is that of an open stream of the process, even if the stream is a regular
// file.
fn is_stream(name: &str) -> bool {
    name == "/dev/stdout"
        || name == "/dev/stderr"
        || name.starts_with("/dev/fd/")
        || name.starts_with("/proc/self/fd/")
}

// Appends the image of a disk to a pipe, a device or a stream.
fn write_through<R: std::rt::Files>(
    runtime: &R,
    name: &str,
    disk: &mut SectorDisk,
    buffer: &mut [u8],
) -> io::Result<()>
    requires { length buffer.old ≡ 65536 }
{
    let mut file = OpenOptions::new().append(true).open(runtime, name)?;
    write_sectors(disk, disk.sectors(), buffer, &mut file)
}

// Replaces a regular file with the image of a disk, or doesn't change it.
fn replace<R: std::rt::Files>(
    runtime: &R,
    alloc: Global,
    target: &str,
    permissions: Option<Permissions>,
    disk: &mut SectorDisk,
    buffer: &mut [u8],
) -> io::Result<()>
    requires { length buffer.old ≡ 65536 }
{
    let (beside, file) = create_beside(runtime, alloc, target)?;
    let mut done = fill_file::<R>(alloc, file, permissions, disk, buffer);
    if done.is_ok() {
        done = fs::rename(runtime, beside.as_str(), target);
    }
    if done.is_err() {
        let _ = fs::remove_file(runtime, beside.as_str());
    }
    done
}

// Creates a new file in the folder of the file `target`, and returns its name and the file.
fn create_beside<R: std::rt::Files>(
    runtime: &R,
    alloc: Global,
    target: &str,
) -> io::Result<(String, R::File)> {
    let front = front_of(target);
    for number in 0..MAX_BESIDE {
        let beside = format!(in alloc; "{front}.dmlw-tmp-{number}")?;
        match File::create_new(runtime, beside.as_str()) {
            Ok(file) => return Ok((beside, file)),
            Err(error) => {
                if error.kind() != io::ErrorKind::AlreadyExists {
                    return Err(error);
                }
            }
        }
    }
    Err(io::Error::from(io::ErrorKind::AlreadyExists))
}

// Returns how the name of a new file in the folder of `target` begins: as `target`, or only with
// its folder if a longer name would be longer than a file system takes.
fn front_of(target: &str) -> &str {
    let (folder, name) = match target.rfind('/') {
        Some(place) => target.split_at(place + 1),
        None => ("", target),
    };
    if name.len() > MAX_FRONT_BYTES {
        folder
    } else {
        target
    }
}

// Writes the image of a disk to a new file, and syncs the file. Pieces of zeroes take no room in
// the file.
fn fill_file<R: std::rt::Files>(
    alloc: Global,
    file: R::File,
    permissions: Option<Permissions>,
    disk: &mut SectorDisk,
    buffer: &mut [u8],
) -> io::Result<()>
    requires { length buffer.old ≡ 65536 }
{
    let mut file = file;
    write_pieces(alloc, &mut file, disk, buffer)?;
    // If the last pieces are zeroes and were skipped, this adds them.
    file.set_len(disk.sectors().saturating_mul(SECTOR_BYTES))?;
    if let Some(permissions) = permissions {
        let _ = file.set_permissions(permissions);
    }
    file.sync_all()
}

// Writes the image of a disk to a new file, but skips pieces of zeroes.
fn write_pieces<F: Write + Seek>(
    alloc: Global,
    file: &mut F,
    disk: &mut SectorDisk,
    buffer: &mut [u8],
) -> io::Result<()>
    requires { length buffer.old ≡ 65536 }
{
    let mut holes = Holes::new(alloc, NewFile::new(file), PIECE)?;
    write_sectors(disk, disk.sectors(), buffer, &mut holes)
}
