// Tests of files of the operating system: which bytes are written, and in which order calls are
// made. Some files give their bytes only once, or at most 1,000 at a time.
use crate::host::{disk_with, has_bytes, holds};
use dmlw_files::{FileError, FileFailure, Files, HostFiles};
use sector_disk::Image;
use std::alloc::{Allocator, Global};
use std::cell::Cell;
use std::fs::{Metadata, OpenFile, OpenOptions, Permissions};
use std::io::{Read, Seek, SeekFrom, Write};
use std::path::PathBuf;
use std::process::Abort;
use std::{fs, io};

// The kind of call that a `Watched` runtime fails.
#[derive(Clone, Copy, PartialEq, Eq)]
enum FailingKind {
    Nothing,
    Write,
    Seek,
    Length,
    Sync,
    Rename,
}

// What a `Watched` runtime notes about calls of its files.
#[derive(Drop)]
struct Noted {
    failing: FailingKind,
    // Whether a file was changed after its last sync.
    is_changed: Cell<bool>,
    // Whether a file was renamed while it was changed and not synced.
    is_early: Cell<bool>,
    renames: Cell<u64>,
    // How many bytes were written.
    written: Cell<u64>,
}

impl Noted {
    fn new(failing: FailingKind) -> Noted {
        Noted {
            failing,
            is_changed: Cell::new(false),
            is_early: Cell::new(false),
            renames: Cell::new(0),
            written: Cell::new(0),
        }
    }

    // Fails a call of the kind `failing`.
    fn passes(&self, call: FailingKind) -> io::Result<()> {
        if self.failing == call {
            return Err(io::Error::from(io::ErrorKind::Other));
        }
        Ok(())
    }
}

// A read of a `WatchedFile` returns at most this many bytes.
const SHORT: usize = 1000;

// The regular file that a `Watched` runtime has as each stream of the process.
const STREAM: &str = "dmlw-test-stream";

// Returns the name of the file that a name leads to: for a stream, that of `STREAM`.
fn led_to(path: &str) -> &str {
    if path.starts_with("/dev/") || path.starts_with("/proc/") {
        STREAM
    } else {
        path
    }
}

// A runtime that notes the calls of its files. A file whose name ends with `-pipe` isn't a regular
// file, and gives its bytes only to the first that opens it. Each name in `/dev` or `/proc` leads to
// the file `STREAM`.
#[derive(Drop)]
struct Watched<'a, R: std::rt::Files> {
    runtime: &'a R,
    noted: &'a Noted,
}

// A file of a `Watched` runtime.
#[derive(Drop)]
struct WatchedFile<'a, F: Drop> {
    file: F,
    noted: &'a Noted,
}

impl<F: Read + Drop> Read for WatchedFile<'_, F> {
    fn read(&mut self, buf: &mut [u8]) -> io::Result<usize> {
        let (front, _) = buf.split_at_mut(buf.len().min(SHORT));
        self.file.read(front)
    }
}

impl<F: Write + Drop> Write for WatchedFile<'_, F> {
    fn write(&mut self, buf: &[u8]) -> io::Result<usize> {
        self.noted.passes(FailingKind::Write)?;
        self.noted.is_changed.set(true);
        let written = self.file.write(buf)?;
        self.noted
            .written
            .set(self.noted.written.get().saturating_add(written as u64));
        Ok(written)
    }

    fn flush(&mut self) -> io::Result<()> {
        self.file.flush()
    }
}

impl<F: Seek + Drop> Seek for WatchedFile<'_, F> {
    fn seek(&mut self, pos: SeekFrom) -> io::Result<u64> {
        self.noted.passes(FailingKind::Seek)?;
        self.file.seek(pos)
    }
}

impl<F: OpenFile + Drop> OpenFile for WatchedFile<'_, F> {
    fn metadata(&self) -> io::Result<Metadata> {
        self.file.metadata()
    }

    fn set_len(&self, size: u64) -> io::Result<()> {
        self.noted.passes(FailingKind::Length)?;
        self.noted.is_changed.set(true);
        self.file.set_len(size)
    }

    fn sync_all(&self) -> io::Result<()> {
        self.noted.passes(FailingKind::Sync)?;
        self.noted.is_changed.set(false);
        self.file.sync_all()
    }

    fn sync_data(&self) -> io::Result<()> {
        self.file.sync_data()
    }

    fn set_permissions(&self, perm: Permissions) -> io::Result<()> {
        self.file.set_permissions(perm)
    }
}

impl<'a, R: std::rt::Files> std::rt::Files for Watched<'a, R> {
    type File = WatchedFile<'a, R::File>;

    type Dir = R::Dir;

    fn open_file(&self, how: &OpenOptions, path: &str) -> io::Result<WatchedFile<'a, R::File>> {
        let file = self.runtime.open_file(how, led_to(path))?;
        if path.ends_with("-pipe") {
            self.runtime.remove_file(path)?;
            fs::write(self.runtime, path, b"".as_slice())?;
        }
        Ok(WatchedFile {
            file,
            noted: self.noted,
        })
    }

    fn open_dir(&self, path: &str) -> io::Result<R::Dir> {
        self.runtime.open_dir(path)
    }

    fn metadata(&self, path: &str) -> io::Result<Metadata> {
        if path.ends_with("-pipe") {
            return Ok(Metadata::of_symlink(0));
        }
        self.runtime.metadata(led_to(path))
    }

    fn symlink_metadata(&self, path: &str) -> io::Result<Metadata> {
        self.runtime.symlink_metadata(led_to(path))
    }

    fn copy(&self, from: &str, to: &str) -> io::Result<u64> {
        self.runtime.copy(from, to)
    }

    fn rename(&self, from: &str, to: &str) -> io::Result<()> {
        self.noted.passes(FailingKind::Rename)?;
        self.noted
            .renames
            .set(self.noted.renames.get().saturating_add(1));
        if self.noted.is_changed.get() {
            self.noted.is_early.set(true);
        }
        self.runtime.rename(from, to)
    }

    fn remove_file(&self, path: &str) -> io::Result<()> {
        self.runtime.remove_file(path)
    }

    fn create_dir(&self, path: &str) -> io::Result<()> {
        self.runtime.create_dir(path)
    }

    fn remove_dir(&self, path: &str) -> io::Result<()> {
        self.runtime.remove_dir(path)
    }

    fn remove_dir_all<B: Allocator>(&self, alloc: B, path: &str) -> io::Result<()> {
        self.runtime.remove_dir_all(alloc, path)
    }

    fn canonicalize<B: Allocator>(&self, alloc: B, path: &str) -> io::Result<PathBuf<B>> {
        self.runtime.canonicalize(alloc, led_to(path))
    }
}

// Writes the image of a disk over an older file, and returns whether the write succeeded. The image
// has three pieces; the first and the last are zeroes. If the write fails, the older file must
// stay. No temporary file may be left.
fn check_written<R: std::rt::Files + Abort>(
    rt: &R,
    alloc: Global,
    name: &str,
    noted: &Noted,
) -> bool {
    fs::write(rt, name, b"older".as_slice()).expect(rt, "a call of the system");
    let watched = Watched { runtime: rt, noted };
    let disk = disk_with(rt, alloc, 300, 150, 7);
    let image = disk.bytes().expect(rt, "memory");
    let written = HostFiles::new(&watched, alloc).write(alloc, name, disk);
    let beside = format!(in alloc; "{name}.dmlw-tmp-0").expect(rt, "memory");
    assert!(rt; !fs::exists(rt, beside.as_str()).expect(rt, "a call of the system"));
    match written {
        Ok(()) => assert!(rt; holds(rt, alloc, name, image.as_slice())),
        Err(error) => {
            assert!(rt; error == FileError::Unusable);
            assert!(rt; holds(rt, alloc, name, b"older".as_slice()));
        }
    }
    fs::remove_file(rt, name).expect(rt, "a call of the system");
    written.is_ok()
}

// The new file is synced before it is renamed, and is renamed once. Only the piece that isn't
// zeroes is written.
#[test]
fn files_are_synced_before_they_are_renamed(rt: HostRuntime) {
    let noted = Noted::new(FailingKind::Nothing);
    assert!(rt; check_written(&rt, rt.alloc(), "dmlw-test-synced", &noted));
    assert!(rt; noted.renames.get() == 1 && !noted.is_early.get() && !noted.is_changed.get());
    assert!(rt; noted.written.get() == 65_536);
}

#[test]
fn files_that_fail_leave_the_older_ones(rt: HostRuntime) {
    for failing in [
        FailingKind::Write,
        FailingKind::Seek,
        FailingKind::Length,
        FailingKind::Sync,
        FailingKind::Rename,
    ] {
        let noted = Noted::new(failing);
        assert!(rt; !check_written(&rt, rt.alloc(), "dmlw-test-failed", &noted));
        assert!(rt; noted.renames.get() == 0);
    }
}

// Checks that a failed write to a pipe is reported.
fn check_failing_pipe<R: std::rt::Files + Abort>(rt: &R, alloc: Global) {
    let name = "dmlw-test-failing-pipe";
    fs::write(rt, name, b"".as_slice()).expect(rt, "a call of the system");
    let noted = Noted::new(FailingKind::Write);
    let watched = Watched {
        runtime: rt,
        noted: &noted,
    };
    let written = HostFiles::new(&watched, alloc).write(alloc, name, disk_with(rt, alloc, 1, 0, 7));
    assert!(rt; written == Err(FileError::Unusable));
    fs::remove_file(rt, name).expect(rt, "a call of the system");
}

#[test]
fn pipes_that_fail_are_reported(rt: HostRuntime) {
    check_failing_pipe(&rt, rt.alloc())
}

// Checks that an image is appended to a stream, even if the stream is a regular file.
fn check_stream<R: std::rt::Files + Abort>(rt: &R, alloc: Global, name: &str) {
    fs::write(rt, STREAM, b"older".as_slice()).expect(rt, "a call of the system");
    let noted = Noted::new(FailingKind::Nothing);
    let watched = Watched {
        runtime: rt,
        noted: &noted,
    };
    HostFiles::new(&watched, alloc)
        .write(alloc, name, disk_with(rt, alloc, 1, 0, 7))
        .expect(rt, "a file");
    let mut bytes = Vec::from_slice(alloc, b"older").expect(rt, "memory");
    bytes.resize(517, 7).expect(rt, "memory");
    assert!(rt; holds(rt, alloc, STREAM, bytes.as_slice()) && noted.renames.get() == 0);
    fs::remove_file(rt, STREAM).expect(rt, "a call of the system");
}

#[test]
fn streams_are_appended_to(rt: HostRuntime) {
    for name in ["/dev/stdout", "/dev/stderr", "/dev/fd/7", "/proc/self/fd/7"] {
        check_stream(&rt, rt.alloc(), name)
    }
}

// Checks that another link to the old file still has the old bytes. So the write replaced the file,
// and didn't change it in place.
fn check_replaced<R: std::rt::Files + Abort>(rt: &R, alloc: Global, name: &str, other: &str) {
    fs::write(rt, name, b"older".as_slice()).expect(rt, "a call of the system");
    fs::hard_link(rt, name, other).expect(rt, "a call of the system");
    HostFiles::new(rt, alloc)
        .write(alloc, name, disk_with(rt, alloc, 1, 0, 7))
        .expect(rt, "a file");
    assert!(rt; holds(rt, alloc, name, [7; 512].as_slice()));
    assert!(rt; holds(rt, alloc, other, b"older".as_slice()));
    fs::remove_file(rt, name).expect(rt, "a call of the system");
    fs::remove_file(rt, other).expect(rt, "a call of the system");
}

#[test]
fn files_are_replaced_whole(rt: HostRuntime) {
    check_replaced(&rt, rt.alloc(), "dmlw-test-one", "dmlw-test-other")
}

// Returns whether a read returned these bytes.
fn is_read(alloc: Global, found: Result<Image, FileError>, bytes: &[u8]) -> bool {
    match found {
        Ok(read) => has_bytes(alloc, &read, bytes),
        Err(_) => false,
    }
}

// Checks that the bytes of two pipes can be read twice, though each pipe is empty after the first
// read.
fn check_pipes<R: std::rt::Files + Abort>(rt: &R, alloc: Global) {
    let (one, other) = ("dmlw-test-one-pipe", "dmlw-test-one-pipe-other-pipe");
    fs::write(rt, one, b"first".as_slice()).expect(rt, "a call of the system");
    fs::write(rt, other, b"second".as_slice()).expect(rt, "a call of the system");
    let noted = Noted::new(FailingKind::Nothing);
    let watched = Watched {
        runtime: rt,
        noted: &noted,
    };
    let mut files = HostFiles::new(&watched, alloc);
    for _ in 0..2 {
        assert!(rt; is_read(alloc, files.read(alloc, one, 5), b"first".as_slice()));
        assert!(rt; is_read(alloc, files.read(alloc, other, 6), b"second".as_slice()));
    }
    assert!(rt; files.read(alloc, one, 4).is_err());
    assert!(rt; matches!(files.failure(), Some(FileFailure::TooLong(0))));
    assert!(rt; holds(rt, alloc, one, b"".as_slice()) && holds(rt, alloc, other, b"".as_slice()));
    fs::remove_file(rt, one).expect(rt, "a call of the system");
    fs::remove_file(rt, other).expect(rt, "a call of the system");
}

#[test]
fn pipes_are_read_again(rt: HostRuntime) {
    check_pipes(&rt, rt.alloc())
}

// A regular file is read again each time.
#[test]
fn regular_files_are_read_anew(rt: HostRuntime) {
    let alloc = rt.alloc();
    let name = "dmlw-test-regular";
    let mut files = HostFiles::new(&rt, alloc);
    fs::write(&rt, name, b"first".as_slice()).expect(&rt, "a call of the system");
    assert!(rt; is_read(alloc, files.read(alloc, name, 6), b"first".as_slice()));
    fs::write(&rt, name, b"second".as_slice()).expect(&rt, "a call of the system");
    assert!(rt; is_read(alloc, files.read(alloc, name, 6), b"second".as_slice()));
    fs::remove_file(&rt, name).expect(&rt, "a call of the system");
}

// Checks that a pipe of 4 MiB can be read twice, and a longer pipe only once. If the first read
// refused a pipe as too long, no later read gets its bytes.
fn check_long_pipes<R: std::rt::Files + Abort>(rt: &R, alloc: Global) {
    let most = "dmlw-test-most-pipe";
    let long = "dmlw-test-long-pipe";
    let cut = "dmlw-test-cut-pipe";
    let bytes = vec![in alloc; 7; 4_194_305].expect(rt, "memory");
    let (kept, _) = bytes.as_slice().split_at(4_194_304);
    fs::write(rt, most, kept).expect(rt, "a call of the system");
    fs::write(rt, long, bytes.as_slice()).expect(rt, "a call of the system");
    fs::write(rt, cut, b"first".as_slice()).expect(rt, "a call of the system");
    let noted = Noted::new(FailingKind::Nothing);
    let watched = Watched {
        runtime: rt,
        noted: &noted,
    };
    let mut files = HostFiles::new(&watched, alloc);
    for _ in 0..2 {
        assert!(rt; is_read(alloc, files.read(alloc, most, 5_000_000), kept));
    }
    assert!(rt; is_read(alloc, files.read(alloc, long, 5_000_000), bytes.as_slice()));
    assert!(rt; files.read(alloc, long, 5_000_000).is_err());
    assert!(rt; is_unseekable(files.failure()));
    for _ in 0..2 {
        assert!(rt; files.read(alloc, cut, 4).is_err());
        assert!(rt; matches!(files.failure(), Some(FileFailure::TooLong(_))));
    }
    assert!(rt; files.read(alloc, cut, 5).is_err());
    assert!(rt; is_unseekable(files.failure()));
    fs::remove_file(rt, most).expect(rt, "a call of the system");
    fs::remove_file(rt, long).expect(rt, "a call of the system");
    fs::remove_file(rt, cut).expect(rt, "a call of the system");
}

#[test]
fn long_pipes_are_read_once(rt: HostRuntime) {
    check_long_pipes(&rt, rt.alloc())
}

// Returns whether a read failed because the file can be read only once.
fn is_unseekable(failure: Option<&FileFailure>) -> bool {
    match failure {
        Some(FileFailure::Read(error)) => error.kind() == io::ErrorKind::NotSeekable,
        _ => false,
    }
}
