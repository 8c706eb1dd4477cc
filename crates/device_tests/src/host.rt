// Tests of files of the operating system.
ghost use Rattle.std.specs.Prelude.{◌<◌, ◌≤◌};

use bio::Ms;
use blockdev::BlockDev;
use dmlw_files::{FileError, Files, HostFiles};
use sector_disk::{Image, SectorDisk};
use std::alloc::Global;
use std::os::unix::fs::{PermissionsExt, symlink};
use std::process::Abort;
use std::{fs, io};

// The most bytes that these tests read.
const LIMIT: u64 = 1_000_000;

// Returns a disk of `sectors` sectors: sector `sector` is filled with `byte`, and the others are
// zeroes.
pub(crate) fn disk_with(
    rt: &impl Abort,
    alloc: Global,
    sectors: u64,
    sector: u64,
    byte: u8,
) -> SectorDisk
    requires few { sectors ≤ 2048 }
    requires there { sector < sectors }
{
    let mut disk = SectorDisk::new(alloc, sectors).expect(rt, "memory");
    disk.write(Ms::new(0), sector, [byte; 512].as_slice(), false)
        .expect(rt, "a disk never fails");
    disk
}

// Returns a disk of one sector, which is filled with `byte`.
pub(crate) fn disk_of(rt: &impl Abort, alloc: Global, byte: u8) -> SectorDisk {
    disk_with(rt, alloc, 1, 0, byte)
}

pub(crate) fn holds<R: std::rt::Files>(
    runtime: &R,
    alloc: Global,
    name: &str,
    bytes: &[u8],
) -> bool {
    match HostFiles::new(runtime, alloc).read(alloc, name, LIMIT) {
        Ok(read) => has_bytes(alloc, &read, bytes),
        Err(_) => false,
    }
}

pub(crate) fn has_bytes(alloc: Global, image: &Image, bytes: &[u8]) -> bool {
    match image.to_vec(alloc) {
        Ok(read) => read.as_slice() == bytes,
        Err(_) => false,
    }
}

// Checks that a shorter file replaces a longer one, and that a file that is too long isn't read.
fn check_lengths<F: Files>(rt: &impl Abort, alloc: Global, files: &mut F, name: &str) {
    files
        .write(alloc, name, disk_with(rt, alloc, 3, 1, 7))
        .expect(rt, "a file");
    files
        .write(alloc, name, disk_of(rt, alloc, 8))
        .expect(rt, "a file");
    let read = files.read(alloc, name, 512).expect(rt, "a file");
    assert!(rt; has_bytes(alloc, &read, [8; 512].as_slice()));
    assert!(rt; matches!(files.read(alloc, name, 511), Err(FileError::Unusable)));
}

// Writes a disk's image and reads it again. The disk's bytes are zeroes, except for sector
// `sector`, which is filled with `byte`. The image is written in several pieces.
fn check_written<F: Files>(
    rt: &impl Abort,
    alloc: Global,
    files: &mut F,
    name: &str,
    sector: u64,
    byte: u8,
)
    requires { sector < 1500 }
{
    let disk = disk_with(rt, alloc, 1500, sector, byte);
    let image = disk.bytes().expect(rt, "memory");
    files.write(alloc, name, disk).expect(rt, "a file");
    let read = files.read(alloc, name, LIMIT).expect(rt, "a file");
    assert!(rt; has_bytes(alloc, &read, image.as_slice()));
}

// Checks that an image reads back with its zeroes before, between and after other bytes, though a
// write skips zeroes.
fn check_zeroes<F: Files>(rt: &impl Abort, alloc: Global, files: &mut F, name: &str) {
    check_written(rt, alloc, files, name, 0, 0);
    check_written(rt, alloc, files, name, 1, 7);
    check_written(rt, alloc, files, name, 127, 7);
    check_written(rt, alloc, files, name, 128, 7);
    check_written(rt, alloc, files, name, 1499, 7)
}

// Checks that a write leaves no temporary file. A read fails if the file or its folder doesn't
// exist.
fn check_gone<R: std::rt::Files + Abort, F: Files>(
    rt: &R,
    alloc: Global,
    files: &mut F,
    name: &str,
) {
    assert!(rt; !fs::exists(rt, "dmlw-test-file.dmlw-tmp-0").expect(rt, "a call of the system"));
    fs::remove_file(rt, name).expect(rt, "a call of the system");
    assert!(rt; matches!(files.read(alloc, name, 6), Err(FileError::Unusable)));
    let gone = "no such folder/file";
    assert!(rt; files.write(alloc, gone, disk_of(rt, alloc, 1)) == Err(FileError::Unusable));
}

fn check_files<R: std::rt::Files + Abort, F: Files>(
    rt: &R,
    alloc: Global,
    files: &mut F,
    name: &str,
) {
    check_lengths(rt, alloc, files, name);
    check_zeroes(rt, alloc, files, name);
    check_gone(rt, alloc, files, name)
}

#[test]
fn files_are_read_as_they_were_written(rt: HostRuntime) {
    check_files(
        &rt,
        rt.alloc(),
        &mut HostFiles::new(&rt, rt.alloc()),
        "dmlw-test-file",
    )
}

// Makes the file `name` with the mode 640, and a link to it.
fn link_to<R: std::rt::Files>(runtime: &R, name: &str, link: &str) -> io::Result<()> {
    fs::write(runtime, name, b"old".as_slice())?;
    let mut mode = fs::metadata(runtime, name)?.permissions();
    mode.set_mode(0o640);
    fs::set_permissions(runtime, name, mode)?;
    symlink(runtime, name, link)
}

fn mode_of<R: std::rt::Files>(runtime: &R, name: &str) -> io::Result<u32> {
    Ok(fs::metadata(runtime, name)?.permissions().mode() % 0o1000)
}

// Writes to a link. Checks that it is still a link, and that its target has the new bytes and the
// old mode.
fn check_link<R: std::rt::Files + Abort, F: Files>(
    rt: &R,
    alloc: Global,
    files: &mut F,
    name: &str,
    link: &str,
) {
    assert!(rt; files.is_same(name, link) && files.is_same(link, link));
    assert!(rt; !files.is_same(name, "dmlw-test-none"));
    files
        .write(alloc, link, disk_of(rt, alloc, 2))
        .expect(rt, "a file");
    assert!(rt;
        fs::symlink_metadata(rt, link)
            .expect(rt, "a call of the system")
            .is_symlink()
    );
    assert!(rt;
        holds(rt, alloc, name, [2; 512].as_slice())
            && mode_of(rt, name).expect(rt, "a call of the system") == 0o640
    );
}

// Checks writes through a link. A link to no file is refused, and a device is written directly.
fn check_links<R: std::rt::Files + Abort, F: Files>(
    rt: &R,
    alloc: Global,
    files: &mut F,
    name: &str,
    link: &str,
) {
    link_to(rt, name, link).expect(rt, "a call of the system");
    check_link(rt, alloc, files, name, link);
    fs::remove_file(rt, name).expect(rt, "a call of the system");
    assert!(rt; files.write(alloc, link, disk_of(rt, alloc, 3)) == Err(FileError::Unusable));
    fs::remove_file(rt, link).expect(rt, "a call of the system");
    files
        .write(alloc, "/dev/null", disk_of(rt, alloc, 4))
        .expect(rt, "a file");
}

#[test]
fn links_and_modes_are_kept(rt: HostRuntime) {
    let mut files = HostFiles::new(&rt, rt.alloc());
    check_links(
        &rt,
        rt.alloc(),
        &mut files,
        "dmlw-test-old",
        "dmlw-test-link",
    )
}

// Checks that a write leaves another program's file alone, though that file has the temporary
// file's usual name.
fn check_beside<R: std::rt::Files + Abort, F: Files>(rt: &R, alloc: Global, files: &mut F) {
    let (name, beside) = ("dmlw-test-new", "dmlw-test-new.dmlw-tmp-0");
    fs::write(rt, beside, b"mine".as_slice()).expect(rt, "a call of the system");
    files
        .write(alloc, name, disk_of(rt, alloc, 5))
        .expect(rt, "a file");
    assert!(rt; holds(rt, alloc, name, [5; 512].as_slice()));
    assert!(rt; holds(rt, alloc, beside, b"mine".as_slice()));
    fs::remove_file(rt, name).expect(rt, "a call of the system");
    fs::remove_file(rt, beside).expect(rt, "a call of the system");
}

#[test]
fn files_beside_are_kept(rt: HostRuntime) {
    check_beside(&rt, rt.alloc(), &mut HostFiles::new(&rt, rt.alloc()))
}

// A file under /dev/shm is a regular file, so it is replaced, though its name begins with /dev/.
#[test]
fn files_in_memory_are_replaced(rt: HostRuntime) {
    let alloc = rt.alloc();
    let name = "/dev/shm/dmlw-test-memory";
    let mut files = HostFiles::new(&rt, rt.alloc());
    // Not every machine has such a folder.
    if fs::write(&rt, name, b"older and longer".as_slice()).is_ok() {
        files
            .write(alloc, name, disk_of(&rt, alloc, 6))
            .expect(&rt, "a file");
        assert!(rt; holds(&rt, alloc, name, [6; 512].as_slice()));
        fs::remove_file(&rt, name).expect(&rt, "a call of the system");
    }
}
