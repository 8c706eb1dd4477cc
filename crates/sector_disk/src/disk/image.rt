//! Makes a disk of zeroes or of an image, and returns a disk's image.
ghost use Rattle.std.specs.Prelude.{◌≡◌, ◌*◌, ◌+◌, ◌/◌, ◌%◌, ◌≤◌, IfOk, IfSome, length, replicate};
ghost use Rattle.sector_disk.specs.DiskView.{PastBegins, IsDiskSize, IsImageSize, shown_of};
ghost use Rattle.sector_disk.specs.inside.Storage.{change_values, content_at, change_count};
ghost use Rattle.bio.specs.Content.{AgreeBelow, gather, put, sector_of};

use crate::call::{
    PastCall, PastChange, SECTOR, begins_with_image, read_places, stored, take_image,
};
use crate::disk::SectorDisk;
use crate::filled::FilledBytes;
use crate::pieces::Image;
use crate::runs::Runs;
use std::alloc::{AllocError, Global};

// Makes a disk whose first call is `change`, on all its sectors.
fn make(alloc: Global, change: PastChange) -> Result<SectorDisk, AllocError>
    requires { IsDiskSize (change_count change) }
    ensures { IfOk result (λ disk.
        PastBegins (change_count change) (put (change_values 0 change) (λ _. replicate 512 0))
        (shown_of disk)) }
{
    let sectors = change.sectors();
    let mut calls = Vec::new(alloc);
    calls.push(PastCall {
        first: 0,
        fua: false,
        after_flush: false,
        change,
        before: Runs::empty(),
    })?;
    Ok(SectorDisk {
        alloc,
        sectors,
        calls,
        newest: Vec::new(alloc),
        base: Vec::new(alloc),
        begun: 1,
        synced: 1,
        flushed: false,
    })
}

fn read_all(calls: &[PastCall], places: &[usize], image: &mut Vec<u8>)
    requires whole { length image.old.items % 512 ≡ 0 }
    requires few { length image.old.items / 512 ≤ 1048576 }
    ensures { image.new.items
        ≡ gather (content_at calls.now places.now) 0 (length image.old.items / 512) }
{
    read_places(calls, places, 0, image);
}

// Returns the bytes of all sectors of a disk with these calls. If the first call is a write of all
// sectors, its bytes are reused.
fn give_all(
    alloc: Global,
    calls: Vec<PastCall>,
    places: &[usize],
    sectors: usize,
) -> Result<Vec<u8>, AllocError>
    requires { sectors ≤ 1048576 }
    ensures { IfOk result (λ image. image.items
        ≡ gather (content_at calls.items places.now) 0 sectors) }
{
    let mut calls = calls;
    if begins_with_image(&calls, sectors) {
        return take_image(alloc, &mut calls, places, sectors);
    }
    let mut image = vec![in alloc; 0; sectors * SECTOR]?;
    read_all(&calls, places, &mut image);
    Ok(image)
}

impl SectorDisk {
    /// Makes a disk of `sectors` sectors of zeroes, 1 to 1,048,576. Lack of memory is an error.
    pub fn new(alloc: Global, sectors: u64) -> Result<SectorDisk, AllocError>
        requires { IsDiskSize sectors }
        ensures { IfOk result (λ disk. PastBegins sectors (λ _. replicate 512 0) (shown_of disk)) }
    {
        make(alloc, PastChange::Discard(sectors))
    }

    /// Makes a disk of an image: 1 to 1,048,576 whole sectors. The bytes aren't copied. Lack of
    /// memory is an error.
    pub fn from_bytes(alloc: Global, bytes: Vec<u8>) -> Result<SectorDisk, AllocError>
        requires { IsImageSize (length bytes.items) }
        ensures { IfOk result (λ disk.
            PastBegins (length bytes.items / 512) (sector_of bytes.items) (shown_of disk)) }
    {
        make(alloc, PastChange::Write(FilledBytes::from_vec(bytes)))
    }

    /// Makes a disk of an image: 1 to 1,048,576 whole sectors. The image isn't copied. Lack of
    /// memory is an error.
    pub fn from_image(alloc: Global, image: Image) -> Result<SectorDisk, AllocError>
        requires { IsImageSize (length image) }
        ensures { IfOk result (λ disk.
            PastBegins (length image / 512) (sector_of image) (shown_of disk)) }
    {
        make(alloc, PastChange::Image(image))
    }

    /// Returns the bytes of `count` sectors from `first` on, if memory has them one after another.
    pub fn stored(&self, first: u64, count: u64) -> Option<&[u8]>
        requires { first + count ≤ (shown_of self.now).size }
        ensures { IfSome result
            (λ bytes. bytes.now ≡ gather (shown_of self.now).content first count) }
    {
        stored(&self.calls, &self.newest, first as usize, count as usize)
    }

    /// Returns the image of the disk: the bytes of all its sectors. Lack of memory is an error.
    pub fn bytes(&self) -> Result<Vec<u8>, AllocError>
        ensures content { IfOk result (λ image.
            image.items ≡ gather (shown_of self.now).content 0 (shown_of self.now).size) }
        ensures sectors { IfOk result
            (λ image. AgreeBelow (shown_of self.now).size (shown_of self.now).content
            (sector_of image.items)) }
        ensures length { IfOk result
            (λ image. length image.items ≡ 512 * (shown_of self.now).size) }
    {
        let mut image = vec![in self.alloc; 0; self.sectors as usize * SECTOR]?;
        read_all(&self.calls, &self.newest, &mut image);
        Ok(image)
    }

    /// Returns the image of the disk, and drops the disk. If `from_bytes` made the disk, its bytes
    /// are reused with the later calls put over them; this takes no memory. Otherwise lack of
    /// memory is an error.
    pub fn into_bytes(self) -> Result<Vec<u8>, AllocError>
        ensures content { IfOk result (λ image.
            image.items ≡ gather (shown_of self).content 0 (shown_of self).size) }
        ensures sectors { IfOk result
            (λ image. AgreeBelow (shown_of self).size (shown_of self).content
            (sector_of image.items)) }
        ensures length { IfOk result (λ image. length image.items ≡ 512 * (shown_of self).size) }
    {
        let SectorDisk {
            alloc,
            sectors,
            calls,
            newest,
            ..
        } = self;
        give_all(alloc, calls, &newest, sectors as usize)
    }
}
