//! Makes a `RamDisk` of an image, and reads and writes it as a block device.
ghost use Rattle.std.specs.Prelude.{◌≡◌, ◌+◌, ◌/◌, ◌≤◌, IfOk, OnOk, false, length};
ghost use Rattle.bio.specs.Content.{nothing, writes};
ghost use Rattle.blockdev.specs.Law.{DeviceFrame, WriteDone};
ghost use Rattle.sector_disk.specs.DiskView.{PastBegins, IsImageSize, shown_of};
ghost use Rattle.sector_disk.specs.RamView.{DoesInRam, HoldsImage, IsFailed, ram_lawful, ram_view};
ghost use Rattle.sector_disk.specs.inside.Storage.{change_values, change_count};

use crate::call::{PastCall, PastChange, SECTOR, add_call, put_piece, read_places};
use crate::disk::SectorDisk;
use crate::disk::ram::RamDisk;
use crate::filled::FilledBytes;
use crate::pieces::Image;
use crate::runs::Runs;
use bio::{DevError, Ms};
use blockdev::BlockDev;
use std::alloc::{AllocError, Global};

// The number of sectors of a piece of an image.
const PIECE_SECTORS: u64 = 128;

impl RamDisk {
    /// Makes a disk of an image: 1 to 1,048,576 whole sectors. The image isn't copied. Lack of
    /// memory is an error.
    pub fn from_image(alloc: Global, image: Image) -> Result<RamDisk, AllocError>
        requires { IsImageSize (length image) }
        ensures { IfOk result (λ disk. HoldsImage image (ram_view disk)) }
    {
        let sectors = (image.len() / SECTOR) as u64;
        let mut calls = Vec::new(alloc);
        calls.push(PastCall {
            first: 0,
            fua: false,
            after_flush: false,
            change: PastChange::Image(image),
            before: Runs::empty(),
        })?;
        Ok(RamDisk {
            alloc,
            sectors,
            calls,
            newest: vec![in alloc; 0; sectors as usize]?,
            faults: 0,
        })
    }

    /// Returns a disk with the same content, whose past begins. Lack of memory is an error.
    pub fn into_disk(self) -> Result<SectorDisk, AllocError>
        ensures { IfOk result
            (λ disk. PastBegins (ram_view self).size (ram_view self).content (shown_of disk)) }
    {
        let RamDisk {
            alloc,
            sectors,
            calls,
            newest,
            ..
        } = self;
        let begun = calls.len();
        Ok(SectorDisk {
            alloc,
            sectors,
            calls,
            base: newest.to_vec(alloc)?,
            newest,
            begun,
            synced: begun,
            flushed: false,
        })
    }

    // Adds a call. If an allocation fails, nothing is changed.
    fn put(&mut self, first: u64, change: PastChange) -> Result<(), AllocError>
        requires { first + change_count change ≤ self.old.sectors }
        ensures goes { DeviceFrame (change_values first change) (ram_view self.old)
            (ram_view self.new) }
        ensures lands { OnOk result (WriteDone (change_values first change) false
            (ram_view self.old) (ram_view self.new)) }
        ensures faults { self.new.faults ≡ self.old.faults }
    {
        let count = change.sectors() as usize;
        let call = PastCall {
            first: first as u32,
            fua: false,
            after_flush: false,
            change,
            before: Runs::empty(),
        };
        add_call(&mut self.calls, &mut self.newest, call, count)
    }

    // Writes sectors that are all in one piece of the image. If an allocation fails, nothing is
    // changed.
    fn write_part(&mut self, first: u64, part: &[u8]) -> Result<(), AllocError>
        requires { first + length part.now / 512 ≤ self.old.sectors }
        ensures goes { DeviceFrame (writes first part.now) (ram_view self.old)
            (ram_view self.new) }
        ensures lands { OnOk result (WriteDone (writes first part.now) false
            (ram_view self.old) (ram_view self.new)) }
        ensures faults { self.new.faults ≡ self.old.faults }
    {
        if put_piece(
            self.alloc,
            &mut self.calls,
            &mut self.newest,
            first as usize,
            part,
        )? {
            return Ok(());
        }
        let change = PastChange::Write(FilledBytes::from_slice(self.alloc, part)?);
        self.put(first, change)
    }

    // Counts a failure, and returns it.
    fn fail(&mut self) -> Result<Ms, DevError>
        ensures goes { DeviceFrame nothing (ram_view self.old) (ram_view self.new) }
        ensures failed { IsFailed result (ram_view self.old) (ram_view self.new) }
    {
        self.faults = self.faults.saturating_add(1);
        Err(DevError::Io)
    }
}

impl BlockDev for RamDisk {
    ghost shown = { ram_view };

    ghost does = { DoesInRam };

    fn sectors(&self) -> u64 {
        self.sectors
    }

    fn read(&mut self, now: Ms, first: u64, buffer: &mut [u8]) -> Result<Ms, DevError> {
        read_places(&self.calls, &self.newest, first as usize, buffer);
        Ok(now)
    }

    fn write(&mut self, now: Ms, first: u64, bytes: &[u8], fua: bool) -> Result<Ms, DevError> {
        if fua {
            return self.fail();
        }
        let mut done = 0;
        while done < bytes.len() {
            let sector = first + (done / SECTOR) as u64;
            let room = (PIECE_SECTORS - sector % PIECE_SECTORS) as usize * SECTOR;
            let count = (bytes.len() - done).min(room);
            self.write_part(sector, &bytes[done..done + count])?;
            done += count;
        }
        Ok(now)
    }

    fn discard(&mut self, now: Ms, first: u64, count: u64) -> Result<Ms, DevError> {
        self.put(first, PastChange::Discard(count))?;
        Ok(now)
    }

    fn flush(&mut self, _now: Ms) -> Result<Ms, DevError> {
        self.fail()
    }

    fn faults(&self) -> u64 {
        self.faults
    }

    fn lies(&self) -> u64 {
        0
    }

    ghost lawful = { ram_lawful };
}
