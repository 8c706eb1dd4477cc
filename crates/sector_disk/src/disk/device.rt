//! The disk as a block device: it reads, writes, discards and flushes, and never lies.
ghost use Rattle.std.specs.Prelude.{◌≡◌, ◌∷◌, ◌+◌, ◌≤◌, OnErr, OnOk, length};
ghost use Rattle.sector_disk.specs.Candidates.{Puts};
ghost use Rattle.sector_disk.specs.DiskView.{DoesOnDisk, HasPast, shown_of, past_steps};
ghost use Rattle.sector_disk.specs.inside.Storage.{change_values, change_count};
ghost use Rattle.sector_disk.specs.CandidateLaws.{disk_lawful};

use crate::call::{PastCall, PastChange, add_call, copy_places, read_places};
use crate::disk::SectorDisk;
use crate::filled::FilledBytes;
use bio::{DevError, Ms};
use blockdev::BlockDev;
use std::alloc::AllocError;

impl SectorDisk {
    // Makes the table `newest`, and room for the table `base`, unless this was done before. If an
    // allocation fails, nothing is changed.
    fn open_tables(&mut self) -> Result<(), AllocError>
        ensures made { OnOk result (length self.new.newest.items ≡ self.new.sectors) }
        ensures same { HasPast self.old self.new (past_steps self.old) }
    {
        if !self.newest.is_empty() {
            return Ok(());
        }
        let newest = vec![in self.alloc; 0; self.sectors as usize]?;
        self.base = Vec::with_capacity(self.alloc, self.sectors as usize)?;
        self.newest = newest;
        Ok(())
    }

    // Does a write or a discard: adds it to the past. If an allocation fails, nothing is changed.
    fn put(&mut self, first: u64, change: PastChange, fua: bool) -> Result<(), AllocError>
        requires { first + change_count change ≤ self.old.sectors }
        ensures ok { OnOk result
            (HasPast self.old self.new
            (Puts (change_values first change) fua ∷ past_steps self.old)) }
        ensures err { OnErr result (HasPast self.old self.new (past_steps self.old)) }
    {
        self.open_tables()?;
        let count = change.sectors() as usize;
        let before = copy_places(self.alloc, &self.newest, first as usize, count)?;
        let call = PastCall {
            first: first as u32,
            fua,
            after_flush: self.flushed,
            change,
            before,
        };
        add_call(&mut self.calls, &mut self.newest, call, count)?;
        self.flushed = false;
        Ok(())
    }
}

impl BlockDev for SectorDisk {
    ghost shown = { shown_of };

    ghost does = { DoesOnDisk };

    fn sectors(&self) -> u64 {
        self.sectors
    }

    fn read(&mut self, now: Ms, first: u64, buffer: &mut [u8]) -> Result<Ms, DevError> {
        read_places(&self.calls, &self.newest, first as usize, buffer);
        Ok(now)
    }

    fn write(&mut self, now: Ms, first: u64, bytes: &[u8], fua: bool) -> Result<Ms, DevError> {
        let change = PastChange::Write(FilledBytes::from_slice(self.alloc, bytes)?);
        self.put(first, change, fua)?;
        Ok(now)
    }

    fn discard(&mut self, now: Ms, first: u64, count: u64) -> Result<Ms, DevError> {
        self.put(first, PastChange::Discard(count), false)?;
        Ok(now)
    }

    fn flush(&mut self, now: Ms) -> Result<Ms, DevError> {
        self.synced = self.calls.len();
        self.flushed = true;
        Ok(now)
    }

    fn faults(&self) -> u64 {
        0
    }

    fn lies(&self) -> u64 {
        0
    }

    ghost lawful = { disk_lawful };
}
