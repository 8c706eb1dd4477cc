// A test of a shared recorder with the most seats and readers: 64 each.
ghost use Rattle.std.specs.Prelude.{◌≡◌, ℕ};
ghost use Rattle.lock_state.specs.PlacedItems.{ground_of};
ghost use Rattle.sector_disk.specs.DiskView.{shown_of};

use crate::series::asking::CommandOutput;
use crate::series::report::Report;
use bio::Status;
use board::Names;
use lock_state::Run;
use sector_disk::SectorDisk;
use shared::{Shared, Started, Unnamed};
use std::alloc::{AllocError, Global};
use std::marker::Brand;

// The recorder has this many seats, and as many readers of its status.
const MOST: u64 = 64;

// Each disk has this many sectors.
const SECTORS: u64 = 64;

/// Starts a recorder with 64 seats and 64 readers, and lets each reader read the status once.
/// Reports a difference if a seat or a reader is missing, or if a status isn't that of an empty
/// log.
pub fn check_recorder(alloc: Global, report: &mut Report) -> Result<(), AllocError> {
    let device = SectorDisk::new(alloc, SECTORS)?;
    let log = SectorDisk::new(alloc, SECTORS)?;
    let unnamed = Unnamed::new(alloc, MOST)?;
    let seen = start_most::<Brand>(alloc, unnamed, device, log);
    if seen != Some((MOST as usize, MOST as usize)) {
        let told = CommandOutput {
            status: 0,
            out: format!(in alloc; "{seen:?}\n")?,
            err: String::new(alloc),
        };
        report.differs(
            "a recorder of 64 seats",
            &told,
            "64 seats, and 64 readers that see no entry",
        )?;
    }
    Ok(())
}

// Starts a recorder. Returns how many seats it has, and how many readers read the status of an
// empty log; None if it can't be started.
fn start_most<R: Run + Names>(
    alloc: Global,
    unnamed: Unnamed,
    device: SectorDisk,
    log: SectorDisk,
) -> Option<(usize, usize)>
    requires ledger { (unnamed.ledger.name ≡ R.name) × (unnamed.ledger.parts ≡ R.parts)
        × (unnamed.ledger.parts ≡ 64) }
    requires table { unnamed.table ≡ R.table }
    requires stops { unnamed.stops ≡ R.stops }
    requires ends { unnamed.ends ≡ R.ends }
    requires reads { unnamed.reads ≡ R.reads }
    requires board { unnamed.board ≡ R.board }
    requires sectors { (shown_of device).size ≡ R.sectors }
    requires log { R.log ≡ ground_of (shown_of log) }
    requires begins { (reading : ℕ) → R.begins reading }
    requires sector_size { R.sector_bytes ≡ 512 }
{
    let Ok(started) = Shared::<SectorDisk, SectorDisk, R>::new(
        alloc, unnamed, device, log, MOST, MOST,
    ) else {
        return None;
    };
    let Started {
        recorder,
        seats,
        writer: _,
        readers,
    } = started;
    let none = Status {
        entries: 0,
        sector: 0,
        end: None,
    };
    let mut seen: usize = 0;
    for reader in readers {
        let mut mine = reader;
        if recorder.status(&mut mine) == none {
            seen = seen.saturating_add(1);
        }
    }
    Some((seats.len(), seen))
}
