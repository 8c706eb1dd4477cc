//! A run's script: its disks, its number of seats, and the calls of the seats.
ghost use Rattle.std.specs.Prelude.{◌≡◌, ◌/◌, ◌≤◌};

use crate::disk::DiskSpec;
use crate::run_line::SeatCall;
use bio::SectorSize;
use std::marker::Model;

/// A script of `dmlw run`. Contracts see it as a `RunPlan` (`specs/RunPlans`), and each value
/// satisfies `IsRunPlan`.
#[derive(Debug, Drop)]
pub struct RunScript {
    data_disk: DiskSpec,
    log_disk: DiskSpec,
    log_size: SectorSize,
    seats: u64,
    calls: Vec<SeatCall>,
}

impl Model for RunScript {
    ghost use Rattle.dmlw_script.specs.RunPlans.{IsRunPlan, RunPlan};

    ghost Value = { RunPlan };

    ghost view = { λ s. record {
      data_disk = s.data_disk;
      log_disk = s.log_disk;
      log_size = s.log_size;
      seats = s.seats;
      calls = s.calls.items;
    } };

    ghost invariant = { λ s. IsRunPlan
        (record {
          data_disk = s.data_disk;
          log_disk = s.log_disk;
          log_size = s.log_size;
          seats = s.seats;
          calls = s.calls.items;
        }) };
}

impl RunScript {
    ghost use Rattle.bio.specs.Requests.{bytes_of};
    ghost use Rattle.dmlw_script.specs.Plans.{top_of};
    ghost use Rattle.dmlw_script.specs.RunPlans.{IsRunPlan};

    /// Makes the script with these parts.
    pub(crate) fn new(
        data_disk: DiskSpec,
        log_disk: DiskSpec,
        log_size: SectorSize,
        seats: u64,
        calls: Vec<SeatCall>,
    ) -> RunScript
        requires { IsRunPlan (record {
          data_disk = data_disk;
          log_disk = log_disk;
          log_size = log_size;
          seats = seats;
          calls = calls.items;
        }) }
        ensures { result ≡ record {
          data_disk = data_disk;
          log_disk = log_disk;
          log_size = log_size;
          seats = seats;
          calls = calls.items;
        } }
    {
        RunScript {
            data_disk,
            log_disk,
            log_size,
            seats,
            calls,
        }
    }

    /// Returns the data disk. It has 1 to 1,048,576 sectors, and up to four layers.
    pub fn data(&self) -> &DiskSpec
        ensures disk { result.now ≡ self.now.data_disk }
        ensures script { IsRunPlan self.now }
    {
        &self.data_disk
    }

    /// Returns the log disk. It has 1 to 1,048,576 sectors, and up to four layers. Its top has room
    /// for one of the log's sectors.
    pub fn log(&self) -> &DiskSpec
        ensures disk { result.now ≡ self.now.log_disk }
        ensures script { IsRunPlan self.now }
    {
        &self.log_disk
    }

    /// Returns the size of the log's sectors: 512 or 4,096 bytes. The top of the log disk has room
    /// for one of them.
    pub fn log_size(&self) -> SectorSize
        ensures size { result ≡ self.now.log_size }
        ensures room { bytes_of result / 512 ≤ top_of self.now.log_disk }
    {
        self.log_size
    }

    pub fn seats(&self) -> u64
        ensures seats { result ≡ self.now.seats }
        ensures some { 1 ≤ result }
        ensures few { result ≤ 64 }
    {
        self.seats
    }

    /// Returns the calls of the seats, in the order of the lines.
    pub fn calls(&self) -> &[SeatCall]
        ensures calls { result.now ≡ self.now.calls }
        ensures script { IsRunPlan self.now }
    {
        self.calls.as_slice()
    }
}
