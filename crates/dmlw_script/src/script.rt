//! A recorder's script: its disks, its commands, and the crash that ends it, if one does.
ghost use Rattle.std.specs.Prelude.{◌≡◌, ◌≤◌, ◌/◌, option_copied, option_map};

use crate::command::Command;
use crate::disk::DiskSpec;
use crate::script_id::ScriptId;
use bio::SectorSize;
use indexmap::IndexSet;
use std::marker::Model;

/// A recorder's script. Contracts see it as a `ScriptValue` (`specs/Plans`), and each value
/// satisfies `IsPlan`.
#[derive(Debug, Drop)]
pub struct Script {
    data_disk: DiskSpec,
    log_disk: DiskSpec,
    log_size: SectorSize,
    names: IndexSet<ScriptId>,
    commands: Vec<Command>,
    ending: Option<Vec<u64>>,
}

impl Model for Script {
    ghost use Rattle.std.specs.Prelude.{option_map};
    ghost use Rattle.dmlw_script.specs.Plans.{ScriptValue, IsPlan};

    ghost Value = { ScriptValue };

    ghost view = { λ s. record {
      data_disk = s.data_disk;
      log_disk = s.log_disk;
      log_size = s.log_size;
      names = s.names.keys;
      commands = s.commands.items;
      ending = option_map (λ picks. picks.items) s.ending;
    } };

    ghost invariant = { λ s. IsPlan
        (record {
          data_disk = s.data_disk;
          log_disk = s.log_disk;
          log_size = s.log_size;
          names = s.names.keys;
          commands = s.commands.items;
          ending = option_map (λ picks. picks.items) s.ending;
        }) };
}

impl Script {
    ghost use Rattle.bio.specs.Requests.{bytes_of};
    ghost use Rattle.dmlw_script.specs.Plans.{head_count, top_of, IsPlan};

    /// Makes the script with these parts.
    pub(crate) fn new(
        data_disk: DiskSpec,
        log_disk: DiskSpec,
        log_size: SectorSize,
        names: IndexSet<ScriptId>,
        commands: Vec<Command>,
        ending: Option<Vec<u64>>,
    ) -> Script
        requires { IsPlan (record {
          data_disk = data_disk;
          log_disk = log_disk;
          log_size = log_size;
          names = names.keys;
          commands = commands.items;
          ending = option_map (λ picks. picks.items) ending;
        }) }
        ensures { result ≡ record {
          data_disk = data_disk;
          log_disk = log_disk;
          log_size = log_size;
          names = names.keys;
          commands = commands.items;
          ending = option_map (λ picks. picks.items) ending;
        } }
    {
        Script {
            data_disk,
            log_disk,
            log_size,
            names,
            commands,
            ending,
        }
    }

    /// Returns the data disk. It has 1 to 1,048,576 sectors, and up to four layers.
    pub fn data(&self) -> &DiskSpec
        ensures disk { result.now ≡ self.now.data_disk }
        ensures script { IsPlan self.now }
    {
        &self.data_disk
    }

    /// Returns the log disk. It has 1 to 1,048,576 sectors, and up to four layers. Its top has room
    /// for one of the log's sectors.
    pub fn log(&self) -> &DiskSpec
        ensures disk { result.now ≡ self.now.log_disk }
        ensures script { IsPlan self.now }
    {
        &self.log_disk
    }

    /// Returns the size of the log's sectors: 512 or 4,096 bytes. The top of the log disk has room
    /// for one of them.
    pub fn log_size(&self) -> SectorSize
        ensures size { result ≡ self.now.log_size }
        ensures room { bytes_of result / 512 ≤ top_of self.now.log_disk }
    {
        self.log_size
    }

    /// Returns the number of lines of the head, 2 to 10: one for each disk, and one for each layer.
    pub fn head_lines(&self) -> usize
        ensures lines { result ≡ head_count self.now }
        ensures few { result ≤ 10 }
    {
        2 + self.data_disk.layers().len() + self.log_disk.layers().len()
    }

    /// Returns the ids in the order of their submissions. The number of a request is the index of
    /// its id.
    pub fn names(&self) -> &[ScriptId]
        ensures names { result.now ≡ self.now.names }
        ensures script { IsPlan self.now }
    {
        self.names.as_slice()
    }

    /// Returns the commands, one for each line of the body. The crash is not among them.
    pub fn commands(&self) -> &[Command]
        ensures commands { result.now ≡ self.now.commands }
        ensures script { IsPlan self.now }
    {
        self.commands.as_slice()
    }

    /// Returns the picks of the crash of the log disk that ends the script; None if no crash ends
    /// it.
    pub fn crash(&self) -> Option<&[u64]>
        ensures picks { option_copied result ≡ self.now.ending }
        ensures script { IsPlan self.now }
    {
        match &self.ending {
            Some(picks) => Some(picks.as_slice()),
            None => None,
        }
    }
}
