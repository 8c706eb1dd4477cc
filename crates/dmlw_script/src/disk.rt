//! A disk of a script, and the layers over it.
ghost use Rattle.std.specs.Prelude.{◌≡◌, OnOk};
ghost use Rattle.dmlw_script.specs.Plans.{top_of};
ghost use Rattle.dmlw_script.specs.FirstFault.{bare, with_layer};

use layer_table::LayerSpec;
use std::alloc::{AllocError, Global};
use std::marker::Model;

/// A disk of a script: its number of sectors of 512 bytes, and the layers over it, the lowest
/// first. Contracts see it as a `Disk` (`specs/Plans`).
#[derive(Debug, Drop)]
pub struct DiskSpec {
    sectors: u64,
    layers: Vec<LayerSpec>,
}

impl Model for DiskSpec {
    ghost use Rattle.dmlw_script.specs.Plans.{Disk};

    ghost Value = { Disk };

    ghost view = { λ disk. record { sectors = disk.sectors; layers = disk.layers.items } };
}

impl DiskSpec {
    /// Makes a disk of `sectors` sectors, with no layers.
    pub(crate) fn new(alloc: Global, sectors: u64) -> DiskSpec
        ensures { result ≡ bare sectors }
    {
        DiskSpec {
            sectors,
            layers: Vec::new(alloc),
        }
    }

    /// Returns the number of sectors of the disk without its layers. In a script it is 1 to
    /// 1,048,576.
    pub fn sectors(&self) -> u64
        ensures { result ≡ self.now.sectors }
    {
        self.sectors
    }

    /// Returns the layers over the disk, the lowest first. In a script there are at most four, and
    /// each is within the device below it.
    pub fn layers(&self) -> &[LayerSpec]
        ensures { result.now ≡ self.now.layers }
    {
        self.layers.as_slice()
    }

    /// Returns the number of sectors at the top: the length of the uppermost layer, or the disk's
    /// number of sectors if it has no layers.
    #[tactic(auto, using(crate::proofs::HeadLaws::top_is_last))]
    pub fn top_sectors(&self) -> u64
        ensures { result ≡ top_of self.now }
    {
        match self.layers().last() {
            Some(layer) => layer.length,
            None => self.sectors,
        }
    }

    /// Puts one more layer on top.
    pub(crate) fn push(&mut self, layer: LayerSpec) -> Result<(), AllocError>
        ensures { OnOk result (self.new ≡ with_layer self.old layer) }
    {
        self.layers.push(layer)?;
        Ok(())
    }
}
