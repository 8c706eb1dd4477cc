//! Puts a layer into the lowest free slot of a `One`, a `Two` or a `Three`, and returns the disk
//! below. stack/building builds a `Stack` with these functions.
ghost use Rattle.std.specs.Prelude.{◌≡◌, ◌∷◌, List, false, true};
ghost use Rattle.blockdev.specs.View.{IsRange};
ghost use Rattle.layer_table.specs.TableLines.{IsLayerSpec};
ghost use Rattle.layer_table.specs.Layers.{layer_asked, layers_one, layers_three, layers_two};
ghost use Rattle.layer_table.specs.Layers.{layers_with, IsLayerPut, Layer};
ghost use Rattle.layer_table.specs.Levels.{disk_one, disk_three, disk_two, shape_one, shape_three};
ghost use Rattle.layer_table.specs.Levels.{shape_two};
ghost use Rattle.layer_table.specs.OneLevel.{one_shown};
ghost use Rattle.layer_table.specs.Slots.{device_of, has_layer, has_no_gap, slot_shown};
ghost use Rattle.layer_table.specs.ThreeLevel.{three_shown};
ghost use Rattle.layer_table.specs.TwoLevel.{two_shown};

use crate::layer_spec::LayerSpec;
use crate::levels::{One, Three, Two};
use crate::slot::Slot;
use bio::Ms;
use blockdev::BlockDev;
use dust_layer::Dust;
use fault_layers::{FaultRule, Linear, Ruled, Target};
use sector_disk::SectorDisk;
use std::alloc::Global;

impl One {
    // Puts the layer into the slot, which is free.
    pub(crate) fn put(self, alloc: Global, spec: LayerSpec, load: Ms) -> One
        requires spec { IsLayerSpec spec }
        requires fits { IsRange (one_shown self).size spec.offset spec.length }
        requires free { has_layer self.top ≡ false }
        ensures layers { layers_one result ≡ layer_asked spec load ∷ layers_one self }
        ensures disk { disk_one result ≡ disk_one self }
        ensures shown { IsLayerPut spec (one_shown self) (one_shown result) }
        ensures filled { has_no_gap (shape_one result) ≡ true }
    {
        match self.top {
            Slot::Bare(disk) => One {
                top: layer(alloc, disk, spec, load),
            },
            full => One { top: full },
        }
    }

    // Returns the disk below.
    pub(crate) fn into_disk(self) -> SectorDisk
        ensures { result ≡ disk_one self }
    {
        self.top.into_device()
    }
}

impl Two {
    // Puts the layer into the lowest free slot.
    pub(crate) fn put(self, alloc: Global, spec: LayerSpec, load: Ms) -> Two
        requires spec { IsLayerSpec spec }
        requires fits { IsRange (two_shown self).size spec.offset spec.length }
        requires free { has_layer self.top ≡ false }
        requires filled { has_no_gap (shape_two self) ≡ true }
        ensures layers { layers_two result ≡ layer_asked spec load ∷ layers_two self }
        ensures disk { disk_two result ≡ disk_two self }
        ensures shown { IsLayerPut spec (two_shown self) (two_shown result) }
        ensures filled { has_no_gap (shape_two result) ≡ true }
    {
        match self.top {
            Slot::Bare(one) => {
                if one.top.has_layer() {
                    Two {
                        top: layer(alloc, one, spec, load),
                    }
                } else {
                    Two {
                        top: Slot::Bare(one.put(alloc, spec, load)),
                    }
                }
            }
            full => Two { top: full },
        }
    }

    // Returns the disk below.
    pub(crate) fn into_disk(self) -> SectorDisk
        ensures { result ≡ disk_two self }
    {
        self.top.into_device().into_disk()
    }
}

impl Three {
    // Puts the layer into the lowest free slot.
    pub(crate) fn put(self, alloc: Global, spec: LayerSpec, load: Ms) -> Three
        requires spec { IsLayerSpec spec }
        requires fits { IsRange (three_shown self).size spec.offset spec.length }
        requires free { has_layer self.top ≡ false }
        requires filled { has_no_gap (shape_three self) ≡ true }
        ensures layers { layers_three result ≡ layer_asked spec load ∷ layers_three self }
        ensures disk { disk_three result ≡ disk_three self }
        ensures shown { IsLayerPut spec (three_shown self) (three_shown result) }
        ensures filled { has_no_gap (shape_three result) ≡ true }
    {
        match self.top {
            Slot::Bare(two) => {
                if two.top.has_layer() {
                    Three {
                        top: layer(alloc, two, spec, load),
                    }
                } else {
                    Three {
                        top: Slot::Bare(two.put(alloc, spec, load)),
                    }
                }
            }
            full => Three { top: full },
        }
    }

    // Returns the disk below.
    pub(crate) fn into_disk(self) -> SectorDisk
        ensures { result ≡ disk_three self }
    {
        self.top.into_device().into_disk()
    }
}

// Returns a slot with the layer that `spec` asks for, over the device `lower`.
#[tactic(auto, using(crate::specs::TableLines::has_cycle))]
pub(crate) fn layer<D: BlockDev + Drop>(
    alloc: Global,
    lower: D,
    spec: LayerSpec,
    load: Ms,
) -> Slot<D>
    requires spec { IsLayerSpec spec }
    requires fits { IsRange (D.shown lower).size spec.offset spec.length }
    ensures has_layer { has_layer result ≡ true }
    ensures device { device_of result ≡ lower }
    ensures layers { (beneath : D → List Layer)
        → layers_with beneath result ≡ layer_asked spec load ∷ beneath lower }
    ensures shown { IsLayerPut spec (D.shown lower) (slot_shown result) }
{
    let range = Linear::new(lower, spec.offset, spec.length);
    match spec.target {
        Target::Dust { block_bytes } => Slot::Dusted(Dust::new(alloc, range, block_bytes)),
        target => Slot::Decided(Ruled::over(range, FaultRule::new(target, load), ())),
    }
}
