//! Builds a stack: first the disk, then layers over it; a layer that doesn't fit is refused. The
//! clauses state which layers the stack then has, and its view.
ghost use Rattle.std.specs.Prelude.{◌≡◌, ◌⊎◌, ◌<◌, ◌≤◌, ◌+◌, [], ◌∷◌, IfErr, IfOk, IsOk, OnErr};
ghost use Rattle.std.specs.Prelude.{OnOk, false, length, true};
ghost use Rattle.refusals.specs.declared.refusal.Refusal.TheVariants as refusals;
ghost use Rattle.blockdev.specs.View.{IsRange};
ghost use Rattle.sector_disk.specs.DiskView.{shown_of};
ghost use Rattle.layer_table.specs.TableLines.{IsLayerSpec};
ghost use Rattle.layer_table.specs.Layers.{IsPartlyUnder, IsLayerPut, IsSeenAs, layers_under};
ghost use Rattle.layer_table.specs.Layers.{layers_with, stack_shown, AreOver, LayersAreAllowed, disk_of};
ghost use Rattle.layer_table.specs.Layers.{layer_asked, layers_of, layers_three};
ghost use Rattle.std.specs.List.{AllByRecursion};
ghost use Rattle.layer_table.specs.Levels.{disk_three, shape_of};
ghost use Rattle.layer_table.specs.Slots.{device_of, has_layer, has_no_gap, slot_shown};

use crate::layer_spec::LayerSpec;
use crate::levels::{One, Three, Two, layer};
use crate::slot::Slot;
use crate::stack::Stack;
use bio::Ms;
use blockdev::BlockDev;
use refusals::Refusal;
use sector_disk::SectorDisk;
use std::alloc::Global;

impl Stack {
    pub fn new(disk: SectorDisk) -> Stack
        ensures layers { layers_of result ≡ [] }
        ensures disk { disk_of result ≡ disk }
        ensures shown { IsSeenAs (shown_of disk) (stack_shown result) }
    {
        Stack {
            top: Slot::Bare(Three {
                top: Slot::Bare(Two {
                    top: Slot::Bare(One {
                        top: Slot::Bare(disk),
                    }),
                }),
            }),
        }
    }

    /// Puts the layer `spec` over the stack, loaded at the time `load`, in milliseconds. A dust
    /// layer takes the memory of its list from `alloc`. The error is OutOfRange exactly if the
    /// layer's last sector is past the end of the stack, or the stack has four layers. After an
    /// error the stack is returned unchanged.
    #[tactic(auto, using(crate::specs::StackLaws::full_stack, crate::specs::StackLaws::free_stack))]
    pub fn over(self, alloc: Global, spec: LayerSpec, load: Ms) -> Result<Stack, (Stack, Refusal)>
        requires { IsLayerSpec spec }
        ensures layers { IfOk result
            (λ stack. layers_of stack ≡ layer_asked spec load ∷ layers_of self) }
        ensures disk { IfOk result (λ stack. disk_of stack ≡ disk_of self) }
        ensures shown { IfOk result (λ stack. IsLayerPut spec (stack_shown self) (stack_shown stack)) }
        ensures fits { OnOk result
            ((spec.offset + spec.length ≤ (stack_shown self).size)
            × (length (layers_of self) < 4)) }
        ensures fits_not { OnErr result
            (((stack_shown self).size < spec.offset + spec.length)
            ⊎ (length (layers_of self) ≡ 4)) }
        ensures refused { IfErr result (λ back. (back.0 ≡ self) × (back.1 ≡ refusals.OutOfRange)) }
    {
        let sectors = self.sectors();
        if self.top.has_layer() || spec.offset > sectors || spec.length > sectors - spec.offset {
            return Err((self, Refusal::OutOfRange));
        }
        Ok(Stack {
            top: put(alloc, self.top, spec, load),
        })
    }

    /// Puts the layers `specs` over the stack, in their order, each loaded at the time `load`, in
    /// milliseconds. If `over` refuses a layer, the error is OutOfRange. Then the stack is returned
    /// with only the layers before the refused layer.
    pub fn layered(
        self,
        alloc: Global,
        specs: &[LayerSpec],
        load: Ms,
    ) -> Result<Stack, (Stack, Refusal)>
        requires { AllByRecursion IsLayerSpec specs.now }
        ensures layers { IfOk result
            (λ stack. layers_of stack ≡ layers_under specs.now load (layers_of self)) }
        ensures disk { IfOk result (λ stack. disk_of stack ≡ disk_of self) }
        ensures shown { IfOk result
            (λ stack. AreOver specs.now (stack_shown self) (stack_shown stack)) }
        ensures stand { LayersAreAllowed (stack_shown self).size specs.now
            → length (layers_of self) + length specs.now ≤ 4 → IsOk result }
        ensures refused { IfErr result (λ back. back.1 ≡ refusals.OutOfRange) }
        ensures back { IfErr result (λ back. IsPartlyUnder specs.now load self back.0) }
    {
        let mut stack = self;
        let mut rest = specs;
        while let Some((spec, above)) = rest.split_first() {
            stack = stack.over(alloc, *spec, load)?;
            rest = above;
        }
        Ok(stack)
    }

    /// Returns the disk below, with no layer over it.
    pub fn into_disk(self) -> SectorDisk
        ensures { result ≡ disk_of self }
    {
        self.top.into_device().into_disk()
    }
}

// Puts the layer into the lowest free slot.
fn put(alloc: Global, top: Slot<Three>, spec: LayerSpec, load: Ms) -> Slot<Three>
    requires spec { IsLayerSpec spec }
    requires fits { IsRange (slot_shown top).size spec.offset spec.length }
    requires free { has_layer top ≡ false }
    requires filled { has_no_gap (shape_of top) ≡ true }
    ensures layers { layers_with layers_three result
        ≡ layer_asked spec load ∷ layers_with layers_three top }
    ensures disk { disk_three (device_of result) ≡ disk_three (device_of top) }
    ensures shown { IsLayerPut spec (slot_shown top) (slot_shown result) }
    ensures filled { has_no_gap (shape_of result) ≡ true }
{
    match top {
        Slot::Bare(three) => {
            if three.top.has_layer() {
                layer(alloc, three, spec, load)
            } else {
                Slot::Bare(three.put(alloc, spec, load))
            }
        }
        full => full,
    }
}
