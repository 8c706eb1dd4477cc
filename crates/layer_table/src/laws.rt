//! Laws of stacks. Each function does nothing, and its `ensures` clause is the law.
ghost use Rattle.std.specs.Prelude.{◌≡◌, ◌∷◌, ℕ, List, Result};
ghost use Rattle.bio.specs.declared.outcome.DevError.{DevError};
ghost use Rattle.blockdev.specs.View.{Call};
ghost use Rattle.dust_layer.specs.declared.mode.Mode.{Mode};
ghost use Rattle.dust_layer.specs.Walk.{Bad};
ghost use Rattle.fault_layers.specs.Decision.{call_kind};
ghost use Rattle.fault_layers.specs.Verdicts.{loaded_after, rule_verdict, Loaded};
ghost use Rattle.sector_disk.specs.declared.disk.SectorDisk.{SectorDisk};
ghost use Rattle.sector_disk.specs.DiskView.{shown_of};
ghost use Rattle.layer_table.specs.declared.stack.Stack.{Stack};
ghost use Rattle.layer_table.specs.Layers.{disk_of, layers_of, layers_over, stack_does};
ghost use Rattle.layer_table.specs.Layers.{stack_shown, Deciding, Dusting, Follows, FollowsBlocks};
ghost use Rattle.layer_table.specs.Layers.{IsPartOf, IsSeenAs, Layer, LayersDo};

/// The view of a stack is that of its layers, from the lowest up, over the view of the disk.
#[tactic(auto, using(crate::specs::StackLaws::seen_by_layers))]
pub fn stacks_show_their_layers()
    ensures { (stack : Stack)
        → IsSeenAs (layers_over (layers_of stack) (shown_of (disk_of stack))) (stack_shown stack) }
{}

/// A stack is a part of the disk below it (`IsPartOf`). Its content is the disk's content from the
/// stack's origin on. After a crash, even during a call, its possible contents are that part of the
/// disk's possible contents.
pub fn stacks_are_parts_of_their_disks()
    ensures { (stack : Stack) → IsPartOf (shown_of (disk_of stack)) (stack_shown stack) }
{}

/// If a stack does a call, its layers do the call over the disk, from the top down (`LayersDo`).
#[tactic(auto, using(crate::specs::StackLaws::done_by_layers))]
pub fn stacks_do_what_their_layers_do()
    ensures { (old : Stack) (call : Call) (now : ℕ) (result : Result ℕ DevError) (new : Stack)
        → stack_does old call now result new →
        LayersDo (layers_of old) (disk_of old) call now result (layers_of new) (disk_of new) }
{}

/// If the top layer has a fault rule, it does what the fault rule's verdict says. Then it has the
/// fault rule after the call.
#[tactic(auto, using(crate::specs::StackLaws::rule_top))]
pub fn fault_rules_decide()
    ensures { (layer : Layer) (layers : List Layer) (old : SectorDisk) (call : Call) (now : ℕ)
        (result : Result ℕ DevError) (after : List Layer)
        (new : SectorDisk) (fault_rule : Loaded) → layer.rule ≡ Deciding fault_rule
        → LayersDo (layer ∷ layers) old call now result after new →
        Follows (rule_verdict fault_rule (call_kind call) now)
        (record layer { rule = Deciding (loaded_after fault_rule (call_kind call) now) })
        layers old call now result after new }
{}

/// If the top layer is a dust layer, a call goes by the layer's list of bad blocks and its mode.
#[tactic(auto, using(crate::specs::StackLaws::dust_top))]
pub fn dust_layers_go_by_blocks()
    ensures { (layer : Layer) (layers : List Layer) (old : SectorDisk) (call : Call) (now : ℕ)
        (result : Result ℕ DevError) (after : List Layer)
        (new : SectorDisk) (block : ℕ) (bad : Bad) (mode : Mode)
        → layer.rule ≡ Dusting block bad mode →
        LayersDo (layer ∷ layers) old call now result after new →
        FollowsBlocks block bad mode layer layers old call now result after new }
{}
