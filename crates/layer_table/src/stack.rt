//! A disk in memory under up to four layers, which fill the slots from the lowest up. `building`
//! adds layers, `device` does the calls, and `messages` passes messages to layers.
ghost use Rattle.std.specs.Prelude.{◌≡◌, true};
ghost use Rattle.std.proofs.Props.{props};
ghost use Rattle.layer_table.specs.Levels.{shape_of};
ghost use Rattle.layer_table.specs.Slots.{has_no_gap};

use crate::levels::Three;
use crate::slot::Slot;

mod building;
mod device;
mod messages;

/// A disk in memory under up to four layers, each over the next.
///
/// For example (`a_layer_fails_a_flush` of `device_tests`):
/// ```
/// let disk = SectorDisk::new(rt.alloc(), 8).expect(&rt, "memory");
/// let error = parse_line(b"0 8 error")
///     .ok()
///     .expect(&rt, "a line of a table");
/// let mut stack = Stack::new(disk)
///     .over(rt.alloc(), error, Ms::new(0))
///     .ok()
///     .expect(&rt, "room for a layer");
/// assert!(rt; stack.flush(Ms::new(0)).is_err());
/// assert!(rt; stack.faults() == 1);
/// ```
#[derive(Drop)]
pub struct Stack {
    // The layers fill the slots from the lowest up.
    top: Slot<Three>,
    ghost filled: { has_no_gap (shape_of top) ≡ true } by { Prim.hlevel props },
}
