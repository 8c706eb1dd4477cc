// The rule for the passes of a registry and its handles, and the steps that this rule allows.

use atomic_table::{Join, Play, Split, Table, TableRule};
use std::alloc::Global;
use std::collections::LinkedList;
use std::marker::{Brand, PhantomData};

// What a pass knows. A registry's pass knows what each handle holds. A handle's pass knows its own
// number and what it holds. No value of this type is made.
pub struct HandlePass {
    pub keeps: bool,
    pub all: LinkedList<Option<u64>>,
    pub holds: bool,
    pub number: u64,
    pub held: Option<u64>,
}

// The rule: the registry knows what each handle holds.
pub struct HandleLaw;

impl TableRule<(), HandlePass, ()> for HandleLaw {
    ghost use Rattle.std.specs.Prelude.{[]};
    ghost use Rattle.lock_state.specs.HandleRules.{KeepsHandles, registry_of};

    ghost holds = { λ _ state. KeepsHandles state.views };

    ghost first = { λ _. registry_of [] };
}

// The table of a registry and its handles. It has one word, the number that was begun last, which
// nobody reads.
pub type HandleTable = Table<(), HandlePass, (), HandleLaw, Global>;

// The step in which the registry gets one more handle.
pub struct Enrol;

impl Play<(), HandlePass> for Enrol {
    ghost use Rattle.lock_state.specs.HandleRules.{Enrols};

    ghost then = { Enrols };
}

/// A number that only contracts see. A caller names it by `Brand`.
pub trait Numbered {
    ghost use Rattle.std.specs.Prelude.{ℕ};

    ghost number: { ℕ };
}

impl Numbered for Brand {
    ghost number = { 0 };
}

// The step in which the registry gets one more handle, which holds the number of `A`.
pub struct Hand<A: Numbered> {
    of: PhantomData<A>,
}

impl<A: Numbered> Play<(), HandlePass> for Hand<A> {
    ghost use Rattle.std.specs.Prelude.{Some};
    ghost use Rattle.lock_state.specs.HandleRules.{AddsHandle};

    ghost then = { λ step before found after. AddsHandle before.0 (Some A.number) after };
}

// The step in which a handle begins to hold a number.
pub struct Begin;

impl Play<(), HandlePass> for Begin {
    ghost use Rattle.lock_state.specs.HandleRules.{BeginsToHold};

    ghost then = { BeginsToHold };
}

// The step in which a handle stops holding a number.
pub struct Finish;

impl Play<(), HandlePass> for Finish {
    ghost use Rattle.lock_state.specs.HandleRules.{FinishesHolding};

    ghost then = { FinishesHolding };
}

// The step that compares what a registry and a handle know.
pub struct CompareHandles;

impl Play<(), HandlePass> for CompareHandles {
    ghost use Rattle.lock_state.specs.HandleRules.{HandlesAgree};

    ghost then = { HandlesAgree };
}

// The handle's part moves from one pass to another.
pub struct HandlePart;

impl Split<HandlePass> for HandlePart {
    ghost use Rattle.lock_state.specs.HandleRules.{registry_part, handle_part};

    ghost left = { registry_part };

    ghost right = { handle_part };
}

impl Join<HandlePass> for HandlePart {
    ghost use Rattle.lock_state.specs.HandleRules.{with_handle, empty_pass};

    ghost both = { with_handle };

    ghost spent = { empty_pass };
}
