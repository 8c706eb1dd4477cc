// The rule of a board's word and passes, and the steps that keep the rule.

use atomic_table::{Join, Play, Split, Table, TableRule};
use bio::Status;
use std::alloc::Global;
use std::collections::LinkedList;

// A pass: what the seat of the writer or of a reader knows. `seen` are the statuses that it has
// seen, `told` those that it has learned from another pass. The writer's pass has seen all. No
// value of this type is made.
pub struct BoardPass {
    pub writes: bool,
    pub seen: LinkedList<Status>,
    pub told: LinkedList<Status>,
}

// The rule: the word is the number of the last published status, and each pass has seen a prefix of
// the published statuses.
pub struct BoardLaw;

impl TableRule<(), BoardPass, ()> for BoardLaw {
    ghost use Rattle.std.specs.Prelude.{[], ◌∷◌};
    ghost use Rattle.board.specs.Published.{IsPublished, opening, writer_pass};

    ghost holds = { λ _ state. IsPublished state.words state.views };

    ghost first = { λ _. writer_pass (opening ∷ []) };
}

// The table of a board: its one word and its passes.
pub type BoardTable = Table<(), BoardPass, (), BoardLaw, Global>;

// The writer publishes a status.
pub struct Publish;

impl Play<(), BoardPass> for Publish {
    ghost use Rattle.board.specs.Published.{Publishes};

    ghost then = { Publishes };
}

// A reader looks at the last status.
pub struct Look;

impl Play<(), BoardPass> for Look {
    ghost use Rattle.board.specs.Published.{ReadsBoard};

    ghost then = { ReadsBoard };
}

// The writer compares what it has learned with what it published.
pub struct CompareStatuses;

impl Play<(), BoardPass> for CompareStatuses {
    ghost use Rattle.board.specs.Published.{Compares};

    ghost then = { Compares };
}

// A new reader's pass has seen as much as the pass that it is split from.
pub struct CopiedPass;

impl Split<BoardPass> for CopiedPass {
    ghost use Rattle.board.specs.Published.{as_reader};

    ghost left = { λ pass. pass };

    ghost right = { as_reader };
}

// A pass learns what another pass has seen.
pub struct Learn;

impl Join<BoardPass> for Learn {
    ghost use Rattle.std.specs.Prelude.{[]};
    ghost use Rattle.board.specs.Published.{pass_after, reader_pass};

    ghost both = { pass_after };

    ghost spent = { reader_pass [] };
}
