//! A registry and its handles. It is proved that they agree on what each handle holds.
//!
//! The registry is part of a value that a lock guards; each thread has a handle. A thread that
//! takes the lock knows only the invariant of the value under it. A call with the registry and the
//! handle shows that the registry's list has, at the handle's number, exactly what the handle
//! holds. So the thread can use what the invariant states for the registry's list. No call waits,
//! and only `Fresh::new` allocates.
ghost use Rattle.std.specs.Prelude.{◌≡◌, ℕ, List, [], ◌∷◌, ◌++◌, length, Option, None, Some};
ghost use Rattle.std.specs.Prelude.{slice_get, slice_set};
ghost use Rattle.atomic_table.specs.Seated.{TableId};
ghost use Rattle.lock_state.specs.HandleRules.{Grip, registry_of, handle_of};

mod rule;

use crate::handles::rule::{
    Begin, CompareHandles, Enrol, Finish, Hand, HandlePart, HandlePass, HandleTable,
};
use atomic_table::Seat;
pub use rule::Numbered;
use std::alloc::{AllocError, Global};
use std::marker::{Brand, Model, PhantomData};

/// Names the table on which a registry and its handles agree. Each registry has its own table, so a
/// handle of another registry has another type.
pub trait Whose {
    ghost use Rattle.atomic_table.specs.Seated.{TableId};

    ghost table: { TableId };
}

impl Whose for Brand {
    ghost use Rattle.lock_state.specs.HandleRules.{blank_table};

    ghost table = { blank_table };
}

/// A registry that has no name and no handles yet. Its value in contracts is its table.
#[derive(Drop)]
pub struct Fresh {
    board: HandleTable,
    pass: Seat<(), HandlePass>,
}

impl Model for Fresh {
    ghost use Rattle.std.specs.Prelude.{◌≡◌, []};
    ghost use Rattle.atomic_table.specs.Seated.{TableId, table_id_coded};
    ghost use Rattle.lock_state.specs.HandleRules.{registry_of};

    ghost Value = { TableId };

    ghost coded = { table_id_coded };

    ghost view = { λ f. f.board.shared.table_id };

    ghost invariant = { λ f. (f.pass.table_id ≡ f.board.shared.table_id)
        × (f.board.shared.table_id.words ≡ 1) × (f.pass.me ≡ (registry_of [], [])) };
}

/// A registry, which knows what the handle with each number holds. Its value in contracts is the
/// list of what they hold.
#[derive(Drop)]
pub struct Registry<W: Whose> {
    board: HandleTable,
    pass: Seat<(), HandlePass>,
    whose: PhantomData<W>,
}

impl<W: Whose> Model for Registry<W> {
    ghost use Rattle.std.specs.Prelude.{◌≡◌, ℕ, List, [], Option};
    ghost use Rattle.lock_state.specs.HandleRules.{registry_of};

    ghost Value = { List (Option ℕ) };

    ghost view = { λ k. k.pass.me.0.all };

    ghost invariant = { λ k. (k.board.shared.table_id ≡ W.table) × (k.pass.table_id ≡ W.table)
        × (k.board.shared.table_id.words ≡ 1)
        × (k.pass.me ≡ (registry_of k.pass.me.0.all, [])) };
}

/// A handle, which holds a number or nothing. It takes no memory. Its value in contracts is its
/// number among the handles, and what it holds.
#[derive(Drop)]
pub struct Handle<W: Whose> {
    pass: Seat<(), HandlePass>,
    whose: PhantomData<W>,
}

impl<W: Whose> Model for Handle<W> {
    ghost use Rattle.std.specs.Prelude.{◌≡◌, []};
    ghost use Rattle.lock_state.specs.HandleRules.{Grip, handle_of};

    ghost Value = { Grip };

    ghost view = { λ h. record { number = h.pass.me.0.number; held = h.pass.me.0.held } };

    ghost invariant = { λ h. (h.pass.table_id ≡ W.table)
        × (h.pass.me ≡ (handle_of h.pass.me.0.number h.pass.me.0.held, [])) };
}

impl Fresh {
    /// Returns a registry without handles, or `Err` if memory runs out.
    #[tactic(auto, using(crate::proofs::HandleMoves::begins))]
    pub fn new(alloc: Global) -> Result<Fresh, AllocError> {
        let (board, pass) = HandleTable::of_words(alloc, &[0], &())?;
        Ok(Fresh { board, pass })
    }

    pub fn named<W: Whose>(self) -> Registry<W>
        requires { self ≡ W.table }
        ensures { result ≡ [] }
    {
        let Fresh { board, pass } = self;
        Registry {
            board,
            pass,
            whose: PhantomData,
        }
    }
}

impl<W: Whose> Registry<W> {
    /// Adds a handle with the next number, which holds nothing.
    pub fn enrol(&mut self) -> Handle<W>
        ensures handle { result ≡ record { number = length self.old; held = None } }
        ensures registry { self.new ≡ self.old ++ None ∷ [] }
    {
        let Registry {
            board,
            pass,
            whose: _,
        } = self;
        board.shared.store::<Enrol>(pass, 0, 0);
        Handle {
            pass: board.shared.split_seat::<HandlePart>(pass),
            whose: PhantomData,
        }
    }

    /// Adds a handle with the next number, which holds the number of `A`. Only contracts see it.
    pub fn enrol_at<A: Numbered>(&mut self) -> Handle<W>
        ensures handle { result ≡ record { number = length self.old; held = Some A.number } }
        ensures registry { self.new ≡ self.old ++ Some A.number ∷ [] }
    {
        let Registry {
            board,
            pass,
            whose: _,
        } = self;
        board.shared.store::<Hand<A>>(pass, 0, 0);
        Handle {
            pass: board.shared.split_seat::<HandlePart>(pass),
            whose: PhantomData,
        }
    }

    /// Shows that the registry knows what the handle holds.
    pub fn agree(&mut self, mine: &mut Handle<W>)
        ensures same { (self.new ≡ self.old) × (mine.new ≡ mine.old) }
        ensures knows { slice_get self.old mine.old.number ≡ Some mine.old.held }
    {
        let Registry {
            board,
            pass,
            whose: _,
        } = self;
        let lent = board.shared.split_seat::<HandlePart>(&mut mine.pass);
        board.shared.join_seat::<HandlePart>(pass, lent);
        board.shared.load::<CompareHandles>(pass, 0);
        mine.pass = board.shared.split_seat::<HandlePart>(pass);
    }

    /// Makes the handle hold `number` instead of what it held. The registry and the handle change
    /// in one step.
    pub fn begin(&mut self, mine: &mut Handle<W>, number: u64)
        ensures knew { slice_get self.old mine.old.number ≡ Some mine.old.held }
        ensures registry { self.new ≡ slice_set self.old mine.old.number (Some number) }
        ensures handle { mine.new ≡ record { number = mine.old.number; held = Some number } }
    {
        let Registry {
            board,
            pass,
            whose: _,
        } = self;
        let lent = board.shared.split_seat::<HandlePart>(&mut mine.pass);
        board.shared.join_seat::<HandlePart>(pass, lent);
        board.shared.store::<Begin>(pass, 0, number);
        mine.pass = board.shared.split_seat::<HandlePart>(pass);
    }

    /// Makes the handle hold nothing. The registry and the handle change in one step.
    pub fn finish(&mut self, mine: &mut Handle<W>)
        ensures knew { slice_get self.old mine.old.number ≡ Some mine.old.held }
        ensures registry { self.new ≡ slice_set self.old mine.old.number None }
        ensures handle { mine.new ≡ record { number = mine.old.number; held = None } }
    {
        let Registry {
            board,
            pass,
            whose: _,
        } = self;
        let lent = board.shared.split_seat::<HandlePart>(&mut mine.pass);
        board.shared.join_seat::<HandlePart>(pass, lent);
        board.shared.store::<Finish>(pass, 0, 0);
        mine.pass = board.shared.split_seat::<HandlePart>(pass);
    }
}
