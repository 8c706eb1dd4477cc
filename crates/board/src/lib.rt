//! A board on which one writer publishes the status of a log, and readers look at it. No call
//! waits.
//!
//! A status is one number in one shared word, so a reader always sees a whole status. Contracts see
//! a reader as a list: the statuses that it has seen, a prefix of those that the writer published.
//! A look keeps this list or makes it longer, and returns its last status. So no reader sees a
//! status go back. Only the call that makes the board takes memory.
#![tactic(auto)]

ghost use Rattle.std.specs.Prelude.{◌≡◌, List, [], ◌∷◌, ◌++◌, Option, MatchBool};
ghost use Rattle.board.specs.Published.{opening, last_of, EndStays, MayFollow, MayPublish, IsRising, StatusesBegin};

mod rule;
mod word;

use crate::rule::{BoardPass, BoardTable, CompareStatuses, CopiedPass, Learn, Look, Publish};
use crate::word::{status_of, word_of};
use atomic_table::Seat;
use bio::{End, Status};
use std::alloc::{AllocError, Global};
use std::marker::{Brand, Model, PhantomData};

/// The name of a board, as a type. Each board has its own name, so the type of another board's seat
/// doesn't fit.
pub trait Names {
    ghost use Rattle.atomic_table.specs.Seated.{TableId};

    ghost board: { TableId };
}

impl Names for Brand {
    ghost use Rattle.board.specs.Published.{no_table};

    ghost board = { no_table };
}

/// A new board that has no name yet, with its writer's seat. The board has the status of an empty
/// log. Contracts see a `Blank` as the id of its table.
#[derive(Drop)]
pub struct Blank {
    table: BoardTable,
    pass: Seat<(), BoardPass>,
}

impl Model for Blank {
    ghost use Rattle.std.specs.Prelude.{◌≡◌, [], ◌∷◌};
    ghost use Rattle.atomic_table.specs.Seated.{TableId, table_id_coded};
    ghost use Rattle.board.specs.Published.{opening, writer_pass};

    ghost Value = { TableId };

    ghost coded = { table_id_coded };

    ghost view = { λ b. b.table.shared.table_id };

    ghost invariant = { λ b. (b.pass.table_id ≡ b.table.shared.table_id)
        × (b.table.shared.table_id.words ≡ 1) × (b.pass.me ≡ (writer_pass (opening ∷ []), [])) };
}

/// A board, which the writer and the readers share.
#[derive(Drop)]
pub struct Board<N: Names> {
    table: BoardTable,
    names: PhantomData<N>,
    ghost named: { table.shared.table_id ≡ N.board },
    ghost one_word: { table.shared.table_id.words ≡ 1 },
}

/// The seat of the one writer. Contracts see the seat as the statuses that were published, in
/// order.
#[derive(Drop)]
pub struct WriterSeat<N: Names> {
    pass: Seat<(), BoardPass>,
    last: Status,
    names: PhantomData<N>,
}

impl<N: Names> Model for WriterSeat<N> {
    ghost use Rattle.std.specs.Prelude.{◌≡◌, List, []};
    ghost use Rattle.bio.specs.declared.outcome.Status.{Status};
    ghost use Rattle.board.specs.Published.{writer_pass, last_of, IsRising};

    ghost Value = { List Status };

    ghost view = { λ w. w.pass.me.0.seen };

    ghost invariant = { λ w. (w.pass.table_id ≡ N.board)
        × (w.pass.me ≡ (writer_pass w.pass.me.0.seen, [])) × (w.last ≡ last_of w.pass.me.0.seen) };
}

/// The seat of a reader. Contracts see the seat as the statuses that the reader has seen, a prefix
/// of those that were published.
#[derive(Drop)]
pub struct StatusSeat<N: Names> {
    pass: Seat<(), BoardPass>,
    names: PhantomData<N>,
}

impl<N: Names> Model for StatusSeat<N> {
    ghost use Rattle.std.specs.Prelude.{◌≡◌, List, []};
    ghost use Rattle.bio.specs.declared.outcome.Status.{Status};
    ghost use Rattle.board.specs.Published.{reader_pass};

    ghost Value = { List Status };

    ghost view = { λ s. s.pass.me.0.seen };

    ghost invariant = { λ s. (s.pass.table_id ≡ N.board)
        × (s.pass.me ≡ (reader_pass s.pass.me.0.seen, [])) };
}

impl Blank {
    /// Makes a board with no reader and the status of an empty log. Lack of memory is an error.
    pub fn new(alloc: Global) -> Result<Blank, AllocError> {
        let (table, pass) = BoardTable::of_words(alloc, &[0], &())?;
        Ok(Blank { table, pass })
    }

    /// Gives the board its name. Returns the board and its writer's seat.
    pub fn named<N: Names>(self) -> (Board<N>, WriterSeat<N>)
        requires { self ≡ N.board }
        ensures { result.1 ≡ opening ∷ [] }
    {
        let Blank { table, pass } = self;
        let board = Board {
            table,
            names: PhantomData,
        };
        let writer = WriterSeat {
            pass,
            last: Status {
                entries: 0,
                sector: 0,
                end: None,
            },
            names: PhantomData,
        };
        (board, writer)
    }
}

impl<N: Names> WriterSeat<N> {
    /// Returns the status that was published last.
    pub fn last(&self) -> Status
        ensures { result ≡ last_of self.now }
    {
        self.last
    }

    /// Returns whether the status may be published next.
    pub fn may_publish(&self, status: Status) -> bool
        ensures { MatchBool result (MayPublish self.now status) (MayPublish self.now status → ⊥) }
    {
        let last = self.last;
        status.entries <= MOST
            && status.sector <= MOST
            && last.entries <= status.entries
            && keeps(last.end, status.end)
    }
}

// The maximum number of sectors of a log, and the maximum number of its entries.
const MOST: u64 = 1_048_576;

// Returns whether `end` has the cause of `last`; true if `last` has no cause.
fn keeps(last: Option<End>, end: Option<End>) -> bool
    ensures { MatchBool result (EndStays last end) (EndStays last end → ⊥) }
{
    match last {
        None => true,
        Some(cause) => end == Some(cause),
    }
}

impl<N: Names> Board<N> {
    /// Makes the seat of a new reader, which has seen what the writer published so far.
    pub fn reader(&self, writer: &mut WriterSeat<N>) -> StatusSeat<N>
        ensures { (result ≡ writer.old) × (writer.new ≡ writer.old) }
    {
        StatusSeat {
            pass: self.table.shared.split_seat::<CopiedPass>(&mut writer.pass),
            names: PhantomData,
        }
    }

    /// Publishes a status of a log of at most 1,048,576 sectors. The status has at least as many
    /// entries as the last published one. If the last one had an end, the status has the same end.
    pub fn publish(&self, writer: &mut WriterSeat<N>, status: Status)
        requires { MayPublish writer.old status }
        ensures { writer.new ≡ writer.old ++ status ∷ [] }
    {
        let word = word_of(status);
        self.table
            .shared
            .store::<Publish>(&mut writer.pass, 0, word);
        writer.last = status;
    }

    /// Looks at the board, and returns the last status that the reader has now seen: the same as
    /// before, or a later status. The list of seen statuses begins as before, and no status in it
    /// goes back. It isn't proved that no newer status was published.
    pub fn read(&self, mine: &mut StatusSeat<N>) -> Status
        ensures later { MayFollow (last_of mine.old) result }
        ensures begins { StatusesBegin mine.old mine.new }
        ensures rising { IsRising mine.new }
        ensures last { result ≡ last_of mine.new }
    {
        status_of(self.table.shared.load::<Look>(&mut mine.pass, 0))
    }

    /// Shows to contracts that the reader has seen a prefix of what the writer published.
    pub fn agree(&self, writer: &mut WriterSeat<N>, mine: &mut StatusSeat<N>)
        ensures same { (writer.new ≡ writer.old) × (mine.new ≡ mine.old) }
        ensures begins { StatusesBegin mine.old writer.old }
    {
        let told = self.table.shared.split_seat::<CopiedPass>(&mut mine.pass);
        self.table.shared.join_seat::<Learn>(&mut writer.pass, told);
        self.table
            .shared
            .load::<CompareStatuses>(&mut writer.pass, 0);
    }
}
