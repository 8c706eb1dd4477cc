// The board that a close returns.
ghost use Rattle.std.specs.Prelude.{◌≡◌, ℕ, List};
ghost use Rattle.board.specs.Published.{StatusesBegin, last_of};
ghost use Rattle.lock_state.specs.declared.note.LogItem.{LogItem as Placing};
ghost use Rattle.shared.specs.Published.{ArePublished};

use bio::Status;
use board::{Board, Names, StatusSeat};
use std::marker::Model;

/// The board of a closed recorder, with the seat of the board's one writer. Its value in contracts
/// is the list of the published statuses, in order.
#[derive(Drop)]
pub struct PublishedBoard<R: Names> {
    board: Board<R>,
    writer: board::WriterSeat<R>,
}

impl<R: Names> Model for PublishedBoard<R> {
    ghost use Rattle.std.specs.Prelude.{List};
    ghost use Rattle.bio.specs.declared.outcome.Status.{Status};

    ghost Value = { List Status };

    ghost view = { λ p. p.writer };
}

impl<R: Names> PublishedBoard<R> {
    pub(crate) fn new(board: Board<R>, writer: board::WriterSeat<R>) -> PublishedBoard<R>
        ensures { result ≡ writer }
    {
        PublishedBoard { board, writer }
    }

    pub fn last(&self) -> Status
        ensures { result ≡ last_of self.now }
    {
        self.writer.last()
    }

    /// Proves that the statuses that a status seat has seen are a prefix of the published ones. So
    /// if the published statuses are those of prefixes of some items, and none goes back, this
    /// holds for the seen statuses too.
    pub fn agree(&mut self, mine: &mut StatusSeat<R>)
        ensures begins { StatusesBegin mine.old self.old }
        ensures seen { (bytes : ℕ) (placed : List Placing) → ArePublished bytes placed self.old
            → ArePublished bytes placed mine.old }
        ensures same { (self.new ≡ self.old) × (mine.new ≡ mine.old) }
    {
        self.board.agree(&mut self.writer, mine);
    }
}
