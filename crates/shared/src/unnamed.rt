// The parts of a new recorder, before it has a name.
ghost use Rattle.std.specs.Prelude.{◌≡◌, ◌<◌, ◌≤◌, IfOk};

use lock_state::Fresh;
use std::alloc::{AllocError, Global};
use std::sync::ledger::Blank;

/// The ledger of a recorder's seats, four tables, and the board of its status. On the first table,
/// the queue and the seats agree. On the second and third, the queue and the log agree about the
/// first stop and about the log's end. On the fourth, the log and the receipts agree about when each
/// receipt was made. These name the recorder: a seat of another recorder has
/// another type.
#[derive(Drop)]
pub struct Unnamed {
    /// The ledger, which has a part for each seat.
    pub ledger: Blank,
    /// The table on which the queue and the seats agree.
    pub table: Fresh,
    /// The table on which the queue and the log agree about the first stop.
    pub stops: Fresh,
    /// The table on which the queue and the log agree about the log's end.
    pub ends: Fresh,
    /// The table on which the log and the receipts agree about when each receipt was made.
    pub reads: Fresh,
    /// The board of the log's status.
    pub board: board::Blank,
}

impl Unnamed {
    /// Returns these parts for a recorder with `seats` seats, 1 to 64, or `Err` if memory runs out.
    pub fn new(alloc: Global, seats: u64) -> Result<Unnamed, AllocError>
        requires { (0 < seats) × (seats ≤ 64) }
        ensures { IfOk result (λ unnamed. unnamed.ledger.parts ≡ seats) }
    {
        Ok(Unnamed {
            ledger: Blank::new(seats),
            table: Fresh::new(alloc)?,
            stops: Fresh::new(alloc)?,
            ends: Fresh::new(alloc)?,
            reads: Fresh::new(alloc)?,
            board: board::Blank::new(alloc)?,
        })
    }
}
