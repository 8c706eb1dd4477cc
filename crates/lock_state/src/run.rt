// The name of one shared recorder.
use crate::handles::Whose;
use std::marker::{Brand, PhantomData};
use std::sync::ledger::Ledger;

/// The name of one shared recorder, with the ledger of its seats and four tables. On the first
/// table, the queue and the seats agree. On the second and third, the queue and the log agree about
/// the first stop and about the log's end. On the fourth, the log and each receipt agree when the
/// receipt was made. The name has the number of 512-byte sectors of the
/// recorded device, and the number of bytes of a log sector. It has the properties of the log's
/// device before the log was begun, and the readings of this device's clock at which the log may
/// have begun. A seat of another recorder has another type, so it is refused.
pub trait Run: Ledger + Whose {
    ghost use Rattle.std.specs.Prelude.{ℕ};
    ghost use Rattle.lock_state.specs.PlacedItems.{Ground};

    ghost sectors: { ℕ };

    ghost sector_bytes: { ℕ };

    ghost log: { Ground };

    ghost begins: { ℕ → Type 0 };

    ghost use Rattle.atomic_table.specs.Seated.{TableId};

    ghost stops: { TableId };

    ghost ends: { TableId };

    ghost reads: { TableId };
}

/// The name of the table on which a recorder's queue and log agree about the first stop.
pub struct StopTable<R: Run> {
    run: PhantomData<R>,
}

impl<R: Run> Whose for StopTable<R> {
    ghost table = { R.stops };
}

/// The name of the table on which a recorder's queue and log agree about the log's end.
pub struct EndTable<R: Run> {
    run: PhantomData<R>,
}

impl<R: Run> Whose for EndTable<R> {
    ghost table = { R.ends };
}

/// The name of the table on which a recorder's log and receipts agree about when each receipt was
/// made.
pub struct ReadingTable<R: Run> {
    run: PhantomData<R>,
}

impl<R: Run> Whose for ReadingTable<R> {
    ghost table = { R.reads };
}

impl Run for Brand {
    ghost use Rattle.std.specs.Prelude.{false};
    ghost use Rattle.lock_state.specs.HandleRules.{blank_table};

    ghost stops = { blank_table };

    ghost ends = { blank_table };

    ghost reads = { blank_table };

    ghost sectors = { 0 };

    ghost sector_bytes = { 512 };

    ghost log = { record {
      size = 0;
      origin = record { sector = 0; disk = 0 };
      can_lie = false;
      lies = 0;
      faults = 0;
    } };

    ghost begins = { λ _. Unit {0} };
}
