// A status as one number: the entries from bit 26 on, the sector from bit 5 on, and the end's
// number below.
ghost use Rattle.std.specs.Prelude.{◌≡◌, ◌≤◌, Option};
ghost use Rattle.refusals.specs.declared.run_error.End.{End};
ghost use Rattle.bio.specs.declared.outcome.Status.{Status as Said};
ghost use Rattle.board.specs.Published.{IsFit, end_number, word_of as word_said};

use bio::{End, Status};

// The amount by which one entry increases the number.
const ENTRY: u64 = 67_108_864;
// The amount by which one sector increases the number.
const SECTOR: u64 = 32;

pub fn word_of(status: Status) -> u64
    requires { IsFit status }
    ensures { result ≡ word_said status }
{
    status.entries * ENTRY + status.sector * SECTOR + number_of(status.end)
}

/// Returns the status whose number is `word`, if a status that fits has this number.
pub fn status_of(word: u64) -> Status
    ensures { (status : Said) → IsFit status → word ≡ word_said status → result ≡ status }
{
    Status {
        entries: word / ENTRY,
        sector: word % ENTRY / SECTOR,
        end: end_of(word % SECTOR),
    }
}

// Returns the number of an end, below 32; 0 for no end.
fn number_of(end: Option<End>) -> u64
    ensures is { result ≡ end_number end }
    ensures few { result ≤ 20 }
{
    match end {
        None => 0,
        Some(End::Full) => 18,
        Some(End::Device) => 19,
        Some(End::Memory) => 20,
    }
}

// Returns the end with this number; none if no end has this number.
fn end_of(number: u64) -> Option<End>
    ensures { (end : Option End) → number ≡ end_number end → result ≡ end }
{
    match number {
        18 => Some(End::Full),
        19 => Some(End::Device),
        20 => Some(End::Memory),
        _ => None,
    }
}
