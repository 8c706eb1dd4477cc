//! Checks for tables of tests. For the prover: an assertion with a text is slow to prove, and here
//! each is proved once.
ghost use Rattle.std.specs.Prelude.{◌≡◌};

use std::fmt::Debug;
use std::io::Print;

/// Returns whether `found` is `wanted`. If it isn't, prints the row with both.
pub fn is_same<T: PartialEq + Debug>(rt: &impl Print, found: &T, wanted: &T, row: &str) -> bool {
    let is_same = found == wanted;
    if !is_same {
        let _ = println!(rt; "{row}: {found:?}, wanted {wanted:?}");
    }
    is_same
}

/// Does what `is_same` does, for texts.
pub fn is_told(rt: &impl Print, told: &str, wanted: &str, row: &str) -> bool {
    let is_told = told == wanted;
    if !is_told {
        let _ = println!(rt; "{row}: {told}, wanted {wanted}");
    }
    is_told
}

/// Returns `test`. If it doesn't hold, prints the row.
pub fn holds(rt: &impl Print, test: bool, row: &str) -> bool
    ensures { result ≡ test }
{
    if !test {
        let _ = println!(rt; "{row}");
    }
    test
}

/// Returns whether each row of the form `text=wanted` is right: `tell` must return `wanted` for the
/// text before the first `=`. Prints each row whose result is wrong.
pub fn rows_are_told<F: FnMut(&str) -> String>(rt: &impl Print, rows: &str, tell: F) -> bool
    requires { F.IsAlwaysCallable tell }
{
    let mut tell = tell;
    let mut are_told = true;
    for row in rows.split('\n') {
        let (asked, wanted) = row.split_once('=').unwrap_or_default();
        let told = tell(asked);
        are_told &= is_told(rt, told.as_str(), wanted, row);
    }
    are_told
}
