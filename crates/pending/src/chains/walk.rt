//! How far a walk over a chain has come.
ghost use Rattle.std.specs.Prelude.{◌≡◌, ℕ, ◌<◌, IsSome, Some, length};
ghost use Rattle.pending.specs.inside.Tables.{HoldSomeChains, after, last_in, seen_lasts};

use crate::chains::links::Links;

/// A walk over `chain`. The row `at` counts as the chain's last row.
#[derive(Clone, Copy, Debug)]
pub struct Walk {
    pub chain: usize,
    pub at: Option<usize>,
}

/// Returns the row that counts as the last row of a chain, if the chain has rows.
pub fn seen_last(links: &Links, walk: Option<Walk>, chain: usize) -> Option<usize>
    requires { chain < length links.now.lasts.items }
    ensures { result ≡ last_in (seen_lasts links.now.lasts.items walk) chain }
{
    match walk {
        Some(walk) if walk.chain == chain => walk.at,
        Some(_) | None => links.last(chain),
    }
}

pub fn first_row(links: &Links, walk: Option<Walk>, chain: usize) -> usize
    requires there { HoldSomeChains links.now.next.items (seen_lasts links.now.lasts.items walk) }
    requires chain { chain < length links.now.lasts.items }
    requires some { IsSome (last_in (seen_lasts links.now.lasts.items walk) chain) }
    ensures { (last : ℕ) × (last_in (seen_lasts links.now.lasts.items walk) chain ≡ Some last)
        × (result ≡ after links.now.next.items last) }
{
    match seen_last(links, walk, chain) {
        Some(last) => links.next(last),
        None => unreachable!(),
    }
}
