//! Operations on chains, each of which is a ring of links. A few changes put a row in, take a row
//! out, or join two chains.
ghost use Rattle.std.specs.Prelude.{◌≡◌, ◌≢◌, ℕ, ◌+◌, ◌<◌, None, Some, Option, List, [], ◌∷◌};
ghost use Rattle.std.specs.Prelude.{◌++◌, length, slice_set, IfSome};
ghost use Rattle.pending.specs.ChainsView.{chain_in, fronted, joined, lengthened, preceded};
ghost use Rattle.pending.specs.ChainsView.{shortened};
ghost use Rattle.pending.specs.inside.Tables.{Changes, IsIn, HoldSomeChains, IsLastOfChain, IsLoose, after};
ghost use Rattle.pending.specs.inside.Tables.{last_in, HoldChains};

use crate::chains::links::{LinkChange, Links};

/// Takes the first row out of the chain whose last row is `last`; then the row is loose. Returns
/// the chain's last row after that, or None if no row is left. Makes at most 1 change, and doesn't
/// change `lasts`.
pub fn cut(links: &mut Links, last: usize) -> Option<usize>
    requires { IsLastOfChain links.old.next.items last }
    ensures holds { (lasts : List (Option ℕ)) (loose : List ℕ) (chains : List (List ℕ))
        (chain : ℕ) →
        HoldChains links.old.next.items lasts loose chains → last_in lasts chain ≡ Some last →
        HoldChains links.new.next.items (slice_set lasts chain result)
        (after links.old.next.items last ∷ loose) (shortened chains chain) }
    ensures lasts { links.new.lasts.items ≡ links.old.lasts.items }
    ensures left { IfSome result (λ row. row ≡ last) }
    ensures emptied { result ≡ None → links.new ≡ links.old }
    ensures changes { Changes links.old links.new 1 }
{
    let first = links.next(last);
    if first == last {
        return None;
    }
    let second = links.next(first);
    links.write(LinkChange::Next(last, second));
    Some(last)
}

/// Takes a row out of a chain, so that the row is loose. Makes at most 2 changes.
pub fn take_row(links: &mut Links, chain: usize, row: usize)
    requires has { IsIn links.old.next.items links.old.lasts.items chain row }
    ensures holds { (chains : List (List ℕ)) (front back : List ℕ) →
        HoldChains links.old.next.items links.old.lasts.items [] chains
        → chain_in chains chain ≡ front ++ row ∷ back →
        HoldChains links.new.next.items links.new.lasts.items (row ∷ [])
        (slice_set chains chain (front ++ back)) }
    ensures changes { Changes links.old links.new 2 }
{
    let Some(last) = links.last(chain) else {
        return;
    };
    let before = links.before(row);
    let left = cut(links, before);
    if last == row {
        links.write(LinkChange::Last(chain, left));
    }
}

/// Puts a loose row before the first row of a chain. Makes 2 changes, and doesn't change the last
/// row of another chain.
pub fn put_first(links: &mut Links, chain: usize, row: usize)
    requires { IsLoose links.old.next.items links.old.lasts.items chain row }
    ensures holds { (lasts : List (Option ℕ)) (loose : List ℕ) (chains : List (List ℕ)) →
        HoldChains links.old.next.items lasts (row ∷ loose) chains → chain < length lasts →
        last_in lasts chain ≡ last_in links.old.lasts.items chain →
        HoldChains links.new.next.items
        (slice_set lasts chain (last_in links.new.lasts.items chain)) loose
        (preceded chains chain row) }
    ensures lasts { links.new.lasts.items
        ≡ slice_set links.old.lasts.items chain (last_in links.new.lasts.items chain) }
    ensures changes { Changes links.old links.new 2 }
{
    match links.last(chain) {
        Some(last) => {
            let first = links.next(last);
            links.write(LinkChange::Next(row, first));
            links.write(LinkChange::Next(last, row));
        }
        None => {
            links.write(LinkChange::Next(row, row));
            links.write(LinkChange::Last(chain, Some(row)));
        }
    }
}

/// Appends a loose row to a chain. Makes at most 3 changes.
pub fn put_last(links: &mut Links, chain: usize, row: usize)
    requires { IsLoose links.old.next.items links.old.lasts.items chain row }
    ensures holds { (loose : List ℕ) (chains : List (List ℕ))
        → HoldChains links.old.next.items links.old.lasts.items (row ∷ loose) chains →
        HoldChains links.new.next.items links.new.lasts.items loose (lengthened chains chain row) }
    ensures changes { Changes links.old links.new 3 }
{
    put_first(links, chain, row);
    links.write(LinkChange::Last(chain, Some(row)));
}

/// Takes the first row out of a chain, so that the row is loose, and returns it. Returns None if
/// the chain has no rows. Makes at most 1 change.
pub fn take_first(links: &mut Links, chain: usize) -> Option<usize>
    requires kept { HoldSomeChains links.old.next.items links.old.lasts.items }
    requires within { chain < length links.old.lasts.items }
    ensures holds { IfSome result (λ row. (loose : List ℕ) (chains : List (List ℕ)) →
        HoldChains links.old.next.items links.old.lasts.items loose chains →
        HoldChains links.new.next.items links.new.lasts.items (row ∷ loose) (shortened chains chain)) }
    ensures first { IfSome result
        (λ row. (last : ℕ) × (last_in links.old.lasts.items chain ≡ Some last)
        × (row ≡ after links.old.next.items last)) }
    ensures none { result ≡ None
        → (last_in links.old.lasts.items chain ≡ None) × (links.new ≡ links.old) }
    ensures changes { Changes links.old links.new 1 }
{
    let last = links.last(chain)?;
    let first = links.next(last);
    if cut(links, last).is_none() {
        links.write(LinkChange::Last(chain, None));
    }
    Some(first)
}

/// Puts all rows of chain `from` before the first row of chain `onto`. Makes at most 3 changes.
pub fn put_before(links: &mut Links, from: usize, onto: usize)
    requires kept { HoldSomeChains links.old.next.items links.old.lasts.items }
    requires from { from < length links.old.lasts.items }
    requires onto { onto < length links.old.lasts.items }
    requires apart { from ≢ onto }
    ensures holds { (loose : List ℕ) (chains : List (List ℕ))
        → HoldChains links.old.next.items links.old.lasts.items loose chains →
        HoldChains links.new.next.items links.new.lasts.items loose (fronted chains from onto) }
    ensures changes { Changes links.old links.new 3 }
{
    let Some(moved) = links.last(from) else {
        return;
    };
    links.write(LinkChange::Last(from, None));
    match links.last(onto) {
        Some(kept) => {
            let first = links.next(kept);
            let second = links.next(moved);
            links.write(LinkChange::Next(kept, second));
            links.write(LinkChange::Next(moved, first));
        }
        None => links.write(LinkChange::Last(onto, Some(moved))),
    }
}

/// Appends all rows of chain `from` to chain `onto`. Makes at most 4 changes.
pub fn join(links: &mut Links, from: usize, onto: usize)
    requires kept { HoldSomeChains links.old.next.items links.old.lasts.items }
    requires from { from < length links.old.lasts.items }
    requires onto { onto < length links.old.lasts.items }
    requires apart { from ≢ onto }
    ensures holds { (loose : List ℕ) (chains : List (List ℕ))
        → HoldChains links.old.next.items links.old.lasts.items loose chains →
        HoldChains links.new.next.items links.new.lasts.items loose (joined chains from onto) }
    ensures changes { Changes links.old links.new 4 }
{
    let Some(last) = links.last(from) else {
        return;
    };
    put_before(links, from, onto);
    links.write(LinkChange::Last(onto, Some(last)));
}
