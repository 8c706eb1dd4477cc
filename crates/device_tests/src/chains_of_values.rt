//! Tests of chains: values are added, joined, taken, replaced, walked and lifted, and free rows are
//! reused.
ghost use Rattle.std.specs.Prelude.{◌<◌, ◌≡◌, ◌==◌, IsTrue, None, length};
ghost use Rattle.std.specs.List.{list_any};
ghost use Rattle.pending.specs.ChainsView.{chain_in};

use pending::chains::Chains;
use std::alloc::Global;
use std::process::Abort;

fn number_of(word: Option<&str>) -> u64 {
    word.unwrap_or_default().parse::<u64>().unwrap_or(0)
}

fn is_there(chains: &Chains<u64>, chain: usize) -> bool
    ensures { IsTrue result → 0 < chain × chain < length chains.now.chains }
{
    0 < chain && chain < chains.chains()
}

// Returns whether no chain is walked, and `one` and `two` are different chains.
fn are_two(chains: &Chains<u64>, one: usize, two: usize) -> bool
    ensures rests { IsTrue result → chains.now.walked ≡ None }
    ensures one { IsTrue result → 0 < one × one < length chains.now.chains }
    ensures two { IsTrue result → 0 < two × two < length chains.now.chains }
    ensures apart { IsTrue result → one ≡ two → ⊥ }
{
    chains.walked().is_none() && is_there(chains, one) && is_there(chains, two) && one != two
}

// Does a step that changes one chain: `add`, `take` or `set`.
fn change(rt: &impl Abort, chains: &mut Chains<u64>, word: &str, chain: usize, value: u64) {
    if chains.walked().is_some() || !is_there(chains, chain) {
        return;
    }
    match word {
        "add" => chains.add(chain, value).expect(rt, "memory"),
        "take" => {
            chains.take_first(chain);
        }
        "set" => {
            chains.replace_first(chain, value);
        }
        _ => {}
    }
}

// Does a step that changes two chains, or a step of the walk.
fn go(chains: &mut Chains<u64>, word: &str, one: usize, two: usize) {
    match word {
        "join" if are_two(chains, one, two) => chains.join(one, two),
        "put_before" if are_two(chains, one, two) => chains.put_before(one, two),
        "walk" if chains.walked().is_none() && is_there(chains, one) => chains.walk(one),
        "turn" => chains.turn(),
        "lift" if chains.walked() != Some(one) && is_there(chains, one) => chains.lift(one),
        "rest" => chains.rest(),
        _ => {}
    }
}

// Returns the values of each chain, each chain followed by `|`, and then how many links were
// changed.
fn shown(rt: &impl Abort, alloc: Global, chains: &Chains<u64>) -> String {
    let mut text = String::new(alloc);
    for chain in 1..chains.chains() {
        for value in chains.iter(chain) {
            write!(text, "{value} ").expect(rt, "memory");
        }
        text.push_str("| ").expect(rt, "memory");
    }
    let changed = chains.links_changed();
    write!(text, "{changed}").expect(rt, "memory");
    text
}

// Makes three chains, does these steps, and returns the chains as text. Commas separate the steps;
// each is a word with at most two numbers.
fn played(rt: &impl Abort, alloc: Global, steps: &str) -> String {
    let mut chains = Chains::new(alloc, 3).expect(rt, "memory");
    for step in steps.split(",") {
        let mut words = step.split(" ");
        let word = words.next().unwrap_or_default();
        let (one, two) = (number_of(words.next()), number_of(words.next()));
        if word == "begin" && chains.walked().is_none() {
            chains.begin_with(one).expect(rt, "memory");
        }
        change(rt, &mut chains, word, one as usize, two);
        go(&mut chains, word, one as usize, two as usize);
    }
    shown(rt, alloc, &chains)
}

// Rows `steps=chains`: after `=`, each chain's values are followed by `|`, and the last number
// counts changed links. `add 1 10` appends 10 to chain 1, `take 1` takes its first value, and `set
// 1 12` replaces it. `join 1 2` appends chain 1 to chain 2, and `put_before 1 2` puts it before
// chain 2. `begin 40` begins a new chain with 40. `walk 1` starts a walk of chain 1. `turn` moves
// its first value to its end, and `lift 3` to the front of chain 3; `rest` ends the walk.
const ROWS: &str = "add 1 10,add 1 11,add 2 20=10 11 | 20 | | 9
add 1 10,add 1 11,add 2 20,join 1 2=| 20 10 11 | | 13
add 1 10,add 1 11,add 2 20,join 2 1,join 3 1=10 11 20 | | | 13
add 1 10,add 1 11,add 2 20,put_before 1 2=| 10 11 20 | | 12
add 1 10,add 1 11,put_before 1 3=| | 10 11 | 8
add 1 10,add 1 11,take 1,add 2 20=11 | 20 | | 13
begin 40,add 4 41,take 4,take 4,take 4=| | | | 12
add 1 10,add 1 11,set 1 12,set 2 20=12 11 | | | 6
add 1 10,add 1 11,add 1 12,walk 1,turn=11 12 10 | | | 9
add 1 10,add 1 11,add 1 12,walk 1,turn,lift 3,turn,rest=10 12 | | 11 | 13
add 1 10,add 1 11,add 1 12,walk 1,lift 3,turn,lift 3,rest,join 3 2=11 | 12 10 | | 19
add 1 10,add 2 20,walk 1,lift 2,lift 2,turn,rest=| 10 20 | | 9";

#[test]
fn chains_are_changed(rt: HostRuntime) {
    for row in ROWS.split("\n") {
        let mut parts = row.split("=");
        let shown = played(&rt, rt.alloc(), parts.next().unwrap_or_default());
        assert_eq!(rt; Some(shown.as_str()), parts.next(), "{row}");
    }
}

fn has(chains: &Chains<u64>, chain: usize, value: u64) -> bool
    requires { 0 < chain × chain < length chains.now.chains }
    ensures { result ≡ list_any (λ x. x == value) (chain_in chains.now.chains chain) }
{
    chains.iter(chain).any(|x| *x == value)
}

// A value is found while another chain is walked. The first value of a chain is changed in place.
#[test]
fn chains_are_read(rt: HostRuntime) {
    let mut chains = Chains::new(rt.alloc(), 2).expect(&rt, "memory");
    chains.add(1, 10).expect(&rt, "memory");
    chains.add(2, 20).expect(&rt, "memory");
    *chains.first_mut(2) += 1;
    chains.walk(1);
    assert!(rt; has(&chains, 2, 21));
    assert!(rt; !has(&chains, 2, 20));
    assert_eq!(rt; chains.first(1), Some(&10));
    assert!(rt; !chains.is_empty(2));
    chains.rest();
    assert_eq!(rt; chains.take_first(2), Some(21));
    assert!(rt; chains.is_empty(2));
}
