//! The walk over a chain, during which values can be taken out of the chain's middle.
//!
//! A ring stays the same, whichever of its rows counts as the last. So the walk goes past a value
//! without changing a link: it only changes `Walk::at`, which counts as the chain's last row. When
//! the walk ends, this row is stored as the last row.
ghost use Rattle.std.specs.Prelude.{◌≡◌, ◌≢◌, ℕ, ◌<◌, None, Some, length};
ghost use Rattle.pending.specs.ChainsView.{ChangesFew, KeepsRoom, lifted, turned};

use crate::chains::links::LinkChange;
use crate::chains::rings;
use crate::chains::table::Chains;
use crate::chains::walk::Walk;

impl<T: Drop> Chains<T> {
    /// Begins a walk over a chain, at the chain's first value. Changes no link.
    pub fn walk(&mut self, chain: usize)
        requires rests { self.old.walked ≡ None }
        requires chain { 0 < chain × chain < length self.old.chains }
        ensures walked { self.new ≡ record self.old { walked = Some chain } }
    {
        let at = self.links.last(chain);
        self.walk = Some(Walk { chain, at });
    }

    /// Moves the first value of the walked chain to its end. Changes no link.
    pub fn turn(&mut self)
        ensures chains { (chain : ℕ) → self.old.walked ≡ Some chain
            → self.new.chains ≡ turned self.old.chains chain }
        ensures rest { self.new ≡ record self.old { chains = self.new.chains } }
        ensures none { self.old.walked ≡ None → self.new ≡ self.old }
    {
        let Some(walk) = self.walk else {
            return;
        };
        let Some(at) = walk.at else {
            return;
        };
        let first = self.links.next(at);
        self.walk = Some(Walk {
            chain: walk.chain,
            at: Some(first),
        });
    }

    /// Moves the last value of the walked chain to its front, which undoes `turn`. Changes no link.
    pub fn turn_back(&mut self)
        ensures chains { (chain : ℕ) → self.old.walked ≡ Some chain
            → self.old.chains ≡ turned self.new.chains chain }
        ensures rest { self.new ≡ record self.old { chains = self.new.chains } }
        ensures none { self.old.walked ≡ None → self.new ≡ self.old }
    {
        let Some(walk) = self.walk else {
            return;
        };
        let Some(at) = walk.at else {
            return;
        };
        let before = self.links.before(at);
        self.walk = Some(Walk {
            chain: walk.chain,
            at: Some(before),
        });
    }

    /// Moves the first value of the walked chain to the front of chain `onto`. Changes at most 3
    /// links, and moves no value in memory.
    pub fn lift(&mut self, onto: usize)
        requires onto { 0 < onto × onto < length self.old.chains }
        requires apart { self.old.walked ≢ Some onto }
        ensures chains { (chain : ℕ) → self.old.walked ≡ Some chain
            → self.new.chains ≡ lifted self.old.chains chain onto }
        ensures changed { ChangesFew self.old self.new 3 }
        ensures walked { self.new.walked ≡ self.old.walked }
        ensures room { KeepsRoom self.old self.new }
        ensures none { self.old.walked ≡ None → self.new ≡ self.old }
    {
        let Some(walk) = self.walk else {
            return;
        };
        let Some(at) = walk.at else {
            return;
        };
        let row = self.links.next(at);
        self.marks.remove(row);
        let left = rings::cut(&mut self.links, at);
        rings::put_first(&mut self.links, onto, row);
        self.walk = Some(Walk {
            chain: walk.chain,
            at: left,
        });
    }

    /// Ends the walk. The values of the chain stay in their present order. Changes 1 link if there
    /// was a walk.
    pub fn rest(&mut self)
        ensures chains { self.new.chains ≡ self.old.chains }
        ensures changed { ChangesFew self.old self.new 1 }
        ensures walked { self.new.walked ≡ None }
        ensures room { KeepsRoom self.old self.new }
    {
        let Some(walk) = self.walk else {
            return;
        };
        self.links.write(LinkChange::Last(walk.chain, walk.at));
        self.walk = None;
    }
}
