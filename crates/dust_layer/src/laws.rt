//! A law of the device with bad blocks. The function does nothing, and its `ensures` clauses are
//! the law.
ghost use Rattle.std.specs.Prelude.{◌≡◌, ◌/◌, Bool, List, None, Ok, length, ℕ};
ghost use Rattle.blockdev.specs.View.{Discards, Reads, Writes};
ghost use Rattle.dust_layer.specs.declared.dust.Dust.{Dust};
ghost use Rattle.dust_layer.specs.declared.mode.Mode.TheVariants.{FailReadOnBadBlock};
ghost use Rattle.dust_layer.specs.Walk.{IsTouched, count_left, listed_counts};
ghost use Rattle.dust_layer.specs.DustRule.{IsDusted};

use blockdev::BlockDev;

/// If bad blocks fail calls, a write or a discard that ends Ok touched no block that had a count
/// above 0. A read that ends Ok touched no listed block.
#[tactic(auto, using(crate::proofs::ListLaws::good_writes, crate::proofs::ListLaws::good_discards, crate::proofs::ListLaws::good_reads))]
pub fn only_good_blocks_are_passed<D: BlockDev + Drop>()
    ensures writes { (old new : Dust D) (first : ℕ) (bytes : List ℕ) (fua : Bool)
        (now end block : ℕ) →
        old.mode ≡ FailReadOnBadBlock
        → IsDusted D.does (Writes first bytes fua) now (Ok end) old new →
        IsTouched old.block first (length bytes / 512) block → count_left (listed_counts old.bad) block ≡ 0 }
    ensures discards { (old new : Dust D) (first count now end block : ℕ) →
        old.mode ≡ FailReadOnBadBlock
        → IsDusted D.does (Discards first count) now (Ok end) old new →
        IsTouched old.block first count block → count_left (listed_counts old.bad) block ≡ 0 }
    ensures reads { (old new : Dust D) (first : ℕ) (before after : List ℕ) (now end block : ℕ) →
        old.mode ≡ FailReadOnBadBlock
        → IsDusted D.does (Reads first before after) now (Ok end) old new →
        IsTouched old.block first (length before / 512) block → listed_counts old.bad block ≡ None }
{}
