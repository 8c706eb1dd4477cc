//! Laws of crashes of a disk. A crash may leave exactly what picks can name. Unsynced sectors may
//! have old values, and a crash tears a running call.
ghost use Rattle.std.specs.Prelude.{◌∷◌, ◌++◌, ◌≡◌, ◌+◌, ◌-◌, ◌/◌, ◌<◌, ◌≤◌, Bool, List, Ok, []};
ghost use Rattle.std.specs.Prelude.{false, length, replicate, true, ℕ};
ghost use Rattle.blockdev.specs.View.{Discards, Flushes, Writes};
ghost use Rattle.sector_disk.specs.Candidates.{left_by};
ghost use Rattle.sector_disk.specs.declared.disk.SectorDisk.{SectorDisk};
ghost use Rattle.sector_disk.specs.DiskView.{DoesOnDisk, cache_of, shown_of};
ghost use Rattle.bio.specs.Content.{Content, Patched, discards, sector_of, writes};

/// A crash may leave the content that `picks` leave, whatever `picks` are.
#[tactic(auto, using(crate::proofs::DeviceLaw::picks_leave))]
pub fn picks_leave_one()
    ensures { (disk : SectorDisk) (picks : List ℕ)
        → (shown_of disk).crash (left_by (cache_of disk) picks) }
{}

/// For each content that a crash may leave, some picks leave it in all sectors of the disk.
#[tactic(auto, using(crate::specs::CandidateLaws::each_is_picked, crate::specs::DiskView::cache_of))]
pub fn each_crash_is_picked()
    ensures { (disk : SectorDisk) (left : Content) → (shown_of disk).crash left →
        (picks : List ℕ) × ((sector : ℕ) → sector < (shown_of disk).size →
        left_by (cache_of disk) picks sector ≡ left sector) }
{}

/// An unsynced sector may have an old value. What a crash could leave before a write without FUA or
/// a discard, it may also leave after the call.
pub fn unsynced_sectors_may_be_old()
    ensures write { (old new : SectorDisk) (first : ℕ) (bytes : List ℕ) (now end : ℕ)
        (left : Content) →
        DoesOnDisk old (Writes first bytes false) now (Ok end) new →
        (shown_of old).crash left → (shown_of new).crash left }
    ensures discard { (old new : SectorDisk) (first count now end : ℕ) (left : Content) →
        DoesOnDisk old (Discards first count) now (Ok end) new →
        (shown_of old).crash left → (shown_of new).crash left }
{}

/// While a write (also one with FUA) or a discard runs, a crash may leave any part of the call. The
/// result is any content that a crash could leave before, with the call's values in any of their
/// sectors.
pub fn running_calls_tear()
    ensures write { (old new : SectorDisk) (first : ℕ) (bytes : List ℕ) (fua : Bool) (now end : ℕ)
        (before left : Content) →
        DoesOnDisk old (Writes first bytes fua) now (Ok end) new →
        (shown_of old).crash before → Patched (writes first bytes) before left →
        (shown_of new).since (shown_of old).clock left }
    ensures discard { (old new : SectorDisk) (first count now end : ℕ) (before left : Content) →
        DoesOnDisk old (Discards first count) now (Ok end) new →
        (shown_of old).crash before → Patched (discards first count) before left →
        (shown_of new).since (shown_of old).clock left }
{}

/// A write without FUA or a discard adds its value to the candidates of each sector that it covers.
/// A write with FUA makes its value the only candidate there. After a flush, each sector's only
/// candidate is its value.
pub fn calls_make_candidates()
    ensures plain { (old new : SectorDisk) (first : ℕ) (bytes : List ℕ) (now end sector : ℕ) →
        DoesOnDisk old (Writes first bytes false) now (Ok end) new →
        first ≤ sector → sector < first + length bytes / 512 →
        (cache_of new).may sector
        ≡ (cache_of old).may sector ++ sector_of bytes (sector - first) ∷ [] }
    ensures fua { (old new : SectorDisk) (first : ℕ) (bytes : List ℕ) (now end sector : ℕ) →
        DoesOnDisk old (Writes first bytes true) now (Ok end) new →
        first ≤ sector → sector < first + length bytes / 512 →
        (cache_of new).may sector ≡ sector_of bytes (sector - first) ∷ [] }
    ensures discard { (old new : SectorDisk) (first count now end sector : ℕ) →
        DoesOnDisk old (Discards first count) now (Ok end) new →
        first ≤ sector → sector < first + count →
        (cache_of new).may sector ≡ (cache_of old).may sector ++ replicate 512 0 ∷ [] }
    ensures flush { (old new : SectorDisk) (now end sector : ℕ) →
        DoesOnDisk old Flushes now (Ok end) new →
        (cache_of new).may sector ≡ (cache_of old).now sector ∷ [] }
{}
