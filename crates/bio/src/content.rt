//! Sectors of 512 bytes, and laws of a device's content after a write or a discard. The function of
//! a law does nothing; its clauses are the law.
ghost use Rattle.std.specs.Prelude.{◌≡◌, ◌⊎◌, ◌+◌, ◌-◌, ◌/◌, ◌<◌, ◌≤◌, List, None, Some, length};
ghost use Rattle.std.specs.Prelude.{replicate, ℕ};
ghost use Rattle.bio.specs.Content.{Content, HasBytes, HasWholeSectors, HasWholeValues, Patch};
ghost use Rattle.bio.specs.Content.{Patched, discards, put, sector_of, writes};

/// The size of a sector in bytes.
pub const SECTOR_BYTES: u64 = 512;

/// The maximum number of sectors of a device.
pub const MAX_DEVICE_SECTORS: u64 = 1_048_576;

/// `SECTOR_BYTES` is 512, and `MAX_DEVICE_SECTORS` is 1,048,576.
pub fn sizes()
    ensures sector { SECTOR_BYTES ≡ 512 }
    ensures device { MAX_DEVICE_SECTORS ≡ 1048576 }
{}

/// After a write, the content has the write's whole sectors from the write's first sector on. Each
/// other sector is unchanged.
pub fn writes_put_their_bytes()
    ensures bytes { (first : ℕ) (bytes : List ℕ) (content : Content) →
        HasBytes (put (writes first bytes) content) first bytes }
    ensures within { (first : ℕ) (bytes : List ℕ) (content : Content) (sector : ℕ) →
        first ≤ sector → sector < first + length bytes / 512 →
        put (writes first bytes) content sector ≡ sector_of bytes (sector - first) }
    ensures outside { (first : ℕ) (bytes : List ℕ) (content : Content) (sector : ℕ) →
        (sector < first) ⊎ (first + length bytes / 512 ≤ sector) →
        put (writes first bytes) content sector ≡ content sector }
{}

/// After a discard, its sectors are zeroes. Each other sector is unchanged.
pub fn discards_put_zeroes()
    ensures within { (first count : ℕ) (content : Content) (sector : ℕ) →
        first ≤ sector → sector < first + count →
        put (discards first count) content sector ≡ replicate 512 0 }
    ensures outside { (first count : ℕ) (content : Content) (sector : ℕ) →
        (sector < first) ⊎ (first + count ≤ sector) →
        put (discards first count) content sector ≡ content sector }
{}

/// After a patch is put, each sector for which the patch has a value has this value. Each other
/// sector is unchanged.
pub fn values_are_put()
    ensures value { (patch : Patch) (content : Content) (sector : ℕ) (value : List ℕ) →
        patch sector ≡ Some value → put patch content sector ≡ value }
    ensures none { (patch : Patch) (content : Content) (sector : ℕ) →
        patch sector ≡ None → put patch content sector ≡ content sector }
{}

/// Each value of a write or a discard has 512 bytes. If each value of a patch has 512 bytes, a disk
/// of whole sectors still has whole sectors after any part of the patch.
pub fn sectors_stay_whole()
    ensures writes { (first : ℕ) (bytes : List ℕ) → HasWholeValues (writes first bytes) }
    ensures discards { (first count : ℕ) → HasWholeValues (discards first count) }
    ensures patched { (disk : ℕ) (patch : Patch) (old new : Content) →
        HasWholeValues patch → Patched patch old new →
        HasWholeSectors disk old → HasWholeSectors disk new }
{}
