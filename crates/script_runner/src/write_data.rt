// The data of a script's writes. All bytes of a write are the same, and writes of the same byte
// share their data.
ghost use Rattle.std.specs.Prelude.{◌≡◌, ◌≤◌, IfOk, OnErr, OnOk, length, replicate};
ghost use Rattle.script_runner.specs.Submissions.{AreFilled, HasRow};

use bio::{Bytes, SECTOR_BYTES};
use std::alloc::{AllocError, Global};

// The size of a sector in bytes.
const SECTOR: usize = SECTOR_BYTES as usize;

// A write has at most this many bytes.
const MOST: usize = 2048 * SECTOR;

// There is one row for each value of a byte.
const ROWS: usize = 256;

/// The data that a script's writes share: a row of at most 1 MiB for each value of a byte.
#[derive(Debug, Drop)]
pub struct WriteData {
    alloc: Global,
    // For each byte, the longest data that was made of it so far. There are no rows before the
    // first write.
    rows: Vec<Bytes>,
    ghost filled: { AreFilled rows.items },
}

impl WriteData {
    ghost use Rattle.std.specs.Prelude.{◌≡◌, ◌*◌, ◌≤◌, IfOk, replicate};

    /// Returns a table without rows.
    pub fn none(alloc: Global) -> WriteData {
        WriteData {
            alloc,
            rows: Vec::new(alloc),
        }
    }

    pub fn sectors_of(&mut self, count: u64, byte: u8) -> Result<Bytes, AllocError>
        requires { count ≤ 2048 }
        ensures { IfOk result (λ bytes. bytes ≡ replicate (count * 512) byte) }
    {
        let least = count as usize * SECTOR;
        make_rows(self.alloc, &mut self.rows)?;
        self.lengthen(byte, least)?;
        first_of(&self.rows, byte, least)
    }

    // Makes the row of a byte at least `least` bytes long.
    fn lengthen(&mut self, byte: u8, least: usize) -> Result<(), AllocError>
        requires few { least ≤ 1048576 }
        requires rows { 256 ≤ length self.old.rows.items }
        ensures { OnOk result (HasRow least byte self.new.rows.items) }
    {
        let length = self.rows[byte as usize].len();
        if length < least {
            let most = least.max(2 * length).min(MOST);
            self.rows[byte as usize] = filled(self.alloc, byte, most)?;
        }
        Ok(())
    }
}

fn first_of(rows: &[Bytes], byte: u8, count: usize) -> Result<Bytes, AllocError>
    requires filled { AreFilled rows.now }
    requires row { HasRow count byte rows.now }
    ensures { IfOk result (λ bytes. bytes ≡ replicate count byte) }
{
    rows[byte as usize].prefix(count)
}

// Makes an empty row for each byte, unless there are rows already.
fn make_rows(alloc: Global, rows: &mut Vec<Bytes>) -> Result<(), AllocError>
    requires { AreFilled rows.old.items }
    ensures filled { AreFilled rows.new.items }
    ensures rows { OnOk result (256 ≤ length rows.new.items) }
{
    while rows.len() < ROWS {
        rows.push(Bytes::from_vec(Vec::new(alloc)))?;
    }
    Ok(())
}

// Returns `length` bytes, each of which is `byte`. Clones share them.
fn filled(alloc: Global, byte: u8, length: usize) -> Result<Bytes, AllocError>
    ensures { IfOk result (λ bytes. bytes ≡ replicate length byte) }
{
    Bytes::from_vec(vec![in alloc; byte; length]?).into_shared()
}
