//! Prints parts of lines: first words, numbers and ids.
ghost use Rattle.std.specs.Prelude.{◌≡◌, ◌++◌, ◌∷◌, decimal, OnOk};
ghost use Rattle.dmlw_script.specs.Words.{letters_of};

use crate::script_id::ScriptId;
use refusals::push_number;
use std::alloc::AllocError;

// Appends `verb`, which ends with a space if one is wanted, and a number.
pub(crate) fn push_value(out: &mut Vec<u8>, verb: &[u8], number: u64) -> Result<(), AllocError>
    ensures { OnOk result (out.new.items ≡ out.old.items ++ (verb.now ++ decimal number)) }
{
    out.extend_from_slice(verb)?;
    push_number(out, number)
}

// Appends `verb` as `push_value` does, a first sector, a space, and a number of sectors.
pub(crate) fn push_sectors(
    out: &mut Vec<u8>,
    verb: &[u8],
    first: u64,
    count: u64,
) -> Result<(), AllocError>
    ensures { OnOk result (out.new.items
        ≡ out.old.items ++ (verb.now ++ (decimal first ++ 32 ∷ decimal count))) }
{
    push_value(out, verb, first)?;
    out.push(b' ')?;
    push_number(out, count)
}

// Appends `verb` as `push_value` does, and an id.
pub(crate) fn push_name(out: &mut Vec<u8>, verb: &[u8], name: ScriptId) -> Result<(), AllocError>
    ensures { OnOk result (out.new.items ≡ out.old.items ++ (verb.now ++ letters_of name)) }
{
    out.extend_from_slice(verb)?;
    out.extend_from_slice(name.letters())
}
