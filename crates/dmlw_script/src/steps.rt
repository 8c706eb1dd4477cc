//! Prints the lines that name no request.
ghost use Rattle.std.specs.Prelude.{◌≡◌, ◌++◌, ◌∷◌, codes, decimal, OnOk};
ghost use Rattle.dmlw_script.specs.Fields.{step_fields, fields_text};

use crate::command::{DiskName, Step};
use crate::parts::{push_sectors, push_value};
use std::alloc::AllocError;

// Appends a line that names no request, without its line feed.
pub(crate) fn push_step(out: &mut Vec<u8>, step: &Step) -> Result<(), AllocError>
    ensures { OnOk result (out.new.items ≡ out.old.items ++ fields_text (step_fields step.now)) }
{
    match step {
        Step::Close => out.extend_from_slice(b"close"),
        Step::Read { first, count } => push_sectors(out, b"r ", *first, *count),
        Step::Turn => out.extend_from_slice(b"turn"),
        Step::Mark { text } => push_mark(out, text.as_slice()),
        Step::At { time } => push_value(out, b"at ", time.milliseconds()),
        Step::Message { over, layer, text } => push_message(out, *over, *layer, text.as_slice()),
    }
}

// Appends a mark with this text, without a line feed: a line of a recorder's script, or the call of
// a seat.
pub(crate) fn push_mark(out: &mut Vec<u8>, text: &[u8]) -> Result<(), AllocError>
    ensures { OnOk result (out.new.items ≡ out.old.items ++ (codes "mark " ++ text.now)) }
{
    out.extend_from_slice(b"mark ")?;
    out.extend_from_slice(text)
}

// Appends the line of a message, without its line feed.
fn push_message(
    out: &mut Vec<u8>,
    over: DiskName,
    layer: u64,
    text: &[u8],
) -> Result<(), AllocError>
    ensures { OnOk result (out.new.items
        ≡ out.old.items ++ fields_text (step_fields (Step.Message over layer text.now))) }
{
    match over {
        DiskName::Data => push_valued(out, b"message data ", layer, text),
        DiskName::Log => push_valued(out, b"message log ", layer, text),
    }
}

// Appends `verb`, a number, a space and a text. `verb` ends with a space if one is wanted.
fn push_valued(out: &mut Vec<u8>, verb: &[u8], number: u64, text: &[u8]) -> Result<(), AllocError>
    ensures { OnOk result (out.new.items
        ≡ out.old.items ++ (verb.now ++ (decimal number ++ 32 ∷ text.now))) }
{
    push_value(out, verb, number)?;
    out.push(b' ')?;
    out.extend_from_slice(text)
}
