//! Prints the words of a submission: its first word, its sectors, and the byte and options of a
//! write.
ghost use Rattle.std.specs.Prelude.{◌≡◌, ◌<◌, ◌++◌, OnOk};
ghost use Rattle.dmlw_script.specs.Fields.{option_fields, option_text, submission_fields};
ghost use Rattle.dmlw_script.specs.Fields.{submission_word, text_after};
ghost use Rattle.dmlw_script.specs.Words.{byte_text, hex_digit as the_hex_digit};

use crate::command::{Submission, WriteOptions};
use crate::parts::push_sectors;
use std::alloc::AllocError;

// Appends the first word of a submission's line.
pub(crate) fn push_word(out: &mut Vec<u8>, submission: Submission) -> Result<(), AllocError>
    ensures { OnOk result (out.new.items ≡ out.old.items ++ submission_word submission) }
{
    match submission {
        Submission::Write { .. } => out.extend_from_slice(b"w"),
        Submission::Flush => out.extend_from_slice(b"f"),
        Submission::Discard { .. } => out.extend_from_slice(b"d"),
    }
}

// Appends the words of a submission that follow its first word and its id, each after a space. They
// are the sectors, and the byte and options of a write.
pub(crate) fn push_submission(out: &mut Vec<u8>, submission: Submission) -> Result<(), AllocError>
    ensures { OnOk result (out.new.items
        ≡ out.old.items ++ text_after (submission_fields submission)) }
{
    match submission {
        Submission::Write {
            first,
            count,
            byte,
            options,
        } => {
            push_sectors(out, b" ", first, count)?;
            out.push(b' ')?;
            push_byte(out, byte)?;
            push_options(out, options)
        }
        Submission::Flush => Ok(()),
        Submission::Discard { first, count } => push_sectors(out, b" ", first, count),
    }
}

// Appends the options that a write has, each after a space.
fn push_options(out: &mut Vec<u8>, options: WriteOptions) -> Result<(), AllocError>
    ensures { OnOk result (out.new.items ≡ out.old.items ++ text_after (option_fields options)) }
{
    push_option(out, options.flush, b" flush")?;
    push_option(out, options.fua, b" fua")?;
    push_option(out, options.meta, b" meta")
}

// Appends `text`, which begins with a space, if the option is given.
fn push_option(out: &mut Vec<u8>, given: bool, text: &[u8]) -> Result<(), AllocError>
    ensures { OnOk result (out.new.items ≡ out.old.items ++ option_text given text.now) }
{
    if given {
        out.extend_from_slice(text)
    } else {
        Ok(())
    }
}

// Appends a byte as two lower case hexadecimal digits.
fn push_byte(out: &mut Vec<u8>, byte: u8) -> Result<(), AllocError>
    ensures { OnOk result (out.new.items ≡ out.old.items ++ byte_text byte) }
{
    out.push(hex_digit(byte / 16))?;
    out.push(hex_digit(byte % 16))?;
    Ok(())
}

// Returns the lower case hexadecimal digit of a value below 16.
fn hex_digit(half: u8) -> u8
    requires { half < 16 }
    ensures { result ≡ the_hex_digit half }
{
    if half < 10 {
        b'0' + half
    } else {
        b'a' + (half - 10)
    }
}
