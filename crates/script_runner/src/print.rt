//! Prints the results of lines.
ghost use Rattle.std.specs.Prelude.{◌≡◌, ◌*◌, ◌<◌, IfErr, IfSome, OnOk, length, option_map};
ghost use Rattle.std.specs.List.{AllByRecursion};
ghost use Rattle.std.specs.Io.KnownBytes.{Appends};
ghost use Rattle.dmlw_script.specs.Plans.{IsName, name_at};
ghost use Rattle.dmlw_script.specs.Words.{hex_digit};
ghost use Rattle.script_runner.specs.Lines.{StopsForFile, printed_bytes, outcome_line, outcome_word};
ghost use Rattle.script_runner.specs.Lines.{read_line, submission_text};
ghost use Rattle.script_runner.specs.inside.{mark_printed};

use crate::request::Request;
use crate::step_error::StepError;
use bio::SECTOR_BYTES;
use dmlw_script::ScriptId;
use recorder::Reply;
use std::io::Write;

// The size of a sector in bytes.
const SECTOR: usize = SECTOR_BYTES as usize;

// Prints that a request failed, if memory ran out at its submission.
pub(crate) fn print_submission<O: Write>(
    name: &ScriptId,
    request: &Request,
    out: &mut O,
) -> Result<(), StepError>
    requires { IsName name.now }
    ensures output { OnOk result
        (Appends (O.contents out.old) (O.contents out.new) (submission_text name.now request.now)) }
    ensures faults { IfErr result StopsForFile }
{
    match request {
        Request::Asked { .. } => Ok(()),
        Request::NotAsked => print_outcome(name, false, out),
    }
}

// Prints whether a request succeeded.
pub(crate) fn print_outcome<O: Write>(
    name: &ScriptId,
    ok: bool,
    out: &mut O,
) -> Result<(), StepError>
    requires { IsName name.now }
    ensures output { OnOk result
        (Appends (O.contents out.old) (O.contents out.new) (outcome_line name.now ok)) }
    ensures faults { IfErr result StopsForFile }
{
    let word = outcome_word(ok);
    Ok(writeln!(out, "{name} {word}")?)
}

// Prints that a mark failed, if the recorder refused it because memory ran out.
pub(crate) fn print_mark<O: Write>(reply: Reply, out: &mut O) -> Result<(), StepError>
    ensures output { OnOk result
        (Appends (O.contents out.old) (O.contents out.new) (mark_printed reply)) }
    ensures faults { IfErr result StopsForFile }
{
    match reply {
        Reply::Refused(_) => Ok(writeln!(out, "mark failed")?),
        _ => Ok(()),
    }
}

// Prints the line of a read: the first byte of each sector, or that the read failed.
pub(crate) fn print_read<O: Write>(
    first: u64,
    count: u64,
    bytes: &Option<Vec<u8>>,
    out: &mut O,
) -> Result<(), StepError>
    requires { IfSome bytes.now (λ read. length read.items ≡ count * 512) }
    ensures output { OnOk result
        (Appends (O.contents out.old) (O.contents out.new)
        (read_line first count (option_map (λ read. read.items) bytes.now))) }
    ensures faults { IfErr result StopsForFile }
{
    match bytes {
        Some(read) => {
            write!(out, "read {first}+{count} ok ")?;
            print_first_bytes(count, read.as_slice(), out)?;
            Ok(writeln!(out)?)
        }
        None => Ok(writeln!(out, "read {first}+{count} failed")?),
    }
}

// Prints the first byte of each of `count` sectors.
fn print_first_bytes<O: Write>(count: u64, bytes: &[u8], out: &mut O) -> Result<(), StepError>
    requires { length bytes.now ≡ count * 512 }
    ensures output { OnOk result
        (Appends (O.contents out.old) (O.contents out.new) (printed_bytes count bytes.now)) }
    ensures faults { IfErr result StopsForFile }
{
    for sector in 0..count {
        let byte = bytes[sector as usize * SECTOR];
        let digits = [hex_digit(byte / 16), hex_digit(byte % 16)];
        out.write_all(&digits)?;
    }
    Ok(())
}

// Returns the lower-case hexadecimal digit of a number below 16.
fn hex_digit(half: u8) -> u8
    requires { half < 16 }
    ensures { result ≡ hex_digit half }
{
    if half < 10 {
        b'0' + half
    } else {
        b'a' + (half - 10)
    }
}

// Returns the word that says whether a request succeeded.
fn outcome_word(ok: bool) -> &'static str
    ensures { result.now ≡ outcome_word ok }
{
    if ok { "ok" } else { "failed" }
}

// Returns the name of the request at index `request`.
pub(crate) fn name_of(names: &[ScriptId], request: usize) -> &ScriptId
    requires named { request < length names.now }
    requires ids { AllByRecursion IsName names.now }
    ensures name { result.now ≡ name_at names.now request }
    ensures id { IsName result.now }
{
    &names[request]
}
