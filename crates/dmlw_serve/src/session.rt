//! The session of a client, from the files that it begins with to the log that it leaves.
ghost use Rattle.std.specs.Prelude.{◌≡◌, ◌≢◌, ◌⊎◌, ◌/◌, ℕ, List, Option, Err, Some, IfErr, IfOk, OnErr, OnOk, length, true};
ghost use Rattle.refusals.specs.declared.refusal.Refusal.TheVariants as refusals;
ghost use Rattle.refusals.specs.declared.run_error.RunError.TheVariants.{Refused};
ghost use Rattle.refusals.specs.Errors.{IsFileError, memory_error, refused_by};
ghost use Rattle.layer_table.specs.Layers.{disk_of};
ghost use Rattle.dmlw_files.specs.Files.{IsImage, KeepsFiles, MatchesContents, image_of, with_write};
ghost use Rattle.dmlw_script.specs.Grammar.{IsLineOf, IsTextOf};
ghost use Rattle.dmlw_script.specs.Plans.{IsDisk, ScriptValue};
ghost use Rattle.dmlw_script.specs.Words.{lines_of};
ghost use Rattle.dmlw_serve.specs.declared.session.ServedSession.{ServedSession};
ghost use Rattle.dmlw_serve.specs.Serves.{Begun, EndsInWrite, FailsServing, FailsStart, IsStackWithImage};
ghost use Rattle.dmlw_serve.specs.Serves.{IsOnlyHead, LeavesImage, Reports};

use crate::counts::Counts;
use bio::{SECTOR_BYTES, Status};
use blockdev::BlockDev;
use dmlw_files::{Files, read_image, read_text};
use dmlw_script::laws::lines_are_those_of_commands;
use dmlw_script::{DiskSpec, Script, line_of, read_script};
use layer_table::Stack;
use nbd::{Host, Server, SessionEnd};
use recorder::laws::{
    closed_logs_are_whole, crashed_logs_replay_to_what_could_be, recorders_are_sound,
};
use refusals::{Fault, Refusal, RunError};
use script_runner::{Lies, new_recorder, new_stack, stack_over};
use sector_disk::{Image, SectorDisk};
use std::alloc::Global;
use std::io;
use std::io::{Read, Write};

/// The files of a session.
#[derive(Clone, Copy, Debug)]
pub struct ServeNames<'a> {
    /// A script of `record` that has only its head: the disks and their layers.
    pub head: &'a str,
    /// The first content of the data disk.
    pub first: &'a str,
    /// The log to write.
    pub log: &'a str,
}

/// What a session leaves besides its log.
#[derive(Clone, Copy, Debug)]
pub struct ServedSession {
    /// The log's status.
    pub status: Status,
    /// The lies of the layers.
    pub lies: Lies,
    /// How the session ended, or why recording couldn't be closed.
    pub end: Result<nbd::Served, Refusal>,
}

/// Serves one client, and writes the log of its requests. The client's bytes come from `input`, and
/// its answers go to `output`. The log is written however the session ends.
///
/// A head that isn't one, or a first content that isn't as large as the data disk, is refused
/// before anything is sent. If a session is refused, or its log can't be written, no file changes.
pub fn serve<F: Files, I: Read, O: Write, H: Host>(
    alloc: Global,
    names: ServeNames,
    files: &mut F,
    input: &mut I,
    output: &mut O,
    host: &mut H,
) -> Result<ServedSession, RunError>
    ensures served { IfOk result (λ served. (text first image : List ℕ)
        × MatchesContents (F.contents files.old names.entry.head.now) text
        × MatchesContents (F.contents files.old names.entry.first.now) first
        × LeavesImage text first served image (I.remaining input.old) (I.remaining input.new)
        (O.contents output.old) (O.contents output.new)
        × MatchesContents (F.contents files.new names.entry.log.now) image
        × (F.writes files.new ≡ with_write (F.writes files.old) names.entry.log.now image)) }
    // A failure is before the session, and then the client is neither read nor answered, and no
    // write is asked for. Or the session ended, and the log's write failed.
    ensures faults { IfErr result (λ fault.
        (FailsServing (F.contents files.old names.entry.head.now)
        (F.contents files.old names.entry.first.now) (F.contents files.old names.entry.log.now) fault
        × (input.new ≡ input.old) × (output.new ≡ output.old)
        × (F.writes files.new ≡ F.writes files.old))
        ⊎ (IsFileError fault × ((served : ServedSession)
        × EndsInWrite (F.contents files.old names.entry.head.now)
        (F.contents files.old names.entry.first.now) names.entry.log.now (F.writes files.old)
        (F.writes files.new) served (I.remaining input.old) (I.remaining input.new)
        (O.contents output.old) (O.contents output.new)))) }
    ensures kept { OnErr result (KeepsFiles (F.contents files.old) (F.contents files.new)) }
    // If the log has the name of a file that is read, the session is refused as a file.
    ensures same_head { names.entry.head.now ≡ names.entry.log.now → result ≡ Err (refused_by refusals.File) }
    ensures same_first { names.entry.first.now ≡ names.entry.log.now → result ≡ Err (refused_by refusals.File) }
{
    let mut server = begin(alloc, names, files)?;
    let end = nbd::serve(&mut server, input, output, host);
    // For the prover: what always holds for a recorder's core, what a content that a crash may leave
    // replays to, and that closed logs are whole.
    recorders_are_sound(server.recorder());
    crashed_logs_replay_to_what_could_be::<Stack>();
    closed_logs_are_whole::<Stack>();
    finish(alloc, names.log, files, server, end)
}

// Makes the server of a session from its files.
fn begin<F: Files>(
    alloc: Global,
    names: ServeNames,
    files: &mut F,
) -> Result<Server<Stack, Stack>, RunError>
    ensures begun { IfOk result (λ server. (text first : List ℕ)
        × MatchesContents (F.contents files.old names.entry.head.now) text
        × MatchesContents (F.contents files.old names.entry.first.now) first
        × ((script : ScriptValue) × IsTextOf text script × IsOnlyHead script
        × Begun script first server)) }
    ensures faults { IfErr result (FailsServing (F.contents files.old names.entry.head.now)
        (F.contents files.old names.entry.first.now) (F.contents files.old names.entry.log.now)) }
    ensures kept { KeepsFiles (F.contents files.old) (F.contents files.new) }
    ensures unwritten { F.writes files.new ≡ F.writes files.old }
    ensures same_head { names.entry.head.now ≡ names.entry.log.now → result ≡ Err (refused_by refusals.File) }
    ensures same_first { names.entry.first.now ≡ names.entry.log.now → result ≡ Err (refused_by refusals.File) }
{
    if is_read(files, names) {
        return Err(RunError::from(Refusal::File));
    }
    let script = read_head(alloc, names.head, files)?;
    let first = read_image(alloc, names.first, files)?;
    start(alloc, &script, first)
}

// Reads the head of a session from the file `name`.
fn read_head<F: Files>(alloc: Global, name: &str, files: &mut F) -> Result<Script, RunError>
    ensures read { IfOk result (λ script. (text : List ℕ)
        × MatchesContents (F.contents files.old name.now) text × IsTextOf text script
        × IsOnlyHead script) }
    ensures faults { (first log : Option (List ℕ))
        → IfErr result (FailsServing (F.contents files.old name.now) first log) }
    ensures kept { KeepsFiles (F.contents files.old) (F.contents files.new) }
    ensures unwritten { F.writes files.new ≡ F.writes files.old }
{
    let text = read_text(alloc, name, files)?;
    let script = read_script(alloc, &text)?;
    check_head(&text, &script)?;
    Ok(script)
}

// Returns whether the log has the name of a file that is read.
fn is_read<F: Files>(files: &F, names: ServeNames) -> bool
    ensures head { names.entry.head.now ≡ names.entry.log.now → result ≡ true }
    ensures first { names.entry.first.now ≡ names.entry.log.now → result ≡ true }
    ensures held { result ≡ true
        → (F.contents files.now names.entry.head.now ≡ F.contents files.now names.entry.log.now)
        ⊎ (F.contents files.now names.entry.first.now ≡ F.contents files.now names.entry.log.now) }
{
    files.is_same(names.head, names.log) || files.is_same(names.first, names.log)
}

// Refuses a script that has more than a head, as a bad line at the first line after it.
fn check_head(text: &[u8], script: &Script) -> Result<(), RunError>
    requires { IsTextOf text.now script.now }
    ensures head { OnOk result (IsOnlyHead script.now) }
    ensures longer { IfErr result (λ fault. (line : ℕ)
        × (fault ≡ Refused (record { line = Some line; refusal = refusals.BadLine }))
        × IsLineOf (lines_of text.now) script.now 0 line) }
{
    // For the prover: the line of each command of a script, and of its crash, is found.
    lines_are_those_of_commands();
    if script.commands().is_empty() && script.crash().is_none() {
        return Ok(());
    }
    Err(RunError::Refused(Fault {
        line: line_of(text, script.head_lines()),
        refusal: Refusal::BadLine,
    }))
}

// Makes the server of a session from a script's head and the first content of its data disk.
fn start(alloc: Global, script: &Script, first: Image) -> Result<Server<Stack, Stack>, RunError>
    requires { IsImage first }
    ensures begun { IfOk result (Begun script.now first) }
    ensures faults { IfErr result (FailsStart script.now first) }
{
    let data = filled_stack(alloc, script.data(), first)?;
    let log = new_stack(alloc, script.log())?;
    let size = script.log_size();
    let recorder = new_recorder(alloc, log, size)?;
    Ok(Server::new(alloc, recorder, data, size))
}

// Returns a disk that holds `image`, under the layers that `disk` names. Refused as a file if the
// image isn't as large as the disk.
fn filled_stack(alloc: Global, disk: &DiskSpec, image: Image) -> Result<Stack, RunError>
    requires disk { IsDisk disk.now }
    requires image { IsImage image }
    ensures filled { IfOk result (IsStackWithImage disk.now image) }
    ensures faults { IfErr result (λ fault. (fault ≡ memory_error)
        ⊎ ((length image / 512 ≢ disk.now.sectors) × (fault ≡ refused_by refusals.File))) }
    ensures size { length image / 512 ≢ disk.now.sectors → result ≡ Err (refused_by refusals.File) }
    ensures memory { IfErr result (λ fault. length image / 512 ≡ disk.now.sectors
        → fault ≡ memory_error) }
{
    if image.len() as u64 / SECTOR_BYTES != disk.sectors() {
        return Err(RunError::from(Refusal::File));
    }
    let bare = SectorDisk::from_image(alloc, image)?;
    Ok(stack_over(alloc, bare, disk))
}

// Writes the log of a session, and returns what else the session leaves.
fn finish<F: Files>(
    alloc: Global,
    name: &str,
    files: &mut F,
    server: Server<Stack, Stack>,
    end: Result<nbd::Served, Refusal>,
) -> Result<ServedSession, RunError>
    ensures reports { IfOk result (Reports server end) }
    ensures written { OnOk result (MatchesContents (F.contents files.new name.now)
        (image_of (disk_of server.recorder.store.device))) }
    ensures faults { IfErr result IsFileError }
    ensures unreported { IfErr result (λ fault. (served : ServedSession)
        × Reports server end served) }
    ensures asks { F.writes files.new ≡ with_write (F.writes files.old) name.now
        (image_of (disk_of server.recorder.store.device)) }
    ensures kept { OnErr result (KeepsFiles (F.contents files.old) (F.contents files.new)) }
{
    let (recorder, data) = server.into_parts();
    let status = recorder.status();
    let log = recorder.into_device();
    let lies = Lies {
        data_disk: data.lies(),
        log_disk: log.lies(),
    };
    files.write(alloc, name, log.into_disk())?;
    Ok(ServedSession { status, lies, end })
}

/// Prints how many requests of each kind a client made, and how its session ended if it didn't
/// disconnect.
pub fn print_session<W: Write>(
    counts: Counts,
    end: Result<nbd::Served, Refusal>,
    to: &mut W,
) -> io::Result<()> {
    writeln!(to, "{counts}")?;
    match end {
        Ok(nbd::Served::Disconnected) => {}
        Ok(nbd::Served::Left) => writeln!(to, "dmlw: the client left at the handshake")?,
        Ok(nbd::Served::BrokeOff(why)) => {
            let why = reason(why);
            writeln!(to, "dmlw: the session broke off: {why}")?;
        }
        Err(refusal) => writeln!(to, "dmlw: recording wasn't closed: {refusal}")?,
    }
    to.flush()
}

// Returns why a session broke off, in words.
fn reason(end: SessionEnd) -> &'static str {
    match end {
        SessionEnd::InputEnded => "the client's bytes ended",
        SessionEnd::BadRequest => "the client sent what isn't of the protocol",
        SessionEnd::InputFailed => "the client's bytes can't be read",
        SessionEnd::OutputFailed => "the client can't be answered",
        SessionEnd::ReadFailed => "the data disk failed within a read's answer",
        SessionEnd::NoMemory => "there is no memory for what the client asks",
        SessionEnd::TooLong => "it is too long",
    }
}
