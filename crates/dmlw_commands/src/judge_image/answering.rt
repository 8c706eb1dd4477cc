//! What `judge` and `path` share: they answer a question about an image, by the script in a file.
ghost use Rattle.std.specs.Prelude.{◌≡◌, ◌⊎◌, ◌++◌, IfErr, IfOk, IsOk, [], false, length, take};
ghost use Rattle.std.specs.Prelude.{true};
ghost use Rattle.std.specs.String.{string_bytes};
ghost use Rattle.std.specs.Io.KnownBytes.{Appends, Keeps};
ghost use Rattle.bio.specs.Events.{is_lawful};
ghost use Rattle.bio.specs.Content.{sector_of};
ghost use Rattle.refusals.specs.declared.refusal.Refusal.TheVariants.{BadMoment};
ghost use Rattle.dmlw_script.specs.Grammar.{IsTextOf};
ghost use Rattle.refusals.specs.Errors.{IsFileError, memory_error, refused_by};
ghost use Rattle.dmlw_commands.specs.Ends.{EndsAsCommand, reported_line};
ghost use Rattle.dmlw_commands.specs.Seen.{seen};
ghost use Rattle.dmlw_files.specs.Files.{FileHoldsImage, IsImage, KeepsFiles, MatchesContents};
ghost use Rattle.dmlw_commands.specs.Judgements.{ReturnsAnswer, AnswersOf, CanJudge, CannotJudge};
ghost use Rattle.dmlw_commands.specs.Judgements.{HasAnswer, HasNoVerdict, blank, exit_answered};
ghost use Rattle.dmlw_commands.specs.Judgements.{question, question_of};

use crate::explain::explain_judging;
use crate::judge_image::answer::Answer;
use crate::judge_image::moments::{explain_moment, last_moment};
use crate::{Ended, end, end_well};
use bio::{CoreEvent, SECTOR_BYTES};
use dmlw_files::{Files, Session, read_image, read_text};
use dmlw_script::{Script, read_script};
use refusals::{Refusal, RunError};
use script_runner::events_of_run;
use std::alloc::Global;
use std::io::Write;

/// A question about the image in the file `image`, after the first `moment` events of the script in
/// the file `script`.
#[derive(Clone, Copy, Debug)]
pub(crate) struct AskedImage<'a> {
    pub(crate) script: &'a str,
    pub(crate) moment: u64,
    pub(crate) image: &'a str,
}

// Runs the script in the file `asked.script` as `record` does, on a data disk of zeroes. Prints the
// answer about the image in the file `asked.image`, after the first `asked.moment` of the
// recorder's events. A fault is reported to `err`, with advice if the session `explains`.
pub(crate) fn ask<A: Answer, F: Files, O: Write, E: Write>(
    asked: AskedImage<'_>,
    session: &mut Session<F, O, E>,
) -> Ended
    ensures ends { EndsAsCommand (AnswersOf A.meaning asked.entry.script.now asked.entry.moment
        asked.entry.image.now) (exit_answered A.meaning) session.old.explains
        (seen (F.contents session.old.files) (F.writes session.old.files)
        (O.contents session.old.out) (E.contents session.old.err))
        (seen (F.contents session.new.files) (F.writes session.new.files)
        (O.contents session.new.out) (E.contents session.new.err)) result }
{
    let alloc = session.alloc;
    let answered: Result<A, RunError> = answer_files(
        alloc,
        asked,
        &mut session.files,
        &mut session.out,
    );
    let more = explain_answered(
        alloc,
        session.explains,
        &answered,
        asked,
        &mut session.files,
    );
    end_answering(
        alloc,
        &answered,
        more.as_str(),
        &mut session.out,
        &mut session.err,
    )
}

// Returns what `--explain` adds: lines for the answer, or advice for the fault.
fn explain_answered<A: Answer, F: Files>(
    alloc: Global,
    explains: bool,
    answered: &Result<A, RunError>,
    asked: AskedImage<'_>,
    files: &mut F,
) -> String
    ensures silent { explains ≡ false → string_bytes result ≡ [] }
    ensures kept { KeepsFiles (F.contents files.old) (F.contents files.new) }
    ensures unwritten { F.writes files.new ≡ F.writes files.old }
{
    match answered {
        Ok(answer) => answer.explain(alloc, explains, asked.script, files),
        Err(fault) if *fault == RunError::from(Refusal::BadMoment) => {
            explain_moment(alloc, explains, asked, files)
        }
        Err(fault) => explain_judging(
            alloc,
            explains,
            Err(*fault),
            asked.script,
            asked.image,
            files,
        ),
    }
}

// Ends a command with the result `answered`: by the answer's exit, or with the fault's line.
fn end_answering<A: Answer, O: Write, E: Write>(
    alloc: Global,
    answered: &Result<A, RunError>,
    more: &str,
    out: &mut O,
    err: &mut E,
) -> Ended
    ensures exit { result.exit ≡ exit_answered A.meaning answered.now }
    ensures kept { Keeps (O.contents out.old) (O.contents out.new) }
    ensures quiet { reported_line answered.now ≡ [] → more.now ≡ []
        → E.contents err.new ≡ E.contents err.old }
    ensures told { result.err_taken ≡ true
        → Appends (E.contents err.old) (E.contents err.new)
        (reported_line answered.now ++ more.now) }
{
    match answered {
        Ok(answer) => end_well(answer.exit(), more, err),
        Err(fault) => end::<(), O, E>(alloc, Err(*fault), more, out, err),
    }
}

// Reads both files, and prints the answer about the image.
fn answer_files<A: Answer, F: Files, O: Write>(
    alloc: Global,
    asked: AskedImage<'_>,
    files: &mut F,
    out: &mut O,
) -> Result<A, RunError>
    ensures judged { ReturnsAnswer A.meaning
        (question_of (F.contents files.old) asked.entry.script.now asked.entry.moment
        asked.entry.image.now)
        (O.contents out.old) (O.contents out.new) result }
    ensures kept { KeepsFiles (F.contents files.old) (F.contents files.new) }
    ensures unwritten { F.writes files.new ≡ F.writes files.old }
{
    let text = read_text(alloc, asked.script, files)?;
    let image = read_bytes(alloc, asked.image, files)?;
    print_answer(answer_text(alloc, &text, asked.moment, &image), out)
}

// Reads the image in a file into one vector.
fn read_bytes<F: Files>(alloc: Global, name: &str, files: &mut F) -> Result<Vec<u8>, RunError>
    ensures contents { IfOk result
        (λ image. MatchesContents (F.contents files.old name.now) image.items) }
    ensures whole { IfOk result (λ image. IsImage image.items) }
    ensures fault { IfErr result IsFileError }
    ensures readable { FileHoldsImage (F.contents files.old name.now)
        → IfErr result (λ fault. fault ≡ memory_error) }
    ensures kept { KeepsFiles (F.contents files.old) (F.contents files.new) }
    ensures unwritten { F.writes files.new ≡ F.writes files.old }
{
    let image = read_image(alloc, name, files)?;
    Ok(image.into_vec(alloc)?)
}

// Prints the answer if there is one, otherwise returns the fault.
fn print_answer<A: Answer, O: Write>(
    answered: Result<A, RunError>,
    out: &mut O,
) -> Result<A, RunError>
    ensures printed { IfOk result
        (λ answer. (answered ≡ Ok answer)
        × Appends (O.contents out.old) (O.contents out.new) (A.meaning.printed answer)) }
    ensures faults { IfErr result
        (λ fault. (IsFileError fault × IsOk answered)
        ⊎ ((answered ≡ Err fault) × Keeps (O.contents out.old) (O.contents out.new))) }
{
    let answer = answered?;
    answer.print(out)?;
    out.flush()?;
    Ok(answer)
}

// Finds the answer about `image`, if `text` is a script.
fn answer_text<A: Answer>(
    alloc: Global,
    text: &[u8],
    moment: u64,
    image: &[u8],
) -> Result<A, RunError>
    requires { IsImage image.now }
    ensures verdict { IfOk result (HasAnswer A.meaning (question text.now image.now moment)) }
    ensures faults { IfErr result (HasNoVerdict (question text.now image.now moment)) }
{
    let script = read_script(alloc, text)?;
    answer_script(alloc, text, &script, moment, image)
}

// Finds the answer about `image`, given the script and its text.
fn answer_script<A: Answer>(
    alloc: Global,
    text: &[u8],
    script: &Script,
    moment: u64,
    image: &[u8],
) -> Result<A, RunError>
    requires whole { IsImage image.now }
    requires spelled { IsTextOf text.now script.now }
    ensures verdict { IfOk result (HasAnswer A.meaning (question text.now image.now moment)) }
    ensures faults { IfErr result (HasNoVerdict (question text.now image.now moment)) }
{
    let sectors = script.data().top_sectors();
    let rehearsed = events_of_run(alloc, text, script)?;
    let answered = answer_events(alloc, rehearsed.events(), sectors, moment, image);
    answered_by((rehearsed, answered))
}

// Returns the answer, and drops the rehearsal.
fn answered_by<D: Drop, A: Answer>(answered: (D, Result<A, RunError>)) -> Result<A, RunError>
    ensures { result ≡ answered.1 }
{
    answered.1
}

// Finds the answer about `image`, after the first `moment` events of a device that held zeroes at
// first. It is refused if the moment is past the last one, or if the image hasn't the device's
// size.
fn answer_events<A: Answer>(
    alloc: Global,
    events: &[CoreEvent],
    sectors: u64,
    moment: u64,
    image: &[u8],
) -> Result<A, RunError>
    requires lawful { is_lawful sectors events.now ≡ true }
    requires whole { IsImage image.now }
    ensures verdict { IfOk result (λ answer. CanJudge sectors events.now moment image.now
        × A.meaning.says sectors (take moment events.now) (blank (length image.now))
        (sector_of image.now) answer) }
    ensures faults { IfErr result (λ fault. (fault ≡ memory_error)
        ⊎ ((fault ≡ refused_by BadMoment) × CannotJudge sectors events.now moment image.now)) }
{
    if moment > last_moment(events) as u64 || image.len() as u64 / SECTOR_BYTES != sectors {
        return Err(RunError::from(Refusal::BadMoment));
    }
    let answer = A::on_image(alloc, events, moment, image)?;
    Ok(answer)
}
