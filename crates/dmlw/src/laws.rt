//! Laws of command lines: each is a function that does nothing, and its contract is the law.
ghost use Rattle.std.specs.Prelude.{◌≡◌, ◌∷◌, [], List, Some, false, true, ℕ};
ghost use Rattle.dmlw.specs.CommandLine.{DoesWords, command_words, is_positional};
ghost use Rattle.dmlw.specs.Commands.{EndsReplayingUpTo, IsSectorCount, name_of, name_text};
ghost use Rattle.dmlw.specs.declared.program.Name.{Name};
ghost use Rattle.dmlw.specs.declared.program.Name.TheVariants as names;
ghost use Rattle.dmlw_commands.specs.declared.ending.Ended.{Ended};
ghost use Rattle.dmlw_commands.specs.Ends.{EndsAsCommand, exit_after, exit_by};
ghost use Rattle.dmlw_commands.specs.Judgements.{AnswersOf, exit_answered, finding_meaning};
ghost use Rattle.dmlw_commands.specs.Judgements.{verdict_meaning};
ghost use Rattle.dmlw_commands.specs.Lists.{ListsImage, ShowsLog, ShowsStatus};
ghost use Rattle.dmlw_commands.specs.LogCopies.{Copies};
ghost use Rattle.dmlw_commands.specs.Records.{RecordsScript, of_recorder, of_seats};
ghost use Rattle.dmlw_commands.specs.Seen.{Seen};
ghost use Rattle.dmlw_commands.specs.Replays.{IsWhat};
ghost use Rattle.replay.specs.declared.replaying.Upto.{Upto};
ghost use Rattle.refusals.specs.Words.{IsNumber};

/// A word names a command if and only if it is the command's name.
#[tactic(auto, using(crate::proofs::PlainWords::named, crate::proofs::PlainWords::named_again))]
pub fn names_are_distinct()
    ensures named { (word : List ℕ) (name : Name) → name_of word ≡ Some name
        → word ≡ name_text name }
    ensures again { (name : Name) → name_of (name_text name) ≡ Some name }
{}

/// In these laws, the words for files don't begin with a hyphen.
///
/// `record SCRIPT LOG` records the script in the file SCRIPT. If it is done, the file LOG holds the
/// script's log.
pub fn plain_words_record()
    ensures { (old new : Seen) (ended : Ended) (program script log : List ℕ)
        → is_positional script ≡ true
        → is_positional log ≡ true
        → DoesWords (command_words program names.Record (script ∷ log ∷ [])) old new ended
        → EndsAsCommand (RecordsScript of_recorder script log) exit_after false old new ended }
{}

/// `run SCRIPT LOG` runs the seats of the script in the file SCRIPT. If it is done, the file LOG
/// holds the run's log.
pub fn plain_words_run()
    ensures { (old new : Seen) (ended : Ended) (program script log : List ℕ)
        → is_positional script ≡ true
        → is_positional log ≡ true
        → DoesWords (command_words program names.Run (script ∷ log ∷ [])) old new ended
        → EndsAsCommand (RecordsScript of_seats script log) exit_after false old new ended }
{}

/// `list LOG` prints the list of the log in the file LOG.
pub fn plain_words_list()
    ensures { (old new : Seen) (ended : Ended) (program log : List ℕ)
        → is_positional log ≡ true
        → DoesWords (command_words program names.List (log ∷ [])) old new ended
        → EndsAsCommand (ShowsLog ListsImage log) exit_by false old new ended }
{}

/// `status LOG` prints the status of the log in the file LOG.
pub fn plain_words_status()
    ensures { (old new : Seen) (ended : Ended) (program log : List ℕ)
        → is_positional log ≡ true
        → DoesWords (command_words program names.Status (log ∷ [])) old new ended
        → EndsAsCommand (ShowsLog ShowsStatus log) exit_by false old new ended }
{}

/// `replay LOG FIRST OUT WHAT` replays the log in the file LOG on the image in the file FIRST. WHAT
/// names the last entry to replay. If it is done, the file OUT holds the resulting image.
pub fn plain_words_replay()
    ensures { (old new : Seen) (ended : Ended) (program log first out what : List ℕ) (upto : Upto)
        → is_positional log ≡ true
        → is_positional first ≡ true
        → is_positional out ≡ true
        → IsWhat what upto
        → DoesWords (command_words program names.Replay (log ∷ first ∷ out ∷ what ∷ [])) old new ended
        → EndsReplayingUpTo what log first out false old new ended }
{}

/// `copy LOG OUT SECTORS` copies the log in the file LOG to a new log with sectors of 4,096 bytes.
/// The new log's disk has SECTORS sectors of 512 bytes. If it is done, the file OUT holds this
/// disk's image.
pub fn plain_words_copy()
    ensures { (old new : Seen) (ended : Ended) (program log out word : List ℕ) (sectors : ℕ)
        → is_positional log ≡ true
        → is_positional out ≡ true
        → IsSectorCount word sectors
        → DoesWords (command_words program names.Copy (log ∷ out ∷ word ∷ [])) old new ended
        → EndsAsCommand (Copies log out sectors) exit_by false old new ended }
{}

/// `judge SCRIPT M IMAGE` prints whether a power failure after M events could leave the image on
/// the data disk. SCRIPT and IMAGE are the files of the script and the image.
pub fn plain_words_judge()
    ensures { (old new : Seen) (ended : Ended) (program script m image : List ℕ) (moment : ℕ)
        → is_positional script ≡ true → IsNumber m moment
        → is_positional image ≡ true
        → DoesWords (command_words program names.Judge (script ∷ m ∷ image ∷ [])) old new ended
        → EndsAsCommand (AnswersOf verdict_meaning script moment image)
        (exit_answered verdict_meaning) false old new ended }
{}

/// `path SCRIPT M IMAGE` prints how a power failure after M events could leave the image on the
/// data disk. SCRIPT and IMAGE are the files of the script and the image.
pub fn plain_words_path()
    ensures { (old new : Seen) (ended : Ended) (program script m image : List ℕ) (moment : ℕ)
        → is_positional script ≡ true → IsNumber m moment
        → is_positional image ≡ true
        → DoesWords (command_words program names.Path (script ∷ m ∷ image ∷ [])) old new ended
        → EndsAsCommand (AnswersOf finding_meaning script moment image)
        (exit_answered finding_meaning) false old new ended }
{}
