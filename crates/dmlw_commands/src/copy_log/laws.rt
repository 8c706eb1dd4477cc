// The law that a copy replays like its log: a function that does nothing, and its contract is the
// law.
ghost use Rattle.std.specs.Prelude.{◌≡◌, List, None, Option, length, take, ℕ};
ghost use Rattle.bio.specs.Content.{Content};
ghost use Rattle.log_format.specs.declared.decode.Super.{Super};
ghost use Rattle.log_format.specs.declared.entry.Entry.{Entry};
ghost use Rattle.log_format.specs.Replay.{replay};
ghost use Rattle.log_reader.specs.declared.fault.LogFault.{LogFault};
ghost use Rattle.log_reader.specs.DiskLog.{IsReading};
ghost use Rattle.dmlw_commands.specs.LogCopies.{IsCopied};

/// The log in a copy's image has no fault and as many entries as the log that was copied. For each
/// n, the first n entries of both logs replay to the same content.
pub fn copies_replay_alike()
    ensures whole { (log image : List ℕ) (count sectors : ℕ) (new : Super) (copies : List Entry)
        (fault : Option LogFault) →
        IsCopied log count sectors image → IsReading image new copies fault →
        (fault ≡ None) × (length copies ≡ count) × (new.sectorsize ≡ 4096) }
    ensures alike { (log image : List ℕ) (count sectors n : ℕ) (head new : Super)
        (es copies : List Entry) (f g : Option LogFault) (first : Content) →
        IsCopied log count sectors image → IsReading log head es f → IsReading image new copies g →
        replay new.sectorsize (take n copies) first ≡ replay head.sectorsize (take n es) first }
{}
