//! The word of `replay` that names the end of the replay.
ghost use Rattle.std.specs.Prelude.{◌≡◌, IfSome, None};
ghost use Rattle.dmlw_commands.specs.Replays.{IsNoWhat, IsWhat};

use refusals::number_of;
use replay::Upto;

/// Parses a word that names the end of a replay; None for any other word.
/// - `entries:<n>`: after n entries; n has 1 to 20 decimal digits and is below 2^64.
/// - `mark:<text>`: after the first mark with this text, which may be empty.
/// - `flush`: after the first flush.
pub fn upto_of(word: &[u8]) -> Option<Upto<'_>>
    ensures some { IfSome result (IsWhat word.now) }
    ensures none { result ≡ None → IsNoWhat word.now }
{
    if word == b"flush".as_slice() {
        return Some(Upto::Flush);
    }
    if let Some(text) = word.strip_prefix(b"mark:".as_slice()) {
        return Some(Upto::Mark(text));
    }
    let digits = word.strip_prefix(b"entries:".as_slice())?;
    Some(Upto::Count(number_of(digits)?))
}
