//! Parses the options of a write: `flush`, `fua` and `meta`, in this order.
ghost use Rattle.std.specs.Prelude.{◌≡◌, option_copied};
ghost use Rattle.dmlw_script.specs.inside.LineParser.{options_of as the_options};
ghost use Rattle.dmlw_script.specs.inside.LineParser.{take_word as the_taking};

use crate::command::WriteOptions;
use refusals::cut;

/// Parses the last words of a write, if there are any. Each option may be left out. Returns None if
/// any other word is left.
pub(crate) fn options_of(words: Option<&[u8]>) -> Option<WriteOptions>
    ensures { result ≡ the_options (option_copied words.entry) }
{
    let (flush, rest) = take_word(words, b"flush");
    let (fua, rest) = take_word(rest, b"fua");
    let (meta, rest) = take_word(rest, b"meta");
    match rest {
        Some(_) => None,
        None => Some(WriteOptions { flush, fua, meta }),
    }
}

// Returns whether `word` is the first of the words. Also returns the words that are left: those
// after `word`, or all if it is not the first.
fn take_word<'a>(words: Option<&'a [u8]>, word: &[u8]) -> (bool, Option<&'a [u8]>)
    ensures stands { result.0 ≡ (the_taking word.now (option_copied words.entry)).0 }
    ensures left { option_copied result.1 ≡ (the_taking word.now (option_copied words.entry)).1 }
{
    let Some(text) = words else {
        return (false, None);
    };
    let (first, rest) = cut(text, b' ');
    if first == word {
        (true, rest)
    } else {
        (false, words)
    }
}
