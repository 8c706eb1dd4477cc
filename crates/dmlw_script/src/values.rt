//! Parses values in the words of a line: the picks of a crash, and a byte.
ghost use Rattle.std.specs.Prelude.{◌≡◌, IfErr, IfOk, Some, option_copied};
ghost use Rattle.dmlw_script.specs.inside.Readers.{HasNoPicks};
ghost use Rattle.dmlw_script.specs.inside.LineParser.{picks_of as the_picks};
ghost use Rattle.dmlw_script.specs.Words.{half_of, byte_of as the_byte};

use crate::line_error::LineError;
use refusals::{Refusal, cut, number_of};
use std::alloc::Global;

/// Parses the picks of a crash; no words give no picks. Refuses a word that is no number as
/// `BadLine`.
pub(crate) fn picks_of(alloc: Global, words: Option<&[u8]>) -> Result<Vec<u64>, LineError>
    ensures picks { IfOk result
        (λ picks. the_picks (option_copied words.entry) ≡ Some picks.items) }
    ensures none { IfErr result
        (λ error. HasNoPicks error (the_picks (option_copied words.entry))) }
{
    let mut picks = Vec::new(alloc);
    let mut rest = words;
    while let Some(words) = rest {
        let (word, after) = cut(words, b' ');
        match number_of(word) {
            Some(pick) => picks.push(pick)?,
            None => return Err(LineError::Refused(Refusal::BadLine)),
        }
        rest = after;
    }
    Ok(picks)
}

/// Parses a byte: two lower case hexadecimal digits.
pub(crate) fn byte_of(word: &[u8]) -> Option<u8>
    ensures { result ≡ the_byte word.now }
{
    match word {
        [high, low] => Some(16 * half_of(*high)? + half_of(*low)?),
        _ => None,
    }
}

// Returns the value of a lower case hexadecimal digit; None for any other byte.
fn half_of(digit: u8) -> Option<u8>
    ensures { result ≡ half_of digit }
{
    match digit {
        b'0'..=b'9' => Some(digit - b'0'),
        b'a'..=b'f' => Some(digit - b'a' + 10),
        _ => None,
    }
}
