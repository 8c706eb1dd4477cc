//! Cuts a text at the first byte with a given value. The parsers of script lines and of dm-dust's
//! messages split words with it. `count_words` and `word_at` split a line at spaces. The parser of
//! table lines uses them, and so does the code that explains a refused line. `ascii_text` returns
//! ASCII bytes as text; the caller proves that they are ASCII. `script_runner` uses it to pass the
//! text of a message to a layer.
ghost use Rattle.std.specs.Prelude.{◌≡◌, ◌==◌, option_copied, position, length, slice_get};
ghost use Rattle.std.specs.Str.{IsAscii};
ghost use Rattle.refusals.specs.Words.{before_byte, after_byte, words_of};

/// Returns the bytes before the first byte `mark`, and the bytes after it. If there is no `mark`,
/// returns all bytes and None.
#[tactic(auto, using(crate::proofs::WordLemmas::before_byte_position, crate::proofs::WordLemmas::after_byte_position))]
pub fn cut(bytes: &[u8], mark: u8) -> (&[u8], Option<&[u8]>)
    ensures before_byte { result.0.now ≡ before_byte mark bytes.now }
    ensures after_byte { option_copied result.1 ≡ after_byte mark bytes.now }
{
    match place_of(bytes, mark) {
        Some(place) => (&bytes[..place], Some(&bytes[place + 1..])),
        None => (bytes, None),
    }
}

// Returns the index of the first `mark`, if there is one.
fn place_of(bytes: &[u8], mark: u8) -> Option<usize>
    ensures { result ≡ position (λ b. b == mark) bytes.now }
{
    bytes.iter().position(|byte| *byte == mark)
}

/// Returns the number of words of a line: the parts between its spaces that aren't empty.
pub fn count_words(line: &[u8]) -> usize
    ensures { result ≡ length (words_of line.now) }
{
    line.split(|byte| *byte == b' ')
        .filter(|word| !word.is_empty())
        .count()
}

/// Returns the word of a line at the index `place`, from 0, if there is one.
pub fn word_at(line: &[u8], place: usize) -> Option<&[u8]>
    ensures { option_copied result ≡ slice_get (words_of line.now) place }
{
    line.split(|byte| *byte == b' ')
        .filter(|word| !word.is_empty())
        .nth(place)
}

pub fn ascii_text(bytes: &[u8]) -> &str
    requires { IsAscii bytes.now }
    ensures { result.now ≡ bytes.now }
{
    str::from_utf8(bytes).unwrap_or_default()
}
