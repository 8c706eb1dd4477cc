//! The id by which the lines of a recorder's script name a request.
ghost use Rattle.std.specs.Prelude.{◌≡◌, ◌≤◌, Some, length};
ghost use Rattle.std.specs.List.{list_all};
ghost use Rattle.dmlw_script.specs.Words.{id_text, is_name_byte as is_id_byte, is_id as is_an_id};
ghost use Rattle.dmlw_script.specs.Words.{id_of_word, script_id, letters_of};

use refusals::cut;
use std::fmt;

/// The maximum number of characters of an id.
pub(crate) const NAME_BYTES: usize = 16;

/// An id of a script: 1 to 16 of the characters `a` to `z` and `0` to `9`.
#[derive(Clone, Copy, Debug, PartialEq, Eq, Hash)]
pub struct ScriptId {
    // The characters, and zeroes after them.
    letters: [u8; NAME_BYTES],
}

impl ScriptId {
    /// Returns the id that a word is, if it is one.
    pub(crate) fn of_word(word: &[u8]) -> Option<ScriptId>
        ensures { result ≡ id_of_word word.now }
    {
        if is_id(word) {
            Some(ScriptId::padded(word))
        } else {
            None
        }
    }

    // Returns the id with the characters of `word`.
    fn padded(word: &[u8]) -> ScriptId
        requires { length word.now ≤ 16 }
        ensures { result ≡ script_id word.now }
    {
        let mut letters = [0; NAME_BYTES];
        letters[..word.len()].copy_from_slice(word);
        ScriptId { letters }
    }

    /// Returns the characters of the id.
    pub fn letters(&self) -> &[u8]
        ensures { result.now ≡ letters_of self.now }
    {
        cut(&self.letters, 0).0
    }
}

impl fmt::Display for ScriptId {
    ghost output = { λ name. Some (id_text name) };

    fn fmt<W: fmt::Write>(&self, f: &mut fmt::Formatter<W>) -> fmt::Result {
        for letter in self.letters() {
            f.write_char(char::from(*letter))?;
        }
        Ok(())
    }
}

fn is_id(word: &[u8]) -> bool
    ensures { result ≡ is_an_id word.now }
{
    0 < word.len() && word.len() <= NAME_BYTES && has_name_bytes(word)
}

// Returns whether each byte is a character of an id.
fn has_name_bytes(word: &[u8]) -> bool
    ensures { result ≡ list_all is_id_byte word.now }
{
    word.iter().all(|byte| is_name_byte(*byte))
}

// Returns whether a byte is a character of an id.
fn is_name_byte(byte: u8) -> bool
    ensures { result ≡ is_id_byte byte }
{
    byte.is_ascii_lowercase() || byte.is_ascii_digit()
}
