//! Laws of words. Each function does nothing; its clauses are the law.
ghost use Rattle.std.specs.Prelude.{◌≡◌, ◌^◌, ◌<◌, ◌∷◌, ◌++◌, [], decimal, length, true, ℕ, List};
ghost use Rattle.refusals.specs.Words.{is_word, words_of, IsNumber};

/// The decimal digits of a number are parsed as that number. A zero in front of a number of less
/// than 20 digits doesn't change its value.
pub fn numbers_are_decimal()
    ensures digits { (n : ℕ) → n < 2 ^ 64 → IsNumber (decimal n) n }
    ensures zero { (word : List ℕ) (n : ℕ) → IsNumber word n → length word < 20
        → IsNumber (48 ∷ word) n }
{}

/// The words of a line are between its spaces. A space splits the line in two: its words are the
/// words of the first part, then the words of the second. A text without a space that isn't empty
/// is one word. So repeated spaces, and spaces at either end, change nothing.
#[tactic(auto, using(crate::specs::WordLaws::words_of_space, crate::specs::WordLaws::words_of_word))]
pub fn words_are_between_spaces()
    ensures none { words_of [] ≡ [] }
    ensures word { (word : List ℕ) → is_word word ≡ true → words_of word ≡ word ∷ [] }
    ensures space { (before after : List ℕ)
        → words_of (before ++ 32 ∷ after) ≡ words_of before ++ words_of after }
{}
