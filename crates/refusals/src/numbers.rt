//! Parses a word as a number below 2^64, in scripts, table lines, messages and command lines. The
//! printers of scripts and of table lines print a number with `push_number`.
ghost use Rattle.std.specs.Prelude.{◌≡◌, ◌<◌, ◌+◌, ◌++◌, ◌∷◌, [], decimal, OnOk};
ghost use Rattle.refusals.specs.Words.{number_of as the_number, with_digit};

use std::alloc::AllocError;

/// The maximum number of digits of a number.
const NUMBER_DIGITS: usize = 20;

/// Returns the value of the word if it is a number: 1 to 20 decimal digits with a value below 2^64.
/// The first digit may be 0.
pub fn number_of(word: &[u8]) -> Option<u64>
    ensures { result ≡ the_number word.now }
{
    if word.is_empty() || word.len() > NUMBER_DIGITS {
        return None;
    }
    let mut value: u64 = 0;
    for digit in word {
        value = with_digit(value, *digit)?;
    }
    Some(value)
}

// Returns the number with `digit` appended, if `digit` is a decimal digit and the result is below
// 2^64.
fn with_digit(number: u64, digit: u8) -> Option<u64>
    ensures { result ≡ with_digit number digit }
{
    match digit {
        b'0'..=b'9' => number.checked_mul(10)?.checked_add(u64::from(digit - b'0')),
        _ => None,
    }
}

/// Appends the decimal digits of a number, without leading zeroes.
#[tactic(auto, using(std::proofs::lemmas::Fmt::decimal_step, std::proofs::lemmas::Fmt::decimal_digit))]
pub fn push_number(out: &mut Vec<u8>, number: u64) -> Result<(), AllocError>
    ensures { OnOk result (out.new.items ≡ out.old.items ++ decimal number) }
{
    if number < 10 {
        return push_digit(out, number as u8);
    }
    push_number(out, number / 10)?;
    push_digit(out, (number % 10) as u8)
}

// Appends a decimal digit.
fn push_digit(out: &mut Vec<u8>, digit: u8) -> Result<(), AllocError>
    requires { digit < 10 }
    ensures { OnOk result (out.new.items ≡ out.old.items ++ (48 + digit) ∷ []) }
{
    out.push(b'0' + digit)?;
    Ok(())
}
