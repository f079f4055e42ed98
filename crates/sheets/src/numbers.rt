// Numbers in decimal.
ghost use Rattle.std.specs.Prelude.{◌≡◌, ◌≤◌, ℕ, ℤ, IfOk, Ok, FitsSigned};
ghost use Rattle.std.specs.Fmt.{decimal, signed_decimal};
ghost use Rattle.std.specs.Int.{w64};
ghost use Rattle.sheets.specs.Numbers.{Between, GivesValue};

use crate::{Due, Problem};
use std::num::IntErrorKind;

/// Why a word is not a number that is due.
#[derive(Clone, Copy, PartialEq, Eq)]
pub enum NumberFault {
    NotDigits,
    OutOfRange,
}

impl NumberFault {
    /// The problem that this fault of a word is, where that number is due.
    pub fn problem<'a>(self, word: &'a str, due: Due) -> Problem<'a> {
        match self {
            NumberFault::NotDigits => Problem::NoNumber(word, due),
            NumberFault::OutOfRange => Problem::OutOfRange(word, due),
        }
    }
}

// The number that digits give, with `-` before them if it is negative. Refuses one that is not from
// `least` to `most`.
fn number_between(word: &str, least: i64, most: i64) -> Result<i64, NumberFault>
    ensures within { IfOk result (Between least most) }
    ensures reads { (z : ℤ) → FitsSigned w64 z → Between least most z
        → word.now ≡ signed_decimal z → result ≡ Ok z }
{
    let number = integer(word)?;
    if number < least || most < number {
        return Err(NumberFault::OutOfRange);
    }
    Ok(number)
}

// The number of 64 bits that digits give, with `-` before them if it is negative, and never a `+`.
fn integer(word: &str) -> Result<i64, NumberFault>
    ensures { (z : ℤ) → FitsSigned w64 z → word.now ≡ signed_decimal z → result ≡ Ok z }
{
    if word.starts_with('+') {
        return Err(NumberFault::NotDigits);
    }
    word.parse::<i64>().map_err(|e| match e.kind() {
        IntErrorKind::PosOverflow | IntErrorKind::NegOverflow => NumberFault::OutOfRange,
        _ => NumberFault::NotDigits,
    })
}

/// The number that digits give, which is to be up to `most`. Refuses one outside these limits, and a word
/// that is no number.
pub fn unsigned(word: &str, most: u32) -> Result<u32, Problem<'_>>
    ensures within { IfOk result (λ n. n ≤ most) }
    ensures reads { (n : ℕ) → n ≤ most → word.now ≡ decimal n → result ≡ Ok n }
{
    let most = i64::from(most);
    match number_between(word, 0, most) {
        Ok(number) => Ok(number as u32),
        Err(why) => Err(why.problem(word, Due::Number(0, most))),
    }
}

/// The number of 32 bits that digits give, with `-` before them if it is negative. Refuses one outside
/// these limits, and a word that is no number.
pub fn signed(word: &str) -> Result<i32, NumberFault>
    ensures { GivesValue word.now result }
{
    let number = number_between(word, i64::from(i32::MIN), i64::from(i32::MAX))?;
    Ok(number as i32)
}
