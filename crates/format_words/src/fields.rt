//! The fields of a line: numbers, names and operations' names.

ghost use Rattle.std.specs.Prelude.{◌≡◌, ◌≤◌, length, MatchOption};
ghost use Rattle.std.specs.Str.Parse.{AllDigits, digits_value};
ghost use Rattle.format_words.specs.Words.{words_behind};
ghost use Rattle.format_words.specs.Reading.{Says, number_of, number_at, name_of, operation_of, after_word};
ghost use Rattle.format_words.specs.Reading.{no_more};

use crate::stop::Shape;
use crate::words::{next_word, place_of};
use events::{Name, OpName};

/// How many digits the numbers below 2^32 have at most.
const MOST_DIGITS: usize = 10;

/// The number that the bytes write as digits, with any zeros before it; none where one of them is no digit.
fn value_of(digits: &[u8]) -> Option<u64>
    requires { length digits.now ≤ 10 }
    ensures { MatchOption result (¬ (AllDigits 10 digits.now))
        (λ n. AllDigits 10 digits.now × (n ≡ digits_value 10 digits.now)) }
{
    let mut value = 0u64;
    for byte in digits {
        if !byte.is_ascii_digit() {
            return None;
        }
        value = value * 10 + u64::from(*byte - b'0');
    }
    Some(value)
}

/// The number below 2^32 that the word is, in digits without leading zeros; none where it is no such number.
pub fn number_of(word: &[u8]) -> Option<u32>
    ensures { result ≡ number_of word.now }
{
    let [first, behind @ ..] = word else {
        return None;
    };
    if word.len() > MOST_DIGITS {
        return None;
    }
    if *first == b'0' && !behind.is_empty() {
        return None;
    }
    match value_of(word) {
        Some(value) => u32::try_from(value).ok(),
        None => None,
    }
}

/// The next word as a number, and the rest after it.
#[tactic(auto, unfolding(crate::specs::Reading::number_at))]
pub fn next_number(rest: &[u8]) -> Result<(u32, &[u8]), Shape>
    ensures { Says (λ x. (x.0, words_behind x.1.now)) result (number_at (words_behind rest.now)) }
{
    let (word, rest) = next_word(rest)?;
    match number_of(word) {
        Some(n) => Ok((n, rest)),
        None => Err(Shape),
    }
}

/// The word as a name.
#[tactic(auto, unfolding(crate::specs::Reading::name_of))]
pub fn name_of(word: &[u8]) -> Result<Name, Shape>
    ensures { Says (λ name. name) result (name_of word.now) }
{
    match Name::new(word) {
        Ok(name) => Ok(name),
        Err(_) => Err(Shape),
    }
}

/// The operation whose name is `r.n` with these bytes, where there is one.
#[tactic(auto, unfolding(crate::specs::Reading::operation_of))]
fn operation_named(word: &[u8]) -> Option<OpName>
    ensures { result ≡ operation_of word.now }
{
    let dot = place_of(word, b'.')?;
    let replica = number_of(&word[..dot])?;
    let n = number_of(&word[dot + 1..])?;
    OpName::new(replica, n)
}

/// The word as the name of an operation: `r.n`, counted from 1.
pub fn operation_of(word: &[u8]) -> Result<OpName, Shape>
    ensures { Says (λ operation. operation) result (operation_of word.now) }
{
    match operation_named(word) {
        Some(operation) => Ok(operation),
        None => Err(Shape),
    }
}

/// The rest after a word that must be there.
#[tactic(auto, unfolding(crate::specs::Reading::after_word))]
pub fn skip_word<'a>(rest: &'a [u8], wanted: &[u8]) -> Result<&'a [u8], Shape>
    ensures { Says (λ x. words_behind x.now) result (after_word wanted.now (words_behind rest.now)) }
{
    let (word, rest) = next_word(rest)?;
    if word == wanted { Ok(rest) } else { Err(Shape) }
}

/// Nothing but the end of the line.
pub fn end(rest: &[u8]) -> Result<(), Shape>
    ensures { Says (λ x. tt) result (no_more (words_behind rest.now)) }
{
    if rest.is_empty() { Ok(()) } else { Err(Shape) }
}
