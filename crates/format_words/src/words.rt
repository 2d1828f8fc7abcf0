//! The words of a line, taken one by one.

ghost use Rattle.std.specs.Prelude.{◌≡◌, ◌∷◌, ◌==◌, ◌<◌, ◌≤◌, length, position, IfOk};
ghost use Rattle.format_words.specs.Words.{words_of, words_behind};
ghost use Rattle.format_words.specs.Reading.{Says, word_at};

use crate::stop::Shape;

/// Where the byte stands first.
pub fn place_of(text: &[u8], wanted: u8) -> Option<usize>
    ensures { result ≡ position (λ b. b == wanted) text.now }
{
    text.iter().position(|byte| *byte == wanted)
}

/// The first word of a text, and what follows it, from the next space on.
pub fn first_word(text: &[u8]) -> (&[u8], &[u8])
    ensures words { words_of text.now ≡ result.0.now ∷ words_behind result.1.now }
    ensures length { length result.1.now ≤ length text.now }
{
    let end = place_of(text, b' ').unwrap_or(text.len());
    text.split_at(end)
}

/// The next word of a rest that begins with the space before it, and the rest after that word.
pub fn next_word(rest: &[u8]) -> Result<(&[u8], &[u8]), Shape>
    ensures word { Says (λ x. (x.0.now, words_behind x.1.now)) result (word_at (words_behind rest.now)) }
    ensures shorter { IfOk result (λ x. length x.1.now < length rest.now) }
{
    match rest.split_first() {
        Some((_, text)) => Ok(first_word(text)),
        None => Err(Shape),
    }
}
