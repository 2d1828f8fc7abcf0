//! The lines of a text, taken one by one.

ghost use Rattle.std.specs.Prelude.{◌≡◌, ◌∷◌, ◌++◌, MatchOption};
ghost use Rattle.specification.specs.Lines.{IsOneLine};

use memchr::memchr;

/// The first line of a text without its LF, and what follows that LF; none where the text has no LF.
pub fn split_line(text: &[u8]) -> Option<(&[u8], &[u8])>
    ensures { MatchOption result (IsOneLine text.now)
        (λ x. IsOneLine x.0.now × (text.now ≡ x.0.now ++ 10 ∷ x.1.now)) }
{
    let end = memchr(b'\n', text)?;
    Some((&text[..end], &text[end + 1..]))
}
