//! The step that a text begins with, taken from the text at once.

ghost use Rattle.std.specs.Prelude.{◌≡◌, ◌≢◌, ◌==◌, ◌∷◌, ◌++◌, ℕ, List, MatchOption, IfSome, decimal};
ghost use Rattle.std.specs.Prelude.{position};
ghost use Rattle.events.specs.Names.{IsName};
ghost use Rattle.specification.specs.CertificateText.{IsStep, step_line};
ghost use Rattle.specification.specs.Conflict.{Step};
ghost use Rattle.certificate_text.specs.StepSaid.{step_said};

use super::entries::{StepWords, step_words};
use events::{OpName, is_name};
use format_words::{number_of, split_line};

/// Where the byte stands first.
#[inline(always)]
fn place_of(text: &[u8], wanted: u8) -> Option<usize>
    ensures { result ≡ position (λ b. b == wanted) text.now }
{
    text.iter().position(|byte| *byte == wanted)
}

/// The name that stands before the first space, and what follows that space; none where there is no space,
/// or no name before it.
#[inline(always)]
fn name_ahead(text: &[u8]) -> Option<(&[u8], &[u8])>
    ensures { IfSome result (λ x. IsName x.0.now × (text.now ≡ x.0.now ++ 32 ∷ x.1.now)) }
{
    let end = place_of(text, b' ')?;
    let name = &text[..end];
    if !is_name(name) {
        return None;
    }
    Some((name, &text[end + 1..]))
}

/// The number that stands before the first such byte, and what follows that byte; none where there is no
/// such byte, or no number before it.
#[inline(always)]
fn number_ahead(text: &[u8], end: u8) -> Option<(u32, &[u8])>
    ensures { IfSome result (λ x. text.now ≡ decimal x.0 ++ end ∷ x.1.now) }
{
    let place = place_of(text, end)?;
    let number = number_of(&text[..place])?;
    Some((number, &text[place + 1..]))
}

/// The step whose line the text begins with, and what follows that line. It is for speed alone: where it
/// gives none, the text's first line may still be a step's.
#[inline(always)]
fn step_ahead(text: &[u8]) -> Option<(StepWords<'_>, &[u8])>
    ensures { IfSome result (λ x. IsStep (step_said x.0)
        × (text.now ≡ step_line (step_said x.0) ++ 10 ∷ x.1.now)) }
{
    let [b's', b't', b'e', b'p', b' ', rest @ ..] = text else {
        return None;
    };
    let (from, rest) = name_ahead(rest)?;
    let (to, rest) = name_ahead(rest)?;
    let (replica, rest) = number_ahead(rest, b'.')?;
    let (n, rest) = number_ahead(rest, b'\n')?;
    let shown = OpName::new(replica, n)?;
    Some((StepWords { from, to, shown }, rest))
}

/// The step of the first of these lines, and the lines after it; none where the text's first line, with its
/// LF, is no step's.
pub fn first_step(lines: &[u8]) -> Option<(StepWords<'_>, &[u8])>
    ensures { MatchOption result
        ((s : Step) (more : List ℕ) → IsStep s → lines.now ≢ step_line s ++ 10 ∷ more)
        (λ x. IsStep (step_said x.0) × (lines.now ≡ step_line (step_said x.0) ++ 10 ∷ x.1.now)) }
{
    if let Some(found) = step_ahead(lines) {
        return Some(found);
    }
    let Some((line, rest)) = split_line(lines) else {
        return None;
    };
    match step_words(line) {
        Ok(step) => Some((step, rest)),
        Err(_) => None,
    }
}
