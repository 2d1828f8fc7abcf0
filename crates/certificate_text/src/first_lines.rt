//! The first line of a text as one of a certificate's lines. Nothing here takes memory.

ghost use Rattle.std.specs.Prelude.{◌≡◌, ◌≢◌, ◌∷◌, [], ◌++◌, ◌≤◌, ◌<◌, ◌⊎◌, List, None, length, All, IfOk};
ghost use Rattle.std.specs.Prelude.{IfErr};
ghost use Rattle.events.specs.Names.{NameBytes, IsName};
ghost use Rattle.specification.specs.Conflict as conflict;
ghost use Rattle.specification.specs.LayerRule as layer_rule;
ghost use Rattle.specification.specs.Lines.{IsOneLine, names_text, order_line};
ghost use Rattle.specification.specs.CertificateText.{IsStep, IsRow, version_line, step_line, row_line};
ghost use Rattle.specification.specs.Versions as versions;
ghost use Rattle.format_words.specs.Words.{words_of};
ghost use Rattle.certificate_text.specs.CertificateOf.{version_in};
ghost use Rattle.certificate_text.specs.Outlines.{HasNoLine, Misses};
ghost use Rattle.certificate_text.specs.Progress.{IsKind, kind_line};
ghost use Rattle.certificate_text.specs.Reading.{kind_at, order_at, step_at, row_at};

use super::ahead::first_step;
use super::entries::{is_row, order_names, step_words};
use super::fault::CertCause;
use super::kind::{Kind, kind_of};
use super::version::Version;
use format_words::split_line;

/// The first line of the text, and what follows its LF. Where there is no line, the cause `unsaid`.
fn line_first(text: &[u8], unsaid: CertCause) -> Result<(&[u8], &[u8]), CertCause>
    ensures ok { IfOk result (λ x. IsOneLine x.0.now × (text.now ≡ x.0.now ++ 10 ∷ x.1.now)) }
    ensures cause { IfErr result (HasNoLine unsaid text.now) }
{
    match split_line(text) {
        Some(found) => Ok(found),
        None => if text.is_empty() {
            Err(unsaid)
        } else {
            Err(CertCause::Cut)
        },
    }
}

/// The version that the first line names, and what follows.
pub fn version_first(text: &[u8]) -> Result<(Version, &[u8]), CertCause>
    ensures ok { IfOk result (λ x. text.now ≡ version_line (version_in x.0) ++ 10 ∷ x.1.now) }
    ensures cause { IfErr result (Misses CertCause.Header
        (λ line. (version : versions.Version) → line ≢ version_line version) text.now) }
{
    let (line, rest) = line_first(text, CertCause::Header)?;
    match Version::of_line(line) {
        Some(version) => Ok((version, rest)),
        None => Err(CertCause::Header),
    }
}

/// The kind that the first line says, and what follows.
pub fn kind_first(text: &[u8]) -> Result<(Kind, &[u8]), CertCause>
    ensures ok { IfOk result (λ x. IsKind x.0 × (text.now ≡ kind_line x.0 ++ 10 ∷ x.1.now)) }
    ensures cause { IfErr result (Misses CertCause.Kind (λ line. kind_at (words_of line) ≡ None) text.now) }
{
    let (line, rest) = line_first(text, CertCause::Kind)?;
    match kind_of(line) {
        Ok(kind) => Ok((kind, rest)),
        Err(_) => Err(CertCause::Kind),
    }
}

/// The names of the order that the first line gives, each after a space, and what follows the line.
pub fn order_first(text: &[u8]) -> Result<(&[u8], &[u8]), CertCause>
    ensures ok { IfOk result (λ x. (order : List NameBytes) × All IsName order × (x.0.now ≡ names_text order)
        × (text.now ≡ order_line order ++ 10 ∷ x.1.now)) }
    ensures cause { IfErr result (Misses CertCause.Shape (λ line. order_at (words_of line) ≡ None) text.now) }
{
    let (line, rest) = line_first(text, CertCause::Shape)?;
    match order_names(line) {
        Ok(names) => Ok((names, rest)),
        Err(_) => Err(CertCause::Shape),
    }
}

/// The text after its first line, if that line is a step; else what is wrong with it.
pub fn step_first(text: &[u8]) -> Result<&[u8], CertCause>
    ensures ok { IfOk result (λ rest. (step : conflict.Step) × IsStep step
        × (text.now ≡ step_line step ++ 10 ∷ rest.now)) }
    ensures cause { IfErr result (Misses CertCause.Shape (λ line. step_at (words_of line) ≡ None) text.now) }
{
    if let Some((_, rest)) = first_step(text) {
        return Ok(rest);
    }
    let (line, rest) = line_first(text, CertCause::Shape)?;
    match step_words(line) {
        Ok(_) => Ok(rest),
        Err(_) => Err(CertCause::Shape),
    }
}

/// The text after its first line, if that line is a row of k - 1 layers; else what is wrong with it.
pub fn row_first(k: u32, text: &[u8]) -> Result<&[u8], CertCause>
    ensures ok { IfOk result (λ rest. (row : layer_rule.Row) × IsRow k row
        × (text.now ≡ row_line row ++ 10 ∷ rest.now)) }
    ensures shorter { IfOk result (λ rest. length rest.now < length text.now) }
    ensures cause { IfErr result (Misses CertCause.Shape (λ line. row_at k (words_of line) ≡ None) text.now) }
{
    let (line, rest) = line_first(text, CertCause::Shape)?;
    if is_row(k, line) {
        Ok(rest)
    } else {
        Err(CertCause::Shape)
    }
}

/// Looks whether the text has no line.
pub fn end_first(text: &[u8]) -> Result<(), CertCause>
    ensures ok { IfOk result (λ _. text.now ≡ []) }
    ensures some { IfErr result (λ _. 1 ≤ length text.now) }
    ensures cause { IfErr result (Misses CertCause.Shape (λ _. Unit {0}) text.now) }
{
    if text.is_empty() {
        return Ok(());
    }
    match line_first(text, CertCause::Shape) {
        Ok(_) => Err(CertCause::Shape),
        Err(cause) => Err(cause),
    }
}
