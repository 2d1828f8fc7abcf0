//! The second line of a certificate's text.

ghost use Rattle.format_words.specs.Words.{words_of, words_behind};
ghost use Rattle.format_words.specs.Reading.{Says};
ghost use Rattle.certificate_text.specs.Reading.{last_operation_at, doubled_at, accepted_at};
ghost use Rattle.certificate_text.specs.Reading.{refused_at, kind_by, kind_at};

use events::OpName;
use format_words::{Shape, end, first_word, next_number, next_word, operation_of};

/// What the second line says.
#[derive(Clone, Copy)]
pub enum Kind {
    /// A name is inserted twice.
    Doubled { first: OpName, again: OpName },
    /// The contents of an operation are wrong.
    Contents { at: OpName },
    /// An insertion's place is wrong.
    Position { at: OpName },
    /// An order follows.
    Accepted,
    /// So many steps follow, 2 or more, and rows.
    Refused { k: u32 },
}

/// An operation that ends the line.
#[tactic(auto, unfolding(crate::specs::Reading::last_operation_at, format_words::specs::Reading::operation_at))]
fn last_operation(rest: &[u8]) -> Result<OpName, Shape>
    ensures { Says (λ at. at) result (last_operation_at (words_behind rest.now)) }
{
    let (word, rest) = next_word(rest)?;
    let at = operation_of(word)?;
    end(rest)?;
    Ok(at)
}

/// What follows `doubled`.
#[tactic(auto, unfolding(crate::specs::Reading::doubled_at, format_words::specs::Reading::operation_at))]
fn doubled(rest: &[u8]) -> Result<Kind, Shape>
    ensures { Says (λ kind. kind) result (doubled_at (words_behind rest.now)) }
{
    let (word, rest) = next_word(rest)?;
    let first = operation_of(word)?;
    let again = last_operation(rest)?;
    Ok(Kind::Doubled { first, again })
}

/// What follows `accepted`.
#[tactic(auto, unfolding(crate::specs::Reading::accepted_at))]
fn accepted(rest: &[u8]) -> Result<Kind, Shape>
    ensures { Says (λ kind. kind) result (accepted_at (words_behind rest.now)) }
{
    end(rest)?;
    Ok(Kind::Accepted)
}

/// What follows `refused`.
#[tactic(auto, unfolding(crate::specs::Reading::refused_at))]
fn refused(rest: &[u8]) -> Result<Kind, Shape>
    ensures { Says (λ kind. kind) result (refused_at (words_behind rest.now)) }
{
    let (k, rest) = next_number(rest)?;
    end(rest)?;
    if k >= 2 {
        Ok(Kind::Refused { k })
    } else {
        Err(Shape)
    }
}

/// What the second line says.
#[tactic(auto, unfolding(crate::specs::Reading::kind_at, crate::specs::Reading::kind_by))]
pub fn kind_of(line: &[u8]) -> Result<Kind, Shape>
    ensures { Says (λ kind. kind) result (kind_at (words_of line.now)) }
{
    let (word, rest) = first_word(line);
    if word == b"doubled".as_slice() {
        return doubled(rest);
    }
    if word == b"contents".as_slice() {
        let at = last_operation(rest)?;
        return Ok(Kind::Contents { at });
    }
    if word == b"position".as_slice() {
        let at = last_operation(rest)?;
        return Ok(Kind::Position { at });
    }
    if word == b"accepted".as_slice() {
        return accepted(rest);
    }
    if word == b"refused".as_slice() {
        return refused(rest);
    }
    Err(Shape)
}
