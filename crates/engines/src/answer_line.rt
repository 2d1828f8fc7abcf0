//! The checker's line for an answer.

ghost use Rattle.std.specs.Prelude.{◌≡◌, ◌++◌, ◌∷◌, IfOk, OnOk};
ghost use Rattle.engines.specs.Lines.{kind_words, reason_words, answer_words, answer_line};

use cert_check::{Answer, Kind, Reason};
use events::{Memory, Name};
use format_words::{push_name, push_number, push_operation};
use std::alloc::Global;

/// The word for what a certificate shows.
fn kind_word(kind: Kind) -> &'static str
    ensures { result.now ≡ kind_words kind }
{
    match kind {
        Kind::Doubled => "doubled",
        Kind::Contents => "contents",
        Kind::Position => "position",
        Kind::Accepted => "accepted",
        Kind::Refused => "refused",
    }
}

/// Adds what is wrong with the row of an element, and its name.
fn push_source(text: &mut Vec<u8>, wrong: &[u8], source: &Name) -> Result<(), Memory>
    ensures { OnOk result (text.new.items ≡ text.old.items ++ (wrong.now ++ (32 ∷ source.now))) }
{
    text.extend_from_slice(wrong)?;
    push_name(text, source)
}

/// Adds the words for a reason.
fn push_reason(alloc: Global, text: &mut Vec<u8>, why: &Reason) -> Result<(), Memory>
    ensures { OnOk result (text.new.items ≡ text.old.items ++ reason_words why.now) }
{
    match why {
        Reason::Trace => text.extend_from_slice(b"trace")?,
        Reason::CertText => text.extend_from_slice(b"text")?,
        Reason::WrongFault => text.extend_from_slice(b"fault")?,
        Reason::NotOrder => text.extend_from_slice(b"order")?,
        Reason::NotFollowed { at } => {
            text.extend_from_slice(b"followed ")?;
            push_operation(alloc, text, *at)?;
        }
        Reason::NoCycle { step } => {
            text.extend_from_slice(b"cycle ")?;
            push_number(alloc, text, *step)?;
        }
        Reason::MissingLayer { source } => push_source(text, b"missing", source)?,
        Reason::ShortLayer { source } => push_source(text, b"short", source)?,
        Reason::ExtraLayer { source } => push_source(text, b"extra", source)?,
    }
    Ok(())
}

/// Adds the words for an answer.
fn push_answer(alloc: Global, text: &mut Vec<u8>, answer: &Answer) -> Result<(), Memory>
    ensures { OnOk result (text.new.items ≡ text.old.items ++ answer_words answer.now) }
{
    match answer {
        Answer::Yes(kind) => {
            text.extend_from_slice(b"yes ")?;
            text.extend_from_slice(kind_word(*kind).as_bytes())?;
        }
        Answer::No(why) => {
            text.extend_from_slice(b"no ")?;
            push_reason(alloc, text, why)?;
        }
    }
    Ok(())
}

/// The line for an answer: `yes` and the kind, or `no` and the reason, and a LF.
pub fn line_of(alloc: Global, answer: &Answer) -> Result<Vec<u8>, Memory>
    ensures { IfOk result (λ line. line.items ≡ answer_line answer.now) }
{
    let mut line = Vec::new(alloc);
    push_answer(alloc, &mut line, answer)?;
    line.push(b'\n')?;
    Ok(line)
}
