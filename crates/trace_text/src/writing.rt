//! The spelling of a recording that is written.

ghost use Rattle.std.specs.Prelude.{◌≡◌, ◌++◌, ◌∷◌, [], false, slice_get, IfOk, MatchOption, OnOk};
ghost use Rattle.events.specs.History.{is_view};
ghost use Rattle.specification.specs.Lines.{text_of};
ghost use Rattle.specification.specs.TraceText.{header_line, replicas_line, body_text, entry_line};
ghost use Rattle.specification.specs.TraceText.{trace_text, version_of};
ghost use Rattle.trace_text.specs.Versions.{version_in};

use crate::version::Version;
use events::{Body, Entry, Memory, Recording};
use format_words::{push_name, push_names, push_number};
use std::alloc::Global;

/// Adds what stands after an entry's replica.
fn push_body(alloc: Global, text: &mut Vec<u8>, body: &Body) -> Result<(), Memory>
    ensures { OnOk result (text.new.items ≡ text.old.items ++ body_text body.now) }
{
    match body {
        Body::Ins { name, at, response } => {
            text.extend_from_slice(b" ins")?;
            push_name(text, name)?;
            text.push(b' ')?;
            push_number(alloc, text, *at)?;
            text.extend_from_slice(b" :")?;
            push_names(text, response)?;
        }
        Body::Del { name, response } => {
            text.extend_from_slice(b" del")?;
            push_name(text, name)?;
            text.extend_from_slice(b" :")?;
            push_names(text, response)?;
        }
        Body::Read { response } => {
            text.extend_from_slice(b" read :")?;
            push_names(text, response)?;
        }
        Body::View { response } => {
            text.extend_from_slice(b" view :")?;
            push_names(text, response)?;
        }
        Body::Recv { seen } => {
            text.extend_from_slice(b" recv ")?;
            push_number(alloc, text, seen.replica)?;
            text.push(b' ')?;
            push_number(alloc, text, seen.n)?;
        }
    }
    Ok(())
}

/// Adds an entry's line.
fn push_entry(alloc: Global, text: &mut Vec<u8>, entry: &Entry) -> Result<(), Memory>
    ensures { OnOk result (text.new.items ≡ text.old.items ++ (entry_line entry.now ++ 10 ∷ [])) }
{
    push_number(alloc, text, entry.replica)?;
    push_body(alloc, text, &entry.body)?;
    text.push(b'\n')?;
    Ok(())
}

/// Whether the entry at this place is a view.
fn has_view_at(recording: &Recording, i: u32) -> bool
    ensures { MatchOption (slice_get recording.now.entries i) (result ≡ false)
        (λ e. result ≡ is_view e.body) }
{
    match recording.entry(i) {
        Some(entry) => match entry.body {
            Body::View { .. } => true,
            _ => false,
        },
        None => false,
    }
}

/// The version that is written: `trace 2` exactly where some entry is a view.
fn version_to_write(recording: &Recording) -> Version
    ensures { version_in result ≡ version_of recording.now.entries }
{
    for i in 0..recording.len() {
        if has_view_at(recording, i) {
            return Version::Two;
        }
    }
    Version::One
}

/// The first line.
fn first_line(version: Version) -> &'static [u8]
    ensures { result.now ≡ header_line (version_in version) ++ 10 ∷ [] }
{
    match version {
        Version::One => b"trace 1\n",
        Version::Two => b"trace 2\n",
    }
}

/// The first two lines.
fn head(alloc: Global, version: Version, replicas: u32) -> Result<Vec<u8>, Memory>
    ensures { IfOk result (λ text. text.items
        ≡ text_of (header_line (version_in version) ∷ replicas_line replicas ∷ [])) }
{
    let mut text = Vec::from_slice(alloc, first_line(version))?;
    text.extend_from_slice(b"replicas ")?;
    push_number(alloc, &mut text, replicas)?;
    text.push(b'\n')?;
    Ok(text)
}

/// The text that spells the recording: `trace 1`, or `trace 2` where some entry is a view, the number of
/// replicas, and the entries in their order.
///
/// It takes memory and time in proportion to the text.
pub fn write(alloc: Global, recording: &Recording) -> Result<Vec<u8>, Memory>
    ensures { IfOk result (λ bytes. bytes.items ≡ trace_text recording.now) }
{
    let mut text = head(alloc, version_to_write(recording), recording.replicas())?;
    for i in 0..recording.len() {
        if let Some(entry) = recording.entry(i) {
            push_entry(alloc, &mut text, entry)?;
        }
    }
    Ok(text)
}
