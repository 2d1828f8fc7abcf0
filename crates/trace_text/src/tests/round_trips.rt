//! Texts that are read, and written again as they were.

use super::{RING_OF_FOUR, THREE_WAY_CYCLE, is_recording, joined, reading};
use events::{Body, Entry, Name, Recording, Response};
use std::alloc::Global;
use std::test::Fail;

/// Texts without views.
pub const PLAIN: &[&str] = &[
    "trace 1\nreplicas 1\n",
    "trace 1\nreplicas 16\n",
    "trace 1\nreplicas 1\n0 read :\n",
    "trace 1\nreplicas 1\n0 ins a 0 : a\n0 del a :\n0 read :\n",
    "trace 1\nreplicas 1\n0 ins a 0 : a\n0 ins b 4294967295 : a b\n",
    "trace 1\nreplicas 1\n0 del a :\n0 ins a 0 :\n",
    "trace 1\nreplicas 2\n0 ins a 0 : a\n1 recv 0 1\n1 recv 0 1\n1 read : a\n",
    THREE_WAY_CYCLE,
    // The opposite pair.
    "trace 1\nreplicas 2\n0 ins a 0 : a\n1 ins b 0 : b\n0 recv 1 1\n1 recv 0 1\n0 read : a b\n1 read : b a\n",
    RING_OF_FOUR,
    // Names of each kind of byte, of the greatest length, and like the format's own words.
    "trace 1\nreplicas 1\n0 ins .-_ 0 : .-_\n0 ins A.0 1 : .-_ A.0\n0 ins nnnnnnnnnnnnnnnnnnnnnnnnnnnnnnnn 0 : nnnnnnnnnnnnnnnnnnnnnnnnnnnnnnnn .-_ A.0\n",
    "trace 1\nreplicas 1\n0 ins read 0 : read\n0 ins 0.1 1 : read 0.1\n0 del ins : read 0.1\n",
    "trace 1\nreplicas 1\n0 ins view 0 : view\n0 del view :\n0 read : view trace\n",
];

/// What follows `trace 1` or `trace 2`.
fn behind_version(text: &str) -> &[u8] {
    text.as_bytes().get(7..).unwrap_or_default()
}

/// The first of these texts that, spelled in this version, is not written as it is here; none where each is.
pub fn first_changed(
    alloc: Global,
    version: &[u8],
    texts: &[&'static str],
) -> Result<Option<&'static str>, Fail> {
    for text in texts {
        let spelled = joined(alloc, version, behind_version(text))?;
        if !is_recording(alloc, reading(alloc, &spelled), text.as_bytes())? {
            return Ok(Some(*text));
        }
    }
    Ok(None)
}

#[test]
fn plain_texts_are_read_and_written_again(rt: HostRuntime) -> Result<(), Fail> {
    assert_eq!(rt; first_changed(rt.alloc(), b"trace 1", PLAIN)?, None);
    Ok(())
}

/// Whether an entry is replica 0's insert of `x` at 7, with a response of two names of which the second is
/// `y`.
fn is_insert(entry: &Entry) -> bool {
    match &entry.body {
        Body::Ins { name, at, response } => {
            entry.replica == 0 && is_named(name, b"x") && *at == 7 && is_pair(response)
        }
        _ => false,
    }
}

fn is_named(name: &Name, text: &[u8]) -> bool {
    name.bytes() == text
}

fn is_pair(response: &Response) -> bool {
    match response.get(1) {
        Some(second) => response.len() == 2 && is_named(&second, b"y"),
        None => false,
    }
}

/// Whether an entry is replica 2's receipt of the first operation of replica 0.
fn is_receipt(entry: &Entry) -> bool {
    match &entry.body {
        Body::Recv { seen } => entry.replica == 2 && seen.replica == 0 && seen.n == 1,
        _ => false,
    }
}

/// Whether an entry is replica 1's view with such a response.
fn is_view(entry: &Entry) -> bool {
    match &entry.body {
        Body::View { response } => entry.replica == 1 && is_pair(response),
        _ => false,
    }
}

/// How many replicas and entries a recording has, and whether its entries are this insert, this receipt and
/// this view.
fn facts(recording: &Recording) -> (u32, u32, bool, bool, bool) {
    (
        recording.replicas(),
        recording.len(),
        recording.entry(0).is_some_and(is_insert),
        recording.entry(1).is_some_and(is_receipt),
        recording.entry(2).is_some_and(is_view),
    )
}

#[test]
fn a_text_gives_its_entries(rt: HostRuntime) -> Result<(), Fail> {
    let text = "trace 2\nreplicas 3\n0 ins x 7 : x y\n2 recv 0 1\n1 view : x y\n";
    let recording = reading(rt.alloc(), text.as_bytes())?;
    assert_eq!(rt; facts(&recording), (3, 3, true, true, true));
    Ok(())
}
