//! Tests of traces' texts, both ways.

ghost use Rattle.std.specs.Prelude.{◌<◌};

mod by_words;
mod faults;
mod kept_lines;
mod limits;
mod long_lines;
mod piecewise;
mod prefixes;
mod round_trips;
mod versions;
mod words;

use super::{Cause, LineFault, Reader, read, write};
use events::{Memory, Recording, Refusal};
use std::alloc::Global;
use std::test::Fail;

/// What the first call says; where it finds no memory, what the second says.
fn again<F: Fn() -> Result<Recording, LineFault>>(call: F) -> Result<Recording, LineFault>
    requires { F.IsAlwaysCallable call }
{
    match call() {
        Err(
            LineFault {
                cause: Cause::Refused(Refusal::Memory),
                line: _,
            },
        ) => call(),
        answer => answer,
    }
}

/// What reading says.
fn reading(alloc: Global, text: &[u8]) -> Result<Recording, LineFault> {
    again(|| read(alloc, text))
}

/// The text of the recording; where the first call finds no memory, what the second gives.
fn writing(alloc: Global, recording: &Recording) -> Result<Vec<u8>, Memory> {
    match write(alloc, recording) {
        Err(Memory) => write(alloc, recording),
        text => text,
    }
}

/// Whether what is said is the recording of which this text is written.
fn is_recording(
    alloc: Global,
    said: Result<Recording, LineFault>,
    text: &[u8],
) -> Result<bool, Fail> {
    let again = writing(alloc, &said?)?;
    Ok(again.as_slice() == text)
}

/// Whether what is said is this fault at this line.
fn has_fault(said: Result<Recording, LineFault>, line: u32, cause: Cause) -> bool {
    said.err() == Some(LineFault { line, cause })
}

/// What a reader says of the text, fed in pieces of so many bytes.
fn fed_once(alloc: Global, text: &[u8], size: usize) -> Result<Recording, LineFault>
    requires { 0 < size }
{
    let mut reader = Reader::new(alloc);
    for piece in text.chunks(size) {
        reader.feed(piece)?;
    }
    reader.end()
}

/// The same; where the first reader finds no memory, what the second says.
fn fed(alloc: Global, text: &[u8], size: usize) -> Result<Recording, LineFault>
    requires { 0 < size }
{
    again(
        || -> Result<Recording, LineFault>
            requires { 0 < size }
        { fed_once(alloc, text, size) },
    )
}

/// A text: a front, a piece so many times, and a back.
#[derive(Drop)]
struct Pieces<'a> {
    front: &'a [u8],
    piece: &'a [u8],
    count: u32,
    back: &'a [u8],
}

impl Pieces<'_> {
    fn once(&self, alloc: Global) -> Result<Vec<u8>, Memory> {
        let mut text = Vec::from_slice(alloc, self.front)?;
        for _ in 0..self.count {
            text.extend_from_slice(self.piece)?;
        }
        text.extend_from_slice(self.back)?;
        Ok(text)
    }

    /// All of them in a row; where the first try finds no memory, by a second.
    fn join(&self, alloc: Global) -> Result<Vec<u8>, Memory> {
        match self.once(alloc) {
            Err(Memory) => self.once(alloc),
            text => text,
        }
    }
}

/// A front and a back in a row.
fn joined(alloc: Global, front: &[u8], back: &[u8]) -> Result<Vec<u8>, Memory> {
    let whole = Pieces {
        front,
        piece: b"",
        count: 0,
        back,
    };
    whole.join(alloc)
}

/// The first of the rows whose text, after a front, has not this fault at this line; none where all have.
fn first_wrong(
    alloc: Global,
    front: &[u8],
    rows: &[(&'static str, u32, Cause)],
) -> Result<Option<&'static str>, Memory> {
    for (text, line, cause) in rows {
        let bytes = joined(alloc, front, text.as_bytes())?;
        if !has_fault(reading(alloc, &bytes), *line, *cause) {
            return Ok(Some(*text));
        }
    }
    Ok(None)
}

/// The same, where the text comes in pieces of so many bytes.
fn first_wrong_in_pieces(
    alloc: Global,
    front: &[u8],
    rows: &[(&'static str, u32, Cause)],
    size: usize,
) -> Result<Option<&'static str>, Memory>
    requires { 0 < size }
{
    for (text, line, cause) in rows {
        let bytes = joined(alloc, front, text.as_bytes())?;
        if !has_fault(fed(alloc, &bytes, size), *line, *cause) {
            return Ok(Some(*text));
        }
    }
    Ok(None)
}

/// Three replicas, of which each saw another two elements the other way round.
const THREE_WAY_CYCLE: &str =
    "trace 1\nreplicas 3\n0 ins x 0 : x\n1 recv 0 1\n2 recv 0 1\n1 ins a 0 : a x\n2 ins b 1 : x b\n0 del x :\n0 recv 1 1\n0 recv 2 1\n0 read : b a\n";

/// Six replicas, of which four saw the next two of a ring of elements.
const RING_OF_FOUR: &str =
    "trace 1\nreplicas 6\n0 ins a 0 : a\n1 ins b 0 : b\n2 recv 0 1\n2 recv 1 1\n2 read : a b\n3 recv 1 1\n3 ins c 1 : b c\n4 recv 3 1\n4 del b : c\n4 ins d 1 : c d\n5 recv 4 2\n5 del c : d\n5 recv 0 1\n5 read : d a\n";
