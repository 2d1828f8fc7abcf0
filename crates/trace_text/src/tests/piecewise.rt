//! A text that comes in pieces.

use super::faults::{FIRST_TWO_LINES, REFUSED, REFUSED_VIEWS};
use super::versions::WITH_VIEWS;
use super::{RING_OF_FOUR, THREE_WAY_CYCLE, again, fed, first_wrong_in_pieces, is_recording};
use crate::{Cause, LineFault, Reader};
use events::{Recording, Refusal};
use std::alloc::Global;
use std::test::Fail;

/// What a reader says of the text, fed in two pieces that are cut at this place.
fn fed_in_two_once(alloc: Global, text: &[u8], at: usize) -> Result<Recording, LineFault> {
    let (front, back) = text.split_at(at.min(text.len()));
    let mut reader = Reader::new(alloc);
    reader.feed(front)?;
    reader.feed(back)?;
    reader.end()
}

/// The same; where the first reader finds no memory, what the second says.
fn fed_in_two(alloc: Global, text: &[u8], at: usize) -> Result<Recording, LineFault> {
    again(|| fed_in_two_once(alloc, text, at))
}

const WINDOWS: &str =
    "trace 2\nreplicas 2\n0 ins a 0 : a\n0 view : a\n1 recv 0 1\n1 view :\n1 ins b 1 : a b\n1 view : b\n0 recv 1 3\n0 view : b\n";

#[test]
fn a_text_in_two_pieces(rt: HostRuntime) -> Result<(), Fail> {
    for whole in [THREE_WAY_CYCLE, WINDOWS] {
        let text = whole.as_bytes();
        for at in 0..text.len() + 1 {
            let said = fed_in_two(rt.alloc(), text, at);
            assert!(rt; is_recording(rt.alloc(), said, text)?, "cut at {at}");
        }
    }
    Ok(())
}

/// The first of these texts that is not read byte by byte; none where all are.
fn first_unread(alloc: Global, texts: &[&'static str]) -> Result<Option<&'static str>, Fail> {
    for text in texts {
        if !is_recording(alloc, fed(alloc, text.as_bytes(), 1), text.as_bytes())? {
            return Ok(Some(*text));
        }
    }
    Ok(None)
}

#[test]
fn texts_byte_by_byte(rt: HostRuntime) -> Result<(), Fail> {
    assert_eq!(rt; first_unread(rt.alloc(), &[RING_OF_FOUR])?, None);
    assert_eq!(rt; first_unread(rt.alloc(), WITH_VIEWS)?, None);
    Ok(())
}

/// What a reader says of one piece, of another after it, and at the end.
fn say(
    alloc: Global,
    piece: &[u8],
    later: &[u8],
) -> (Option<LineFault>, Option<LineFault>, Option<LineFault>) {
    let mut reader = Reader::new(alloc);
    let first = reader.feed(piece).err();
    let second = reader.feed(later).err();
    (first, second, reader.end().err())
}

#[test]
fn a_fault_stays(rt: HostRuntime) {
    let text = b"trace 1\nreplicas 1\n01 read :\n";
    let shape = Some(LineFault {
        line: 3,
        cause: Cause::Shape,
    });
    let lost = Some(LineFault {
        line: 2,
        cause: Cause::Refused(Refusal::Memory),
    });
    for later in [b"0 read :\n".as_slice(), b"", b"\n", b"trace 1\n"] {
        let said = say(rt.alloc(), text, later);
        assert!(rt; said == (shape, shape, shape) || said == (lost, lost, lost));
    }
}

#[test]
fn a_line_without_its_end_has_no_fault_yet(rt: HostRuntime) {
    let cut = Some(LineFault {
        line: 1,
        cause: Cause::Cut,
    });
    let header = Some(LineFault {
        line: 1,
        cause: Cause::Header,
    });
    assert_eq!(rt; say(rt.alloc(), b"rubb", b"ish"), (None, None, cut));
    let lost = Some(LineFault {
        line: 1,
        cause: Cause::Refused(Refusal::Memory),
    });
    let said = say(rt.alloc(), b"rubbish", b"\n");
    assert!(rt; said == (None, header, header) || said == (None, lost, lost));
}

#[test]
fn faults_of_texts_in_pieces(rt: HostRuntime) -> Result<(), Fail> {
    for size in 1..9 {
        for (front, rows) in [
            ("", FIRST_TWO_LINES),
            ("trace 1\nreplicas 2\n0 ins a 0 : a\n", REFUSED),
            ("trace 2\nreplicas 2\n0 ins a 0 : a\n", REFUSED_VIEWS),
        ] {
            let wrong = first_wrong_in_pieces(rt.alloc(), front.as_bytes(), rows, size)?;
            assert_eq!(rt; wrong, None);
        }
    }
    Ok(())
}
