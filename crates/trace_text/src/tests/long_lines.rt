//! Lines that are longer than what is kept of them.

ghost use Rattle.std.specs.Prelude.{◌<◌};

use super::{Pieces, fed, has_fault, is_recording};
use crate::Cause;
use events::{Memory, Refusal};
use std::alloc::Global;
use std::test::Fail;

/// A name of as many bytes as a name may have, after a space.
const LONGEST_NAME: &[u8] = b" abcdefghijklmnopqrstuvwxyz_01234";

const LONG: Cause = Cause::Refused(Refusal::LongResponse);

const NO_REPLICA: Cause = Cause::Refused(Refusal::NoReplica);

/// What stands before and after 4,110 such names, the number of their line, and what is wrong with it.
const LONG_LINES: &[(&str, &str, u32, Cause)] = &[
    ("trace 1", "\n", 1, Cause::Header),
    ("trace 2", "\n", 1, Cause::Header),
    ("", "\n", 1, Cause::Header),
    ("trace 1", "", 1, Cause::Cut),
    ("trace 1\nreplicas 2", "\n", 2, Cause::Replicas),
    ("trace 2\nreplicas 2", "\n", 2, Cause::Replicas),
    ("trace 1\nreplicas 2", " ", 2, Cause::Cut),
    ("trace 1\nreplicas 2\n0 read :", "\n", 3, LONG),
    ("trace 2\nreplicas 2\n0 read :", "\n", 3, LONG),
    ("trace 2\nreplicas 2\n0 view :", "\n", 3, LONG),
    ("trace 1\nreplicas 2\n0 view :", "\n", 3, Cause::Shape),
    ("trace 1\nreplicas 2\n0 read :", " q\n1 read\n", 3, LONG),
    ("trace 2\nreplicas 2\n0 view :", " q\n1 view\n", 3, LONG),
    (
        "trace 1\nreplicas 2\n0 ins a 0 : a\n1 ins b 0 :",
        "\n",
        4,
        LONG,
    ),
    ("trace 1\nreplicas 2\n2 del a :", "\n", 3, NO_REPLICA),
    ("trace 2\nreplicas 2\n2 view :", "\n", 3, NO_REPLICA),
    ("trace 1\nreplicas 2\n2 view :", "\n", 3, Cause::Shape),
    ("trace 1\nreplicas 2\n2 del a :", " q!\n", 3, Cause::Shape),
    ("trace 1\nreplicas 2\n0 read :", " q!\n", 3, Cause::Shape),
    ("trace 2\nreplicas 2\n0 view :", " q!\n", 3, Cause::Shape),
    ("trace 1\nreplicas 2\n0 read :", " q! q\n", 3, Cause::Shape),
    ("trace 1\nreplicas 2\n0 read :", " \n", 3, Cause::Shape),
    ("trace 1\nreplicas 2\n0 read :", "  q\n", 3, Cause::Shape),
    ("trace 2\nreplicas 2\n0 view :", "  q\n", 3, Cause::Shape),
    ("trace 1\nreplicas 2\n0 read :", "5\n", 3, Cause::Shape),
    ("trace 1\nreplicas 2\n0 read :", "5 q\n", 3, Cause::Shape),
    ("trace 1\nreplicas 2\n0 read :", "5 q", 3, Cause::Cut),
    ("trace 2\nreplicas 2\n0 view :", "5 q", 3, Cause::Cut),
    ("trace 1\nreplicas 2\n0 read", "\n", 3, Cause::Shape),
    ("trace 2\nreplicas 2\n0 view", "\n", 3, Cause::Shape),
    ("trace 1\nreplicas 2\n0 recv 1 1", "\n", 3, Cause::Shape),
];

/// The text with the long line.
fn long_line(alloc: Global, front: &str, back: &str) -> Result<Vec<u8>, Memory> {
    let names = Pieces {
        front: b"",
        piece: LONGEST_NAME,
        count: 274,
        back: b"",
    };
    let piece = names.join(alloc)?;
    let whole = Pieces {
        front: front.as_bytes(),
        piece: &piece,
        count: 15,
        back: back.as_bytes(),
    };
    whole.join(alloc)
}

/// What stands before the names of the first long line that is not answered with its fault, in pieces of so
/// many bytes; none where all are.
fn first_wrong_long_line(alloc: Global, size: usize) -> Result<Option<&'static str>, Memory>
    requires { 0 < size }
{
    for (front, back, line, cause) in LONG_LINES {
        let text = long_line(alloc, front, back)?;
        if !has_fault(fed(alloc, &text, size), *line, *cause) {
            return Ok(Some(*front));
        }
    }
    Ok(None)
}

#[test]
fn long_lines_in_small_pieces(rt: HostRuntime) -> Result<(), Fail> {
    assert_eq!(rt; first_wrong_long_line(rt.alloc(), 37)?, None);
    Ok(())
}

#[test]
fn long_lines_in_large_pieces(rt: HostRuntime) -> Result<(), Fail> {
    assert_eq!(rt; first_wrong_long_line(rt.alloc(), 65536)?, None);
    Ok(())
}

#[test]
fn long_lines_at_once(rt: HostRuntime) -> Result<(), Fail> {
    assert_eq!(rt; first_wrong_long_line(rt.alloc(), 262144)?, None);
    Ok(())
}

/// What stands before the names of the longest right line of each version.
const LONGEST: [&str; 2] = [
    "trace 1\nreplicas 16\n15 ins abcdefghijklmnopqrstuvwxyz_56789 4294967295 :",
    "trace 2\nreplicas 16\n15 view :\n15 ins abcdefghijklmnopqrstuvwxyz_56789 4294967295 :",
];

#[test]
fn the_longest_right_line_in_pieces(rt: HostRuntime) -> Result<(), Fail> {
    for front in LONGEST {
        let whole = Pieces {
            front: front.as_bytes(),
            piece: LONGEST_NAME,
            count: 4096,
            back: b"\n",
        };
        let text = whole.join(rt.alloc())?;
        for size in [37, 101, 4096, 65536, 131072] {
            let said = fed(rt.alloc(), &text, size);
            assert!(rt;
                is_recording(rt.alloc(), said, &text)?,
                "in pieces of {size}"
            );
        }
    }
    Ok(())
}

#[test]
fn a_right_line_of_1700_bytes_in_pieces_of_each_size(rt: HostRuntime) -> Result<(), Fail> {
    for front in LONGEST {
        let whole = Pieces {
            front: front.as_bytes(),
            piece: LONGEST_NAME,
            count: 50,
            back: b"\n",
        };
        let text = whole.join(rt.alloc())?;
        for size in 1..text.len() + 1 {
            let said = fed(rt.alloc(), &text, size);
            assert!(rt;
                is_recording(rt.alloc(), said, &text)?,
                "in pieces of {size}"
            );
        }
    }
    Ok(())
}
