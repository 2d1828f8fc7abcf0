//! The first faulty line of a text.

use super::{first_wrong, has_fault, joined, reading};
use crate::Cause;
use events::{Memory, Refusal};
use std::alloc::Global;
use std::test::Fail;

/// Texts, the first faulty line of each, and what is wrong with it.
pub const FIRST_TWO_LINES: &[(&str, u32, Cause)] = &[
    ("", 1, Cause::Header),
    ("\n", 1, Cause::Header),
    ("trace 1", 1, Cause::Cut),
    ("trace 2", 1, Cause::Cut),
    ("tra", 1, Cause::Cut),
    ("cert 1\nreplicas 1\n", 1, Cause::Header),
    ("trace 0\nreplicas 1\n", 1, Cause::Header),
    ("trace 3\nreplicas 1\n", 1, Cause::Header),
    ("trace 02\nreplicas 1\n", 1, Cause::Header),
    ("trace 12\nreplicas 1\n", 1, Cause::Header),
    ("trace\nreplicas 1\n", 1, Cause::Header),
    ("trace 1 \nreplicas 1\n", 1, Cause::Header),
    ("trace 2 \nreplicas 1\n", 1, Cause::Header),
    ("trace 1\r\nreplicas 1\r\n", 1, Cause::Header),
    ("trace 1\n", 2, Cause::Replicas),
    ("trace 2\n", 2, Cause::Replicas),
    ("trace 1\n\n", 2, Cause::Replicas),
    ("trace 2\ntrace 2\n", 2, Cause::Replicas),
    ("trace 1\nreplicas 0\n", 2, Cause::Replicas),
    ("trace 2\nreplicas 0\n", 2, Cause::Replicas),
    ("trace 1\nreplicas 17\n", 2, Cause::Replicas),
    ("trace 2\nreplicas 17\n", 2, Cause::Replicas),
    ("trace 1\nreplicas 01\n", 2, Cause::Replicas),
    ("trace 1\nreplicas  1\n", 2, Cause::Replicas),
    ("trace 1\nreplicas 1 \n", 2, Cause::Replicas),
    ("trace 1\nreplicas\n", 2, Cause::Replicas),
    ("trace 1\nreplicas 4294967297\n", 2, Cause::Replicas),
    ("trace 1\nreplicas 1", 2, Cause::Cut),
    ("trace 2\nreplicas 1", 2, Cause::Cut),
];

#[test]
fn the_first_two_lines(rt: HostRuntime) -> Result<(), Fail> {
    assert_eq!(rt; first_wrong(rt.alloc(), b"", FIRST_TWO_LINES)?, None);
    Ok(())
}

/// What is wrong with a malformed third line.
fn shape_or_cut(entry: &str) -> Cause {
    if entry.ends_with('\n') {
        Cause::Shape
    } else {
        Cause::Cut
    }
}

/// The first of these third lines that has not its fault after these two lines; none where all have.
fn first_well_formed(
    alloc: Global,
    head: &[u8],
    entries: &[&'static str],
) -> Result<Option<&'static str>, Memory> {
    for entry in entries {
        let text = joined(alloc, head, entry.as_bytes())?;
        if !has_fault(reading(alloc, &text), 3, shape_or_cut(entry)) {
            return Ok(Some(*entry));
        }
    }
    Ok(None)
}

/// Third lines that spell no entry in either version, or are cut.
const MALFORMED: &[&str] = &[
    "0 read :",
    "\n",
    " \n",
    "0\n",
    "0 \n",
    "0  read :\n",
    "01 read :\n",
    "+0 read :\n",
    "-1 read :\n",
    "0 read : \n",
    "0 read :  a\n",
    "0 read :a\n",
    "0 read: a\n",
    "0 read\n",
    "0 Read :\n",
    " 0 read :\n",
    "0 read :\r\n",
    "0\tread :\n",
    "0 view :",
    "0 view\n",
    "0 view \n",
    "0 view : \n",
    "0 view :  a\n",
    "0 view :a\n",
    "0 view a\n",
    "0 view: a\n",
    "0 views :\n",
    "0 View :\n",
    "00 view :\n",
    "view :\n",
    "4294967296 view :\n",
    "0 recv 0\n",
    "0 recv 1 0\n",
    "0 recv 1 01\n",
    "0 recv 1 1 \n",
    "0 recv 1 1 1\n",
    "0 recv 1.1\n",
    "0 ins a : a\n",
    "0 ins a 00 : a\n",
    "0 ins a 4294967296 : a\n",
    "0 ins a 99999999999999999999 : a\n",
    "0 ins  0 : a\n",
    "0 ins a/b 0 : a\n",
    "0 ins \u{e9} 0 :\n",
    "0 del nnnnnnnnnnnnnnnnnnnnnnnnnnnnnnnnn : a\n",
    "0 del : a\n",
    "4294967296 read :\n",
    // What `record` would refuse too.
    "9 read : a  b\n",
    "9 view : a  b\n",
];

#[test]
fn malformed_entries(rt: HostRuntime) -> Result<(), Fail> {
    for head in ["trace 1\nreplicas 1\n", "trace 2\nreplicas 1\n"] {
        assert_eq!(rt;
            first_well_formed(rt.alloc(), head.as_bytes(), MALFORMED)?,
            None
        );
    }
    Ok(())
}

#[test]
fn a_byte_outside_of_names(rt: HostRuntime) {
    let bytes = b"trace 1\nreplicas 1\n0 read : \xff\n";
    assert!(rt; has_fault(reading(rt.alloc(), bytes.as_slice()), 3, Cause::Shape));
}

const NO_REPLICA: Cause = Cause::Refused(Refusal::NoReplica);

const OWN_RECEIPT: Cause = Cause::Refused(Refusal::OwnReceipt);

const NOT_ONE_YET: Cause = Cause::Refused(Refusal::NotYet { have: 0 });

const NOT_TWO_YET: Cause = Cause::Refused(Refusal::NotYet { have: 1 });

/// Lines after three, with the line of the fault and what is wrong with it.
pub const REFUSED: &[(&str, u32, Cause)] = &[
    ("0 read  : a\n0 read", 4, Cause::Shape),
    ("rubbish", 4, Cause::Cut),
    ("2 read :\n", 4, NO_REPLICA),
    ("16 read :\n", 4, NO_REPLICA),
    ("4294967295 read :\n", 4, NO_REPLICA),
    ("1 recv 2 1\n", 4, NO_REPLICA),
    ("2 recv 2 1\n", 4, NO_REPLICA),
    ("0 recv 0 1\n", 4, OWN_RECEIPT),
    ("0 recv 0 7\n", 4, OWN_RECEIPT),
    ("0 recv 1 1\n", 4, NOT_ONE_YET),
    ("1 recv 0 2\n", 4, NOT_TWO_YET),
    ("1 recv 0 4294967295\n", 4, NOT_TWO_YET),
];

#[test]
fn refused_entries(rt: HostRuntime) -> Result<(), Fail> {
    for front in [
        b"trace 1\nreplicas 2\n0 ins a 0 : a\n".as_slice(),
        b"trace 2\nreplicas 2\n0 ins a 0 : a\n",
    ] {
        assert_eq!(rt; first_wrong(rt.alloc(), front, REFUSED)?, None);
    }
    Ok(())
}

/// Texts with views that the recording refuses: a view is an operation.
pub const REFUSED_VIEWS: &[(&str, u32, Cause)] = &[
    ("2 view :\n", 4, NO_REPLICA),
    ("4294967295 view : a\n", 4, NO_REPLICA),
    (
        "0 view : a\n1 recv 0 3\n",
        5,
        Cause::Refused(Refusal::NotYet { have: 2 }),
    ),
    (
        "1 view :\n0 recv 1 2\n",
        5,
        Cause::Refused(Refusal::NotYet { have: 1 }),
    ),
];

#[test]
fn refused_views(rt: HostRuntime) -> Result<(), Fail> {
    let front = b"trace 2\nreplicas 2\n0 ins a 0 : a\n";
    assert_eq!(rt; first_wrong(rt.alloc(), front, REFUSED_VIEWS)?, None);
    Ok(())
}
