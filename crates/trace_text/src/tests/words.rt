//! The words of faults.

use crate::{Cause, LineFault};
use events::Refusal;
use std::alloc::{AllocError, Global};
use std::fmt::Display;
use std::test::Fail;

/// The text; where the first call finds no memory, what the second gives.
fn text_of<T: Display>(alloc: Global, value: &T) -> Result<String, AllocError> {
    match value.to_string(alloc) {
        Err(_) => value.to_string(alloc),
        text => text,
    }
}

/// The first of these words that its cause is not said in; none where each is.
fn first_unsaid(
    alloc: Global,
    rows: &[(Cause, &'static str)],
) -> Result<Option<&'static str>, AllocError> {
    for (cause, words) in rows {
        if text_of(alloc, cause)?.as_str() != *words {
            return Ok(Some(*words));
        }
    }
    Ok(None)
}

const WORDS: &[(Cause, &str)] = &[
    (Cause::Header, "header"),
    (Cause::Replicas, "replicas"),
    (Cause::Shape, "shape"),
    (Cause::Cut, "cut"),
    (Cause::Refused(Refusal::NoReplica), "no such replica"),
    (Cause::Refused(Refusal::OwnReceipt), "own receipt"),
    (
        Cause::Refused(Refusal::NotYet { have: 1 }),
        "not yet, have 1",
    ),
    (Cause::Refused(Refusal::EntriesFull), "entries full"),
    (Cause::Refused(Refusal::InsertsFull), "inserts full"),
    (Cause::Refused(Refusal::LongResponse), "long response"),
    (Cause::Refused(Refusal::PlacesFull), "places full"),
    (Cause::Refused(Refusal::Memory), "memory"),
];

#[test]
fn words_of_the_faults(rt: HostRuntime) -> Result<(), Fail> {
    assert_eq!(rt; first_unsaid(rt.alloc(), WORDS)?, None);
    Ok(())
}

#[test]
fn words_of_a_line_with_its_fault(rt: HostRuntime) -> Result<(), Fail> {
    let fault = LineFault {
        line: 4,
        cause: Cause::Refused(Refusal::NotYet { have: 1 }),
    };
    assert_eq!(rt;
        text_of(rt.alloc(), &fault)?.as_str(),
        "line 4: not yet, have 1"
    );
    Ok(())
}
