//! The words of faults and refusals.

use crate::{Memory, NameFault, NewFault, PushFault, Refusal};
use std::alloc::Global;
use std::fmt::Display;

/// Whether these are the words of an error; where the first call finds no memory, of what the second gives.
fn says<E: Display>(alloc: Global, error: &E, words: &str) -> bool {
    let text = match error.to_string(alloc) {
        Err(_) => error.to_string(alloc),
        text => text,
    };
    match text {
        Ok(text) => text.as_str() == words,
        Err(_) => false,
    }
}

static REFUSALS: [(Refusal, &str); 8] = [
    (Refusal::NoReplica, "no such replica"),
    (Refusal::OwnReceipt, "own receipt"),
    (Refusal::NotYet { have: 1 }, "not yet, have 1"),
    (Refusal::EntriesFull, "entries full"),
    (Refusal::InsertsFull, "inserts full"),
    (Refusal::LongResponse, "long response"),
    (Refusal::PlacesFull, "places full"),
    (Refusal::Memory, "memory"),
];

#[test]
fn refusals_have_their_words(rt: HostRuntime) {
    for (refusal, words) in REFUSALS.iter().copied() {
        assert!(rt; says(rt.alloc(), &refusal, words), "{words}");
    }
}

/// Whether the faults of names have their words.
fn name_faults_say(alloc: Global) -> bool {
    says(alloc, &NameFault::Empty, "empty name")
        && says(alloc, &NameFault::Long, "long name")
        && says(alloc, &NameFault::BadByte { at: 31 }, "bad byte at 31")
}

/// Whether the faults of new recordings have their words.
fn new_faults_say(alloc: Global) -> bool {
    says(alloc, &NewFault::NoReplicas, "no replicas")
        && says(alloc, &NewFault::ManyReplicas, "many replicas")
        && says(alloc, &NewFault::Memory, "memory")
}

/// Whether a want of memory, and what hinders that bytes are put at the end of a response, have their words.
fn push_faults_say(alloc: Global) -> bool {
    says(alloc, &Memory, "memory")
        && says(alloc, &PushFault::Memory, "memory")
        && says(alloc, &PushFault::Name(NameFault::Empty), "empty name")
}

#[test]
fn faults_have_their_words(rt: HostRuntime) {
    assert!(rt; name_faults_say(rt.alloc()));
    assert!(rt; new_faults_say(rt.alloc()));
    assert!(rt; push_faults_say(rt.alloc()));
}
