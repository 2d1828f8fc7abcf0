//! Entries that are taken, refused, handed back, counted and found.

use super::steps::{Act, Step, are_replies, made};
use super::{name, opened, recorded, response};
use crate::{Body, Entry, Name, NewFault, OpName, Recording, Refusal, Refused};
use std::alloc::Global;

/// Whether a recording is opened with so many replicas and no entry.
fn is_opened(alloc: Global, replicas: u32) -> bool {
    match opened(alloc, replicas) {
        Ok(recording) => recording.replicas() == replicas && recording.len() == 0,
        Err(_) => false,
    }
}

/// Whether recordings are refused where they have no replica or more than sixteen.
fn refuses_other_counts(alloc: Global) -> bool {
    opened(alloc, 0).err() == Some(NewFault::NoReplicas)
        && opened(alloc, 17).err() == Some(NewFault::ManyReplicas)
        && opened(alloc, 4294967295).err() == Some(NewFault::ManyReplicas)
}

#[test]
fn a_recording_has_one_to_sixteen_replicas(rt: HostRuntime) {
    assert!(rt; refuses_other_counts(rt.alloc()));
    assert!(rt; is_opened(rt.alloc(), 16));
}

/// Receipts too early, of one's own, and repeated.
static RECEIPTS: [Step; 8] = [
    Step(0, Act::Insert, 1, Ok(1)),
    Step(1, Act::Receive(0, 2), 1, Err(Refusal::NotYet { have: 1 })),
    Step(0, Act::Receive(0, 1), 1, Err(Refusal::OwnReceipt)),
    Step(1, Act::Receive(1, 9), 1, Err(Refusal::OwnReceipt)),
    Step(0, Act::Receive(2, 1), 1, Err(Refusal::NoReplica)),
    Step(1, Act::Receive(0, 1), 1, Ok(1)),
    Step(1, Act::Receive(0, 1), 1, Ok(2)),
    Step(2, Act::Insert, 1, Err(Refusal::NoReplica)),
];

/// A replica has at most 4,096 inserts.
static INSERTS: [Step; 4] = [
    Step(0, Act::Insert, 4096, Ok(1)),
    Step(0, Act::Insert, 1, Err(Refusal::InsertsFull)),
    Step(0, Act::Read(0), 1, Ok(4097)),
    Step(1, Act::Insert, 1, Ok(1)),
];

/// A replica has at most 16,384 entries. That they are full comes before a response that is too long.
static ENTRIES: [Step; 4] = [
    Step(1, Act::Read(0), 16384, Ok(1)),
    Step(1, Act::Read(0), 1, Err(Refusal::EntriesFull)),
    Step(1, Act::Read(4097), 1, Err(Refusal::EntriesFull)),
    Step(0, Act::Read(0), 1, Ok(1)),
];

/// A response has at most 4,096 names, and those of a replica have at most 262,144 together.
static PLACES: [Step; 4] = [
    Step(0, Act::Read(4097), 1, Err(Refusal::LongResponse)),
    Step(0, Act::Read(4096), 64, Ok(1)),
    Step(0, Act::Read(1), 1, Err(Refusal::PlacesFull)),
    Step(0, Act::Read(0), 1, Ok(65)),
];

#[test]
fn entries_are_taken_or_refused(rt: HostRuntime) {
    let rows = [
        ("receipts", 2, RECEIPTS.as_slice(), 3),
        ("inserts", 2, INSERTS.as_slice(), 4098),
        ("entries", 2, ENTRIES.as_slice(), 16385),
        ("places", 1, PLACES.as_slice(), 65),
    ];
    for (title, replicas, steps, entries) in rows {
        assert!(rt;
            are_replies(rt.alloc(), replicas, steps, entries),
            "{title}"
        );
    }
}

/// An insert, its receipt at the other replica, and a read there.
static INSERTED_AND_READ: [Step; 3] = [
    Step(0, Act::Insert, 1, Ok(1)),
    Step(1, Act::Receive(0, 1), 1, Ok(1)),
    Step(1, Act::Read(1), 1, Ok(2)),
];

/// Whether the replica has so many entries and operations.
fn has_counts(recording: &Recording, replica: u32, entries: u32, operations: u32) -> bool {
    recording.stream_len(replica) == entries && recording.count(replica) == operations
}

/// Whether the entries and operations of both replicas are counted, and none of a third.
fn counts_all(recording: &Recording) -> bool {
    recording.len() == 3
        && has_counts(recording, 0, 1, 1)
        && has_counts(recording, 1, 2, 1)
        && has_counts(recording, 2, 0, 0)
}

/// Whether the entry is a receipt at this replica.
fn is_receipt_at(entry: Option<&Entry>, replica: u32) -> bool {
    match entry {
        Some(entry) => entry.replica == replica && matches!(entry.body, Body::Recv { .. }),
        None => false,
    }
}

/// Whether the replica's operation with this number is a read; none where there is no such operation.
fn is_read(recording: &Recording, replica: u32, n: u32) -> Option<bool> {
    let body = recording.operation(OpName::new(replica, n)?)?;
    Some(matches!(body, Body::Read { .. }))
}

/// Whether the entries of a replica are found, and none past the last.
fn finds_entries(recording: &Recording) -> bool {
    is_receipt_at(recording.entry(1), 1)
        && recording.entry(3).is_none()
        && matches!(recording.stream(1, 1), Some(Body::Read { .. }))
        && recording.stream(1, 2).is_none()
        && recording.stream(2, 0).is_none()
}

/// Whether the operations of a replica are found, and none past the last.
fn finds_operations(recording: &Recording) -> bool {
    is_read(recording, 1, 1) == Some(true)
        && is_read(recording, 1, 2).is_none()
        && is_read(recording, 2, 1).is_none()
}

#[test]
fn entries_and_operations_are_counted_and_found(rt: HostRuntime) {
    let recording = made(rt.alloc(), 2, INSERTED_AND_READ.as_slice()).expect(&rt, "a recording");
    assert!(rt; counts_all(&recording));
    assert!(rt; finds_entries(&recording) && finds_operations(&recording));
}

/// Whether it is a read of this name three times.
fn holds_thrice(body: &Body, name: Name) -> bool {
    match body {
        Body::Read { response } => response.len() == 3 && response.get(2) == Some(name),
        _ => false,
    }
}

/// Whether replica 7's read of the name three times is refused, and is handed back.
fn hands_back(recording: &mut Recording, body: Body, name: Name) -> bool {
    match recorded(recording, Entry { replica: 7, body }) {
        Ok(_) => false,
        Err(Refused { why, entry }) => {
            why == Refusal::NoReplica && entry.replica == 7 && holds_thrice(&entry.body, name)
        }
    }
}

/// Whether a recording refuses such a read, which comes back as it was handed in, and stays empty.
fn hands_back_and_stays(alloc: Global) -> Option<bool> {
    let kept = name("kept").ok()?;
    let response = response(alloc, kept, 3).ok()?;
    let mut recording = opened(alloc, 1).ok()?;
    Some(hands_back(&mut recording, Body::Read { response }, kept) && recording.len() == 0)
}

#[test]
fn a_refused_entry_is_handed_back(rt: HostRuntime) {
    assert!(rt; hands_back_and_stays(rt.alloc()) == Some(true));
}
