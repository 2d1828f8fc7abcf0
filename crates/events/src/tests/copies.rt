//! Copies of a recording, and whether an entry would find room in it.

use super::name;
use super::steps::{Act, Step, made, read, receive};
use crate::{Body, Entry, Memory, OpName, Recording, Refusal};
use std::alloc::Global;

/// An insert and a receipt of it, by replicas 0 and 1.
static TWO_ENTRIES: [Step; 2] = [
    Step(0, Act::Insert, 1, Ok(1)),
    Step(1, Act::Receive(0, 1), 1, Ok(1)),
];

/// A copy; where the first call finds no memory, what the second gives.
fn copied(alloc: Global, recording: &Recording) -> Option<Recording> {
    match recording.copy(alloc) {
        Err(Memory) => recording.copy(alloc).ok(),
        Ok(copied) => Some(copied),
    }
}

/// Whether it has the two entries.
fn has_two(recording: &Recording) -> bool {
    recording.len() == 2 && recording.replicas() == 2 && recording.count(0) == 1
}

/// Whether one receipt more is recorded.
fn takes_a_receipt(recording: &mut Recording) -> bool {
    receive(recording, 1, 0, 1).is_some() && recording.stream_len(1) == 2
}

/// Whether a copy has what was copied.
fn copy_is_equal(alloc: Global, recording: &Recording) -> Option<bool> {
    let copy = copied(alloc, recording)?;
    Some(has_two(&copy))
}

/// Whether a copy takes one receipt more.
fn copy_goes_on(alloc: Global, recording: &Recording) -> Option<bool> {
    let mut copy = copied(alloc, recording)?;
    Some(takes_a_receipt(&mut copy))
}

#[test]
fn copies_are_equal_and_go_on_alone(rt: HostRuntime) {
    let alloc = rt.alloc();
    let recording = made(alloc, 2, TWO_ENTRIES.as_slice()).expect(&rt, "a recording");
    assert!(rt; copy_is_equal(alloc, &recording) == Some(true));
    assert!(rt; copy_goes_on(alloc, &recording) == Some(true) && has_two(&recording));
}

/// What is answered to a receipt by this replica of the second operation of replica 0.
fn room_for(recording: &Recording, replica: u32) -> Option<Result<(), Refusal>> {
    let seen = OpName::new(0, 2)?;
    let body = Body::Recv { seen };
    let entry = Entry { replica, body };
    Some(recording.room(&entry))
}

/// Whether receipts find no room for what is wrong with them.
fn tells_of_room(recording: &Recording) -> bool {
    room_for(recording, 1) == Some(Err(Refusal::NotYet { have: 1 }))
        && room_for(recording, 0) == Some(Err(Refusal::OwnReceipt))
}

#[test]
fn room_changes_nothing(rt: HostRuntime) {
    let recording = made(rt.alloc(), 2, TWO_ENTRIES.as_slice()).expect(&rt, "a recording");
    assert!(rt; tells_of_room(&recording) && has_two(&recording));
}

/// As many names as one replica's responses may have.
static FULL: [Step; 1] = [Step(0, Act::Read(4096), 64, Ok(1))];

/// The answer to a read of so many names that comes to a copy.
fn read_by_copy(alloc: Global, recording: &Recording, names: u32) -> Option<Result<u32, Refusal>> {
    let mut copy = copied(alloc, recording)?;
    Some(read(&mut copy, alloc, 0, name("a").ok()?, names))
}

/// Whether the copy of a full recording is full.
fn copy_is_full(alloc: Global, recording: &Recording) -> bool {
    read_by_copy(alloc, recording, 1) == Some(Err(Refusal::PlacesFull))
        && read_by_copy(alloc, recording, 0) == Some(Ok(65))
}

#[test]
fn a_full_recording_is_copied(rt: HostRuntime) {
    let recording = made(rt.alloc(), 1, FULL.as_slice()).expect(&rt, "a recording");
    assert!(rt; copy_is_full(rt.alloc(), &recording));
}
