//! Tests of names, responses and recordings. A call that finds no memory is made again.

mod copies;
mod names;
mod operations;
mod recordings;
mod responses;
mod runs;
mod steps;
mod words;

use super::{
    Entry, Memory, Name, NameFault, NewFault, PushFault, Recording, Refusal, Refused, Response,
};
use std::alloc::Global;

/// The name; the bytes are those of a name wherever it is called.
fn name(text: &str) -> Result<Name, NameFault> {
    Name::new(text.as_bytes())
}

/// Adds the name. Where memory is wanted nothing is lost: the push is tried again.
fn pushed(made: &mut Response, name: Name) -> Result<(), Memory> {
    match made.push(name) {
        Err(Memory) => made.push(name),
        Ok(()) => Ok(()),
    }
}

/// A response of one name, so many times.
fn response(alloc: Global, name: Name, count: u32) -> Result<Response, Memory> {
    let mut made = Response::new(alloc);
    for _ in 0..count {
        pushed(&mut made, name)?;
    }
    Ok(made)
}

/// A recording; where the first call finds no memory, what the second says.
fn opened(alloc: Global, replicas: u32) -> Result<Recording, NewFault> {
    match Recording::new(alloc, replicas) {
        Err(NewFault::Memory) => Recording::new(alloc, replicas),
        answer => answer,
    }
}

/// What `record` says; where it finds no memory, the entry is handed back and tried again.
fn recorded(recording: &mut Recording, entry: Entry) -> Result<u32, Refused> {
    match recording.record(entry) {
        Err(Refused { why, entry }) => match why {
            Refusal::Memory => recording.record(entry),
            why => Err(Refused { why, entry }),
        },
        Ok(count) => Ok(count),
    }
}

/// Whether the response has the name at this place.
fn has_at(response: &Response, place: usize, text: &str) -> bool {
    match name(text) {
        Ok(name) => response.get(place) == Some(name),
        Err(_) => false,
    }
}

/// Puts bytes at the end; where the first call finds no memory, the second is to.
fn put(made: &mut Response, bytes: &[u8]) -> Result<(), PushFault> {
    match made.push_bytes(bytes) {
        Err(PushFault::Memory) => made.push_bytes(bytes),
        answer => answer,
    }
}

/// A response of these names.
fn of_names(alloc: Global, names: &[&str]) -> Option<Response> {
    let mut made = Response::new(alloc);
    for name in names {
        put(&mut made, name.as_bytes()).ok()?;
    }
    Some(made)
}

/// More bytes than are compared at once.
const LONG_NAMES: &[&str] = &[
    "sixteen_letters0",
    "sixteen_letters1",
    "sixteen_letters2",
    "x",
];

const OTHER_LONG_NAMES: &[&str] = &[
    "sixteen_letters0",
    "sixteen_letters1",
    "sixteen_letters2",
    "y",
];
