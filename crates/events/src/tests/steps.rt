//! Recordings that replicas make, one step after the other.

use super::{name, opened, recorded, response};
use crate::{Body, Entry, Memory, Name, OpName, Recording, Refusal, Response};
use std::alloc::Global;

/// The answer, with the refusal alone where the entry came back.
fn answer(recording: &mut Recording, replica: u32, body: Body) -> Result<u32, Refusal> {
    match recorded(recording, Entry { replica, body }) {
        Ok(count) => Ok(count),
        Err(refused) => Err(refused.why),
    }
}

/// The answer to a read of this name so many times.
pub fn read(
    recording: &mut Recording,
    alloc: Global,
    replica: u32,
    name: Name,
    count: u32,
) -> Result<u32, Refusal> {
    match response(alloc, name, count) {
        Ok(response) => answer(recording, replica, Body::Read { response }),
        Err(Memory) => Err(Refusal::Memory),
    }
}

/// The answer to an insert at the front, where nothing is shown.
fn insert(
    recording: &mut Recording,
    alloc: Global,
    replica: u32,
    name: Name,
) -> Result<u32, Refusal> {
    let body = Body::Ins {
        name,
        at: 0,
        response: Response::new(alloc),
    };
    answer(recording, replica, body)
}

/// The answer to a receipt; none where what is received is no name of an operation.
pub fn receive(
    recording: &mut Recording,
    replica: u32,
    of: u32,
    n: u32,
) -> Option<Result<u32, Refusal>> {
    let seen = OpName::new(of, n)?;
    Some(answer(recording, replica, Body::Recv { seen }))
}

/// What a replica does.
#[derive(Clone, Copy)]
pub enum Act {
    Insert,
    /// The read of a response with so many names.
    Read(u32),
    /// The receipt of an operation.
    Receive(u32, u32),
}

/// A replica, what it does so many times in turn, and the reply to the first time. Where that is a count,
/// each later one is one more.
#[derive(Clone, Copy)]
pub struct Step(pub u32, pub Act, pub u32, pub Result<u32, Refusal>);

/// The answer to what a replica does; none where what is received is no name of an operation.
fn reply(
    recording: &mut Recording,
    alloc: Global,
    a: Name,
    replica: u32,
    act: Act,
) -> Option<Result<u32, Refusal>> {
    match act {
        Act::Insert => Some(insert(recording, alloc, replica, a)),
        Act::Read(names) => Some(read(recording, alloc, replica, a, names)),
        Act::Receive(of, n) => receive(recording, replica, of, n),
    }
}

/// Whether a step has its replies.
fn has_replies(recording: &mut Recording, alloc: Global, a: Name, step: Step) -> bool {
    let Step(replica, act, times, first) = step;
    for i in 0..times {
        let wanted = match first {
            Ok(count) => Ok(count.saturating_add(i)),
            refused => refused,
        };
        if reply(recording, alloc, a, replica, act) != Some(wanted) {
            return false;
        }
    }
    true
}

/// The recording of this many replicas that one step after the other makes; none where one has other replies.
pub fn made(alloc: Global, replicas: u32, steps: &[Step]) -> Option<Recording> {
    let a = name("a").ok()?;
    let mut recording = opened(alloc, replicas).ok()?;
    for step in steps {
        if !has_replies(&mut recording, alloc, a, *step) {
            return None;
        }
    }
    Some(recording)
}

/// Whether such steps have their replies, and make this many entries.
pub fn are_replies(alloc: Global, replicas: u32, steps: &[Step], entries: u32) -> bool {
    match made(alloc, replicas, steps) {
        Some(recording) => recording.len() == entries,
        None => false,
    }
}
