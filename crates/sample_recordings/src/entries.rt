//! Entries put into a recording one by one.

use events::{Body, Entry, Memory, Name, OpName, Recording, Refusal, Response};
use std::alloc::Global;
use std::test::Fail;

/// What a replica did.
#[derive(Clone, Copy)]
pub enum Act {
    Ins(&'static str, u32),
    Del(&'static str),
    Read,
    View,
    Recv(u32, u32),
}

/// A recording with no entry.
pub fn empty(alloc: Global, replicas: u32) -> Result<Recording, Fail> {
    match Recording::new(alloc, replicas) {
        Ok(made) => Ok(made),
        Err(_) => Ok(Recording::new(alloc, replicas)?),
    }
}

/// Puts a name at the end of a response.
pub fn push(response: &mut Response, name: Name) -> Result<(), Memory> {
    match response.push(name) {
        Ok(()) => Ok(()),
        Err(Memory) => response.push(name),
    }
}

/// Adds an entry that the recording does not refuse.
pub fn add(recording: &mut Recording, replica: u32, body: Body) -> Result<(), Refusal> {
    match recording.record(Entry { replica, body }) {
        Ok(_) => Ok(()),
        Err(refused) => match recording.record(refused.entry) {
            Ok(_) => Ok(()),
            Err(refused) => Err(refused.why),
        },
    }
}

/// The body of what was done, with its response.
pub fn body(act: Act, response: Response) -> Result<Body, Fail> {
    match act {
        Act::Ins(text, at) => Ok(Body::Ins {
            name: Name::new(text.as_bytes())?,
            at,
            response,
        }),
        Act::Del(text) => Ok(Body::Del {
            name: Name::new(text.as_bytes())?,
            response,
        }),
        Act::Read => Ok(Body::Read { response }),
        Act::View => Ok(Body::View { response }),
        Act::Recv(replica, n) => Ok(Body::Recv {
            seen: operation(replica, n)?,
        }),
    }
}

/// The name of an operation.
pub fn operation(replica: u32, n: u32) -> Result<OpName, Fail> {
    Ok(OpName::new(replica, n).ok_or("no operation")?)
}

/// The first place of a name in a response.
pub fn place_of(response: &Response, name: Name) -> Option<usize> {
    for i in 0..response.len() {
        if response.get(i) == Some(name) {
            return Some(i);
        }
    }
    None
}
