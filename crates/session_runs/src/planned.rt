//! What a recorder plans to record: inserts, reads and receipts, each of which can be told from all others.
use events::{Body, Memory, Name, OpName, Response};
use std::alloc::Global;

/// How many replicas a session has.
pub const REPLICAS: u32 = 4;

/// How many entries each of them plans.
pub const PLANNED: u32 = 64;

/// A letter for the replica, and two digits for the number.
fn name_of(replica: u32, n: u32) -> Option<Name> {
    let letter = b'a'.wrapping_add((replica % 10) as u8);
    let tens = b'0'.wrapping_add((n / 10 % 10) as u8);
    let ones = b'0'.wrapping_add((n % 10) as u8);
    Name::new(&[letter, tens, ones]).ok()
}

/// The names of the replica's entries before this one, from the first, at most six; and its own.
fn response_of(alloc: Global, replica: u32, n: u32) -> Result<Response, Memory> {
    let mut response = Response::new(alloc);
    for i in 0..n % 7 {
        if let Some(name) = name_of(replica, i) {
            response.push(name)?;
        }
    }
    if let Some(name) = name_of(replica, n) {
        response.push(name)?;
    }
    Ok(response)
}

/// The replica of whose operations this one plans receipts.
fn other(replica: u32) -> u32 {
    replica.wrapping_add(1) % REPLICAS
}

/// The operation of the other replica that an entry receives.
fn received(n: u32) -> u32 {
    n / 4 + 1
}

/// A replica's planned entry of this number.
pub fn planned(alloc: Global, replica: u32, n: u32) -> Result<Option<Body>, Memory> {
    if n % 4 == 3 {
        let Some(seen) = OpName::new(other(replica), received(n)) else {
            return Ok(None);
        };
        return Ok(Some(Body::Recv { seen }));
    }
    let response = response_of(alloc, replica, n)?;
    if n % 4 == 2 {
        return Ok(Some(Body::Read { response }));
    }
    let Some(name) = name_of(replica, n) else {
        return Ok(None);
    };
    Ok(Some(Body::Ins {
        name,
        at: n,
        response,
    }))
}

/// Whether this is the name.
fn is_name(name: Option<Name>, replica: u32, n: u32) -> bool {
    match (name, name_of(replica, n)) {
        (Some(name), Some(wanted)) => name == wanted,
        _ => false,
    }
}

/// Whether this is the response of the replica's planned entry of this number.
fn is_response(response: &Response, replica: u32, n: u32) -> bool {
    let before = n % 7;
    for i in 0..before {
        if !is_name(response.get(i as usize), replica, i) {
            return false;
        }
    }
    is_name(response.get(before as usize), replica, n) && response.len() == before as usize + 1
}

/// Whether this is the replica's planned entry of this number: its kind, its name and all that goes with it.
pub fn is_planned(body: &Body, replica: u32, n: u32) -> bool {
    match body {
        Body::Ins { name, at, response } => {
            n % 4 < 2
                && is_name(Some(*name), replica, n)
                && *at == n
                && is_response(response, replica, n)
        }
        Body::Read { response } => n % 4 == 2 && is_response(response, replica, n),
        Body::Recv { seen } => {
            n % 4 == 3 && seen.replica == other(replica) && seen.n == received(n)
        }
        _ => false,
    }
}
