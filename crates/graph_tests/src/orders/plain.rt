//! A plain, slow program: it tries the permutations of all elements in dictionary order until one follows
//! every response.
use super::answers::push_name;
use events::{Body, Name, OpName, Recording, Response};
use sample_recordings::MOST_ELEMENTS;
use std::alloc::Global;
use std::test::Fail;

/// The name that an operation inserts.
fn inserted(recording: &Recording, replica: u32, n: u32) -> Option<Name> {
    match recording.operation(OpName::new(replica, n)?)? {
        Body::Ins { name, .. } => Some(*name),
        _ => None,
    }
}

/// The elements, in the order of their inserts' operations.
fn elements(alloc: Global, recording: &Recording) -> Result<Vec<Name>, Fail> {
    let mut names = Vec::new(alloc);
    for replica in 0..recording.replicas() {
        for n in 1..=recording.count(replica) {
            if let Some(name) = inserted(recording, replica, n) {
                push_name(&mut names, name)?;
            }
        }
    }
    Ok(names)
}

/// Whether the names of a response stand in an order one after another, others perhaps between them.
fn follows(order: &[Name], response: &Response) -> bool {
    let mut found: usize = 0;
    for name in order {
        if response.get(found) == Some(*name) {
            found = found.saturating_add(1);
        }
    }
    found == response.len()
}

/// Whether an order follows every response of a replica.
fn follows_replica(recording: &Recording, replica: u32, order: &[Name]) -> bool {
    for n in 1..=recording.count(replica) {
        if let Some(name) = OpName::new(replica, n) {
            if let Some(response) = recording.response(name) {
                if !follows(order, response) {
                    return false;
                }
            }
        }
    }
    true
}

/// Whether an order follows every response.
fn follows_all(recording: &Recording, order: &[Name]) -> bool {
    for replica in 0..recording.replicas() {
        if !follows_replica(recording, replica, order) {
            return false;
        }
    }
    true
}

/// The number of the i-th of the elements that are not used yet.
fn unused(used: &[bool; 6], i: usize) -> usize {
    let mut left = i;
    for (x, used) in used.iter().enumerate() {
        if !*used {
            if left == 0 {
                return x;
            }
            left = left.saturating_sub(1);
        }
    }
    MOST_ELEMENTS
}

/// The k-th permutation in dictionary order, of as many as `all`.
fn permutation(alloc: Global, names: &[Name], all: usize, k: usize) -> Result<Vec<Name>, Fail> {
    let mut order = Vec::new(alloc);
    let mut used = [false; 6];
    let mut block = all;
    let mut rest = k;
    for left in 0..names.len() {
        // As many permutations begin with the same names.
        block = block.checked_div(names.len() - left).unwrap_or(1);
        let x = unused(&used, rest.checked_div(block).unwrap_or(0));
        rest = rest.checked_rem(block).unwrap_or(0);
        if let (Some(name), Some(used)) = (names.get(x), used.get_mut(x)) {
            *used = true;
            push_name(&mut order, *name)?;
        }
    }
    Ok(order)
}

/// How many permutations there are of so many elements.
fn permutations(elements: usize) -> usize {
    let mut all: usize = 1;
    for n in 1..=elements {
        all = all.saturating_mul(n);
    }
    all
}

/// The first permutation of all elements, of which there are at most six, that follows every response.
pub fn first_order(alloc: Global, recording: &Recording) -> Result<Option<Vec<Name>>, Fail> {
    let names = elements(alloc, recording)?;
    if names.len() > MOST_ELEMENTS {
        Err("too many elements")?;
    }
    let all = permutations(names.len());
    for k in 0..all {
        let order = permutation(alloc, names.as_slice(), all, k)?;
        if follows_all(recording, order.as_slice()) {
            return Ok(Some(order));
        }
    }
    Ok(None)
}
