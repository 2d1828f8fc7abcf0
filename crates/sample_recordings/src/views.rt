//! Views: parts of what reads answer.

use super::entries::{add, empty, push};
use super::random::Random;
use events::{Body, Memory, Recording, Response};
use std::alloc::Global;
use std::test::Fail;

/// Some part of a response, in its order.
pub fn part_of(alloc: Global, random: &mut Random, whole: &Response) -> Result<Response, Fail> {
    let mut part = Response::new(alloc);
    for i in 0..whole.len() {
        if let Some(name) = whole.get(i) {
            if random.below(2) == 0 {
                push(&mut part, name)?;
            }
        }
    }
    Ok(part)
}

fn copy_of(alloc: Global, body: &Body) -> Result<Body, Memory> {
    match body.copy(alloc) {
        Ok(copied) => Ok(copied),
        Err(Memory) => body.copy(alloc),
    }
}

/// A recording with a view of some part of the response in the place of each read.
pub fn views_of(
    alloc: Global,
    random: &mut Random,
    recording: &Recording,
) -> Result<Recording, Fail> {
    let mut views = empty(alloc, recording.replicas())?;
    for i in 0..recording.len() {
        if let Some(entry) = recording.entry(i) {
            let body = match &entry.body {
                Body::Read { response } => Body::View {
                    response: part_of(alloc, random, response)?,
                },
                body => copy_of(alloc, body)?,
            };
            add(&mut views, entry.replica, body)?;
        }
    }
    Ok(views)
}
