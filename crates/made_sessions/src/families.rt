//! Kinds of sessions: what their editors do, and what is wrong with them.

use super::elements::{GAP, Moved};
use super::session::Session;
use super::shape::Shape;
use anyhow::{Result, anyhow};
use std::alloc::Global;
use std::mem;

/// The numbers of all replicas that are of this group, of so many groups.
fn group_of(alloc: Global, shape: &Shape, group: usize) -> Result<Vec<usize>> {
    let mut members = Vec::new(alloc);
    for r in 0..shape.replicas {
        if r % shape.groups.max(1) == group {
            members.push(r)?;
        }
    }
    Ok(members)
}

/// The numbers of all replicas.
fn all_of(alloc: Global, shape: &Shape) -> Result<Vec<usize>> {
    group_of(
        alloc,
        &Shape {
            groups: 1,
            ..*shape
        },
        0,
    )
}

/// The trace of a session.
fn trace_of(alloc: Global, session: &mut Session) -> Vec<u8> {
    mem::replace(&mut session.text, Vec::new(alloc))
}

/// All edit together, and nothing is wrong.
pub fn accepted(alloc: Global, shape: Shape, seed: u64) -> Result<Vec<u8>> {
    let mut session = Session::new(alloc, shape, seed)?;
    let all = all_of(alloc, &shape)?;
    session.edit(&all, 0, 0, 0)?;
    Ok(trace_of(alloc, &mut session))
}

/// All edit together; behind nine tenths of the session one reads a list that lacks its last name, and all go
/// on.
pub fn lacking(alloc: Global, shape: Shape, seed: u64) -> Result<Vec<u8>> {
    let mut session = Session::new(alloc, shape, seed)?;
    let all = all_of(alloc, &shape)?;
    session.edit(
        &all,
        shape.entries / 10,
        shape.inserts / 10,
        shape.places / 10,
    )?;
    let r = session.random.below(shape.replicas);
    session.insert(r)?;
    let count = session.replica(r)?.ranks.len();
    session.read_to(r, count.saturating_sub(1))?;
    session.edit(&all, 0, 0, 0)?;
    Ok(trace_of(alloc, &mut session))
}

/// Each first types alone as long as a quarter of its places lasts; then all hear of all, and read and delete
/// in long lists.
pub fn long_responses(alloc: Global, shape: Shape, seed: u64) -> Result<Vec<u8>> {
    let mut session = Session::new(alloc, shape, seed)?;
    let all = all_of(alloc, &shape)?;
    type_alone(&mut session, &all)?;
    session.sync(&all)?;
    for _ in 0..1000 {
        let mut is_going_on = false;
        for r in &all {
            if session.has_room(*r)? {
                is_going_on = true;
                edit_long(&mut session, *r)?;
            }
        }
        if !is_going_on {
            break;
        }
    }
    Ok(trace_of(alloc, &mut session))
}

/// Each of these types alone as long as a quarter of its places lasts.
fn type_alone(session: &mut Session, all: &[usize]) -> Result<()> {
    for r in all {
        for _ in 0..session.shape.inserts {
            let replica = session.replica(*r)?;
            let left = replica.places.saturating_mul(4);
            if left < session.shape.places.saturating_mul(3) {
                break;
            }
            session.insert(*r)?;
        }
    }
    Ok(())
}

/// One step in a long list.
fn edit_long(session: &mut Session, r: usize) -> Result<()> {
    let drawn = session.random.below(100);
    let other = session.random.below(session.shape.replicas);
    let count = session.count(other)?;
    if drawn < 25 {
        session.delete(r)
    } else if drawn < 45 && other != r && count > 0 {
        session.receive(r, other, count)
    } else {
        session.look(r)
    }
}

/// All edit together; then one reads the list with two names that follow one another the other way round.
pub fn exchanged(alloc: Global, shape: Shape, seed: u64) -> Result<Vec<u8>> {
    let mut session = Session::new(alloc, shape, seed)?;
    let all = all_of(alloc, &shape)?;
    session.edit(&all, 80, 2, shape.places / 8)?;
    session.sync(&all)?;
    let r = session.random.below(shape.replicas);
    session.read(r)?;
    session.read_exchanged(r)?;
    Ok(trace_of(alloc, &mut session))
}

/// All edit together; then two insert beside an element that a third deletes, so that three responses can't
/// be right together.
pub fn small_cycle(alloc: Global, shape: Shape, seed: u64) -> Result<Vec<u8>> {
    let mut session = Session::new(alloc, shape, seed)?;
    let all = all_of(alloc, &shape)?;
    session.edit(&all, 80, 2, shape.places / 8)?;
    session.sync(&[0, 1, 2])?;
    let (Some(x), Some(a), Some(b)) = (
        session.next_planned(0)?,
        session.next_planned(1)?,
        session.next_planned(2)?,
    ) else {
        return Err(anyhow!("no element is left"));
    };
    let ranks = &session.replica(0)?.ranks;
    let low = match ranks.get(ranks.len() / 2) {
        Some(rank) => *rank / GAP * GAP,
        None => 0,
    };
    for (element, at_first, elsewhere) in [(x, 2, 2), (a, 3, 1), (b, 1, 3)] {
        session.elements.moved.push(Moved {
            element,
            at_first: low.wrapping_add(at_first),
            elsewhere: low.wrapping_add(elsewhere),
        })?;
    }
    session.insert_this(0, x)?;
    let inserted = session.count(0)?;
    session.receive(1, 0, inserted)?;
    session.receive(2, 0, inserted)?;
    session.insert_this(1, a)?;
    session.insert_this(2, b)?;
    session.delete_this(0, x)?;
    for other in [1, 2] {
        let count = session.count(other)?;
        session.receive(0, other, count)?;
    }
    session.read(0)?;
    Ok(trace_of(alloc, &mut session))
}

/// Each group edits for itself, shows what it has, hears of the next group, whose elements it puts behind its
/// own, and goes on.
pub fn ring(alloc: Global, shape: Shape, seed: u64) -> Result<Vec<u8>> {
    let mut session = Session::new(alloc, shape, seed)?;
    let mut groups = Vec::new(alloc);
    for group in 0..shape.groups {
        groups.push(group_of(alloc, &shape, group)?)?;
    }
    for group in &groups {
        session.edit(
            group,
            shape.entries.saturating_mul(6) / 10,
            shape.inserts / 3,
            shape.places.saturating_mul(6) / 10,
        )?;
    }
    for group in &groups {
        session.sync(group)?;
        for r in group {
            session.read(*r)?;
        }
    }
    let all = all_of(alloc, &shape)?;
    let mut counts = Vec::new(alloc);
    for r in &all {
        counts.push(session.count(*r)?)?;
    }
    for r in &all {
        let next = (r % shape.groups.max(1)).wrapping_add(1) % shape.groups.max(1);
        if let Some(count) = counts.get(next) {
            session.receive(*r, next, *count)?;
        }
        session.read(*r)?;
    }
    for group in &groups {
        session.edit(group, 0, 0, 0)?;
    }
    Ok(trace_of(alloc, &mut session))
}

/// Each types what it plans alone, and then all hear of all and read.
pub fn concurrent(alloc: Global, shape: Shape, seed: u64) -> Result<Vec<u8>> {
    let mut session = Session::new(alloc, shape, seed)?;
    let all = all_of(alloc, &shape)?;
    for r in &all {
        for _ in 0..shape.inserts {
            session.insert(*r)?;
        }
    }
    session.sync(&all)?;
    session.edit(&all, 0, 0, 0)?;
    Ok(trace_of(alloc, &mut session))
}

/// Each deletes what it types at once, so that no other shows it; receipts bring all to all.
pub fn short_lived(alloc: Global, shape: Shape, seed: u64) -> Result<Vec<u8>> {
    let mut session = Session::new(alloc, shape, seed)?;
    let all = all_of(alloc, &shape)?;
    for _ in 0..shape.inserts {
        for r in &all {
            if let Some(element) = session.insert(*r)? {
                session.delete_this(*r, element)?;
            }
            let other = session.random.below(shape.replicas);
            let count = session.count(other)?;
            if other != *r && count > 0 {
                session.receive(*r, other, count)?;
            }
        }
    }
    Ok(trace_of(alloc, &mut session))
}

/// All read lists without a name, and hear of each other.
pub fn nameless(alloc: Global, shape: Shape, seed: u64) -> Result<Vec<u8>> {
    accepted(
        alloc,
        Shape {
            inserts: 0,
            ..shape
        },
        seed,
    )
}
