//! Graphs of some elements alone, and graphs whose lists go the other way.
ghost use Rattle.std.specs.Prelude.{◌<◌, All, AllPairs, length};

use super::graphs::{Kept, ask};
use super::plain::agrees;
use events::{Memory, Name, Recording};
use order_graph::{Looked, OrderGraph};
use sample_recordings::{RING_OF_FOUR, recording};
use std::alloc::Global;
use std::test::Fail;

/// The graph of these elements alone. A call that finds no memory is made again.
fn part_of(alloc: Global, graph: &OrderGraph, kept: &[u32]) -> Result<OrderGraph, Memory>
    requires rising { AllPairs (λ x y. x < y) kept.now }
    requires known { All (λ x. x < length graph.now.elements) kept.now }
{
    match graph.narrowed(alloc, kept) {
        Ok(part) => Ok(part),
        Err(Memory) => graph.narrowed(alloc, kept),
    }
}

/// Whether there are d and a alone, in the order of their old numbers, and no name else has a number.
fn has_two_names(part: &OrderGraph) -> Result<bool, Fail> {
    let (a, b, d) = (Name::new(b"a")?, Name::new(b"b")?, Name::new(b"d")?);
    let named = part.name(0) == Some(a) && part.name(1) == Some(d) && part.name(2).is_none();
    let numbered = part.number(&a) == Some(0) && part.number(&d) == Some(1);
    Ok(named && numbered && part.elements() == 2 && part.number(&b).is_none())
}

/// Whether these are the places of a list.
fn has_places(part: &OrderGraph, list: u32, expected: &[u32]) -> bool {
    let mut looked = Looked::new();
    let mut j: u32 = 0;
    for x in expected {
        if part.place(list, j, &mut looked) != Some(*x) {
            return false;
        }
        j = j.saturating_add(1);
    }
    part.length(list) == j
}

/// Whether the lists of the ring are a, nothing, a, nothing, nothing, d, d, and d before a.
fn has_lists_of_two(part: &OrderGraph) -> bool {
    part.lists() == 8
        && has_places(part, 0, &[0])
        && has_places(part, 1, &[])
        && has_places(part, 2, &[0])
        && has_places(part, 3, &[])
        && has_places(part, 4, &[])
        && has_places(part, 5, &[1])
        && has_places(part, 6, &[1])
        && has_places(part, 7, &[1, 0])
}

/// Whether d stands first in the list where c stood before it, and before a in the last list alone.
fn has_orders_of_two(part: &OrderGraph) -> bool {
    let first = match part.spot(1, 0) {
        Some(spot) => spot.list == 5 && spot.place == 0,
        None => false,
    };
    let shown = match part.before(1, 0) {
        Some(name) => name.replica == 5 && name.n == 2,
        None => false,
    };
    first && shown && part.before(0, 1).is_none() && part.spots(0) == 3 && part.spots(1) == 3
}

/// Whether the ring is right where two of its elements are kept.
fn keeps_two(alloc: Global, ring: &OrderGraph) -> Result<bool, Fail> {
    if ring.elements() != 4 {
        return Ok(false);
    }
    let part = part_of(alloc, ring, &[0, 3])?;
    Ok(has_two_names(&part)? && has_lists_of_two(&part) && has_orders_of_two(&part))
}

/// Whether its lists are empty where none is kept.
fn keeps_none(alloc: Global, ring: &OrderGraph) -> Result<bool, Fail> {
    let part = part_of(alloc, ring, &[])?;
    Ok(part.elements() == 0 && part.lists() == 8 && part.length(7) == 0 && part.spots(0) == 0)
}

/// Whether it is the same where all are kept.
fn keeps_all(alloc: Global, recording: &Recording, ring: &OrderGraph) -> Result<bool, Fail> {
    if ring.elements() != 4 {
        return Ok(false);
    }
    let part = part_of(alloc, ring, &[0, 1, 2, 3])?;
    Ok(agrees(recording, &part))
}

#[test]
fn two_none_and_all_of_the_ring_of_four(rt: HostRuntime) -> Result<(), Fail> {
    let ring = recording(rt.alloc(), RING_OF_FOUR)?;
    let alloc = rt.alloc();
    let right = ask(&rt, rt.alloc(), ring, Kept::All, |recording, graph| {
        Ok(
            keeps_two(alloc, graph)?
                && keeps_none(alloc, graph)?
                && keeps_all(alloc, recording, graph)?,
        )
    })?;
    assert!(rt; right);
    Ok(())
}

/// The graph with its lists in the other direction. A call that finds no memory is made again.
fn turned_of(alloc: Global, graph: &OrderGraph) -> Result<OrderGraph, Memory> {
    match graph.turned(alloc) {
        Ok(turned) => Ok(turned),
        Err(Memory) => graph.turned(alloc),
    }
}

/// Whether a list is another one from the last place to the first.
fn is_turned(graph: &OrderGraph, turned: &OrderGraph, list: u32) -> bool {
    let places = graph.list(list);
    let back = turned.list(list);
    for (x, y) in places.iter().zip(back.iter().rev()) {
        if x != y {
            return false;
        }
    }
    places.len() == back.len()
}

/// Whether names and operations are the same, each list goes the other way, and so does each step.
fn goes_the_other_way(graph: &OrderGraph, turned: &OrderGraph) -> bool {
    for x in 0..graph.elements() {
        if turned.name(x) != graph.name(x) || turned.spots(x) != graph.spots(x) {
            return false;
        }
        for y in 0..graph.elements() {
            if turned.before(x, y) != graph.before(y, x) {
                return false;
            }
        }
    }
    for list in 0..graph.lists() {
        if turned.shown_by(list) != graph.shown_by(list) || !is_turned(graph, turned, list) {
            return false;
        }
    }
    turned.elements() == graph.elements() && turned.lists() == graph.lists()
}

#[test]
fn ring_of_four_turned(rt: HostRuntime) -> Result<(), Fail> {
    let ring = recording(rt.alloc(), RING_OF_FOUR)?;
    let alloc = rt.alloc();
    let right = ask(&rt, rt.alloc(), ring, Kept::All, |_, graph| {
        Ok(goes_the_other_way(graph, &turned_of(alloc, graph)?))
    })?;
    assert!(rt; right);
    Ok(())
}
