//! The order graphs of worked recordings.

use super::graphs::{Kept, ask};
use super::plain::{agrees, tells_the_same};
use events::{Name, OpName};
use order_graph::{Looked, OrderGraph, Spot};
use sample_recordings::{EMPTY, OPPOSITE_PAIR, RING_OF_FOUR, THREE_WAY_CYCLE, recording};
use std::alloc::Global;
use std::test::Fail;
use std::thread::Threads;

const LEAST_OF_TWO_READS: &str =
    "trace 1\nreplicas 2\n1 ins b 0 : b\n1 ins c 1 : b c\n0 recv 1 2\n0 read : c b\n0 read : c b\n1 read : b c\n";

const LATER_REPLICA_FIRST: &str = "trace 1\nreplicas 2\n1 ins a 0 : a\n0 ins b 0 : b\n";

/// Deleted where nobody else sees it, before anybody reads.
const DELETED_UNSEEN: &str = "trace 1\nreplicas 1\n0 ins a 0 : a\n0 del a :\n0 read :\n";

/// Its third response and its fourth are found in its second.
const COVERED_TWICE: &str =
    "trace 1\nreplicas 1\n0 ins a 0 : a\n0 ins b 1 : a b\n0 read : a b\n0 del a : b\n0 ins c 1 : b c\n";

/// Two elements by their numbers, and the numbers of the least operation that shows the one before the
/// other; none where no operation does.
#[derive(Clone, Copy)]
struct Shown(u32, u32, Option<(u32, u32)>);

/// The numbers of an operation's name.
fn numbers(name: Option<OpName>) -> Option<(u32, u32)> {
    match name {
        Some(name) => Some((name.replica, name.n)),
        None => None,
    }
}

/// Whether these are the least operations that show two elements in each of these orders.
fn has_shown(graph: &OrderGraph, expected: &[Shown]) -> bool {
    for Shown(a, b, by) in expected {
        if numbers(graph.before(*a, *b)) != *by {
            return false;
        }
    }
    true
}

/// Whether they are so in the graph of the recording that a text spells, which agrees with the plain
/// programs.
fn shows(
    rt: &(impl Threads + Sync),
    alloc: Global,
    text: &str,
    expected: &[Shown],
) -> Result<bool, Fail> {
    let recording = recording(alloc, text)?;
    ask(rt, alloc, recording, Kept::All, |recording, graph| {
        Ok(has_shown(graph, expected) && agrees(recording, graph))
    })
}

/// Whether there are four elements, and a list for each of the eight operations of the ring.
fn has_sizes(ring: &OrderGraph) -> bool {
    ring.elements() == 4 && ring.lists() == 8 && ring.length(7) == 2 && ring.spots(0) == 3
}

/// Whether a spot is there, and at this place of this list.
fn is_spot(spot: Option<Spot>, list: u32, place: u32) -> bool {
    match spot {
        Some(spot) => spot.list == list && spot.place == place,
        None => false,
    }
}

/// Whether a name is there, and of the n-th operation of this replica.
fn is_operation(name: Option<OpName>, replica: u32, n: u32) -> bool {
    match name {
        Some(name) => name.replica == replica && name.n == n,
        None => false,
    }
}

/// Whether only a place that is there counts as looked at, and so does an element that is expanded. The
/// last list of the ring is of d and then a.
fn counts_looks(ring: &OrderGraph) -> bool {
    let mut looked = Looked::new();
    let starts = looked.count() == 0;
    let finds = ring.place(7, 0, &mut looked) == Some(3);
    let ends = ring.place(7, 2, &mut looked).is_none();
    looked.expand();
    starts && finds && ends && looked.count() == 2
}

/// Whether sizes, spots, operations and what was looked at are those of the ring.
fn has_marks(ring: &OrderGraph) -> bool {
    has_sizes(ring)
        && is_spot(ring.spot(0, 2), 7, 1)
        && is_operation(ring.shown_by(7), 5, 2)
        && counts_looks(ring)
}

#[test]
fn marks_of_the_ring_of_four(rt: HostRuntime) -> Result<(), Fail> {
    let ring = recording(rt.alloc(), RING_OF_FOUR)?;
    let right = ask(
        &rt,
        rt.alloc(),
        ring,
        Kept::All,
        |_, graph| Ok(has_marks(graph)),
    )?;
    assert!(rt; right);
    Ok(())
}

/// The ring's step from its last element to its first, and none back.
static RING_SHOWN: [Shown; 2] = [Shown(3, 0, Some((5, 2))), Shown(0, 3, None)];

/// x, a and b have the numbers 0, 1 and 2.
static CYCLE_SHOWN: [Shown; 4] = [
    Shown(0, 2, Some((2, 1))),
    Shown(2, 1, Some((0, 3))),
    Shown(1, 0, Some((1, 1))),
    Shown(0, 1, None),
];

static PAIR_SHOWN: [Shown; 3] = [
    Shown(0, 1, Some((0, 2))),
    Shown(1, 0, Some((1, 2))),
    Shown(0, 0, None),
];

/// The least operation is named, and no later one that shows the same.
static LEAST_SHOWN: [Shown; 2] = [Shown(0, 1, Some((1, 2))), Shown(1, 0, Some((0, 1)))];

/// a, b and c have the numbers 0, 1 and 2.
static COVERED_SHOWN: [Shown; 4] = [
    Shown(0, 1, Some((0, 2))),
    Shown(1, 2, Some((0, 5))),
    Shown(0, 2, None),
    Shown(1, 0, None),
];

#[test]
fn steps_of_worked_recordings(rt: HostRuntime) -> Result<(), Fail> {
    let rows = [
        (RING_OF_FOUR, RING_SHOWN.as_slice()),
        (THREE_WAY_CYCLE, CYCLE_SHOWN.as_slice()),
        (OPPOSITE_PAIR, PAIR_SHOWN.as_slice()),
        (LEAST_OF_TWO_READS, LEAST_SHOWN.as_slice()),
    ];
    for (text, expected) in rows {
        assert!(rt; shows(&rt, rt.alloc(), text, expected)?, "at {text}");
    }
    Ok(())
}

/// Whether the first element is b, the second a, and c is none.
fn is_b_and_a(graph: &OrderGraph) -> Result<bool, Fail> {
    let (a, b, c) = (Name::new(b"a")?, Name::new(b"b")?, Name::new(b"c")?);
    Ok(graph.name(0) == Some(b) && graph.number(&a) == Some(1) && graph.number(&c).is_none())
}

#[test]
fn elements_are_numbered_by_operations_and_not_by_arrival(rt: HostRuntime) -> Result<(), Fail> {
    let later = recording(rt.alloc(), LATER_REPLICA_FIRST)?;
    let right = ask(&rt, rt.alloc(), later, Kept::All, |recording, graph| {
        Ok(is_b_and_a(graph)? && agrees(recording, graph))
    })?;
    assert!(rt; right);
    Ok(())
}

#[test]
fn a_recording_with_no_element(rt: HostRuntime) -> Result<(), Fail> {
    let nothing = recording(rt.alloc(), EMPTY)?;
    let right = ask(&rt, rt.alloc(), nothing, Kept::All, |recording, graph| {
        Ok(graph.elements() == 0 && graph.lists() == 0 && agrees(recording, graph))
    })?;
    assert!(rt; right);
    Ok(())
}

/// Whether there are three lists, the second empty, and the element is shown before none.
fn is_shown_once(graph: &OrderGraph) -> bool {
    graph.lists() == 3 && graph.length(1) == 0 && graph.before(0, 0).is_none()
}

#[test]
fn an_element_that_no_response_shows(rt: HostRuntime) -> Result<(), Fail> {
    let deleted = recording(rt.alloc(), DELETED_UNSEEN)?;
    let right = ask(&rt, rt.alloc(), deleted, Kept::All, |recording, graph| {
        Ok(is_shown_once(graph) && agrees(recording, graph))
    })?;
    assert!(rt; right);
    Ok(())
}

#[test]
fn covering_responses_of_the_ring_of_four(rt: HostRuntime) -> Result<(), Fail> {
    for kept in [Kept::Covering, Kept::CoveringByThreads] {
        let ring = recording(rt.alloc(), RING_OF_FOUR)?;
        let right = ask(&rt, rt.alloc(), ring, kept, |recording, graph| {
            Ok(has_shown(graph, &RING_SHOWN) && tells_the_same(recording, graph))
        })?;
        assert!(rt; right);
    }
    Ok(())
}

/// Whether three responses are kept: not the same once more, and not that of b alone after that of a and b.
fn has_three_lists(graph: &OrderGraph) -> bool {
    graph.lists() == 3
        && is_operation(graph.shown_by(0), 0, 1)
        && is_operation(graph.shown_by(1), 0, 2)
        && is_operation(graph.shown_by(2), 0, 5)
}

#[test]
fn covering_responses_of_one_replica(rt: HostRuntime) -> Result<(), Fail> {
    let alone = recording(rt.alloc(), COVERED_TWICE)?;
    let right = ask(&rt, rt.alloc(), alone, Kept::Covering, |recording, graph| {
        Ok(
            has_three_lists(graph)
                && has_shown(graph, &COVERED_SHOWN)
                && tells_the_same(recording, graph),
        )
    })?;
    assert!(rt; right);
    Ok(())
}
