//! The least cycles of worked recordings.
ghost use Rattle.std.specs.Prelude.{IfOk};
ghost use Rattle.specification.specs.Search.{IsShortestLength};

use super::conflicts::{PAIR_APART, number_of};
use super::gates::Hold;
use super::graphs::ask_of;
use events::{Memory, Name, OpName};
use level_search::{Conflict, Gate, NoGate, SearchFault, Step, Steps, least_conflict, least_cycle};
use order_graph::OrderGraph;
use sample_recordings::{OPPOSITE_PAIR, RING_OF_FOUR, THREE_WAY_CYCLE, recording};
use std::alloc::Global;
use std::test::Fail;
use std::thread::Threads;

/// The least cycle, where k is the length of a shortest. A call that finds no memory is made again.
fn least(alloc: Global, graph: &OrderGraph, k: u32) -> Result<Steps, Memory>
    requires { IsShortestLength graph.now k }
{
    match least_cycle(alloc, graph, k) {
        Ok(steps) => Ok(steps),
        Err(Memory) => least_cycle(alloc, graph, k),
    }
}

/// The steps of the least cycle, where there is one.
fn steps_of(
    rt: &(impl Threads + Sync),
    alloc: Global,
    graph: &OrderGraph,
) -> Result<Option<Steps>, SearchFault> {
    if graph.elements() == 0 {
        return Ok(None);
    }
    match number_of(rt, alloc, graph, 1, &NoGate)? {
        Some(k) => Ok(Some(least(alloc, graph, k)?)),
        None => Ok(None),
    }
}

/// The least conflict of a graph. A call that finds no memory is made again.
pub fn conflict_of(
    rt: &(impl Threads + Sync),
    alloc: Global,
    graph: &OrderGraph,
    workers: u32,
    gate: &impl Gate,
) -> Result<Option<Conflict>, SearchFault> {
    match least_conflict(rt, alloc, graph, workers, gate) {
        Err(SearchFault::Memory) => least_conflict(rt, alloc, graph, workers, gate),
        found => found,
    }
}

/// A step from one name to another, shown by the n-th operation of a replica.
#[derive(Clone, Copy)]
struct Shown(&'static str, &'static str, u32, u32);

impl Shown {
    fn step(&self) -> Result<Step, Fail> {
        Ok(Step {
            from: Name::new(self.0.as_bytes())?,
            to: Name::new(self.1.as_bytes())?,
            shown: OpName::new(self.2, self.3).ok_or("no operation")?,
        })
    }
}

/// Whether there are steps, and exactly these.
fn are(steps: Option<Steps>, expected: &[Shown]) -> Result<bool, Fail> {
    let Some(steps) = steps else {
        return Ok(false);
    };
    for (i, shown) in expected.iter().enumerate() {
        if steps.get(i).copied() != Some(shown.step()?) {
            return Ok(false);
        }
    }
    Ok(steps.len() == expected.len())
}

/// The steps of a conflict that has as many as its number says.
fn counted(conflict: Option<Conflict>) -> Option<Steps> {
    match conflict {
        Some(
            Conflict {
                k,
                steps,
                looked: _,
                cycle_looked: _,
            },
        ) if k as usize == steps.len() => Some(steps),
        _ => None,
    }
}

/// Recordings, with the steps of their least cycles.
const WORKED: &[(&str, &[Shown])] = &[
    (
        RING_OF_FOUR,
        &[
            Shown("a", "b", 2, 1),
            Shown("b", "c", 3, 1),
            Shown("c", "d", 4, 2),
            Shown("d", "a", 5, 2),
        ],
    ),
    (
        THREE_WAY_CYCLE,
        &[
            Shown("x", "b", 2, 1),
            Shown("b", "a", 0, 3),
            Shown("a", "x", 1, 1),
        ],
    ),
    (
        OPPOSITE_PAIR,
        &[Shown("a", "b", 0, 2), Shown("b", "a", 1, 2)],
    ),
    (PAIR_APART, &[Shown("a", "c", 0, 3), Shown("c", "a", 1, 1)]),
];

#[test]
fn least_cycles_of_worked_recordings(rt: HostRuntime) -> Result<(), Fail> {
    for (text, expected) in WORKED.iter().copied() {
        let steps = ask_of(
            &rt,
            rt.alloc(),
            &recording(rt.alloc(), text)?,
            |graph| Ok(steps_of(&rt, rt.alloc(), graph)?),
        )?;
        assert!(rt; are(steps, expected)?, "at {text}");
    }
    Ok(())
}

#[test]
fn conflicts_of_worked_recordings(rt: HostRuntime) -> Result<(), Fail> {
    for (text, expected) in WORKED.iter().copied() {
        let found = ask_of(&rt, rt.alloc(), &recording(rt.alloc(), text)?, |graph| {
            Ok(conflict_of(&rt, rt.alloc(), graph, 2, &NoGate)?)
        })?;
        assert!(rt; are(counted(found), expected)?, "at {text}");
    }
    Ok(())
}

/// How many looks at a row the searches for a conflict took together.
fn looks_of(conflict: Option<Conflict>) -> Option<u64> {
    match conflict {
        Some(found) => Some(found.looked),
        None => None,
    }
}

/// How many looks so many workers took for the ring of four.
fn looks_in_the_ring_of_four(
    rt: &(impl Threads + Sync),
    alloc: Global,
    workers: u32,
    gate: &impl Gate,
) -> Result<Option<u64>, Fail> {
    let recording = recording(alloc, RING_OF_FOUR)?;
    ask_of(rt, alloc, &recording, |graph| {
        Ok(looks_of(conflict_of(rt, alloc, graph, workers, gate)?))
    })
}

/// The first search finds the cycle of four in seven looks. Then the bound is 4, and each of the three others
/// looks twice in two layers and once in the third, since a fourth could only give a cycle that is no
/// shorter: five looks.
#[test]
fn looks_of_all_searches_of_the_ring_of_four(rt: HostRuntime) -> Result<(), Fail> {
    assert_eq!(rt;
        looks_in_the_ring_of_four(&rt, rt.alloc(), 1, &NoGate)?,
        Some(22)
    );
    Ok(())
}

/// One worker's search is held until the other has ended three, of which the first finds the cycle: seven
/// looks and five of each other, whoever made them.
#[test]
fn looks_of_two_workers_are_added(rt: HostRuntime) -> Result<(), Fail> {
    let hold = Hold::until(0, 3);
    assert_eq!(rt;
        looks_in_the_ring_of_four(&rt, rt.alloc(), 2, &hold)?,
        Some(22)
    );
    assert!(rt; hold.saw_both());
    Ok(())
}
