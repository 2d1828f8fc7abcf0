//! Conflict numbers of worked recordings, for any number of workers.
ghost use Rattle.std.specs.Prelude.{IfOk};
ghost use Rattle.specification.specs.Conflict.{IsConflictNumber};

use super::graphs::ask_of;
use level_search::{Gate, NoGate, SearchFault, conflict_number};
use order_graph::OrderGraph;
use sample_recordings::{EMPTY, OPPOSITE_PAIR, RING_OF_FOUR, THREE_WAY_CYCLE, recording};
use std::alloc::Global;
use std::test::Fail;
use std::thread::Threads;

/// Only neighbours taken as steps, the shortest cycle would have three elements.
pub const PAIR_APART: &str =
    "trace 1\nreplicas 2\n0 ins a 0 : a\n0 ins b 1 : a b\n0 ins c 2 : a b c\n1 recv 0 3\n1 del b : c a\n";

/// The ring of four without the response that closes it.
const ACCEPTED: &str =
    "trace 1\nreplicas 5\n0 ins a 0 : a\n1 ins b 0 : b\n2 recv 0 1\n2 recv 1 1\n2 read : a b\n3 recv 1 1\n3 ins c 1 : b c\n4 recv 3 1\n4 del b : c\n4 ins d 1 : c d\n";

/// The conflict number of a graph. A call that finds no memory is made again.
pub fn number_of(
    rt: &(impl Threads + Sync),
    alloc: Global,
    graph: &OrderGraph,
    workers: u32,
    gate: &impl Gate,
) -> Result<Option<u32>, SearchFault>
    ensures { IfOk result (λ k. IsConflictNumber graph.now k) }
{
    match conflict_number(rt, alloc, graph, workers, gate) {
        Err(SearchFault::Memory) => conflict_number(rt, alloc, graph, workers, gate),
        found => found,
    }
}

/// Whether any number of workers that is allowed finds this conflict number.
fn all_find(
    rt: &(impl Threads + Sync),
    alloc: Global,
    graph: &OrderGraph,
    number: Option<u32>,
) -> Result<bool, Fail> {
    for workers in [1, 2, 7, 64] {
        if number_of(rt, alloc, graph, workers, &NoGate)? != number {
            return Ok(false);
        }
    }
    Ok(true)
}

/// Whether all numbers of workers that are not allowed are refused.
fn all_refuse(rt: &(impl Threads + Sync), alloc: Global, graph: &OrderGraph) -> bool {
    for workers in [0, 65, 4294967295] {
        match number_of(rt, alloc, graph, workers, &NoGate) {
            Err(SearchFault::Workers) => (),
            _ => return false,
        }
    }
    true
}

/// What is found of the recording that a text spells.
pub fn number_on<H: Threads + Sync, G: Gate>(
    rt: &H,
    alloc: Global,
    text: &str,
    workers: u32,
    gate: &G,
) -> Result<Option<u32>, Fail> {
    ask_of(rt, alloc, &recording(alloc, text)?, |graph| {
        Ok(number_of(rt, alloc, graph, workers, gate)?)
    })
}

#[test]
fn worked_recordings_for_any_number_of_workers(rt: HostRuntime) -> Result<(), Fail> {
    let alloc = rt.alloc();
    let rows = [
        (RING_OF_FOUR, Some(4)),
        (THREE_WAY_CYCLE, Some(3)),
        (OPPOSITE_PAIR, Some(2)),
        (PAIR_APART, Some(2)),
        (ACCEPTED, None),
        (EMPTY, None),
    ];
    for (text, number) in rows {
        let found = ask_of(&rt, alloc, &recording(alloc, text)?, |graph| {
            Ok(all_find(&rt, alloc, graph, number)? && all_refuse(&rt, alloc, graph))
        })?;
        assert!(rt; found, "at {text}");
    }
    Ok(())
}
