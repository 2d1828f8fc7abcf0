//! The table of generated recordings, beside a plain reading of their responses.
ghost use Rattle.std.specs.Prelude.{IfOk, length};
ghost use Rattle.order_graph.specs.Lists.{lists_of};
ghost use Rattle.level_search.specs.Tables.{IsBeforeTable};

use events::{Memory, Recording};
use level_search::BeforeTable;
use order_graph::OrderGraph;
use sample_recordings::{Random, check_sound, generated, mostly_ordered, stands_before};
use std::alloc::Global;
use std::test::Fail;
use std::thread::Threads;

/// The table of a graph. A call that finds no memory is made again.
fn table_of(alloc: Global, graph: &OrderGraph) -> Result<BeforeTable, Memory>
    ensures { IfOk result (λ t. IsBeforeTable (length graph.now.elements) (lists_of graph.now) t) }
{
    match BeforeTable::of(alloc, graph) {
        Ok(table) => Ok(table),
        Err(Memory) => BeforeTable::of(alloc, graph),
    }
}

/// Whether the table of a recording's graph has exactly what stands before what in some response.
fn agrees(alloc: Global, recording: &Recording, graph: &OrderGraph) -> Result<bool, Fail> {
    let table = table_of(alloc, graph)?;
    for b in 0..graph.elements() {
        for a in 0..graph.elements() {
            let expected = stands_before(recording, graph.name(a), graph.name(b));
            if table.before(b).contains(a as usize) != expected {
                return Ok(false);
            }
        }
    }
    Ok(true)
}

/// The same, where the graph is made here. A call that finds no memory is made again.
fn table_agrees(
    rt: &(impl Threads + Sync),
    alloc: Global,
    recording: Recording,
) -> Result<bool, Fail> {
    check_sound(rt, alloc, &recording)?;
    let graph = match OrderGraph::of(alloc, &recording) {
        Ok(graph) => graph,
        Err(Memory) => OrderGraph::of(alloc, &recording)?,
    };
    agrees(alloc, &recording, &graph)
}

#[test]
fn generated_recordings_agree_with_the_plain_reading(rt: HostRuntime) -> Result<(), Fail> {
    let (mut random, mut random_of_ordered) = (Random(1945), Random(1951));
    for _ in 0..100 {
        assert!(rt; table_agrees(&rt, rt.alloc(), generated(rt.alloc(), &mut random)?)?);
        let ordered = mostly_ordered(rt.alloc(), &mut random_of_ordered)?;
        assert!(rt; table_agrees(&rt, rt.alloc(), ordered)?);
    }
    Ok(())
}
