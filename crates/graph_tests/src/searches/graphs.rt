//! Questions on the graphs of recordings, which must be sound. A call that finds no memory is made again.
use events::{Memory, Recording};
use order_graph::OrderGraph;
use sample_recordings::check_sound;
use std::alloc::Global;
use std::test::Fail;
use std::thread::Threads;

fn graph(
    rt: &(impl Threads + Sync),
    alloc: Global,
    recording: &Recording,
) -> Result<OrderGraph, Fail> {
    check_sound(rt, alloc, recording)?;
    match OrderGraph::of(alloc, recording) {
        Ok(graph) => Ok(graph),
        Err(Memory) => Ok(OrderGraph::of(alloc, recording)?),
    }
}

/// What a question has for an answer that is asked of the graph of a recording. A test that holds no graph of
/// its own is proved with far less work.
pub fn ask_of<A, Q: FnOnce(&OrderGraph) -> Result<A, Fail>>(
    rt: &(impl Threads + Sync),
    alloc: Global,
    recording: &Recording,
    question: Q,
) -> Result<A, Fail>
    requires { Q.IsAlwaysCallable question }
{
    let graph = graph(rt, alloc, recording)?;
    question(&graph)
}
