//! Questions on the graphs of recordings, which must be sound. A call that finds no memory is made again. A
//! test that holds no graph of its own is proved with far less work.
ghost use Rattle.specification.specs.Faults.{IsSound};

use contents_check::{Checked, check};
use events::{Memory, Recording};
use order_graph::OrderGraph;
use sample_recordings::check_sound;
use std::alloc::Global;
use std::test::Fail;
use std::thread::Threads;
use visibility::Sight;

/// Of which responses a graph is.
#[derive(Clone, Copy)]
pub enum Kept {
    All,
    Covering,
    /// Those that cover all, found by threads.
    CoveringByThreads,
}

/// The graph of responses that cover all, found in so many workers; none where the recording has a fault.
fn covering_graph(
    rt: &(impl Threads + Sync),
    alloc: Global,
    workers: u32,
    recording: &Recording,
) -> Result<Option<OrderGraph>, Memory> {
    let sight = Sight::of(alloc, recording)?;
    match check(rt, alloc, workers, recording, &sight)? {
        Checked::Faulty(_) => Ok(None),
        Checked::Sound(numbered) => Ok(Some(OrderGraph::of_covering(recording, numbered))),
    }
}

/// The graph of a recording; none where the check finds a fault that is not there.
fn graph_of(
    rt: &(impl Threads + Sync),
    alloc: Global,
    recording: &Recording,
    kept: Kept,
) -> Result<Option<OrderGraph>, Memory>
    requires { IsSound recording.now }
{
    match kept {
        Kept::All => Ok(Some(OrderGraph::of(alloc, recording)?)),
        Kept::Covering => covering_graph(rt, alloc, 1, recording),
        Kept::CoveringByThreads => covering_graph(rt, alloc, 4, recording),
    }
}

/// What a question on a recording and its graph has for an answer.
pub fn ask<Q: FnOnce(&Recording, &OrderGraph) -> Result<bool, Fail>>(
    rt: &(impl Threads + Sync),
    alloc: Global,
    recording: Recording,
    kept: Kept,
    question: Q,
) -> Result<bool, Fail>
    requires { Q.IsAlwaysCallable question }
{
    check_sound(rt, alloc, &recording)?;
    let made = match graph_of(rt, alloc, &recording, kept) {
        Ok(made) => made,
        Err(Memory) => graph_of(rt, alloc, &recording, kept)?,
    };
    match made {
        Some(graph) => question(&recording, &graph),
        None => Err("the check finds a fault in a sound recording")?,
    }
}
