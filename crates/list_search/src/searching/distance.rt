//! The search by levels for the distances of all elements.

ghost use Rattle.std.specs.Prelude.{◌≡◌, ℕ, ◌<◌, ◌≤◌, ◌⊎◌, None, length, replicate, slice_index, sum, vec_len};
ghost use Rattle.specification.specs.Responses.{place_count};
ghost use Rattle.order_graph.specs.Lists.{lists_of};
ghost use Rattle.list_search.specs.Distances.{AreDistances, AreReached, IsAmong};
ghost use Rattle.list_search.specs.Graph.{graph_of};
ghost use Rattle.list_search.specs.Progress.{FitsState, IsGood};
ghost use Rattle.list_search.specs.ScratchView.{LooksWithin};

use super::expand::layer;
use super::start::start;
use super::state::State;
use order_graph::{Looked, OrderGraph};

/// Notes the level of a layer, the queue from `head` to `tail`. An element that has a lesser one keeps it.
fn note_level(queue: &[u32], head: usize, tail: usize, level: u32, depths: &mut [u32])
    requires in_order { head ≤ tail }
    requires within { tail ≤ length queue.now }
    requires known { (k : ℕ) → k < tail → slice_index queue.now k < length depths.old }
    ensures falls { (x : ℕ) → slice_index depths.new x ≤ slice_index depths.old x }
    ensures noted { (k : ℕ) → head ≤ k → k < tail → slice_index depths.new (slice_index queue.now k) ≤ level }
    ensures others { (x : ℕ) → (slice_index depths.new x ≡ slice_index depths.old x)
        ⊎ ((slice_index depths.new x ≡ level) × IsAmong queue.now head tail x) }
{
    for k in head..tail {
        let x = queue[k] as usize;
        depths[x] = depths[x].min(level);
    }
}

/// Searches by levels for the distance of each element, below a limit.
pub fn distances_in(
    graph: &OrderGraph,
    element: u32,
    limit: u32,
    state: &mut State,
    looked: &mut Looked,
    depths: &mut [u32],
)
    requires element { element < length graph.now.elements }
    requires fits { FitsState (graph_of graph.now) state.old }
    requires places { length depths.old ≡ length graph.now.elements }
    ensures distances { AreDistances (lists_of graph.now) element limit depths.new }
    ensures fits { FitsState (graph_of graph.now) state.new }
    ensures looked { LooksWithin graph.now looked.new None }
    ensures expanded { 1 < limit → 0 < looked.new }
{
    *looked = Looked::new();
    start(graph, element, state);
    depths.fill(limit);
    distances_on(graph, element, limit, state, looked, depths);
}

/// The same from the state in which only the source is reached, where nothing is looked at so far, and each
/// depth is the limit.
pub fn distances_on(
    graph: &OrderGraph,
    element: u32,
    limit: u32,
    state: &mut State,
    looked: &mut Looked,
    depths: &mut [u32],
)
    requires good { IsGood (graph_of graph.now) element state.old }
    requires first { slice_index state.old.queue.items 0 ≡ element }
    requires tail { state.old.tail ≡ 1 }
    requires marks { sum state.old.marks.items ≡ place_count graph.now }
    requires looked { looked.old ≡ 0 }
    requires depths { depths.old ≡ replicate (length graph.now.elements) limit }
    ensures distances { AreDistances (lists_of graph.now) element limit depths.new }
    ensures count { length depths.new ≡ length depths.old }
    ensures good { IsGood (graph_of graph.now) element state.new }
    ensures reached { AreReached limit depths.new state.new.queue.items state.new.tail }
    ensures looked { LooksWithin graph.now looked.new None }
    ensures expanded { 1 < limit → 0 < looked.new }
{
    note_level(state.queue.as_slice(), 0, state.tail, 0, depths);
    let mut head = 0;
    let mut level: u32 = 0;
    'levels: while head < state.tail {
        if limit <= level + 1 {
            return;
        }
        let end = state.tail;
        layer(graph, element, head, end, state, looked);
        head = end;
        level += 1;
        note_level(state.queue.as_slice(), head, state.tail, level, depths);
    }
}

/// Copies what a search reached to the front of a list; how many these are.
pub fn copy_reached(state: &State, reached: &mut [u32]) -> usize
    requires tail { state.now.tail ≤ vec_len state.now.queue }
    requires room { vec_len state.now.queue ≤ length reached.old }
    ensures count { result ≡ state.now.tail }
    ensures room { length reached.new ≡ length reached.old }
    ensures copied { (k : ℕ) → k < result → slice_index reached.new k ≡ slice_index state.now.queue.items k }
{
    for k in 0..state.tail {
        reached[k] = state.queue[k];
    }
    state.tail
}
