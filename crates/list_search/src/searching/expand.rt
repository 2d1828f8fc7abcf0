//! Elements expanded, one and a whole layer: all that stands after them, as far as it was not read before.

ghost use Rattle.std.specs.Prelude.{◌≡◌, ℕ, ◌+◌, ◌<◌, ◌≤◌, Some, slice_index, slice_get, sum};
ghost use Rattle.order_graph.specs.Lists.{lists_of, ticked};
ghost use Rattle.list_search.specs.Graph.{Before, graph_of};
ghost use Rattle.list_search.specs.Progress.{IsGood, Grows, IsExpanded, Works, FollowsLayer};
ghost use Rattle.order_graph.specs.Spots.{spots_of};
ghost use Rattle.order_graph.specs.declared.spot.Spot.{Spot};

use super::state::State;
use super::sweep::sweep;
use order_graph::{Looked, OrderGraph};

/// Expands one element at one of its spots.
pub fn expand_spot(
    graph: &OrderGraph,
    element: u32,
    x: u32,
    i: u32,
    state: &mut State,
    looked: &mut Looked,
)
    requires { IsGood (graph_of graph.now) element state.old }
    ensures good { IsGood (graph_of graph.now) element state.new }
    ensures grows { Grows (Before (lists_of graph.now) x) element state.old state.new }
    ensures mark { (q : Spot) → slice_get (spots_of (lists_of graph.now) x) i ≡ Some q
        → slice_index state.new.marks.items q.list ≤ q.place + 1 }
    ensures works { Works state.old state.new looked.old looked.new }
    ensures cost { looked.new + sum state.new.marks.items ≤ looked.old + sum state.old.marks.items }
{
    if let Some(spot) = graph.spot(x, i) {
        sweep(graph, element, spot, state, looked);
    }
}

/// Expands one element: at each of its spots, reads on to the list's mark.
pub fn expand(graph: &OrderGraph, element: u32, x: u32, state: &mut State, looked: &mut Looked)
    requires { IsGood (graph_of graph.now) element state.old }
    ensures good { IsGood (graph_of graph.now) element state.new }
    ensures grows { Grows (Before (lists_of graph.now) x) element state.old state.new }
    ensures expanded { IsExpanded (lists_of graph.now) state.new.marks.items x }
    ensures forward { looked.old ≤ looked.new }
    ensures works { Works state.old state.new (ticked looked.old) looked.new }
    ensures cost { looked.new + sum state.new.marks.items ≤ looked.old + 1 + sum state.old.marks.items }
{
    looked.expand();
    for i in 0..graph.spots(x) {
        expand_spot(graph, element, x, i, state, looked);
    }
}

/// Expands a layer: the elements of the queue from `head` to `end`.
pub fn layer(
    graph: &OrderGraph,
    element: u32,
    head: usize,
    end: usize,
    state: &mut State,
    looked: &mut Looked,
)
    requires good { IsGood (graph_of graph.now) element state.old }
    requires some { head < end }
    requires within { end ≤ state.old.tail }
    ensures good { IsGood (graph_of graph.now) element state.new }
    ensures grows { Grows (FollowsLayer
        (lists_of graph.now) state.old.queue.items head end) element state.old state.new }
    ensures expanded { (k : ℕ) → head ≤ k → k < end
        → IsExpanded (lists_of graph.now) state.new.marks.items (slice_index state.new.queue.items k) }
    ensures forward { looked.old ≤ looked.new }
    ensures works { Works state.old state.new (ticked looked.old) looked.new }
    ensures cost { looked.new + sum state.new.marks.items + head ≤ looked.old + end
        + sum state.old.marks.items }
{
    for k in head..end {
        let x = state.queue[k];
        expand(graph, element, x, state, looked);
    }
}
