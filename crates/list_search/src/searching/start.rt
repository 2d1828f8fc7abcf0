//! The state in which a search begins.

ghost use Rattle.std.specs.Prelude.{◌≡◌, ℕ, ◌<◌, false, length, map, replicate, slice_index, sum, vec_len};
ghost use Rattle.order_graph.specs.Lists.{lists_of};
ghost use Rattle.specification.specs.Responses.{place_count};
ghost use Rattle.list_search.specs.Graph.{graph_of};
ghost use Rattle.list_search.specs.Progress.{IsGood, FitsState};

use super::state::State;
use order_graph::OrderGraph;

/// Sets each mark to the end of its list.
pub fn reset_marks(graph: &OrderGraph, marks: &mut [u32])
    requires { length marks.old ≡ length (lists_of graph.now) }
    ensures marks { marks.new ≡ map (λ r. length r) (lists_of graph.now) }
{
    for l in 0..graph.lists() {
        marks[l as usize] = graph.length(l);
    }
}

/// Empties the state.
pub fn clear(graph: &OrderGraph, state: &mut State)
    requires { FitsState (graph_of graph.now) state.old }
    ensures fits { FitsState (graph_of graph.now) state.new }
    ensures marks { state.new.marks.items ≡ map (λ r. length r) (lists_of graph.now) }
    ensures seen { state.new.seen.items ≡ replicate (length graph.now.elements) false }
    ensures tail { state.new.tail ≡ 0 }
    ensures found { state.new.found ≡ false }
{
    reset_marks(graph, state.marks.as_mut_slice());
    state.seen.fill(false);
    state.tail = 0;
    state.found = false;
}

/// The state in which only the source is reached.
pub fn start(graph: &OrderGraph, element: u32, state: &mut State)
    requires fits { FitsState (graph_of graph.now) state.old }
    requires known { element < length graph.now.elements }
    ensures good { IsGood (graph_of graph.now) element state.new }
    ensures found { state.new.found ≡ false }
    ensures first { slice_index state.new.queue.items 0 ≡ element }
    ensures tail { state.new.tail ≡ 1 }
    ensures marks { sum state.new.marks.items ≡ place_count graph.now }
{
    clear(graph, state);
    state.reach(element);
}
