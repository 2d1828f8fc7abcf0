//! The search by levels for a shortest cycle.

ghost use Rattle.std.specs.Prelude.{◌≡◌, ℕ, ◌<◌, ◌≤◌, false, length, slice_index, sum, IfNone};
ghost use Rattle.specification.specs.Responses.{place_count};
ghost use Rattle.order_graph.specs.Lists.{lists_of};
ghost use Rattle.list_search.specs.Graph.{graph_of};
ghost use Rattle.list_search.specs.Progress.{FitsState, IsGood};
ghost use Rattle.list_search.specs.Readings.{AreReadings};
ghost use Rattle.list_search.specs.ScratchView.{LooksWithin};
ghost use Rattle.list_search.specs.Walks.{HasCycle, IsSearchAnswer};

use super::bound_source::BoundSource;
use super::expand::layer;
use super::start::start;
use super::state::State;
use order_graph::{Looked, OrderGraph};

/// Searches by levels for the shortest cycle through an element, below the bound last read. The bound is read
/// before each layer.
pub fn search_in<B: BoundSource>(
    graph: &OrderGraph,
    element: u32,
    state: &mut State,
    looked: &mut Looked,
    bound: &mut B,
) -> Option<u32>
    requires element { element < length graph.now.elements }
    requires fits { FitsState (graph_of graph.now) state.old }
    ensures answer { IsSearchAnswer (lists_of graph.now) element (B.last bound.new) result }
    ensures bound { B.last bound.new ≤ B.last bound.old }
    ensures fits { FitsState (graph_of graph.now) state.new }
    ensures reads { B.reads bound.old bound.new }
    ensures times { (n : ℕ) × B.read_times bound.old n bound.new
        × AreReadings (lists_of graph.now) element (B.last bound.new) result n }
    ensures none { IfNone result (length graph.now.elements < B.last bound.new → (n : ℕ)
        → ¬ HasCycle (lists_of graph.now) element n) }
    ensures looked { LooksWithin graph.now looked.new result }
    ensures expanded { IfNone result (1 < B.last bound.new → 0 < looked.new) }
{
    *looked = Looked::new();
    start(graph, element, state);
    search_on(graph, element, state, looked, bound)
}

/// The same from the state in which only the source is reached, where nothing is looked at so far.
pub fn search_on<B: BoundSource>(
    graph: &OrderGraph,
    element: u32,
    state: &mut State,
    looked: &mut Looked,
    bound: &mut B,
) -> Option<u32>
    requires good { IsGood (graph_of graph.now) element state.old }
    requires found { state.old.found ≡ false }
    requires first { slice_index state.old.queue.items 0 ≡ element }
    requires tail { state.old.tail ≡ 1 }
    requires marks { sum state.old.marks.items ≡ place_count graph.now }
    requires looked { looked.old ≡ 0 }
    ensures answer { IsSearchAnswer (lists_of graph.now) element (B.last bound.new) result }
    ensures bound { B.last bound.new ≤ B.last bound.old }
    ensures good { IsGood (graph_of graph.now) element state.new }
    ensures reads { B.reads bound.old bound.new }
    ensures times { (n : ℕ) × B.read_times bound.old n bound.new
        × AreReadings (lists_of graph.now) element (B.last bound.new) result n }
    ensures none { IfNone result (length graph.now.elements < B.last bound.new → (n : ℕ)
        → ¬ HasCycle (lists_of graph.now) element n) }
    ensures looked { LooksWithin graph.now looked.new result }
    ensures expanded { IfNone result (1 < B.last bound.new → 0 < looked.new) }
{
    let mut head = 0;
    let mut level: u32 = 0;
    'levels: while head < state.tail {
        let least = bound.best();
        if least <= level + 1 {
            return None;
        }
        let end = state.tail;
        layer(graph, element, head, end, state, looked);
        if state.found {
            return Some(level + 1);
        }
        head = end;
        level += 1;
    }
    None
}
