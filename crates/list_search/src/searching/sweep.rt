//! The places of one list, read from one place on to its mark.

ghost use Rattle.std.specs.Prelude.{◌≡◌, ℕ, ◌+◌, ◌<◌, ◌≤◌, ◌^◌, false, length, slice_index, sum};
ghost use Rattle.order_graph.specs.Lists.{lists_of, row, Stands};
ghost use Rattle.list_search.specs.Graph.{graph_of};
ghost use Rattle.list_search.specs.Progress.{IsGood, Grows, IsReached, IsAfter, Works};

use super::state::State;
use order_graph::{Looked, OrderGraph, Spot};

/// Reads one place.
pub fn read_one(
    graph: &OrderGraph,
    element: u32,
    list: u32,
    j: u32,
    state: &mut State,
    looked: &mut Looked,
)
    requires good { IsGood (graph_of graph.now) element state.old }
    requires inside { j < length (row (lists_of graph.now) list) }
    ensures good { IsGood (graph_of graph.now) element state.new }
    ensures grows { Grows (Stands (lists_of graph.now) list j) element state.old state.new }
    ensures reached { (x : ℕ) → Stands (lists_of graph.now) list j x
        → IsReached state.new.queue.items state.new.tail x }
    ensures missed { state.new.found ≡ false → ¬ Stands (lists_of graph.now) list j element }
    ensures marks { state.new.marks ≡ state.old.marks }
    ensures works { Works state.old state.new looked.old looked.new }
    ensures cost { looked.new ≤ looked.old + 1 }
{
    if let Some(y) = graph.place(list, j, looked) {
        state.visit(element, y);
    }
}

/// Reads a list from after a place up to its mark.
pub fn read(
    graph: &OrderGraph,
    element: u32,
    spot: Spot,
    mark: u32,
    state: &mut State,
    looked: &mut Looked,
)
    requires good { IsGood (graph_of graph.now) element state.old }
    requires mark { mark ≡ slice_index state.old.marks.items spot.list }
    requires below { spot.place < mark }
    ensures good { IsGood (graph_of graph.now) element state.new }
    ensures grows { Grows (IsAfter (lists_of graph.now) spot.list spot.place) element state.old state.new }
    ensures reached { (j x : ℕ) → spot.place < j → j < mark → Stands (lists_of graph.now) spot.list j x
        → IsReached state.new.queue.items state.new.tail x }
    ensures missed { state.new.found ≡ false → (j : ℕ) → spot.place < j → j < mark
        → ¬ Stands (lists_of graph.now) spot.list j element }
    ensures marks { state.new.marks ≡ state.old.marks }
    ensures works { Works state.old state.new looked.old looked.new }
    ensures cost { looked.new + (spot.place + 1) ≤ looked.old + mark }
{
    for j in spot.place + 1..mark {
        read_one(graph, element, spot.list, j, state, looked);
    }
}

/// Expands one spot: reads on to the list's mark, and sets the mark after the spot.
pub fn sweep(graph: &OrderGraph, element: u32, spot: Spot, state: &mut State, looked: &mut Looked)
    requires good { IsGood (graph_of graph.now) element state.old }
    requires inside { spot.place < length (row (lists_of graph.now) spot.list) }
    ensures good { IsGood (graph_of graph.now) element state.new }
    ensures grows { Grows (IsAfter (lists_of graph.now) spot.list spot.place) element state.old state.new }
    ensures mark { slice_index state.new.marks.items spot.list ≤ spot.place + 1 }
    ensures works { Works state.old state.new looked.old looked.new }
    ensures cost { looked.new + sum state.new.marks.items ≤ looked.old + sum state.old.marks.items }
{
    let mark = state.marks[spot.list as usize];
    if mark <= spot.place {
        return;
    }
    read(graph, element, spot, mark, state, looked);
    state.marks[spot.list as usize] = spot.place + 1;
}
