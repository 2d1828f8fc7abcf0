//! What a search wrote is set back, and nothing else is touched.

ghost use Rattle.std.specs.Prelude.{◌≡◌, ℕ, ◌<◌, false, length, slice_index, vec_len};
ghost use Rattle.order_graph.specs.Lists.{lists_of};
ghost use Rattle.specification.specs.Responses.{place_count};
ghost use Rattle.list_search.specs.Clean.{IsClean, IsRestored, IsRestoredAt};
ghost use Rattle.list_search.specs.Graph.{graph_of};
ghost use Rattle.list_search.specs.Progress.{IsGood};
ghost use Rattle.std.specs.Prelude.{sum};

use super::start::clear;
use super::state::State;
use order_graph::OrderGraph;

/// Sets the mark of the list in which an element has this spot to the list's end.
fn restore_at(graph: &OrderGraph, x: u32, i: u32, marks: &mut Vec<u32>)
    requires { vec_len marks.old ≡ length (lists_of graph.now) }
    ensures count { vec_len marks.new ≡ vec_len marks.old }
    ensures restored { (l : ℕ) → IsRestoredAt (lists_of graph.now) x i marks.old.items marks.new.items l }
{
    if let Some(spot) = graph.spot(x, i) {
        marks[spot.list as usize] = graph.length(spot.list);
    }
}

/// Sets the marks of the lists in which an element stands to the lists' ends, of marks one for each list.
pub fn restore_marks(graph: &OrderGraph, x: u32, marks: &mut Vec<u32>)
    requires { vec_len marks.old ≡ length (lists_of graph.now) }
    ensures count { vec_len marks.new ≡ vec_len marks.old }
    ensures restored { (l : ℕ) → IsRestored (lists_of graph.now) x marks.old.items marks.new.items l }
{
    for i in 0..graph.spots(x) {
        restore_at(graph, x, i, marks);
    }
}

/// Sets back what a search from an element wrote: what it has seen, and the marks of the lists in which that
/// stands. It takes a step for each of these elements and each place where one stands.
fn restore(graph: &OrderGraph, element: u32, state: &mut State)
    requires { IsGood (graph_of graph.now) element state.old }
    ensures { IsClean (graph_of graph.now) state.new }
{
    let _ = element;
    for k in 0..state.tail {
        let x = state.queue[k];
        state.seen[x as usize] = false;
        restore_marks(graph, x, &mut state.marks);
    }
}

/// Whether what a search has seen stands at more places than there are lists and elements.
fn is_wide(graph: &OrderGraph, state: &State) -> bool {
    let mut left = u64::from(graph.lists()) + u64::from(graph.elements());
    for x in state.queue.iter().take(state.tail) {
        left = left.saturating_sub(u64::from(graph.spots(*x)));
        if left == 0 {
            return true;
        }
    }
    false
}

/// Sets back what a search from an element wrote, or all, whichever takes fewer steps.
pub fn settle(graph: &OrderGraph, element: u32, state: &mut State)
    requires { IsGood (graph_of graph.now) element state.old }
    ensures { IsClean (graph_of graph.now) state.new }
{
    if is_wide(graph, state) {
        clear(graph, state);
    } else {
        restore(graph, element, state);
    }
}

/// The state in which only the source is reached, from one that is clean.
pub fn begin(graph: &OrderGraph, element: u32, state: &mut State)
    requires clean { IsClean (graph_of graph.now) state.old }
    requires known { element < length graph.now.elements }
    ensures good { IsGood (graph_of graph.now) element state.new }
    ensures found { state.new.found ≡ false }
    ensures first { slice_index state.new.queue.items 0 ≡ element }
    ensures tail { state.new.tail ≡ 1 }
    ensures marks { sum state.new.marks.items ≡ place_count graph.now }
{
    state.tail = 0;
    state.found = false;
    state.reach(element);
}
