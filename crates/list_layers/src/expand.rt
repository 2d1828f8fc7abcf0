//! What stands after the numbers of a layer, as far as it was not passed before.

ghost use Rattle.std.specs.Prelude.{◌≡◌, ℕ, ◌+◌, ◌≤◌, ◌⊎◌, [], Contains, IfOk, OnOk, Some, slice_get};
ghost use Rattle.std.specs.Prelude.{slice_index, vec_len};
ghost use Rattle.order_graph.specs.Lists.{lists_of};
ghost use Rattle.order_graph.specs.Spots.{spots_of};
ghost use Rattle.order_graph.specs.declared.spot.Spot.{Spot};
ghost use Rattle.list_search.specs.Graph.{Before, graph_of};
ghost use Rattle.list_search.specs.Progress.{IsExpanded};
ghost use Rattle.list_layers.specs.Progress.{Follows, Goes, HasSpot, IsGood, IsNextLayer, StandsIn};

use super::state::State;
use super::sweep::sweep;
use events::Memory;
use order_graph::OrderGraph;
use std::alloc::Global;

/// Enters what stands behind one spot of a number.
fn expand_spot(
    graph: &OrderGraph,
    first: u32,
    x: u32,
    i: u32,
    state: &mut State,
    next: &mut Vec<u32>,
) -> Result<(), Memory>
    requires { IsGood (graph_of graph.now) first state.old }
    ensures marks { vec_len state.new.marks ≡ vec_len state.old.marks }
    ensures seen { vec_len state.new.seen ≡ vec_len state.old.seen }
    ensures good { OnOk result (IsGood (graph_of graph.now) first state.new) }
    ensures goes { OnOk result (Goes first (Before (lists_of graph.now) x) (HasSpot (lists_of graph.now) x)
        state.old next.old.items state.new next.new.items) }
    ensures mark { OnOk result ((q : Spot) → slice_get (spots_of (lists_of graph.now) x) i ≡ Some q
        → slice_index state.new.marks.items q.list ≤ q.place + 1) }
{
    if let Some(spot) = graph.spot(x, i) {
        sweep(graph, first, spot, state, next)?;
    }
    Ok(())
}

/// Enters what stands after a number in some list.
fn expand(
    graph: &OrderGraph,
    first: u32,
    x: u32,
    state: &mut State,
    next: &mut Vec<u32>,
) -> Result<(), Memory>
    requires { IsGood (graph_of graph.now) first state.old }
    ensures marks { vec_len state.new.marks ≡ vec_len state.old.marks }
    ensures seen { vec_len state.new.seen ≡ vec_len state.old.seen }
    ensures good { OnOk result (IsGood (graph_of graph.now) first state.new) }
    ensures goes { OnOk result (Goes first (Before (lists_of graph.now) x) (HasSpot (lists_of graph.now) x)
        state.old next.old.items state.new next.new.items) }
    ensures expanded { OnOk result (IsExpanded (lists_of graph.now) state.new.marks.items x) }
{
    let spots = graph.spots(x);
    state.looked.add(u64::from(spots));
    for i in 0..spots {
        expand_spot(graph, first, x, i, state, next)?;
    }
    Ok(())
}

/// Enters what stands after a number of the layer in some list.
fn expand_all(
    graph: &OrderGraph,
    first: u32,
    layer: &[u32],
    state: &mut State,
    next: &mut Vec<u32>,
) -> Result<(), Memory>
    requires { IsGood (graph_of graph.now) first state.old }
    ensures marks { vec_len state.new.marks ≡ vec_len state.old.marks }
    ensures seen { vec_len state.new.seen ≡ vec_len state.old.seen }
    ensures good { OnOk result (IsGood (graph_of graph.now) first state.new) }
    ensures goes { OnOk result (Goes first (Follows (lists_of graph.now) layer.now)
        (StandsIn (lists_of graph.now) layer.now) state.old next.old.items state.new next.new.items) }
    ensures expanded { OnOk result ((c : ℕ) → Contains layer.now c
        → IsExpanded (lists_of graph.now) state.new.marks.items c) }
{
    for x in layer {
        expand(graph, first, *x, state, next)?;
    }
    Ok(())
}

/// The layer that follows one: what stands after a number of it in some list, from the first number that
/// counts on, and was not entered before, in rising order.
pub fn next_layer(
    alloc: Global,
    graph: &OrderGraph,
    first: u32,
    layer: &[u32],
    state: &mut State,
) -> Result<Vec<u32>, Memory>
    requires { IsGood (graph_of graph.now) first state.old }
    ensures marks { vec_len state.new.marks ≡ vec_len state.old.marks }
    ensures seen { vec_len state.new.seen ≡ vec_len state.old.seen }
    ensures good { OnOk result (IsGood (graph_of graph.now) first state.new) }
    ensures next { IfOk result (λ next. IsNextLayer (lists_of graph.now) first layer.now
        state.old.seen.items state.new.seen.items next.items) }
    ensures touched { OnOk result ((l : ℕ)
        → (slice_index state.new.marks.items l ≡ slice_index state.old.marks.items l)
        ⊎ StandsIn (lists_of graph.now) layer.now l) }
{
    let mut next = Vec::new(alloc);
    expand_all(graph, first, layer, state, &mut next)?;
    next.sort_unstable();
    Ok(next)
}
