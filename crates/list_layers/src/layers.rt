//! The layers from a source, one after another.

ghost use Rattle.std.specs.Prelude.{◌≡◌, ℕ, ◌<◌, ◌≤◌, [], ◌∷◌, IfOk, OnOk, length, map, slice_set, true};
ghost use Rattle.std.specs.Prelude.{vec_len};
ghost use Rattle.order_graph.specs.Lists.{lists_of};
ghost use Rattle.list_search.specs.Graph.{graph_of};
ghost use Rattle.bit_tables.specs.Rule.{layer_at};
ghost use Rattle.list_layers.specs.Progress.{IsClean};
ghost use Rattle.list_layers.specs.Walked.{IsWalked};
ghost use Rattle.list_layers.specs.Ways.{IsLayerAt};

use super::expand::next_layer;
use super::restore::{clear, settle};
use super::state::State;
use events::Memory;
use order_graph::OrderGraph;
use std::alloc::Global;

/// The layer of the source alone, which is entered.
fn first_layer(alloc: Global, source: u32, seen: &mut Vec<bool>) -> Result<Vec<Vec<u32>>, Memory>
    requires { source < vec_len seen.old }
    ensures places { vec_len seen.new ≡ vec_len seen.old }
    ensures layers { IfOk result (λ layers. map (λ layer. layer.items) layers.items ≡ (source ∷ []) ∷ []) }
    ensures seen { OnOk result (seen.new.items ≡ slice_set seen.old.items source true) }
{
    let mut layer = Vec::new(alloc);
    layer.push(source)?;
    let mut layers = Vec::new(alloc);
    layers.push(layer)?;
    seen[source as usize] = true;
    Ok(layers)
}

/// So many layers, where nothing is entered so far.
fn walk(
    alloc: Global,
    graph: &OrderGraph,
    source: u32,
    count: u32,
    state: &mut State,
) -> Result<Vec<Vec<u32>>, Memory>
    requires clean { IsClean (graph_of graph.now) state.old }
    requires known { source < length graph.now.elements }
    requires some { 1 ≤ count }
    ensures marks { vec_len state.new.marks ≡ vec_len state.old.marks }
    ensures seen { vec_len state.new.seen ≡ vec_len state.old.seen }
    ensures walked { IfOk result (λ layers. IsWalked (graph_of graph.now) source count
        (map (λ layer. layer.items) layers.items) state.new) }
{
    let mut layers = first_layer(alloc, source, &mut state.seen)?;
    for d in 1..count {
        let next = next_layer(
            alloc,
            graph,
            source,
            layers[d as usize - 1].as_slice(),
            state,
        )?;
        layers.push(next)?;
    }
    Ok(layers)
}

/// So many layers from a source, on a state that is clean and stays so.
pub fn layers_on(
    alloc: Global,
    graph: &OrderGraph,
    source: u32,
    count: u32,
    state: &mut State,
) -> Result<Vec<Vec<u32>>, Memory>
    requires clean { IsClean (graph_of graph.now) state.old }
    requires known { source < length graph.now.elements }
    ensures clean { IsClean (graph_of graph.now) state.new }
    ensures count { IfOk result (λ layers. vec_len layers ≡ count) }
    ensures layers { IfOk result (λ layers. (d : ℕ) → d < count
        → IsLayerAt (length graph.now.elements) (lists_of graph.now) source d (layer_at layers.items d)) }
{
    if count == 0 {
        return Ok(Vec::new(alloc));
    }
    match walk(alloc, graph, source, count, state) {
        Ok(layers) => {
            settle(graph, layers.as_slice(), state);
            Ok(layers)
        },
        Err(Memory) => {
            clear(graph, state);
            Err(Memory)
        },
    }
}
