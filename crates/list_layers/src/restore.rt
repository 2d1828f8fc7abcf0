//! What was written for some layers is set back.

ghost use Rattle.std.specs.Prelude.{◌≡◌, ℕ, ◌<◌, ◌+◌, All, Contains, length, map, vec_len};
ghost use Rattle.order_graph.specs.Lists.{lists_of};
ghost use Rattle.list_search.specs.Graph.{graph_of};
ghost use Rattle.bit_tables.specs.Rule.{layer_at};
ghost use Rattle.list_layers.specs.Progress.{FitsState, IsClean, IsSeen};
ghost use Rattle.list_layers.specs.Walked.{IsRestored, IsWalked, StandsBeforeLast};

use super::state::State;
use list_search::{reset_marks, restore_marks};
use order_graph::OrderGraph;

/// Takes back that the numbers of a layer were entered.
fn forget(layer: &[u32], seen: &mut Vec<bool>)
    requires { All (λ x. x < vec_len seen.old) layer.now }
    ensures places { vec_len seen.new ≡ vec_len seen.old }
    ensures seen { (x : ℕ) → IsSeen seen.new.items x → IsSeen seen.old.items x × (¬ Contains layer.now x) }
{
    for x in layer {
        seen[*x as usize] = false;
    }
}

/// The same of all layers.
fn forget_all(layers: &[Vec<u32>], seen: &mut Vec<bool>)
    requires { All (λ layer. All (λ x. x < vec_len seen.old) layer.items) layers.now }
    ensures places { vec_len seen.new ≡ vec_len seen.old }
    ensures seen { (x : ℕ) → IsSeen seen.new.items x → IsSeen seen.old.items x
        × ((j : ℕ) → j < length layers.now → ¬ Contains (layer_at layers.now j) x) }
{
    for layer in layers {
        forget(layer.as_slice(), seen);
    }
}

/// Sets the marks of the lists in which a number of the layer stands to the lists' ends.
fn restore_layer(graph: &OrderGraph, layer: &[u32], marks: &mut Vec<u32>)
    requires { vec_len marks.old ≡ length (lists_of graph.now) }
    ensures count { vec_len marks.new ≡ vec_len marks.old }
    ensures restored { (l : ℕ) → IsRestored (lists_of graph.now) (Contains layer.now) marks.old.items
        marks.new.items l }
{
    for x in layer {
        restore_marks(graph, *x, marks);
    }
}

/// The same of all layers but the last, behind which nothing was passed.
fn restore_layers(graph: &OrderGraph, layers: &[Vec<u32>], marks: &mut Vec<u32>)
    requires { vec_len marks.old ≡ length (lists_of graph.now) }
    ensures count { vec_len marks.new ≡ vec_len marks.old }
    ensures restored { (l : ℕ) → IsRestored (lists_of graph.now)
        (StandsBeforeLast (length layers.now) (map (λ layer. layer.items) layers.now)) marks.old.items
        marks.new.items l }
{
    for d in 1..layers.len() {
        restore_layer(graph, layers[d - 1].as_slice(), marks);
    }
}

/// Sets back all: it takes a step for each list, and clears a flag for each number.
pub fn clear(graph: &OrderGraph, state: &mut State)
    requires { FitsState (graph_of graph.now) state.old }
    ensures clean { IsClean (graph_of graph.now) state.new }
    ensures looked { state.new.looked ≡ state.old.looked }
{
    reset_marks(graph, state.marks.as_mut_slice());
    state.seen.fill(false);
}

/// Sets back what was written for these layers: it takes a step for each number, and one for each spot of
/// those but in the last layer.
fn restore(graph: &OrderGraph, layers: &[Vec<u32>], state: &mut State)
    requires { (s : ℕ) × IsWalked (graph_of graph.now) s (length layers.now)
        (map (λ layer. layer.items) layers.now) state.old }
    ensures { IsClean (graph_of graph.now) state.new }
{
    forget_all(layers, &mut state.seen);
    restore_layers(graph, layers, &mut state.marks);
}

/// Sets back what was written for these layers, or all, where there was more to look at than there are lists
/// and numbers.
pub fn settle(graph: &OrderGraph, layers: &[Vec<u32>], state: &mut State)
    requires { (s : ℕ) × IsWalked (graph_of graph.now) s (length layers.now)
        (map (λ layer. layer.items) layers.now) state.old }
    ensures { IsClean (graph_of graph.now) state.new }
{
    if state.looked.count() > u64::from(graph.lists()) + u64::from(graph.elements()) {
        clear(graph, state);
    } else {
        restore(graph, layers, state);
    }
}
