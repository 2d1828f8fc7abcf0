//! The least element that comes next on a shortest way back.

ghost use Rattle.std.specs.Prelude.{◌≡◌, ◌⊎◌, ◌↔◌, ℕ, ◌+◌, ◌<◌, ◌≤◌, Some, length, slice_get, slice_index};
ghost use Rattle.specification.specs.Responses.{place_count};
ghost use Rattle.order_graph.specs.Lists.{lists_of, row, Stands};
ghost use Rattle.order_graph.specs.Spots.{spots_of};
ghost use Rattle.order_graph.specs.declared.spot.Spot.{Spot};
ghost use Rattle.list_search.specs.Graph.{Before};
ghost use Rattle.list_search.specs.Progress.{IsAfter};
ghost use Rattle.list_search.specs.Rings.{IsLeastNext, Reaches};

use order_graph::{Looked, OrderGraph, Spot};

/// The lesser of the best so far and the element at one place, where that has this depth.
fn less_at(
    graph: &OrderGraph,
    list: u32,
    j: u32,
    depths: &[u32],
    depth: u32,
    best: u32,
    looked: &mut Looked,
) -> u32
    requires { length depths.now ≡ length graph.now.elements }
    ensures least { (y : ℕ) → Stands (lists_of graph.now) list j y → slice_index depths.now y ≡ depth
        → result ≤ y }
    ensures falls { result ≤ best }
    ensures first { (result ≡ best) ⊎ (Stands (lists_of graph.now) list j result
        × (slice_index depths.now result ≡ depth)) }
    ensures looked { looked.new ≤ looked.old + 1 }
    ensures forward { looked.old ≤ looked.new }
{
    match graph.place(list, j, looked) {
        Some(y) if depths[y as usize] == depth && y < best => y,
        _ => best,
    }
}

/// The same after a spot.
fn less_behind(
    graph: &OrderGraph,
    spot: Spot,
    depths: &[u32],
    depth: u32,
    best: u32,
    looked: &mut Looked,
) -> u32
    requires count { length depths.now ≡ length graph.now.elements }
    requires inside { spot.place < length (row (lists_of graph.now) spot.list) }
    ensures least { (y : ℕ) → IsAfter (lists_of graph.now) spot.list spot.place y
        → slice_index depths.now y ≡ depth → result ≤ y }
    ensures falls { result ≤ best }
    ensures first { (result ≡ best) ⊎ (IsAfter (lists_of graph.now) spot.list spot.place result
        × (slice_index depths.now result ≡ depth)) }
    ensures looked { looked.new ≤ looked.old + length (row (lists_of graph.now) spot.list) }
    ensures forward { looked.old ≤ looked.new }
{
    let end = graph.length(spot.list);
    let mut least = best;
    for j in spot.place + 1..end {
        least = less_at(graph, spot.list, j, depths, depth, least, looked);
    }
    least
}

/// The same after one spot of an element.
fn less_behind_spot(
    graph: &OrderGraph,
    a: u32,
    i: u32,
    depths: &[u32],
    depth: u32,
    best: u32,
    looked: &mut Looked,
) -> u32
    requires { length depths.now ≡ length graph.now.elements }
    ensures least { (q : Spot) (y : ℕ) → slice_get (spots_of (lists_of graph.now) a) i ≡ Some q
        → IsAfter (lists_of graph.now) q.list q.place y
        → slice_index depths.now y ≡ depth → result ≤ y }
    ensures falls { result ≤ best }
    ensures first { (result ≡ best) ⊎ (Before (lists_of graph.now) a result
        × (slice_index depths.now result ≡ depth)) }
    ensures looked { (q : Spot) → slice_get (spots_of (lists_of graph.now) a) i ≡ Some q
        → looked.new ≤ looked.old + length (row (lists_of graph.now) q.list) }
    ensures forward { looked.old ≤ looked.new }
{
    match graph.spot(a, i) {
        Some(spot) => less_behind(graph, spot, depths, depth, best, looked),
        None => best,
    }
}

/// The least element of this depth before which `a` stands; the number of elements where there is none. It
/// looks at no place twice: the spots of `a` are in different lists.
fn least_next(graph: &OrderGraph, a: u32, depths: &[u32], depth: u32, looked: &mut Looked) -> u32
    requires { length depths.now ≡ length graph.now.elements }
    ensures least { (y : ℕ) → Before (lists_of graph.now) a y → slice_index depths.now y ≡ depth
        → result ≤ y }
    ensures first { (result ≡ length graph.now.elements)
        ⊎ (Before (lists_of graph.now) a result × (slice_index depths.now result ≡ depth)) }
    ensures looked { looked.new ≤ looked.old + place_count graph.now }
    ensures forward { looked.old ≤ looked.new }
{
    let mut least = graph.elements();
    for i in 0..graph.spots(a) {
        least = less_behind_spot(graph, a, i, depths, depth, least, looked);
    }
    least
}

/// The next element of the least ring: n steps lead on from it. These are the depths of what stands after the
/// one before it.
pub fn next_of_ring(
    graph: &OrderGraph,
    z: u32,
    n: u32,
    a: u32,
    depths: &[u32],
    looked: &mut Looked,
) -> u32
    requires count { length depths.now ≡ length graph.now.elements }
    requires depths { (y : ℕ) → Before (lists_of graph.now) a y → (slice_index depths.now y ≡ n)
        ↔ Reaches (lists_of graph.now) z n y }
    requires on { Reaches (lists_of graph.now) z (n + 1) a }
    ensures next { IsLeastNext (lists_of graph.now) z n a result }
    ensures looked { looked.new ≤ looked.old + place_count graph.now }
    ensures forward { looked.old ≤ looked.new }
{
    // Its contract has that the responses are proper.
    let _ = graph.elements();
    least_next(graph, a, depths, n, looked)
}
