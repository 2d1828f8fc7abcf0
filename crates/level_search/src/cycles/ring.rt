//! The first in dictionary order of the shortest rings.

ghost use Rattle.std.specs.Prelude.{◌≡◌, ℕ, ◌+◌, ◌*◌, ◌-◌, ◌<◌, ◌≤◌, All, IfOk, length, slice_index};
ghost use Rattle.specification.specs.Responses.{AreProper, place_count};
ghost use Rattle.specification.specs.Search.{IsShortestLength};
ghost use Rattle.order_graph.specs.Lists.{lists_of};
ghost use Rattle.list_search.specs.Rings.{IsFirstRing, IsLeastNext};
ghost use Rattle.level_search.specs.Looks.{AreCycleLooks};
ghost use Rattle.level_search.specs.Rounds.{FitsDistances};
ghost use Rattle.level_search.specs.Sources.{MeetsCycles};
ghost use Rattle.level_search.specs.Ways.{IsWay};
ghost use Rattle.list_search.specs.Walks.{HasCycle, NoneShorter};

use super::choose::next_of_ring;
use super::distances::Distances;
use super::first::first_element;
use crate::ways::{Room, Way};
use events::Memory;
use order_graph::{Looked, OrderGraph};
use std::alloc::Global;

/// The least ring from an element on, through which a shortest cycle leads.
fn ring_from(
    alloc: Global,
    graph: &OrderGraph,
    element: u32,
    k: u32,
    distances: &mut Distances,
    looked: &mut Looked,
) -> Result<Vec<u32>, Memory>
    requires fits { FitsDistances graph.now k distances.old }
    requires known { element < length graph.now.elements }
    requires cycle { HasCycle (lists_of graph.now) element k }
    requires shortest { NoneShorter (lists_of graph.now) element k }
    ensures count { IfOk result (λ v. length v.items ≡ k) }
    ensures first { IfOk result (λ v. slice_index v.items 0 ≡ element) }
    ensures chosen { IfOk result (λ v. (j : ℕ) → 0 < j → j < k
        → IsLeastNext (lists_of graph.now) element (k - j) (slice_index v.items (j - 1))
        (slice_index v.items j)) }
    ensures looked { IfOk result (λ v. looked.new ≤ looked.old + k * (place_count graph.now
        + length graph.now.elements)) }
    ensures forward { looked.old ≤ looked.new }
{
    // Its contract has that the responses are proper.
    let _ = graph.elements();
    // The cycle is a shortest, so what its i-th element stands before and leads back in k - i steps has just
    // this distance.
    distances.find_to(graph, element, k, looked);
    let mut ring = Vec::new(alloc);
    ring.push(element)?;
    let mut a = element;
    for i in 1..k {
        a = next_of_ring(graph, element, k - i, a, &distances.to.depths, looked);
        ring.push(a)?;
    }
    Ok(ring)
}

/// A cycle, by the numbers of its elements; and how many looks the search for it took, up to
/// 18446744073709551615.
#[derive(Drop)]
pub struct Ring {
    pub elements: Vec<u32>,
    pub looked: u64,
}

/// The first in dictionary order of the cycles of the shortest length, k.
pub fn least_ring(
    alloc: Global,
    graph: &OrderGraph,
    way: &Way,
    sources: &[u32],
    k: u32,
) -> Result<Ring, Memory>
    requires way { IsWay graph.now way.now }
    requires known { All (λ s. s < length graph.now.elements) sources.now }
    requires met { MeetsCycles (lists_of graph.now) (length graph.now.elements) sources.now }
    requires least { IsShortestLength graph.now k }
    ensures proper { AreProper graph.now }
    ensures first { IfOk result (λ r. IsFirstRing (lists_of graph.now) k r.elements.items) }
    ensures looked { IfOk result (λ r. AreCycleLooks graph.now k r.looked) }
{
    // Its contract has that the responses are proper.
    let _ = graph.elements();
    let mut room = Room::new(alloc, graph)?;
    let mut looked = Looked::new();
    let mut distances = Distances::new(alloc, graph, k)?;
    let element = first_element(
        graph,
        way,
        sources,
        k,
        &mut room,
        &mut distances,
        &mut looked,
    );
    let elements = ring_from(alloc, graph, element, k, &mut distances, &mut looked)?;
    Ok(Ring {
        elements,
        looked: looked.count(),
    })
}
