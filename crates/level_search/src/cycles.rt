//! The least cycle, and its steps.

ghost use Rattle.std.specs.Prelude.{◌≡◌, ◌<◌, All, IfOk, length};
ghost use Rattle.specification.specs.Conflict.{AreLeastSteps};
ghost use Rattle.specification.specs.Search.{IsShortestLength};
ghost use Rattle.order_graph.specs.Lists.{lists_of};
ghost use Rattle.level_search.specs.Looks.{AreCycleLooks};
ghost use Rattle.level_search.specs.Sources.{MeetsCycles};
ghost use Rattle.level_search.specs.Thinned.{IsThinned};
ghost use Rattle.level_search.specs.Ways.{IsWay};

mod choose;
mod distances;
mod first;
mod ring;
mod steps;

use super::cycle_core::Core;
use super::sources::feedback_vertex_set;
use crate::ways::Way;
use events::Memory;
use order_graph::OrderGraph;
use ring::{Ring, least_ring};
use std::alloc::Global;
use steps::steps_of;
use witness_order::successors_of;
use witnesses::Steps;

/// The steps of a cycle, and how many looks the search for it took, up to 18446744073709551615.
#[derive(Drop)]
pub struct Cycle {
    pub steps: Steps,
    pub looked: u64,
}

/// The least cycle, where k is the length of a shortest: its elements are the first, in dictionary order of
/// their numbers, of all cycles of k elements, and each step names the least operation that shows it.
///
/// It leaves out the elements through which no cycle leads. It searches from elements up to the cycle's first,
/// as `conflict_number` does; over the lists also from few through which all cycles lead, by turns. The rest
/// is linear in the elements and places that are left, for each of these few that is on a shortest cycle and
/// for the first: searches for distances, and what stands after each element of the cycle.
pub fn least_cycle(alloc: Global, graph: &OrderGraph, k: u32) -> Result<Steps, Memory>
    requires { IsShortestLength graph.now k }
    ensures { IfOk result (λ steps. AreLeastSteps graph.now steps × (length steps ≡ k)) }
{
    // Its contract has that the responses are proper.
    let _ = graph.elements();
    let core = Core::of(alloc, graph, successors_of(alloc, graph)?)?;
    let _ = core.graph.elements();
    let searched = core.searched();
    let _ = searched.elements();
    let way = Way::of(alloc, searched)?;
    let sources = feedback_vertex_set(alloc, searched, &way)?;
    let way = way.with_lower_bounds(alloc, searched, &sources)?;
    let cycle = least_cycle_from(alloc, &core.graph, searched, &way, &sources, k)?;
    Ok(cycle.steps)
}

/// The same, with its looks, where searches go in a graph with fewer lists, which shows the same, and this way;
/// and each cycle leads through one of these sources. The operations of the steps are those of the whole.
pub fn least_cycle_from(
    alloc: Global,
    graph: &OrderGraph,
    searched: &OrderGraph,
    way: &Way,
    sources: &[u32],
    k: u32,
) -> Result<Cycle, Memory>
    requires thin { IsThinned graph.now searched.now }
    requires way { IsWay searched.now way.now }
    requires known { All (λ s. s < length searched.now.elements) sources.now }
    requires met { MeetsCycles (lists_of searched.now) (length searched.now.elements) sources.now }
    requires shortest { IsShortestLength graph.now k }
    ensures steps { IfOk result (λ c. AreLeastSteps graph.now c.steps × (length c.steps ≡ k)) }
    ensures looked { IfOk result (λ c. AreCycleLooks searched.now k c.looked) }
{
    // Its contract has that the responses are proper.
    let _ = graph.elements();
    let ring = least_ring(alloc, searched, way, sources, k)?;
    let Ring { elements, looked } = ring;
    let steps = steps_of(alloc, graph, &elements)?;
    Ok(Cycle {
        steps: Steps::from_items(steps),
        looked,
    })
}
