//! The conflict number, and the least conflict.

ghost use Rattle.std.specs.Prelude.{◌≡◌, ◌⊎◌, ◌↔◌, ◌<◌, IfOk, IfSome, IsErrOf, length};
ghost use Rattle.specification.specs.Conflict.{IsConflictNumber};
ghost use Rattle.order_graph.specs.Lists.{lists_of};
ghost use Rattle.level_search.specs.Conflicts.{AreLooksIn, IsFound, IsLeastConflict, IsPrepared};
ghost use Rattle.level_search.specs.Conflicts.{IsWithinSearches, searched_in};
ghost use Rattle.level_search.specs.Looks.{AreCycleLooks};
ghost use Rattle.level_search.specs.Team.{AreLooksOf, IsLeastLength};
ghost use Rattle.witness_order.specs.Edges.{AreEdgesOf};

use super::MOST_WORKERS;
use super::cycle_core::Core;
use super::cycles::least_cycle_from;
use super::gate::Gate;
use super::search_fault::SearchFault;
use super::sources::feedback_vertex_set;
use super::workers::{Searched, least_length, least_length_in_turn};
use crate::ways::Way;
use events::Memory;
use order_graph::OrderGraph;
use shared_bound::NO_OFFER;
use std::alloc::Global;
use std::thread::Threads;
use witness_order::{Successors, successors_of};
use witnesses::Steps;

/// What the workers have found: the core, the way in which they searched it, and the elements from which; the
/// length of a shortest cycle, or `NO_OFFER` where there is none; and how many steps they have taken.
#[derive(Drop)]
struct Found {
    core: Core,
    way: Way,
    sources: Vec<u32>,
    least: u32,
    looked: u64,
}

/// The edges between the neighbouring places of a graph, where so many workers can search it.
fn edges_for(alloc: Global, graph: &OrderGraph, workers: u32) -> Result<Successors, SearchFault>
    ensures edges { IfOk result (AreEdgesOf (lists_of graph.now) (length graph.now.elements)) }
    ensures workers { IsErrOf result SearchFault.Workers ↔ ((workers < 1) ⊎ (MOST_WORKERS < workers)) }
{
    if workers < 1 || workers > MOST_WORKERS {
        return Err(SearchFault::Workers);
    }
    Ok(successors_of(alloc, graph)?)
}

/// What is made before a search: the core, the way in which it is searched, and the elements from which.
#[derive(Drop)]
struct Prepared {
    core: Core,
    way: Way,
    sources: Vec<u32>,
}

/// Makes the core of a graph with these edges, and what its searches read.
fn prepare(alloc: Global, graph: &OrderGraph, successors: Successors) -> Result<Prepared, Memory>
    requires { AreEdgesOf (lists_of graph.now) (length graph.now.elements) successors }
    ensures { IfOk result (IsPrepared graph.now) }
{
    // Its contract has that the responses are proper.
    let _ = graph.elements();
    let core = Core::of(alloc, graph, successors)?;
    let _ = core.graph.elements();
    let part = core.searched();
    let _ = part.elements();
    let way = Way::of(alloc, part)?;
    let sources = feedback_vertex_set(alloc, part, &way)?;
    let way = way.with_lower_bounds(alloc, part, &sources)?;
    Ok(Prepared { core, way, sources })
}

/// What was found in the core of a graph.
fn found_in(graph: &OrderGraph, prepared: Prepared, searched: Searched) -> Found
    requires prepared { IsPrepared graph.now prepared }
    requires least { IsLeastLength (searched_in prepared.core) searched.least }
    requires looked { AreLooksOf (length (searched_in prepared.core).elements)
        (lists_of (searched_in prepared.core)) searched.least searched.looked }
    ensures { IsFound graph.now result }
{
    let Prepared { core, way, sources } = prepared;
    let Searched { least, looked } = searched;
    Found {
        core,
        way,
        sources,
        least,
        looked,
    }
}

/// Searches the core of a graph with these edges.
fn search_core<H: Threads + Sync, G: Gate>(
    rt: &H,
    alloc: Global,
    graph: &OrderGraph,
    successors: Successors,
    workers: u32,
    gate: &G,
) -> Result<Found, SearchFault>
    requires { AreEdgesOf (lists_of graph.now) (length graph.now.elements) successors }
    ensures least { IfOk result (IsFound graph.now) }
    ensures workers { IsErrOf result SearchFault.Workers ↔ ((workers < 1) ⊎ (MOST_WORKERS < workers)) }
{
    if workers < 1 || workers > MOST_WORKERS {
        return Err(SearchFault::Workers);
    }
    let prepared = prepare(alloc, graph, successors)?;
    let part = prepared.core.searched();
    let _ = part.elements();
    let gate = prepared.core.gate(gate);
    let searched = least_length(
        rt,
        alloc,
        part,
        &prepared.way,
        &prepared.sources,
        workers,
        &gate,
    )?;
    Ok(found_in(graph, prepared, searched))
}

/// The same by one worker, in the caller's thread.
fn search_core_in_turn(
    alloc: Global,
    graph: &OrderGraph,
    successors: Successors,
) -> Result<Found, Memory>
    requires { AreEdgesOf (lists_of graph.now) (length graph.now.elements) successors }
    ensures { IfOk result (IsFound graph.now) }
{
    let prepared = prepare(alloc, graph, successors)?;
    let part = prepared.core.searched();
    let _ = part.elements();
    let searched = least_length_in_turn(alloc, part, &prepared.way, &prepared.sources)?;
    Ok(found_in(graph, prepared, searched))
}

/// The conflict number: the least number of operations whose responses no order of the elements has all as
/// subsequences; none where some order has the responses of all operations.
///
/// It is the length of a shortest cycle. The elements through which a cycle leads are the core. A shortest
/// cycle is searched for there by 1 to 64 workers in threads, which take the elements to search from one
/// after the other and share the least length found. Where the core has
/// at most 64 elements these are all. Where it has more they are those that stand out of place in some order
/// of them: each cycle leads through one of these, since along a cycle no order rises all the way, and so a
/// shortest cycle is found from there. The gate is called round each search, with the number that the element
/// has in this graph. Where no thread can be started, another runs its worker. The answer is the same for any
/// number of workers, any gate and any order in which the workers come to run.
///
/// All searches go over the lists, where one looks at each place and element at most; or over one table, where
/// that has no more words than there are places. The table has for each element of the core the set of those
/// that some list shows before it, a bit each: n * n / 8 bytes for n elements, at most 8 bytes for each place.
/// What making it takes is said at `BeforeTable::of`. A search keeps sets of n bits. It goes
/// through the n / 64 words of such sets twice at its start, once for each element that it goes on from, and
/// six times at most for each of its levels, and it takes a few steps more for each element that it reaches.
/// Each worker takes memory linear in the core. All memory is taken before the first search.
pub fn conflict_number<H: Threads + Sync, G: Gate>(
    rt: &H,
    alloc: Global,
    graph: &OrderGraph,
    workers: u32,
    gate: &G,
) -> Result<Option<u32>, SearchFault>
    ensures number { IfOk result (λ k. IsConflictNumber graph.now k) }
    ensures workers { IsErrOf result SearchFault.Workers ↔ ((workers < 1) ⊎ (MOST_WORKERS < workers)) }
{
    let successors = edges_for(alloc, graph, workers)?;
    let found = search_core(rt, alloc, graph, successors, workers, gate)?;
    if found.least == NO_OFFER {
        Ok(None)
    } else {
        Ok(Some(found.least))
    }
}

/// A conflict: its number, and the steps of the least cycle, as many; and how many looks the searches for the
/// number took together, at rows of their table or at places and elements, and how many the search for the
/// least cycle took, each up to 18446744073709551615.
#[derive(Drop)]
pub struct Conflict {
    pub k: u32,
    pub steps: Steps,
    pub looked: u64,
    pub cycle_looked: u64,
}

/// The conflict number and the least cycle, as `conflict_number` and `least_cycle` find them; none where
/// some order has the responses of all operations. What the searches read is made once for both.
pub fn least_conflict<H: Threads + Sync, G: Gate>(
    rt: &H,
    alloc: Global,
    graph: &OrderGraph,
    workers: u32,
    gate: &G,
) -> Result<Option<Conflict>, SearchFault>
    ensures conflict { IfOk result (IsLeastConflict graph.now) }
    ensures looked { IfOk result (λ found. IfSome found (λ c. AreLooksIn graph.now c.k c.looked)) }
    ensures few { IfOk result (λ found. IfSome found (λ c. IsWithinSearches graph.now c.looked)) }
    ensures cycle { IfOk result (λ found. IfSome found (λ c. AreCycleLooks graph.now c.k c.cycle_looked)) }
    ensures workers { IsErrOf result SearchFault.Workers ↔ ((workers < 1) ⊎ (MOST_WORKERS < workers)) }
{
    let successors = edges_for(alloc, graph, workers)?;
    least_conflict_along(rt, alloc, graph, successors, workers, gate)
}

/// The same, where the edges between neighbouring places are known, as where `witness_order::sort` has found no
/// order.
pub fn least_conflict_along<H: Threads + Sync, G: Gate>(
    rt: &H,
    alloc: Global,
    graph: &OrderGraph,
    successors: Successors,
    workers: u32,
    gate: &G,
) -> Result<Option<Conflict>, SearchFault>
    requires edges { AreEdgesOf (lists_of graph.now) (length graph.now.elements) successors }
    ensures conflict { IfOk result (IsLeastConflict graph.now) }
    ensures looked { IfOk result (λ found. IfSome found (λ c. AreLooksIn graph.now c.k c.looked)) }
    ensures few { IfOk result (λ found. IfSome found (λ c. IsWithinSearches graph.now c.looked)) }
    ensures cycle { IfOk result (λ found. IfSome found (λ c. AreCycleLooks graph.now c.k c.cycle_looked)) }
    ensures workers { IsErrOf result SearchFault.Workers ↔ ((workers < 1) ⊎ (MOST_WORKERS < workers)) }
{
    let found = search_core(rt, alloc, graph, successors, workers, gate)?;
    Ok(conflict_of(alloc, graph, found)?)
}

/// The same by one worker, in the caller's thread, which needs no handle.
pub fn least_conflict_in_turn(
    alloc: Global,
    graph: &OrderGraph,
    successors: Successors,
) -> Result<Option<Conflict>, Memory>
    requires edges { AreEdgesOf (lists_of graph.now) (length graph.now.elements) successors }
    ensures conflict { IfOk result (IsLeastConflict graph.now) }
    ensures looked { IfOk result (λ found. IfSome found (λ c. AreLooksIn graph.now c.k c.looked)) }
    ensures few { IfOk result (λ found. IfSome found (λ c. IsWithinSearches graph.now c.looked)) }
    ensures cycle { IfOk result (λ found. IfSome found (λ c. AreCycleLooks graph.now c.k c.cycle_looked)) }
{
    let found = search_core_in_turn(alloc, graph, successors)?;
    conflict_of(alloc, graph, found)
}

/// The conflict that was found in a graph: with its least cycle, or none.
fn conflict_of(alloc: Global, graph: &OrderGraph, found: Found) -> Result<Option<Conflict>, Memory>
    requires { IsFound graph.now found }
    ensures conflict { IfOk result (IsLeastConflict graph.now) }
    ensures looked { IfOk result (λ made. IfSome made (λ c. AreLooksIn graph.now c.k c.looked)) }
    ensures few { IfOk result (λ made. IfSome made (λ c. IsWithinSearches graph.now c.looked)) }
    ensures cycle { IfOk result (λ made. IfSome made (λ c. AreCycleLooks graph.now c.k c.cycle_looked)) }
{
    if found.least == NO_OFFER {
        return Ok(None);
    }
    let cycle = least_cycle_from(
        alloc,
        &found.core.graph,
        found.core.searched(),
        &found.way,
        &found.sources,
        found.least,
    )?;
    Ok(Some(Conflict {
        k: found.least,
        steps: cycle.steps,
        looked: found.looked,
        cycle_looked: cycle.looked,
    }))
}
