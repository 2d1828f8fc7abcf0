//! The elements from which it is enough to search.

ghost use Rattle.std.specs.Prelude.{◌≡◌, ◌<◌, ◌≤◌, ℕ, All, AllPairs, Contains, IfOk, length};
ghost use Rattle.std.specs.Prelude.{slice_index};
ghost use Rattle.order_graph.specs.Lists.{lists_of};
ghost use Rattle.level_search.specs.Sources.{AreFewerRanks, IsRanked, MeetsCycles, Rises};
ghost use Rattle.level_search.specs.Ways.{IsWay};

mod greatest;
mod list_peeling;
mod table_peeling;

use crate::ways::Way;
use events::Memory;
use list_peeling::order_by_lists;
use order_graph::OrderGraph;
use std::alloc::Global;
use table_peeling::order_by_table;

/// The rank of an element that is out of place, or that was not taken.
pub const UNRANKED: u32 = u32::MAX;
/// Where there are no more elements than this, each is searched from.
const FEW: u32 = 64;

/// Elements through one of which each cycle leads: a feedback vertex set of the graph whose edges lead from
/// each element to those that some list shows after it.
///
/// Where the elements are many, those are taken that stand out of place in some order of all. The order is a
/// guess, and it is cut down to one along which each list rises: an element is out of place where one stands
/// before it in some list that comes later in the order, and is not out of place itself. It takes memory
/// linear in the elements, the lists and the places.
pub fn feedback_vertex_set(alloc: Global, graph: &OrderGraph, way: &Way) -> Result<Vec<u32>, Memory>
    requires { IsWay graph.now way.now }
    ensures known { IfOk result (λ v. All (λ s. s < length graph.now.elements) v.items) }
    ensures count { IfOk result (λ v. length v.items ≤ length graph.now.elements) }
    ensures met { IfOk result (λ v. MeetsCycles (lists_of graph.now) (length graph.now.elements) v.items) }
{
    if graph.elements() <= FEW {
        return all_elements(alloc, graph);
    }
    let order = order_taken(alloc, graph, way)?;
    let mut ranks = ranks_along(alloc, graph, &order)?;
    rise_along(graph, ranks.as_mut_slice());
    unranked(alloc, &ranks)
}

/// The elements in an order in which few should be out of place.
fn order_taken(alloc: Global, graph: &OrderGraph, way: &Way) -> Result<Vec<u32>, Memory>
    requires { IsWay graph.now way.now }
{
    match &way.table {
        Some(table) => order_by_table(alloc, graph, table),
        None => order_by_lists(alloc, graph),
    }
}

/// The places of the elements in an order; no rank for those that the order lacks.
fn ranks_along(alloc: Global, graph: &OrderGraph, order: &[u32]) -> Result<Vec<u32>, Memory>
    ensures { IfOk result (λ ranks. length ranks.items ≡ length graph.now.elements) }
{
    let mut ranks = Vec::from_elem(alloc, UNRANKED, graph.elements() as usize)?;
    for rank in 0..graph.elements() {
        if let Some(x) = order.get(rank as usize) {
            if (*x as usize) < ranks.len() {
                ranks[*x as usize] = rank;
            }
        }
    }
    Ok(ranks)
}

/// Takes ranks away, so that those that are left rise along each list.
fn rise_along(graph: &OrderGraph, ranks: &mut [u32])
    requires count { length ranks.old ≡ length graph.now.elements }
    ensures count { length ranks.new ≡ length ranks.old }
    ensures rise { (l : ℕ) → Rises (lists_of graph.now) ranks.new l }
{
    for list in 0..graph.lists() {
        rise_in(graph, list, ranks);
    }
}

/// Takes ranks away, so that those that are left rise along this list.
fn rise_in(graph: &OrderGraph, list: u32, ranks: &mut [u32])
    requires count { length ranks.old ≡ length graph.now.elements }
    ensures count { length ranks.new ≡ length ranks.old }
    ensures fewer { AreFewerRanks ranks.old ranks.new }
    ensures rise { Rises (lists_of graph.now) ranks.new list }
{
    let mut next = 0;
    for j in 0..graph.list(list).len() {
        next = rise_at(graph.list(list)[j], next, ranks);
    }
}

/// Takes the rank of an element away where it is below this one; the least rank that may come next.
fn rise_at(x: u32, next: u32, ranks: &mut [u32]) -> u32
    requires known { x < length ranks.old }
    requires next { next ≤ UNRANKED }
    ensures count { length ranks.new ≡ length ranks.old }
    ensures fewer { AreFewerRanks ranks.old ranks.new }
    ensures next { (next ≤ result) × (result ≤ UNRANKED) }
    ensures above { IsRanked ranks.new x → (next ≤ slice_index ranks.new x) × (slice_index ranks.new x < result) }
{
    let rank = ranks[x as usize];
    if rank == UNRANKED {
        return next;
    }
    if rank < next {
        ranks[x as usize] = UNRANKED;
        return next;
    }
    rank + 1
}

/// Each element.
fn all_elements(alloc: Global, graph: &OrderGraph) -> Result<Vec<u32>, Memory>
    ensures known { IfOk result (λ v. All (λ s. s < length graph.now.elements) v.items) }
    ensures count { IfOk result (λ v. length v.items ≤ length graph.now.elements) }
    ensures all { IfOk result (λ v. (x : ℕ) → x < length graph.now.elements → Contains v.items x) }
{
    let mut elements = Vec::new(alloc);
    for x in 0..graph.elements() {
        elements.push(x)?;
    }
    Ok(elements)
}

/// The elements without a rank, in order of numbers.
pub fn unranked(alloc: Global, ranks: &[u32]) -> Result<Vec<u32>, Memory>
    requires { length ranks.now < u32.MAX }
    ensures rising { IfOk result (λ v. AllPairs (λ x y. x < y) v.items) }
    ensures known { IfOk result (λ v. All (λ s. s < length ranks.now) v.items) }
    ensures count { IfOk result (λ v. length v.items ≤ length ranks.now) }
    ensures all { IfOk result (λ v. (x : ℕ) → x < length ranks.now → slice_index ranks.now x ≡ u32.MAX
        → Contains v.items x) }
    ensures only { IfOk result (λ v. All (λ x. slice_index ranks.now x ≡ u32.MAX) v.items) }
{
    let mut elements = Vec::new(alloc);
    for (x, rank) in ranks.iter().enumerate() {
        if *rank == UNRANKED {
            elements.push(x as u32)?;
        }
    }
    Ok(elements)
}
