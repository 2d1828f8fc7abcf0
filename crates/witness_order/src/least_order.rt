//! The least order that every list follows.

ghost use Rattle.std.specs.Prelude.{◌≡◌, ℕ, ◌<◌, All, IfOk, IsTrue, MatchOption, length, vec_len};
ghost use Rattle.std.specs.Prelude.{slice_index, Contains, ◌↔◌};
ghost use Rattle.specification.specs.Orders.{IsLeastOrder, HasNoOrder};
ghost use Rattle.order_graph.specs.Kept.{names_at};
ghost use Rattle.order_graph.specs.Lists.{lists_of};
ghost use Rattle.witness_order.specs.Edges.{lists_in, AreSuccessors, AreKept, AreEdgesOf};
ghost use Rattle.witness_order.specs.Sorted.{IsSorted};
ghost use Rattle.witness_order.specs.Taken.{AreTaken};

use super::free::{free_elements, remove_edges, take_least};
use super::successors::{Successors, successors_of};
use events::{Memory, Name};
use order_graph::OrderGraph;
use std::alloc::Global;
use std::collections::BTreeSet;
use witnesses::Order;

/// The least order that every list follows; or, where no order does, the edges from each element to what stands
/// right after it.
#[derive(Drop)]
pub enum Sorted {
    Order(Order),
    Cyclic(Successors),
}

/// Takes the least free element, and frees what stood right after it, as long as one is free. It hands back the
/// edges.
fn taken_in_turn(
    alloc: Global,
    graph: &OrderGraph,
    successors: Successors,
    mut free: BTreeSet<u32>,
) -> Result<(Vec<u32>, Successors), Memory>
    requires successors { AreSuccessors (lists_of graph.now) (length graph.now.elements)
        (lists_in successors) }
    requires kept { AreKept successors }
    requires count { vec_len successors.heads ≡ length graph.now.elements }
    requires free { (x : ℕ) → Contains free.keys x
        ↔ ((x < length graph.now.elements) × (slice_index successors.indegrees.items x ≡ 0)) }
    ensures taken { IfOk result (λ p. AreTaken graph.now p.0.items) }
    ensures edges { IfOk result (λ p. AreEdgesOf (lists_of graph.now) (length graph.now.elements) p.1) }
{
    let Successors {
        edges,
        heads,
        mut indegrees,
    } = successors;
    let mut taken = Vec::with_capacity(alloc, graph.elements() as usize)?;
    while let Some(x) = take_least(&mut free) {
        let head = heads[x as usize];
        remove_edges(edges.as_slice(), head, &mut indegrees, &mut free)?;
        taken.push(x)?;
    }
    let successors = Successors {
        edges,
        heads,
        indegrees,
    };
    Ok((taken, successors))
}

/// Whether so many numbers are taken as there are elements.
fn are_all_taken(graph: &OrderGraph, taken: &[u32]) -> bool
    ensures { IsTrue result ↔ length taken.now ≡ length graph.now.elements }
{
    taken.len() == graph.elements() as usize
}

/// The names of the elements with these numbers.
fn names_of(alloc: Global, graph: &OrderGraph, numbers: &[u32]) -> Result<Vec<Name>, Memory>
    requires { All (λ x. x < length graph.now.elements) numbers.now }
    ensures { IfOk result (λ v. v.items ≡ names_at graph.now.elements numbers.now) }
{
    let mut names = Vec::new(alloc);
    for x in numbers {
        if let Some(name) = graph.name(*x) {
            names.push(name)?;
        }
    }
    Ok(names)
}

/// The numbers of the elements that can be taken one after the other, each after all that stand before it in
/// a response, in that order: the least first where several can. All elements exactly where some order
/// follows every response; else neither the elements of a cycle nor what stands after one are among them.
/// None is among them twice. Where they are all elements, they stand in the least order.
///
/// Time: one pass over the places of all responses, which lists an edge from each element to what stands
/// right after it; one look more at each edge; and each element once into and out of an ordered set. An
/// element gets an edge at each place where what stands right after it is not where its last edge leads: so
/// there are no more edges than places, and few where responses mostly repeat one another. Memory: linear in
/// the elements and these edges.
pub fn taken(alloc: Global, graph: &OrderGraph) -> Result<Vec<u32>, Memory>
    ensures { IfOk result (λ v. AreTaken graph.now v.items) }
{
    let (taken, _) = taken_and_edges(alloc, graph)?;
    Ok(taken)
}

/// What is taken in turn, and the edges by which it is.
fn taken_and_edges(alloc: Global, graph: &OrderGraph) -> Result<(Vec<u32>, Successors), Memory>
    ensures taken { IfOk result (λ p. AreTaken graph.now p.0.items) }
    ensures edges { IfOk result (λ p. AreEdgesOf (lists_of graph.now) (length graph.now.elements) p.1) }
{
    let successors = successors_of(alloc, graph)?;
    let free = free_elements(alloc, successors.indegrees.as_slice())?;
    taken_in_turn(alloc, graph, successors, free)
}

/// The least order, as `order` finds it; or, where no order follows every response, the edges between elements
/// side by side in some response.
///
/// Time and memory are those of `taken`, and the names of the elements are copied where there is an order. The
/// edges are let go before.
pub fn sort(alloc: Global, graph: &OrderGraph) -> Result<Sorted, Memory>
    ensures { IfOk result (IsSorted graph.now) }
{
    let (taken, successors) = taken_and_edges(alloc, graph)?;
    if !are_all_taken(graph, taken.as_slice()) {
        return Ok(Sorted::Cyclic(successors));
    }
    drop(successors);
    let names = names_of(alloc, graph, taken.as_slice())?;
    Ok(Sorted::Order(Order::from_names(names)))
}

/// The least order of the elements that follows every response, by dictionary order of their numbers; none
/// exactly where no order does, which is where responses show some elements in a cycle.
///
/// Time and memory are those of `sort`.
pub fn order(alloc: Global, graph: &OrderGraph) -> Result<Option<Order>, Memory>
    ensures { IfOk result (λ o. MatchOption o (HasNoOrder graph.now) (λ p. IsLeastOrder graph.now p)) }
{
    match sort(alloc, graph)? {
        Sorted::Order(order) => Ok(Some(order)),
        Sorted::Cyclic(_) => Ok(None),
    }
}
