//! What stands right after each element in some list.

ghost use Rattle.std.specs.Prelude.{◌≡◌, ℕ, ◌+◌, ◌-◌, ◌<◌, ◌≤◌, ◌⊎◌, ◌↔◌, ◌^◌, All, Contains, IfOk, IsTrue};
ghost use Rattle.std.specs.Prelude.{OnOk, length, vec_len};
ghost use Rattle.order_graph.specs.Lists.{lists_of, row};
ghost use Rattle.witness_order.specs.Edges.{lists_in, IsNext, AreSuccessors, edge_at, AreKept, AreEdgesOf};

use events::Memory;
use order_graph::OrderGraph;
use std::alloc::Global;

/// An edge from an element to one that stands right after it in some list.
#[derive(Clone, Copy)]
pub struct Edge {
    /// The element that it leads to.
    pub to: u32,
    /// The number of the edge listed before it for the same element; 0 where there is none.
    pub next: u32,
}

/// The edges from each element to what stands right after it. They have numbers from 1 on, in the order in
/// which they were listed, and those of one element are a linked list, the newest first.
#[derive(Drop)]
pub struct Successors {
    /// The edges of all elements: number 1 first.
    pub edges: Vec<Edge>,
    /// For each element the number of its newest edge; 0 where it has none.
    pub heads: Vec<u32>,
    /// For each element how many edges lead to it; once some are taken, from those that are not.
    pub indegrees: Vec<u32>,
}

/// No edges yet for so many elements, and room for as many edges.
fn without_edges(alloc: Global, elements: usize) -> Result<Successors, Memory>
    ensures count { IfOk result (λ s. vec_len s.heads ≡ elements) }
    ensures kept { IfOk result (λ s. AreKept s) }
    ensures empty { IfOk result (λ s. vec_len s.edges ≡ 0) }
{
    Ok(Successors {
        edges: Vec::with_capacity(alloc, elements)?,
        heads: Vec::from_elem(alloc, 0, elements)?,
        indegrees: Vec::from_elem(alloc, 0, elements)?,
    })
}

/// Whether the edge with this number leads to y. No edge has the number 0.
fn leads_to(edges: &[Edge], number: u32, y: u32) -> bool
    requires { number ≤ length edges.now }
    ensures { IsTrue result ↔ ((0 < number) × ((edge_at edges.now (number - 1)).to ≡ y)) }
{
    number != 0 && edges[number as usize - 1].to == y
}

/// Lists y for x, but where y is the last that was listed for x.
fn note(successors: &mut Successors, x: u32, y: u32) -> Result<(), Memory>
    requires from { x < vec_len successors.old.heads }
    requires to { y < vec_len successors.old.heads }
    requires kept { AreKept successors.old }
    requires room { vec_len successors.old.edges + 1 < 2 ^ 32 }
    ensures count { vec_len successors.new.heads ≡ vec_len successors.old.heads }
    ensures kept { OnOk result (AreKept successors.new) }
    ensures listed { OnOk result ((z w : ℕ) → Contains (row (lists_in successors.new) z) w
        ↔ (Contains (row (lists_in successors.old) z) w ⊎ ((z ≡ x) × (w ≡ y)))) }
    ensures short { OnOk result (vec_len successors.new.edges ≤ vec_len successors.old.edges + 1) }
{
    let head = successors.heads[x as usize];
    if leads_to(successors.edges.as_slice(), head, y) {
        return Ok(());
    }
    successors.edges.push(Edge { to: y, next: head })?;
    successors.heads[x as usize] = successors.edges.len() as u32;
    successors.indegrees[y as usize] += 1;
    Ok(())
}

/// Lists what stands right after each place of a list.
fn note_list(successors: &mut Successors, list: &[u32]) -> Result<(), Memory>
    requires known { All (λ x. x < vec_len successors.old.heads) list.now }
    requires kept { AreKept successors.old }
    requires room { vec_len successors.old.edges + length list.now < 2 ^ 32 }
    ensures count { vec_len successors.new.heads ≡ vec_len successors.old.heads }
    ensures kept { OnOk result (AreKept successors.new) }
    ensures listed { OnOk result ((x y : ℕ) → Contains (row (lists_in successors.new) x) y
        ↔ (Contains (row (lists_in successors.old) x) y ⊎ IsNext list.now x y)) }
    ensures short { OnOk result (vec_len successors.new.edges
        ≤ vec_len successors.old.edges + length list.now) }
{
    for j in 1..list.len() {
        note(successors, list[j - 1], list[j])?;
    }
    Ok(())
}

/// For each element, in order of numbers, what stands right after it in some list. A list mostly goes on like
/// the one before it, so what was listed last for an element is not listed once more. It is one pass over the
/// places, and takes memory linear in the elements and the edges.
pub fn successors_of(alloc: Global, graph: &OrderGraph) -> Result<Successors, Memory>
    ensures successors { IfOk result (λ s. AreSuccessors (lists_of graph.now) (length graph.now.elements)
        (lists_in s)) }
    ensures kept { IfOk result (λ s. AreKept s) }
    ensures edges { IfOk result (AreEdgesOf (lists_of graph.now) (length graph.now.elements)) }
    ensures count { IfOk result (λ s. vec_len s.heads ≡ length graph.now.elements) }
    ensures few { IfOk result (λ s. vec_len s.heads < 2 ^ 32) }
{
    let mut successors = without_edges(alloc, graph.elements() as usize)?;
    for list in 0..graph.lists() {
        note_list(&mut successors, graph.list(list))?;
    }
    Ok(successors)
}
