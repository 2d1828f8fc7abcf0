//! The elements that lie on a cycle: those whose strongly connected component has others.

ghost use Rattle.std.specs.Prelude.{◌≡◌, ◌↔◌, ◌<◌, ◌≤◌, ℕ, All, AllPairs, Contains, IfOk, length};
ghost use Rattle.std.specs.Prelude.{slice_index_or};
ghost use Rattle.std.specs.Prelude.{true, false, vec_len};
ghost use Rattle.order_graph.specs.Lists.{lists_of};
ghost use Rattle.list_search.specs.ScratchView.{Fits};
ghost use Rattle.level_search.specs.Cores.{LiesOnCycle};
ghost use Rattle.witness_order.specs.Edges.{AreEdgesOf};

mod guess;
mod tested;

use events::Memory;
use guess::{Guess, guess_components};
use list_search::{PlainBound, Scratch, search};
use order_graph::OrderGraph;
use std::alloc::Global;
use tested::is_right;
use witness_order::Successors;

/// The elements through which a cycle leads, in order of numbers: each is in a strongly connected component
/// with others.
///
/// The components are guessed, and the guess is tested, by the edges between neighbouring places. All of it
/// takes time linear in the elements and the edges, and memory linear in the elements. If the guess were wrong, a search from each element would
/// tell, which takes long, but no other answer comes of it.
pub fn elements_on_cycles(
    alloc: Global,
    graph: &OrderGraph,
    successors: Successors,
) -> Result<Vec<u32>, Memory>
    requires { AreEdgesOf (lists_of graph.now) (length graph.now.elements) successors }
    ensures rising { IfOk result (λ v. AllPairs (λ x y. x < y) v.items) }
    ensures known { IfOk result (λ v. All (λ x. x < length graph.now.elements) v.items) }
    ensures few { IfOk result (λ v. length v.items ≤ length graph.now.elements) }
    ensures on_cycles { IfOk result (λ v. All (LiesOnCycle graph.now) v.items) }
    ensures whole { IfOk result (λ v. (x : ℕ) → LiesOnCycle graph.now x → Contains v.items x) }
{
    // Its contract has that the responses are proper.
    let _ = graph.elements();
    let marks = marks_on_cycles(alloc, graph, successors)?;
    marked(alloc, marks.as_slice())
}

/// For each element whether a cycle leads through it.
fn marks_on_cycles(
    alloc: Global,
    graph: &OrderGraph,
    successors: Successors,
) -> Result<Vec<bool>, Memory>
    requires { AreEdgesOf (lists_of graph.now) (length graph.now.elements) successors }
    ensures count { IfOk result (λ v. vec_len v ≡ length graph.now.elements) }
    ensures marks { IfOk result (λ v. (x : ℕ) → x < length graph.now.elements
        → (slice_index_or v.items x false ≡ true) ↔ LiesOnCycle graph.now x) }
{
    // Its contract has that the responses are proper.
    let _ = graph.elements();
    let guess = guess_components(alloc, &successors)?;
    if !is_right(alloc, graph, &successors, &guess)? {
        return searched_marks(alloc, graph);
    }
    let Guess {
        ranks: _,
        roots: _,
        shared,
        after: _,
        backs: _,
        before: _,
        forths: _,
    } = guess;
    Ok(shared)
}

/// The same by a search from each element.
fn searched_marks(alloc: Global, graph: &OrderGraph) -> Result<Vec<bool>, Memory>
    ensures count { IfOk result (λ v. vec_len v ≡ length graph.now.elements) }
    ensures marks { IfOk result (λ v. (x : ℕ) → x < length graph.now.elements
        → (slice_index_or v.items x false ≡ true) ↔ LiesOnCycle graph.now x) }
{
    let mut scratch = Scratch::new(alloc, graph)?;
    let mut marks = Vec::new(alloc);
    for x in 0..graph.elements() {
        marks.push(is_on_cycle(graph, x, &mut scratch))?;
    }
    Ok(marks)
}

/// Whether a cycle leads through an element, by a search.
fn is_on_cycle(graph: &OrderGraph, x: u32, scratch: &mut Scratch) -> bool
    requires known { x < length graph.now.elements }
    requires fits { Fits scratch.old graph.now }
    ensures answer { (result ≡ true) ↔ LiesOnCycle graph.now x }
    ensures fits { Fits scratch.new graph.now }
{
    // Its contract has that the elements are few.
    let _ = graph.elements();
    let mut bound = PlainBound { least: u32::MAX };
    search(graph, x, scratch, &mut bound).is_some()
}

/// The places that are marked, in order.
fn marked(alloc: Global, marks: &[bool]) -> Result<Vec<u32>, Memory>
    requires { length marks.now < u32.MAX }
    ensures rising { IfOk result (λ v. AllPairs (λ x y. x < y) v.items) }
    ensures known { IfOk result (λ v. All (λ x. x < length marks.now) v.items) }
    ensures few { IfOk result (λ v. length v.items ≤ length marks.now) }
    ensures only { IfOk result (λ v. All (λ x. slice_index_or marks.now x false ≡ true) v.items) }
    ensures all { IfOk result (λ v. (x : ℕ) → x < length marks.now → slice_index_or marks.now x false ≡ true
        → Contains v.items x) }
{
    let mut places = Vec::new(alloc);
    for (x, mark) in marks.iter().enumerate() {
        if *mark {
            places.push(x as u32)?;
        }
    }
    Ok(places)
}
