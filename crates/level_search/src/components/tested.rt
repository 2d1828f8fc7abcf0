//! Whether a guess at the components is right.

ghost use Rattle.std.specs.Prelude.{◌≡◌, ℕ, ◌<◌, ◌≤◌, Contains, IfOk, List, true, length, vec_len};
ghost use Rattle.order_graph.specs.Lists.{lists_of};
ghost use Rattle.witness_order.specs.Edges.{AreEdgesOf, AreNeighbours, lists_in};
ghost use Rattle.level_search.specs.StrongComponents.{AreLinks, FitsLinks, HasValues, IsLinked, IsNearer};
ghost use Rattle.level_search.specs.StrongComponents.{IsOwned};
ghost use Rattle.level_search.specs.StrongComponents.{IsRight, IsTested, after, rank, root};

use super::guess::Guess;
use events::Memory;
use order_graph::OrderGraph;
use std::alloc::Global;
use witness_order::Successors;

/// Which of the guessed steps are found in the lists.
#[derive(Drop)]
pub struct Links {
    /// For each element whether the one that is guessed to stand right after it does.
    pub after: Vec<bool>,
    /// For each element whether the one that is guessed to stand right before it does.
    pub before: Vec<bool>,
}

/// Whether a guess has a value for each of so many elements.
fn has_values(guess: &Guess, elements: u32) -> bool
    ensures { result ≡ true → HasValues elements guess.now }
{
    let n = elements as usize;
    if guess.ranks.len() != n || guess.shared.len() != n {
        return false;
    }
    if guess.after.len() != n || guess.backs.len() != n {
        return false;
    }
    guess.before.len() == n && guess.forths.len() == n
}

/// Takes note of an edge; whether the components don't fall along it.
fn note_edge(graph: &OrderGraph, guess: &Guess, a: u32, b: u32, links: &mut Links) -> bool
    requires values { HasValues (length graph.now.elements) guess.now }
    requires fits { FitsLinks (length graph.now.elements) links.old }
    requires known { (a < length graph.now.elements) × (b < length graph.now.elements) }
    requires edge { AreNeighbours (lists_of graph.now) a b }
    requires links { AreLinks (lists_of graph.now) guess.now links.old }
    ensures fits { FitsLinks (length graph.now.elements) links.new }
    ensures links { AreLinks (lists_of graph.now) guess.now links.new }
    ensures climbs { result ≡ true → rank guess.now a ≤ rank guess.now b }
{
    if guess.after[a as usize] == b {
        links.after[a as usize] = true;
    }
    if guess.before[b as usize] == a {
        links.before[b as usize] = true;
    }
    guess.ranks[a as usize] <= guess.ranks[b as usize]
}

/// Takes note of the edges of an element; whether the components fall along none.
fn note_edges(
    graph: &OrderGraph,
    successors: &Successors,
    guess: &Guess,
    x: u32,
    links: &mut Links,
) -> bool
    requires edges { AreEdgesOf (lists_of graph.now) (length graph.now.elements) successors.now }
    requires values { HasValues (length graph.now.elements) guess.now }
    requires fits { FitsLinks (length graph.now.elements) links.old }
    requires known { x < length graph.now.elements }
    requires links { AreLinks (lists_of graph.now) guess.now links.old }
    ensures fits { FitsLinks (length graph.now.elements) links.new }
    ensures links { AreLinks (lists_of graph.now) guess.now links.new }
    ensures climbs { result ≡ true → (y : ℕ) → AreNeighbours (lists_of graph.now) x y
        → rank guess.now x ≤ rank guess.now y }
{
    let mut number = successors.heads[x as usize];
    while number != 0 {
        let edge = successors.edges[number as usize - 1];
        if !note_edge(graph, guess, x, edge.to, links) {
            return false;
        }
        number = edge.next;
    }
    true
}

/// Takes note of all edges; whether the components fall along none.
fn note_all_edges(
    graph: &OrderGraph,
    successors: &Successors,
    guess: &Guess,
    links: &mut Links,
) -> bool
    requires edges { AreEdgesOf (lists_of graph.now) (length graph.now.elements) successors.now }
    requires values { HasValues (length graph.now.elements) guess.now }
    requires fits { FitsLinks (length graph.now.elements) links.old }
    requires links { AreLinks (lists_of graph.now) guess.now links.old }
    ensures fits { FitsLinks (length graph.now.elements) links.new }
    ensures links { AreLinks (lists_of graph.now) guess.now links.new }
    ensures climbs { result ≡ true → (x y : ℕ) → x < length graph.now.elements
        → AreNeighbours (lists_of graph.now) x y → rank guess.now x ≤ rank guess.now y }
{
    for x in 0..graph.elements() {
        if !note_edges(graph, successors, guess, x, links) {
            return false;
        }
    }
    true
}

/// Whether an element is its component's root, or both it and the root are said to have others.
fn is_owned(guess: &Guess, x: u32) -> bool
    requires known { x < vec_len guess.now.ranks }
    requires values { HasValues (vec_len guess.now.ranks) guess.now }
    ensures { result ≡ true → IsOwned guess.now x }
{
    if is_root(guess, x) {
        return true;
    }
    let rank = guess.ranks[x as usize] as usize;
    if rank >= guess.roots.len() {
        return false;
    }
    let root = guess.roots[rank] as usize;
    root < guess.shared.len() && guess.shared[root] && guess.shared[x as usize]
}

/// Whether an element is its component's root.
fn is_root(guess: &Guess, x: u32) -> bool
    requires known { x < vec_len guess.now.ranks }
    ensures { result ≡ true → root guess.now x ≡ x }
{
    let rank = guess.ranks[x as usize] as usize;
    rank < guess.roots.len() && guess.roots[rank] == x
}

/// Whether a step from another element of the component leads to this one, nearer to the root each.
fn is_nearer(guess: &Guess, links: &Links, x: u32, next: u32) -> bool
    requires known { x < vec_len guess.now.ranks }
    requires next { (next ≡ after guess.now x) × (next < vec_len guess.now.ranks) }
    requires values { HasValues (vec_len guess.now.ranks) guess.now }
    requires fits { FitsLinks (vec_len guess.now.ranks) links.now }
    ensures { (rows : List (List ℕ)) → AreLinks rows guess.now links.now → result ≡ true
        → IsNearer rows guess.now x }
{
    let last = guess.before[x as usize];
    if last as usize >= guess.ranks.len() || !links.before[x as usize] {
        return false;
    }
    if guess.backs[next as usize] >= guess.backs[x as usize] {
        return false;
    }
    if guess.ranks[last as usize] != guess.ranks[x as usize] || !guess.shared[last as usize] {
        return false;
    }
    guess.forths[last as usize] < guess.forths[x as usize]
}

/// Whether an element leads on in its component, and is its root or nearer to it than others.
fn is_linked(guess: &Guess, links: &Links, x: u32) -> bool
    requires known { x < vec_len guess.now.ranks }
    requires values { HasValues (vec_len guess.now.ranks) guess.now }
    requires fits { FitsLinks (vec_len guess.now.ranks) links.now }
    ensures { (rows : List (List ℕ)) → AreLinks rows guess.now links.now → result ≡ true
        → IsLinked rows guess.now x }
{
    let next = guess.after[x as usize];
    if next as usize >= guess.ranks.len() || !links.after[x as usize] {
        return false;
    }
    if guess.ranks[next as usize] != guess.ranks[x as usize] || !guess.shared[next as usize] {
        return false;
    }
    is_root(guess, x) || is_nearer(guess, links, x, next)
}

/// Whether all that is guessed of an element is found.
fn is_tested(guess: &Guess, links: &Links, x: u32) -> bool
    requires known { x < vec_len guess.now.ranks }
    requires values { HasValues (vec_len guess.now.ranks) guess.now }
    requires fits { FitsLinks (vec_len guess.now.ranks) links.now }
    ensures { (rows : List (List ℕ)) → AreLinks rows guess.now links.now → result ≡ true
        → IsTested rows guess.now x }
{
    is_owned(guess, x) && (!guess.shared[x as usize] || is_linked(guess, links, x))
}

/// Whether that is so for each element.
fn are_tested(graph: &OrderGraph, guess: &Guess, links: &Links) -> bool
    requires values { HasValues (length graph.now.elements) guess.now }
    requires fits { FitsLinks (length graph.now.elements) links.now }
    requires links { AreLinks (lists_of graph.now) guess.now links.now }
    ensures { result ≡ true → (x : ℕ) → x < length graph.now.elements
        → IsTested (lists_of graph.now) guess.now x }
{
    for x in 0..graph.elements() {
        if !is_tested(guess, links, x) {
            return false;
        }
    }
    true
}

/// Whether a guess is right: no list goes from a component to a lesser one, and the elements of each that is
/// said to have others lead to one of them, and are led to by it. It looks once at each edge, and takes two
/// marks an element.
pub fn is_right(
    alloc: Global,
    graph: &OrderGraph,
    successors: &Successors,
    guess: &Guess,
) -> Result<bool, Memory>
    requires { AreEdgesOf (lists_of graph.now) (length graph.now.elements) successors.now }
    ensures { IfOk result (λ right. right ≡ true
        → IsRight (length graph.now.elements) (lists_of graph.now) guess.now) }
{
    let elements = graph.elements();
    if !has_values(guess, elements) {
        return Ok(false);
    }
    let mut links = Links {
        after: Vec::from_elem(alloc, false, elements as usize)?,
        before: Vec::from_elem(alloc, false, elements as usize)?,
    };
    if !note_all_edges(graph, successors, guess, &mut links) {
        return Ok(false);
    }
    Ok(are_tested(graph, guess, &links))
}
