//! Lists that a search can do without, since others show all that they show.

ghost use Rattle.std.specs.Prelude.{◌≡◌, ℕ, ◌<◌, ◌≤◌, All, IfOk, IfSome, length, true, false, vec_len};
ghost use Rattle.order_graph.specs.Emptied.{is_marked};
ghost use Rattle.order_graph.specs.Lists.{lists_of};
ghost use Rattle.level_search.specs.Thinned.{AllIsShown, IsBehindPlace, IsHeld, IsThinned};

use crate::ways::places_of;
use events::Memory;
use order_graph::OrderGraph;
use std::alloc::Global;

/// Writes down, for each element of a list, its place there.
fn note_places(list: &[u32], places: &mut Vec<u32>)
    requires { All (λ x. x < vec_len places.old) list.now }
    ensures { vec_len places.new ≡ vec_len places.old }
{
    let mut place: u32 = 0;
    for x in list {
        places[*x as usize] = place;
        place = place.saturating_add(1);
    }
}

/// The place behind an element in a list, where it stands at the place that was written down, and that is
/// none before `next`.
fn place_behind(x: u32, next: usize, other: &[u32], places: &[u32]) -> Option<usize>
    requires { x < length places.now }
    ensures { IfSome result (IsBehindPlace places.now other.now x next) }
{
    let place = places[x as usize] as usize;
    if place < next || place >= other.len() || other[place] != x {
        return None;
    }
    Some(place + 1)
}

/// Whether all that a list shows another shows too. It looks for each element at one place of the other, the
/// one that was written down, and answers no where that is wrong.
fn is_held(list: &[u32], other: &[u32], places: &[u32]) -> bool
    requires { All (λ x. x < length places.now) list.now }
    ensures { result ≡ true → IsHeld list.now other.now }
{
    if list.len() < 2 {
        return true;
    }
    let mut next = 0;
    for j in 0..list.len() {
        match place_behind(list[j], next, other, places) {
            Some(behind) => next = behind,
            None => return false,
        }
    }
    true
}

/// Marks a list where the last that is kept holds it, or that one where it holds that; the last that is kept
/// now. Of the last the places are written down.
fn thin_at(
    graph: &OrderGraph,
    list: u32,
    last: u32,
    places: &mut Vec<u32>,
    marks: &mut Vec<bool>,
) -> u32
    requires count { vec_len places.old ≡ length graph.now.elements }
    requires marks { vec_len marks.old ≡ length graph.now.returned }
    requires last { last < list }
    requires list { list < length graph.now.returned }
    requires unmarked { (l : ℕ) → list ≤ l → is_marked marks.old.items l ≡ false }
    requires kept { is_marked marks.old.items last ≡ false }
    requires shown { AllIsShown (lists_of graph.now) marks.old.items }
    ensures count { vec_len places.new ≡ vec_len places.old }
    ensures marks { vec_len marks.new ≡ vec_len marks.old }
    ensures last { result ≤ list }
    ensures unmarked { (l : ℕ) → list < l → is_marked marks.new.items l ≡ false }
    ensures kept { is_marked marks.new.items result ≡ false }
    ensures shown { AllIsShown (lists_of graph.now) marks.new.items }
{
    let here = graph.list(list);
    let kept = graph.list(last);
    if is_held(here, kept, places.as_slice()) {
        marks[list as usize] = true;
        return last;
    }
    note_places(here, places);
    if is_held(kept, here, places.as_slice()) {
        marks[last as usize] = true;
    }
    list
}

/// Which lists are left out: those that the list before them or after them that is kept holds. It takes time
/// and memory linear in the elements, the lists and the places.
fn held_lists(alloc: Global, graph: &OrderGraph) -> Result<Vec<bool>, Memory>
    ensures { IfOk result (λ marks. AllIsShown (lists_of graph.now) marks.items) }
{
    let mut places = Vec::from_elem(alloc, 0, graph.elements() as usize)?;
    let mut marks = Vec::from_elem(alloc, false, graph.lists() as usize)?;
    let mut last = 0;
    note_places(graph.list(0), &mut places);
    for list in 1..graph.lists() {
        last = thin_at(graph, list, last, &mut places, &mut marks);
    }
    Ok(marks)
}

/// How many places the lists have that are not marked.
fn places_left(graph: &OrderGraph, marks: &[bool]) -> u64 {
    let mut left: u64 = 0;
    for list in 0..graph.lists() {
        if marks.get(list as usize) != Some(&true) {
            left = left.saturating_add(graph.length(list) as u64);
        }
    }
    left
}

/// The graph without the lists that others hold: those are empty in it. None where it would have more than
/// three quarters of the places. It takes time and memory linear in the elements, the lists and the places.
pub fn thinned(alloc: Global, graph: &OrderGraph) -> Result<Option<OrderGraph>, Memory>
    ensures { IfOk result (λ found. IfSome found (IsThinned graph.now)) }
{
    let marks = held_lists(alloc, graph)?;
    let left = places_left(graph, marks.as_slice());
    if left.saturating_mul(4) > places_of(graph).saturating_mul(3) {
        return Ok(None);
    }
    let part = graph.emptied(alloc, marks.as_slice())?;
    Ok(Some(part))
}
