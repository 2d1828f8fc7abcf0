//! The least element through which a shortest cycle leads.

ghost use Rattle.std.specs.Prelude.{◌≡◌, ◌⊎◌, ◌↔◌, ℕ, ◌+◌, ◌*◌, ◌-◌, ◌<◌, ◌≤◌, All, true, length};
ghost use Rattle.specification.specs.Responses.{Responses, place_count};
ghost use Rattle.specification.specs.Search.{IsShortestLength};
ghost use Rattle.order_graph.specs.Lists.{lists_of};
ghost use Rattle.list_search.specs.Walks.{HasCycle, NoneShorter};
ghost use Rattle.level_search.specs.Looks.{HasRisenBy};
ghost use Rattle.level_search.specs.Rounds.{FitsDistances, IsBetween, IsRoundOf};
ghost use Rattle.level_search.specs.Sources.{MeetsCycles};
ghost use Rattle.level_search.specs.Ways.{FitsRoom, IsWay};

use super::distances::Distances;
use crate::ways::{Room, Way, search_through};
use list_search::PlainBound;
use order_graph::{Looked, OrderGraph};

/// Whether a cycle of the shortest length leads through an element.
fn is_on_ring(
    graph: &OrderGraph,
    way: &Way,
    element: u32,
    k: u32,
    room: &mut Room,
    looked: &mut Looked,
) -> bool
    requires known { element < length graph.now.elements }
    requires way { IsWay graph.now way.now }
    requires fits { FitsRoom graph.now room.old }
    requires least { IsShortestLength graph.now k }
    ensures fits { FitsRoom graph.now room.new }
    ensures answer { (result ≡ true) ↔ HasCycle (lists_of graph.now) element k }
    ensures looked { looked.new ≤ looked.old + 2 * (place_count graph.now + length graph.now.elements) }
    ensures forward { looked.old ≤ looked.new }
    ensures found { result ≡ true → HasRisenBy (2 * k - 1) looked.old looked.new }
{
    // Their contracts have that the responses are proper, and that a count has 64 bits.
    let _ = graph.elements();
    let _ = looked.count();
    let mut bound = PlainBound { least: k + 1 };
    search_through(graph, way, element, room, looked, &mut bound).is_some()
}

/// Whether an element is on a cycle of k steps through that from and to which these distances are; no cycle
/// is shorter.
fn is_between(to: &[u32], from: &[u32], k: u32, x: u32) -> bool
    requires to { x < length to.now }
    requires from { x < length from.now }
    ensures { (result ≡ true) ↔ IsBetween to.now from.now k x }
{
    let away = from[x as usize];
    away > 0 && away < k && to[x as usize] == k - away
}

/// The least of these; at most the element itself. It looks at those alone that the search from it reached.
fn first_between(distances: &Distances, k: u32, element: u32) -> u32
    requires fits { (v : Responses) × FitsDistances v k distances.now × (element < length v.elements) }
    ensures falls { result ≤ element }
    ensures found { (result ≡ element)
        ⊎ IsBetween distances.now.to.depths.items distances.now.from.depths.items k result }
    ensures least { (x : ℕ) → IsBetween distances.now.to.depths.items distances.now.from.depths.items k x
        → result ≤ x }
{
    let mut least = element;
    for i in 0..distances.from.count {
        let x = distances.from.reached[i];
        if x < least && is_between(&distances.to.depths, &distances.from.depths, k, x) {
            least = x;
        }
    }
    least
}

/// The least element of all shortest cycles through an element.
fn least_round(
    graph: &OrderGraph,
    element: u32,
    k: u32,
    distances: &mut Distances,
    looked: &mut Looked,
) -> u32
    requires known { element < length graph.now.elements }
    requires fits { FitsDistances graph.now k distances.old }
    requires cycle { HasCycle (lists_of graph.now) element k }
    requires shortest { NoneShorter (lists_of graph.now) element k }
    ensures fits { FitsDistances graph.now k distances.new }
    ensures cycle { HasCycle (lists_of graph.now) result k }
    ensures least { (t : ℕ) → IsRoundOf (lists_of graph.now) element k t → result ≤ t }
    ensures looked { looked.new ≤ looked.old + 2 * (place_count graph.now + length graph.now.elements) }
    ensures forward { looked.old ≤ looked.new }
{
    // Its contract has that the responses are proper.
    let _ = graph.elements();
    distances.find_to(graph, element, k, looked);
    distances.find_from(graph, element, k, looked);
    first_between(distances, k, element)
}

/// The lesser of the least so far and the least element of all shortest cycles through a source.
fn least_of_source(
    graph: &OrderGraph,
    way: &Way,
    source: u32,
    k: u32,
    least: u32,
    room: &mut Room,
    distances: &mut Distances,
    looked: &mut Looked,
) -> u32
    requires known { source < length graph.now.elements }
    requires way { IsWay graph.now way.now }
    requires fits { FitsRoom graph.now room.old }
    requires distances { FitsDistances graph.now k distances.old }
    requires shortest { IsShortestLength graph.now k }
    ensures fits { FitsRoom graph.now room.new }
    ensures distances { FitsDistances graph.now k distances.new }
    ensures falls { result ≤ least }
    ensures found { (result ≡ least) ⊎ HasCycle (lists_of graph.now) result k }
    ensures round { (t : ℕ) → IsRoundOf (lists_of graph.now) source k t → result ≤ t }
    ensures looked { looked.new ≤ looked.old + 4 * (place_count graph.now + length graph.now.elements) }
    ensures forward { looked.old ≤ looked.new }
    ensures searched { (result ≡ least) ⊎ HasRisenBy (2 * k - 1) looked.old looked.new }
{
    // Its contract has that the responses are proper.
    let _ = graph.elements();
    if !is_on_ring(graph, way, source, k, room, looked) {
        return least;
    }
    least.min(least_round(graph, source, k, distances, looked))
}

/// The least element through which a shortest cycle leads.
///
/// Each such cycle leads through one of the sources. So elements from 0 on and sources are searched from by
/// turns, under a bound of one more than the length. The first element that is on such a cycle is the one, or
/// where the elements come so far, the least on such a cycle through a source. It takes at most two searches
/// for each element up to the one, or for each source; and two for distances from each source that is on such
/// a cycle.
fn first_on_ring(
    graph: &OrderGraph,
    way: &Way,
    sources: &[u32],
    k: u32,
    room: &mut Room,
    distances: &mut Distances,
    looked: &mut Looked,
) -> u32
    requires way { IsWay graph.now way.now }
    requires known { All (λ s. s < length graph.now.elements) sources.now }
    requires met { MeetsCycles (lists_of graph.now) (length graph.now.elements) sources.now }
    requires fits { FitsRoom graph.now room.old }
    requires distances { FitsDistances graph.now k distances.old }
    requires shortest { IsShortestLength graph.now k }
    ensures distances { FitsDistances graph.now k distances.new }
    ensures known { result < length graph.now.elements }
    ensures cycle { HasCycle (lists_of graph.now) result k }
    ensures lowest { (t : ℕ) → t < length graph.now.elements → HasCycle (lists_of graph.now) t k
        → result ≤ t }
    ensures looked { looked.new ≤ looked.old + (result + 1) * (6 * (place_count graph.now
        + length graph.now.elements)) }
    ensures few { looked.new ≤ looked.old + (length sources.now + 1) * (6 * (place_count graph.now
        + length graph.now.elements)) }
    ensures found { HasRisenBy (2 * k - 1) looked.old looked.new }
{
    let mut least = graph.elements();
    for i in 0..graph.elements() {
        if least <= i || i as usize >= sources.len() {
            return least;
        }
        if is_on_ring(graph, way, i, k, room, looked) {
            return i;
        }
        least = least_of_source(
            graph,
            way,
            sources[i as usize],
            k,
            least,
            room,
            distances,
            looked,
        );
    }
    least
}

/// The same by searches from the elements in order of their numbers alone.
fn first_in_order(
    graph: &OrderGraph,
    way: &Way,
    k: u32,
    room: &mut Room,
    looked: &mut Looked,
) -> u32
    requires way { IsWay graph.now way.now }
    requires fits { FitsRoom graph.now room.old }
    requires shortest { IsShortestLength graph.now k }
    ensures known { result < length graph.now.elements }
    ensures cycle { HasCycle (lists_of graph.now) result k }
    ensures lowest { (t : ℕ) → t < length graph.now.elements → HasCycle (lists_of graph.now) t k
        → result ≤ t }
    ensures looked { looked.new ≤ looked.old + (result + 1) * (2 * (place_count graph.now
        + length graph.now.elements)) }
    ensures found { HasRisenBy (2 * k - 1) looked.old looked.new }
{
    for i in 0..graph.elements() {
        if is_on_ring(graph, way, i, k, room, looked) {
            return i;
        }
    }
    unreachable!()
}

/// The least element through which a shortest cycle leads. Over the lists, elements and sources are searched from
/// by turns. Over a table the elements alone are, since the distances of a source always go over the lists.
pub fn first_element(
    graph: &OrderGraph,
    way: &Way,
    sources: &[u32],
    k: u32,
    room: &mut Room,
    distances: &mut Distances,
    looked: &mut Looked,
) -> u32
    requires way { IsWay graph.now way.now }
    requires known { All (λ s. s < length graph.now.elements) sources.now }
    requires met { MeetsCycles (lists_of graph.now) (length graph.now.elements) sources.now }
    requires fits { FitsRoom graph.now room.old }
    requires distances { FitsDistances graph.now k distances.old }
    requires shortest { IsShortestLength graph.now k }
    ensures distances { FitsDistances graph.now k distances.new }
    ensures known { result < length graph.now.elements }
    ensures cycle { HasCycle (lists_of graph.now) result k }
    ensures lowest { (t : ℕ) → t < length graph.now.elements → HasCycle (lists_of graph.now) t k
        → result ≤ t }
    ensures looked { looked.new ≤ looked.old + (result + 1) * (6 * (place_count graph.now
        + length graph.now.elements)) }
    ensures found { HasRisenBy (2 * k - 1) looked.old looked.new }
{
    if way.table.is_some() {
        return first_in_order(graph, way, k, room, looked);
    }
    first_on_ring(graph, way, sources, k, room, distances, looked)
}
