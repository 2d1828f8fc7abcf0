//! Plain, slow programs that look through every response, and the comparison of a graph with them.
use events::{Body, Name, OpName, Recording, Response};
use order_graph::{Looked, OrderGraph, Spot};
use sample_recordings::place_of;

/// The name of an operation by its place in the order of names.
fn operation_at(recording: &Recording, place: u32) -> Option<OpName> {
    let mut left = place;
    for r in 0..recording.replicas() {
        let count = recording.count(r);
        if left < count {
            return OpName::new(r, left.saturating_add(1));
        }
        left = left.saturating_sub(count);
    }
    None
}

/// How many operations there are.
fn operations(recording: &Recording) -> u32 {
    let mut all: u32 = 0;
    for r in 0..recording.replicas() {
        all = all.saturating_add(recording.count(r));
    }
    all
}

/// The element with a number: the inserts are counted in the order of the operations' names.
fn element(recording: &Recording, x: u32) -> Option<Name> {
    let mut left = x;
    for place in 0..operations(recording) {
        if let Some(Body::Ins { name, .. }) = recording.operation(operation_at(recording, place)?) {
            if left == 0 {
                return Some(*name);
            }
            left = left.saturating_sub(1);
        }
    }
    None
}

/// The least operation that shows the one name before the other.
fn least_showing(recording: &Recording, a: Name, b: Name) -> Option<OpName> {
    for place in 0..operations(recording) {
        let name = operation_at(recording, place)?;
        let response = recording.response(name)?;
        if let (Some(i), Some(j)) = (place_of(response, a), place_of(response, b)) {
            if i < j {
                return Some(name);
            }
        }
    }
    None
}

/// The same, by the numbers of the elements.
fn before(recording: &Recording, a: u32, b: u32) -> Option<OpName> {
    least_showing(recording, element(recording, a)?, element(recording, b)?)
}

/// Whether an element has the same name and number in both.
fn is_element(recording: &Recording, graph: &OrderGraph, x: u32) -> bool {
    match element(recording, x) {
        None => false,
        Some(name) => graph.name(x) == Some(name) && graph.number(&name) == Some(x),
    }
}

/// Whether an element stands before the same ones in both.
fn has_same_order(recording: &Recording, graph: &OrderGraph, a: u32) -> bool {
    for b in 0..=graph.elements() {
        if graph.before(a, b) != before(recording, a, b) {
            return false;
        }
    }
    true
}

/// Whether a list has this name at a place, which counts as looked at, and has it there as a whole too.
fn has_at(graph: &OrderGraph, list: u32, place: u32, name: Option<Name>) -> bool {
    let mut looked = Looked::new();
    let there = graph.place(list, place, &mut looked);
    if graph.list(list).get(place as usize).copied() != there {
        return false;
    }
    let counts = looked.count() == u64::from(there.is_some());
    match there {
        None => counts && name.is_none(),
        Some(x) => counts && graph.name(x) == name,
    }
}

/// Whether a list is a response, with nothing after its end.
fn is_list(graph: &OrderGraph, list: u32, names: &Response) -> bool {
    let length = graph.length(list);
    for j in 0..=length {
        if !has_at(graph, list, j, names.get(j as usize)) {
            return false;
        }
    }
    length as usize == names.len()
}

/// Whether a list is the response of its operation.
fn is_list_of(recording: &Recording, graph: &OrderGraph, list: u32) -> bool {
    let by = operation_at(recording, list);
    let names = match by {
        None => None,
        Some(by) => recording.response(by),
    };
    match names {
        None => false,
        Some(names) => graph.shown_by(list) == by && is_list(graph, list, names),
    }
}

/// Where a name stands in the response of the operation of a list.
fn place_in(recording: &Recording, list: u32, name: Name) -> Option<usize> {
    place_of(recording.response(operation_at(recording, list)?)?, name)
}

/// Whether an element's spots are the places of its name, in order of lists.
fn has_spots(recording: &Recording, graph: &OrderGraph, x: u32, name: Name) -> bool {
    let mut found: u32 = 0;
    for list in 0..graph.lists() {
        if let Some(place) = place_in(recording, list, name) {
            if !is_spot(graph.spot(x, found), list, place) {
                return false;
            }
            found = found.saturating_add(1);
        }
    }
    graph.spots(x) == found && graph.spot(x, found).is_none()
}

fn is_spot(spot: Option<Spot>, list: u32, place: usize) -> bool {
    match spot {
        None => false,
        Some(spot) => spot.list == list && spot.place as usize == place,
    }
}

/// Whether all that a graph says of its elements is what the plain programs find.
fn has_same_elements(recording: &Recording, graph: &OrderGraph) -> bool {
    for x in 0..graph.elements() {
        let Some(name) = element(recording, x) else {
            return false;
        };
        if !is_element(recording, graph, x) || !has_spots(recording, graph, x, name) {
            return false;
        }
    }
    has_same_ends(recording, graph)
}

/// Whether there is nothing past the last element and the last list.
fn has_same_ends(recording: &Recording, graph: &OrderGraph) -> bool {
    let elements = graph.elements();
    let lists = graph.lists();
    if lists != operations(recording) || element(recording, elements).is_some() {
        return false;
    }
    graph.name(elements).is_none()
        && graph.spots(elements) == 0
        && graph.shown_by(lists).is_none()
        && graph.length(lists) == 0
        && graph.list(lists).is_empty()
}

/// Whether all that a graph says of its lists is what the plain programs find.
fn has_same_lists(recording: &Recording, graph: &OrderGraph) -> bool {
    for list in 0..graph.lists() {
        if !is_list_of(recording, graph, list) {
            return false;
        }
    }
    true
}

/// Whether all elements stand before the same ones, also what is no element.
fn has_same_orders(recording: &Recording, graph: &OrderGraph) -> bool {
    for a in 0..=graph.elements() {
        if !has_same_order(recording, graph, a) {
            return false;
        }
    }
    true
}

/// Whether a graph answers all as the plain programs do.
pub fn agrees(recording: &Recording, graph: &OrderGraph) -> bool {
    has_same_elements(recording, graph)
        && has_same_lists(recording, graph)
        && has_same_orders(recording, graph)
}

/// Whether a graph has the elements that the plain programs find, and shows them in the same orders by the
/// same least operations.
pub fn tells_the_same(recording: &Recording, graph: &OrderGraph) -> bool {
    for x in 0..graph.elements() {
        if !is_element(recording, graph, x) {
            return false;
        }
    }
    element(recording, graph.elements()).is_none() && has_same_orders(recording, graph)
}
