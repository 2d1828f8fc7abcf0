//! A guess at how few steps lead to each element from one of some, and at an order of these. No clause says that
//! it is right: `lower_bounds` tests it.

use crate::guesses::{NONE, at, put};
use events::Memory;
use order_graph::{OrderGraph, Spot};
use std::alloc::Global;

/// How many passes over the lists look for ranks, at most.
const PASSES: u32 = 8;

/// What is guessed.
#[derive(Drop)]
pub struct Levels {
    /// For each element how few steps lead to it from one of the sources: 0 to these, `NONE` where none do.
    pub levels: Vec<u32>,
    /// For each element a number that rises along each list from source to source.
    pub ranks: Vec<u32>,
}

/// A search by levels from several elements at once.
#[derive(Drop)]
struct Search {
    /// For each element its level; `NONE` where the search did not come to it.
    levels: Vec<u32>,
    /// For each list the place from which on the search came to all.
    marks: Vec<u32>,
    /// The elements in the order in which the search came to them.
    queue: Vec<u32>,
}

impl Search {
    /// Comes to an element.
    fn reach(&mut self, x: u32, level: u32) -> Result<(), Memory> {
        if at(&self.levels, x) == NONE {
            put(&mut self.levels, x, level);
            self.queue.push(x)?;
        }
        Ok(())
    }

    /// Comes to all that stands behind a spot, up to the list's mark.
    fn read(&mut self, graph: &OrderGraph, spot: Spot, level: u32) -> Result<(), Memory> {
        let row = graph.list(spot.list);
        let mark = at(&self.marks, spot.list);
        let first = spot.place.saturating_add(1);
        for j in first..mark {
            if let Some(y) = row.get(j as usize) {
                self.reach(*y, level)?;
            }
        }
        put(&mut self.marks, spot.list, mark.min(first));
        Ok(())
    }

    /// Goes on from an element.
    fn go_on(&mut self, graph: &OrderGraph, x: u32) -> Result<(), Memory> {
        let level = at(&self.levels, x).saturating_add(1);
        for i in 0..graph.spots(x) {
            if let Some(spot) = graph.spot(x, i) {
                self.read(graph, spot, level)?;
            }
        }
        Ok(())
    }
}

/// How long each list is.
fn ends_of(alloc: Global, graph: &OrderGraph) -> Result<Vec<u32>, Memory> {
    let mut ends = Vec::new(alloc);
    for list in 0..graph.lists() {
        ends.push(graph.length(list))?;
    }
    Ok(ends)
}

/// Guesses the levels. It takes time and memory linear in the elements, the lists and the places.
fn levels_from(alloc: Global, graph: &OrderGraph, sources: &[u32]) -> Result<Vec<u32>, Memory> {
    let elements = graph.elements() as usize;
    let mut search = Search {
        levels: Vec::from_elem(alloc, NONE, elements)?,
        marks: ends_of(alloc, graph)?,
        queue: Vec::with_capacity(alloc, elements)?,
    };
    for x in sources {
        search.reach(*x, 0)?;
    }
    for head in 0..elements {
        let Some(x) = search.queue.get(head).copied() else {
            break;
        };
        search.go_on(graph, x)?;
    }
    Ok(search.levels)
}

/// Raises the ranks of the sources in a list, so that they rise along it; whether one was raised.
fn raise_along(list: &[u32], levels: &[u32], ranks: &mut Vec<u32>) -> bool {
    let mut next: u32 = 0;
    let mut raised = false;
    for x in list {
        if at(levels, *x) != 0 {
            continue;
        }
        if at(ranks.as_slice(), *x) < next {
            put(ranks, *x, next);
            raised = true;
        }
        next = at(ranks.as_slice(), *x).saturating_add(1);
    }
    raised
}

/// The same along all lists.
fn raise_ranks(graph: &OrderGraph, levels: &[u32], ranks: &mut Vec<u32>) -> bool {
    let mut raised = false;
    for list in 0..graph.lists() {
        if raise_along(graph.list(list), levels, ranks) {
            raised = true;
        }
    }
    raised
}

/// Guesses levels and ranks. It takes time and memory linear in the elements, the lists and the places.
pub fn guess_levels(alloc: Global, graph: &OrderGraph, sources: &[u32]) -> Result<Levels, Memory> {
    let levels = levels_from(alloc, graph, sources)?;
    let mut ranks = Vec::from_elem(alloc, 0, graph.elements() as usize)?;
    for _ in 0..PASSES {
        if !raise_ranks(graph, levels.as_slice(), &mut ranks) {
            break;
        }
    }
    Ok(Levels { levels, ranks })
}
