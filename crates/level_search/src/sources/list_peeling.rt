//! Elements taken away one by one, each time one before which none that is left stands; where there is none,
//! one that lies on a cycle. It is a guess at an order with few elements out of place, which `sources` tests.

use super::greatest::Greatest;
use crate::guesses::{NONE, at, put};
use events::Memory;
use order_graph::OrderGraph;
use std::alloc::Global;

/// What is left of the elements.
#[derive(Drop)]
struct Peeling {
    /// For each element whether it was taken away.
    gone: Vec<bool>,
    /// For each list its first place whose element is left.
    fronts: Vec<u32>,
    /// For each element in how many lists it is the first that is left.
    firsts: Vec<u32>,
    /// Elements before which none that is left stands.
    free: Vec<u32>,
    /// The greatest numbers that are left.
    greatest: Greatest,
    /// A walk back: before each of these elements the next is the greatest that stands and is left.
    walk: Vec<u32>,
    /// For each element its place on the walk; `NONE` where it is not on it.
    walked: Vec<u32>,
    /// No lesser element is left.
    least: u32,
}

/// The elements in the order in which they are taken away, each once. What stands before an element should be
/// taken earlier, but for few elements; no clause says so, and `sources` tests it.
///
/// Where no element is free, a walk goes back from the least that is left, each time to the greatest that
/// stands before and is left, until it comes to an element that is on it: the least of this ring is taken.
/// The walk before that one stays for the next time.
pub fn order_by_lists(alloc: Global, graph: &OrderGraph) -> Result<Vec<u32>, Memory> {
    let mut peeling = Peeling::of(alloc, graph)?;
    let mut order = Vec::new(alloc);
    for _ in 0..graph.elements() {
        let x = peeling.next_taken(graph)?;
        if x == NONE {
            return Ok(order);
        }
        peeling.take_away(graph, x)?;
        order.push(x)?;
    }
    Ok(order)
}

impl Peeling {
    /// All elements.
    fn of(alloc: Global, graph: &OrderGraph) -> Result<Peeling, Memory> {
        let elements = graph.elements() as usize;
        let mut peeling = Peeling {
            gone: Vec::from_elem(alloc, false, elements)?,
            fronts: Vec::from_elem(alloc, 0, graph.lists() as usize)?,
            firsts: Vec::from_elem(alloc, 0, elements)?,
            free: Vec::new(alloc),
            greatest: Greatest::of(alloc, graph)?,
            walk: Vec::new(alloc),
            walked: Vec::from_elem(alloc, NONE, elements)?,
            least: 0,
        };
        for list in 0..graph.lists() {
            peeling.meet_first(graph, list)?;
        }
        Ok(peeling)
    }

    /// Whether an element is left.
    fn is_left(&self, x: u32) -> bool {
        match self.gone.get(x as usize) {
            Some(gone) => !*gone,
            None => false,
        }
    }

    /// Goes on to the first element of a list that is left: it is free where it is the first in all its
    /// lists.
    fn meet_first(&mut self, graph: &OrderGraph, list: u32) -> Result<(), Memory> {
        let row = graph.list(list);
        for place in at(&self.fronts, list)..graph.length(list) {
            let x = at(row, place);
            if self.is_left(x) {
                put(&mut self.fronts, list, place);
                let firsts = at(&self.firsts, x).saturating_add(1);
                put(&mut self.firsts, x, firsts);
                if firsts == graph.spots(x) {
                    self.free.push(x)?;
                }
                return Ok(());
            }
        }
        put(&mut self.fronts, list, graph.length(list));
        Ok(())
    }

    /// Takes an element away: the lists where it was the first go on to another, and a walk ends before it.
    fn take_away(&mut self, graph: &OrderGraph, x: u32) -> Result<(), Memory> {
        if (x as usize) < self.gone.len() {
            self.gone[x as usize] = true;
        }
        let place = at(&self.walked, x);
        self.end_walk(place);
        for i in 0..graph.spots(x) {
            if let Some(spot) = graph.spot(x, i) {
                self.greatest.take_away(spot);
                if at(&self.fronts, spot.list) == spot.place {
                    self.meet_first(graph, spot.list)?;
                }
            }
        }
        Ok(())
    }

    /// The element to take away next; `NONE` where none is left.
    fn next_taken(&mut self, graph: &OrderGraph) -> Result<u32, Memory> {
        for _ in 0..self.free.len() {
            if let Some(x) = self.free.pop() {
                if self.is_left(x) {
                    return Ok(x);
                }
            }
        }
        if self.walk.is_empty() {
            let start = self.least_left(graph);
            if start == NONE {
                return Ok(NONE);
            }
            self.walk_to(start)?;
        }
        self.walk_round(graph)
    }

    /// The least element that is left; `NONE` where none is.
    fn least_left(&mut self, graph: &OrderGraph) -> u32 {
        for x in self.least..graph.elements() {
            if self.is_left(x) {
                self.least = x;
                return x;
            }
        }
        self.least = graph.elements();
        NONE
    }

    /// Goes on with the walk until it comes to an element that is on it: the least of this ring. Where
    /// nothing that is left stands before the last, it is that one.
    fn walk_round(&mut self, graph: &OrderGraph) -> Result<u32, Memory> {
        for _ in 0..graph.elements() {
            let last = self.last_walked();
            let next = self.greatest.before(graph, last);
            if next == NONE {
                return Ok(last);
            }
            let place = at(&self.walked, next);
            if place != NONE {
                return Ok(self.least_walked(place));
            }
            self.walk_to(next)?;
        }
        Ok(self.last_walked())
    }

    /// Puts an element at the end of the walk.
    fn walk_to(&mut self, x: u32) -> Result<(), Memory> {
        put(
            &mut self.walked,
            x,
            self.walk.len().min(NONE as usize) as u32,
        );
        self.walk.push(x)?;
        Ok(())
    }

    /// The last element of the walk.
    fn last_walked(&self) -> u32 {
        match self.walk.last() {
            Some(x) => *x,
            None => NONE,
        }
    }

    /// The least element of the walk from a place on.
    fn least_walked(&self, place: u32) -> u32 {
        let mut least = NONE;
        for x in self.walk.iter().skip(place as usize) {
            least = least.min(*x);
        }
        least
    }

    /// Lets the walk end before a place.
    fn end_walk(&mut self, place: u32) {
        for _ in (place as usize).min(self.walk.len())..self.walk.len() {
            if let Some(x) = self.walk.pop() {
                put(&mut self.walked, x, NONE);
            }
        }
    }
}
