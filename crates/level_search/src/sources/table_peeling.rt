//! Elements taken away one by one, as in `list_peeling`, where there is a table of what stands before each.

ghost use Rattle.std.specs.Prelude.{◌≡◌, length};

use crate::before_table::BeforeTable;
use crate::guesses::{NONE, at, put};
use bit_tables::BitSet;
use events::Memory;
use order_graph::OrderGraph;
use std::alloc::Global;

/// What is left of the elements.
#[derive(Drop)]
struct Peeling {
    /// The elements that were taken away.
    gone: BitSet,
    /// For each element the last that stood before it and was left when that was looked up: all that stand
    /// before it above that one are gone. `NONE` where none was looked up.
    awaited: Vec<u32>,
    /// For each element the first of those that await it.
    first: Vec<u32>,
    /// For each element the next of those that await the same.
    next: Vec<u32>,
    /// Elements before which none that is left stands.
    free: Vec<u32>,
    /// For each element the last walk that came to it; `NONE` where none did.
    walked: Vec<u32>,
    /// No lesser element is left.
    least: u32,
}

/// The elements in the order in which they are taken away, each once, as `order_by_lists` takes them. It
/// reads the words of an element's row once, and again up to the element that it awaited last.
pub fn order_by_table(
    alloc: Global,
    graph: &OrderGraph,
    table: &BeforeTable,
) -> Result<Vec<u32>, Memory>
    requires { length table.now ≡ length graph.now.elements }
{
    let elements = graph.elements();
    let mut peeling = Peeling::of(alloc, graph)?;
    for x in 0..elements {
        peeling.await_one(graph, table, x)?;
    }
    let mut order = Vec::new(alloc);
    for step in 0..elements {
        if let Some(x) = peeling.next_taken(graph, step) {
            peeling.take_away(graph, table, x)?;
            order.push(x)?;
        }
    }
    Ok(order)
}

impl Peeling {
    /// All elements, of which none awaits another yet.
    fn of(alloc: Global, graph: &OrderGraph) -> Result<Peeling, Memory> {
        let elements = graph.elements() as usize;
        Ok(Peeling {
            gone: BitSet::new(alloc, elements)?,
            awaited: Vec::from_elem(alloc, NONE, elements)?,
            first: Vec::from_elem(alloc, NONE, elements)?,
            next: Vec::from_elem(alloc, NONE, elements)?,
            free: Vec::new(alloc),
            walked: Vec::from_elem(alloc, NONE, elements)?,
            least: 0,
        })
    }

    /// Lets an element that is left await the last that stands before it and is left; where there is none
    /// it is free. Where it awaited another, all that stand before it above that one are gone, so only those
    /// below are looked at.
    fn await_one(&mut self, graph: &OrderGraph, table: &BeforeTable, x: u32) -> Result<(), Memory>
        requires { length table.now ≡ length graph.now.elements }
    {
        let elements = graph.elements();
        if x >= elements || self.gone.contains(x as usize) {
            return Ok(());
        }
        let above = at(&self.awaited, x).min(elements);
        match table.before(x).last_of_difference(&self.gone, above) {
            None => self.free.push(x)?,
            Some(y) => {
                put(&mut self.awaited, x, y);
                let waiting = at(&self.first, y);
                put(&mut self.next, x, waiting);
                put(&mut self.first, y, x);
            }
        }
        Ok(())
    }

    /// Takes an element away: those that await it await another.
    fn take_away(&mut self, graph: &OrderGraph, table: &BeforeTable, x: u32) -> Result<(), Memory>
        requires { length table.now ≡ length graph.now.elements }
    {
        if self.gone.has_room(x as usize) {
            self.gone.insert(x as usize);
        }
        let mut waiting = at(&self.first, x);
        for _ in 0..graph.elements() {
            if waiting == NONE {
                return Ok(());
            }
            let next = at(&self.next, waiting);
            self.await_one(graph, table, waiting)?;
            waiting = next;
        }
        Ok(())
    }

    /// The element to take away next; none where none is left.
    fn next_taken(&mut self, graph: &OrderGraph, step: u32) -> Option<u32> {
        if let Some(x) = self.free.pop() {
            return Some(x);
        }
        let start = self.least_left(graph)?;
        Some(self.least_on_cycle(graph, start, step))
    }

    /// The least element that is left.
    fn least_left(&mut self, graph: &OrderGraph) -> Option<u32> {
        for x in self.least..graph.elements() {
            if !self.gone.contains(x as usize) {
                self.least = x;
                return Some(x);
            }
        }
        None
    }

    /// The least element of a cycle, which is found by going back from this element.
    fn least_on_cycle(&mut self, graph: &OrderGraph, start: u32, walk: u32) -> u32 {
        let met = self.met_again(graph, start, walk);
        let mut least = met;
        let mut x = met;
        for _ in 0..graph.elements() {
            x = at(&self.awaited, x);
            if x == met {
                return least;
            }
            least = least.min(x);
        }
        least
    }

    /// The element that is met again on a walk back from this one.
    fn met_again(&mut self, graph: &OrderGraph, start: u32, walk: u32) -> u32 {
        let mut x = start;
        for _ in 0..graph.elements() {
            if at(&self.walked, x) == walk {
                return x;
            }
            put(&mut self.walked, x, walk);
            x = at(&self.awaited, x);
        }
        x
    }
}
