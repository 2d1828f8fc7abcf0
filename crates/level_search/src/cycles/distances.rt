//! How many steps lead from one element to each, and back.

ghost use Rattle.std.specs.Prelude.{◌≡◌, ℕ, ◌+◌, ◌<◌, ◌≤◌, IfOk, length, replicate, slice_index, vec_len};
ghost use Rattle.specification.specs.Responses.{place_count};
ghost use Rattle.order_graph.specs.Lists.{lists_of, ticked};
ghost use Rattle.list_search.specs.Clean.{IsReady};
ghost use Rattle.list_search.specs.Distances.{AreDistances, AreReached};
ghost use Rattle.list_search.specs.Rings.{AreDistancesTo};
ghost use Rattle.level_search.specs.Rounds.{FitsDepths, FitsDistances};

use events::Memory;
use list_search::{ReadyScratch, distances_ready};
use order_graph::{Looked, OrderGraph};
use std::alloc::Global;

/// How many steps lead to each element, at the least, as the last search found; its limit, where so few don't.
/// The elements that it reached are the first `count` of `reached`: the next search sets back these alone.
#[derive(Drop)]
pub struct Depths {
    pub depths: Vec<u32>,
    pub reached: Vec<u32>,
    pub count: usize,
}

impl Depths {
    /// Room for the elements of a graph. It takes time and memory linear in these.
    fn new(alloc: Global, graph: &OrderGraph, limit: u32) -> Result<Depths, Memory>
        ensures fits { IfOk result (FitsDepths (length graph.now.elements) limit) }
    {
        let elements = graph.elements() as usize;
        Ok(Depths {
            depths: Vec::from_elem(alloc, limit, elements)?,
            reached: Vec::from_elem(alloc, 0, elements)?,
            count: 0,
        })
    }

    /// Sets each depth to the limit, as all are that the last search did not reach.
    fn erase(&mut self, limit: u32)
        requires count { self.old.count ≤ vec_len self.old.reached }
        requires known { (k : ℕ) → k < self.old.count
            → slice_index self.old.reached.items k < vec_len self.old.depths }
        requires reached { AreReached limit self.old.depths.items self.old.reached.items self.old.count }
        ensures reached { self.new.reached ≡ self.old.reached }
        ensures erased { self.new.depths.items ≡ replicate (vec_len self.old.depths) limit }
    {
        for k in 0..self.count {
            let x = self.reached[k] as usize;
            self.depths[x] = limit;
        }
    }

    /// Finds how many steps lead from an element to each. Beside what it erases of the last search it takes
    /// steps for what it reaches alone, and the places where that stands.
    fn find(
        &mut self,
        graph: &OrderGraph,
        element: u32,
        limit: u32,
        scratch: &mut ReadyScratch,
        looked: &mut Looked,
    )
        requires known { element < length graph.now.elements }
        requires fits { FitsDepths (length graph.now.elements) limit self.old }
        requires ready { IsReady scratch.old graph.now }
        ensures fits { FitsDepths (length graph.now.elements) limit self.new }
        ensures ready { IsReady scratch.new graph.now }
        ensures depths { AreDistances (lists_of graph.now) element limit self.new.depths.items }
        ensures looked { looked.new ≤ looked.old + (place_count graph.now + length graph.now.elements) }
        ensures forward { looked.old ≤ looked.new }
        ensures some { 1 < limit → ticked looked.old ≤ looked.new }
    {
        self.erase(limit);
        self.count = distances_ready(
            graph,
            element,
            limit,
            scratch,
            self.depths.as_mut_slice(),
            self.reached.as_mut_slice(),
        );
        looked.add(scratch.looked());
    }
}

/// The distances of all elements from one, and to one, by searches over the lists. Each list is copied in the
/// other direction, once for all searches.
#[derive(Drop)]
pub struct Distances {
    pub turned: OrderGraph,
    pub scratch: ReadyScratch,
    pub to: Depths,
    pub from: Depths,
}

impl Distances {
    /// Room for the distances of a graph below a limit. Time and memory are linear in the elements and the
    /// places.
    pub fn new(alloc: Global, graph: &OrderGraph, limit: u32) -> Result<Distances, Memory>
        ensures { IfOk result (FitsDistances graph.now limit) }
    {
        let turned = graph.turned(alloc)?;
        let scratch = ReadyScratch::new(alloc, graph)?;
        let to = Depths::new(alloc, graph, limit)?;
        let from = Depths::new(alloc, graph, limit)?;
        Ok(Distances {
            turned,
            scratch,
            to,
            from,
        })
    }

    /// Finds how many steps lead from each element to this one, at the least; the limit, where so few don't.
    /// It takes steps for what it reaches alone, as for what the search before it reached.
    pub fn find_to(&mut self, graph: &OrderGraph, element: u32, limit: u32, looked: &mut Looked)
        requires known { element < length graph.now.elements }
        requires fits { FitsDistances graph.now limit self.old }
        ensures fits { FitsDistances graph.now limit self.new }
        ensures to { AreDistancesTo (lists_of graph.now) element limit self.new.to.depths.items }
        ensures looked { looked.new ≤ looked.old + (place_count graph.now + length graph.now.elements) }
        ensures forward { looked.old ≤ looked.new }
        ensures some { 1 < limit → ticked looked.old ≤ looked.new }
    {
        // Its contract has that the responses are proper.
        let _ = graph.elements();
        self.to
            .find(&self.turned, element, limit, &mut self.scratch, looked);
    }

    /// Finds how many steps lead from this element to each, at the least; the limit, where so few don't. It
    /// takes steps for what it reaches alone, as for what the search before it reached.
    pub fn find_from(&mut self, graph: &OrderGraph, element: u32, limit: u32, looked: &mut Looked)
        requires known { element < length graph.now.elements }
        requires fits { FitsDistances graph.now limit self.old }
        ensures fits { FitsDistances graph.now limit self.new }
        ensures to { self.new.to ≡ self.old.to }
        ensures from { AreDistances (lists_of graph.now) element limit self.new.from.depths.items }
        ensures looked { looked.new ≤ looked.old + (place_count graph.now + length graph.now.elements) }
        ensures forward { looked.old ≤ looked.new }
        ensures some { 1 < limit → ticked looked.old ≤ looked.new }
    {
        self.from
            .find(graph, element, limit, &mut self.scratch, looked);
    }
}
