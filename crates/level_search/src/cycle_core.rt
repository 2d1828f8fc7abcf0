//! The part of a graph in which all its cycles are.

ghost use Rattle.std.specs.Prelude.{◌≡◌, ◌≤◌, IfOk, IfSome, length};

use super::components::elements_on_cycles;
use super::gate::Gate;
use super::thinning::thinned;
use events::Memory;
use order_graph::OrderGraph;
use std::alloc::Global;
use witness_order::Successors;

/// The elements of a graph through which a cycle leads, by their numbers, and the graph of these alone; and the
/// same without the lists that others hold, where that is much smaller.
#[derive(Drop)]
pub struct Core {
    pub elements: Vec<u32>,
    pub graph: OrderGraph,
    pub thinned: Option<OrderGraph>,
}

impl Core {
    ghost use Rattle.specification.specs.LayerRule.{narrowed};
    ghost use Rattle.specification.specs.Responses.{place_count};
    ghost use Rattle.order_graph.specs.Kept.{names_at};
    ghost use Rattle.order_graph.specs.Lists.{lists_of};
    ghost use Rattle.witness_order.specs.Edges.{AreEdgesOf};
    ghost use Rattle.level_search.specs.Cores.{IsCoreOf};
    ghost use Rattle.level_search.specs.Thinned.{searched_of, IsThinned};

    /// The core of a graph with these edges, which are let go before its lists are made. It takes time and memory
    /// linear in the elements and the places.
    pub fn of(alloc: Global, graph: &OrderGraph, successors: Successors) -> Result<Core, Memory>
        requires { AreEdgesOf (lists_of graph.now) (length graph.now.elements) successors }
        ensures elements { IfOk result (λ c. IsCoreOf graph.now c.elements.items) }
        ensures graph { IfOk result (λ c. c.graph
            ≡ narrowed graph.now (names_at graph.now.elements c.elements.items)) }
        ensures few { IfOk result (λ c. (length c.elements.items ≤ length graph.now.elements)
            × (length c.elements.items ≤ place_count graph.now)) }
        ensures thin { IfOk result (λ c. IfSome c.thinned (IsThinned c.graph)) }
    {
        // Its contract has that the responses are proper.
        let _ = graph.elements();
        let elements = elements_on_cycles(alloc, graph, successors)?;
        let part = graph.narrowed(alloc, &elements)?;
        let fewer = thinned(alloc, &part)?;
        Ok(Core {
            elements,
            graph: part,
            thinned: fewer,
        })
    }

    /// The graph in which searches go: what stands before what is the same in both.
    pub fn searched(&self) -> &OrderGraph
        ensures { result.now ≡ searched_of self.now.graph self.now.thinned }
    {
        match &self.thinned {
            Some(fewer) => fewer,
            None => &self.graph,
        }
    }

    /// A gate that is told the numbers that elements have in the whole graph.
    pub fn gate<'a, G: Gate>(&'a self, gate: &'a G) -> CoreGate<'a, G> {
        CoreGate {
            elements: self.elements.as_slice(),
            gate,
        }
    }
}

/// A gate that tells another the numbers that the elements of a part have in the whole.
#[derive(Drop)]
pub struct CoreGate<'a, G: Gate> {
    elements: &'a [u32],
    gate: &'a G,
}

impl<'a, G: Gate> Gate for CoreGate<'a, G> {
    fn before(&self, worker: u32, source: u32) {
        if let Some(x) = self.elements.get(source as usize) {
            self.gate.before(worker, *x);
        }
    }

    fn after(&self, worker: u32, source: u32) {
        if let Some(x) = self.elements.get(source as usize) {
            self.gate.after(worker, *x);
        }
    }
}
