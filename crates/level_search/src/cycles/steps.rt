//! Each step of a ring, with the operation that shows it.

ghost use Rattle.std.specs.Prelude.{◌≡◌, ◌<◌, IfOk, length};
ghost use Rattle.specification.specs.Responses.{AreProper};
ghost use Rattle.order_graph.specs.Lists.{lists_of};
ghost use Rattle.list_search.specs.Graph.{Before};
ghost use Rattle.list_search.specs.Rings.{IsRing};
ghost use Rattle.level_search.specs.Steps.{IsStepBetween, AreStepsOf, next_in};

use events::Memory;
use order_graph::OrderGraph;
use std::alloc::Global;
use witnesses::Step;

/// The element after the one at a place of a ring; after the last stands the first.
fn behind(ring: &[u32], i: usize) -> u32
    requires { i < length ring.now }
    ensures { result ≡ next_in ring.now i }
{
    if i + 1 < ring.len() {
        ring[i + 1]
    } else {
        ring[0]
    }
}

/// The step from an element to one that it stands before.
fn step_between(graph: &OrderGraph, a: u32, b: u32) -> Step
    requires proper { AreProper graph.now }
    requires before { Before (lists_of graph.now) a b }
    ensures { IsStepBetween graph.now a b result }
{
    let Some(from) = graph.name(a) else {
        unreachable!()
    };
    let Some(to) = graph.name(b) else {
        unreachable!()
    };
    let Some(shown) = graph.before(a, b) else {
        unreachable!()
    };
    Step { from, to, shown }
}

/// The steps of a ring.
pub fn steps_of(alloc: Global, graph: &OrderGraph, ring: &[u32]) -> Result<Vec<Step>, Memory>
    requires proper { AreProper graph.now }
    requires ring { IsRing (lists_of graph.now) ring.now }
    ensures count { IfOk result (λ steps. length steps.items ≡ length ring.now) }
    ensures steps { IfOk result (λ steps. AreStepsOf graph.now ring.now steps.items) }
{
    let mut steps = Vec::new(alloc);
    for i in 0..ring.len() {
        let step = step_between(graph, ring[i], behind(ring, i));
        steps.push(step)?;
    }
    Ok(steps)
}
