//! One worker: it claims sources, searches from them, and offers what it finds.

ghost use Rattle.std.specs.Prelude.{◌≡◌, ℕ, Option, List, ◌<◌, ◌≤◌, true, [], ◌++◌, length, IfOk, All};
ghost use Rattle.order_graph.specs.Lists.{lists_of};
ghost use Rattle.level_search.specs.Looks.{HasLookedBy, IsAnswerFrom, with_answer};
ghost use Rattle.level_search.specs.Team.{IsLength, IsReady, SameSeat};
ghost use Rattle.level_search.specs.Ways.{FitsRoom, IsWay};
ghost use Rattle.list_search.specs.Walks.{NoneShorter};
ghost use Rattle.level_search.specs.declared.tabled.sets.Sets.{Sets};

use super::bound_seat::BoundSeat;
use crate::gate::Gate;
use crate::ways::{Room, Way, search_through};
use events::Memory;
use order_graph::{Looked, OrderGraph};
use shared_bound::{Bound, NO_OFFER, Seat};
use std::alloc::Global;

/// One of those who search for the conflict number: its number, its seat at the shared bound, what its
/// searches write on, and how many steps they have taken.
#[derive(Drop)]
pub struct Worker<'a> {
    pub number: u32,
    pub seat: BoundSeat<'a>,
    pub room: Room,
    pub looked: Looked,
}

impl<'a> Worker<'a> {
    /// A worker that has claimed nothing yet.
    pub fn new(
        alloc: Global,
        graph: &OrderGraph,
        number: u32,
        bound: &'a Bound,
        seat: Seat,
    ) -> Result<Worker<'a>, Memory>
        requires bound { seat.bound ≡ bound.now }
        requires fresh { (seat.claimed ≡ []) × (seat.offered ≡ []) × (seat.low ≤ NO_OFFER) }
        ensures number { IfOk result (λ w. w.number ≡ number) }
        ensures seat { IfOk result (λ w. w.seat ≡ seat) }
        ensures ready { IfOk result (λ w. (sources : List ℕ) → IsReady graph.now sources w) }
    {
        let room = Room::new(alloc, graph)?;
        Ok(Worker {
            number,
            seat: BoundSeat::new(bound, seat),
            room,
            looked: Looked::new(),
        })
    }

    /// Its seat, and how many steps its searches have taken.
    pub fn into_seat(self) -> (Seat, u64)
        ensures seat { result.0 ≡ self.entry.seat }
        ensures looked { result.1 ≡ self.entry.looked }
    {
        let Worker {
            number: _,
            seat,
            room: _,
            looked,
        } = self;
        (seat.into_seat(), looked.count())
    }
}

/// Searches from one element, between the gate's calls, and offers the length that it finds.
fn search_from<G: Gate>(graph: &OrderGraph, way: &Way, source: u32, gate: &G, worker: &mut Worker)
    requires element { source < length graph.now.elements }
    requires way { IsWay graph.now way.now }
    requires fits { FitsRoom graph.now worker.old.room }
    requires known { worker.old.seat.low ≤ NO_OFFER }
    ensures number { worker.new.number ≡ worker.old.number }
    ensures fits { FitsRoom graph.now worker.new.room }
    ensures searched { NoneShorter (lists_of graph.now) source worker.new.seat.low }
    ensures falls { worker.new.seat.low ≤ worker.old.seat.low }
    ensures seat { worker.new.seat ≡ record worker.old.seat {
      offered = worker.new.seat.offered;
      low = worker.new.seat.low;
    } }
    ensures offers { All (IsLength (lists_of graph.now)) worker.old.seat.offered
        → All (IsLength (lists_of graph.now)) worker.new.seat.offered }
    ensures looks { (sets : Sets) × (answer : Option ℕ)
        × (worker.new.seat.offered ≡ worker.old.seat.offered ++ with_answer answer [])
        × IsAnswerFrom (lists_of graph.now) source worker.new.seat.low answer
        × HasLookedBy (length graph.now.elements) (lists_of graph.now) source worker.new.seat.low sets answer
        worker.old.looked worker.new.looked }
{
    gate.before(worker.number, source);
    if let Some(length) = search_through(
        graph,
        way,
        source,
        &mut worker.room,
        &mut worker.looked,
        &mut worker.seat,
    ) {
        worker.seat.offer(length);
    }
    gate.after(worker.number, source);
}

/// Claims places of the sources until none is left, and searches from the element at each.
pub fn work<G: Gate>(graph: &OrderGraph, way: &Way, sources: &[u32], gate: &G, worker: &mut Worker)
    requires way { IsWay graph.now way.now }
    requires known { All (λ s. s < length graph.now.elements) sources.now }
    requires count { worker.old.seat.bound.sources ≡ length sources.now }
    requires ready { IsReady graph.now sources.now worker.old }
    ensures number { worker.new.number ≡ worker.old.number }
    ensures ready { IsReady graph.now sources.now worker.new }
    ensures done { worker.new.seat.done ≡ true }
    ensures same { SameSeat worker.old.seat worker.new.seat }
{
    while let Some(place) = worker.seat.claim() {
        search_from(graph, way, sources[place as usize], gate, worker);
    }
}
