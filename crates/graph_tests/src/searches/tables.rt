//! Searches by a table: at how many rows they look, and that they read their bound again.

ghost use Rattle.std.specs.Prelude.{◌≡◌, ◌<◌, true, IfOk, length};
ghost use Rattle.order_graph.specs.Lists.{lists_of};
ghost use Rattle.level_search.specs.Tables.{IsBeforeTable};
ghost use Rattle.shared_bound.specs.Seats.{fresh_seat};
ghost use Rattle.level_search.specs.Balls.{FitsSets};

use super::graphs::ask_of;
use super::sources::FallingBound;
use events::Memory;
use level_search::{BeforeTable, BoundSource, PlainBound, Sets, search_by_table};
use order_graph::{Looked, OrderGraph};
use sample_recordings::{RING_OF_FOUR, recording};
use shared_bound::{Bound, NO_OFFER, Seat};
use std::alloc::Global;
use std::marker::Model;
use std::sync::atomic::{AtomicU64, Ordering};
use std::test::Fail;
use std::thread;
use std::thread::Threads;

/// A table of the graph. A call that finds no memory is made again.
fn table(alloc: Global, graph: &OrderGraph) -> Result<BeforeTable, Fail>
    ensures { IfOk result (λ t. IsBeforeTable (length graph.now.elements) (lists_of graph.now) t) }
{
    match BeforeTable::of(alloc, graph) {
        Ok(made) => Ok(made),
        Err(Memory) => Ok(BeforeTable::of(alloc, graph)?),
    }
}

/// Sets for searches of the graph, in the same way.
fn sets(alloc: Global, graph: &OrderGraph) -> Result<Sets, Fail>
    ensures { IfOk result (FitsSets (length graph.now.elements)) }
{
    match Sets::new(alloc, graph) {
        Ok(made) => Ok(made),
        Err(Memory) => Ok(Sets::new(alloc, graph)?),
    }
}

/// What a search from the first element finds, and at how many rows of the table it looks.
fn found_by_table<B: BoundSource>(
    alloc: Global,
    graph: &OrderGraph,
    bound: &mut B,
) -> Result<(Option<u32>, u64), Fail> {
    if graph.elements() == 0 {
        Err("no element")?;
    }
    let table = table(alloc, graph)?;
    let mut sets = sets(alloc, graph)?;
    let mut looked = Looked::new();
    let found = search_by_table(graph, &table, 0, &mut sets, &mut looked, bound);
    Ok((found, looked.count()))
}

/// Round the ring each of four layers has one element. Its row is looked at twice, but in the last layer,
/// where the cycle closes at the first look.
#[test]
fn rows_that_a_search_of_the_ring_of_four_looks_at(rt: HostRuntime) -> Result<(), Fail> {
    let alloc = rt.alloc();
    let found = ask_of(&rt, alloc, &recording(alloc, RING_OF_FOUR)?, |ring| {
        found_by_table(alloc, ring, &mut PlainBound { least: 4294967295 })
    })?;
    assert_eq!(rt; found, (Some(4), 7));
    Ok(())
}

/// The bound is 5 before the first layer, below which the cycle of four is, and 3 from the second on: two
/// rows are looked at in the first layer, and in the second one, since a third layer could only give a cycle
/// that is no shorter than 3.
#[test]
fn a_search_by_a_table_reads_its_bound_again(rt: HostRuntime) -> Result<(), Fail> {
    let alloc = rt.alloc();
    let found = ask_of(&rt, alloc, &recording(alloc, RING_OF_FOUR)?, |ring| {
        found_by_table(alloc, ring, &mut FallingBound::new(5, 3))
    })?;
    assert_eq!(rt; found, (None, 3));
    Ok(())
}

/// How many turns a thread waits for another at most.
const TURNS: u32 = 50_000_000;

/// How often a search has asked for its bound, and how many lengths another thread has offered.
#[derive(Drop)]
struct Meeting {
    asked: AtomicU64,
    offered: AtomicU64,
}

impl Meeting {
    fn new() -> Meeting {
        Meeting {
            asked: AtomicU64::new(0),
            offered: AtomicU64::new(0),
        }
    }

    /// One thread asks. Where it isn't the first time, it waits for an offer.
    fn ask(&self) {
        if self.asked.fetch_add(1, Ordering::SeqCst) > 0 {
            wait_for(&self.offered, 1);
        }
    }

    /// Another thread offers this length, from its seat, once the first has asked again.
    fn offer(&self, bound: &Bound, mut seat: Seat, length: u32)
        requires bound { seat.bound ≡ bound.now }
        requires length { length < NO_OFFER }
    {
        wait_for(&self.asked, 2);
        bound.offer(&mut seat, length);
        self.offered.fetch_add(1, Ordering::SeqCst);
    }
}

/// Waits until a count has reached a number, or for `TURNS` turns.
fn wait_for(count: &AtomicU64, number: u64) {
    for _ in 0..TURNS {
        if count.load(Ordering::SeqCst) >= number {
            return;
        }
    }
}

/// The bound that all workers share, and one worker's seat, which lets another worker offer between its first
/// answer and the second. Contracts see the seat.
#[derive(Drop)]
struct MetSeat<'a> {
    bound: &'a Bound,
    seat: Seat,
    meeting: &'a Meeting,
}

impl<'a> Model for MetSeat<'a> {
    ghost use Rattle.std.specs.Prelude.{◌≡◌};
    ghost use Rattle.shared_bound.specs.Seats.{SeatView};

    ghost Value = { SeatView };

    ghost view = { λ a. a.seat };

    ghost invariant = { λ a. a.seat.bound ≡ a.bound.now };
}

impl<'a> BoundSource for MetSeat<'a> {
    ghost use Rattle.std.proofs.Common.{◌≡◌, refl, ◌∙◌, ap};
    ghost use Rattle.shared_bound.specs.Seats.{SeatView};

    ghost last = { λ a. a.low };

    ghost reads = { λ a b. b ≡ record a { low = b.low } };

    ghost read_times = { λ a n b. b ≡ record a { low = b.low } };

    ghost reads_none = { λ a. refl };

    ghost reads_more = { λ a b c p q. q ∙ ap (λ (s : SeatView). record s { low = c.low }) p };

    ghost times_none = { λ a. refl };

    ghost times_more = { λ a b c m n p q. q ∙ ap (λ (s : SeatView). record s { low = c.low }) p };

    fn best(&mut self) -> u32 {
        self.meeting.ask();
        self.bound.best(&mut self.seat)
    }
}

/// A bound for the workers of a search from four elements, with its first seat, in the same way as a table.
fn bound(alloc: Global) -> Result<(Bound, Seat), Fail>
    ensures { IfOk result (λ made. made.1 ≡ fresh_seat made.0 true NO_OFFER 1) }
{
    match Bound::new(alloc, 4, 2) {
        Ok(made) => Ok(made),
        Err(_) => Ok(Bound::new(alloc, 4, 2)?),
    }
}

/// What a search from the first element finds, at how many rows of the table it looks, and how often it asks
/// for its bound, where another worker offers this length once it asks for the second time.
fn found_beside_an_offer(
    rt: &(impl Threads + Sync),
    alloc: Global,
    graph: &OrderGraph,
    length: u32,
) -> Result<(Option<u32>, u64, u64), Fail>
    requires { length < NO_OFFER }
{
    let (bound, mut first) = bound(alloc)?;
    let other = bound.share(&mut first);
    let meeting = Meeting::new();
    let mut seat = MetSeat {
        bound: &bound,
        seat: first,
        meeting: &meeting,
    };
    let (found, ()) = thread::join(
        rt,
        || found_by_table(alloc, graph, &mut seat),
        || meeting.offer(&bound, other, length),
    );
    let (found, looked) = found?;
    Ok((found, looked, meeting.asked.load(Ordering::SeqCst)))
}

/// The same as with a bound that falls, where it is the workers' bound, and another worker's offer lowers it
/// in the midst of the search.
#[test]
fn an_offer_ends_another_workers_search(rt: HostRuntime) -> Result<(), Fail> {
    let alloc = rt.alloc();
    let found = ask_of(&rt, alloc, &recording(alloc, RING_OF_FOUR)?, |ring| {
        found_beside_an_offer(&rt, alloc, ring, 3)
    })?;
    assert_eq!(rt; found, (None, 3, 2));
    Ok(())
}
