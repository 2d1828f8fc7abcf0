//! The verdict on a recording.

ghost use Rattle.std.specs.Prelude.{◌≡◌, ◌⊎◌, ◌↔◌, ◌<◌, IfNone, IfOk, IfSome, IsErrOf, None, Some};
ghost use Rattle.specification.specs.Faults.{IsSound};
ghost use Rattle.specification.specs.Orders.{HasNoOrder, IsLeastOrder};
ghost use Rattle.specification.specs.Responses.{responses_of};
ghost use Rattle.specification.specs.Verdict.{IsVerdict, DecidesSpecifications, ProvesItself};
ghost use Rattle.contents_check.specs.Covering.{IsChecked};
ghost use Rattle.order_graph.specs.Covers.{IsCoveredBy};
ghost use Rattle.level_search.specs.Conflicts.{AreLooksIn, IsLeastConflict, IsWithinSearches};
ghost use Rattle.level_search.specs.Looks.{AreCycleLooks};
ghost use Rattle.verdict.specs.AllLooks.{AreLooksFor};
ghost use Rattle.verdict.specs.Sifted.{IsSifted};
ghost use Rattle.verdict.specs.VerdictOf.{IsRefusal, verdict_of};

use super::verdict::Verdict;
use contents_check::{Checked, check, check_in_turn};
use events::{Memory, Recording};
use level_search::{
    Conflict, Gate, MOST_WORKERS, SearchFault, least_conflict_along, least_conflict_in_turn,
};
use order_graph::OrderGraph;
use std::alloc::Global;
use std::thread::Threads;
use visibility::Sight;
use witness_order::{Sorted, Successors, sort};
use witnesses::Order;

/// The verdict on a recording.
///
/// The number of workers, 1 to 64, is tested before the recording is looked at. One walk over each replica
/// checks its contents and finds its responses that cover the others: with more than one worker one half of
/// the replicas is gone through beside the other, in a second thread; with one all is done in the caller's
/// thread. The search for the conflict number is made only where no order follows every response; the gate is
/// called round each of its searches. The least cycle is then found in the caller's thread.
///
/// Without conflicts its cost is that of `contents_check::check` and linear in the places of the responses
/// that cover all; where there are, `least_conflict` has the cost of the search. Memory is linear in the
/// places. Where there are conflicts it is linear for each worker in the n elements through which a cycle
/// leads, and a table of n * n / 8 bytes is made only where that is at most 8 bytes for each place.
pub fn judge<H: Threads + Sync, G: Gate>(
    rt: &H,
    alloc: Global,
    recording: &Recording,
    workers: u32,
    gate: &G,
) -> Result<Verdict, SearchFault>
    ensures verdict { IfOk result (λ v. IsVerdict recording.now (verdict_of v)) }
    ensures specifications { IfOk result (λ v. DecidesSpecifications recording.now (verdict_of v)) }
    ensures proof { IfOk result (λ v. ProvesItself recording.now (verdict_of v)) }
    ensures workers { IsErrOf result SearchFault.Workers ↔ ((workers < 1) ⊎ (MOST_WORKERS < workers)) }
{
    // Its contract has that the recording is legal.
    let _ = recording.replicas();
    let found = verdict_and_graph(rt, alloc, recording, workers, gate)?;
    Ok(found.verdict)
}

/// A verdict, and the graph of the recording's responses where the verdict is a refusal; and how many looks all
/// searches took together, up to 18446744073709551615, or 0 where there was none.
#[derive(Drop)]
pub struct Judged {
    pub verdict: Verdict,
    pub graph: Option<OrderGraph>,
    pub looked: u64,
}

/// The verdict on a recording, as `judge` has it, the graph that it was found in, and how much the searches
/// looked at.
pub fn verdict_and_graph<H: Threads + Sync, G: Gate>(
    rt: &H,
    alloc: Global,
    recording: &Recording,
    workers: u32,
    gate: &G,
) -> Result<Judged, SearchFault>
    ensures verdict { IfOk result (λ found. IsVerdict recording.now (verdict_of found.verdict)) }
    ensures graph { IfOk result (λ found. IfSome found.graph (IsCoveredBy (responses_of recording.now))) }
    ensures refusal { IfOk result (λ found. IfNone found.graph (¬ IsRefusal (verdict_of found.verdict))) }
    ensures looked { IfOk result (λ found. IfSome found.graph (λ g. AreLooksFor g (verdict_of found.verdict)
        found.looked)) }
    ensures none { IfOk result (λ found. IfNone found.graph (found.looked ≡ 0)) }
    ensures workers { IsErrOf result SearchFault.Workers ↔ ((workers < 1) ⊎ (MOST_WORKERS < workers)) }
{
    if workers == 0 || workers > MOST_WORKERS {
        return Err(SearchFault::Workers);
    }
    let sight = Sight::of(alloc, recording)?;
    let checked = check(rt, alloc, workers, recording, &sight)?;
    match sift(alloc, recording, checked)? {
        Sifted::Settled(verdict) => Ok(settled(verdict)),
        Sifted::Cyclic { graph, successors } => {
            let found = least_conflict_along(rt, alloc, &graph, successors, workers, gate)?;
            Ok(refused(recording, graph, found))
        },
    }
}

/// The same by one worker, in the caller's thread, which needs no handle.
pub fn verdict_and_graph_in_turn(alloc: Global, recording: &Recording) -> Result<Judged, Memory>
    ensures verdict { IfOk result (λ found. IsVerdict recording.now (verdict_of found.verdict)) }
    ensures graph { IfOk result (λ found. IfSome found.graph (IsCoveredBy (responses_of recording.now))) }
    ensures refusal { IfOk result (λ found. IfNone found.graph (¬ IsRefusal (verdict_of found.verdict))) }
    ensures looked { IfOk result (λ found. IfSome found.graph (λ g. AreLooksFor g (verdict_of found.verdict)
        found.looked)) }
    ensures none { IfOk result (λ found. IfNone found.graph (found.looked ≡ 0)) }
{
    let sight = Sight::of(alloc, recording)?;
    let checked = check_in_turn(alloc, recording, &sight)?;
    match sift(alloc, recording, checked)? {
        Sifted::Settled(verdict) => Ok(settled(verdict)),
        Sifted::Cyclic { graph, successors } => {
            let found = least_conflict_in_turn(alloc, &graph, successors)?;
            Ok(refused(recording, graph, found))
        },
    }
}

/// What is known of a recording before cycles are searched for: its verdict; or the graph of its responses,
/// which no order follows, with the edges between neighbouring places.
#[derive(Drop)]
enum Sifted {
    Settled(Verdict),
    Cyclic {
        graph: OrderGraph,
        successors: Successors,
    },
}

/// What is known of a recording once its contents are checked.
fn sift(alloc: Global, recording: &Recording, checked: Checked) -> Result<Sifted, Memory>
    requires { IsChecked recording.now checked }
    ensures { IfOk result (IsSifted recording.now) }
{
    let numbered = match checked {
        Checked::Faulty(fault) => return Ok(Sifted::Settled(Verdict::of_fault(fault))),
        Checked::Sound(numbered) => numbered,
    };
    let graph = OrderGraph::of_covering(recording, numbered);
    match sort(alloc, &graph)? {
        Sorted::Order(order) => Ok(Sifted::Settled(accepted(recording, &graph, order))),
        Sorted::Cyclic(successors) => Ok(Sifted::Cyclic { graph, successors }),
    }
}

/// A verdict for which no cycle was searched for.
fn settled(verdict: Verdict) -> Judged
    ensures { result ≡ record { verdict = verdict; graph = None; looked = 0 } }
{
    Judged {
        verdict,
        graph: None,
        looked: 0,
    }
}

/// The verdict on a recording without a fault: this is the least order that all responses follow.
fn accepted(recording: &Recording, graph: &OrderGraph, order: Order) -> Verdict
    requires sound { IsSound recording.now }
    requires covered { IsCoveredBy (responses_of recording.now) graph.now }
    requires least { IsLeastOrder graph.now order }
    ensures verdict { IsVerdict recording.now (verdict_of result) }
    ensures accepted { ¬ IsRefusal (verdict_of result) }
{
    Verdict::Accepted(order)
}

/// The verdict on a recording without a fault, where no order follows all responses: this is their least
/// conflict. It has the looks of both searches together.
fn refused(recording: &Recording, graph: OrderGraph, found: Option<Conflict>) -> Judged
    requires sound { IsSound recording.now }
    requires covered { IsCoveredBy (responses_of recording.now) graph }
    requires disordered { HasNoOrder graph }
    requires found { IsLeastConflict graph found }
    requires looked { IfSome found (λ c. AreLooksIn graph c.k c.looked) }
    requires few { IfSome found (λ c. IsWithinSearches graph c.looked) }
    requires cycle { IfSome found (λ c. AreCycleLooks graph c.k c.cycle_looked) }
    ensures verdict { IsVerdict recording.now (verdict_of result.verdict) }
    ensures graph { result.graph ≡ Some graph }
    ensures looked { AreLooksFor graph (verdict_of result.verdict) result.looked }
{
    // For their clauses: the recording is legal, and the graph's responses are proper.
    let _ = recording.replicas();
    let _ = graph.elements();
    match found {
        Some(conflict) => {
            let looked = conflict.looked.saturating_add(conflict.cycle_looked);
            Judged {
                verdict: Verdict::Refused {
                    k: conflict.k,
                    steps: conflict.steps,
                },
                graph: Some(graph),
                looked,
            }
        },
        None => unreachable!(),
    }
}
