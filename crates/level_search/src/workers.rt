//! The workers of one search for the conflict number, in threads.

ghost use Rattle.std.specs.Prelude.{◌≡◌, ℕ, ◌+◌, ◌-◌, ◌*◌, ◌<◌, ◌≤◌, true, false, length, IfOk};
ghost use Rattle.std.specs.Prelude.{IsPermutation, All, vec_len};
ghost use Rattle.std.specs.List.{range_with_len};
ghost use Rattle.order_graph.specs.Lists.{lists_of};
ghost use Rattle.specification.specs.Responses.{AreProper};
ghost use Rattle.shared_bound.specs.Seats.{fresh_seat, least_offer};
ghost use Rattle.level_search.specs.Ways.{IsWay};
ghost use Rattle.level_search.specs.Sources.{MeetsCycles};
ghost use Rattle.level_search.specs.Team.{AreLooksOf, AreLooksOfClaims, CanWork, HasWorked, HaveWorked};
ghost use Rattle.level_search.specs.Team.{Honest};
ghost use Rattle.level_search.specs.Team.{IsLeastLength, IsTeam};

pub mod bound_seat;
mod worker;

use super::MOST_WORKERS;
use super::gate::{Gate, NoGate};
use crate::ways::Way;
use events::Memory;
use order_graph::OrderGraph;
use shared_bound::{Bound, NO_OFFER, Seat};
use std::alloc::Global;
use std::thread;
use std::thread::Threads;
use worker::{Worker, work};

/// So many workers, each with a seat at the bound. Worker 0, with the first seat, comes last.
fn team<'a>(
    alloc: Global,
    graph: &OrderGraph,
    sources: &[u32],
    bound: &'a Bound,
    mut first: Seat,
    workers: u32,
) -> Result<Vec<Worker<'a>>, Memory>
    requires workers { (1 ≤ workers) × (workers ≤ MOST_WORKERS) }
    requires first { first ≡ fresh_seat bound.now true NO_OFFER (workers - 1) }
    ensures { IfOk result (λ team. IsTeam bound.now graph.now sources.now (workers - 1) team.items) }
{
    let mut team = Vec::new(alloc);
    for number in 1..workers {
        let seat = bound.share(&mut first);
        team.push(Worker::new(alloc, graph, number, bound, seat)?)?;
    }
    team.push(Worker::new(alloc, graph, 0, bound, first)?)?;
    Ok(team)
}

/// All workers work, each in a thread where one can be started; else another thread does its work too.
fn work_all<H: Threads + Sync, G: Gate>(
    rt: &H,
    graph: &OrderGraph,
    way: &Way,
    sources: &[u32],
    gate: &G,
    team: &mut [Worker],
)
    requires way { IsWay graph.now way.now }
    requires known { All (λ s. s < length graph.now.elements) sources.now }
    requires team { All (CanWork graph.now sources.now) team.old }
    ensures { HaveWorked graph.now sources.now team.old team.new }
{
    let threads = team.len().max(1);
    thread::for_each_mut(
        rt,
        team,
        threads,
        &|_: usize, worker: &mut Worker|
            requires way { IsWay graph.now way.now }
            requires known { All (λ s. s < length graph.now.elements) sources.now }
            requires ready { CanWork graph.now sources.now worker.old }
            ensures { HasWorked graph.entry.now sources.entry.now worker.old worker.new }
        { work(graph, way, sources, gate, worker) },
    );
}

/// The first seat, with all that the others claimed and offered, and how many steps all have taken, up to
/// 18446744073709551615.
fn gathered(
    bound: &Bound,
    graph: &OrderGraph,
    sources: &[u32],
    mut first: Seat,
    mut looked: u64,
    mut others: Vec<Worker>,
) -> (Seat, u64)
    requires first { (first.bound ≡ bound.now) × (first.is_first ≡ true) × (first.out ≡ vec_len others)
        × (first.done ≡ true) }
    requires honest { Honest (lists_of graph.now) sources.now first }
    requires looked { AreLooksOfClaims (length graph.now.elements) (lists_of graph.now) sources.now first
        looked }
    requires others { All (λ w. (w.seat.bound ≡ bound.now) × (w.seat.is_first ≡ false)
        × Honest (lists_of graph.now) sources.now w.seat
        × AreLooksOfClaims (length graph.now.elements) (lists_of graph.now) sources.now w.seat w.looked)
        others.items }
    ensures first { (result.0.bound ≡ bound.now) × (result.0.is_first ≡ true) × (result.0.out ≡ 0)
        × (result.0.done ≡ true) }
    ensures honest { Honest (lists_of graph.now) sources.now result.0 }
    ensures looked { AreLooksOfClaims (length graph.now.elements) (lists_of graph.now) sources.now result.0
        result.1 }
{
    while let Some(other) = others.pop() {
        let (seat, looks) = other.into_seat();
        bound.take_in(&mut first, seat);
        looked = looked.saturating_add(looks);
    }
    (first, looked)
}

/// What the bound has at the end, once each source was searched from and all seats are taken in.
fn closed(bound: Bound, graph: &OrderGraph, sources: &[u32], first: Seat) -> u32
    requires proper { AreProper graph.now }
    requires count { bound.sources ≡ length sources.now }
    requires met { MeetsCycles (lists_of graph.now) (length graph.now.elements) sources.now }
    requires first { (first.bound ≡ bound) × (first.is_first ≡ true) × (first.out ≡ 0) × (first.done ≡ true) }
    requires honest { Honest (lists_of graph.now) sources.now first }
    ensures least { IsLeastLength graph.now result }
    ensures low { result ≤ first.low }
    ensures offer { result ≡ least_offer first.offered }
    ensures claimed { IsPermutation (range_with_len 0 (length sources.now)) first.claimed }
{
    bound.close(first)
}

/// What all searches have found: the length of a shortest cycle, or `NO_OFFER` where there is none; and how
/// many steps they have taken, up to 18446744073709551615.
#[derive(Drop)]
pub struct Searched {
    pub least: u32,
    pub looked: u64,
}

/// The length of a shortest cycle by a search from each of these elements, through one of which each cycle
/// leads. All memory is taken before a worker starts.
pub fn least_length<H: Threads + Sync, G: Gate>(
    rt: &H,
    alloc: Global,
    graph: &OrderGraph,
    way: &Way,
    sources: &[u32],
    workers: u32,
    gate: &G,
) -> Result<Searched, Memory>
    requires way { IsWay graph.now way.now }
    requires known { All (λ s. s < length graph.now.elements) sources.now }
    requires count { length sources.now ≤ length graph.now.elements }
    requires met { MeetsCycles (lists_of graph.now) (length graph.now.elements) sources.now }
    requires workers { (1 ≤ workers) × (workers ≤ MOST_WORKERS) }
    requires proper { AreProper graph.now }
    ensures least { IfOk result (λ s. IsLeastLength graph.now s.least) }
    ensures looked { IfOk result (λ s. AreLooksOf (length graph.now.elements) (lists_of graph.now) s.least
        s.looked) }
{
    // Its contract has that the elements are few.
    let _ = graph.elements();
    let (bound, first) = Bound::new(alloc, sources.len() as u32, workers)?;
    let mut team = team(alloc, graph, sources, &bound, first, workers)?;
    work_all(rt, graph, way, sources, gate, team.as_mut_slice());
    let Some(last) = team.pop() else {
        unreachable!()
    };
    let (first, looked) = last.into_seat();
    let (first, looked) = gathered(&bound, graph, sources, first, looked, team);
    Ok(Searched {
        least: closed(bound, graph, sources, first),
        looked,
    })
}

/// The same by one worker, in the caller's thread.
pub fn least_length_in_turn(
    alloc: Global,
    graph: &OrderGraph,
    way: &Way,
    sources: &[u32],
) -> Result<Searched, Memory>
    requires way { IsWay graph.now way.now }
    requires known { All (λ s. s < length graph.now.elements) sources.now }
    requires count { length sources.now ≤ length graph.now.elements }
    requires met { MeetsCycles (lists_of graph.now) (length graph.now.elements) sources.now }
    requires proper { AreProper graph.now }
    ensures least { IfOk result (λ s. IsLeastLength graph.now s.least) }
    ensures looked { IfOk result (λ s. AreLooksOf (length graph.now.elements) (lists_of graph.now) s.least
        s.looked) }
{
    // Its contract has that the elements are few.
    let _ = graph.elements();
    let (bound, first) = Bound::new(alloc, sources.len() as u32, 1)?;
    let mut worker = Worker::new(alloc, graph, 0, &bound, first)?;
    work(graph, way, sources, &NoGate, &mut worker);
    let (first, looked) = worker.into_seat();
    Ok(Searched {
        least: closed(bound, graph, sources, first),
        looked,
    })
}
