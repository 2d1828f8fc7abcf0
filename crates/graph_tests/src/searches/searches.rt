//! Searches on worked and on random graphs.

use super::graphs::ask_of;
use super::plain::{Table, ask_next, shortest};
use super::sources::FallingBound;
use events::Memory;
use level_search::{BoundSource, PlainBound, Scratch, distances, search};
use order_graph::OrderGraph;
use sample_recordings::{OPPOSITE_PAIR, RING_OF_FOUR, Random, recording};
use std::alloc::Global;
use std::test::Fail;

/// A scratch for this graph. A call that finds no memory is made again.
fn scratch(alloc: Global, graph: &OrderGraph) -> Result<Scratch, Fail> {
    match Scratch::new(alloc, graph) {
        Ok(made) => Ok(made),
        Err(Memory) => Ok(Scratch::new(alloc, graph)?),
    }
}

/// A search from an element of a graph that the scratch fits.
fn searched<B: BoundSource>(
    graph: &OrderGraph,
    s: u32,
    scratch: &mut Scratch,
    bound: &mut B,
) -> Result<Option<u32>, Fail> {
    if s < graph.elements() && scratch.fits(graph) {
        Ok(search(graph, s, scratch, bound))
    } else {
        Err("no element, or no scratch for this graph")?
    }
}

/// The same under a bound that stays.
fn searched_below(
    graph: &OrderGraph,
    s: u32,
    scratch: &mut Scratch,
    least: u32,
) -> Result<Option<u32>, Fail> {
    searched(graph, s, scratch, &mut PlainBound { least })
}

/// What a search from the first element finds, between what its scratch looked at before and after it.
fn looked_round(alloc: Global, graph: &OrderGraph) -> Result<(u64, Option<u32>, u64), Fail> {
    let mut scratch = scratch(alloc, graph)?;
    let before = scratch.looked();
    let found = searched_below(graph, 0, &mut scratch, 4294967295)?;
    Ok((before, found, scratch.looked()))
}

#[test]
fn what_a_search_of_the_ring_of_four_looks_at(rt: HostRuntime) -> Result<(), Fail> {
    let alloc = rt.alloc();
    let answer = ask_of(
        &rt,
        alloc,
        &recording(alloc, RING_OF_FOUR)?,
        |ring| looked_round(alloc, ring),
    )?;
    assert_eq!(rt; answer, (0, Some(4), 8));
    Ok(())
}

/// What searches from the first element find under one bound after the other, with one scratch.
fn found_below(
    alloc: Global,
    graph: &OrderGraph,
    bounds: [u32; 3],
) -> Result<[Option<u32>; 3], Fail> {
    let mut scratch = scratch(alloc, graph)?;
    let mut all = [None; 3];
    for (bound, found) in bounds.iter().zip(&mut all) {
        *found = searched_below(graph, 0, &mut scratch, *bound)?;
    }
    Ok(all)
}

#[test]
fn searches_of_the_ring_of_four_under_bounds(rt: HostRuntime) -> Result<(), Fail> {
    let alloc = rt.alloc();
    let all = ask_of(&rt, alloc, &recording(alloc, RING_OF_FOUR)?, |ring| {
        found_below(alloc, ring, [4294967295, 5, 4])
    })?;
    assert_eq!(rt; all, [Some(4), Some(4), None]);
    Ok(())
}

/// What a search from the first element finds under a bound that falls.
fn found_under(
    alloc: Global,
    graph: &OrderGraph,
    mut falling: FallingBound,
) -> Result<Option<u32>, Fail> {
    searched(graph, 0, &mut scratch(alloc, graph)?, &mut falling)
}

#[test]
fn a_search_reads_its_bound_again(rt: HostRuntime) -> Result<(), Fail> {
    let alloc = rt.alloc();
    let found = ask_of(&rt, alloc, &recording(alloc, RING_OF_FOUR)?, |ring| {
        found_under(alloc, ring, FallingBound::new(5, 3))
    })?;
    assert_eq!(rt; found, None);
    Ok(())
}

/// Whether a scratch for the one graph fits it, and whether it fits the other.
fn fits(alloc: Global, graph: &OrderGraph, other: &OrderGraph) -> Result<(bool, bool), Fail> {
    let scratch = scratch(alloc, graph)?;
    Ok((scratch.fits(graph), scratch.fits(other)))
}

#[test]
fn a_scratch_fits_its_graph_alone(rt: HostRuntime) -> Result<(), Fail> {
    let alloc = rt.alloc();
    let fitting = ask_of(&rt, alloc, &recording(alloc, RING_OF_FOUR)?, |ring| {
        ask_of(
            &rt,
            alloc,
            &recording(alloc, OPPOSITE_PAIR)?,
            |pair| fits(alloc, ring, pair),
        )
    })?;
    assert_eq!(rt; fitting, (true, false));
    Ok(())
}

/// What a search under this bound should answer, by the plain search.
fn below(found: Option<u32>, bound: u32) -> Option<u32> {
    found.filter(|length| *length < bound)
}

/// Whether the searches from an element find what the plain search does.
fn agrees_from(
    table: &Table,
    graph: &OrderGraph,
    s: u32,
    scratch: &mut Scratch,
) -> Result<bool, Fail> {
    if s >= 6 {
        return Ok(false);
    }
    let found = shortest(table, s as usize);
    for bound in [4294967295, 5, 4, 3, 2, 1] {
        if searched_below(graph, s, scratch, bound)? != below(found, bound) {
            return Ok(false);
        }
    }
    Ok(true)
}

/// The same from each element, with one scratch.
fn agrees(alloc: Global, table: &Table, graph: &OrderGraph) -> Result<bool, Fail> {
    let mut scratch = scratch(alloc, graph)?;
    for s in 0..graph.elements() {
        if !agrees_from(table, graph, s, &mut scratch)? {
            return Ok(false);
        }
    }
    Ok(true)
}

#[test]
fn searches_of_generated_recordings_agree_with_the_plain_search(
    rt: HostRuntime,
) -> Result<(), Fail> {
    let alloc = rt.alloc();
    let mut random = Random(1978);
    for _ in 0..200 {
        let agreed = ask_next(&rt, alloc, &mut random, |table, graph| {
            agrees(alloc, table, graph)
        })?;
        assert!(rt; agreed);
    }
    Ok(())
}

/// The distances from an element of a graph of four up to a limit; 7 where there are none.
fn distances_of_four(graph: &OrderGraph, s: u32, limit: u32, scratch: &mut Scratch) -> [u32; 4] {
    let mut depths = [7; 4];
    if s < graph.elements() && graph.elements() == 4 && scratch.fits(graph) {
        distances(graph, s, limit, scratch, &mut depths);
    }
    depths
}

/// The same for one element and limit after the other, with one scratch.
fn all_distances(
    alloc: Global,
    graph: &OrderGraph,
    rows: [(u32, u32); 4],
) -> Result<[[u32; 4]; 4], Fail> {
    let mut scratch = scratch(alloc, graph)?;
    let mut all = [[7; 4]; 4];
    for ((s, limit), depths) in rows.iter().zip(&mut all) {
        *depths = distances_of_four(graph, *s, *limit, &mut scratch);
    }
    Ok(all)
}

#[test]
fn distances_in_the_ring_of_four(rt: HostRuntime) -> Result<(), Fail> {
    let alloc = rt.alloc();
    let all = ask_of(&rt, alloc, &recording(alloc, RING_OF_FOUR)?, |ring| {
        all_distances(alloc, ring, [(0, 9), (3, 9), (0, 2), (0, 0)])
    })?;
    let wanted = [[0, 1, 2, 3], [1, 2, 3, 0], [0, 1, 2, 2], [0, 0, 0, 0]];
    assert_eq!(rt; all, wanted);
    Ok(())
}
