//! Generated recordings, searched by one worker and by several.
use super::conflicts::number_of;
use super::plain::{Table, ask_next, shortest};
use level_search::{NoGate, SearchFault};
use order_graph::OrderGraph;
use sample_recordings::Random;
use std::alloc::Global;
use std::test::Fail;
use std::thread::Threads;

/// The length of a shortest cycle, by the plain search from each element.
fn least(table: &Table) -> Option<u32> {
    let mut least: Option<u32> = None;
    for s in 0..6 {
        least = match (least, shortest(table, s)) {
            (Some(a), Some(b)) => Some(a.min(b)),
            (None, found) => found,
            (kept, None) => kept,
        };
    }
    least
}

/// The conflict number that one worker finds, and the one that eight find.
fn by_one_and_eight(
    rt: &(impl Threads + Sync),
    alloc: Global,
    graph: &OrderGraph,
) -> Result<[Option<u32>; 2], SearchFault> {
    Ok([
        number_of(rt, alloc, graph, 1, &NoGate)?,
        number_of(rt, alloc, graph, 8, &NoGate)?,
    ])
}

#[test]
fn one_and_eight_workers_agree_with_the_plain_search(rt: HostRuntime) -> Result<(), Fail> {
    let alloc = rt.alloc();
    let mut random = Random(2024);
    for _ in 0..200 {
        let (found, expected) = ask_next(&rt, alloc, &mut random, |table, graph| {
            Ok((by_one_and_eight(&rt, alloc, graph)?, least(table)))
        })?;
        assert_eq!(rt; found, [expected, expected]);
    }
    Ok(())
}
