//! A plain, slow search: it looks through every response, and follows all walks step by step.
ghost use Rattle.std.specs.Prelude.{◌<◌};

use super::graphs::ask_of;
use events::Recording;
use order_graph::OrderGraph;
use sample_recordings::{MOST_ELEMENTS, Random, generated, stands_before};
use std::alloc::Global;
use std::test::Fail;
use std::thread::Threads;

/// Which element stands before which, by their numbers.
pub type Table = [[bool; MOST_ELEMENTS]; MOST_ELEMENTS];

/// Before which elements one stands.
fn row_of(recording: &Recording, graph: &OrderGraph, a: u32) -> [bool; MOST_ELEMENTS] {
    let mut row = [false; MOST_ELEMENTS];
    for b in 0..6 {
        row[b as usize] = stands_before(recording, graph.name(a), graph.name(b));
    }
    row
}

/// What stands before what in some response of a recording.
pub fn table_of(recording: &Recording, graph: &OrderGraph) -> Table {
    let mut table = [[false; MOST_ELEMENTS]; MOST_ELEMENTS];
    for a in 0..6 {
        table[a as usize] = row_of(recording, graph, a);
    }
    table
}

/// What a question has for an answer that is asked of the next generated recording: of what stands before
/// what in it, and of its graph.
pub fn ask_next<A, Q: FnOnce(&Table, &OrderGraph) -> Result<A, Fail>>(
    rt: &(impl Threads + Sync),
    alloc: Global,
    random: &mut Random,
    question: Q,
) -> Result<A, Fail>
    requires { Q.IsAlwaysCallable question }
{
    let recording = generated(alloc, random)?;
    ask_of(rt, alloc, &recording, |graph| {
        question(&table_of(&recording, graph), graph)
    })
}

/// The elements after one of these.
fn behind(table: &Table, ends: &[bool; MOST_ELEMENTS]) -> [bool; MOST_ELEMENTS] {
    let mut all = [false; MOST_ELEMENTS];
    for (row, is_end) in table.iter().zip(ends) {
        for (reached, before) in all.iter_mut().zip(row) {
            *reached = *reached || (*is_end && *before);
        }
    }
    all
}

/// The length of the shortest cycle through an element.
pub fn shortest(table: &Table, s: usize) -> Option<u32>
    requires { s < 6 }
{
    let mut ends = [false; MOST_ELEMENTS];
    ends[s] = true;
    for length in 1..=6 {
        ends = behind(table, &ends);
        if ends[s] {
            return Some(length);
        }
    }
    None
}
