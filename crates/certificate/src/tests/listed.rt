//! Rows along lists, beside those along a table.
ghost use Rattle.std.specs.Prelude.{◌≤◌};
ghost use Rattle.specification.specs.Faults.{IsSound};
ghost use Rattle.level_search.specs.Thinned.{IsThinned};
ghost use Rattle.certificate.specs.AfterTables.{IsAfterTable};

use crate::certifying::covering_graph;
use crate::listed::{listed, row_by_lists};
use crate::pieces::RowMaker;
use crate::rows::{after_table, row_by_table};
use crate::ways::{Costs, Way};
use bit_tables::AfterTable;
use certificate_text::{Row, push_row};
use events::{Memory, Recording};
use list_layers::ListLayers;
use order_graph::OrderGraph;
use sample_recordings::{
    PAST_A_NEIGHBOUR, RING_OF_FOUR, Random, THREE_WAY_CYCLE, check_sound, generated,
    mostly_ordered, recording,
};
use std::alloc::Global;
use std::test::Fail;
use std::thread::Threads;

/// Whether two rows have the same line.
fn are_alike(alloc: Global, one: &Row, other: &Row) -> Result<bool, Memory> {
    let mut first = Vec::new(alloc);
    push_row(&mut first, one)?;
    let mut second = Vec::new(alloc);
    push_row(&mut second, other)?;
    Ok(first.as_slice() == second.as_slice())
}

/// Whether the rows of a graph along the lists of another, one after another, are those along a table.
fn rows_agree_on(
    alloc: Global,
    graph: &OrderGraph,
    part: &OrderGraph,
    table: &AfterTable,
    k: u32,
) -> Result<bool, Memory>
    requires some { 1 ≤ k }
    requires part { IsThinned graph.now part.now }
    requires table { IsAfterTable graph.now table.now }
{
    let costs = Costs::new(graph);
    let mut lists = ListLayers::new(alloc, part)?;
    for source in 0..graph.elements() {
        let by_lists = row_by_lists(alloc, graph, &mut lists, &costs, source, k)?;
        let by_table = row_by_table(alloc, graph, table, source, k)?;
        if !are_alike(alloc, &by_lists, &by_table)? {
            return Ok(false);
        }
    }
    Ok(true)
}

/// The same of a recording.
fn rows_agree(alloc: Global, recording: &Recording, k: u32) -> Result<bool, Memory>
    requires sound { IsSound recording.now }
    requires some { 1 ≤ k }
{
    let graph = covering_graph(alloc, recording)?;
    let table = after_table(alloc, &graph)?;
    let part = listed(alloc, &graph)?;
    rows_agree_on(alloc, &graph, &part, &table, k)
}

/// Whether the text of all rows is the same, along lists by threads, and along a table.
fn texts_agree(
    rt: &(impl Threads + Sync),
    alloc: Global,
    recording: &Recording,
    k: u32,
) -> Result<bool, Memory>
    requires sound { IsSound recording.now }
    requires some { 1 ≤ k }
{
    let graph = covering_graph(alloc, recording)?;
    let part = listed(alloc, &graph)?;
    let mut by_lists = RowMaker::along(alloc, &graph, Way::Lists(part), k);
    let mut texts = Vec::new(alloc);
    by_lists.push_in_pieces(rt, &mut texts)?;
    let table = after_table(alloc, &graph)?;
    let mut by_table = RowMaker::along(alloc, &graph, Way::Table(table), k);
    let mut wanted = Vec::new(alloc);
    by_table.push_rows(&mut wanted)?;
    let mut text = Vec::new(alloc);
    for part in &texts {
        text.extend_from_slice(part.as_slice())?;
    }
    Ok(text.as_slice() == wanted.as_slice())
}

/// The same for rows of up to five layers, of a recording that has to be sound. A call that finds no memory
/// is made again.
fn all_agree(
    rt: &(impl Threads + Sync),
    alloc: Global,
    recording: &Recording,
) -> Result<bool, Fail> {
    check_sound(rt, alloc, recording)?;
    for k in 1..7 {
        let agree = match rows_agree(alloc, recording, k) {
            Ok(agree) => agree,
            Err(Memory) => rows_agree(alloc, recording, k)?,
        };
        if !agree {
            return Ok(false);
        }
    }
    Ok(true)
}

/// Whether the text of all rows of four layers is, of a recording that has to be sound.
fn all_texts_agree(
    rt: &(impl Threads + Sync),
    alloc: Global,
    recording: &Recording,
) -> Result<bool, Fail> {
    check_sound(rt, alloc, recording)?;
    let agree = match texts_agree(rt, alloc, recording, 5) {
        Ok(agree) => agree,
        Err(Memory) => texts_agree(rt, alloc, recording, 5)?,
    };
    Ok(agree)
}

/// From c a way leads to a, which is numbered below it, and only from there to d; nothing leads to e.
const THROUGH_A_LESSER: &str =
    "trace 2\nreplicas 4\n0 ins a 0 : a\n0 ins b 1 : a b\n0 ins c 2 : a b c\n0 ins d 3 : a b c d\n1 ins e 0 : e\n0 view : c a\n0 view : a d\n0 view : d b\n0 view : b c\n";

#[test]
fn rows_of_worked_recordings_along_lists(rt: HostRuntime) -> Result<(), Fail> {
    for text in [
        THREE_WAY_CYCLE,
        RING_OF_FOUR,
        PAST_A_NEIGHBOUR,
        THROUGH_A_LESSER,
    ] {
        let recording = recording(rt.alloc(), text)?;
        assert!(rt; all_agree(&rt, rt.alloc(), &recording)?, "at {text}");
        assert!(rt; all_texts_agree(&rt, rt.alloc(), &recording)?, "at {text}");
    }
    Ok(())
}

#[test]
fn rows_of_generated_recordings_along_lists(rt: HostRuntime) -> Result<(), Fail> {
    let mut random = Random(1879);
    for case in 0..200 {
        let recording = if case % 2 == 0 {
            generated(rt.alloc(), &mut random)?
        } else {
            mostly_ordered(rt.alloc(), &mut random)?
        };
        assert!(rt; all_agree(&rt, rt.alloc(), &recording)?, "in case {case}");
    }
    Ok(())
}
