//! The rows of layers that show that no cycle is shorter.

ghost use Rattle.std.specs.Prelude.{◌≡◌, ◌<◌, ◌≤◌, [], All, IfOk, length, map, slice_index_or};
ghost use Rattle.specification.specs.Versions.{two};
ghost use Rattle.specification.specs.LayerRule.{row_responses};
ghost use Rattle.specification.specs.ExactRows.{IsExactRow, AreExactRows};
ghost use Rattle.order_graph.specs.Kept.{names_at};
ghost use Rattle.certificate.specs.AfterTables.{IsAfterTable};
ghost use Rattle.certificate.specs.Ways.{IsWay};

use super::listed::row_by_lists;
use super::ways::{Costs, Way, choose_way, first_way};
use bit_tables::{AfterTable, Noter, layers_from};
use certificate_text::{Layer, Row};
use events::{Memory, Name};
use list_layers::ListLayers;
use order_graph::OrderGraph;
use std::alloc::Global;

/// One row of k - 1 layers for each element, of the elements that are not numbered below it.
pub fn rows_of_layers(alloc: Global, graph: &OrderGraph, k: u32) -> Result<Vec<Row>, Memory>
    requires { 1 ≤ k }
    ensures { IfOk result (λ rows. AreExactRows two graph.now k graph.now.elements rows.items) }
{
    let mut way = first_way(alloc, graph, k)?;
    let costs = Costs::new(graph);
    let mut rows = Vec::new(alloc);
    for source in 0..graph.elements() {
        choose_way(alloc, graph, &costs, &mut way)?;
        let row = row_along(alloc, graph, &way, &costs, source, k)?;
        rows.push(row)?;
    }
    Ok(rows)
}

/// The row of k - 1 layers from an element, by either way. Along lists it takes also time and memory linear in
/// the elements and the lists.
fn row_along(
    alloc: Global,
    graph: &OrderGraph,
    way: &Way,
    costs: &Costs,
    source: u32,
    k: u32,
) -> Result<Row, Memory>
    requires some { 1 ≤ k }
    requires element { source < length graph.now.elements }
    requires way { IsWay graph.now way.now }
    ensures { let name = slice_index_or graph.now.elements source [] in
        IfOk result (λ row. IsExactRow (row_responses two graph.now name) k name row) }
{
    match way {
        Way::Lists(part) => {
            costs.note_begin(part);
            let mut lists = ListLayers::new(alloc, part)?;
            row_by_lists(alloc, graph, &mut lists, costs, source, k)
        },
        Way::Table(table) => row_by_table(alloc, graph, table, source, k),
    }
}

/// The table of what stands after each element. Each list is noted beside the one before, of which it mostly
/// has the elements in the same order: so it costs `n / 64` steps for n elements, a step for each of its
/// places, and what is new in it. In the end it notes for each element whether the row of the one before has
/// all of its row, in up to `n / 64` steps and a byte each.
pub fn after_table(alloc: Global, graph: &OrderGraph) -> Result<AfterTable, Memory>
    ensures { IfOk result (λ t. IsAfterTable graph.now t) }
{
    let n = graph.elements() as usize;
    let mut table = AfterTable::new(alloc, n)?;
    let mut noter = Noter::new(alloc, n)?;
    let mut known = [].as_slice();
    for i in 0..graph.lists() {
        let list = graph.list(i);
        table.add(&mut noter, known, list)?;
        known = list;
    }
    table.note_included(alloc)?;
    Ok(table)
}

/// The row of k - 1 layers from an element, along a table.
pub fn row_by_table(
    alloc: Global,
    graph: &OrderGraph,
    table: &AfterTable,
    source: u32,
    k: u32,
) -> Result<Row, Memory>
    requires some { 1 ≤ k }
    requires element { source < length graph.now.elements }
    requires table { IsAfterTable graph.now table.now }
    ensures { let name = slice_index_or graph.now.elements source [] in
        IfOk result (λ row. IsExactRow (row_responses two graph.now name) k name row) }
{
    let elements = graph.elements();
    let numbers = layers_from(alloc, table, elements, source, source, k - 1)?;
    let layers = layers_of(alloc, graph, &numbers)?;
    Ok(Row::from_items(layers))
}

/// The layers of the elements with these numbers.
pub fn layers_of(
    alloc: Global,
    graph: &OrderGraph,
    numbers: &[Vec<u32>],
) -> Result<Vec<Layer>, Memory>
    requires { All (λ layer. All (λ x. x < length graph.now.elements) layer.items) numbers.now }
    ensures { IfOk result (λ layers. layers.items
        ≡ map (λ layer. names_at graph.now.elements layer.items) numbers.now) }
{
    let mut layers = Vec::with_capacity(alloc, numbers.len())?;
    for layer in numbers {
        let names = names_of(alloc, graph, layer)?;
        layers.push(Layer::from_items(names))?;
    }
    Ok(layers)
}

/// The names of the elements with these numbers.
fn names_of(alloc: Global, graph: &OrderGraph, numbers: &[u32]) -> Result<Vec<Name>, Memory>
    requires { All (λ x. x < length graph.now.elements) numbers.now }
    ensures { IfOk result (λ names. names.items ≡ names_at graph.now.elements numbers.now) }
{
    let mut names = Vec::with_capacity(alloc, numbers.len())?;
    for x in numbers {
        let Some(name) = graph.name(*x) else {
            unreachable!()
        };
        names.push(name)?;
    }
    Ok(names)
}
