//! Rows of layers along the lists of a graph.

ghost use Rattle.std.specs.Prelude.{◌≡◌, ◌<◌, ◌≤◌, [], IfOk, length, slice_index_or};
ghost use Rattle.specification.specs.Versions.{two};
ghost use Rattle.specification.specs.LayerRule.{row_responses};
ghost use Rattle.specification.specs.ExactRows.{IsExactRow};
ghost use Rattle.level_search.specs.Thinned.{IsThinned};

use super::rows::layers_of;
use super::ways::Costs;
use certificate_text::Row;
use events::Memory;
use level_search::thinned;
use list_layers::ListLayers;
use order_graph::OrderGraph;
use std::alloc::Global;

/// The graph whose lists rows are made along: the lists that others hold are empty in it, where they are a
/// quarter of the places or more. It takes time and memory linear in the elements, the lists and the places.
pub fn listed(alloc: Global, graph: &OrderGraph) -> Result<OrderGraph, Memory>
    ensures { IfOk result (IsThinned graph.now) }
{
    match thinned(alloc, graph)? {
        Some(part) => Ok(part),
        None => graph.emptied(alloc, [].as_slice()),
    }
}

/// The row of k - 1 layers from an element, along lists that show all that those of the graph do; what it
/// cost is noted.
pub fn row_by_lists(
    alloc: Global,
    graph: &OrderGraph,
    lists: &mut ListLayers<'_>,
    costs: &Costs,
    source: u32,
    k: u32,
) -> Result<Row, Memory>
    requires some { 1 ≤ k }
    requires element { source < length graph.now.elements }
    requires lists { IsThinned graph.now lists.old.graph }
    ensures graph { lists.new.graph ≡ lists.old.graph }
    ensures row { let name = slice_index_or graph.now.elements source [] in
        IfOk result (λ row. IsExactRow (row_responses two graph.now name) k name row) }
{
    // The contract of this call has that the responses are proper.
    let elements = graph.elements();
    let numbers = lists.layers_from(alloc, source, k - 1)?;
    costs.note(lists.looked(), elements, &numbers, 1);
    let layers = layers_of(alloc, graph, &numbers)?;
    Ok(Row::from_items(layers))
}
