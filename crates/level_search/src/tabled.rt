//! The search by levels over a table of what stands before each element.

ghost use Rattle.std.specs.Prelude.{◌≡◌, ℕ, ◌+◌, ◌*◌, ◌<◌, ◌≤◌, ◌⊎◌, ◌↔◌, true, false, length};
ghost use Rattle.order_graph.specs.Lists.{lists_of};
ghost use Rattle.bit_tables.specs.Sets.{Has};
ghost use Rattle.bit_tables.specs.Lists.{row_of};
ghost use Rattle.level_search.specs.Tables.{IsBeforeTable};
ghost use Rattle.level_search.specs.Balls.{FitsSets, IsBall, IsInLayer};
ghost use Rattle.level_search.specs.LayerSizes.{counted, layer_size};
ghost use Rattle.level_search.specs.Looks.{HasLooked, IsFirstBehind};
ghost use Rattle.list_search.specs.Walks.{IsSearchAnswer};

mod sets;

use crate::before_table::BeforeTable;
use list_search::BoundSource;
use order_graph::{Looked, OrderGraph};
pub use sets::Sets;

/// Whether the element stands before one of the layer. It looks once at the row of each, up to the first.
fn closes(
    graph: &OrderGraph,
    table: &BeforeTable,
    element: u32,
    sets: &Sets,
    looked: &mut Looked,
) -> bool
    requires { IsBeforeTable (length graph.now.elements) (lists_of graph.now) table.now }
    ensures found { result ≡ true → (x : ℕ)
        × IsFirstBehind (length graph.now.elements) (lists_of graph.now) sets.now element x
        × (looked.new ≡ counted (layer_size (x + 1) sets.now) looked.old) }
    ensures missed { result ≡ false → (x : ℕ) → IsInLayer (length graph.now.elements) sets.now x
        → ¬ Has (row_of table.now x) element }
    ensures looked { result ≡ false
        → looked.new ≡ counted (layer_size (length graph.now.elements) sets.now) looked.old }
{
    let mut from = 0;
    'layer: while let Some(x) = sets.next_in_layer(graph, from) {
        looked.expand();
        if table.before(x).contains(element as usize) {
            return true;
        }
        from = x + 1;
    }
    false
}

/// Searches by levels for the shortest cycle through an element, below the bound last read. It goes from
/// each element to those that stand before it. `Some` is the length of the shortest cycle, where it is below
/// that bound; `None` says that no cycle through the element is shorter than that bound.
///
/// A step of it is a look at the row that the table has for an element, of as many bits as there are
/// elements. An element is in one layer at most, and its row is looked at once for a cycle that closes there
/// and once for the next layer: so there are at most twice as many steps as elements. They are counted where
/// they are made.
///
/// The bound is read before each layer: n times, say, and `low` is the last answer. The count is exact, given
/// these two. A cycle that it finds has n elements; there are two looks for each element from which fewer than
/// n - 1 steps lead to the source, and one for each from which just as many do, up to the one where the cycle
/// closes. Where it finds none, it looks twice at those from which fewer than n - 1 steps lead to the source, and
/// at those from which just as many do, not at all where `low` is n or less, once where it is n + 1, and twice
/// where it is more: then no more steps lead there.
pub fn search_by_table<B: BoundSource>(
    graph: &OrderGraph,
    table: &BeforeTable,
    element: u32,
    sets: &mut Sets,
    looked: &mut Looked,
    bound: &mut B,
) -> Option<u32>
    requires element { element < length graph.now.elements }
    requires table { IsBeforeTable (length graph.now.elements) (lists_of graph.now) table.now }
    requires fits { FitsSets (length graph.now.elements) sets.old }
    ensures answer { IsSearchAnswer (lists_of graph.now) element (B.last bound.new) result }
    ensures bound { B.last bound.new ≤ B.last bound.old }
    ensures reads { B.reads bound.old bound.new }
    ensures fits { FitsSets (length graph.now.elements) sets.new }
    ensures looked { looked.new ≤ looked.old + 2 * length graph.now.elements }
    ensures looks { (times : ℕ) × B.read_times bound.old times bound.new
        × HasLooked (length graph.now.elements) (lists_of graph.now) element (B.last bound.new) times
        sets.new result looked.old looked.new }
{
    // Its contract has that the responses are proper.
    let _ = graph.elements();
    sets.begin(element);
    for level in 0..u32::MAX {
        let least = bound.best();
        if least <= level + 1 {
            return None;
        }
        if closes(graph, table, element, sets, looked) {
            return Some(level + 1);
        }
        if least - 1 <= level + 1 || !sets.next_layer(graph, table, looked) {
            return None;
        }
    }
    None
}
