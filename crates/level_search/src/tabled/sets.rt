//! The sets of elements on which a search over a table writes.

ghost use Rattle.std.specs.Prelude.{◌≡◌, ℕ, ◌+◌, ◌*◌, ◌<◌, ◌≤◌, ◌⊎◌, ◌↔◌, IfNone, IfOk, IfSome, false};
ghost use Rattle.std.specs.Prelude.{length};
ghost use Rattle.order_graph.specs.Lists.{lists_of};
ghost use Rattle.bit_tables.specs.Sets.{Has};
ghost use Rattle.bit_tables.specs.Lists.{row_of};
ghost use Rattle.level_search.specs.Tables.{IsBeforeTable};
ghost use Rattle.level_search.specs.Balls.{FitsSets, IsInLayer};
ghost use Rattle.level_search.specs.LayerSizes.{counted, layer_size};

use crate::before_table::BeforeTable;
use bit_tables::BitSet;
use events::Memory;
use order_graph::{Looked, OrderGraph};
use std::alloc::Global;

/// Where a search over a table is, so that it takes no memory itself: `reached` has the elements from which
/// no more steps than the level lead to the source, and `near` those from which fewer do. The layer is what
/// `near` lacks. `next` is for the layer after it.
#[derive(Drop)]
pub struct Sets {
    pub near: BitSet,
    pub reached: BitSet,
    pub next: BitSet,
}

impl Sets {
    /// Sets for this many elements, a bit each.
    pub fn new(alloc: Global, graph: &OrderGraph) -> Result<Sets, Memory>
        ensures { IfOk result (FitsSets (length graph.now.elements)) }
    {
        let elements = graph.elements() as usize;
        Ok(Sets {
            near: BitSet::new(alloc, elements)?,
            reached: BitSet::new(alloc, elements)?,
            next: BitSet::new(alloc, elements)?,
        })
    }

    /// The first element of the layer from a number on.
    pub fn next_in_layer(&self, graph: &OrderGraph, from: u32) -> Option<u32>
        ensures some { IfSome result (λ x. (from ≤ x) × IsInLayer (length graph.now.elements) self.now x) }
        ensures small { IfSome result (λ x. x < u32.MAX) }
        ensures first { IfSome result (λ x. (y : ℕ) → from ≤ y → y < x → Has self.now.reached y
            → Has self.now.near y) }
        ensures none { IfNone result ((y : ℕ) → from ≤ y → y < length graph.now.elements
            → Has self.now.reached y
            → Has self.now.near y) }
    {
        self.reached
            .first_of_difference(&self.near, from, graph.elements())
    }

    /// Only the source is reached.
    pub fn begin(&mut self, element: u32)
        requires known { element < 64 * length self.old.reached }
        ensures near { (x : ℕ) → ¬ Has self.new.near x }
        ensures reached { (x : ℕ) → Has self.new.reached x ↔ (x ≡ element) }
        ensures near_width { length self.new.near ≡ length self.old.near }
        ensures reached_width { length self.new.reached ≡ length self.old.reached }
        ensures next_width { length self.new.next ≡ length self.old.next }
    {
        self.near.clear();
        self.reached.clear();
        self.reached.insert(element as usize);
    }

    /// Puts together what stands before an element of the layer. It looks once at the row of each.
    fn gather(&mut self, graph: &OrderGraph, table: &BeforeTable, looked: &mut Looked)
        requires table { IsBeforeTable (length graph.now.elements) (lists_of graph.now) table.now }
        requires fits { FitsSets (length graph.now.elements) self.old }
        ensures fits { FitsSets (length graph.now.elements) self.new }
        ensures near { self.new.near ≡ self.old.near }
        ensures reached { self.new.reached ≡ self.old.reached }
        ensures next { (y : ℕ) → Has self.new.next y ↔ ((x : ℕ)
            × IsInLayer (length graph.now.elements) self.old x × Has (row_of table.now x) y) }
        ensures looked { looked.new ≡ counted (layer_size (length graph.now.elements) self.old) looked.old }
    {
        self.next.clear();
        let mut from = 0;
        'layer: while let Some(x) = self.next_in_layer(graph, from) {
            looked.expand();
            self.next.union_with(table.before(x));
            from = x + 1;
        }
    }

    /// Goes on to the next layer; whether there is one.
    pub fn next_layer(
        &mut self,
        graph: &OrderGraph,
        table: &BeforeTable,
        looked: &mut Looked,
    ) -> bool
        requires table { IsBeforeTable (length graph.now.elements) (lists_of graph.now) table.now }
        requires fits { FitsSets (length graph.now.elements) self.old }
        ensures fits { FitsSets (length graph.now.elements) self.new }
        ensures near { (x : ℕ) → Has self.new.near x ↔ (Has self.old.near x ⊎ Has self.old.reached x) }
        ensures reached { (y : ℕ) → Has self.new.reached y ↔ (Has self.old.reached y ⊎ ((x : ℕ)
            × IsInLayer (length graph.now.elements) self.old x × Has (row_of table.now x) y)) }
        ensures last { result ≡ false → (x : ℕ) → Has self.new.reached x → Has self.new.near x }
        ensures looked { looked.new ≡ counted (layer_size (length graph.now.elements) self.old) looked.old }
    {
        self.gather(graph, table, looked);
        self.near.union_with(&self.reached);
        self.reached.union_with(&self.next);
        !self.reached.is_subset(&self.near)
    }
}
