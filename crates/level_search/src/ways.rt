//! A search for the shortest cycle through an element, over the lists or over a table of what stands before
//! each element.

ghost use Rattle.std.specs.Prelude.{◌≡◌, ◌+◌, ◌*◌, ◌<◌, ◌≤◌, IfOk, length, slice_index};
ghost use Rattle.specification.specs.Responses.{place_count};
ghost use Rattle.order_graph.specs.Lists.{lists_of};
ghost use Rattle.list_search.specs.Walks.{IsSearchAnswer};
ghost use Rattle.level_search.specs.Looks.{HasLookedBy, HasLookedInLists};
ghost use Rattle.level_search.specs.Ways.{FitsRoom, IsWay};
ghost use Rattle.list_search.specs.Clean.{IsReady};

use crate::before_table::BeforeTable;
use crate::lower_bounds::lower_bounds;
use crate::tabled::{Sets, search_by_table};
use events::Memory;
use list_search::{BoundSource, ReadyScratch, search_ready};
use order_graph::{Looked, OrderGraph};
use std::alloc::Global;

/// No cycle has fewer elements: none stands before itself.
const SHORTEST: u32 = 2;

/// Where it is worth while to know how short a cycle can be, at least so many elements are searched from.
const SEVERAL: usize = 4;

/// The table of what stands before each element, or none, where searches go over the lists; and lengths than
/// which no cycle through an element is shorter, for the first elements or for none.
#[derive(Drop)]
pub struct Way {
    pub table: Option<BeforeTable>,
    pub lower_bounds: Vec<u32>,
}

/// What a search writes on, by either way.
#[derive(Drop)]
pub struct Room {
    pub sets: Sets,
    pub scratch: ReadyScratch,
}

impl Room {
    /// Room for searches of this graph. It takes memory linear in the elements and the lists.
    pub fn new(alloc: Global, graph: &OrderGraph) -> Result<Room, Memory>
        ensures { IfOk result (FitsRoom graph.now) }
    {
        let sets = Sets::new(alloc, graph)?;
        let scratch = ReadyScratch::new(alloc, graph)?;
        Ok(Room { sets, scratch })
    }
}

/// How many places all lists have together.
pub fn places_of(graph: &OrderGraph) -> u64 {
    let mut places: u64 = 0;
    for list in 0..graph.lists() {
        places = places.saturating_add(graph.length(list) as u64);
    }
    places
}

/// Whether the table of a graph has no more words than the lists have places. It weighs the memory alone: a
/// search by the table unites each row of it once at most, and sweeps its sets besides.
fn is_table_small(graph: &OrderGraph) -> bool {
    let elements = graph.elements() as u64;
    let words = elements.saturating_mul(elements / 64 + 1);
    words <= places_of(graph)
}

impl Way {
    /// The way of all searches of a graph: where its table is no larger than its lists, that is made. It has
    /// at most 8 bytes for each place then.
    pub fn of(alloc: Global, graph: &OrderGraph) -> Result<Way, Memory>
        ensures { IfOk result (IsWay graph.now) }
    {
        if !is_table_small(graph) {
            return Ok(Way {
                table: None,
                lower_bounds: Vec::new(alloc),
            });
        }
        let table = BeforeTable::of(alloc, graph)?;
        Ok(Way {
            table: Some(table),
            lower_bounds: Vec::new(alloc),
        })
    }

    /// The same way with lower bounds for the cycles through the elements that are searched from; without, where
    /// there is a table, or they are few. It takes time and memory linear in the elements, the lists and the
    /// places.
    pub fn with_lower_bounds(
        self,
        alloc: Global,
        graph: &OrderGraph,
        sources: &[u32],
    ) -> Result<Way, Memory>
        requires { IsWay graph.now self }
        ensures { IfOk result (IsWay graph.now) }
    {
        if self.table.is_some() || sources.len() < SEVERAL {
            return Ok(self);
        }
        let Way {
            table,
            lower_bounds: _,
        } = self;
        let lower_bounds = lower_bounds(alloc, graph, sources)?;
        Ok(Way {
            table,
            lower_bounds,
        })
    }

    /// A length than which no cycle through this element is shorter.
    fn lower_bound(&self, element: u32) -> u32
        ensures { result ≡ slice_index self.now.lower_bounds.items element }
    {
        match self.lower_bounds.get(element as usize) {
            Some(least) => *least,
            None => 0,
        }
    }
}

/// Searches for the shortest cycle through an element, below the bound last read. `Some` is its length, where
/// it is below that bound; `None` says that no cycle through the element is shorter than that bound.
///
/// By the lists it makes at most as many looks as there are places and elements, and where it finds a cycle of
/// m elements, 2 * m at least; by the table just as many as are said at `search_by_table`. Under a bound of two
/// it looks at nothing in the lists, since no cycle is shorter; and at the element alone where its lower bound
/// says that none is. Over the lists it sets back only what it wrote.
pub fn search_through<B: BoundSource>(
    graph: &OrderGraph,
    way: &Way,
    element: u32,
    room: &mut Room,
    looked: &mut Looked,
    bound: &mut B,
) -> Option<u32>
    requires element { element < length graph.now.elements }
    requires way { IsWay graph.now way.now }
    requires fits { FitsRoom graph.now room.old }
    ensures answer { IsSearchAnswer (lists_of graph.now) element (B.last bound.new) result }
    ensures bound { B.last bound.new ≤ B.last bound.old }
    ensures reads { B.reads bound.old bound.new }
    ensures fits { FitsRoom graph.now room.new }
    ensures looked { looked.new ≤ looked.old + 2 * (place_count graph.now + length graph.now.elements) }
    ensures looks { HasLookedBy (length graph.now.elements) (lists_of graph.now) element (B.last bound.new)
        room.new.sets result looked.old looked.new }
{
    match &way.table {
        Some(table) => search_by_table(graph, table, element, &mut room.sets, looked, bound),
        None => search_by_lists(graph, way, element, &mut room.scratch, looked, bound),
    }
}

/// The same over the lists.
fn search_by_lists<B: BoundSource>(
    graph: &OrderGraph,
    way: &Way,
    element: u32,
    scratch: &mut ReadyScratch,
    looked: &mut Looked,
    bound: &mut B,
) -> Option<u32>
    requires element { element < length graph.now.elements }
    requires way { IsWay graph.now way.now }
    requires ready { IsReady scratch.old graph.now }
    ensures answer { IsSearchAnswer (lists_of graph.now) element (B.last bound.new) result }
    ensures bound { B.last bound.new ≤ B.last bound.old }
    ensures reads { B.reads bound.old bound.new }
    ensures ready { IsReady scratch.new graph.now }
    ensures looks { HasLookedInLists (length graph.now.elements) (lists_of graph.now) (B.last bound.new) result
        looked.old looked.new }
{
    // Its contract has that the responses are proper.
    let _ = graph.elements();
    let least = bound.best();
    if least <= SHORTEST {
        return None;
    }
    if least <= way.lower_bound(element) {
        looked.expand();
        return None;
    }
    let found = search_ready(graph, element, scratch, bound);
    looked.add(scratch.looked());
    found
}
