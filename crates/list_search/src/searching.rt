//! Searches by levels from one element: for a shortest cycle, and for distances.

ghost use Rattle.std.specs.Prelude.{◌≡◌, ◌↔◌, ℕ, ◌<◌, ◌≤◌, IfOk, IfNone, IsTrue, List, None, length};
ghost use Rattle.std.specs.Prelude.{replicate, slice_index};
ghost use Rattle.order_graph.specs.Lists.{lists_of};
ghost use Rattle.events.specs.Names.{NameBytes};
ghost use Rattle.specification.specs.Search.{IsCycleThrough, IsSearchAnswer};
ghost use Rattle.list_search.specs.Distances.{AreDistances, AreReached};
ghost use Rattle.list_search.specs.Readings.{AreReadings};
ghost use Rattle.list_search.specs.Walks as by_number;

mod bound_source;
mod distance;
mod expand;
mod levels;
mod plain_bound;
mod restore;
mod start;
mod state;
mod sweep;

pub use bound_source::BoundSource;
use distance::{copy_reached, distances_in, distances_on};
use events::Memory;
use levels::{search_in, search_on};
use order_graph::{Looked, OrderGraph};
pub use plain_bound::PlainBound;
pub use restore::restore_marks;
use restore::{begin, settle};
use start::clear;
pub use start::reset_marks;
use state::State;
use std::alloc::Global;
use std::marker::Model;

/// What a search writes on, so that it takes no memory itself.
///
/// It serves the graphs with as many elements and as many lists as the one that it was made for, one search
/// after another; nothing is kept from one search to the next.
#[derive(Drop)]
pub struct Scratch {
    state: State,
    looked: Looked,
}

impl Model for Scratch {
    ghost use Rattle.std.specs.Prelude.{◌≡◌, vec_len};
    ghost use Rattle.list_search.specs.ScratchView.{ScratchView};

    ghost Value = { ScratchView };

    ghost view = { λ a. record {
      elements = vec_len a.state.seen;
      lists = vec_len a.state.marks;
      looked = a.looked;
    } };

    ghost invariant = { λ a. vec_len a.state.queue ≡ vec_len a.state.seen };
}

impl Scratch {
    ghost use Rattle.list_search.specs.ScratchView.{Fits};

    /// A scratch for this graph. It takes memory linear in the elements and the lists.
    pub fn new(alloc: Global, graph: &OrderGraph) -> Result<Scratch, Memory>
        ensures fits { IfOk result (λ s. Fits s graph.now) }
        ensures looked { IfOk result (λ s. s.looked ≡ 0) }
    {
        let elements = graph.elements() as usize;
        let marks = Vec::from_elem(alloc, 0, graph.lists() as usize)?;
        let seen = Vec::from_elem(alloc, false, elements)?;
        let queue = Vec::from_elem(alloc, 0, elements)?;
        let state = State {
            marks,
            seen,
            queue,
            tail: 0,
            found: false,
        };
        Ok(Scratch {
            state,
            looked: Looked::new(),
        })
    }

    /// Whether searches of this graph may write on it: it was made for as many elements and lists.
    pub fn fits(&self, graph: &OrderGraph) -> bool
        ensures { IsTrue result ↔ Fits self.now graph.now }
    {
        self.state.seen.len() == graph.elements() as usize
            && self.state.marks.len() == graph.lists() as usize
    }

    /// How many places the last search read, and elements it expanded, together; 0 before the first. The
    /// count stays at 18446744073709551615 once it is there.
    pub fn looked(&self) -> u64
        ensures { result ≡ self.now.looked }
    {
        self.looked.count()
    }
}

/// What searches of one graph write on, one after another. It is clean between two: each sets back what it
/// wrote, and touches nothing else.
#[derive(Drop)]
pub struct ReadyScratch {
    state: State,
    looked: Looked,
}

impl Model for ReadyScratch {
    ghost use Rattle.std.specs.Prelude.{◌≡◌, vec_len};
    ghost use Rattle.list_search.specs.Clean.{ReadyView};

    ghost Value = { ReadyView };

    ghost view = { λ a. record {
      marks = a.state.marks.items;
      seen = a.state.seen.items;
      places = vec_len a.state.queue;
      looked = a.looked;
    } };

    ghost invariant = { λ a. vec_len a.state.queue ≡ vec_len a.state.seen };
}

impl ReadyScratch {
    ghost use Rattle.list_search.specs.Clean.{IsReady};

    /// A scratch for searches of this graph. It takes time and memory linear in the elements and the lists.
    pub fn new(alloc: Global, graph: &OrderGraph) -> Result<ReadyScratch, Memory>
        ensures { IfOk result (λ s. IsReady s graph.now) }
    {
        let elements = graph.elements() as usize;
        let mut state = State {
            marks: Vec::from_elem(alloc, 0, graph.lists() as usize)?,
            seen: Vec::from_elem(alloc, false, elements)?,
            queue: Vec::from_elem(alloc, 0, elements)?,
            tail: 0,
            found: false,
        };
        clear(graph, &mut state);
        Ok(ReadyScratch {
            state,
            looked: Looked::new(),
        })
    }

    /// How many places the last search read, and elements it expanded, together; 0 before the first. The
    /// count stays at 18446744073709551615 once it is there.
    pub fn looked(&self) -> u64
        ensures { result ≡ self.now.looked }
    {
        self.looked.count()
    }
}

ghost use Rattle.list_search.specs.Clean.{IsReady};
ghost use Rattle.list_search.specs.ScratchView.{Fits, LooksWithin};

/// As `search_by_number`, on a scratch that is clean and stays so. Beside its looks a search takes a step for
/// each place of each element that it reached, or sets back a mark for each list and element, where those are
/// fewer.
pub fn search_ready<B: BoundSource>(
    graph: &OrderGraph,
    element: u32,
    ready: &mut ReadyScratch,
    bound: &mut B,
) -> Option<u32>
    requires element { element < length graph.now.elements }
    requires ready { IsReady ready.old graph.now }
    ensures answer { by_number.IsSearchAnswer (lists_of graph.now) element (B.last bound.new) result }
    ensures bound { B.last bound.new ≤ B.last bound.old }
    ensures reads { B.reads bound.old bound.new }
    ensures times { (n : ℕ) × B.read_times bound.old n bound.new
        × AreReadings (lists_of graph.now) element (B.last bound.new) result n }
    ensures none { IfNone result (length graph.now.elements < B.last bound.new → (n : ℕ)
        → ¬ by_number.HasCycle (lists_of graph.now) element n) }
    ensures ready { IsReady ready.new graph.now }
    ensures looked { LooksWithin graph.now ready.new.looked result }
    ensures expanded { IfNone result (1 < B.last bound.new → 0 < ready.new.looked) }
{
    ready.looked = Looked::new();
    begin(graph, element, &mut ready.state);
    let found = search_on(graph, element, &mut ready.state, &mut ready.looked, bound);
    settle(graph, element, &mut ready.state);
    found
}

/// As `search`, with cycles told by the elements' numbers.
pub fn search_by_number<B: BoundSource>(
    graph: &OrderGraph,
    element: u32,
    scratch: &mut Scratch,
    bound: &mut B,
) -> Option<u32>
    requires element { element < length graph.now.elements }
    requires fits { Fits scratch.old graph.now }
    ensures answer { by_number.IsSearchAnswer (lists_of graph.now) element (B.last bound.new) result }
    ensures bound { B.last bound.new ≤ B.last bound.old }
    ensures reads { B.reads bound.old bound.new }
    ensures times { (n : ℕ) × B.read_times bound.old n bound.new
        × AreReadings (lists_of graph.now) element (B.last bound.new) result n }
    ensures none { IfNone result (length graph.now.elements < B.last bound.new → (n : ℕ)
        → ¬ by_number.HasCycle (lists_of graph.now) element n) }
    ensures fits { Fits scratch.new graph.now }
    ensures looked { LooksWithin graph.now scratch.new.looked result }
    ensures expanded { IfNone result (1 < B.last bound.new → 0 < scratch.new.looked) }
{
    search_in(
        graph,
        element,
        &mut scratch.state,
        &mut scratch.looked,
        bound,
    )
}

/// Searches by levels for the shortest cycle through the element with this number.
///
/// It reads the bound before each layer: m times where it finds a cycle of m elements. Where it finds none, it
/// has read the bound n times, and the last answer was n or less, or fewer than n steps lead wherever any do.
/// `Some` is the length of the shortest
/// cycle, where it is below the bound last read; `None` says that no cycle through the element is shorter
/// than that bound, and where it is above the number of elements, that there is none at all.
///
/// It takes no memory. It sets back a mark for each list and element, and then looks at no more places and
/// elements, together, than there are; at one at least, where the bound last read was above 1. Where it finds
/// a cycle of m elements, it looks at 2 * m at least.
pub fn search<B: BoundSource>(
    graph: &OrderGraph,
    element: u32,
    scratch: &mut Scratch,
    bound: &mut B,
) -> Option<u32>
    requires element { element < length graph.now.elements }
    requires fits { Fits scratch.old graph.now }
    ensures answer { IsSearchAnswer graph.now element (B.last bound.new) result }
    ensures bound { B.last bound.new ≤ B.last bound.old }
    ensures reads { B.reads bound.old bound.new }
    ensures times { (n : ℕ) × B.read_times bound.old n bound.new
        × AreReadings (lists_of graph.now) element (B.last bound.new) result n }
    ensures none { IfNone result (length graph.now.elements < B.last bound.new → (cycle : List NameBytes)
        → ¬ IsCycleThrough graph.now element cycle) }
    ensures fits { Fits scratch.new graph.now }
    ensures looked { LooksWithin graph.now scratch.new.looked result }
    ensures expanded { IfNone result (1 < B.last bound.new → 0 < scratch.new.looked) }
{
    let elements = graph.elements();
    prove!(element < elements);
    search_by_number(graph, element, scratch, bound)
}

/// Writes at each element's number how many steps lead to it from the element, at the least, each step from
/// an element to one that some response shows after it; the limit, where so few steps don't lead to it.
///
/// It takes no memory. It sets back a mark for each list and element, and then looks at no more places and
/// elements, together, than there are.
pub fn distances(
    graph: &OrderGraph,
    element: u32,
    limit: u32,
    scratch: &mut Scratch,
    depths: &mut [u32],
)
    requires element { element < length graph.now.elements }
    requires fits { Fits scratch.old graph.now }
    requires places { length depths.old ≡ length graph.now.elements }
    ensures distances { AreDistances (lists_of graph.now) element limit depths.new }
    ensures fits { Fits scratch.new graph.now }
    ensures looked { LooksWithin graph.now scratch.new.looked None }
    ensures expanded { 1 < limit → 0 < scratch.new.looked }
{
    distances_in(
        graph,
        element,
        limit,
        &mut scratch.state,
        &mut scratch.looked,
        depths,
    )
}

/// As `distances`, on a scratch that is clean and stays so, where each depth is the limit before. It writes down
/// the elements that it reached at the front of a list, and answers how many they are; the depths of others
/// stay. Beside its looks it takes as many steps as `search_ready`, and one for each of these elements.
pub fn distances_ready(
    graph: &OrderGraph,
    element: u32,
    limit: u32,
    ready: &mut ReadyScratch,
    depths: &mut [u32],
    reached: &mut [u32],
) -> usize
    requires element { element < length graph.now.elements }
    requires ready { IsReady ready.old graph.now }
    requires depths { depths.old ≡ replicate (length graph.now.elements) limit }
    requires room { length reached.old ≡ length graph.now.elements }
    ensures distances { AreDistances (lists_of graph.now) element limit depths.new }
    ensures places { length depths.new ≡ length graph.now.elements }
    ensures room { length reached.new ≡ length graph.now.elements }
    ensures count { result ≤ length graph.now.elements }
    ensures known { (k : ℕ) → k < result → slice_index reached.new k < length graph.now.elements }
    ensures reached { AreReached limit depths.new reached.new result }
    ensures ready { IsReady ready.new graph.now }
    ensures looked { LooksWithin graph.now ready.new.looked None }
    ensures expanded { 1 < limit → 0 < ready.new.looked }
{
    ready.looked = Looked::new();
    begin(graph, element, &mut ready.state);
    distances_on(
        graph,
        element,
        limit,
        &mut ready.state,
        &mut ready.looked,
        depths,
    );
    let count = copy_reached(&ready.state, reached);
    settle(graph, element, &mut ready.state);
    count
}
