//! What rows are made along: lists, or a table of bits, whichever is found to be cheaper.

ghost use Rattle.std.specs.Prelude.{◌≤◌, IfOk, OnOk};
ghost use Rattle.certificate.specs.Ways.{IsWay};

use super::listed::listed;
use super::rows::after_table;
use bit_tables::AfterTable;
use events::Memory;
use list_layers::ListLayers;
use order_graph::OrderGraph;
use std::alloc::Global;
use std::sync::atomic::{AtomicU64, Ordering};

/// How many words of a table are gone through in the time of one look at a place of a list.
const WORDS: u64 = 4;

/// How many rows are tried along lists before the first.
const TRIED: u32 = 64;

/// The lists of a graph, of which those that others hold may be empty; or a table of what stands after each
/// element.
#[derive(Drop)]
pub enum Way {
    Lists(OrderGraph),
    Table(AfterTable),
}

/// How many places all lists have together.
fn places_of(graph: &OrderGraph) -> u64 {
    let mut places: u64 = 0;
    for list in 0..graph.lists() {
        places = places.saturating_add(u64::from(graph.length(list)));
    }
    places
}

/// How many words a table of so many elements has, of 64 bits each.
fn words_of(elements: u32) -> u64 {
    let elements = u64::from(elements);
    elements.saturating_mul(elements / 64 + 1)
}

/// Whether a table is cheaper than the lists of this graph, by some rows of k - 1 layers along these, spread
/// over all, which are let go: either all rows, if they are as these, cost more than along the table, which is
/// to be made first; or these alone do.
fn is_table_cheaper_by_trial(alloc: Global, part: &OrderGraph, k: u32) -> Result<bool, Memory>
    requires { 1 ≤ k }
{
    let elements = part.elements();
    let step = elements / TRIED + 1;
    let these = Costs::new(part);
    let all = Costs::new(part);
    let mut lists = ListLayers::new(alloc, part)?;
    for i in 0..TRIED {
        let source = i.saturating_mul(step);
        if source >= elements {
            break;
        }
        let numbers = lists.layers_from(alloc, source, k - 1)?;
        these.note(lists.looked(), elements, &numbers, 1);
        all.note(lists.looked(), elements, &numbers, u64::from(step));
        if these.is_table_cheaper() {
            return Ok(true);
        }
    }
    Ok(all.is_table_cheaper())
}

/// The way in which rows of k - 1 layers are begun: along the lists, unless a table has no more words than
/// these have places, or a few rows show that it is cheaper.
pub fn first_way(alloc: Global, graph: &OrderGraph, k: u32) -> Result<Way, Memory>
    requires { 1 ≤ k }
    ensures { IfOk result (IsWay graph.now) }
{
    if words_of(graph.elements()) <= places_of(graph) {
        return Ok(Way::Table(after_table(alloc, graph)?));
    }
    let part = listed(alloc, graph)?;
    if !is_table_cheaper_by_trial(alloc, &part, k)? {
        return Ok(Way::Lists(part));
    }
    drop(part);
    Ok(Way::Table(after_table(alloc, graph)?))
}

/// Takes the table in place of lists, where rows along them have cost more than it would have. Before it is
/// made the lists are let go.
pub fn choose_way(
    alloc: Global,
    graph: &OrderGraph,
    costs: &Costs,
    way: &mut Way,
) -> Result<(), Memory>
    requires { IsWay graph.now way.old }
    ensures { OnOk result (IsWay graph.now way.new) }
{
    if let Way::Table(_) = way {
        return Ok(());
    }
    if !costs.is_table_cheaper() {
        return Ok(());
    }
    *way = Way::Table(AfterTable::new(alloc, 0)?);
    *way = Way::Table(after_table(alloc, graph)?);
    Ok(())
}

/// What rows along lists have cost, and what a table and the same rows along it would have, counted in words of
/// it. Threads may add to it side by side. No clause says which way is taken: the rows are the same.
#[derive(Drop)]
pub struct Costs {
    by_lists: AtomicU64,
    by_table: AtomicU64,
}

impl Costs {
    /// No row is made. A table costs a word for each of its words and each place.
    pub fn new(graph: &OrderGraph) -> Costs {
        let begin = words_of(graph.elements()).saturating_add(places_of(graph));
        Costs {
            by_lists: AtomicU64::new(0),
            by_table: AtomicU64::new(begin),
        }
    }

    /// Notes that rows were begun along the lists of this graph: a mark is written for each list, and a flag,
    /// an eighth of a word, for each element.
    pub fn note_begin(&self, graph: &OrderGraph) {
        let words = u64::from(graph.lists()) + u64::from(graph.elements() / 8);
        self.by_lists.fetch_add(words, Ordering::SeqCst);
    }

    /// Notes so many rows like this, for which so many places were looked at: a table costs a word for each 64
    /// elements, for each layer and each number but those of the last layer.
    pub fn note(&self, looked: u64, elements: u32, numbers: &[Vec<u32>], count: u64) {
        let mut unions = 1u64;
        for layer in numbers.iter().take(numbers.len().saturating_sub(1)) {
            unions = unions.saturating_add(layer.len() as u64 + 1);
        }
        let words = unions.saturating_mul(u64::from(elements / 64 + 1));
        let looks = looked.saturating_mul(WORDS);
        self.by_lists
            .fetch_add(looks.saturating_mul(count), Ordering::SeqCst);
        self.by_table
            .fetch_add(words.saturating_mul(count), Ordering::SeqCst);
    }

    /// Whether the rows so far have cost more than the table and they along it would have.
    pub fn is_table_cheaper(&self) -> bool {
        self.by_lists.load(Ordering::SeqCst) > self.by_table.load(Ordering::SeqCst)
    }
}
