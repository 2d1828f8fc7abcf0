//! Which elements stand before which in some list.

ghost use Rattle.std.specs.Prelude.{◌≡◌, ◌<◌, ◌+◌, ℕ, IfOk, OnOk, List, length};
ghost use Rattle.order_graph.specs.Lists.{lists_of, row};
ghost use Rattle.bit_tables.specs.Lists.{row_of};
ghost use Rattle.level_search.specs.Tables.{IsBeforeTable};
ghost use Rattle.level_search.specs.Fronts.{IsBetween, IsFront};

use super::front::{Front, goes_on};
use bit_tables::{BitSet, add_few, empty_rows};
use events::Memory;
use order_graph::{Looked, OrderGraph, Spot};
use std::alloc::Global;
use std::marker::Model;

/// The list of an element that has stood in none.
const NO_LIST: u32 = u32::MAX;

/// For each element the set of those that some list shows before it.
#[derive(Drop)]
pub struct BeforeTable {
    rows: Vec<BitSet>,
}

/// Its rows.
impl Model for BeforeTable {
    ghost Value = { List (List ℕ) };

    ghost view = { λ t. t.rows.items };
}

/// Takes note of what stands before the element at a place of a list.
fn note_place(
    graph: &OrderGraph,
    at: Spot,
    rows: &mut [BitSet],
    front: &mut Front,
    looked: &mut Looked,
) -> Result<(), Memory>
    requires inside { at.place < length (row (lists_of graph.now) at.list) }
    requires elements { length rows.old ≡ length graph.now.elements }
    requires front { IsFront (lists_of graph.now) at.list at.place rows.old front.old }
    ensures len { length rows.new ≡ length rows.old }
    ensures width { length front.new.before ≡ length front.old.before }
    ensures front { OnOk result (IsFront (lists_of graph.now) at.list (at.place + 1) rows.new front.new) }
{
    let Some(x) = graph.place(at.list, at.place, looked) else {
        return Ok(());
    };
    let last = front.last[x as usize];
    if goes_on(last, at.list, front.next) {
        add_few(&mut rows[x as usize], front.fresh.as_slice(), &front.before);
        front.next = last.place as usize + 1;
    } else {
        rows[x as usize].union_with(&front.before);
        front.fresh.push(x)?;
    }
    front.before.insert(x as usize);
    front.last[x as usize] = at;
    Ok(())
}

/// Takes note of what stands before each element of a list.
fn note_list(
    graph: &OrderGraph,
    list: u32,
    rows: &mut [BitSet],
    front: &mut Front,
) -> Result<(), Memory>
    requires elements { length rows.old ≡ length graph.now.elements }
    requires between { IsBetween (lists_of graph.now) list rows.old front.old }
    ensures len { length rows.new ≡ length rows.old }
    ensures width { length front.new.before ≡ length front.old.before }
    ensures between { OnOk result (IsBetween (lists_of graph.now) (list + 1) rows.new front.new) }
{
    let mut looked = Looked::new();
    front.begin();
    for place in 0..graph.length(list) {
        note_place(graph, Spot { list, place }, rows, front, &mut looked)?;
    }
    Ok(())
}

impl BeforeTable {
    /// The table of a graph. A list costs `n / 64` steps for n elements, and each of its places a step, and
    /// one for each element before it that does not go on with the list before, up to 64; where these are
    /// more, or its own does not, `n / 64` steps. The table takes `n * n / 8` bytes.
    pub fn of(alloc: Global, graph: &OrderGraph) -> Result<BeforeTable, Memory>
        ensures { IfOk result (λ t. IsBeforeTable (length graph.now.elements) (lists_of graph.now) t) }
    {
        let n = graph.elements() as usize;
        let mut rows = empty_rows(alloc, n)?;
        let mut front = Front {
            before: BitSet::new(alloc, n)?,
            fresh: Vec::with_capacity(alloc, n)?,
            last: Vec::from_elem(
                alloc,
                Spot {
                    list: NO_LIST,
                    place: 0,
                },
                n,
            )?,
            next: 0,
        };
        for list in 0..graph.lists() {
            note_list(graph, list, &mut rows, &mut front)?;
        }
        Ok(BeforeTable { rows })
    }

    /// Those that stand before this element in some list.
    pub fn before(&self, a: u32) -> &BitSet
        requires { a < length self.now }
        ensures { result.now ≡ row_of self.now a }
    {
        &self.rows[a as usize]
    }
}
