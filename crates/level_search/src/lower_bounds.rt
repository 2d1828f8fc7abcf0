//! Lengths than which no cycle through an element is shorter.

ghost use Rattle.std.specs.Prelude.{◌≡◌, ℕ, ◌<◌, ◌≤◌, IfOk, IfSome, length, slice_index, vec_len};
ghost use Rattle.order_graph.specs.Lists.{lists_of};
ghost use Rattle.level_search.specs.LowerBounds.{AreLowerBounds, IsBehind, IsEntered, RisesByOne};

mod levels;

use crate::guesses::NONE;
use events::Memory;
use levels::{Levels, guess_levels};
use order_graph::OrderGraph;
use std::alloc::Global;

/// What a list has shown up to a place: `near` is at most one more than any level, `low` at most any level above
/// 0, and `next` more than any rank at level 0. `entry` is at most any level above 0 behind which level 0 comes.
#[derive(Drop)]
pub struct Shown {
    pub near: u32,
    pub low: u32,
    pub next: u32,
    pub entry: u32,
}

/// Takes note of one more element of a list; none where its level is too high or its rank too low.
fn note_place(levels: &Levels, x: u32, shown: Shown) -> Option<Shown>
    requires levels { x < vec_len levels.now.levels }
    requires ranks { x < vec_len levels.now.ranks }
    ensures { IfSome result (IsBehind levels.now x shown) }
{
    let level = levels.levels[x as usize];
    let rank = levels.ranks[x as usize];
    if level > shown.near {
        return None;
    }
    if level > 0 {
        return Some(Shown {
            near: shown.near.min(level.saturating_add(1)),
            low: shown.low.min(level),
            next: shown.next,
            entry: shown.entry,
        });
    }
    if rank < shown.next || rank == NONE {
        return None;
    }
    Some(Shown {
        near: shown.near.min(1),
        low: shown.low,
        next: rank + 1,
        entry: shown.entry.min(shown.low),
    })
}

/// Takes note of the elements of a list. It is at most any level above 0 behind which level 0 comes there, and at
/// most `entry`; none where the levels or the ranks are not right.
fn note_list(graph: &OrderGraph, levels: &Levels, list: u32, entry: u32) -> Option<u32>
    requires levels { vec_len levels.now.levels ≡ length graph.now.elements }
    requires ranks { vec_len levels.now.ranks ≡ length graph.now.elements }
    ensures rises { IfSome result (λ e. RisesByOne (lists_of graph.now) levels.now list) }
    ensures entered { IfSome result (λ e. IsEntered (lists_of graph.now) levels.now e list) }
    ensures falls { IfSome result (λ e. e ≤ entry) }
{
    let row = graph.list(list);
    let mut shown = Shown {
        near: NONE,
        low: NONE,
        next: 0,
        entry,
    };
    for j in 0..row.len() {
        match note_place(levels, row[j], shown) {
            Some(next) => shown = next,
            None => return None,
        }
    }
    Some(shown.entry)
}

/// The same for all lists.
fn note_lists(graph: &OrderGraph, levels: &Levels) -> Option<u32>
    requires levels { vec_len levels.now.levels ≡ length graph.now.elements }
    requires ranks { vec_len levels.now.ranks ≡ length graph.now.elements }
    ensures rises { IfSome result (λ e. (l : ℕ) → RisesByOne (lists_of graph.now) levels.now l) }
    ensures entered { IfSome result (λ e. (l : ℕ) → IsEntered (lists_of graph.now) levels.now e l) }
{
    let mut entry = NONE;
    for list in 0..graph.lists() {
        match note_list(graph, levels, list, entry) {
            Some(least) => entry = least,
            None => return None,
        }
    }
    Some(entry)
}

/// Puts a bound in the place of each level 0, and 0 in the place of the others.
fn take_bounds(levels: &mut Vec<u32>, bound: u32)
    ensures low { (x : ℕ) → slice_index levels.new.items x ≤ bound }
    ensures others { (x : ℕ) → 0 < slice_index levels.old.items x → slice_index levels.new.items x ≡ 0 }
{
    for x in 0..levels.len() {
        if levels[x] == 0 {
            levels[x] = bound;
        } else {
            levels[x] = 0;
        }
    }
}

/// For each element a length than which no cycle through it is shorter, for what is known of it from these
/// sources; for none where a guess was wrong.
///
/// The level of an element is how few steps lead to it from a source: sources have level 0. Along a cycle a level
/// rises by one at most with each step. Among the sources each has a rank, which rises along each list. So a cycle
/// through a source comes from a level above 0 back to 0 somewhere, and it has at least one step more than the
/// least level from which a list does. Levels and ranks are guessed, and tested in one pass over the lists. It
/// takes time and memory linear in the elements, the lists and the places.
pub fn lower_bounds(alloc: Global, graph: &OrderGraph, sources: &[u32]) -> Result<Vec<u32>, Memory>
    ensures { IfOk result (λ bounds. AreLowerBounds (lists_of graph.now) bounds.items) }
{
    let elements = graph.elements() as usize;
    let levels = guess_levels(alloc, graph, sources)?;
    if levels.levels.len() != elements || levels.ranks.len() != elements {
        return Ok(Vec::new(alloc));
    }
    let Some(entry) = note_lists(graph, &levels) else {
        return Ok(Vec::new(alloc));
    };
    let Levels { levels, ranks: _ } = levels;
    let mut bounds = levels;
    take_bounds(&mut bounds, entry.saturating_add(1));
    Ok(bounds)
}
