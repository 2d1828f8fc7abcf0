//! The places of one list, passed from one place on to its mark.

ghost use Rattle.std.specs.Prelude.{◌≡◌, ℕ, ◌+◌, ◌<◌, ◌≤◌, All, OnOk, length, slice_index, vec_len};
ghost use Rattle.order_graph.specs.Lists.{lists_of, row};
ghost use Rattle.list_search.specs.Graph.{graph_of};
ghost use Rattle.list_search.specs.Progress.{IsAfter};
ghost use Rattle.list_layers.specs.Progress.{Goes, Grows, IsGood, IsSeen, StandsWithin};

use super::state::State;
use events::Memory;
use order_graph::{OrderGraph, Spot};

/// Enters a number into the next layer, unless it is below the first that counts, or was entered before.
fn enter(y: u32, first: u32, seen: &mut Vec<bool>, next: &mut Vec<u32>) -> Result<(), Memory>
    requires { y < vec_len seen.old }
    ensures places { vec_len seen.new ≡ vec_len seen.old }
    ensures grows { OnOk result (Grows (λ x. x ≡ y) first seen.old.items next.old.items seen.new.items
        next.new.items) }
    ensures seen { OnOk result (first ≤ y → IsSeen seen.new.items y) }
{
    if y < first || seen[y as usize] {
        return Ok(());
    }
    next.push(y)?;
    seen[y as usize] = true;
    Ok(())
}

/// Enters what stands in a list from one place on and before another.
fn read(
    list: &[u32],
    from: u32,
    to: u32,
    first: u32,
    seen: &mut Vec<bool>,
    next: &mut Vec<u32>,
) -> Result<(), Memory>
    requires within { to ≤ length list.now }
    requires known { All (λ x. x < vec_len seen.old) list.now }
    ensures places { vec_len seen.new ≡ vec_len seen.old }
    ensures grows { OnOk result (Grows (StandsWithin list.now from to) first seen.old.items next.old.items
        seen.new.items next.new.items) }
    ensures seen { OnOk result ((j : ℕ) → from ≤ j → j < to → first ≤ slice_index list.now j
        → IsSeen seen.new.items (slice_index list.now j)) }
{
    for j in from..to {
        enter(list[j as usize], first, seen, next)?;
    }
    Ok(())
}

/// Passes the places behind a spot up to its list's mark, and sets the mark behind the spot.
pub fn sweep(
    graph: &OrderGraph,
    first: u32,
    spot: Spot,
    state: &mut State,
    next: &mut Vec<u32>,
) -> Result<(), Memory>
    requires good { IsGood (graph_of graph.now) first state.old }
    requires inside { spot.place < length (row (lists_of graph.now) spot.list) }
    ensures marks { vec_len state.new.marks ≡ vec_len state.old.marks }
    ensures seen { vec_len state.new.seen ≡ vec_len state.old.seen }
    ensures good { OnOk result (IsGood (graph_of graph.now) first state.new) }
    ensures goes { OnOk result (Goes first (IsAfter (lists_of graph.now) spot.list spot.place)
        (λ l. l ≡ spot.list) state.old next.old.items state.new next.new.items) }
    ensures mark { OnOk result (slice_index state.new.marks.items spot.list ≤ spot.place + 1) }
{
    let mark = state.marks[spot.list as usize];
    if mark <= spot.place {
        return Ok(());
    }
    let behind = spot.place + 1;
    state.looked.add(u64::from(mark - behind));
    read(
        graph.list(spot.list),
        behind,
        mark,
        first,
        &mut state.seen,
        next,
    )?;
    state.marks[spot.list as usize] = behind;
    Ok(())
}
