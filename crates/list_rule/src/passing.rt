//! The places behind a row's numbers are passed, and their depths compared.

ghost use Rattle.std.specs.Prelude.{◌≡◌, ◌↔◌, ◌+◌, ◌<◌, ◌≤◌, ◌^◌, ℕ, true, false, List, Vec, All, Contains};
ghost use Rattle.std.specs.Prelude.{IsTrue, length, slice_index, slice_index_or, slice_set, vec_len};
ghost use Rattle.std.specs.Global.{Global};
ghost use Rattle.bit_tables.specs.Rule.{HaveDepths, MeetsRule};
ghost use Rattle.element_numbers.specs.Cuts.{IsCut, rows_of};
ghost use Rattle.list_rule.specs.Spots.{AreSpotsOf, Stands, row, spots_at};
ghost use Rattle.list_rule.specs.Marks.{mark_at};
ghost use Rattle.list_rule.specs.Judging.{Asked, AreMarks, IsJudging, IsRightBehind, IsRightNumber, asked};
ghost use Rattle.list_rule.specs.declared.spot.Spot.{Spot};

use super::marks::{Mark, State, begin_row, mark_of};
use super::spot::Spot;
use super::spots::spots_of;
use element_numbers::Rows;

/// What one place costs, in words of a table.
const WORDS: u64 = 4;

/// Whether no number of a list, from one place on and before another, is deeper than the bound. Numbers below
/// the first do not count.
fn are_at_most(list: &[u32], from: u32, to: u32, depths: &[u32], first: u32, bound: u32) -> bool
    requires within { to ≤ length list.now }
    requires known { All (λ x. x < length depths.now) list.now }
    ensures { IsTrue result ↔ ((j : ℕ) → from ≤ j → j < to → first ≤ slice_index list.now j
        → slice_index depths.now (slice_index list.now j) ≤ bound) }
{
    for j in from..to {
        let y = list[j as usize];
        if y >= first && depths[y as usize] > bound {
            return false;
        }
    }
    true
}

/// Passes the places behind a spot up to its list's mark, and sets the mark behind the spot; false where a
/// number there is deeper than the bound.
fn sweep(
    places: &Rows<u32>,
    depths: &[u32],
    first: u32,
    spot: Spot,
    bound: u32,
    mark: Mark,
    state: &mut State,
) -> bool
    requires cut { IsCut places.now }
    requires within { All (λ list. All (λ x. x < length depths.now) list) (rows_of places.now) }
    requires short { length (row (rows_of places.now) spot.list) < 2 ^ 32 }
    requires inside { spot.place < length (row (rows_of places.now) spot.list) }
    requires count { vec_len state.old.marks ≡ length (rows_of places.now) }
    ensures row { state.new.row ≡ state.old.row }
    ensures marks { result ≡ true → state.new.marks.items ≡ slice_set state.old.marks.items spot.list
        (record { row = mark.row; end = spot.place + 1; behind_source = mark.behind_source }) }
    ensures kept { result ≡ false → state.new.marks.items ≡ state.old.marks.items }
    ensures read { IsTrue result ↔ ((j y : ℕ) → spot.place < j → j < mark.end
        → Stands (rows_of places.now) spot.list j y → first ≤ y → slice_index depths.now y ≤ bound) }
{
    let list = places.row(spot.list as usize);
    let behind = spot.place + 1;
    let end = mark.end.min(list.len() as u32);
    state.cost = state
        .cost
        .saturating_add(u64::from(end.saturating_sub(behind)) * WORDS);
    if !are_at_most(list, behind, end, depths, first, bound) {
        return false;
    }
    state.marks[spot.list as usize] = Mark {
        row: mark.row,
        end: behind,
        behind_source: mark.behind_source,
    };
    true
}

/// Passes what stands behind a spot of a number whose depth is one less than the bound. False where the source
/// stands there, or a number that is deeper than the bound.
fn pass_spot(
    places: &Rows<u32>,
    depths: &[u32],
    most: u32,
    first: u32,
    spot: Spot,
    bound: u32,
    state: &mut State,
) -> bool
    requires cut { IsCut places.now }
    requires within { All (λ list. All (λ x. x < length depths.now) list) (rows_of places.now) }
    requires most { All (λ d. d ≤ most) depths.now }
    requires short { length (row (rows_of places.now) spot.list) < 2 ^ 32 }
    requires inside { spot.place < length (row (rows_of places.now) spot.list) }
    requires fits { AreMarks (rows_of places.now) state.old }
    ensures fits { AreMarks (rows_of places.now) state.new }
    ensures judging { result ≡ true → (source : ℕ) (spots : List (Vec Spot Global))
        → IsJudging (asked (rows_of places.now) depths.now most first source) spots bound state.old
        → IsJudging (asked (rows_of places.now) depths.now most first source) spots bound state.new }
    ensures right { result ≡ true → (n source : ℕ) (spots : List (Vec Spot Global))
        → AreSpotsOf n (rows_of places.now) spots → ((x : ℕ) × Contains (spots_at spots x) spot)
        → IsJudging (asked (rows_of places.now) depths.now most first source) spots bound state.old
        → IsRightBehind (asked (rows_of places.now) depths.now most first source) bound spot }
    ensures rule { (x source : ℕ) (spots : List (Vec Spot Global))
        → Stands (rows_of places.now) spot.list spot.place x → first ≤ x
        → slice_index depths.now x + 1 ≡ bound → slice_index depths.now x < most
        → IsJudging (asked (rows_of places.now) depths.now most first source) spots bound state.old
        → MeetsRule (rows_of places.now) first source most (λ y. slice_index_or depths.now y most)
        → result ≡ true }
{
    let mark = mark_of(state, spot.list);
    let behind = spot.place + 1;
    state.cost = state.cost.saturating_add(1);
    if behind < mark.behind_source {
        return false;
    }
    if bound >= most || mark.end <= behind {
        return true;
    }
    sweep(places, depths, first, spot, bound, mark, state)
}

/// Passes what stands behind all spots of a number whose depth is one less than the bound, unless it is below
/// the first. False as above.
fn pass_spots(
    places: &Rows<u32>,
    depths: &[u32],
    most: u32,
    first: u32,
    spots: &[Vec<Spot>],
    x: u32,
    bound: u32,
    state: &mut State,
) -> bool
    requires cut { IsCut places.now }
    requires within { All (λ list. All (λ x. x < length depths.now) list) (rows_of places.now) }
    requires most { All (λ d. d ≤ most) depths.now }
    requires short { (l : ℕ) → length (row (rows_of places.now) l) < 2 ^ 32 }
    requires spots { AreSpotsOf (length depths.now) (rows_of places.now) spots.now }
    requires fits { AreMarks (rows_of places.now) state.old }
    ensures fits { AreMarks (rows_of places.now) state.new }
    ensures judging { result ≡ true → (source : ℕ)
        → IsJudging (asked (rows_of places.now) depths.now most first source) spots.now bound state.old
        → IsJudging (asked (rows_of places.now) depths.now most first source) spots.now bound state.new }
    ensures right { result ≡ true → (source : ℕ)
        → IsJudging (asked (rows_of places.now) depths.now most first source) spots.now bound state.old
        → first ≤ x → (q : Spot) → Contains (spots_at spots.now x) q
        → IsRightBehind (asked (rows_of places.now) depths.now most first source) bound q }
    ensures rule { (source : ℕ) → slice_index depths.now x + 1 ≡ bound → slice_index depths.now x < most
        → IsJudging (asked (rows_of places.now) depths.now most first source) spots.now bound state.old
        → MeetsRule (rows_of places.now) first source most (λ y. slice_index_or depths.now y most)
        → result ≡ true }
{
    if x < first {
        return true;
    }
    let these = spots_of(spots, x);
    for spot in these {
        if !pass_spot(places, depths, most, first, *spot, bound, state) {
            return false;
        }
    }
    true
}

/// Begins the row anew where the next number is less deep than the last: marks serve numbers that are no less
/// deep. In a row's line that never happens.
fn set_depth(state: &mut State, spots: &[Spot], last: u32, depth: u32)
    requires rows { (l : ℕ) → (mark_at state.old.marks.items l).row ≤ state.old.row }
    requires lists { All (λ q. q.list < vec_len state.old.marks) spots.now }
    requires places { All (λ q. q.place + 1 < 2 ^ 32) spots.now }
    ensures judging { (a : Asked) (n : ℕ) (all : List (Vec Spot Global)) → AreSpotsOf n a.lists all
        → ((l : ℕ) → length (row a.lists l) < 2 ^ 32) → spots.now ≡ spots_at all a.source
        → IsJudging a all (last + 1) state.old → IsJudging a all (depth + 1) state.new }
{
    if depth < last {
        begin_row(state, spots);
    }
}

/// Whether a row meets the rule, by its numbers that have a depth.
pub fn pass_row(
    places: &Rows<u32>,
    depths: &[u32],
    noted: &[u32],
    most: u32,
    first: u32,
    source: u32,
    spots: &[Vec<Spot>],
    state: &mut State,
) -> bool
    requires cut { IsCut places.now }
    requires within { All (λ list. All (λ x. x < length depths.now) list) (rows_of places.now) }
    requires noted { HaveDepths depths.now most noted.now }
    requires most { All (λ d. d ≤ most) depths.now }
    requires short { (l : ℕ) → length (row (rows_of places.now) l) < 2 ^ 32 }
    requires spots { AreSpotsOf (length depths.now) (rows_of places.now) spots.now }
    requires fits { AreMarks (rows_of places.now) state.old }
    ensures fits { AreMarks (rows_of places.now) state.new }
    ensures right { result ≡ true → (x : ℕ) → Contains noted.now x → first ≤ x
        → IsRightNumber (asked (rows_of places.now) depths.now most first source) spots.now x }
    ensures rule { MeetsRule (rows_of places.now) first source most (λ y. slice_index_or depths.now y most)
        → result ≡ true }
{
    let sources = spots_of(spots, source);
    begin_row(state, sources);
    let mut last = 0;
    for x in noted {
        let depth = depths[*x as usize];
        set_depth(state, sources, last, depth);
        last = depth;
        if !pass_spots(places, depths, most, first, spots, *x, depth + 1, state) {
            return false;
        }
    }
    true
}
