//! The layer rule of a row, asked of a table.

ghost use Rattle.std.specs.Prelude.{◌≡◌, ◌<◌, ◌≤◌, ◌+◌, ◌/◌, ◌⊎◌, ◌↔◌, ℕ, All, Contains, IfOk, IsTrue, List};
ghost use Rattle.std.specs.Prelude.{length, map, slice_index, true, ◌-◌};
ghost use Rattle.bit_tables.specs.Sets.{Has, room};
ghost use Rattle.bit_tables.specs.Lists.{HaveWidth, IsTableOf, row_of};
ghost use Rattle.bit_tables.specs.Rule.{AreDepths, MeetsRule};

use super::bits::BitSet;
use super::table::AfterTable;
use std::alloc::{AllocError, Global};

/// Adds the numbers of a layer.
pub fn add_layer(into: &mut BitSet, layer: &[u32])
    requires { All (λ x. x < room into.old) layer.now }
    ensures len { length into.new ≡ length into.old }
    ensures has { (y : ℕ) → Has into.new y ↔ (Has into.old y ⊎ Contains layer.now y) }
{
    'numbers: for x in layer {
        into.insert(*x as usize);
    }
}

/// Whether it is known that the row of the number at the place before in a layer has all that the row of the
/// number at this place has.
fn row_before_has_all(table: &AfterTable, layer: &[u32], i: usize) -> bool
    requires { i < length layer.now }
    ensures { result ≡ true → (0 < i) × ((y : ℕ) → Has (row_of table.now (slice_index layer.now i)) y
        → Has (row_of table.now (slice_index layer.now (i - 1))) y) }
{
    i > 0 && layer[i - 1].checked_add(1) == Some(layer[i]) && table.is_included(layer[i] as usize)
}

/// Adds what stands after a number of the layer in some list, from `first` on; of lesser numbers nothing is
/// promised.
pub fn add_successors(into: &mut BitSet, table: &AfterTable, layer: &[u32], first: usize)
    requires within { All (λ x. x < length table.now) layer.now }
    requires width { HaveWidth (length into.old) table.now }
    ensures len { length into.new ≡ length into.old }
    ensures has { (y : ℕ) → first ≤ y → Has into.new y
        ↔ (Has into.old y ⊎ ((x : ℕ) × Contains layer.now x × Has (row_of table.now x) y)) }
{
    'numbers: for i in 0..layer.len() {
        if !row_before_has_all(table, layer, i) {
            into.union_from(table.after(layer[i] as usize), first);
        }
    }
}

/// Whether a number stands after one of the layer in some list.
fn is_after(table: &AfterTable, layer: &[u32], number: usize) -> bool
    requires { All (λ x. x < length table.now) layer.now }
    ensures { IsTrue result ↔ ((x : ℕ) × Contains layer.now x × Has (row_of table.now x) number) }
{
    for x in layer {
        if table.after(*x as usize).contains(number) {
            return true;
        }
    }
    false
}

/// Whether a number is in the set, or stands after one of the layer in some list.
fn is_shown(shown: &BitSet, table: &AfterTable, layer: &[u32], number: usize) -> bool
    requires { All (λ x. x < length table.now) layer.now }
    ensures { IsTrue result ↔ (Has shown.now number
        ⊎ ((x : ℕ) × Contains layer.now x × Has (row_of table.now x) number)) }
{
    if shown.contains(number) {
        return true;
    }
    is_after(table, layer, number)
}

/// Whether all numbers that are shown stand. Where that is known it takes one step.
fn all_stand(shown: &BitSet, standing: &BitSet, is_settled: bool) -> bool
    requires len { length shown.now ≡ length standing.now }
    requires settled { is_settled ≡ true → (y : ℕ) → Has shown.now y → Has standing.now y }
    ensures { IsTrue result ↔ ((y : ℕ) → Has shown.now y → Has standing.now y) }
{
    is_settled || shown.is_subset(standing)
}

/// Whether layers of numbers from `first` on, below `n`, meet the layer rule for a source: no number is more
/// than one layer deeper than one that stands before it in some list of the table, and what stands before the
/// source is in no layer. A number in no layer counts as one in a layer behind the last. Of the numbers below
/// `first` nothing is asked, as if they stood in no list.
///
/// It takes `n / 64` steps for each number in the layers and for each layer behind one that has numbers, fewer
/// where few numbers count, but one step for each number of the last layer, of which no more is asked than
/// whether it stands before the source, and one for each layer behind an empty one; and two sets of memory.
pub fn meets_rule(
    alloc: Global,
    table: &AfterTable,
    n: usize,
    layers: &[Vec<u32>],
    first: usize,
    source: usize,
) -> Result<bool, AllocError>
    requires len { length table.now ≡ n }
    requires width { HaveWidth (n / 64 + 1) table.now }
    requires first { first ≤ n }
    requires from { All (λ layer. All (λ x. first ≤ x) layer.items) layers.now }
    requires within { All (λ layer. All (λ x. x < n) layer.items) layers.now }
    ensures { IfOk result (λ meets. (lists : List (List ℕ)) (depth : ℕ → ℕ) → IsTableOf n lists table.now
        → AreDepths first (map (λ layer. layer.items) layers.now) depth
        → IsTrue meets ↔ MeetsRule lists first source (length layers.now) depth) }
{
    let mut standing = BitSet::new(alloc, n)?;
    standing.add_below(first);
    let mut shown = BitSet::new(alloc, n)?;
    let least = first.min(source);
    // Whether it is known that all that is shown stands.
    let mut is_settled = true;
    'layers: for i in 0..layers.len() {
        let layer = &layers[i];
        add_layer(&mut standing, layer);
        if !all_stand(&shown, &standing, is_settled) {
            return Ok(false);
        }
        if i + 1 == layers.len() {
            return Ok(!is_shown(&shown, table, layer, source));
        }
        add_successors(&mut shown, table, layer, least);
        is_settled = layer.is_empty();
    }
    // There is no layer.
    Ok(true)
}
