//! The numbers by how many steps lead to them, along a table.

ghost use Rattle.std.specs.Prelude.{◌≡◌, ◌<◌, ◌≤◌, ◌+◌, ◌/◌, ◌⊎◌, ◌↔◌, ℕ};
ghost use Rattle.std.specs.Prelude.{All, Contains, IfOk, length, true, vec_len};
ghost use Rattle.bit_tables.specs.Sets.{Has};
ghost use Rattle.bit_tables.specs.Lists.{HaveWidth, row_of};
ghost use Rattle.bit_tables.specs.Rule.{layer_at};
ghost use Rattle.bit_tables.specs.Ways.{AreThoseBelow, IsLayerAt};

use super::bits::BitSet;
use super::layers::{add_layer, add_successors};
use super::table::AfterTable;
use std::alloc::{AllocError, Global};

/// The set of the numbers below the first, with room for those up to `n`.
fn numbers_below(alloc: Global, n: u32, first: u32) -> Result<BitSet, AllocError>
    requires { first ≤ n }
    ensures len { IfOk result (λ s. length s ≡ n / 64 + 1) }
    ensures has { IfOk result (λ s. (x : ℕ) → Has s x ↔ (x < first)) }
{
    let mut numbers = BitSet::new(alloc, n as usize)?;
    numbers.add_below(first as usize);
    Ok(numbers)
}

/// Adds what stands after a number of the layer, from `first` on, unless this layer, counted from 0, is the
/// last of so many: what it shows is then asked of no other.
fn add_unless_last(
    into: &mut BitSet,
    table: &AfterTable,
    layer: &[u32],
    first: u32,
    d: u32,
    count: u32,
)
    requires within { All (λ x. x < length table.now) layer.now }
    requires width { HaveWidth (length into.old) table.now }
    requires few { d < count }
    ensures len { length into.new ≡ length into.old }
    ensures has { d + 1 < count → (y : ℕ) → first ≤ y → Has into.new y
        ↔ (Has into.old y ⊎ ((x : ℕ) × Contains layer.now x × Has (row_of table.now x) y)) }
{
    if d + 1 < count {
        add_successors(into, table, layer, first as usize);
    }
}

/// The numbers that are shown and not reached, from the first that counts on. Where it is known that there are
/// none, that takes one step.
fn next_layer(
    alloc: Global,
    shown: &BitSet,
    reached: &BitSet,
    first: u32,
    n: u32,
    is_settled: bool,
) -> Result<Vec<u32>, AllocError>
    requires within { first ≤ n }
    requires below { (y : ℕ) → y < first → Has shown.now y → Has reached.now y }
    requires settled { is_settled ≡ true → (y : ℕ) → y < n → Has shown.now y → Has reached.now y }
    ensures { IfOk result (λ v. AreThoseBelow (λ x. Has shown.now x × (¬ Has reached.now x)) n v.items) }
{
    if is_settled {
        return Ok(Vec::new(alloc));
    }
    shown.difference_from(alloc, reached, first, n)
}

/// So many layers of the numbers below `n`, from the first that counts on: layer d holds those that d steps
/// lead to from the source, and no fewer, in rising order. A step leads to what the table has of a number,
/// and all steps go through numbers that count.
///
/// It takes `n / 64` steps for each layer behind one that has numbers and for each number in the layers but
/// the last, fewer where few numbers count, one for each layer behind an empty one, and memory for these
/// numbers, the layers and two sets.
pub fn layers_from(
    alloc: Global,
    table: &AfterTable,
    n: u32,
    source: u32,
    first: u32,
    count: u32,
) -> Result<Vec<Vec<u32>>, AllocError>
    requires len { length table.now ≡ n }
    requires width { HaveWidth (n / 64 + 1) table.now }
    requires counts { first ≤ source }
    requires within { source < n }
    ensures count { IfOk result (λ layers. vec_len layers ≡ count) }
    ensures layers { IfOk result (λ layers. (d : ℕ) → d < count
        → IsLayerAt n table.now first source d (layer_at layers.items d)) }
{
    let mut reached = numbers_below(alloc, n, first)?;
    let mut shown = BitSet::new(alloc, n as usize)?;
    shown.insert(source as usize);
    let mut layers = Vec::new(alloc);
    // Whether it is known that all that is shown was reached.
    let mut is_settled = false;
    for d in 0..count {
        let layer = next_layer(alloc, &shown, &reached, first, n, is_settled)?;
        add_layer(&mut reached, layer.as_slice());
        add_unless_last(&mut shown, table, layer.as_slice(), first, d, count);
        is_settled = layer.is_empty();
        layers.push(layer)?;
    }
    Ok(layers)
}
