//! The layer rule of numbers whose depths are known.

ghost use Rattle.std.specs.Prelude.{◌≡◌, ◌<◌, ◌≤◌, ◌+◌, ◌*◌, ◌/◌, ◌⊎◌, ◌↔◌, ◌^◌, ℕ, All, Contains, IfOk};
ghost use Rattle.std.specs.Prelude.{IsTrue, List, OnOk};
ghost use Rattle.std.specs.Prelude.{length, map, slice_index, slice_index_or, vec_len};
ghost use Rattle.bit_tables.specs.Lists.{HaveWidth, IsTableOf};
ghost use Rattle.bit_tables.specs.Rule.{HaveDepths, MeetsRule, layer_at};

use super::layers::meets_rule;
use super::lists::empty_lists;
use super::narrow::narrow_depths;
use super::table::AfterTable;
use std::alloc::{AllocError, Global};

/// Puts a number from `first` on into the layer of its depth, if there is one.
fn put(layers: &mut Vec<Vec<u32>>, depth: u32, number: u32, first: u32) -> Result<(), AllocError>
    ensures count { vec_len layers.new ≡ vec_len layers.old }
    ensures layers { OnOk result ((d x : ℕ) → d < vec_len layers.old
        → Contains (layer_at layers.new.items d) x
        ↔ (Contains (layer_at layers.old.items d) x ⊎ ((first ≤ number) × (d ≡ depth) × (x ≡ number)))) }
{
    if number >= first && (depth as usize) < layers.len() {
        layers[depth as usize].push(number)?;
    }
    Ok(())
}

/// The noted numbers from `first` on by depth, as many layers as the count. Noted are the numbers of a lesser
/// depth than the count, which is at most two more than twice the number of the depths: so its memory is
/// linear in that number. It takes a step for each noted number and each layer.
fn layers_by_depth(
    alloc: Global,
    depths: &[u32],
    noted: &[u32],
    count: u32,
    first: u32,
) -> Result<Vec<Vec<u32>>, AllocError>
    requires narrow { count ≤ 2 * (length depths.now + 1) }
    requires noted { HaveDepths depths.now count noted.now }
    ensures count { IfOk result (λ layers. length layers.items ≡ count) }
    ensures layers { IfOk result (λ layers. (d x : ℕ) → d < count → Contains (layer_at layers.items d) x
        ↔ ((first ≤ x) × (x < length depths.now) × (slice_index depths.now x ≡ d))) }
{
    let mut layers = empty_lists(alloc, count as usize)?;
    for x in noted {
        put(&mut layers, depths[*x as usize], *x, first)?;
    }
    Ok(layers)
}

/// Whether the numbers from `first` on, below `n`, at these depths of at most the count, meet the layer rule
/// for a source, as `are_deep` asks it. The count is at most two more than twice the number of the depths.
///
/// It takes `n / 64` steps for each noted number that is not in the last layer and for each layer behind one
/// that has numbers, a step for each other number and layer, and memory for these numbers, as many layers as
/// the count and two sets.
fn are_deep_in_layers(
    alloc: Global,
    table: &AfterTable,
    depths: &[u32],
    noted: &[u32],
    count: u32,
    first: u32,
    source: u32,
) -> Result<bool, AllocError>
    requires narrow { count ≤ 2 * (length depths.now + 1) }
    requires first { first ≤ length depths.now }
    requires noted { HaveDepths depths.now count noted.now }
    requires most { All (λ d. d ≤ count) depths.now }
    requires len { length table.now ≡ length depths.now }
    requires width { HaveWidth (length depths.now / 64 + 1) table.now }
    ensures { IfOk result (λ deep. (lists : List (List ℕ)) → IsTableOf (length depths.now) lists table.now
        → IsTrue deep ↔ MeetsRule lists first source count (λ x. slice_index_or depths.now x count)) }
{
    let layers = layers_by_depth(alloc, depths, noted, count, first)?;
    let deep = meets_rule(
        alloc,
        table,
        depths.len(),
        &layers,
        first as usize,
        source as usize,
    )?;
    Ok(deep)
}

/// Whether the numbers from `first` on, below `n`, the number of depths, at these depths of at most the
/// count, meet the layer rule for a source: no number is more than one deeper than one that stands before it
/// in some list of the table, and what stands before the source is as deep as the count. Of the numbers below
/// `first`, and of their depths, nothing is asked: the lists are taken with these numbers left out. Noted are
/// the numbers of a lesser depth than the count, so that the others are not gone through.
///
/// It takes `n / 64` steps for each noted number that is not in the last layer and for each layer behind one
/// that has numbers, a step for each other number and layer, and memory for these numbers, the layers and two
/// sets. There are as many layers as the
/// count where that is at most `n`, and else at most `2 * n + 2`, found in about `n * log n` further steps.
/// So memory is linear in `n`, whatever the count, where no number is noted twice.
pub fn are_deep(
    alloc: Global,
    table: &AfterTable,
    depths: &[u32],
    noted: &[u32],
    count: u32,
    first: u32,
    source: u32,
) -> Result<bool, AllocError>
    requires few { length depths.now < 2 ^ 32 }
    requires first { first ≤ length depths.now }
    requires noted { HaveDepths depths.now count noted.now }
    requires most { All (λ d. d ≤ count) depths.now }
    requires len { length table.now ≡ length depths.now }
    requires width { HaveWidth (length depths.now / 64 + 1) table.now }
    ensures { IfOk result (λ deep. (lists : List (List ℕ)) → IsTableOf (length depths.now) lists table.now
        → IsTrue deep ↔ MeetsRule lists first source count (λ x. slice_index_or depths.now x count)) }
{
    if count as usize <= depths.len() {
        return are_deep_in_layers(alloc, table, depths, noted, count, first, source);
    }
    let (small, most) = narrow_depths(alloc, depths, count)?;
    are_deep_in_layers(alloc, table, &small, noted, most, first, source)
}
