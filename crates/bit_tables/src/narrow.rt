//! Small numbers in place of depths, for the layer rule: it asks of two depths no more than whether one is at
//! most the other, and at most one more.

ghost use Rattle.std.specs.Prelude.{◌≡◌, ◌<◌, ◌≤◌, ◌+◌, ◌*◌, ◌^◌, ℕ, All, Contains, IfOk, length};
ghost use Rattle.std.specs.List.Sorted.{IsNonDecreasing};
ghost use Rattle.bit_tables.specs.Narrow.{AreNarrowed, AreSmall, StandsFor};

use std::alloc::{AllocError, Global};

/// A small number for each of the depths, which stand in rising order: 0, 1 or 2 more than the one before, as
/// the depth is the same, one more, or more than that. It takes a step for each depth.
fn narrowed(alloc: Global, wide: &[u32]) -> Result<Vec<u32>, AllocError>
    requires { IsNonDecreasing wide.now }
    ensures alike { IfOk result (λ narrow. AreNarrowed wide.now narrow.items) }
    ensures small { IfOk result (λ narrow. All (λ x. x ≤ 2 * length wide.now) narrow.items) }
{
    let mut narrow = Vec::with_capacity(alloc, wide.len())?;
    let mut last = 0u32;
    let mut small = 0u32;
    for i in 0..wide.len() {
        small += (wide[i] - last).min(2);
        last = wide[i];
        narrow.push(small)?;
    }
    Ok(narrow)
}

/// The number in place of a depth, which is found in as many steps as halve the list.
fn in_place_of(wide: &[u32], narrow: &[u32], depth: u32) -> u32
    requires rising { IsNonDecreasing wide.now }
    requires len { length narrow.now ≡ length wide.now }
    requires has { Contains wide.now depth }
    ensures { StandsFor wide.now narrow.now depth result }
{
    match wide.binary_search(&depth) {
        Ok(place) => narrow[place],
        Err(_) => unreachable!(),
    }
}

/// The depths and the count, in rising order. Of n depths it takes about `n * log n` steps.
fn in_order(alloc: Global, depths: &[u32], count: u32) -> Result<Vec<u32>, AllocError>
    ensures rising { IfOk result (λ wide. IsNonDecreasing wide.items) }
    ensures len { IfOk result (λ wide. length wide.items ≡ length depths.now + 1) }
    ensures depths { IfOk result (λ wide. All (Contains wide.items) depths.now) }
    ensures count { IfOk result (λ wide. Contains wide.items count) }
{
    let mut wide = Vec::with_capacity(alloc, depths.len() + 1)?;
    wide.extend_from_slice(depths)?;
    wide.push(count)?;
    wide.sort_unstable();
    Ok(wide)
}

/// Small depths, and a small count, in place of these: at most two more than twice the number of the depths.
/// Of n depths it takes about `n * log n` steps, and memory for three times as many, whatever the count.
pub fn narrow_depths(
    alloc: Global,
    depths: &[u32],
    count: u32,
) -> Result<(Vec<u32>, u32), AllocError>
    requires { length depths.now < 2 ^ 32 }
    ensures alike { IfOk result (λ pair. AreSmall depths.now count pair.0.items pair.1) }
    ensures small { IfOk result (λ pair. pair.1 ≤ 2 * (length depths.now + 1)) }
{
    let wide = in_order(alloc, depths, count)?;
    let narrow = narrowed(alloc, &wide)?;
    let most = in_place_of(&wide, &narrow, count);
    let mut small = Vec::with_capacity(alloc, depths.len())?;
    for x in 0..depths.len() {
        small.push(in_place_of(&wide, &narrow, depths[x]))?;
    }
    Ok((small, most))
}
