//! The spots of each element.

ghost use Rattle.std.specs.Prelude.{◌≡◌, ℕ, ◌+◌, ◌<◌, ◌≤◌, ◌^◌, ◌++◌, [], All, IfOk, OnOk, MatchResult, Some};
ghost use Rattle.std.specs.Prelude.{length, map, replicate, slice_get, slice_index_or, vec_len};
ghost use Rattle.element_numbers.specs.Cuts.{rows_of, IsCut};
ghost use Rattle.order_graph.specs.Lists.{row};
ghost use Rattle.order_graph.specs.Spots.{spots_in, spots_of};

use super::spot::Spot;
use element_numbers::Rows;
use events::Memory;
use std::alloc::Global;

/// How often each element stands in the lists: so much room its spots will take.
fn counts_in(alloc: Global, elements: usize, places: &Rows<u32>) -> Result<Vec<u32>, Memory>
    ensures { IfOk result (λ counts. vec_len counts ≡ elements) }
{
    let mut counts = vec![in alloc; 0u32; elements]?;
    for x in places.items.iter() {
        if let Some(count) = counts.get_mut(*x as usize) {
            *count = count.saturating_add(1);
        }
    }
    Ok(counts)
}

/// An empty list for each count, with room for so many spots.
fn lists_with_room(alloc: Global, counts: &[u32]) -> Result<Vec<Vec<Spot>>, Memory>
    ensures count { IfOk result (λ lists. vec_len lists ≡ length counts.now) }
    ensures empty { IfOk result (λ lists. map (λ list. list.items) lists.items
        ≡ replicate (length counts.now) []) }
{
    let mut lists = Vec::with_capacity(alloc, counts.len())?;
    for count in counts {
        lists.push(Vec::with_capacity(alloc, *count as usize)?)?;
    }
    Ok(lists)
}

/// Adds the spots of one list.
fn row_spots(list: u32, row: &[u32], spots: &mut Vec<Vec<Spot>>) -> Result<(), Memory>
    requires known { All (λ x. x < vec_len spots.old) row.now }
    requires short { length row.now < 2 ^ 32 }
    ensures count { vec_len spots.new ≡ vec_len spots.old }
    ensures spots { OnOk result ((x : ℕ) → x < vec_len spots.old
        → slice_index_or (map (λ s. s.items) spots.new.items) x []
        ≡ slice_index_or (map (λ s. s.items) spots.old.items) x [] ++ spots_in list 0 row.now x) }
{
    for (j, x) in row.iter().enumerate() {
        spots[*x as usize].push(Spot {
            list,
            place: j as u32,
        })?;
    }
    Ok(())
}

/// The spots of each of so many elements, in order of lists: a list for each element. They are counted first,
/// so that none has to move.
pub fn all_spots(
    alloc: Global,
    elements: usize,
    places: &Rows<u32>,
) -> Result<Vec<Vec<Spot>>, Memory>
    requires whole { IsCut places.now }
    requires few { length (rows_of places.now) < 2 ^ 32 }
    requires known { (l : ℕ) → All (λ x. x < elements) (row (rows_of places.now) l) }
    requires short { (l : ℕ) → length (row (rows_of places.now) l) < 2 ^ 32 }
    ensures count { IfOk result (λ v. vec_len v ≡ elements) }
    ensures spots { IfOk result (λ v. (x : ℕ) → x < elements
        → slice_index_or (map (λ s. s.items) v.items) x [] ≡ spots_of (rows_of places.now) x) }
{
    let counts = counts_in(alloc, elements, places)?;
    let mut spots = lists_with_room(alloc, counts.as_slice())?;
    for list in 0..places.ends.len() {
        row_spots(list as u32, places.row(list), &mut spots)?;
    }
    Ok(spots)
}

/// The spots of an element; none past the last element.
pub fn spots_at(spots: &[Vec<Spot>], x: usize) -> &[Spot]
    ensures { result.now ≡ slice_index_or (map (λ s. s.items) spots.now) x [] }
{
    match spots.get(x) {
        None => &[],
        Some(spots) => spots.as_slice(),
    }
}

/// The i-th of the listed spots of an element, from 0; none past the last.
pub fn spot_at(spots: &[Vec<Spot>], x: usize, i: usize) -> Option<Spot>
    ensures { result ≡ slice_get (slice_index_or (map (λ s. s.items) spots.now) x []) i }
{
    spots_at(spots, x).get(i).copied()
}

/// The i-th spot of an element in one list, from 0; where it has no more than i there, how many are left.
fn spot_in(list: u32, row: &[u32], x: u32, i: u32) -> Result<Spot, u32>
    requires { length row.now < 2 ^ 32 }
    ensures { MatchResult result (λ spot. slice_get (spots_in list 0 row.now x) i ≡ Some spot)
        (λ left. i ≡ length (spots_in list 0 row.now x) + left) }
{
    let mut left = i;
    for (j, y) in row.iter().enumerate() {
        if *y == x {
            if left == 0 {
                return Ok(Spot {
                    list,
                    place: j as u32,
                });
            }
            left -= 1;
        }
    }
    Err(left)
}

/// The i-th spot of an element, from 0, in order of lists; none past the last. It looks for it among all
/// places.
pub fn spot_among(places: &Rows<u32>, x: u32, i: u32) -> Option<Spot>
    requires whole { IsCut places.now }
    requires few { length (rows_of places.now) < 2 ^ 32 }
    requires short { (l : ℕ) → length (row (rows_of places.now) l) < 2 ^ 32 }
    ensures { result ≡ slice_get (spots_of (rows_of places.now) x) i }
{
    let mut left = i;
    for list in 0..places.ends.len() {
        match spot_in(list as u32, places.row(list), x, left) {
            Ok(spot) => return Some(spot),
            Err(more) => left = more,
        }
    }
    None
}

/// How often an element stands in one list.
fn count_in(row: &[u32], x: u32) -> u32
    requires { length row.now < 2 ^ 32 }
    ensures { (list : ℕ) → result ≡ length (spots_in list 0 row.now x) }
{
    let mut count = 0;
    for y in row {
        if *y == x {
            count += 1;
        }
    }
    count
}

/// How many spots an element has. It goes through all places once.
pub fn count_of_spots(places: &Rows<u32>, x: u32) -> u32
    requires whole { IsCut places.now }
    requires short { (l : ℕ) → length (row (rows_of places.now) l) < 2 ^ 32 }
    requires count { length (spots_of (rows_of places.now) x) < 2 ^ 32 }
    ensures { result ≡ length (spots_of (rows_of places.now) x) }
{
    let mut count = 0;
    for list in 0..places.ends.len() {
        count += count_in(places.row(list), x);
    }
    count
}
