//! The spots of each number.

ghost use Rattle.std.specs.Prelude.{◌≡◌, ◌≢◌, ◌+◌, ◌<◌, ◌≤◌, ◌^◌, ◌++◌, ◌∷◌, ◌⊎◌, [], ℕ, All, Contains};
ghost use Rattle.std.specs.Prelude.{IfOk, OnOk, length, map, replicate, slice_index, vec_len};
ghost use Rattle.bit_tables.specs.Lists.{IsShown};
ghost use Rattle.element_numbers.specs.Cuts.{IsCut, rows_of};
ghost use Rattle.list_rule.specs.Spots.{AreSpotsOf, IsShownBy, IsSpotIn, row, spots_at};
ghost use Rattle.list_rule.specs.declared.spot.Spot.{Spot};

use super::kept::kept_lists;
use super::spot::Spot;
use element_numbers::Rows;
use events::Memory;
use std::alloc::Global;

/// How often each number stands in these lists: so much room its spots will take.
fn counts_in(alloc: Global, n: usize, places: &Rows<u32>, kept: &[u32]) -> Result<Vec<u32>, Memory>
    requires { IsCut places.now }
    ensures { IfOk result (λ counts. vec_len counts ≡ n) }
{
    let mut counts = vec![in alloc; 0u32; n]?;
    for list in kept {
        for x in places.row(*list as usize) {
            if let Some(count) = counts.get_mut(*x as usize) {
                *count = count.saturating_add(1);
            }
        }
    }
    Ok(counts)
}

/// An empty list for each count, with room for so many spots.
fn lists_with_room(alloc: Global, counts: &[u32]) -> Result<Vec<Vec<Spot>>, Memory>
    ensures count { IfOk result (λ lists. vec_len lists ≡ length counts.now) }
    ensures empty { IfOk result (λ lists. map (λ list. list.items) lists.items
        ≡ replicate (length counts.now) []) }
{
    let mut lists = Vec::with_capacity(alloc, counts.len())?;
    for count in counts {
        lists.push(Vec::with_capacity(alloc, *count as usize)?)?;
    }
    Ok(lists)
}

/// Adds a spot of a number.
fn add_spot(spots: &mut Vec<Vec<Spot>>, x: u32, spot: Spot) -> Result<(), Memory>
    requires { x < vec_len spots.old }
    ensures count { vec_len spots.new ≡ vec_len spots.old }
    ensures here { OnOk result (spots_at spots.new.items x ≡ spots_at spots.old.items x ++ spot ∷ []) }
    ensures others { OnOk result ((y : ℕ) → y ≢ x → spots_at spots.new.items y ≡ spots_at spots.old.items y) }
{
    spots[x as usize].push(spot)?;
    Ok(())
}

/// Adds the spots in one list.
fn add_list(spots: &mut Vec<Vec<Spot>>, list: u32, row: &[u32]) -> Result<(), Memory>
    requires known { All (λ x. x < vec_len spots.old) row.now }
    requires short { length row.now < 2 ^ 32 }
    ensures count { vec_len spots.new ≡ vec_len spots.old }
    ensures old { OnOk result ((x : ℕ) (q : Spot) → Contains (spots_at spots.old.items x) q
        → Contains (spots_at spots.new.items x) q) }
    ensures new { OnOk result ((p : ℕ) → p < length row.now
        → Contains (spots_at spots.new.items (slice_index row.now p)) (record { list = list; place = p })) }
    ensures only { OnOk result ((x : ℕ) (q : Spot) → Contains (spots_at spots.new.items x) q
        → Contains (spots_at spots.old.items x) q ⊎ IsSpotIn list row.now x q) }
{
    for (place, x) in row.iter().enumerate() {
        add_spot(
            spots,
            *x,
            Spot {
                list,
                place: place as u32,
            },
        )?;
    }
    Ok(())
}

/// The spots of each number below `n` in some of the lists, which show all that the lists show. They are
/// counted first, so that none has to move. It takes a step for each place and each number.
pub fn all_spots(alloc: Global, n: usize, places: &Rows<u32>) -> Result<Vec<Vec<Spot>>, Memory>
    requires cut { IsCut places.now }
    requires few { length (rows_of places.now) < 2 ^ 32 }
    requires short { (l : ℕ) → length (row (rows_of places.now) l) < 2 ^ 32 }
    requires within { All (λ list. All (λ x. x < n) list) (rows_of places.now) }
    ensures { IfOk result (λ spots. AreSpotsOf n (rows_of places.now) spots.items) }
{
    let kept = kept_lists(alloc, places)?;
    let counts = counts_in(alloc, n, places, kept.as_slice())?;
    let mut spots = lists_with_room(alloc, counts.as_slice())?;
    for list in &kept {
        add_list(&mut spots, *list, places.row(*list as usize))?;
    }
    Ok(spots)
}

/// The spots of a number; none of one that is not below `n`.
pub fn spots_of(spots: &[Vec<Spot>], x: u32) -> &[Spot]
    ensures { result.now ≡ spots_at spots.now x }
{
    match spots.get(x as usize) {
        None => &[],
        Some(spots) => spots.as_slice(),
    }
}
