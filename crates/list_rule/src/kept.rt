//! Lists that show all that others show.

ghost use Rattle.std.specs.Prelude.{◌≡◌, ◌<◌, ◌≤◌, ◌^◌, ◌⊎◌, ℕ, Contains, IfOk, OnOk, length, true};
ghost use Rattle.bit_tables.specs.Lists.{HasInOrder, IsShown};
ghost use Rattle.element_numbers.specs.Cuts.{IsCut, rows_of};
ghost use Rattle.list_rule.specs.Spots.{IsShownBy, row};

use super::parts::is_part;
use element_numbers::Rows;
use events::Memory;
use std::alloc::Global;

/// Whether a list is a part of the last that is kept.
fn is_part_of_last(kept: &[u32], places: &Rows<u32>, list: u32) -> bool
    requires { IsCut places.now }
    ensures { result ≡ true → (a b : ℕ) → HasInOrder (row (rows_of places.now) list) a b
        → IsShownBy (rows_of places.now) kept.now a b }
{
    match kept.last() {
        None => false,
        Some(last) => is_part(places.row(list as usize), places.row(*last as usize)),
    }
}

/// Lets the last go that is kept, where it is a part of this list.
fn let_go(kept: &mut Vec<u32>, places: &Rows<u32>, list: u32)
    requires { IsCut places.now }
    ensures known { (l : ℕ) → Contains kept.new.items l → Contains kept.old.items l }
    ensures shown { (a b : ℕ) → IsShownBy (rows_of places.now) kept.old.items a b
        → IsShownBy (rows_of places.now) kept.new.items a b ⊎ HasInOrder (row (rows_of places.now) list) a b }
{
    let count = kept.len();
    if count == 0 {
        return;
    }
    let last = kept[count - 1];
    if is_part(places.row(last as usize), places.row(list as usize)) {
        let _ = kept.pop();
    }
}

/// Keeps one more list, unless it is a part of the last that is kept; and lets that go where it is a part of
/// the new one.
fn keep(kept: &mut Vec<u32>, places: &Rows<u32>, list: u32) -> Result<(), Memory>
    requires { IsCut places.now }
    ensures known { OnOk result ((l : ℕ) → Contains kept.new.items l
        → Contains kept.old.items l ⊎ (l ≡ list)) }
    ensures shown { OnOk result ((a b : ℕ)
        → IsShownBy (rows_of places.now) kept.old.items a b ⊎ HasInOrder (row (rows_of places.now) list) a b
        → IsShownBy (rows_of places.now) kept.new.items a b) }
{
    if is_part_of_last(kept, places, list) {
        return Ok(());
    }
    let_go(kept, places, list);
    kept.push(list)?;
    Ok(())
}

/// Some of the lists, by their numbers, that show all that the lists do: of neighbours one is let go that is a
/// part of the other. Each list is compared with the last that is kept, in a step for each place of both.
pub fn kept_lists(alloc: Global, places: &Rows<u32>) -> Result<Vec<u32>, Memory>
    requires cut { IsCut places.now }
    requires few { length (rows_of places.now) < 2 ^ 32 }
    ensures known { IfOk result (λ kept. (l : ℕ) → Contains kept.items l → l < length (rows_of places.now)) }
    ensures shown { IfOk result (λ kept. (a b : ℕ) → IsShown (rows_of places.now) a b
        → IsShownBy (rows_of places.now) kept.items a b) }
{
    let mut kept = Vec::new(alloc);
    for list in 0..places.ends.len() {
        keep(&mut kept, places, list as u32)?;
    }
    Ok(kept)
}
