//! What is left of lists of numbers where some elements alone are kept, and are numbered anew.

ghost use Rattle.std.specs.Prelude.{◌≡◌, ◌≢◌, ℕ, ◌<◌, ◌^◌, ◌++◌, [], All, AllPairs, IfOk, OnOk, Option};
ghost use Rattle.std.specs.Prelude.{length, map};
ghost use Rattle.order_graph.specs.Renumbered.{numbers_left};
ghost use Rattle.order_graph.specs.Lists.{row};
ghost use Rattle.element_numbers.specs.Cuts.{rows_of, IsCut};
ghost use Rattle.specification.specs.Elements.{number_in};
ghost use Rattle.order_graph.specs.Kept.{names_at};
ghost use Rattle.std.specs.List.{cons_option};

use element_numbers::Rows;
use events::{Memory, Name};
use std::alloc::Global;

/// The names with these numbers.
pub fn names_kept(alloc: Global, names: &[Name], kept: &[u32]) -> Result<Vec<Name>, Memory>
    requires { All (λ x. x < length names.now) kept.now }
    ensures { IfOk result (λ v. v.items ≡ names_at names.now kept.now) }
{
    let mut some = Vec::new(alloc);
    for x in kept {
        some.push(names[*x as usize])?;
    }
    Ok(some)
}

/// The place of a name among these; none where it is not among them. It looks at them in turn.
fn place_of(names: &[Name], name: &Name) -> Option<usize>
    ensures { result ≡ number_in names.now name.now }
{
    names.iter().position(|other| name == other)
}

/// The number of a name among these; none where it is not among them. It looks at them in turn.
pub fn number_of(names: &[Name], name: &Name) -> Option<u32>
    requires { length names.now < 2 ^ 32 }
    ensures { result ≡ number_in names.now name.now }
{
    match place_of(names, name) {
        Some(place) => Some(place as u32),
        None => None,
    }
}

/// The new number of each of these names, where those with the kept numbers are numbered anew, in the same
/// order; none where it is not kept.
pub fn new_numbers(alloc: Global, names: &[Name], kept: &[u32]) -> Result<Vec<Option<u32>>, Memory>
    requires distinct { AllPairs (λ a b. a ≢ b) names.now }
    requires few { length names.now < 2 ^ 32 }
    requires rising { AllPairs (λ x y. x < y) kept.now }
    requires known { All (λ x. x < length names.now) kept.now }
    ensures { IfOk result (λ v. v.items ≡ map (number_in (names_at names.now kept.now)) names.now) }
{
    let mut anew = Vec::from_elem(alloc, None, names.len())?;
    for (i, x) in kept.iter().enumerate() {
        anew[*x as usize] = Some(i as u32);
    }
    Ok(anew)
}

/// Adds a number, if there is one.
fn add_number(items: &mut Vec<u32>, number: Option<u32>) -> Result<(), Memory>
    ensures { OnOk result (items.new.items ≡ items.old.items ++ cons_option number []) }
{
    if let Some(number) = number {
        items.push(number)?;
    }
    Ok(())
}

/// Adds the new numbers of those in a row that have one.
fn add_left(items: &mut Vec<u32>, row: &[u32], anew: &[Option<u32>]) -> Result<(), Memory>
    requires { All (λ x. x < length anew.now) row.now }
    ensures { OnOk result (items.new.items ≡ items.old.items ++ numbers_left anew.now row.now) }
{
    for x in row {
        add_number(items, anew[*x as usize])?;
    }
    Ok(())
}

/// What is left of each row, in new numbers.
pub fn places_left(
    alloc: Global,
    places: &Rows<u32>,
    anew: &[Option<u32>],
) -> Result<Rows<u32>, Memory>
    requires whole { IsCut places.now }
    requires known { (l : ℕ) → All (λ x. x < length anew.now) (row (rows_of places.now) l) }
    ensures cut { IfOk result (λ t. IsCut t) }
    ensures rows { IfOk result (λ t. rows_of t ≡ map (numbers_left anew.now) (rows_of places.now)) }
{
    let mut left = Rows::new(alloc);
    for list in 0..places.ends.len() {
        add_left(&mut left.items, places.row(list), anew)?;
        left.end_row()?;
    }
    Ok(left)
}
