//! The numbers of names: their places in the order of the inserting operations' names.

ghost use Rattle.std.specs.Prelude.{◌≡◌, ◌≢◌, ◌<◌, ◌^◌, ◌==◌, AllPairs, IfOk, length, unwrap_or};
ghost use Rattle.std.specs.Cmp.Lexicographic.{pointwise};
ghost use Rattle.indexmap.specs.IndexMap.{get, hasher_of};
ghost use Rattle.events.specs.Names.{NameBytes};
ghost use Rattle.specification.specs.Elements.{number_in};
ghost use Rattle.element_numbers.specs.Keys.{key_of};

use super::name_key::NameKey;
use events::{Memory, Name};
use indexmap::IndexMap;
use std::alloc::Global;

/// A number for each name, in a map that hashes by the names that are in it.
pub type NameNumbers = IndexMap<Name, usize, NameKey>;

/// Each name with its number, its place among these names. It takes memory and time linear in the names.
pub fn numbers_of(alloc: Global, names: &[Name]) -> Result<NameNumbers, Memory>
    requires distinct { AllPairs (λ a b. a ≢ b) names.now }
    requires few { length names.now < 2 ^ 32 }
    ensures numbers { IfOk result (λ m. (a : NameBytes) → get (pointwise ◌==◌) m a ≡ number_in names.now a) }
    ensures keyed { IfOk result (λ m. hasher_of m ≡ key_of names.now) }
{
    let mut numbers = IndexMap::with_capacity_and_hasher(alloc, names.len(), NameKey::of(names))?;
    for (i, name) in names.iter().enumerate() {
        numbers.insert(*name, i)?;
    }
    Ok(numbers)
}

/// The number of a name; for one that is not among these their count. It asks the map once.
pub fn number_or_count(names: &[Name], numbers: &NameNumbers, name: &Name) -> u32
    requires numbered { (a : NameBytes) → get (pointwise ◌==◌) numbers.now a ≡ number_in names.now a }
    requires few { length names.now < 2 ^ 32 }
    ensures { result ≡ unwrap_or (number_in names.now name.now) (length names.now) }
{
    match numbers.get(name) {
        Some(number) => *number as u32,
        None => names.len() as u32,
    }
}
