//! A few numbers, out of many, for a set.

ghost use Rattle.std.specs.Prelude.{◌≡◌, ℕ, ◌⊎◌, Contains, length};
ghost use Rattle.bit_tables.specs.Sets.{Has};

use super::bits::BitSet;

/// The most numbers that are added to a set one by one.
const FEW: usize = 64;

/// Adds some of these to a set, and the few at least: the few one by one, or all where they are many.
pub fn add_few(set: &mut BitSet, few: &[u32], all: &BitSet)
    requires width { length set.old ≡ length all.now }
    requires within { (y : ℕ) → Contains few.now y → Has all.now y }
    ensures len { length set.new ≡ length set.old }
    ensures kept { (y : ℕ) → Has set.old y → Has set.new y }
    ensures few { (y : ℕ) → Contains few.now y → Has set.new y }
    ensures only { (y : ℕ) → Has set.new y → Has set.old y ⊎ Has all.now y }
{
    if few.len() > FEW {
        set.union_with(all);
        return;
    }
    for y in few {
        set.insert(*y as usize);
    }
}
