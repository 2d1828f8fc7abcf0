//! Whether one list is a part of another.

ghost use Rattle.std.specs.Prelude.{ℕ, IsTrue};
ghost use Rattle.bit_tables.specs.Lists.{HasInOrder};

/// Whether the numbers of a list stand in another one in the same order, others perhaps between them. It takes
/// up to a step for each number of the other one.
pub fn is_part(list: &[u32], whole: &[u32]) -> bool
    ensures { IsTrue result → (a b : ℕ) → HasInOrder list.now a b → HasInOrder whole.now a b }
{
    let mut found = 0;
    for y in whole {
        if found < list.len() && list[found] == *y {
            found += 1;
        }
    }
    found == list.len()
}
