//! The depths of the elements in a row of layers.

ghost use Rattle.std.specs.Prelude.{◌≡◌, ◌≤◌, All, IfOk, length};
ghost use Rattle.bit_tables.specs.Rule.{HaveDepths};
ghost use Rattle.cert_check.specs.RowDepths.{IsUnset};

use super::guesses::Guesses;
use events::Memory;
use std::alloc::Global;

/// The depths of the elements in a row, and the numbers of those that have one. It serves the rows of a
/// certificate one after the other: so a row costs what it notes, and not all elements.
#[derive(Drop)]
pub struct RowDepths {
    pub depths: Vec<u32>,
    pub noted: Vec<u32>,
    /// They stay from row to row.
    pub guesses: Guesses,
}

impl RowDepths {
    /// No depth for any of so many elements: each has the value that stands for none.
    pub fn new(alloc: Global, count: usize, unset: u32) -> Result<RowDepths, Memory>
        ensures { IfOk result (IsUnset count unset) }
    {
        let depths = Vec::from_elem(alloc, unset, count)?;
        let guesses = Guesses::new(alloc, count)?;
        Ok(RowDepths {
            depths,
            noted: Vec::new(alloc),
            guesses,
        })
    }

    /// Takes back what was noted, in a step for each noted number.
    pub fn clear(&mut self, unset: u32)
        requires noted { HaveDepths self.old.depths.items unset self.old.noted.items }
        requires most { All (λ d. d ≤ unset) self.old.depths.items }
        ensures { IsUnset (length self.old.depths.items) unset self.new }
    {
        take_back(&mut self.depths, &self.noted, unset);
        self.noted.clear();
    }
}

/// Makes each depth unset again, where the numbers of those that are not are known.
fn take_back(depths: &mut [u32], noted: &[u32], unset: u32)
    requires noted { HaveDepths depths.old unset noted.now }
    requires most { All (λ d. d ≤ unset) depths.old }
    ensures len { length depths.new ≡ length depths.old }
    ensures unset { All (λ d. d ≡ unset) depths.new }
{
    for number in noted {
        depths[*number as usize] = unset;
    }
}
