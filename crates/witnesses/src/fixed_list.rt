//! A list that its maker fills, and that nobody changes.

use std::marker::Model;

/// A list of values, filled when it is made. Places in it count from 0.
#[derive(Drop)]
pub struct FixedList<T: Drop> {
    items: Vec<T>,
}

impl<T: Drop> Model for FixedList<T> {
    ghost use Rattle.std.specs.Prelude.{List};

    ghost Value = { List T };

    ghost view = { λ l. l.items.items };
}

impl<T: Drop> FixedList<T> {
    ghost use Rattle.std.specs.Prelude.{◌≡◌, length, option_copied, slice_get};

    /// The list of these. It takes no memory.
    pub fn from_items(items: Vec<T>) -> FixedList<T>
        ensures { result ≡ items.items }
    {
        FixedList { items }
    }

    /// The values, in their order.
    pub fn items(&self) -> &[T]
        ensures { result.now ≡ self.now }
    {
        self.items.as_slice()
    }

    /// The values, given back as the vector that holds them. It takes no memory.
    pub fn into_items(self) -> Vec<T>
        ensures { result.items ≡ self }
    {
        let FixedList { items: kept } = self;
        kept
    }

    /// How many there are.
    pub fn len(&self) -> usize
        ensures { result ≡ length self.now }
    {
        self.items.len()
    }

    /// The value at a place, counted from 0; none past the end.
    pub fn get(&self, i: usize) -> Option<&T>
        ensures { option_copied result ≡ slice_get self.now i }
    {
        self.items.get(i)
    }
}
