//! A total order of the elements.

use events::Name;
use std::marker::Model;

/// A list of names: where `order` answers it, all elements, the first of the order first. Places in it count
/// from 0.
#[derive(Drop)]
pub struct Order {
    names: Vec<Name>,
}

impl Model for Order {
    ghost use Rattle.std.specs.Prelude.{List, ℕ, All};
    ghost use Rattle.events.specs.Names.{IsName};

    ghost Value = { List (List ℕ) };

    ghost view = { λ o. o.names.items };

    ghost invariant = { λ o. All IsName o.names.items };
}

impl Order {
    ghost use Rattle.std.specs.Prelude.{◌≡◌, length, slice_get, option_copied, All};
    ghost use Rattle.events.specs.Names.{IsName};

    /// The order with these names. It takes no memory, and time in the number of names.
    pub fn from_names(names: Vec<Name>) -> Order
        ensures { result ≡ names.items }
    {
        for name in &names {
            let _ = name.bytes();
        }
        Order { names }
    }

    /// The names, in their order.
    pub fn names(&self) -> &[Name]
        ensures { result.now ≡ self.now }
    {
        self.names.as_slice()
    }

    /// The names, given back as the vector that holds them. It takes no memory.
    pub fn into_names(self) -> Vec<Name>
        ensures { result.items ≡ self }
    {
        let Order { names: kept } = self;
        kept
    }

    /// How many names there are.
    pub fn len(&self) -> usize
        ensures value { result ≡ length self.now }
        ensures names { All IsName self.now }
    {
        self.names.len()
    }

    /// The name at a place, counted from 0; none past the end.
    pub fn get(&self, i: usize) -> Option<&Name>
        ensures { option_copied result ≡ slice_get self.now i }
    {
        self.names.get(i)
    }
}
