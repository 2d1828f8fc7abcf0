//! The count of looks: at places of lists, at elements that are expanded, or at rows of a table.

ghost use Rattle.std.specs.Prelude.{◌≡◌, ◌+◌, ◌≤◌, min, ℕ};
ghost use Rattle.order_graph.specs.Lists.{ticked};

use std::marker::Model;

/// How many looks there were. It counts from 0, and stays at 18446744073709551615 once it is there.
#[derive(Drop)]
pub struct Looked {
    count: u64,
}

impl Model for Looked {
    ghost Value = { ℕ };

    ghost view = { λ a. a.count };
}

impl Looked {
    /// A count of 0.
    pub fn new() -> Looked
        ensures { result ≡ 0 }
    {
        Looked { count: 0 }
    }

    /// The count so far.
    pub fn count(&self) -> u64
        ensures { result ≡ self.now }
    {
        self.count
    }

    /// Counts one look more: at a place, at an element that is expanded, or at a row of a table.
    pub fn expand(&mut self)
        ensures ticked { self.new ≡ ticked self.old }
        ensures forward { self.old ≤ self.new }
    {
        self.count = self.count.saturating_add(1);
    }

    /// Counts so many looks more.
    pub fn add(&mut self, looks: u64)
        ensures added { self.new ≡ min (self.old + looks) 18446744073709551615 }
        ensures small { self.old ≤ 18446744073709551615 }
    {
        self.count = self.count.saturating_add(looks);
    }
}
