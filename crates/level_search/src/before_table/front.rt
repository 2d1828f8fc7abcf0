//! What is known of a list up to one of its places, while a table is made.

ghost use Rattle.std.specs.Prelude.{◌≡◌, ℕ, ◌+◌, ◌<◌, ◌≤◌, [], true, length};
ghost use Rattle.bit_tables.specs.Sets.{Has};

use bit_tables::BitSet;
use order_graph::Spot;

/// What is known of a list up to one of its places.
///
/// `before` has the elements that stand there, and `last` for each element where it stood last, in this list
/// or one before. Some of the elements stand in the list before too, in the same order, at places below
/// `next`; the others are `fresh`.
#[derive(Drop)]
pub struct Front {
    pub before: BitSet,
    pub fresh: Vec<u32>,
    pub last: Vec<Spot>,
    pub next: usize,
}

impl Front {
    /// Nothing is known of a list before its first place.
    pub fn begin(&mut self)
        ensures width { length self.new.before ≡ length self.old.before }
        ensures before { (x : ℕ) → ¬ Has self.new.before x }
        ensures fresh { self.new.fresh.items ≡ [] }
        ensures last { self.new.last ≡ self.old.last }
        ensures next { self.new.next ≡ 0 }
    {
        self.before.clear();
        self.fresh.clear();
        self.next = 0;
    }
}

/// Whether an element that stood here last stands in the list before this one, at this place or a later one.
pub fn goes_on(last: Spot, list: u32, next: usize) -> bool
    ensures { result ≡ true → (last.list + 1 ≡ list) × (last.list < u32.MAX) × (next ≤ last.place) }
{
    list > 0 && last.list == list - 1 && next <= last.place as usize
}
