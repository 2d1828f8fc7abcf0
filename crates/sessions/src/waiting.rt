//! What a replay does between two tries of a receipt whose operation is not there yet.
ghost use Rattle.std.specs.Prelude.{◌≡◌, ◌+◌, ◌<◌, ℕ};

use events::OpName;
use std::sync::Wait;
use std::thread;

/// Whom a replay tells of each operation that it has recorded, and asks to wait where one is not there yet.
pub trait Waiter {
    /// It was told that the replica has so many operations.
    ghost knows_of: { Self → ℕ → Type 0 };

    /// The replica has one operation more.
    fn recorded<R: Wait>(&mut self, rt: &R)
        ensures { (n : ℕ) → n < u32.MAX → knows_of self.old n → knows_of self.new (n + 1) };

    /// The receipt of this operation was tried so many times, 1 or more, and each time the operation was not
    /// there. Answers whether to try again, at once; else the replay stops.
    fn waits_for<R: Wait>(&mut self, rt: &R, lacking: OpName, tries: u32) -> bool
        ensures { (n : ℕ) → knows_of self.old n → knows_of self.new n };
}

/// Yields between two tries, of which there are so many.
#[derive(Drop)]
pub(crate) struct Yields {
    pub(crate) tries: u32,
}

impl Waiter for Yields {
    ghost use Rattle.std.specs.Prelude.{◌<◌};

    // It takes no notice.
    ghost knows_of = { λ w n. Unit {0} };

    fn recorded<R: Wait>(&mut self, _rt: &R) {}

    fn waits_for<R: Wait>(&mut self, _rt: &R, _lacking: OpName, tries: u32) -> bool {
        if tries >= self.tries {
            return false;
        }
        thread::yield_now();
        true
    }
}
