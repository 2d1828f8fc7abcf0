//! What a search writes on: marks, what is reached, and the queue.

ghost use Rattle.std.specs.Prelude.{◌≡◌, ℕ, ◌+◌, ◌<◌, ◌≤◌, true, vec_len};
ghost use Rattle.list_search.specs.Progress.{Grows, IsQueued, IsReached, StaysQueued};

/// Where a search is.
///
/// There is one mark for each list, and one flag `seen` for each element. The queue has place for each
/// element: its first `tail` are those reached, in the order in which they were. `found` says whether the
/// source was reached again.
#[derive(Drop)]
pub struct State {
    pub marks: Vec<u32>,
    pub seen: Vec<bool>,
    pub queue: Vec<u32>,
    pub tail: usize,
    pub found: bool,
}

impl State {
    /// Puts an element into the queue, if it is new.
    pub fn reach(&mut self, y: u32)
        requires known { y < vec_len self.old.seen }
        requires queued { IsQueued self.old }
        ensures queued { StaysQueued self.old self.new }
        ensures grows { Grows (λ z. z ≡ y) y self.old self.new }
        ensures reached { IsReached self.new.queue.items self.new.tail y }
        ensures tail { self.new.tail ≤ self.old.tail + 1 }
        ensures found { self.new.found ≡ self.old.found }
        ensures marks { self.new.marks ≡ self.old.marks }
    {
        if self.seen[y as usize] {
            return;
        }
        self.seen[y as usize] = true;
        self.queue[self.tail] = y;
        self.tail += 1;
    }

    /// Takes note of an element that was read in a search from s.
    pub fn visit(&mut self, element: u32, y: u32)
        requires known { y < vec_len self.old.seen }
        requires queued { IsQueued self.old }
        ensures queued { StaysQueued self.old self.new }
        ensures grows { Grows (λ z. z ≡ y) element self.old self.new }
        ensures reached { IsReached self.new.queue.items self.new.tail y }
        ensures found { y ≡ element → self.new.found ≡ true }
        ensures marks { self.new.marks ≡ self.old.marks }
    {
        self.reach(y);
        if y == element {
            self.found = true;
        }
    }
}
