//! Where a search reads the bound on what it looks for.

ghost use Rattle.std.specs.Prelude.{◌≡◌, ◌≤◌, ◌+◌, ℕ};

/// Answers a bound on the length of cycles, which never rises: as the least length found so far.
///
/// A search reads it before each layer, so it may fall between two layers of one search. What the source
/// holds beside the bound stays as `reads` says, however often it is read. `read_times` says how often: a
/// search that is to serve any source can promise no number of readings but the one that it made.
pub trait BoundSource {
    // the answer that was given last; before the first, what none will be above
    ghost last: { Self → ℕ };

    // how a source may change by readings
    ghost reads: { Self → Self → Type 0 };

    // how it may change by just so many readings
    ghost read_times: { Self → ℕ → Self → Type 0 };

    /// The bound as it is now, at most what it was before.
    fn best(&mut self) -> u32
        ensures answer { last self.new ≡ result }
        ensures falls { result ≤ last self.old }
        ensures reads { reads self.old self.new }
        ensures times { read_times self.old 1 self.new };

    // no reading at all is one way to change, and two ways one after the other are one
    ghost reads_none: { (a : Self) → reads a a };

    ghost reads_more: { (a b c : Self) → reads a b → reads b c → reads a c };

    ghost times_none: { (a : Self) → read_times a 0 a };

    ghost times_more: { (a b c : Self) (m n : ℕ) → read_times a m b → read_times b n c
        → read_times a (m + n) c };
}
