//! Words of bits.

ghost use Rattle.std.specs.Prelude.{◌≡◌, ◌<◌, ◌≤◌, ◌-◌, ◌^◌, ◌↔◌, ℕ, IsTrue, bit_or, length, slice_index};
ghost use Rattle.bit_tables.specs.Sets.{Has};

/// Adds the bits of `other` to those of `into`, word by word from the word `first` on.
pub fn or_words(into: &mut [u64], other: &[u64], first: usize)
    requires { length into.old ≡ length other.now }
    ensures len { length into.new ≡ length into.old }
    ensures joined { (k : ℕ) → first ≤ k → k < length into.old →
        slice_index into.new k ≡ bit_or (slice_index into.old k) (slice_index other.now k) }
{
    'words: for k in first..other.len() {
        into[k] |= other[k];
    }
}

/// Whether `b` has each bit that `a` has.
pub fn is_within(a: &[u64], b: &[u64]) -> bool
    requires { length a.now ≡ length b.now }
    ensures { IsTrue result ↔ ((x : ℕ) → Has a.now x → Has b.now x) }
{
    'words: for k in 0..a.len() {
        if a[k] & b[k] != a[k] {
            return false;
        }
    }
    true
}

/// Makes each word 0.
pub fn empty(words: &mut [u64])
    ensures len { length words.new ≡ length words.old }
    ensures zero { (k : ℕ) → slice_index words.new k ≡ 0 }
{
    for word in words.iter_mut() {
        *word = 0;
    }
}

/// Makes each bit of so many first words 1.
pub fn fill(words: &mut [u64], count: usize)
    requires { count ≤ length words.old }
    ensures len { length words.new ≡ length words.old }
    ensures full { (k : ℕ) → k < count → slice_index words.new k ≡ 2 ^ 64 - 1 }
    ensures rest { (k : ℕ) → count ≤ k → slice_index words.new k ≡ slice_index words.old k }
{
    'words: for k in 0..count {
        words[k] = u64::MAX;
    }
}
