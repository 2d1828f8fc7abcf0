//! Sets of numbers, a bit each.

ghost use Rattle.std.specs.Prelude.{◌≡◌, ◌<◌, ◌≤◌, ◌+◌, ◌*◌, ◌/◌, ◌%◌, ◌⊎◌, ◌↔◌, ℕ, IfOk, IfSome, IfNone};
ghost use Rattle.std.specs.Prelude.{IsTrue, true, List, length, slice_index};
ghost use Rattle.bit_tables.specs.Sets.{Has, room};
ghost use Rattle.bit_tables.specs.Ways.{AreThoseBelow};

use super::words::{empty, fill, is_within, or_words};
use std::alloc::{AllocError, Global};
use std::marker::Model;

/// A set of numbers below a bound, a bit each.
#[derive(Drop)]
pub struct BitSet {
    words: Vec<u64>,
}

/// Its words. What they have is `Has`.
impl Model for BitSet {
    ghost Value = { List ℕ };

    ghost view = { λ s. s.words.items };
}

impl BitSet {
    /// The empty set, with room for the numbers up to `n`.
    pub fn new(alloc: Global, n: usize) -> Result<BitSet, AllocError>
        ensures len { IfOk result (λ s. length s ≡ n / 64 + 1) }
        ensures empty { IfOk result (λ s. (x : ℕ) → ¬ Has s x) }
    {
        let words = Vec::from_elem(alloc, 0u64, n / 64 + 1)?;
        Ok(BitSet { words })
    }

    /// Adds a number.
    pub fn insert(&mut self, n: usize)
        requires { n < room self.old }
        ensures len { length self.new ≡ length self.old }
        ensures has { (x : ℕ) → Has self.new x ↔ (Has self.old x ⊎ (x ≡ n)) }
    {
        let word = self.words[n / 64];
        self.words[n / 64] = word | 1u64 << (n % 64);
    }

    /// Adds the numbers below `n`. It takes a step for each 64 of them, and at most 63 more.
    pub fn add_below(&mut self, n: usize)
        requires { n ≤ room self.old }
        ensures len { length self.new ≡ length self.old }
        ensures has { (x : ℕ) → Has self.new x ↔ (Has self.old x ⊎ (x < n)) }
    {
        self.add_words(n / 64);
        for x in n / 64 * 64..n {
            self.insert(x);
        }
    }

    /// Adds the 64 numbers of each of so many first words.
    fn add_words(&mut self, count: usize)
        requires { count ≤ length self.old }
        ensures len { length self.new ≡ length self.old }
        ensures has { (x : ℕ) → Has self.new x ↔ (Has self.old x ⊎ (x / 64 < count)) }
    {
        fill(&mut self.words, count);
    }

    /// Whether it has a number.
    pub fn contains(&self, n: usize) -> bool
        ensures { IsTrue result ↔ Has self.now n }
    {
        if n / 64 < self.words.len() {
            self.words[n / 64] >> (n % 64) & 1 == 1
        } else {
            false
        }
    }

    /// Adds what the other set has.
    pub fn union_with(&mut self, other: &BitSet)
        requires { length self.old ≡ length other.now }
        ensures len { length self.new ≡ length self.old }
        ensures has { (x : ℕ) → Has self.new x ↔ (Has self.old x ⊎ Has other.now x) }
    {
        self.union_from(other, 0);
    }

    /// Adds what the other set has from a number on. Below that number nothing is promised of the set.
    pub fn union_from(&mut self, other: &BitSet, first: usize)
        requires { length self.old ≡ length other.now }
        ensures len { length self.new ≡ length self.old }
        ensures has { (x : ℕ) → first ≤ x → Has self.new x ↔ (Has self.old x ⊎ Has other.now x) }
    {
        or_words(&mut self.words, &other.words, first / 64);
    }

    /// Whether the other set has all that this one has.
    pub fn is_subset(&self, other: &BitSet) -> bool
        requires { length self.now ≡ length other.now }
        ensures { IsTrue result ↔ ((x : ℕ) → Has self.now x → Has other.now x) }
    {
        is_within(&self.words, &other.words)
    }

    /// Takes every number out.
    pub fn clear(&mut self)
        ensures len { length self.new ≡ length self.old }
        ensures empty { (x : ℕ) → ¬ Has self.new x }
    {
        empty(&mut self.words);
    }

    /// Whether there is room for a number.
    pub fn has_room(&self, n: usize) -> bool
        ensures { IsTrue result ↔ n < room self.now }
    {
        n / 64 < self.words.len()
    }

    /// The greatest number below `n` that this set has and the other has not.
    pub fn last_of_difference(&self, other: &BitSet, n: u32) -> Option<u32>
        ensures some { IfSome result (λ x. (x < n) × Has self.now x × (¬ Has other.now x)) }
        ensures last { IfSome result (λ x. (y : ℕ) → x < y → y < n → Has self.now y → Has other.now y) }
        ensures none { IfNone result ((y : ℕ) → y < n → Has self.now y → Has other.now y) }
    {
        for word in (0..n / 64 + 1).rev() {
            if !self.is_word_within(other, word) {
                let found = self.last_in_word(other, word, n);
                if found.is_some() {
                    return found;
                }
            }
        }
        None
    }

    /// The bits of the 64 numbers of a word; 0 past the last word.
    fn word(&self, word: u32) -> u64
        ensures { result ≡ slice_index self.now word }
    {
        match self.words.get(word as usize) {
            Some(bits) => *bits,
            None => 0,
        }
    }

    /// Whether the other set has what this one has of the numbers of a word.
    fn is_word_within(&self, other: &BitSet, word: u32) -> bool
        ensures { result ≡ true → (y : ℕ) → y / 64 ≡ word → Has self.now y → Has other.now y }
    {
        let bits = self.word(word);
        bits & other.word(word) == bits
    }

    /// The greatest number of a word, below `n`, that this set has and the other has not.
    fn last_in_word(&self, other: &BitSet, word: u32, n: u32) -> Option<u32>
        ensures some { IfSome result (λ x. (x < n) × (x / 64 ≡ word) × Has self.now x × (¬ Has other.now x)) }
        ensures last { IfSome result (λ x. (y : ℕ) → x < y → y < n → y / 64 ≡ word → Has self.now y
            → Has other.now y) }
        ensures none { IfNone result ((y : ℕ) → y < n → y / 64 ≡ word → Has self.now y → Has other.now y) }
    {
        for i in (0..64u64).rev() {
            let x = word as u64 * 64 + i;
            if x < n as u64 && self.contains(x as usize) && !other.contains(x as usize) {
                return Some(x as u32);
            }
        }
        None
    }
}

impl BitSet {
    /// The least number from `from` on and below `n` that this set has and the other has not. It takes a step
    /// for each word that it passes over.
    pub fn first_of_difference(&self, other: &BitSet, from: u32, n: u32) -> Option<u32>
        ensures some { IfSome result (λ x. (from ≤ x) × (x < n) × Has self.now x × (¬ Has other.now x)) }
        ensures first { IfSome result (λ x. (y : ℕ) → from ≤ y → y < x → Has self.now y → Has other.now y) }
        ensures none { IfNone result ((y : ℕ) → from ≤ y → y < n → Has self.now y → Has other.now y) }
    {
        let mut place = from % 64;
        'words: for word in from / 64..n / 64 + 1 {
            if let Some(x) = self.first_in_word(other, word, place) {
                return if x < u64::from(n) {
                    Some(x as u32)
                } else {
                    None
                };
            }
            place = 0;
        }
        None
    }

    /// The least of the 64 numbers of a word, from a place among them on, that this set has and the other has
    /// not.
    #[inline(always)]
    fn first_in_word(&self, other: &BitSet, word: u32, place: u32) -> Option<u64>
        requires { place < 64 }
        ensures some { IfSome result (λ x. (x / 64 ≡ word) × (place ≤ x % 64) × Has self.now x
            × (¬ Has other.now x)) }
        ensures first { IfSome result (λ x. (y : ℕ) → y / 64 ≡ word → place ≤ y % 64 → y < x → Has self.now y
            → Has other.now y) }
        ensures none { IfNone result ((y : ℕ) → y / 64 ≡ word → place ≤ y % 64 → Has self.now y
            → Has other.now y) }
    {
        let bits = self.word(word);
        let lacking = bits & !other.word(word);
        let rest = lacking >> place;
        if rest == 0 {
            return None;
        }
        Some(64 * u64::from(word) + u64::from(place) + u64::from(rest.trailing_zeros()))
    }

    /// The numbers below `n` that this set has and the other has not, in rising order. It takes a step for
    /// each word and one for each of them.
    pub fn difference(&self, alloc: Global, other: &BitSet, n: u32) -> Result<Vec<u32>, AllocError>
        ensures { IfOk result (λ v. AreThoseBelow (λ x. Has self.now x × (¬ Has other.now x)) n v.items) }
    {
        self.difference_from(alloc, other, 0, n)
    }

    /// The same, where the other set has what this one has of the numbers below `first`, which are not looked
    /// at.
    pub fn difference_from(
        &self,
        alloc: Global,
        other: &BitSet,
        first: u32,
        n: u32,
    ) -> Result<Vec<u32>, AllocError>
        requires within { first ≤ n }
        requires none { (y : ℕ) → y < first → Has self.now y → Has other.now y }
        ensures { IfOk result (λ v. AreThoseBelow (λ x. Has self.now x × (¬ Has other.now x)) n v.items) }
    {
        let mut numbers = Vec::new(alloc);
        let mut from = first;
        'numbers: while let Some(x) = self.first_of_difference(other, from, n) {
            numbers.push(x)?;
            from = x + 1;
        }
        Ok(numbers)
    }
}
