//! Guesses at the numbers of names, so that most names of a row are found without a search.

use events::Memory;
use std::alloc::Global;

/// How many slots there are for each element.
const SLOTS: usize = 4;

/// What was found of names before, kept in two ways. Both give guesses: a number is believed only where its
/// element has the name.
#[derive(Drop)]
pub struct Guesses {
    /// For each number the one that a name had last where this one was likely, and was not its own. Names
    /// mostly follow one another as in an earlier row.
    instead: Vec<u32>,
    /// The number that a name had last, by its bytes, where it was not the likely one. Names share slots, and
    /// who writes the trace can choose names that share one.
    slots: Vec<u32>,
}

impl Guesses {
    /// Room for guesses at the numbers of so many elements, 20 bytes each.
    pub fn new(alloc: Global, count: usize) -> Result<Guesses, Memory> {
        let instead = Vec::from_elem(alloc, 0u32, count)?;
        let slots = Vec::from_elem(alloc, 0u32, count.saturating_mul(SLOTS))?;
        Ok(Guesses { instead, slots })
    }

    /// No guess.
    pub fn none(alloc: Global) -> Guesses {
        Guesses {
            instead: Vec::new(alloc),
            slots: Vec::new(alloc),
        }
    }

    /// The number that a name had last where this one was likely.
    pub fn instead_of(&self, likely: u32) -> u32 {
        match self.instead.get(likely as usize) {
            Some(number) => *number,
            None => likely,
        }
    }

    /// The number that this name probably had last, or this one where none is known.
    pub fn last_of(&self, word: &[u8], likely: u32) -> u32 {
        match self.slots.get(slot_of(word, self.slots.len())) {
            Some(number) => *number,
            None => likely,
        }
    }

    /// Notes the number of a name where another one was likely.
    pub fn note(&mut self, likely: u32, word: &[u8], number: u32) {
        if number == likely {
            return;
        }
        if let Some(last) = self.instead.get_mut(likely as usize) {
            *last = number;
        }
        let slot = slot_of(word, self.slots.len());
        if let Some(last) = self.slots.get_mut(slot) {
            *last = number;
        }
    }
}

/// The slot of a name, of so many.
fn slot_of(word: &[u8], count: usize) -> usize {
    let mut mixed = 0u64;
    for byte in word {
        mixed = mixed
            .wrapping_mul(2_862_933_555_777_941_757)
            .wrapping_add(u64::from(*byte));
    }
    let high = mixed.wrapping_mul(11_400_714_819_323_198_485) >> 32;
    (high.wrapping_mul(count as u64) >> 32) as usize
}
