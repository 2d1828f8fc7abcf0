//! The numbers of names that were looked up lately, or that an operation just seen inserts, so that they are
//! found without a look into the map.

ghost use Rattle.std.specs.Prelude.{◌≡◌, ◌<◌, ◌^◌};
ghost use Rattle.contents_check.specs.Known.{number_of, AreNumbered};

use super::changes::Change;
use super::elements::Elements;
use events::{Memory, Name};
use std::alloc::Global;

/// How many numbers are kept at most.
const SLOTS: usize = 1024;

/// For each slot the number of an element whose name was looked up lately. Names share slots, so a number
/// is believed only where its element has the name. The mask is one less than the number of slots, a power of
/// two.
#[derive(Drop)]
pub struct Recent {
    slots: Vec<u32>,
    mask: usize,
}

/// One less than the number of slots for so many elements: a power of two, two to four times as many as
/// these, but at least 1 and at most `SLOTS`, the tenth power of two. It decides cost alone.
fn mask_for(elements: usize) -> usize {
    let mut mask = SLOTS - 1;
    for _ in 0..10 {
        if mask / 4 < elements {
            return mask;
        }
        mask /= 2;
    }
    mask
}

impl Recent {
    /// Nothing was looked up: each slot holds 0, which is believed only where element 0 has the name. It
    /// takes memory for the slots.
    pub fn new(alloc: Global, elements: &Elements) -> Result<Recent, Memory> {
        let mask = mask_for(elements.list.len());
        let slots = vec![in alloc; 0; mask.saturating_add(1)]?;
        Ok(Recent { slots, mask })
    }

    /// The number of a name. It costs one comparison of names where the name was looked up lately, and
    /// else a look into the map as well.
    pub fn number(&mut self, elements: &Elements, name: &Name) -> Option<usize>
        requires { AreNumbered elements.now }
        ensures { result ≡ number_of elements.now name.now }
    {
        let slot = slot_of(name) as usize;
        let kept = self.kept(slot);
        if elements.is_number_of(kept, name) {
            return Some(kept);
        }
        let number = elements.number(name)?;
        self.keep(slot, number);
        Some(number)
    }

    /// Keeps the number of the element that a change inserts: probably the next response shows its name. It
    /// decides cost alone.
    pub fn expect(&mut self, elements: &Elements, change: Change) {
        if let Change::Insert(number) = change {
            if let Some(slot) = elements.slots.get(number) {
                self.keep(*slot as usize, number);
            }
        }
    }

    /// The number in the slot to which the mask leads from this number of `slot_of`.
    #[inline(always)]
    fn kept(&self, slot: usize) -> usize {
        match self.slots.get(slot & self.mask) {
            Some(number) => *number as usize,
            None => 0,
        }
    }

    /// Puts a number into that slot.
    #[inline(always)]
    fn keep(&mut self, slot: usize, number: usize) {
        if let Some(place) = self.slots.get_mut(slot & self.mask) {
            *place = in_slot(number);
        }
    }
}

/// A number as a slot holds it. A recording has at most 65,536 elements; a number of 2 ^ 32 or more would not
/// be found again.
fn in_slot(number: usize) -> u32
    ensures { number < 2 ^ 32 → result ≡ number }
{
    (number % (1 << 32)) as u32
}

/// A number for a name, by its last three bytes, in which the names of a replica differ most, and by its
/// first byte, in which names of different replicas may differ where they end alike. The slot of the name is
/// this number masked: with fewer slots than `SLOTS` it is a lesser one.
pub fn slot_of(name: &Name) -> u16
    ensures { result < 1024 }
{
    let bytes = name.bytes();
    let last = byte_before(bytes, 1) + 11 * byte_before(bytes, 2) + 121 * byte_before(bytes, 3);
    ((last + 331 * first_byte(bytes)) % SLOTS) as u16
}

/// The first byte; 0 where there is none.
fn first_byte(bytes: &[u8]) -> usize
    ensures { result < 256 }
{
    bytes.first().map_or(0, |byte| *byte as usize)
}

/// The byte so many places before the end; 0 where there is none.
fn byte_before(bytes: &[u8], places: usize) -> usize
    ensures { result < 256 }
{
    match bytes.len().checked_sub(places) {
        None => 0,
        Some(at) => bytes.get(at).map_or(0, |byte| *byte as usize),
    }
}
