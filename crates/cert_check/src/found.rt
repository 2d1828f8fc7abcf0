//! The places of names in responses that steps cite, so that they are found again at once.

use events::{OpName, Response};
use std::alloc::Global;
use std::cmp::Ordering;

/// How many places are kept.
const SLOTS: usize = 1_048_576;

/// From how many steps on places are kept: fewer are judged sooner without.
const MANY: u32 = 4_096;

/// What is kept of a response.
#[derive(Drop)]
struct Places {
    /// How often the response was gone through from its first name on.
    walks: u32,
    /// Its places in order of their names. It is empty until walks have cost as much as it takes to sort them.
    sorted: Vec<u32>,
}

/// Where names stand in responses of operations, kept in two ways. Both give guesses: a place is believed
/// only where the name stands there.
#[derive(Drop)]
pub struct FoundPlaces {
    alloc: Global,
    /// Where a name was found last, by operation and name. Names share slots, and who writes the trace can
    /// choose names that share one.
    slots: Vec<u32>,
    /// What is kept of each response, by replica and number of the operation.
    kept: Vec<Vec<Places>>,
}

impl FoundPlaces {
    /// Nothing was found. Room is made for 4 MB of places where there are many steps; where memory is wanted
    /// there is none, and no place is kept.
    pub fn for_steps(alloc: Global, k: u32) -> FoundPlaces {
        let count = if k < MANY { 0 } else { SLOTS };
        let slots = match vec![in alloc; 0u32; count] {
            Ok(slots) => slots,
            Err(_) => Vec::new(alloc),
        };
        FoundPlaces {
            alloc,
            slots,
            kept: Vec::new(alloc),
        }
    }

    /// Where a name probably stands in the response of an operation: one look.
    pub fn likely_place(&self, by: OpName, name: &[u8]) -> usize {
        match self.slots.get(slot_of(by, name)) {
            None => 0,
            Some(place) => *place as usize,
        }
    }

    /// Where a name stands in the response of an operation, if that is known: a search by halving.
    pub fn place(&self, by: OpName, response: &Response, name: &[u8]) -> Option<usize> {
        let places = self.kept.get(by.replica as usize)?.get(by.n as usize)?;
        let found = places
            .sorted
            .binary_search_by(|place| compare(response, *place, Some(name)));
        let place = places.sorted.get(found.ok()?)?;
        Some(*place as usize)
    }

    /// Notes that a response was gone through, and where its places are sorted, that these two names were found
    /// there last.
    pub fn note(&mut self, by: OpName, response: &Response, from: &[u8], to: &[u8]) {
        if self.slots.is_empty() {
            return;
        }
        self.sort(by, response);
        for name in [from, to] {
            if let Some(place) = self.place(by, response, name) {
                self.note_place(by, name, place);
            }
        }
    }

    /// Notes where a name stands in the response of an operation.
    fn note_place(&mut self, by: OpName, name: &[u8], place: usize) {
        let Ok(place) = u32::try_from(place) else {
            return;
        };
        if let Some(slot) = self.slots.get_mut(slot_of(by, name)) {
            *slot = place;
        }
    }

    /// Sorts the places of a response by their names, where that was not done and pays by now. Where memory is
    /// wanted nothing is noted.
    fn sort(&mut self, by: OpName, response: &Response) {
        let alloc = self.alloc;
        let Some(kept) = of_replica(&mut self.kept, alloc, by.replica) else {
            return;
        };
        let Some(places) = of_operation(kept, alloc, by.n) else {
            return;
        };
        if !places.sorted.is_empty() {
            return;
        }
        if places.walks < halvings(response.len()) {
            places.walks += 1;
            return;
        }
        if let Some(sorted) = sorted_places(alloc, response) {
            places.sorted = sorted;
        }
    }
}

/// How often a number can be halved until nothing is left: so many walks through a response of that many names
/// cost about what sorting it does.
fn halvings(count: usize) -> u32 {
    u64::BITS.saturating_sub((count as u64).leading_zeros())
}

/// What is kept of the responses of a replica, once there is something of each up to it.
fn of_replica(
    kept: &mut Vec<Vec<Places>>,
    alloc: Global,
    replica: u32,
) -> Option<&mut Vec<Places>> {
    let at = replica as usize;
    for _ in kept.len()..at + 1 {
        kept.push(Vec::new(alloc)).ok()?;
    }
    kept.get_mut(at)
}

/// What is kept of the response of the operation with this number, once there is something of each up to it.
fn of_operation(kept: &mut Vec<Places>, alloc: Global, n: u32) -> Option<&mut Places> {
    let at = n as usize;
    for _ in kept.len()..at + 1 {
        let places = Places {
            walks: 0,
            sorted: Vec::new(alloc),
        };
        kept.push(places).ok()?;
    }
    kept.get_mut(at)
}

/// The places of a response in order of their names; none where memory is wanted.
fn sorted_places(alloc: Global, response: &Response) -> Option<Vec<u32>> {
    let count = u32::try_from(response.len()).ok()?;
    let mut places = Vec::with_capacity(alloc, response.len()).ok()?;
    for place in 0..count {
        places.push(place).ok()?;
    }
    places.sort_unstable_by(|one: &u32, other: &u32| {
        compare(response, *one, response.bytes_at(*other as usize))
    });
    Some(places)
}

/// The name at a place beside another one, by their bytes.
fn compare(response: &Response, place: u32, name: Option<&[u8]>) -> Ordering {
    response.bytes_at(place as usize).cmp(&name)
}

/// The slot of a name in the response of an operation.
fn slot_of(by: OpName, name: &[u8]) -> usize {
    let mut mixed = u64::from(by.replica)
        .wrapping_mul(65_599)
        .wrapping_add(u64::from(by.n));
    for byte in name {
        mixed = mixed.wrapping_mul(65_599).wrapping_add(u64::from(*byte));
    }
    (mixed.wrapping_mul(11_400_714_819_323_198_485) >> 44) as usize
}
