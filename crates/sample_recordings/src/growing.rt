//! Sound recordings of up to 12 operations of 3 replicas, which insert up to six elements. Some operations
//! are views, each of some part of what its replica sees.
ghost use Rattle.std.specs.Prelude.{◌<◌};

use super::entries::{Act, add, body, empty, operation, place_of, push};
use super::random::Random;
use super::views::part_of;
use events::{Name, OpName, Recording, Response};
use std::alloc::Global;
use std::test::Fail;

/// How many elements a generated recording has at most.
pub const MOST_ELEMENTS: usize = 6;

const REPLICAS: usize = 3;

const LETTERS: [&str; MOST_ELEMENTS] = ["a", "b", "c", "d", "e", "f"];

const MOST_OPERATIONS: usize = 12;

/// In which orders responses show the letters, by their numbers.
#[derive(Clone, Copy)]
enum Orders {
    Any,
    Mostly([usize; MOST_ELEMENTS]),
}

impl Orders {
    /// The order of one response: the usual one, if there is one, in 15 responses of 16.
    fn next(&self, random: &mut Random) -> [usize; MOST_ELEMENTS] {
        match self {
            Orders::Any => random.order(),
            Orders::Mostly(usual) => {
                if random.below(16) == 0 {
                    return random.order();
                }
                *usual
            }
        }
    }
}

/// An operation as its bit, with the bits of the operations that are visible to it.
#[derive(Clone, Copy)]
struct Seen {
    name: OpName,
    bits: u32,
}

/// Who inserted and deleted each letter, as bits, and the orders in which responses show them.
#[derive(Drop)]
struct Letters {
    inserted: [u32; MOST_ELEMENTS],
    deleted: [u32; MOST_ELEMENTS],
    orders: Orders,
}

impl Letters {
    /// Whether a letter is in the response to what sees these operations.
    fn is_shown(&self, letter: usize, bits: u32) -> bool {
        match (self.inserted.get(letter), self.deleted.get(letter)) {
            (Some(inserted), Some(deleted)) => *inserted & bits != 0 && *deleted & bits == 0,
            _ => false,
        }
    }

    /// A response that shows these letters, in some order.
    fn response(&self, alloc: Global, random: &mut Random, bits: u32) -> Result<Response, Fail> {
        let mut response = Response::new(alloc);
        for letter in self.orders.next(random) {
            if self.is_shown(letter, bits) {
                push(&mut response, Name::new(text(letter).as_bytes())?)?;
            }
        }
        Ok(response)
    }

    /// Notes an operation, and says what it does: it inserts the next letter, deletes one that it sees,
    /// views or reads.
    fn act(&mut self, random: &mut Random, bit: u32, bits: u32) -> Act {
        let kind = random.below(6);
        if kind < 3 {
            for (letter, inserted) in self.inserted.iter_mut().enumerate() {
                if *inserted == 0 {
                    *inserted = bit;
                    return Act::Ins(text(letter), 0);
                }
            }
        }
        let letter = random.below(6);
        if kind == 3 && self.is_shown(letter, bits) {
            self.deleted[letter] |= bit;
            return Act::Del(text(letter));
        }
        if kind == 4 {
            return Act::View;
        }
        Act::Read
    }
}

fn text(letter: usize) -> &'static str {
    match LETTERS.get(letter) {
        Some(text) => *text,
        None => "g",
    }
}

/// Where the name that a text spells stands in a response; 0 where it does not.
fn place_or_first(response: &Response, text: &str) -> Result<u32, Fail> {
    match place_of(response, Name::new(text.as_bytes())?) {
        Some(place) => Ok(u32::try_from(place)?),
        None => Ok(0),
    }
}

/// A sound recording on its way. Each replica knows operations, as bits.
#[derive(Drop)]
struct Growing {
    recording: Recording,
    letters: Letters,
    made: [Option<Seen>; MOST_OPERATIONS],
    known: [u32; REPLICAS],
}

impl Growing {
    fn new(alloc: Global, orders: Orders) -> Result<Growing, Fail> {
        Ok(Growing {
            recording: empty(alloc, 3)?,
            letters: Letters {
                inserted: [0; MOST_ELEMENTS],
                deleted: [0; MOST_ELEMENTS],
                orders,
            },
            made: [None; MOST_OPERATIONS],
            known: [0; REPLICAS],
        })
    }

    /// A replica's next operation, which is the `count`-th of all and has this bit.
    fn operate(
        &mut self,
        alloc: Global,
        random: &mut Random,
        count: usize,
        bit: u32,
    ) -> Result<(), Fail>
        requires { count < 12 }
    {
        let replica = random.below(REPLICAS);
        let bits = self.known[replica] | bit;
        let act = self.letters.act(random, bit, bits);
        let whole = self.letters.response(alloc, random, bits)?;
        let placed = match act {
            Act::Ins(text, _) => Act::Ins(text, place_or_first(&whole, text)?),
            act => act,
        };
        let response = match act {
            Act::View => part_of(alloc, random, &whole)?,
            _ => whole,
        };
        add(&mut self.recording, replica as u32, body(placed, response)?)?;
        self.known[replica] = bits;
        let name = operation(replica as u32, self.recording.count(replica as u32))?;
        self.made[count] = Some(Seen { name, bits });
        Ok(())
    }

    /// A receipt of some operation, where it is of another replica.
    fn receive(&mut self, alloc: Global, random: &mut Random) -> Result<(), Fail> {
        let replica = random.below(REPLICAS);
        if let Some(seen) = self.made[random.below(MOST_OPERATIONS)] {
            if seen.name.replica as usize != replica {
                let receipt = Act::Recv(seen.name.replica, seen.name.n);
                let none = Response::new(alloc);
                add(&mut self.recording, replica as u32, body(receipt, none)?)?;
                self.known[replica] |= seen.bits;
            }
        }
        Ok(())
    }
}

/// A sound recording whose responses show their elements in these orders.
fn grown(alloc: Global, random: &mut Random, orders: Orders) -> Result<Recording, Fail> {
    let mut growing = Growing::new(alloc, orders)?;
    let mut bit = 1;
    for count in 0..MOST_OPERATIONS {
        growing.receive(alloc, random)?;
        growing.receive(alloc, random)?;
        growing.operate(alloc, random, count, bit)?;
        bit = bit.wrapping_mul(2);
    }
    Ok(growing.recording)
}

/// A sound recording in which each response shows its elements in an order of its own.
pub fn generated(alloc: Global, random: &mut Random) -> Result<Recording, Fail> {
    grown(alloc, random, Orders::Any)
}

/// A sound recording in which most responses follow one order.
pub fn mostly_ordered(alloc: Global, random: &mut Random) -> Result<Recording, Fail> {
    let usual = random.order();
    grown(alloc, random, Orders::Mostly(usual))
}
