//! The elements that the editors of a session insert.

use super::random::Random;
use super::shape::Shape;
use std::alloc::{AllocError, Global};

/// The letter with which the names of a replica's elements begin.
const LETTERS: &[u8; 16] = b"etaoinshrdluwmfc";

/// The digits of the rest.
const DIGITS: &[u8; 16] = b"0123456789abcdef";

/// How far apart the ranks of two elements are that follow one another, so that others fit between them.
pub const GAP: u32 = 4;

/// How many elements there are room for.
const PLACES: usize = 262_144;

/// From one group's ranks to the next one's.
const GROUP: u32 = 1 << 20;

/// An element that stands in other places of the order at one replica than at all others.
#[derive(Clone, Copy)]
pub struct Moved {
    pub element: usize,
    pub at_first: u32,
    pub elsewhere: u32,
}

/// The elements by their place in the order that all groups' editors agree on: the group of who inserts each,
/// and its name behind a space.
#[derive(Drop)]
pub struct Elements {
    authors: Vec<u32>,
    words: Vec<u8>,
    pub stride: usize,
    groups: u32,
    pub moved: Vec<Moved>,
}

/// So many bytes from a place on, or as many as there are.
pub fn part(bytes: &[u8], from: usize, size: usize) -> &[u8] {
    let Some((_, rest)) = bytes.split_at_checked(from) else {
        return &[];
    };
    match rest.split_at_checked(size) {
        Some((part, _)) => part,
        None => rest,
    }
}

/// Runs of elements that are typed one after the other: who types them, and how many.
fn typed_runs(
    alloc: Global,
    shape: &Shape,
    random: &mut Random,
) -> Result<Vec<(usize, usize)>, AllocError> {
    let mut runs = Vec::new(alloc);
    for r in 0..shape.replicas {
        let mut left = shape.inserts;
        for _ in 0..shape.inserts {
            if left == 0 {
                break;
            }
            let size = left.min(random.below(24).wrapping_add(1));
            runs.push((r, size))?;
            left = left.saturating_sub(size);
        }
    }
    shuffle(&mut runs, random);
    Ok(runs)
}

/// Puts a list into some order.
pub fn shuffle<T: Copy>(list: &mut Vec<T>, random: &mut Random) {
    let count = list.len();
    for i in 0..count {
        let j = random.below(i.wrapping_add(1));
        if j < list.len() && i < list.len() {
            list.swap(i, j);
        }
    }
}

impl Elements {
    /// The elements of a session, and for each replica those that it inserts, the last first.
    pub fn new(
        alloc: Global,
        shape: &Shape,
        random: &mut Random,
    ) -> Result<(Elements, Vec<Vec<usize>>), AllocError> {
        let runs = typed_runs(alloc, shape, random)?;
        let mut elements = Elements {
            authors: Vec::new(alloc),
            words: Vec::new(alloc),
            stride: shape.width.wrapping_add(1),
            groups: (shape.groups % 32) as u32,
            moved: Vec::new(alloc),
        };
        let mut planned = Vec::new(alloc);
        for r in 0..shape.replicas {
            planned.push(own_elements(alloc, &runs, r, random)?)?;
        }
        for (r, size) in &runs {
            let group = group_of(*r, shape.groups);
            for _ in 0..*size {
                elements.authors.push(group)?;
            }
        }
        let count = elements.authors.len();
        elements
            .words
            .resize(count.saturating_mul(elements.stride), b' ')?;
        for (r, own) in planned.iter().enumerate() {
            for (number, element) in own.iter().rev().enumerate() {
                elements.name_it(*element, r, number);
            }
        }
        Ok((elements, planned))
    }

    /// Writes the name of the element that the replica inserts as its `number`-th.
    fn name_it(&mut self, element: usize, replica: usize, number: usize) {
        let from = element.saturating_mul(self.stride);
        let mut rest = number;
        for back in 1..self.stride {
            let digit = match DIGITS.get(rest % 16) {
                Some(digit) => *digit,
                None => b'0',
            };
            rest /= 16;
            let byte = if back.wrapping_add(1) == self.stride {
                letter_of(replica)
            } else {
                digit
            };
            if let Some(place) = self
                .words
                .get_mut(from.saturating_add(self.stride).saturating_sub(back))
            {
                *place = byte;
            }
        }
    }

    /// The name of an element behind a space.
    pub fn word(&self, element: usize) -> &[u8] {
        part(
            self.words.as_slice(),
            element.saturating_mul(self.stride),
            self.stride,
        )
    }

    /// Where an element stands in the order that a replica shows.
    pub fn rank(&self, element: usize, replica: usize, group: u32) -> u32 {
        if let Some(rank) = self.moved_rank(element, replica) {
            return rank;
        }
        let author = match self.authors.get(element) {
            Some(author) => *author,
            None => 0,
        };
        let ahead = if author < group {
            author.wrapping_add(self.groups).wrapping_sub(group)
        } else {
            author.wrapping_sub(group)
        };
        let in_group = (element % PLACES) as u32;
        ahead
            .wrapping_mul(GROUP)
            .wrapping_add(in_group.wrapping_mul(GAP))
    }

    /// Where an element stands that some replica moves.
    fn moved_rank(&self, element: usize, replica: usize) -> Option<u32> {
        for moved in &self.moved {
            if moved.element == element {
                return Some(if replica == 0 {
                    moved.at_first
                } else {
                    moved.elsewhere
                });
            }
        }
        None
    }

    /// The element that stands at this rank.
    pub fn element_at(&self, rank: u32) -> usize {
        for moved in &self.moved {
            if moved.at_first == rank {
                return moved.element;
            }
        }
        (rank / GAP) as usize % PLACES
    }
}

/// The group of a replica.
pub fn group_of(replica: usize, groups: usize) -> u32 {
    if groups == 0 {
        0
    } else {
        (replica % groups % 32) as u32
    }
}

fn letter_of(replica: usize) -> u8 {
    match LETTERS.get(replica % 16) {
        Some(letter) => *letter,
        None => b'z',
    }
}

/// The elements that a replica inserts, run by run in some order, the last first.
fn own_elements(
    alloc: Global,
    runs: &[(usize, usize)],
    replica: usize,
    random: &mut Random,
) -> Result<Vec<usize>, AllocError> {
    let mut begins = Vec::new(alloc);
    let mut element = 0usize;
    for (r, size) in runs {
        if *r == replica {
            begins.push((element, *size))?;
        }
        element = element.wrapping_add(*size);
    }
    shuffle(&mut begins, random);
    let mut own = Vec::new(alloc);
    for (begin, size) in &begins {
        for i in (0..*size).rev() {
            own.push(begin.wrapping_add(i))?;
        }
    }
    Ok(own)
}
