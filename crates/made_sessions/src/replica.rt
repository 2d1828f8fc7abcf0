//! One replica of a session that is made up.

use super::elements::{Elements, group_of};
use std::alloc::{AllocError, Global};

/// What an operation did to the elements.
#[derive(Clone, Copy)]
pub enum Act {
    Insert(usize),
    Delete(usize),
}

/// How many operations of each replica are visible.
pub type Clock = [usize; 16];

/// A replica: what it shows, what it has seen, and what it may still do.
#[derive(Drop)]
pub struct Replica {
    pub number: usize,
    pub entries: usize,
    pub places: usize,
    pub seen: Clock,
    group: u32,
    /// The ranks of the elements that it shows, rising.
    pub ranks: Vec<u32>,
    /// Their names, each behind a space, but where that is stale.
    text: Vec<u8>,
    is_stale: bool,
    gone: Vec<bool>,
    pub planned: Vec<usize>,
    /// What it did to the elements, and how much of that stands before each of its operations.
    pub acts: Vec<Act>,
    before: Vec<usize>,
    pub clocks: Vec<Clock>,
}

impl Replica {
    /// A replica that has seen nothing.
    pub fn new(
        alloc: Global,
        number: usize,
        entries: usize,
        places: usize,
        elements: usize,
        groups: usize,
        planned: Vec<usize>,
    ) -> Result<Replica, AllocError> {
        let mut gone = Vec::new(alloc);
        gone.resize(elements, false)?;
        Ok(Replica {
            number,
            entries,
            places,
            seen: [0; 16],
            group: group_of(number, groups),
            ranks: Vec::new(alloc),
            text: Vec::new(alloc),
            is_stale: false,
            gone,
            planned,
            acts: Vec::new(alloc),
            before: Vec::new(alloc),
            clocks: Vec::new(alloc),
        })
    }

    /// Whether a delete of the element has been seen.
    pub fn is_gone(&self, element: usize) -> bool {
        match self.gone.get(element) {
            Some(gone) => *gone,
            None => false,
        }
    }

    /// Shows an element at its place, and answers that.
    pub fn put(&mut self, elements: &Elements, element: usize) -> Result<usize, AllocError> {
        let rank = elements.rank(element, self.number, self.group);
        let at = self.ranks.partition_point(|other| *other < rank);
        self.ranks.insert(at, rank)?;
        if !self.is_stale {
            let from = at.saturating_mul(elements.stride);
            put_bytes(&mut self.text, from, elements.word(element))?;
        }
        Ok(at)
    }

    /// Shows an element no more.
    pub fn take_away(&mut self, elements: &Elements, element: usize) {
        if let Some(gone) = self.gone.get_mut(element) {
            *gone = true;
        }
        let rank = elements.rank(element, self.number, self.group);
        let at = self.ranks.partition_point(|other| *other < rank);
        if at < self.ranks.len() && self.ranks[at] == rank {
            self.ranks.remove(at);
            if !self.is_stale {
                let from = at.saturating_mul(elements.stride);
                take_bytes(&mut self.text, from, elements.stride);
            }
        }
    }

    /// So many elements are about to come or go: where they are many, the names are written anew behind them.
    pub fn expect(&mut self, changes: usize) {
        if changes > self.ranks.len() / 8 {
            self.is_stale = true;
        }
    }

    /// The names of the elements that it shows, each behind a space.
    pub fn spell(&mut self, elements: &Elements) -> Result<&[u8], AllocError> {
        if self.is_stale {
            self.text.clear();
            for rank in &self.ranks {
                self.text
                    .extend_from_slice(elements.word(elements.element_at(*rank)))?;
            }
            self.is_stale = false;
        }
        Ok(self.text.as_slice())
    }

    /// Notes an operation of its own, and what it did to the elements, if anything.
    pub fn note(&mut self, act: Option<Act>) -> Result<(), AllocError> {
        self.before.push(self.acts.len())?;
        if let Some(act) = act {
            self.acts.push(act)?;
        }
        self.clocks.push(self.seen)?;
        if let Some(own) = self.seen.get_mut(self.number) {
            *own = self.clocks.len();
        }
        Ok(())
    }

    /// What its operations from one to another did to the elements, counted from 0.
    pub fn acts_of(&self, from: usize, to: usize) -> &[Act] {
        let begin = self.acts_before(from);
        let end = self.acts_before(to);
        let Some((front, _)) = self.acts.as_slice().split_at_checked(end) else {
            return &[];
        };
        match front.split_at_checked(begin) {
            Some((_, acts)) => acts,
            None => &[],
        }
    }

    /// How much it did to the elements before an operation.
    fn acts_before(&self, operation: usize) -> usize {
        match self.before.get(operation) {
            Some(count) => *count,
            None => self.acts.len(),
        }
    }

    /// What is visible behind its operation `n`, counted from 1.
    pub fn clock_behind(&self, n: usize) -> Option<Clock> {
        let before = self.clocks.get(n.saturating_sub(1))?;
        let mut clock = *before;
        let own = self.number % 16;
        clock[own] = n;
        Some(clock)
    }

    /// It has now seen so many operations of a replica.
    pub fn hears(&mut self, replica: usize, count: usize) {
        if let Some(seen) = self.seen.get_mut(replica) {
            *seen = count;
        }
    }

    /// How many operations of a replica it has seen.
    pub fn has_seen(&self, replica: usize) -> usize {
        match self.seen.get(replica) {
            Some(seen) => *seen,
            None => 0,
        }
    }
}

/// Puts bytes into a text at a place, if it is that long.
fn put_bytes(text: &mut Vec<u8>, at: usize, bytes: &[u8]) -> Result<(), AllocError> {
    let old = text.len();
    let size = bytes.len();
    if at > old {
        return Ok(());
    }
    text.extend_from_slice(bytes)?;
    if at < old {
        text.copy_within(at..old, at + size);
        text[at..at + size].copy_from_slice(bytes);
    }
    Ok(())
}

/// Takes so many bytes out of a text at a place, if it is that long.
fn take_bytes(text: &mut Vec<u8>, at: usize, size: usize) {
    let old = text.len();
    if size <= old && at <= old - size {
        text.copy_within(at + size..old, at);
        text.truncate(old - size);
    }
}
