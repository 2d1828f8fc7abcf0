//! A guess at the strongly connected components, by one search in depth along the edges (Tarjan 1972;
//! low links and components share one list of numbers, as in Pearce 2016). No clause says that it is right:
//! `components` tests it.

use crate::guesses::{NONE, at, put};
use events::Memory;
use std::alloc::Global;
use witness_order::{Edge, Successors};

/// What is guessed of each element's component, where two elements are in one if each leads to the other.
#[derive(Drop)]
pub struct Guess {
    /// For each element the number of its component. Along a list these don't fall.
    pub ranks: Vec<u32>,
    /// For each component its root, one of its elements. What stands at a number that no component has means
    /// nothing.
    pub roots: Vec<u32>,
    /// For each element whether its component has others.
    pub shared: Vec<bool>,
    /// For each of these elements one that stands right after it in some list, by which it leads to the root.
    pub after: Vec<u32>,
    /// For each of these elements how many steps that way to the root has.
    pub backs: Vec<u32>,
    /// For each of these elements but the root one that stands right before it, on a way from the root.
    pub before: Vec<u32>,
    /// For each element a number that rises on that way from the root.
    pub forths: Vec<u32>,
}

impl Guess {
    /// No guess yet.
    fn new(alloc: Global, elements: usize) -> Result<Guess, Memory> {
        Ok(Guess {
            ranks: Vec::from_elem(alloc, NONE, elements)?,
            roots: Vec::from_elem(alloc, NONE, elements)?,
            shared: Vec::from_elem(alloc, false, elements)?,
            after: Vec::from_elem(alloc, NONE, elements)?,
            backs: Vec::from_elem(alloc, 0, elements)?,
            before: Vec::from_elem(alloc, NONE, elements)?,
            forths: Vec::from_elem(alloc, NONE, elements)?,
        })
    }
}

/// Guesses the components. It takes time linear in the elements and the edges, and memory linear in the elements.
pub fn guess_components(alloc: Global, successors: &Successors) -> Result<Guess, Memory> {
    let elements = successors.heads.len().min(NONE as usize) as u32;
    let mut edges = Untaken {
        edges: successors.edges.as_slice(),
        heads: Vec::from_slice(alloc, successors.heads.as_slice())?,
    };
    let mut search = DepthSearch {
        guess: Guess::new(alloc, elements as usize)?,
        open: 0,
        least: elements,
    };
    for x in 0..elements {
        if at(&search.guess.ranks, x) == NONE {
            search.search_from(&mut edges, x);
        }
    }
    let DepthSearch {
        guess,
        open: _,
        least: _,
    } = search;
    Ok(guess)
}

/// The edges that the search has not gone along yet.
#[derive(Drop)]
struct Untaken<'a> {
    edges: &'a [Edge],
    /// For each element the number of its next edge; 0 where none is left.
    heads: Vec<u32>,
}

impl<'a> Untaken<'a> {
    /// Takes the next edge of an element, and tells where it leads to.
    fn take(&mut self, x: u32) -> Option<u32> {
        let number = at(&self.heads, x) as usize;
        if number == 0 || number > self.edges.len() {
            return None;
        }
        let Edge { to, next } = self.edges[number - 1];
        put(&mut self.heads, x, next);
        Some(to)
    }

    /// How many edges there are, and elements, and one more.
    fn turns(&self) -> usize {
        self.edges
            .len()
            .saturating_add(self.heads.len())
            .saturating_add(1)
    }
}

/// The search in depth, in the direction of the lists. An element is open once the search has come to it, until
/// its whole component is found.
///
/// It keeps what it knows in the guess. The open elements stand at the front of `roots`, in the order in which
/// the search came to them. Components are numbered from the greatest number down, so their roots stand behind
/// these. Of an open element, `forths` has its place there, and `ranks` the first place that it is known to lead
/// to (its low link), which is less than the number of any component.
#[derive(Drop)]
struct DepthSearch {
    guess: Guess,
    /// How many elements are open.
    open: u32,
    /// The least number of a component that is found.
    least: u32,
}

impl DepthSearch {
    /// Searches from an element. Each turn takes an edge or leaves an element.
    fn search_from(&mut self, edges: &mut Untaken<'_>, source: u32) {
        self.find(source, NONE);
        let mut x = source;
        for _ in 0..edges.turns() {
            x = self.turn(edges, x);
            if x == NONE {
                return;
            }
        }
    }

    /// Goes on from an element; to `NONE` from the source, where no edge is left.
    fn turn(&mut self, edges: &mut Untaken<'_>, x: u32) -> u32 {
        match edges.take(x) {
            None => self.leave(x),
            Some(y) if at(&self.guess.ranks, y) == NONE => {
                self.find(y, x);
                y
            }
            Some(y) => {
                self.look_at(x, y);
                x
            }
        }
    }

    /// Comes to an element, from one that stands right before it.
    fn find(&mut self, x: u32, before: u32) {
        put(&mut self.guess.before, x, before);
        put(&mut self.guess.forths, x, self.open);
        put(&mut self.guess.ranks, x, self.open);
        put(&mut self.guess.roots, self.open, x);
        self.open = self.open.saturating_add(1);
    }

    /// Looks from an element at one that stands right after it, and that the search came to before.
    fn look_at(&mut self, x: u32, y: u32) {
        let low = at(&self.guess.ranks, x);
        let place = at(&self.guess.forths, y);
        // The first test leaves out those that are open no more.
        if at(&self.guess.ranks, y) < low && place < low {
            self.lead(x, y, place, 1);
        }
    }

    /// Lets an element lead on to another, and so in this many steps to the open one at a place.
    fn lead(&mut self, x: u32, after: u32, low: u32, steps: u32) {
        put(&mut self.guess.after, x, after);
        put(&mut self.guess.ranks, x, low);
        put(&mut self.guess.backs, x, steps);
    }

    /// Leaves an element, for the one from which the search came to it.
    fn leave(&mut self, x: u32) -> u32 {
        let before = at(&self.guess.before, x);
        let low = at(&self.guess.ranks, x);
        if low == at(&self.guess.forths, x) {
            self.close(x, low);
        } else if low < at(&self.guess.ranks, before) {
            let steps = at(&self.guess.backs, x);
            self.lead(before, x, low, steps.saturating_add(1));
        }
        before
    }

    /// Closes the component of its root: the open elements from the root's place on.
    fn close(&mut self, root: u32, place: u32) {
        self.least = self.least.saturating_sub(1);
        if place.saturating_add(1) < self.open {
            self.share(root, place);
        }
        self.open = place;
        put(&mut self.guess.ranks, root, self.least);
        put(&mut self.guess.roots, self.least, root);
    }

    /// Takes note that these elements share a component. The root leads to the one that was found next.
    fn share(&mut self, root: u32, place: u32) {
        let next = at(&self.guess.roots, place.saturating_add(1));
        put(&mut self.guess.after, root, next);
        for open in place..self.open {
            let x = at(&self.guess.roots, open);
            self.share_one(x);
        }
    }

    /// Takes note that an element shares its component. From the open element that it leads to, which stands
    /// before it, the steps to the root are counted already.
    fn share_one(&mut self, x: u32) {
        let low = at(&self.guess.ranks, x);
        let on = at(&self.guess.backs, at(&self.guess.roots, low));
        let steps = at(&self.guess.backs, x).saturating_add(on);
        put(&mut self.guess.backs, x, steps);
        put(&mut self.guess.ranks, x, self.least);
        if (x as usize) < self.guess.shared.len() {
            self.guess.shared[x as usize] = true;
        }
    }
}
