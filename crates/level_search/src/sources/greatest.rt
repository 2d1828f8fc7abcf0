//! The greatest number that stands before an element and is left, in time that grows with the logarithm of
//! the lists' lengths. No clause says that it is the greatest: what is guessed by it is tested.

use crate::guesses::{NONE, at, put};
use events::Memory;
use order_graph::{OrderGraph, Spot};
use std::alloc::Global;

/// As many levels as a tree may have.
const LEVELS: u32 = 32;

/// For each list a tree over its places: a node has one more than the greatest number that is left below it,
/// or 0.
#[derive(Drop)]
pub struct Greatest {
    /// The trees, one after the other. The first node of each is not used; a list of m places has its leaves
    /// at m and behind.
    nodes: Vec<u32>,
    /// For each list how many places the lists before it have.
    begins: Vec<u32>,
    /// For each list how many places it has.
    lengths: Vec<u32>,
}

impl Greatest {
    /// All elements are left. It takes time and memory linear in the places and the lists.
    pub fn of(alloc: Global, graph: &OrderGraph) -> Result<Greatest, Memory> {
        let lists = graph.lists() as usize;
        let mut greatest = Greatest {
            nodes: Vec::new(alloc),
            begins: Vec::with_capacity(alloc, lists)?,
            lengths: Vec::with_capacity(alloc, lists)?,
        };
        let mut places: u32 = 0;
        for list in 0..graph.lists() {
            greatest.begins.push(places)?;
            greatest.lengths.push(graph.length(list))?;
            places = places.saturating_add(graph.length(list));
        }
        greatest.nodes = Vec::from_elem(alloc, 0, (places as usize).saturating_mul(2))?;
        for list in 0..graph.lists() {
            greatest.fill(graph.list(list), list);
        }
        Ok(greatest)
    }

    /// Fills the tree of a list.
    fn fill(&mut self, row: &[u32], list: u32) {
        let length = at(&self.lengths, list);
        for place in 0..length {
            let x = at(row, place).saturating_add(1);
            self.put_node(list, length.saturating_add(place), x);
        }
        for node in 1..length {
            self.gather(list, length - node);
        }
    }

    /// What the tree of a list has at a node.
    fn node(&self, list: u32, node: u32) -> u32 {
        let begin = at(&self.begins, list).saturating_mul(2);
        at(&self.nodes, begin.saturating_add(node))
    }

    /// Writes at a node of a list's tree.
    fn put_node(&mut self, list: u32, node: u32, value: u32) {
        let begin = at(&self.begins, list).saturating_mul(2);
        put(&mut self.nodes, begin.saturating_add(node), value);
    }

    /// Gives a node the greater of what the two below it have; whether it had another.
    fn gather(&mut self, list: u32, node: u32) -> bool {
        let below = node.saturating_mul(2);
        let value = self
            .node(list, below)
            .max(self.node(list, below.saturating_add(1)));
        if self.node(list, node) == value {
            return false;
        }
        self.put_node(list, node, value);
        true
    }

    /// Takes an element away at one of its spots.
    pub fn take_away(&mut self, spot: Spot) {
        let mut node = at(&self.lengths, spot.list).saturating_add(spot.place);
        self.put_node(spot.list, node, 0);
        for _ in 0..LEVELS {
            node /= 2;
            if node == 0 || !self.gather(spot.list, node) {
                return;
            }
        }
    }

    /// The greatest number that is left before an element in some list; `NONE` where there is none.
    pub fn before(&self, graph: &OrderGraph, x: u32) -> u32 {
        let mut most = 0;
        for i in 0..graph.spots(x) {
            if let Some(spot) = graph.spot(x, i) {
                most = self.before_place(spot).max(most);
            }
        }
        if most == 0 { NONE } else { most - 1 }
    }

    /// One more than the greatest number that is left before a place of a list, or 0.
    fn before_place(&self, spot: Spot) -> u32 {
        let length = at(&self.lengths, spot.list);
        let mut left = length;
        let mut right = length.saturating_add(spot.place);
        let mut most = 0;
        for _ in 0..LEVELS {
            if left >= right {
                return most;
            }
            if left % 2 == 1 {
                most = self.node(spot.list, left).max(most);
                left = left.saturating_add(1);
            }
            if right % 2 == 1 {
                right = right.saturating_sub(1);
                most = self.node(spot.list, right).max(most);
            }
            left /= 2;
            right /= 2;
        }
        most
    }
}
