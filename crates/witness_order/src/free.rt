//! The elements that may come next in the order.

ghost use Rattle.std.specs.Prelude.{◌≡◌, ℕ, ◌+◌, ◌-◌, ◌<◌, ◌≤◌, ◌==◌, ◌⊎◌, ◌↔◌, ◌^◌, ◌∷◌, [], All, Contains};
ghost use Rattle.std.specs.Prelude.{IfNone, IfSome, if◌then◌else◌, length, OnOk, IfOk, slice_index};
ghost use Rattle.std.specs.Prelude.{slice_set, vec_len};
ghost use Rattle.std.specs.Ordering.{nat_cmp};
ghost use Rattle.std.specs.BTreeSet.{insert_key};
ghost use Rattle.witness_order.specs.Edges.{occurrences, linked_from, AreFalling};

use super::successors::Edge;
use events::Memory;
use std::alloc::Global;
use std::collections::BTreeSet;

/// The elements that stand right after no other: those with a count of 0.
pub fn free_elements(alloc: Global, indegrees: &[u32]) -> Result<BTreeSet<u32>, Memory>
    requires { length indegrees.now < 2 ^ 32 }
    ensures { IfOk result (λ s. (x : ℕ) → Contains s.keys x
        ↔ ((x < length indegrees.now) × (slice_index indegrees.now x ≡ 0))) }
{
    let mut free = BTreeSet::new(alloc);
    for (x, indegree) in indegrees.iter().enumerate() {
        if *indegree == 0 {
            free.insert(x as u32)?;
        }
    }
    Ok(free)
}

/// Takes the least of the free elements out of them; none where none is free.
pub fn take_least(free: &mut BTreeSet<u32>) -> Option<u32>
    ensures none { IfNone result (free.old.keys ≡ []) }
    ensures first { IfSome result (λ x. free.old.keys ≡ x ∷ free.new.keys) }
    ensures least { IfSome result (λ x. All (λ z. x < z) free.new.keys) }
{
    free.pop_first()
}

/// Lowers an element's count, which is not 0, by one. At 0 the element is free.
fn lower(indegrees: &mut Vec<u32>, free: &mut BTreeSet<u32>, y: u32) -> Result<(), Memory>
    requires known { y < vec_len indegrees.old }
    requires some { 0 < slice_index indegrees.old.items y }
    ensures size { vec_len indegrees.new ≡ vec_len indegrees.old }
    ensures lowered { indegrees.new.items
        ≡ slice_set indegrees.old.items y (slice_index indegrees.old.items y - 1) }
    ensures free { OnOk result (free.new.keys
        ≡ (if slice_index indegrees.old.items y == 1 then insert_key nat_cmp free.old.keys y else
        free.old.keys)) }
{
    let indegree = indegrees[y as usize] - 1;
    indegrees[y as usize] = indegree;
    if indegree == 0 {
        free.insert(y)?;
    }
    Ok(())
}

/// Lowers the counts of what a linked list of edges leads to, by one for each edge. What comes to 0 is free.
pub fn remove_edges(
    edges: &[Edge],
    head: u32,
    indegrees: &mut Vec<u32>,
    free: &mut BTreeSet<u32>,
) -> Result<(), Memory>
    requires falling { AreFalling edges.now }
    requires head { head ≤ length edges.now }
    requires known { All (λ y. y < vec_len indegrees.old) (linked_from edges.now head) }
    requires counted { (y : ℕ) → y < vec_len indegrees.old
        → occurrences (linked_from edges.now head) y ≤ slice_index indegrees.old.items y }
    ensures size { vec_len indegrees.new ≡ vec_len indegrees.old }
    ensures lowered { OnOk result ((y : ℕ) → y < vec_len indegrees.old
        → slice_index indegrees.new.items y + occurrences (linked_from edges.now head) y
        ≡ slice_index indegrees.old.items y) }
    ensures free { OnOk result ((y : ℕ) → Contains free.new.keys y ↔ (Contains free.old.keys y
        ⊎ ((y < vec_len indegrees.old) × (0 < slice_index indegrees.old.items y)
        × (slice_index indegrees.new.items y ≡ 0)))) }
{
    let mut number = head;
    while number != 0 {
        let edge = edges[number as usize - 1];
        lower(indegrees, free, edge.to)?;
        number = edge.next;
    }
    Ok(())
}
