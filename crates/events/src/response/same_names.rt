//! How far two responses go on with the same names.

ghost use Rattle.std.specs.Prelude.{◌≡◌, ℕ, ◌<◌, ◌≤◌, ◌^◌, All, Some, List, length, slice_get, take, drop};
ghost use Rattle.std.specs.Simd.Lanes.{mask_l};
ghost use Rattle.events.specs.Names.{IsName};
ghost use Rattle.events.specs.Packed.{spaced, start_at};
ghost use Rattle.events.specs.Runs.{IsLongestRun};
ghost use Rattle.events.specs.SameNames.{unlike, AreSame};

use super::Response;
use super::runs::{Run, longest_run};
use std::simd::prelude::*;

/// How many bytes are compared at once.
const LANES: usize = 16;

impl Response {
    /// How many names follow one another alike in this response from place `i` and in the other from place
    /// `j` on: the most, and 0 where either place is past the end. It takes no memory, and time linear in the
    /// bytes of these names and of the one that differs, and a binary search among the places of this
    /// response from `i` on.
    pub fn same_names(&self, i: usize, other: &Response, j: usize) -> usize
        ensures within { result ≤ length (drop i self.now) × result ≤ length (drop j other.now) }
        ensures same { take result (drop i self.now) ≡ take result (drop j other.now) }
        ensures most { (a : List ℕ) → slice_get (drop i self.now) result ≡ Some a
            → slice_get (drop j other.now) result ≡ Some a → ⊥ }
    {
        if i > self.len() || j > other.len() {
            return 0;
        }
        self.run_in(i, other.text_from(j)).names
    }

    /// The names from a place on as a text, each after one space.
    fn text_from(&self, j: usize) -> &[u8]
        requires { j ≤ length self.now }
        ensures text { result.now ≡ spaced (drop j self.now) }
        ensures names { All IsName self.now }
    {
        let from = start_from(self.ends.as_slice(), j);
        after(self.bytes.as_slice(), from)
    }

    /// The longest run of the names from a place on that the text begins with.
    fn run_in(&self, i: usize, text: &[u8]) -> Run
        requires { i ≤ length self.now }
        ensures longest { IsLongestRun text.now (drop i self.now) result.names result.bytes }
        ensures names { All IsName self.now }
    {
        let ends = self.ends.as_slice();
        let from = start_from(ends, i);
        longest_run(
            text,
            after(self.bytes.as_slice(), from),
            after(ends, i),
            from,
        )
    }
}

/// What stands from a place on.
pub(super) fn after<T: Copy>(items: &[T], place: usize) -> &[T]
    requires { place ≤ length items.now }
    ensures { result.now ≡ drop place items.now }
{
    &items[place..]
}

/// Where the piece at a place begins, also past the last: where the piece before it ends.
pub(super) fn start_from(ends: &[u32], i: usize) -> usize
    requires { i ≤ length ends.now }
    ensures value { result ≡ start_at 0 ends.now i }
    ensures range { result < 2 ^ 32 }
{
    if i == 0 { 0 } else { ends[i - 1] as usize }
}

/// How many bytes are the same from the beginning on.
pub(super) fn same_bytes(a: &[u8], b: &[u8]) -> usize
    ensures within { (result ≤ length a.now) × (result ≤ length b.now) }
    ensures same { take result a.now ≡ take result b.now }
    ensures most { (x : ℕ) → slice_get a.now result ≡ Some x → slice_get b.now result ≡ Some x → ⊥ }
{
    same_within(a, b, a.len().min(b.len()))
}

/// How many of so many bytes are the same from the beginning on. Sixteen are compared at once, also the last
/// sixteen, of which some may have been compared before.
fn same_within(a: &[u8], b: &[u8], most: usize) -> usize
    requires { (most ≤ length a.now) × (most ≤ length b.now) }
    ensures { AreSame a.now b.now most result }
{
    if most < LANES {
        return same_one_by_one(a, b, most);
    }
    let mut same = 0;
    'lanes: while LANES < most - same {
        let more = same_in_lanes(after(a, same), after(b, same));
        if more < LANES {
            return same + more;
        }
        // `more` is `LANES` here; with the constant the processor goes on to the next sixteen before it knows
        // it.
        same += LANES;
    }
    let last = most - LANES;
    last + same_in_lanes(after(a, last), after(b, last))
}

/// How many of the first sixteen bytes are the same from the beginning on.
#[inline(always)]
fn same_in_lanes(a: &[u8], b: &[u8]) -> usize
    requires { (LANES ≤ length a.now) × (LANES ≤ length b.now) }
    ensures { AreSame a.now b.now LANES result }
{
    let marks = differing(a, b);
    if marks == 0 {
        return LANES;
    }
    marks.trailing_zeros() as usize
}

/// Of the first sixteen bytes a bit each, the least for the first: whether they differ.
#[inline(always)]
fn differing(a: &[u8], b: &[u8]) -> u64
    requires { (LANES ≤ length a.now) × (LANES ≤ length b.now) }
    ensures { result ≡ mask_l (unlike (take LANES a.now) (take LANES b.now)) }
{
    u8x16::from_slice(a)
        .simd_ne(u8x16::from_slice(b))
        .to_bitmask()
}

/// How many of so many bytes are the same from the beginning on, compared one by one.
fn same_one_by_one(a: &[u8], b: &[u8], most: usize) -> usize
    requires { (most ≤ length a.now) × (most ≤ length b.now) }
    ensures { AreSame a.now b.now most result }
{
    for n in 0..most {
        if a[n] != b[n] {
            return n;
        }
    }
    most
}
