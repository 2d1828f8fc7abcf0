//! Runs of names: those of another response that a text goes on with, and how a run is put at the end of a
//! response.

ghost use Rattle.std.specs.Prelude.{◌≡◌, ℕ, ◌+◌, ◌-◌, ◌<◌, ◌≤◌, ◌^◌, ◌++◌, Some, All, IfOk, OnOk, OnErr};
ghost use Rattle.std.specs.Prelude.{List, length, map, take, drop, slice_get, slice_index, vec_len};
ghost use Rattle.std.specs.Prelude.{vec_capacity};
ghost use Rattle.std.specs.Prelude.{nat_le};
ghost use Rattle.std.specs.List.Sorted.{IsNonDecreasingBy};
ghost use Rattle.events.specs.Names.{NameBytes, IsName};
ghost use Rattle.events.specs.Packed.{spaced, ends_of};
ghost use Rattle.events.specs.Runs.{IsLongestRun, may_follow};

use super::Response;
use super::same_names::{after, same_bytes, start_from};
use crate::Memory;

/// Names that a text begins with.
#[derive(Clone, Copy, Debug, PartialEq, Eq)]
pub struct Run {
    /// How many names.
    pub names: usize,
    /// How many bytes of the text they take, each name with the space before it.
    pub bytes: usize,
}

impl Response {
    /// Puts at the end the names of `other` from place `j` on, as long as the text goes on with them: each
    /// after one space, and the last one before a space or the end of the text. It answers how many they
    /// are, 0 where `j` is past the end. Where memory is wanted the response is as it was. It takes time
    /// linear in these names and their bytes, and a binary search among the places of `other` from `j` on.
    pub fn push_run(&mut self, text: &[u8], other: &Response, j: usize) -> Result<Run, Memory>
        ensures ok { IfOk result (λ run. IsLongestRun text.now (drop j other.now) run.names run.bytes) }
        ensures value { IfOk result (λ run. self.new ≡ self.old ++ take run.names (drop j other.now)) }
        ensures names { All IsName other.now }
        ensures err { OnErr result (self.new ≡ self.old) }
    {
        let ends = other.ends.as_slice();
        if j > ends.len() {
            return Ok(Run { names: 0, bytes: 0 });
        }
        let from = start_from(ends, j);
        let run = longest_run(
            text,
            after(other.bytes.as_slice(), from),
            after(ends, j),
            from,
        );
        self.push_packed(
            front(after(other.bytes.as_slice(), from), run.bytes),
            front(after(ends, j), run.names),
            from,
        )?;
        Ok(run)
    }

    /// Puts names at the end, whose bytes and ends are these where their first space is at `from`. Where
    /// memory is wanted the response is as it was.
    #[inline(always)]
    pub(super) fn push_packed(
        &mut self,
        bytes: &[u8],
        ends: &[u32],
        from: usize,
    ) -> Result<(), Memory>
        requires { (names : List NameBytes) × (All IsName names) × (bytes.now ≡ spaced names)
            × (ends.now ≡ ends_of from names) }
        ensures ok { OnOk result ((names : List NameBytes) → bytes.now ≡ spaced names
            → ends.now ≡ ends_of from names → self.new ≡ self.old ++ names) }
        ensures err { OnErr result (self.new ≡ self.old) }
    {
        let begin = self.bytes.len();
        let Ok(_) = u32::try_from(begin + bytes.len()) else {
            return Err(Memory);
        };
        self.ends.reserve(ends.len())?;
        self.bytes.extend_from_slice(bytes)?;
        put_ends(&mut self.ends, ends, from, begin);
        Ok(())
    }
}

/// What stands before a place.
pub(super) fn front<T: Copy>(items: &[T], place: usize) -> &[T]
    requires { place ≤ length items.now }
    ensures { result.now ≡ take place items.now }
{
    &items[..place]
}

/// Puts ends at the end, each as far after `begin` as it was after `from`. There is room for them.
fn put_ends(own: &mut Vec<u32>, ends: &[u32], from: usize, begin: usize)
    requires room { vec_len own.old + length ends.now ≤ vec_capacity own.old }
    requires range { All (λ end. (from ≤ end) × (begin + (end - from) < 2 ^ 32)) ends.now }
    requires begin { begin < 2 ^ 32 }
    ensures { own.new.items ≡ own.old.items ++ map (λ end. begin + (end - from)) ends.now }
{
    let start = own.len();
    // There is room, so it does not fail.
    let _ = own.extend_from_slice(ends);
    move_ends(&mut own[start..], from, begin);
}

/// Moves ends, each as far after `begin` as it was after `from`.
fn move_ends(ends: &mut [u32], from: usize, begin: usize)
    requires range { All (λ end. (from ≤ end) × (begin + (end - from) < 2 ^ 32)) ends.old }
    requires begin { begin < 2 ^ 32 }
    ensures { ends.new ≡ map (λ end. begin + (end - from)) ends.old }
{
    for k in 0..ends.len() {
        ends[k] = (begin + (ends[k] as usize - from)) as u32;
    }
}

/// The longest run of names that the text begins with, where their bytes begin with the first one's space at
/// `from`.
pub(super) fn longest_run(text: &[u8], bytes: &[u8], ends: &[u32], from: usize) -> Run
    requires packed { (names : List NameBytes) × (bytes.now ≡ spaced names)
        × (ends.now ≡ ends_of from names) }
    requires range { from < 2 ^ 32 }
    ensures { (names : List NameBytes) → bytes.now ≡ spaced names → ends.now ≡ ends_of from names
        → IsLongestRun text.now names result.names result.bytes }
{
    let last = from + same_bytes(text, bytes);
    let names = ends_within(ends, last);
    let bytes = bytes_until(ends, from, names);
    if names == 0 || ends_word(text, bytes) {
        return Run { names, bytes };
    }
    Run {
        names: names - 1,
        bytes: bytes_until(ends, from, names - 1),
    }
}

/// How many of these ends, which rise, are not after `last`.
fn ends_within(ends: &[u32], last: usize) -> usize
    requires { IsNonDecreasingBy (λ end. end) ends.now }
    ensures within { result ≤ length ends.now }
    ensures low { (k : ℕ) → k < result → slice_index ends.now k ≤ last }
    ensures most { (x : ℕ) → slice_get ends.now result ≡ Some x → last < x }
{
    ends.partition_point(
        |end: &u32| -> bool
            ensures { result ≡ nat_le end.now last }
        { *end as usize <= last },
    )
}

/// How many bytes so many names take, with their spaces.
fn bytes_until(ends: &[u32], from: usize, count: usize) -> usize
    requires packed { (names : List NameBytes) × (ends.now ≡ ends_of from names) }
    requires within { count ≤ length ends.now }
    ensures { (names : List NameBytes) → ends.now ≡ ends_of from names
        → result ≡ length (spaced (take count names)) }
{
    if count == 0 {
        0
    } else {
        ends[count - 1] as usize - from
    }
}

/// Whether the text is at its end here, or has a space.
pub(super) fn ends_word(text: &[u8], place: usize) -> bool
    ensures { result ≡ may_follow (slice_get text.now place) }
{
    match text.get(place) {
        None => true,
        Some(byte) => *byte == b' ',
    }
}
