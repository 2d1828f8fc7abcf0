//! Lists noted beside one that is known, each from its end on.

ghost use Rattle.std.specs.Prelude.{◌≡◌, ◌<◌, ◌≤◌, ◌+◌, ◌/◌, ◌⊎◌, ◌↔◌, ℕ, [], All, IfOk, OnOk, Some, true};
ghost use Rattle.std.specs.Prelude.{length, slice_get, vec_len};
ghost use Rattle.bit_tables.specs.Sets.{Has};
ghost use Rattle.bit_tables.specs.Lists.{HasInOrder, HasList, HaveWidth, row_of};
ghost use Rattle.bit_tables.specs.Backs.{IsBack, IsSized, StandsFrom};

use super::bits::BitSet;
use super::few::add_few;
use std::alloc::{AllocError, Global};
use std::marker::Model;

/// What is known of a list from one of its places on, beside a list that is known.
///
/// `after` has the numbers that stand there, and `places` for each number where it stood in a list noted
/// earlier. Some of the numbers stand in the known list too, in the same order, from its place `next` on; the
/// others are `fresh`.
#[derive(Drop)]
pub struct Back {
    pub after: BitSet,
    pub fresh: Vec<u32>,
    pub places: Vec<usize>,
    pub next: usize,
}

impl Back {
    /// Nothing is known of a list behind its last place.
    fn begin(&mut self, next: usize)
        ensures width { length self.new.after ≡ length self.old.after }
        ensures after { (x : ℕ) → ¬ Has self.new.after x }
        ensures fresh { self.new.fresh.items ≡ [] }
        ensures places { self.new.places ≡ self.old.places }
        ensures next { self.new.next ≡ next }
    {
        self.after.clear();
        self.fresh.clear();
        self.next = next;
    }
}

/// Whether a number stands in the known list at this place, before the place `next`.
fn is_kept(known: &[u32], place: usize, next: usize, x: u32) -> bool
    ensures { result ≡ true → (place < next) × (slice_get known.now place ≡ Some x) }
{
    place < next && known.get(place) == Some(&x)
}

/// Takes note of what stands after the number at a place of a list.
fn note_place(
    rows: &mut [BitSet],
    back: &mut Back,
    known: &[u32],
    list: &[u32],
    i: usize,
) -> Result<(), AllocError>
    requires place { i < length list.now }
    requires within { All (λ x. x < length rows.old) list.now }
    requires sized { IsSized rows.old back.old }
    requires known { HasList rows.old known.now }
    requires back { IsBack known.now list.now (i + 1) back.old }
    ensures len { length rows.new ≡ length rows.old }
    ensures width { length back.new.after ≡ length back.old.after }
    ensures sized { IsSized rows.new back.new }
    ensures noted { OnOk result ((a b : ℕ) → a < length rows.old → Has (row_of rows.new a) b
        ↔ (Has (row_of rows.old a) b ⊎ ((slice_get list.now i ≡ Some a) × StandsFrom (i + 1) list.now b))) }
    ensures back { OnOk result (IsBack known.now list.now i back.new) }
{
    let x = list[i];
    let place = back.places[x as usize];
    if is_kept(known, place, back.next, x) {
        add_few(&mut rows[x as usize], back.fresh.as_slice(), &back.after);
        back.next = place;
    } else {
        rows[x as usize].union_with(&back.after);
        back.fresh.push(x)?;
    }
    back.after.insert(x as usize);
    back.places[x as usize] = i;
    Ok(())
}

/// Adds to the row of each number in the list those that stand after it there.
fn note_list(
    rows: &mut [BitSet],
    back: &mut Back,
    known: &[u32],
    list: &[u32],
) -> Result<(), AllocError>
    requires within { All (λ x. x < length rows.old) list.now }
    requires sized { IsSized rows.old back.old }
    requires known { HasList rows.old known.now }
    ensures len { length rows.new ≡ length rows.old }
    ensures width { length back.new.after ≡ length back.old.after }
    ensures sized { IsSized rows.new back.new }
    ensures shown { OnOk result ((a b : ℕ) → a < length rows.old
        → Has (row_of rows.new a) b ↔ (Has (row_of rows.old a) b ⊎ HasInOrder list.now a b)) }
{
    back.begin(known.len());
    'places: for i in (0..list.len()).rev() {
        note_place(rows, back, known, list, i)?;
    }
    Ok(())
}

/// What is at hand while lists of numbers are noted, and is made once for all of them.
#[derive(Drop)]
pub struct Noter {
    back: Back,
}

/// The numbers are below this one.
impl Model for Noter {
    ghost Value = { ℕ };

    ghost view = { λ t. length t.back.places.items };

    ghost invariant = { λ t. length t.back.after ≡ length t.back.places.items / 64 + 1 };
}

impl Noter {
    /// For lists of numbers below `n`. It takes about `12 * n` bytes.
    pub fn new(alloc: Global, n: usize) -> Result<Noter, AllocError>
        ensures { IfOk result (λ t. t ≡ n) }
    {
        let back = Back {
            after: BitSet::new(alloc, n)?,
            fresh: Vec::with_capacity(alloc, n)?,
            places: Vec::from_elem(alloc, 0usize, n)?,
            next: 0,
        };
        Ok(Noter { back })
    }

    /// Adds to the row of each number in the list those that stand after it there, where the rows have what
    /// the known list shows.
    pub(super) fn note(
        &mut self,
        rows: &mut [BitSet],
        known: &[u32],
        list: &[u32],
    ) -> Result<(), AllocError>
        requires within { All (λ x. x < length rows.old) list.now }
        requires width { HaveWidth (length rows.old / 64 + 1) rows.old }
        requires size { self.old ≡ length rows.old }
        requires known { HasList rows.old known.now }
        ensures len { length rows.new ≡ length rows.old }
        ensures width { HaveWidth (length rows.old / 64 + 1) rows.new }
        ensures size { self.new ≡ self.old }
        ensures shown { OnOk result ((a b : ℕ) → a < length rows.old
            → Has (row_of rows.new a) b ↔ (Has (row_of rows.old a) b ⊎ HasInOrder list.now a b)) }
    {
        note_list(rows, &mut self.back, known, list)
    }
}
