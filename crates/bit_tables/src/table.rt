//! Which numbers stand after which in some lists.

ghost use Rattle.std.specs.Prelude.{◌≡◌, ◌<◌, ◌+◌, ◌/◌, ℕ, [], ◌∷◌, ◌++◌, All, IfOk, OnOk, List, length};
ghost use Rattle.std.specs.Prelude.{true};
ghost use Rattle.bit_tables.specs.Sets.{Has};
ghost use Rattle.bit_tables.specs.Included.{AreIncluded, IsIncluded};
ghost use Rattle.bit_tables.specs.Lists.{HasList, HaveWidth, IsTableOf, row_of};

use super::bits::BitSet;
use super::noting::Noter;
use std::alloc::{AllocError, Global};
use std::marker::Model;

/// For each number the set of those that stand after it in some list. It may have noted of some numbers that
/// the row of the number before has all that their rows have.
#[derive(Drop)]
pub struct AfterTable {
    rows: Vec<BitSet>,
    included: Vec<bool>,
}

/// Its rows.
impl Model for AfterTable {
    ghost use Rattle.std.specs.Prelude.{ℕ, List};
    ghost use Rattle.bit_tables.specs.Included.{AreIncluded};

    ghost Value = { List (List ℕ) };

    ghost view = { λ t. t.rows.items };

    ghost invariant = { λ t. AreIncluded t.rows.items t.included.items };
}

/// So many empty rows, each with room for the numbers up to `n`.
pub fn empty_rows(alloc: Global, n: usize) -> Result<Vec<BitSet>, AllocError>
    ensures len { IfOk result (λ rows. length rows.items ≡ n) }
    ensures width { IfOk result (λ rows. HaveWidth (n / 64 + 1) rows.items) }
    ensures empty { IfOk result (λ rows. (a b : ℕ) → a < n → ¬ Has (row_of rows.items a) b) }
{
    let mut rows = Vec::with_capacity(alloc, n)?;
    'rows: for _i in 0..n {
        let row = BitSet::new(alloc, n)?;
        rows.push(row)?;
    }
    Ok(rows)
}

impl AfterTable {
    /// The table of no list, of numbers below `n`. It takes `n * n / 8` bytes.
    pub fn new(alloc: Global, n: usize) -> Result<AfterTable, AllocError>
        ensures { IfOk result (λ t. IsTableOf n [] t) }
    {
        let rows = empty_rows(alloc, n)?;
        Ok(AfterTable {
            rows,
            included: Vec::new(alloc),
        })
    }

    /// Notes one list more, beside a list that the table knows.
    ///
    /// It takes `n / 64` steps to begin, and a step for each place of the list. A number that the known list
    /// has in the same order is kept, and takes a step more for each number after it that is not kept, or
    /// `n / 64` where these are more than 64; one that is not kept takes `n / 64`. It needs memory only for a
    /// list of more than `n` places.
    ///
    /// After an error the table may have some of what the list shows. No clause says what its rows have then.
    pub fn add(&mut self, noter: &mut Noter, known: &[u32], list: &[u32]) -> Result<(), AllocError>
        requires within { All (λ x. x < length self.old) list.now }
        requires width { HaveWidth (length self.old / 64 + 1) self.old }
        requires noter { noter.old ≡ length self.old }
        requires known { HasList self.old known.now }
        ensures len { length self.new ≡ length self.old }
        ensures width { HaveWidth (length self.old / 64 + 1) self.new }
        ensures noter { noter.new ≡ noter.old }
        ensures table { OnOk result ((lists : List (List ℕ)) → IsTableOf (length self.old) lists self.old
            → IsTableOf (length self.old) (lists ++ list.now ∷ []) self.new) }
        ensures known { OnOk result (HasList self.new list.now) }
    {
        self.included.clear();
        noter.note(&mut self.rows, known, list)
    }

    /// Notes for each number whether the row of the number before has all that its row has, which makes
    /// layers faster where many have. It takes at most `n / 64` steps for each of the n numbers, and a byte
    /// of memory each. After an error nothing is noted that was not before.
    pub fn note_included(&mut self, alloc: Global) -> Result<(), AllocError>
        requires width { HaveWidth (length self.old / 64 + 1) self.old }
        ensures { self.new ≡ self.old }
    {
        let included = included_in(alloc, &self.rows)?;
        self.included = included;
        Ok(())
    }

    /// Whether it was noted that the row of the number before has all that this number's row has. It may be
    /// so and not be noted.
    pub fn is_included(&self, a: usize) -> bool
        ensures { result ≡ true → IsIncluded self.now a }
    {
        self.included.get(a) == Some(&true)
    }

    /// The numbers that stand after this one in some list.
    pub fn after(&self, a: usize) -> &BitSet
        requires { a < length self.now }
        ensures { result.now ≡ row_of self.now a }
    {
        &self.rows[a]
    }
}

/// Whether the row of the number before has all that the row of this one has.
fn is_in_row_before(rows: &[BitSet], x: usize) -> bool
    requires within { x < length rows.now }
    requires width { HaveWidth (length rows.now / 64 + 1) rows.now }
    ensures { result ≡ true → IsIncluded rows.now x }
{
    x > 0 && rows[x].is_subset(&rows[x - 1])
}

/// For each number whether the row of the number before has all that its row has.
fn included_in(alloc: Global, rows: &[BitSet]) -> Result<Vec<bool>, AllocError>
    requires { HaveWidth (length rows.now / 64 + 1) rows.now }
    ensures { IfOk result (λ included. AreIncluded rows.now included.items) }
{
    let mut included = Vec::with_capacity(alloc, rows.len())?;
    for x in 0..rows.len() {
        included.push(is_in_row_before(rows, x))?;
    }
    Ok(included)
}
