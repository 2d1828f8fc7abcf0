//! In which way rows are judged: along the lists, or by a table, whichever is found to be cheaper.

ghost use Rattle.std.specs.Prelude.{◌≡◌, ◌↔◌, ◌^◌, ◌<◌, ◌≤◌, All, IfOk, IfSome, IsTrue, MatchOption, OnOk};
ghost use Rattle.std.specs.Prelude.{length, slice_index_or};
ghost use Rattle.bit_tables.specs.Lists.{IsTableOf};
ghost use Rattle.bit_tables.specs.Rule.{HaveDepths, MeetsRule};
ghost use Rattle.element_numbers.specs.Cuts.{IsCut};
ghost use Rattle.cert_check.specs.Numbering.{AreWays, AreWithin, IsTableFor, lists_of};

use super::numbered::Numbered;
use super::row_depths::RowDepths;
use bit_tables::{AfterTable, Noter, are_deep};
use events::Memory;
use list_rule::ListRule;
use std::alloc::Global;

/// Which elements are shown after which, in the responses that cover all. Each of these costs `n / 64` steps
/// for n elements, and each of its places a step, and one for each new element behind it, up to 64; where
/// there are more, or its own is new, `n / 64` steps. New is an element that the one before has not, or in
/// another order. In the end it notes for each element whether the row of the one before has all of its row, in
/// up to `n / 64` steps and a byte each.
fn after_table(alloc: Global, numbered: &Numbered) -> Result<AfterTable, Memory>
    requires cut { IsCut numbered.now.places }
    requires within { AreWithin (length numbered.now.names.items) numbered.now }
    ensures { IfOk result (λ t. IsTableOf (length numbered.now.names.items) (lists_of numbered.now) t) }
{
    let n = numbered.names.len();
    let mut table = AfterTable::new(alloc, n)?;
    let mut noter = Noter::new(alloc, n)?;
    let mut known = [].as_slice();
    for i in 0..numbered.places.ends.len() {
        let row = numbered.places.row(i);
        table.add(&mut noter, known, row)?;
        known = row;
    }
    table.note_included(alloc)?;
    Ok(table)
}

/// Makes the table of which elements are shown after which, unless that was done.
fn make_table(
    alloc: Global,
    numbered: &Numbered,
    table: &mut Option<AfterTable>,
) -> Result<(), Memory>
    requires cut { IsCut numbered.now.places }
    requires within { AreWithin (length numbered.now.names.items) numbered.now }
    requires table { IfSome table.old (IsTableFor numbered.now) }
    ensures { OnOk result (MatchOption table.new ⊥ (IsTableFor numbered.now)) }
{
    if table.is_none() {
        let made = after_table(alloc, numbered)?;
        *table = Some(made);
    }
    Ok(())
}

/// What `are_deep` answers by the table, which is made where it was not.
fn are_deep_by_table(
    alloc: Global,
    numbered: &Numbered,
    table: &mut Option<AfterTable>,
    depths: &RowDepths,
    most: u32,
    first: u32,
    source: u32,
) -> Result<bool, Memory>
    requires cut { IsCut numbered.now.places }
    requires within { AreWithin (length numbered.now.names.items) numbered.now }
    requires table { IfSome table.old (IsTableFor numbered.now) }
    requires few { length numbered.now.names.items < 2 ^ 32 }
    requires size { length depths.now.depths.items ≡ length numbered.now.names.items }
    requires first { first ≤ length numbered.now.names.items }
    requires noted { HaveDepths depths.now.depths.items most depths.now.noted.items }
    requires most { All (λ d. d ≤ most) depths.now.depths.items }
    ensures table { IfOk result (λ _. IfSome table.new (IsTableFor numbered.now)) }
    ensures deep { IfOk result (λ deep. IsTrue deep ↔ MeetsRule (lists_of numbered.now) first source most
        (λ x. slice_index_or depths.now.depths.items x most)) }
{
    make_table(alloc, numbered, table)?;
    let Some(made) = table else { unreachable!() };
    let deep = are_deep(
        alloc,
        made,
        &depths.depths,
        &depths.noted,
        most,
        first,
        source,
    )?;
    Ok(deep)
}

/// How many words a table of so many elements has, of 64 bits each.
fn words_of(elements: usize) -> u64 {
    let elements = elements as u64;
    elements.saturating_mul(elements / 64 + 1)
}

/// How many rows of a table it takes to judge a row by it: one for each name that is not in the last layer, and
/// one for each layer up to that of the last name.
fn unions_of(depths: &RowDepths, most: u32) -> u64 {
    let mut unions = 0u64;
    let mut layers = 0u64;
    for number in &depths.noted {
        let Some(depth) = depths.depths.get(*number as usize) else {
            return unions;
        };
        layers = u64::from(*depth).saturating_add(1);
        if layers < u64::from(most) {
            unions = unions.saturating_add(1);
        }
    }
    unions.saturating_add(layers)
}

/// The lists or the table by which rows are judged: neither before the first row. No clause says which it is,
/// since the answer is the same.
///
/// A table of which elements are shown after which takes `n * n / 8` bytes for n elements, and is made as
/// `after_table` says. The lists take 8 bytes for each place of those that are kept, and some for each element
/// and each list; of neighbours where one is a part of the other, only that other is kept.
#[derive(Drop)]
pub struct Ways {
    pub lists: Option<ListRule>,
    pub table: Option<AfterTable>,
    /// What a table and the rows so far would have cost along it, in its words.
    pub by_table: u64,
}

impl Ways {
    /// No way is chosen.
    pub fn new() -> Ways
        ensures { (t : Numbered) → AreWays t result }
    {
        Ways {
            lists: None,
            table: None,
            by_table: 0,
        }
    }

    /// Lets the lists go where rows along them have cost more than a table and they along it would have: the
    /// table is made then, and serves all rows behind. Where no way is chosen, makes the lists, unless a table
    /// has no more words of 64 bits than these have places.
    fn choose(&mut self, alloc: Global, numbered: &Numbered) -> Result<(), Memory>
        requires cut { IsCut numbered.now.places }
        requires within { AreWithin (length numbered.now.names.items) numbered.now }
        requires ways { AreWays numbered.now self.old }
        ensures { OnOk result (AreWays numbered.now self.new) }
    {
        if let Some(lists) = &self.lists {
            if lists.cost() > self.by_table {
                self.lists = None;
            }
            return Ok(());
        }
        let n = numbered.names.len();
        let places = numbered.places.items.len() as u64;
        if self.table.is_none() && words_of(n) > places {
            self.by_table = words_of(n).saturating_add(places);
            self.lists = ListRule::new(alloc, n, &numbered.places)?;
        }
        Ok(())
    }

    /// Whether a row's depths meet the layer rule for its source, as `are_deep` asks it of a table.
    ///
    /// Along lists it takes a step for each place behind the noted elements that are not in the last layer,
    /// each place of a list once, one for each spot of the noted elements and of the source, and no memory. By
    /// a table it takes `n / 64` steps for the row, for each noted element that is not in the last layer and
    /// for each layer behind one that has elements, n being the number of elements; where `most` is more than
    /// n, about `n * log n` steps besides, to sort the depths. So rows cost at most about twice what they do
    /// in the cheaper of the two ways, beside the making of both.
    pub fn are_deep(
        &mut self,
        alloc: Global,
        numbered: &Numbered,
        depths: &RowDepths,
        most: u32,
        first: u32,
        source: u32,
    ) -> Result<bool, Memory>
        requires cut { IsCut numbered.now.places }
        requires within { AreWithin (length numbered.now.names.items) numbered.now }
        requires ways { AreWays numbered.now self.old }
        requires few { length numbered.now.names.items < 2 ^ 32 }
        requires size { length depths.now.depths.items ≡ length numbered.now.names.items }
        requires first { first ≤ length numbered.now.names.items }
        requires noted { HaveDepths depths.now.depths.items most depths.now.noted.items }
        requires most { All (λ d. d ≤ most) depths.now.depths.items }
        ensures ways { IfOk result (λ _. AreWays numbered.now self.new) }
        ensures deep { IfOk result (λ deep. IsTrue deep ↔ MeetsRule (lists_of numbered.now) first source most
            (λ x. slice_index_or depths.now.depths.items x most)) }
    {
        self.choose(alloc, numbered)?;
        let Some(lists) = &mut self.lists else {
            return are_deep_by_table(
                alloc,
                numbered,
                &mut self.table,
                depths,
                most,
                first,
                source,
            );
        };
        let row = numbered.names.len() as u64 / 64 + 1;
        self.by_table = self
            .by_table
            .saturating_add(unions_of(depths, most).saturating_mul(row));
        Ok(lists.are_deep(
            &numbered.places,
            &depths.depths,
            &depths.noted,
            most,
            first,
            source,
        ))
    }
}
