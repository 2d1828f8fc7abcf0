//! Rows of different lengths in one flat list, with their ends.

ghost use Rattle.std.specs.Prelude.{◌≡◌, ◌<◌, ◌≤◌, ◌-◌, take, drop, [], ◌∷◌, ◌++◌, OnOk, length};
ghost use Rattle.std.specs.Prelude.{◌+◌, slice_index_or, vec_capacity, vec_len};

use events::Memory;
use std::alloc::Global;

/// For how many rows `push_row` makes room where no row is ended yet. `end_row` makes none ahead: where it
/// alone ends rows, the list of ends grows as any list does.
const FIRST_ROWS: usize = 16;

/// For how many values it makes room then at least. Values that are pushed before `end_row` get none ahead.
const FIRST_VALUES: usize = 64;

/// Rows of values, one after the other, and where each ends. What stands after the last end is a row
/// that is begun. `push_row` and `row` ask that none is begun, and that the ends do not fall.
#[derive(Drop)]
pub struct Rows<T: Copy + Drop> {
    pub items: Vec<T>,
    pub ends: Vec<usize>,
}

impl<T: Copy + Drop> Rows<T> {
    ghost use Rattle.element_numbers.specs.Cuts.{rows_of, IsCut, begin_of};

    /// No rows. It takes no memory.
    pub fn new(alloc: Global) -> Rows<T>
        ensures items { result.items.items ≡ [] }
        ensures ends { result.ends.items ≡ [] }
    {
        Rows {
            items: Vec::new(alloc),
            ends: Vec::new(alloc),
        }
    }

    /// Ends the row that is begun.
    pub fn end_row(&mut self) -> Result<(), Memory>
        ensures items { self.new.items.items ≡ self.old.items.items }
        ensures ends { OnOk result (self.new.ends.items ≡ self.old.ends.items ++ (length self.old.items.items)
            ∷ []) }
    {
        self.ends.push(self.items.len())?;
        Ok(())
    }

    /// Adds a row.
    pub fn push_row(&mut self, row: &[T]) -> Result<(), Memory>
        requires { IsCut self.old }
        ensures cut { OnOk result (IsCut self.new) }
        ensures rows { OnOk result (rows_of self.new ≡ rows_of self.old ++ row.now ∷ []) }
    {
        self.make_first_room(row.len())?;
        self.items.extend_from_slice(row)?;
        self.end_row()
    }

    /// Where no row is ended, makes room for the first rows: for 16, and for so many values, 64 at least.
    fn make_first_room(&mut self, values: usize) -> Result<(), Memory>
        ensures items { self.new.items.items ≡ self.old.items.items }
        ensures ends { self.new.ends.items ≡ self.old.ends.items }
        ensures room_for_rows { OnOk result (length self.old.ends.items ≡ 0
            → 16 ≤ vec_capacity self.new.ends) }
        ensures room_for_values { OnOk result (length self.old.ends.items ≡ 0
            → vec_len self.new.items + values ≤ vec_capacity self.new.items) }
    {
        if self.ends.is_empty() {
            self.ends.reserve(FIRST_ROWS)?;
            self.items.reserve(values.max(FIRST_VALUES))?;
        }
        Ok(())
    }

    /// The row with a number, counted from 0; an empty one past the last.
    pub fn row(&self, number: usize) -> &[T]
        requires { IsCut self.now }
        ensures { result.now ≡ slice_index_or (rows_of self.now) number [] }
    {
        let (start, end) = self.bounds(number);
        &self.items[start..end]
    }

    /// Where a row begins and ends; both 0 past the last.
    fn bounds(&self, number: usize) -> (usize, usize)
        requires { IsCut self.now }
        ensures rising { result.0 ≤ result.1 }
        ensures within { result.1 ≤ vec_len self.now.items }
        ensures row { slice_index_or (rows_of self.now) number []
            ≡ take (result.1 - result.0) (drop result.0 self.now.items.items) }
    {
        match self.ends.get(number) {
            None => (0, 0),
            Some(end) => (self.begin(number), *end),
        }
    }

    /// Where a row begins.
    fn begin(&self, number: usize) -> usize
        requires { number < vec_len self.now.ends }
        ensures { result ≡ begin_of 0 self.now.ends.items number }
    {
        if number == 0 {
            0
        } else {
            self.ends[number - 1]
        }
    }
}
