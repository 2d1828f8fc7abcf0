//! Operations whose responses cover those of all, and these responses as numbers.

ghost use Rattle.std.specs.Prelude.{◌≡◌, ◌∷◌, ◌++◌, [], OnOk};
ghost use Rattle.element_numbers.specs.Cuts.{rows_of, IsCut};

use super::rows::Rows;
use events::{Memory, OpName};
use std::alloc::Global;

/// Some operations, in order, whose responses cover those of all: each response is a subsequence of that of
/// one of them, which is the same operation or comes before it. Of each there is a row, the names of its
/// response as the elements' numbers, which count from 0 in the order of the inserts' operations.
#[derive(Drop)]
pub struct Covering {
    pub operations: Vec<OpName>,
    pub rows: Rows<u32>,
}

impl Covering {
    /// No operations. It takes no memory.
    pub fn new(alloc: Global) -> Covering
        ensures operations { result.operations.items ≡ [] }
        ensures cut { IsCut result.rows }
        ensures rows { rows_of result.rows ≡ [] }
    {
        Covering {
            operations: Vec::new(alloc),
            rows: Rows::new(alloc),
        }
    }

    /// Adds an operation whose response has these numbers.
    pub fn add(&mut self, operation: OpName, row: &[u32]) -> Result<(), Memory>
        requires { IsCut self.old.rows }
        ensures operations { OnOk result (self.new.operations.items
            ≡ self.old.operations.items ++ operation ∷ []) }
        ensures cut { OnOk result (IsCut self.new.rows) }
        ensures rows { OnOk result (rows_of self.new.rows ≡ rows_of self.old.rows ++ row.now ∷ []) }
    {
        self.operations.push(operation)?;
        self.rows.push_row(row)
    }

    /// Adds the operations of another one, with their rows.
    pub fn append(&mut self, more: &Covering) -> Result<(), Memory>
        requires own { IsCut self.old.rows }
        requires other { IsCut more.now.rows }
        ensures operations { OnOk result (self.new.operations.items
            ≡ self.old.operations.items ++ more.now.operations.items) }
        ensures cut { OnOk result (IsCut self.new.rows) }
        ensures rows { OnOk result (rows_of self.new.rows ≡ rows_of self.old.rows ++ rows_of more.now.rows) }
    {
        self.operations
            .extend_from_slice(more.operations.as_slice())?;
        for k in 0..more.rows.ends.len() {
            self.rows.push_row(more.rows.row(k))?;
        }
        Ok(())
    }
}
