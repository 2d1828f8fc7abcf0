//! Lists in the other direction.

ghost use Rattle.std.specs.Prelude.{◌≡◌, IfOk, map, reverse};
ghost use Rattle.element_numbers.specs.Cuts.{rows_of, IsCut};

use element_numbers::Rows;
use events::Memory;
use std::alloc::Global;

/// The numbers of a row, the last one first.
fn row_turned(alloc: Global, row: &[u32]) -> Result<Vec<u32>, Memory>
    ensures { IfOk result (λ v. v.items ≡ reverse row.now) }
{
    let turned = row.iter().rev().copied().collect(alloc)?;
    Ok(turned)
}

/// Each row in the other direction.
pub fn rows_turned(alloc: Global, rows: &Rows<u32>) -> Result<Rows<u32>, Memory>
    requires { IsCut rows.now }
    ensures cut { IfOk result (λ t. IsCut t) }
    ensures rows { IfOk result (λ t. rows_of t ≡ map reverse (rows_of rows.now)) }
{
    let mut turned = Rows::new(alloc);
    for list in 0..rows.ends.len() {
        let row = row_turned(alloc, rows.row(list))?;
        turned.push_row(&row)?;
    }
    Ok(turned)
}
