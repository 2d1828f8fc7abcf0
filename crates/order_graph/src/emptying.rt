//! Lists of which some are left empty.

ghost use Rattle.std.specs.Prelude.{◌≡◌, IfOk, length, if◌then◌else◌, slice_index_or};
ghost use Rattle.element_numbers.specs.Cuts.{rows_of, IsCut};
ghost use Rattle.order_graph.specs.Emptied.{emptied_rows, is_marked, unless};
ghost use Rattle.order_graph.specs.Lists.{row};

use element_numbers::Rows;
use events::Memory;
use std::alloc::Global;

/// The row with a number; an empty one where it is marked.
fn row_unless<'a>(rows: &'a Rows<u32>, marks: &[bool], list: usize) -> &'a [u32]
    requires { IsCut rows.now }
    ensures { result.now ≡ unless (is_marked marks.now list) (row (rows_of rows.now) list) }
{
    match marks.get(list) {
        Some(true) => &[],
        _ => rows.row(list),
    }
}

/// Each row; an empty one where it is marked.
pub fn rows_emptied(alloc: Global, rows: &Rows<u32>, marks: &[bool]) -> Result<Rows<u32>, Memory>
    requires { IsCut rows.now }
    ensures cut { IfOk result (λ t. IsCut t) }
    ensures rows { IfOk result (λ t. rows_of t ≡ emptied_rows marks.now (rows_of rows.now)) }
{
    let mut left = Rows::new(alloc);
    for list in 0..rows.ends.len() {
        left.push_row(row_unless(rows, marks, list))?;
    }
    Ok(left)
}
