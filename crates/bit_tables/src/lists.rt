//! Lists that are to be filled.

ghost use Rattle.std.specs.Prelude.{◌≡◌, [], IfOk, map, replicate, vec_len};

use std::alloc::{AllocError, Global};

/// So many empty lists.
pub fn empty_lists<T: Drop>(alloc: Global, count: usize) -> Result<Vec<Vec<T>>, AllocError>
    ensures count { IfOk result (λ lists. vec_len lists ≡ count) }
    ensures empty { IfOk result (λ lists. map (λ list. list.items) lists.items ≡ replicate count []) }
{
    let mut lists = Vec::new(alloc);
    for _ in 0..count {
        lists.push(Vec::new(alloc))?;
    }
    Ok(lists)
}
