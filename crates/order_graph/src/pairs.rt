//! Whether one element stands before another.

ghost use Rattle.std.specs.Prelude.{◌≡◌, true, false};
ghost use Rattle.order_graph.specs.Lists.{IsBehind};

/// Whether an element stands in a row after a place.
pub fn stands_behind(row: &[u32], place: u32, b: u32) -> bool
    ensures found { result ≡ true → IsBehind row.now place b }
    ensures absent { result ≡ false → ¬ IsBehind row.now place b }
{
    let from = place as usize + 1;
    from < row.len() && row[from..].contains(&b)
}
