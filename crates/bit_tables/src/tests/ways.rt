//! The layers of numbers that so many steps lead to.
ghost use Rattle.std.specs.Prelude.{◌≡◌, ◌<◌, ◌≤◌, IfOk, length};
ghost use Rattle.bit_tables.specs.Lists.{HaveWidth};

use super::tables::table_of;
use crate::{AfterTable, layers_from};
use std::alloc::Global;
use std::test::Fail;

/// The table of five lists of two numbers.
fn table_of_pairs(alloc: Global, pairs: [[u32; 2]; 5]) -> Result<AfterTable, Fail>
    ensures len { IfOk result (λ table. length table ≡ 70) }
    ensures width { IfOk result (λ table. HaveWidth 2 table) }
{
    let lists = [
        pairs[0].as_slice(),
        pairs[1].as_slice(),
        pairs[2].as_slice(),
        pairs[3].as_slice(),
        pairs[4].as_slice(),
    ];
    table_of(alloc, lists.as_slice())
}

/// Whether these are the first four layers of a table of 70 rows. A call that finds no memory is made again.
fn has_layers(
    alloc: Global,
    table: &AfterTable,
    source: u32,
    first: u32,
    expected: [&[u32]; 4],
) -> Result<bool, Fail>
    requires len { length table.now ≡ 70 }
    requires width { HaveWidth 2 table.now }
{
    if source >= 70 || first > source {
        return Ok(false);
    }
    let layers = match layers_from(alloc, table, 70, source, first, 4) {
        Ok(layers) => layers,
        Err(_) => layers_from(alloc, table, 70, source, first, 4)?,
    };
    Ok(are_alike(&layers, expected.as_slice()))
}

/// Whether the lists are the same.
fn are_alike(layers: &[Vec<u32>], expected: &[&[u32]]) -> bool {
    if layers.len() != expected.len() {
        return false;
    }
    for d in 0..layers.len() {
        if layers[d].as_slice() != expected[d] {
            return false;
        }
    }
    true
}

/// A shorter way from 10 leads through a number that does not count.
const SHORTER: [[u32; 2]; 5] = [[10, 2], [2, 65], [10, 11], [11, 12], [12, 65]];

const ROUND: [[u32; 2]; 5] = [[1, 2], [2, 3], [3, 1], [1, 69], [69, 3]];

/// Lists, a source, the first number that counts, and the first four layers.
const WAYS: &[([[u32; 2]; 5], u32, u32, [&[u32]; 4])] = &[
    (SHORTER, 10, 0, [&[10], &[2, 11], &[12, 65], &[]]),
    (SHORTER, 10, 3, [&[10], &[11], &[12], &[65]]),
    (SHORTER, 10, 10, [&[10], &[11], &[12], &[65]]),
    (ROUND, 1, 1, [&[1], &[2, 69], &[3], &[]]),
    (ROUND, 3, 3, [&[3], &[], &[], &[]]),
];

#[test]
fn layers_of_numbers(rt: HostRuntime) -> Result<(), Fail> {
    for (pairs, source, first, expected) in WAYS.iter().copied() {
        let table = table_of_pairs(rt.alloc(), pairs)?;
        let is_so = has_layers(rt.alloc(), &table, source, first, expected)?;
        assert!(rt; is_so, "at {source} {first}");
    }
    Ok(())
}
