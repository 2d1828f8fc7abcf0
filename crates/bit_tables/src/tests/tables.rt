//! Tables of what stands after what, and the layer rule asked of them.
ghost use Rattle.std.specs.Prelude.{◌≡◌, ◌<◌, ◌≤◌, All, IfOk, length};
ghost use Rattle.bit_tables.specs.Lists.{HaveWidth};
ghost use Rattle.bit_tables.specs.Rule.{HaveDepths};

use crate::{AfterTable, Noter, are_deep};
use std::alloc::{AllocError, Global};
use std::test::Fail;

/// The list of some of the numbers below 70, those that are less.
fn list_of(alloc: Global, numbers: &[u32]) -> Result<Vec<u32>, AllocError>
    ensures { IfOk result (λ list. All (λ x. x < 70) list.items) }
{
    let mut list = Vec::new(alloc);
    for n in numbers {
        if *n < 70 {
            list.push(*n)?;
        }
    }
    Ok(list)
}

/// The table of lists of those of the numbers that are below 70, each noted beside the one before.
fn try_table(alloc: Global, lists: &[&[u32]]) -> Result<AfterTable, AllocError>
    ensures len { IfOk result (λ table. length table ≡ 70) }
    ensures width { IfOk result (HaveWidth 2) }
{
    let mut table = AfterTable::new(alloc, 70)?;
    let mut noter = Noter::new(alloc, 70)?;
    let mut known = Vec::new(alloc);
    for numbers in lists {
        let list = list_of(alloc, numbers)?;
        table.add(&mut noter, &known, &list)?;
        known = list;
    }
    Ok(table)
}

/// The same. A call that finds no memory is made again.
pub fn table_of(alloc: Global, lists: &[&[u32]]) -> Result<AfterTable, Fail>
    ensures len { IfOk result (λ table. length table ≡ 70) }
    ensures width { IfOk result (HaveWidth 2) }
{
    match try_table(alloc, lists) {
        Ok(table) => Ok(table),
        Err(_) => Ok(try_table(alloc, lists)?),
    }
}

/// The table of two lists.
fn small_table(alloc: Global) -> Result<AfterTable, Fail>
    ensures len { IfOk result (λ table. length table ≡ 70) }
    ensures width { IfOk result (HaveWidth 2) }
{
    table_of(
        alloc,
        [[3, 69, 5].as_slice(), [5, 64, 3].as_slice()].as_slice(),
    )
}

#[test]
fn what_stands_after_what(rt: HostRuntime) -> Result<(), Fail> {
    let table = small_table(rt.alloc())?;
    let rows = [
        (3, [5, 69].as_slice()),
        (5, [3, 64].as_slice()),
        (64, [3].as_slice()),
        (69, [5].as_slice()),
        (0, [].as_slice()),
    ];
    for (a, expected) in rows {
        for b in 0..70 {
            assert_eq!(rt; table.after(a).contains(b), expected.contains(&b));
        }
    }
    Ok(())
}

/// Whether a list has a at a lesser place than b.
fn has_in_order(list: &[u32], a: u32, b: u32) -> bool {
    let mut found = false;
    for x in list {
        if found && *x == b {
            return true;
        }
        found = found || *x == a;
    }
    false
}

/// Whether a table of 70 rows has exactly what the lists show.
fn is_of_lists(table: &AfterTable, lists: &[&[u32]]) -> bool
    requires { length table.now ≡ 70 }
{
    for a in 0..70u32 {
        for b in 0..70u32 {
            let shown = lists.iter().any(|list| has_in_order(list, a, b));
            if table.after(a as usize).contains(b as usize) != shown {
                return false;
            }
        }
    }
    true
}

/// Lists that are to be noted each beside the one before.
const LISTS: &[&[u32]] = &[
    &[],
    &[7],
    &[
        0, 1, 2, 3, 4, 5, 6, 7, 8, 9, 10, 11, 12, 13, 14, 15, 16, 17, 18, 19, 20, 21, 22, 23, 24,
        25, 26, 27, 28, 29, 30, 31, 32, 33, 34, 35, 36, 37, 38, 39, 40, 41, 42, 43, 44, 45, 46, 47,
        48, 49, 50, 51, 52, 53, 54, 55, 56, 57, 58, 59, 60, 61, 62, 63, 64, 65, 66, 67, 68, 69,
    ],
    &[
        69, 7, 0, 1, 2, 3, 4, 5, 6, 8, 9, 10, 11, 12, 13, 14, 15, 16, 17, 18, 19, 20, 21, 22, 23,
        24, 25, 26, 27, 28, 29, 30, 31, 32, 33, 34, 35, 36, 37, 38, 39, 40, 41, 42, 43, 44, 45, 46,
        47, 48, 49, 50, 51, 52, 53, 54, 55, 56, 57, 58, 59, 60, 61, 62, 63, 64, 65, 66, 67, 68,
    ],
    &[69, 0, 2, 4, 6, 1, 3, 64, 65],
    &[69, 2, 64],
    &[65, 69, 2, 5, 64, 63],
    &[64, 65, 2, 5, 2, 69],
    &[],
    &[5, 2, 5, 69],
    &[66, 5, 69, 67],
];

#[test]
fn lists_beside_the_one_before(rt: HostRuntime) -> Result<(), Fail> {
    for start in 0..LISTS.len() {
        for end in start..LISTS.len() + 1 {
            let lists = &LISTS[start..end];
            let table = table_of(rt.alloc(), lists)?;
            assert!(rt; is_of_lists(&table, lists), "of lists {start} to {end}");
        }
    }
    Ok(())
}

/// Whether the row of a number has nothing that the row of the number before has not.
fn is_in_row_before(table: &AfterTable, a: usize) -> bool
    requires { length table.now ≡ 70 }
{
    if a == 0 || a >= 70 {
        return false;
    }
    for b in 0..70 {
        if table.after(a).contains(b) && !table.after(a - 1).contains(b) {
            return false;
        }
    }
    true
}

#[test]
fn rows_that_the_row_before_has(rt: HostRuntime) -> Result<(), Fail> {
    for end in 0..LISTS.len() + 1 {
        let lists = &LISTS[..end];
        let mut table = table_of(rt.alloc(), lists)?;
        for a in 0..71 {
            assert!(rt; !table.is_included(a), "{a} is not noted");
        }
        if table.note_included(rt.alloc()).is_err() {
            table.note_included(rt.alloc())?;
        }
        for a in 0..71 {
            let is_noted = table.is_included(a);
            assert_eq!(rt; is_noted, is_in_row_before(&table, a), "{a} of {end} lists");
        }
        assert!(rt; is_of_lists(&table, lists), "of {end} lists");
    }
    Ok(())
}

/// The depth of a number, which is the count at most: that of the first pair of the number, or else the
/// count.
fn depth_of(known: &[(u32, u32)], count: u32, x: u32) -> u32
    ensures { result ≤ count }
{
    for (number, depth) in known {
        if *number == x {
            return (*depth).min(count);
        }
    }
    count
}

/// The depths of the numbers below 70, where those of some numbers are known: for each other the count.
fn depths_of(alloc: Global, count: u32, known: &[(u32, u32)]) -> Result<Vec<u32>, Fail>
    ensures len { IfOk result (λ depths. length depths.items ≡ 70) }
    ensures most { IfOk result (λ depths. All (λ d. d ≤ count) depths.items) }
{
    let mut depths = Vec::new(alloc);
    for x in 0..70u32 {
        let depth = depth_of(known, count, x);
        if depths.push(depth).is_err() {
            depths.push(depth)?;
        }
    }
    Ok(depths)
}

/// The numbers below 70 whose depth is below the count.
fn noted_of(alloc: Global, depths: &[u32], count: u32) -> Result<Vec<u32>, AllocError>
    requires { length depths.now ≡ 70 }
    ensures { IfOk result (λ noted. HaveDepths depths.now count noted.items) }
{
    let mut noted = Vec::new(alloc);
    for x in 0..70u32 {
        if depths[x as usize] < count {
            noted.push(x)?;
        }
    }
    Ok(noted)
}

/// What `are_deep` answers of depths, whose numbers are looked for first.
fn are_all_deep(
    alloc: Global,
    table: &AfterTable,
    depths: &[u32],
    count: u32,
    first: u32,
    source: u32,
) -> Result<bool, AllocError>
    requires depths { length depths.now ≡ 70 }
    requires first { first ≤ 70 }
    requires most { All (λ d. d ≤ count) depths.now }
    requires table { length table.now ≡ 70 }
    requires width { HaveWidth 2 table.now }
{
    let noted = noted_of(alloc, depths, count)?;
    are_deep(alloc, table, depths, &noted, count, first, source)
}

#[test]
fn the_rule_from_a_number_on(rt: HostRuntime) -> Result<(), Fail> {
    let table = small_table(rt.alloc())?;
    // The source, a number one deeper, the count, the first number that counts, and whether they meet the
    // rule: 3 stands after 5 and before it, and 3 before 69 and 69 before 5.
    let rows = [
        (5, 64, 2, 0, false),
        (5, 64, 2, 3, false),
        (5, 64, 2, 4, true),
        (5, 64, 2, 5, true),
        (5, 69, 2, 5, false),
        (64, 3, 2, 0, true),
        (64, 64, 2, 3, false),
        (64, 64, 2, 4, true),
        (69, 5, 3, 3, false),
        (69, 5, 3, 4, true),
    ];
    for (source, next, count, first, expected) in rows {
        assert!(rt; count >= 2 && first <= 70);
        let depths = depths_of(rt.alloc(), 2, [(source, 0), (next, 1)].as_slice())?;
        let deep = match are_all_deep(rt.alloc(), &table, &depths, count, first, source) {
            Ok(deep) => deep,
            Err(_) => are_all_deep(rt.alloc(), &table, &depths, count, first, source)?,
        };
        assert_eq!(rt; deep, expected, "at {source}, {next}, {count}, {first}");
    }
    Ok(())
}

#[test]
fn depths_that_lie_far_apart(rt: HostRuntime) -> Result<(), Fail> {
    let table = small_table(rt.alloc())?;
    let most = 4_294_967_294;
    // The count, the source, the depths of 5, 64 and 69, and whether they meet the rule: from 4 on, 5 stands
    // after 69 and 64 after 5, and no other pair of numbers stands in a list.
    let rows = [
        (most, 69, 1, 2, 0, true),
        (most, 69, 2, 2, 0, false),
        (most, 69, 8, 9, 7, true),
        (most, 69, 8, 10, 7, false),
        (most, 69, 8, 9, 6, false),
        (most, 69, 8, 1_000, 7, false),
        (most, 69, 8, most, 7, false),
        (most, 69, 1_000, 1_001, 7, false),
        (most, 69, 7, 8, 1_000, true),
        (most, 69, 7, 9, 1_000, false),
        (most, 69, most, most, most - 1, true),
        (most, 69, most, most, most - 2, false),
        (most, 69, most - 1, most, most - 2, true),
        (most, 64, most, 0, most, true),
        (most, 64, most, 0, most - 1, true),
        (most, 64, most, 0, most - 2, false),
        (most, 64, most - 1, 0, most, false),
        (most, 64, 0, 0, most, false),
        (most + 1, 64, most + 1, 3, most, true),
        (most + 1, 64, most, 3, most, false),
        (70, 69, 8, 9, 7, true),
        (70, 69, 8, 10, 7, false),
        (71, 69, 8, 9, 7, true),
        (71, 69, 8, 10, 7, false),
    ];
    for (count, source, five, next, last, expected) in rows {
        assert!(rt; five <= count && next <= count && last <= count);
        let depths = depths_of(
            rt.alloc(),
            count,
            [(5, five), (64, next), (69, last)].as_slice(),
        )?;
        let deep = match are_all_deep(rt.alloc(), &table, &depths, count, 4, source) {
            Ok(deep) => deep,
            Err(_) => are_all_deep(rt.alloc(), &table, &depths, count, 4, source)?,
        };
        assert_eq!(rt;
            deep,
            expected,
            "at {count}, {source}, {five}, {next}, {last}"
        );
    }
    Ok(())
}
