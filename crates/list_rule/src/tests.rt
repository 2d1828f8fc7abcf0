//! Tests of the judge of rows, each row after others.

ghost use Rattle.std.specs.Prelude.{◌≡◌, ◌<◌, ◌≤◌, All, IfOk, IfSome, length};
ghost use Rattle.bit_tables.specs.Rule.{HaveDepths};
ghost use Rattle.element_numbers.specs.Cuts.{IsCut, rows_of};
ghost use Rattle.list_rule.specs.Judging.{IsRuleOf};

use super::ListRule;
use element_numbers::Rows;
use events::Memory;
use std::alloc::Global;
use std::test::Fail;

/// The list of some of the numbers below 5, those that are less.
fn list_of(alloc: Global, numbers: &[u32]) -> Result<Vec<u32>, Memory>
    ensures { IfOk result (λ list. All (λ x. x < 5) list.items) }
{
    let mut list = Vec::new(alloc);
    for n in numbers {
        if *n < 5 {
            list.push(*n)?;
        }
    }
    Ok(list)
}

/// Lists of those of the numbers that are below 5.
fn try_lists(alloc: Global, lists: &[&[u32]]) -> Result<Rows<u32>, Memory>
    ensures cut { IfOk result IsCut }
    ensures within { IfOk result (λ rows. All (λ list. All (λ x. x < 5) list) (rows_of rows)) }
{
    let mut rows = Rows::new(alloc);
    for numbers in lists {
        let list = list_of(alloc, numbers)?;
        rows.push_row(&list)?;
    }
    Ok(rows)
}

/// The same. A call that finds no memory is made again.
fn lists_of(alloc: Global, lists: &[&[u32]]) -> Result<Rows<u32>, Fail>
    ensures cut { IfOk result IsCut }
    ensures within { IfOk result (λ rows. All (λ list. All (λ x. x < 5) list) (rows_of rows)) }
{
    match try_lists(alloc, lists) {
        Ok(rows) => Ok(rows),
        Err(Memory) => Ok(try_lists(alloc, lists)?),
    }
}

/// The judge of rows along lists. A call that finds no memory is made again.
fn rule_of(alloc: Global, lists: &Rows<u32>) -> Result<Option<ListRule>, Fail>
    requires cut { IsCut lists.now }
    requires within { All (λ list. All (λ x. x < 5) list) (rows_of lists.now) }
    ensures { IfOk result (λ found. IfSome found (IsRuleOf 5 (rows_of lists.now))) }
{
    match ListRule::new(alloc, 5, lists) {
        Ok(rule) => Ok(rule),
        Err(Memory) => Ok(ListRule::new(alloc, 5, lists)?),
    }
}

/// The numbers below 5 whose depth is below the count, in their own order.
fn noted_of(alloc: Global, depths: &[u32], count: u32) -> Result<Vec<u32>, Memory>
    requires { length depths.now ≡ 5 }
    ensures { IfOk result (λ noted. HaveDepths depths.now count noted.items) }
{
    let mut noted = Vec::new(alloc);
    for x in 0..5u32 {
        if depths[x as usize] < count {
            noted.push(x)?;
        }
    }
    Ok(noted)
}

/// What the judge says of depths, whose numbers are looked for first.
fn are_deep(
    alloc: Global,
    rule: &mut ListRule,
    lists: &Rows<u32>,
    depths: &[u32],
    count: u32,
    first: u32,
    source: u32,
) -> Result<bool, Memory>
    requires cut { IsCut lists.now }
    requires within { All (λ list. All (λ x. x < 5) list) (rows_of lists.now) }
    requires rule { IsRuleOf 5 (rows_of lists.now) rule.old }
    requires depths { length depths.now ≡ 5 }
    requires most { All (λ d. d ≤ count) depths.now }
    ensures { IsRuleOf 5 (rows_of lists.now) rule.new }
{
    let noted = noted_of(alloc, depths, count)?;
    Ok(rule.are_deep(lists, depths, &noted, count, first, source))
}

/// Whether two numbers, the one before the other in a list, meet the rule, as it is defined.
fn is_met_by(depths: &[u32], count: u32, first: u32, source: u32, x: u32, y: u32) -> bool {
    let (Some(above), Some(below)) = (depths.get(x as usize), depths.get(y as usize)) else {
        return false;
    };
    if x < first {
        return true;
    }
    if y == source && *above < count {
        return false;
    }
    y < first || u64::from(*below) <= u64::from(*above) + 1
}

/// Whether the depths meet the rule, by all pairs of places of all lists.
fn is_met(lists: &[&[u32]], depths: &[u32], count: u32, first: u32, source: u32) -> bool {
    for list in lists {
        for j in 0..list.len() {
            for i in 0..j {
                if !is_met_by(depths, count, first, source, list[i], list[j]) {
                    return false;
                }
            }
        }
    }
    true
}

/// Whether the judge says the same as the definition, of each source and each first number.
fn is_as_defined(
    alloc: Global,
    rule: &mut ListRule,
    lists: &Rows<u32>,
    read: &[&[u32]],
    depths: &[u32],
    count: u32,
) -> Result<bool, Memory>
    requires cut { IsCut lists.now }
    requires within { All (λ list. All (λ x. x < 5) list) (rows_of lists.now) }
    requires rule { IsRuleOf 5 (rows_of lists.now) rule.old }
    requires depths { length depths.now ≡ 5 }
    requires most { All (λ d. d ≤ count) depths.now }
    ensures { IsRuleOf 5 (rows_of lists.now) rule.new }
{
    for i in 0..36u32 {
        let first = i / 6;
        let source = i % 6;
        let deep = are_deep(alloc, rule, lists, depths, count, first, source)?;
        if deep != is_met(read, depths, count, first, source) {
            return Ok(false);
        }
    }
    Ok(true)
}

/// Depths that a number spells: the x-th digit is that of x, which is the count at most.
fn depths_of(alloc: Global, code: u32, count: u32) -> Result<Vec<u32>, Memory>
    ensures len { IfOk result (λ depths. length depths.items ≡ 5) }
    ensures most { IfOk result (λ depths. All (λ d. d ≤ count) depths.items) }
{
    let mut depths = Vec::new(alloc);
    let mut rest = code;
    for _x in 0..5u32 {
        depths.push((rest % 4).min(count))?;
        rest /= 4;
    }
    Ok(depths)
}

/// Lists: of some each is a part of its neighbour, and some have a number twice.
const LISTS: &[&[&[u32]]] = &[
    &[],
    &[&[0, 1, 2, 3, 4]],
    &[&[0, 1], &[0, 3, 1], &[3, 1], &[4, 0]],
    &[&[2, 0, 4], &[4, 1], &[1, 3, 2]],
    &[&[1, 0, 1], &[0, 2, 0, 3], &[], &[2]],
    &[&[3], &[4, 3, 2, 1, 0], &[4, 2, 0], &[0, 4]],
];

/// Whether the judge says the same as the definition, of each row of some depths, in one order or the other.
fn are_as_defined(
    alloc: Global,
    rule: &mut ListRule,
    lists: &Rows<u32>,
    read: &[&[u32]],
    count: u32,
) -> Result<bool, Memory>
    requires cut { IsCut lists.now }
    requires within { All (λ list. All (λ x. x < 5) list) (rows_of lists.now) }
    requires rule { IsRuleOf 5 (rows_of lists.now) rule.old }
    ensures { IsRuleOf 5 (rows_of lists.now) rule.new }
{
    for code in 0..1024u32 {
        let depths = depths_of(alloc, code, count)?;
        if !is_as_defined(alloc, rule, lists, read, &depths, count)? {
            return Ok(false);
        }
    }
    Ok(true)
}

/// The same of rows of up to three layers.
fn are_all_as_defined(
    alloc: Global,
    rule: &mut ListRule,
    lists: &Rows<u32>,
    read: &[&[u32]],
) -> Result<bool, Memory>
    requires cut { IsCut lists.now }
    requires within { All (λ list. All (λ x. x < 5) list) (rows_of lists.now) }
    requires rule { IsRuleOf 5 (rows_of lists.now) rule.old }
    ensures { IsRuleOf 5 (rows_of lists.now) rule.new }
{
    for count in 0..4u32 {
        if !are_as_defined(alloc, rule, lists, read, count)? {
            return Ok(false);
        }
    }
    Ok(true)
}

#[test]
fn rows_by_the_definition(rt: HostRuntime) -> Result<(), Fail> {
    for read in LISTS {
        let lists = lists_of(rt.alloc(), read)?;
        let Some(mut rule) = rule_of(rt.alloc(), &lists)? else {
            panic!(rt; "the lists are small");
        };
        let same = match are_all_as_defined(rt.alloc(), &mut rule, &lists, read) {
            Ok(same) => same,
            Err(Memory) => are_all_as_defined(rt.alloc(), &mut rule, &lists, read)?,
        };
        assert!(rt; same, "of {} lists", read.len());
    }
    Ok(())
}
