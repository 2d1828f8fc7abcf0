//! Sets of numbers.
ghost use Rattle.std.specs.Prelude.{◌≡◌, IfOk, length};

use crate::BitSet;
use std::alloc::Global;
use std::test::Fail;

/// The set of some numbers, with room for 300. A call that finds no memory is made again.
fn set_of(alloc: Global, numbers: &[usize]) -> Result<BitSet, Fail>
    ensures { IfOk result (λ set. length set ≡ 5) }
{
    let mut set = match BitSet::new(alloc, 300) {
        Ok(set) => set,
        Err(_) => BitSet::new(alloc, 300)?,
    };
    for n in numbers {
        if set.has_room(*n) {
            set.insert(*n);
        }
    }
    Ok(set)
}

/// Whether the set has of the numbers below 400 exactly these.
fn has_exactly(set: &BitSet, numbers: &[usize]) -> bool {
    for n in 0..400 {
        if set.contains(n) != numbers.contains(&n) {
            return false;
        }
    }
    true
}

#[test]
fn numbers_at_the_ends_of_words(rt: HostRuntime) -> Result<(), Fail> {
    let numbers = [0, 1, 63, 64, 127, 128, 255, 300];
    let set = set_of(rt.alloc(), numbers.as_slice())?;
    assert!(rt; has_exactly(&set, numbers.as_slice()));
    assert!(rt; set.has_room(300));
    assert!(rt; !set.has_room(320));
    Ok(())
}

#[test]
fn the_last_number_that_another_set_lacks(rt: HostRuntime) -> Result<(), Fail> {
    let set = set_of(rt.alloc(), [3, 64, 65, 200].as_slice())?;
    let rows = [
        ([200, 65].as_slice(), 300, Some(64)),
        ([].as_slice(), 300, Some(200)),
        ([].as_slice(), 200, Some(65)),
        ([3, 64, 65, 200].as_slice(), 300, None),
        ([].as_slice(), 3, None),
    ];
    for (lacking, below, expected) in rows {
        let other = set_of(rt.alloc(), lacking)?;
        assert_eq!(rt; set.last_of_difference(&other, below), expected);
    }
    Ok(())
}

#[test]
fn unions_and_subsets(rt: HostRuntime) -> Result<(), Fail> {
    let mut set = set_of(rt.alloc(), [5, 70].as_slice())?;
    let other = set_of(rt.alloc(), [6, 70, 299].as_slice())?;
    assert!(rt; !set.is_subset(&other));
    set.union_with(&other);
    assert!(rt; has_exactly(&set, [5, 6, 70, 299].as_slice()));
    assert!(rt; other.is_subset(&set));
    set.clear();
    assert!(rt; has_exactly(&set, [].as_slice()));
    assert!(rt; set.is_subset(&other));
    Ok(())
}

#[test]
fn the_numbers_that_another_set_lacks(rt: HostRuntime) -> Result<(), Fail> {
    let set = set_of(rt.alloc(), [0, 3, 63, 64, 130, 200].as_slice())?;
    let rows = [
        ([].as_slice(), 300, [0, 3, 63, 64, 130, 200].as_slice()),
        ([3, 130, 131].as_slice(), 300, [0, 63, 64, 200].as_slice()),
        ([].as_slice(), 200, [0, 3, 63, 64, 130].as_slice()),
        ([].as_slice(), 64, [0, 3, 63].as_slice()),
        ([].as_slice(), 0, [].as_slice()),
        ([0, 3, 63, 64, 130, 200].as_slice(), 300, [].as_slice()),
    ];
    for (lacking, below, expected) in rows {
        let other = set_of(rt.alloc(), lacking)?;
        let difference = match set.difference(rt.alloc(), &other, below) {
            Ok(numbers) => numbers,
            Err(_) => set.difference(rt.alloc(), &other, below)?,
        };
        assert!(rt; difference.as_slice() == expected);
    }
    Ok(())
}

#[test]
fn the_first_number_that_another_set_lacks(rt: HostRuntime) -> Result<(), Fail> {
    let set = set_of(rt.alloc(), [3, 64, 65, 200].as_slice())?;
    let rows = [
        ([].as_slice(), 0, 300, Some(3)),
        ([].as_slice(), 4, 300, Some(64)),
        ([3, 64].as_slice(), 3, 300, Some(65)),
        ([].as_slice(), 66, 200, None),
        ([].as_slice(), 66, 201, Some(200)),
        ([].as_slice(), 201, 300, None),
        ([].as_slice(), 300, 3, None),
    ];
    for (lacking, from, below, expected) in rows {
        let other = set_of(rt.alloc(), lacking)?;
        assert_eq!(rt; set.first_of_difference(&other, from, below), expected);
    }
    Ok(())
}

#[test]
fn a_union_from_a_number_on(rt: HostRuntime) -> Result<(), Fail> {
    let mut set = set_of(rt.alloc(), [5, 299].as_slice())?;
    let other = set_of(rt.alloc(), [6, 130, 190, 200].as_slice())?;
    set.union_from(&other, 140);
    for n in 140..400 {
        let is_wanted = [190, 200, 299].as_slice().contains(&n);
        assert_eq!(rt; set.contains(n), is_wanted);
    }
    assert!(rt; set.contains(5));
    Ok(())
}
