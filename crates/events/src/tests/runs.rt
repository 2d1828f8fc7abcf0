//! Names of a text that are put at the end of a response at once.

use super::{LONG_NAMES, OTHER_LONG_NAMES, has_at, of_names};
use crate::{Memory, Response, Run};
use std::alloc::Global;

/// Puts a run at the end; where the first call finds no memory, the second is to.
fn put_run(made: &mut Response, text: &[u8], other: &Response, j: usize) -> Option<Run> {
    match made.push_run(text, other, j) {
        Err(Memory) => made.push_run(text, other, j).ok(),
        Ok(run) => Some(run),
    }
}

/// Whether the text goes on with the names from a place on for so many, which take so many of its bytes, and
/// a response of one name has them after it.
fn goes_on(
    alloc: Global,
    text: &[u8],
    names: &[&str],
    j: usize,
    count: usize,
    bytes: usize,
) -> bool {
    let (Some(mut made), Some(other)) = (of_names(alloc, &["first"]), of_names(alloc, names)) else {
        return false;
    };
    put_run(&mut made, text, &other, j)
        == Some(Run {
            names: count,
            bytes,
        })
        && made.len().checked_sub(1) == Some(count)
        && has_at(&made, 0, "first")
        && made.same_names(1, &other, j) == count
}

#[test]
fn texts_go_on_with_names(rt: HostRuntime) {
    let alloc = rt.alloc();
    let names = ["a", "b", "c", "d"];
    assert!(rt; goes_on(alloc, b" a b c", &names, 0, 3, 6));
    assert!(rt; goes_on(alloc, b" c d e", &names, 2, 2, 4));
    assert!(rt; goes_on(alloc, b" b c d", &names, 0, 0, 0));
    assert!(rt; goes_on(alloc, b" a b c d", &names, 0, 4, 8));
    assert!(rt; goes_on(alloc, b" d", &names, 4, 0, 0));
    assert!(rt; goes_on(alloc, b" d", &names, 5, 0, 0));
    assert!(rt; goes_on(alloc, b"", &names, 1, 0, 0));
    assert!(rt; goes_on(alloc, b" a", &[], 0, 0, 0));
    assert!(rt; goes_on(alloc, b" a a b", &["a", "a", "a"], 1, 2, 4));
    let long = b" sixteen_letters0 sixteen_letters1 sixteen_letters2 y";
    assert!(rt; goes_on(alloc, long, &LONG_NAMES, 0, 3, 51));
    assert!(rt; goes_on(alloc, long, &OTHER_LONG_NAMES, 1, 0, 0));
    assert!(rt; goes_on(alloc, long, &OTHER_LONG_NAMES, 0, 4, 53));
}

#[test]
fn runs_end_with_whole_words(rt: HostRuntime) {
    let alloc = rt.alloc();
    assert!(rt; goes_on(alloc, b" ab", &["a", "b"], 0, 0, 0));
    assert!(rt; goes_on(alloc, b" a", &["ab"], 0, 0, 0));
    assert!(rt; goes_on(alloc, b" c ab d", &["c", "a", "d"], 0, 1, 2));
    assert!(rt; goes_on(alloc, b" c a d", &["c", "ab", "d"], 0, 1, 2));
    assert!(rt; goes_on(alloc, b" a  b", &["a", "b"], 0, 1, 2));
    assert!(rt; goes_on(alloc, b" a\x07 b", &["a", "b"], 0, 0, 0));
    assert!(rt; goes_on(alloc, b" a b\x07", &["a", "b"], 0, 1, 2));
    assert!(rt; goes_on(alloc, b"a b", &["a", "b"], 0, 0, 0));
}

/// Puts names of a text at the end; where the first call finds no memory, the second is to.
fn put_names(made: &mut Response, text: &[u8]) -> Option<Run> {
    match made.push_names(text) {
        Err(Memory) => made.push_names(text).ok(),
        Ok(run) => Some(run),
    }
}

/// Whether the text begins with these names, which take so many of its bytes, and a response of one name has
/// them after it.
fn begins_with_names(alloc: Global, text: &[u8], names: &[&str], bytes: usize) -> bool {
    let (Some(mut made), Some(own)) = (of_names(alloc, &["first"]), of_names(alloc, names)) else {
        return false;
    };
    put_names(&mut made, text)
        == Some(Run {
            names: names.len(),
            bytes,
        })
        && made.len().checked_sub(1) == Some(names.len())
        && has_at(&made, 0, "first")
        && made.same_names(1, &own, 0) == names.len()
}

#[test]
fn names_of_texts_are_put(rt: HostRuntime) {
    let alloc = rt.alloc();
    assert!(rt; begins_with_names(alloc, b" a b c", &["a", "b", "c"], 6));
    assert!(rt; begins_with_names(alloc, b"", &[], 0));
    assert!(rt; begins_with_names(alloc, b" ", &[], 0));
    assert!(rt; begins_with_names(alloc, b"a b", &[], 0));
    assert!(rt; begins_with_names(alloc, b" a  b", &["a"], 2));
    assert!(rt; begins_with_names(alloc, b" a b\x07 c", &["a"], 2));
    let long = b" sixteen_letters0 sixteen_letters1x sixteen_letters2 y";
    let names = [
        "sixteen_letters0",
        "sixteen_letters1x",
        "sixteen_letters2",
        "y",
    ];
    assert!(rt; begins_with_names(alloc, long, &names, 54));
    let most = b" a two_times_sixteen_letters_or_so_ b";
    assert!(rt;
        begins_with_names(
            alloc,
            most,
            &["a", "two_times_sixteen_letters_or_so_", "b"],
            37
        )
    );
    let more = b" a two_times_sixteen_letters_and_one b";
    assert!(rt; begins_with_names(alloc, more, &["a"], 2));
}

/// Whether of a text of so many names, all `a`, so many are put at once; of more than 65 names it says
/// nothing.
fn puts_so_many(alloc: Global, names: u8, put: usize) -> Option<bool> {
    let mut text = [b'a'; 130];
    for i in 0..65 {
        text[2 * i] = b' ';
    }
    let mut made = Response::new(alloc);
    let run = put_names(&mut made, text.get(..2 * usize::from(names))?)?;
    Some(run.names == put && made.len() == put && made.text_len() == run.bytes)
}

#[test]
fn at_most_64_names_are_put_at_once(rt: HostRuntime) {
    assert!(rt; puts_so_many(rt.alloc(), 63, 63) == Some(true));
    assert!(rt; puts_so_many(rt.alloc(), 64, 64) == Some(true));
    assert!(rt; puts_so_many(rt.alloc(), 65, 64) == Some(true));
}

/// How many names there are in a word of 18 bytes that has this byte at a place, and is followed by another
/// one: both, or none where the byte may not stand in a name.
fn names_with(alloc: Global, byte: u8, place: usize) -> Option<usize> {
    let mut text = *b" eighteen_letters_x b";
    if place < 18 {
        text[place + 1] = byte;
    }
    let mut made = Response::new(alloc);
    Some(put_names(&mut made, &text)?.names)
}

/// Whether a byte is one of those that names are made of, as they are listed.
fn is_listed(byte: u8) -> bool {
    b"abcdefghijklmnopqrstuvwxyzABCDEFGHIJKLMNOPQRSTUVWXYZ0123456789_-.".contains(&byte)
}

#[test]
fn each_byte_is_told_from_others(rt: HostRuntime) {
    for byte in 0..=255u8 {
        let names = if is_listed(byte) { 2 } else { 0 };
        if byte != b' ' {
            assert!(rt; names_with(rt.alloc(), byte, 3) == Some(names), "{byte}");
            assert!(rt; names_with(rt.alloc(), byte, 17) == Some(names), "{byte}");
        }
    }
}
