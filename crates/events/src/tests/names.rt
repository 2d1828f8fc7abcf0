//! Which bytes are a name, and how names are ordered.

use super::name;
use crate::{NameFault, is_name};

/// Whether the text is a name, which has its bytes.
fn is_read_back(text: &str) -> bool {
    match name(text) {
        Ok(made) => made.bytes() == text.as_bytes(),
        Err(_) => false,
    }
}

static NAMES: [&str; 8] = [
    "a",
    "Z",
    "0",
    "_",
    "-",
    ".",
    "a-Z_0.9",
    "nnnnnnnnnnnnnnnnnnnnnnnnnnnnnnnn",
];

#[test]
fn names_are_read(rt: HostRuntime) {
    for text in NAMES.iter().copied() {
        assert!(rt; is_read_back(text), "{text}");
        assert!(rt; is_name(text.as_bytes()), "{text}");
    }
}

/// Texts that are no names, and why.
static NO_NAMES: [(&str, NameFault); 13] = [
    ("", NameFault::Empty),
    ("nnnnnnnnnnnnnnnnnnnnnnnnnnnnnnnnn", NameFault::Long),
    // Too long comes before a byte that may not stand there.
    ("                                 ", NameFault::Long),
    (" ", NameFault::BadByte { at: 0 }),
    ("a b", NameFault::BadByte { at: 1 }),
    ("ab/", NameFault::BadByte { at: 2 }),
    ("a:", NameFault::BadByte { at: 1 }),
    ("a@", NameFault::BadByte { at: 1 }),
    ("[", NameFault::BadByte { at: 0 }),
    ("`", NameFault::BadByte { at: 0 }),
    ("a{", NameFault::BadByte { at: 1 }),
    ("\n", NameFault::BadByte { at: 0 }),
    ("a\u{e9}", NameFault::BadByte { at: 1 }),
];

#[test]
fn faults_of_names_are_told(rt: HostRuntime) {
    for (text, fault) in NO_NAMES.iter().copied() {
        assert!(rt; name(text).err() == Some(fault), "{text}");
        assert!(rt; !is_name(text.as_bytes()), "{text}");
    }
}

/// Whether both texts are names, and the first is less than the other, or the same, as is said.
fn are_ordered(low: &str, high: &str, less: bool, same: bool) -> bool {
    match (name(low), name(high)) {
        (Ok(low), Ok(high)) => (low < high) == less && (low == high) == same,
        _ => false,
    }
}

static RISING: [&str; 14] = [
    "-", ".", "0", "00", "01", "1", "A", "Aa", "Z", "_", "a", "a0", "aa", "b",
];

/// Whether the name stands to each of the rising ones as its place says.
fn is_at(place: usize, text: &str) -> bool {
    for (other, high) in RISING.iter().copied().enumerate() {
        if !are_ordered(text, high, place < other, place == other) {
            return false;
        }
    }
    true
}

#[test]
fn names_are_ordered_by_their_bytes(rt: HostRuntime) {
    for (place, text) in RISING.iter().copied().enumerate() {
        assert!(rt; is_at(place, text), "{text}");
    }
}
