//! What is kept of a line that comes in pieces.

use super::by_words::ByWords;
use super::{Pieces, has_fault, joined, reading};
use crate::Cause;
use crate::kept::KeptLine;
use events::Memory;
use std::alloc::Global;
use std::test::Fail;

/// Thirty bytes of a word.
const THIRTY: &[u8] = b"abcdefghijklmnopqrstuvwxyz_012";

/// 4,099 names of 32 bytes, each with the space after it: 135,267 bytes.
const NAMES: Pieces = Pieces {
    front: b"",
    piece: b"abcdefghijklmnopqrstuvwxyz_01234 ",
    count: 4099,
    back: b"",
};

/// The bytes of a text in which `N` stands for `NAMES` and `X` for `THIRTY`. So `Xaa` has 32 bytes, and
/// `Xaaa` 33; and `NXaa Xaa `, `NXaa Xa a ` and `NXaa Xa ab ` have 135,333, 135,334 and 135,335.
fn bytes_once(alloc: Global, text: &str) -> Result<Vec<u8>, Memory> {
    let mut bytes = Vec::new(alloc);
    for byte in text.as_bytes() {
        match *byte {
            b'N' => bytes.extend_from_slice(&NAMES.join(alloc)?)?,
            b'X' => bytes.extend_from_slice(THIRTY)?,
            other => bytes.push(other)?,
        }
    }
    Ok(bytes)
}

/// The same; where the first try finds no memory, by a second.
fn bytes_of(alloc: Global, text: &str) -> Result<Vec<u8>, Memory> {
    match bytes_once(alloc, text) {
        Err(Memory) => bytes_once(alloc, text),
        bytes => bytes,
    }
}

/// Pieces of a line, the whole words that are kept of it, and the word begun.
type Row = (&'static [&'static str], &'static str, &'static str);

/// Whether of a line in these pieces just this is kept.
fn keeps_once(alloc: Global, row: &Row) -> Result<bool, Memory> {
    let (pieces, whole, word) = row;
    let mut line = KeptLine::new(alloc);
    for piece in *pieces {
        line.add(&bytes_of(alloc, piece)?)?;
    }
    let words = bytes_of(alloc, whole)?;
    let has_words = line.whole() == words.as_slice();
    line.close()?;
    let all = joined(alloc, &words, &bytes_of(alloc, word)?)?;
    Ok(has_words && line.whole() == all.as_slice())
}

/// The same; where the first try finds no memory, by a second.
fn keeps(alloc: Global, row: &Row) -> Result<bool, Memory> {
    match keeps_once(alloc, row) {
        Err(Memory) => keeps_once(alloc, row),
        answer => answer,
    }
}

/// The number of the first row of which something else is kept; none where there is no such row.
fn first_wrong_row(alloc: Global, rows: &[Row]) -> Result<Option<usize>, Memory> {
    for (number, row) in rows.iter().enumerate() {
        if !keeps(alloc, row)? {
            return Ok(Some(number));
        }
    }
    Ok(None)
}

/// A line that begins with a space is given up, and no other line for its spaces, as long as it is short.
const SPACES: &[Row] = &[
    (&[" "], " ", ""),
    (&[" a b"], " ", ""),
    (&["  a"], " ", ""),
    (&["", " a"], " ", ""),
    (&[" a ", "b"], " ", ""),
    (&[" ", "a b", " c"], " ", ""),
    (&[" Xaaa a"], " ", ""),
    (&[" NXaa Xaa a"], " ", ""),
    (&[" a", " b NXaa Xaa a"], " ", ""),
    (&["a  b"], "a  ", "b"),
    (&["a", " b"], "a ", "b"),
    (&["a ", " b"], "a  ", "b"),
    (&["a b ", "  c"], "a b   ", "c"),
];

#[test]
fn lines_with_spaces(rt: HostRuntime) -> Result<(), Fail> {
    assert_eq!(rt; first_wrong_row(rt.alloc(), SPACES)?, None);
    Ok(())
}

/// Last words of 32 bytes and of 33. A whole word of 33 bytes stays where whole words are put behind the word
/// begun at once.
const LAST_WORDS: &[Row] = &[
    (&["Xaa"], "", "Xaa"),
    (&["Xaaa"], " ", ""),
    (&["a b Xaa"], "a b ", "Xaa"),
    (&["a b Xaaa"], " ", ""),
    (&["a Xaaa b Xaa"], "a Xaaa b ", "Xaa"),
    (&["a Xaaa b Xaaa"], " ", ""),
    (&["a Xaaa "], "a Xaaa ", ""),
    (&["a X", "aa"], "a ", "Xaa"),
    (&["a X", "aaa"], " ", ""),
    (&["a Xaa", "a"], " ", ""),
    (&["a Xaa", " b"], "a Xaa ", "b"),
    (&["a Xaa", "a b"], "a Xaaa ", "b"),
    (&["a Xaa", "a b Xaaa"], " ", ""),
    (&["a Xaaa", " b c"], " ", ""),
];

#[test]
fn last_words_of_a_piece(rt: HostRuntime) -> Result<(), Fail> {
    assert_eq!(rt; first_wrong_row(rt.alloc(), LAST_WORDS)?, None);
    Ok(())
}

/// Lines of 135,333, 135,334 and 135,335 bytes, and longer ones, with words of more than 32 bytes that end
/// within a piece.
const LONG_WORDS: &[Row] = &[
    (&["NXaaa Xa "], "NXaaa Xa ", ""),
    (&["NXaaa Xaa "], "NXaaa Xaa ", ""),
    (&["NXaaa Xaa a"], " ", ""),
    (&["NXaaa Xa a "], " ", ""),
    (&["Xaaa NXaa "], "Xaaa NXaa ", ""),
    (&["Xaaa NXaa a"], " ", ""),
    (&["NXaa ", "Xaaa "], "NXaa Xaaa ", ""),
    (&["NXaa ", "Xaaa a"], " ", ""),
    (&["Nab", "Xa Xa "], "NabXa Xa ", ""),
    (&["NXaa abc", "X "], "NXaa abcX ", ""),
    (&["NXaa abc", "Xa "], " ", ""),
    (&["a b", "Xaa NX "], "a bXaa NX ", ""),
    (&["a b", "Xaa NXa "], " ", ""),
    (&["NXaa ", "Xaaa a b Xaaa c"], " ", ""),
    (&["NXaa ", "Xaaa a Xaaa"], " ", ""),
    (&["NXaa ", "Xaaa a", " b c"], " ", ""),
    (&["NXaa ", "Xaaa a", " Xaaa b"], " ", ""),
    (&["NXaa ", "Xaaa a", " NXaa b"], " ", ""),
    (&["NXaa ", "Xaaa a", " NXaa Xaa b", " c d"], " ", ""),
];

#[test]
fn long_words_within_a_piece(rt: HostRuntime) -> Result<(), Fail> {
    assert_eq!(rt; first_wrong_row(rt.alloc(), LONG_WORDS)?, None);
    Ok(())
}

/// Whole words of 135,333, 135,334 and 135,335 bytes, and what comes behind these.
const LONG_FRONTS: &[Row] = &[
    (&["NXaa Xaa "], "NXaa Xaa ", ""),
    (&["NXaa Xaa a b c"], "NXaa Xaa a ", "c"),
    (&["NXaa Xaa ", "a b"], "NXaa Xaa a ", "b"),
    (&["NXaa Xaa ", "a b", " c"], "NXaa Xaa a ", "c"),
    (&["NXaa Xaa ", "! a"], "NXaa Xaa ! ", "a"),
    (&["NXaa Xaa ", " a"], "NXaa Xaa  ", "a"),
    (&["NXaa Xaa Xaa", " a b"], "NXaa Xaa Xaa ", "b"),
    (&["NXaa Xa a "], "NXaa Xa a ", ""),
    (&["NXaa Xa a b c"], "NXaa Xa a ", "c"),
    (&["NXaa Xa a ", "b c"], "NXaa Xa a ", "c"),
    (&["NXaa Xa a ", "! b"], " ", ""),
    (&["NXaa Xa a ", " b"], " ", ""),
    (&["NXaa Xa a ", "N", "b ", "N", "c"], "NXaa Xa a ", "c"),
    (&["NXaa Xa a ", "Xaa b"], "NXaa Xa a ", "b"),
    (&["NXaa Xa a ", "Xaaa b"], " ", ""),
    (&["NXaa Xa a ", "Xaaa"], " ", ""),
    (&["NXaa Xa a Xaa", "a b"], " ", ""),
    (&["NXaa Xa ab "], "NXaa Xa ab ", ""),
    (&["NXaa Xa ab b c"], "NXaa Xa ab ", "c"),
    (&["NXaa Xa ab ", "b c"], "NXaa Xa ab ", "c"),
    (&["NXaa Xa ab ", "! b"], " ", ""),
];

#[test]
fn words_behind_a_long_front(rt: HostRuntime) -> Result<(), Fail> {
    assert_eq!(rt; first_wrong_row(rt.alloc(), LONG_FRONTS)?, None);
    Ok(())
}

/// Whether one space stands for a line with this first piece, and then another piece so many times, from the
/// first piece on.
fn is_one_space_once(alloc: Global, first: &str, piece: &str, times: u32) -> Result<bool, Memory> {
    let more = bytes_of(alloc, piece)?;
    let mut line = KeptLine::new(alloc);
    line.add(&bytes_of(alloc, first)?)?;
    for _ in 0..times {
        if line.whole() != b" ".as_slice() {
            return Ok(false);
        }
        line.add(&more)?;
    }
    line.close()?;
    Ok(line.whole() == b" ".as_slice())
}

/// The same; where the first try finds no memory, by a second.
fn is_one_space(alloc: Global, first: &str, piece: &str, times: u32) -> Result<bool, Memory> {
    match is_one_space_once(alloc, first, piece, times) {
        Err(Memory) => is_one_space_once(alloc, first, piece, times),
        answer => answer,
    }
}

#[test]
fn one_space_stands_for_a_line_that_begins_so(rt: HostRuntime) -> Result<(), Fail> {
    for (first, piece, times) in [
        (" Xaa ", "Xaa ", 4200),
        (" a", " Xaa b", 4200),
        (" N", "N", 3),
        (" ", "N", 3),
        ("  ", "Xaaa ", 4200),
    ] {
        let is_one_space = is_one_space(rt.alloc(), first, piece, times)?;
        assert!(rt; is_one_space, "{first}, and {piece} {times} times");
    }
    Ok(())
}

/// Whether a word has more than 32 bytes.
fn has_long_word(line: &[u8]) -> bool {
    let mut len = 0_usize;
    for byte in line {
        len = if *byte == b' ' {
            0
        } else {
            len.saturating_add(1)
        };
        if len > 32 {
            return true;
        }
    }
    false
}

/// Whether the line is of the wrong shape, as the first line of an entry.
fn is_wrong(alloc: Global, line: &[u8]) -> Result<bool, Memory> {
    let front = joined(alloc, b"trace 1\nreplicas 1\n", line)?;
    let text = joined(alloc, &front, b"\n")?;
    Ok(has_fault(reading(alloc, &text), 3, Cause::Shape))
}

/// A line's first piece, and what is kept of it word by word.
#[derive(Drop)]
struct Begun {
    front: Vec<u8>,
    plain: ByWords,
}

impl Begun {
    fn once(alloc: Global, text: &str) -> Result<Begun, Memory> {
        let front = bytes_of(alloc, text)?;
        let mut plain = ByWords::new(alloc);
        plain.add(&front)?;
        Ok(Begun { front, plain })
    }

    /// A line that begins so; where the first try finds no memory, by a second.
    fn new(alloc: Global, text: &str) -> Result<Begun, Memory> {
        match Begun::once(alloc, text) {
            Err(Memory) => Begun::once(alloc, text),
            begun => begun,
        }
    }

    fn is_as_by_words_once(&self, alloc: Global, tail: &[u8], at: usize) -> Result<bool, Memory> {
        let (middle, back) = tail.split_at(at.min(tail.len()));
        let mut line = KeptLine::new(alloc);
        line.add(&self.front)?;
        line.add(middle)?;
        line.add(back)?;
        let mut plain = self.plain.copy(alloc)?;
        plain.add(middle)?;
        plain.add(back)?;
        let are_words_as_long = line.whole().len() == plain.whole().len();
        line.close()?;
        plain.close()?;
        if are_words_as_long && line.whole() == plain.whole() {
            return Ok(true);
        }
        Ok(
            has_long_word(&joined(alloc, &self.front, tail)?)
                && is_wrong(alloc, line.whole())?
                && is_wrong(alloc, plain.whole())?,
        )
    }

    /// Whether of the line that goes on with this tail, cut in two, the same is kept as word by word; or
    /// where it has a word of more than 32 bytes, a line of the wrong shape both times. Where the first try
    /// finds no memory, by a second.
    fn is_as_by_words(&self, alloc: Global, tail: &[u8], at: usize) -> Result<bool, Memory> {
        match self.is_as_by_words_once(alloc, tail, at) {
            Err(Memory) => self.is_as_by_words_once(alloc, tail, at),
            answer => answer,
        }
    }
}

/// How a line begins: not at all, shortly, or with about 135,334 bytes.
const FRONTS: &[&str] = &[
    "",
    " ",
    "a",
    "a ",
    "0 read : Xa",
    "0 read : Xaa",
    "NXaa",
    "NXaa abc",
    "NXaa Xaa ",
    "NXaa Xa a ",
    "NXaa Xa ab ",
];

/// How it goes on.
const TAILS: &[&str] = &[" a Xa Xaa b", "a  b ! c  ", " Xaa a Xaaa b", "a a Xaaa b"];

#[test]
fn as_much_is_kept_as_word_by_word(rt: HostRuntime) -> Result<(), Fail> {
    for front in FRONTS {
        let begun = Begun::new(rt.alloc(), front)?;
        for text in TAILS {
            let tail = bytes_of(rt.alloc(), text)?;
            for at in 0..tail.len() + 1 {
                let is_alike = begun.is_as_by_words(rt.alloc(), &tail, at)?;
                assert!(rt; is_alike, "{front}, and {text} cut at {at}");
            }
        }
    }
    Ok(())
}
