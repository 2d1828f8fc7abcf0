//! As much as a recording may hold, and one more.

use super::{Pieces, fed, has_fault, is_recording, reading};
use crate::Cause;
use events::{Memory, Refusal};
use std::alloc::Global;
use std::test::Fail;

/// A text of two replicas in which one has so many entries, with and without a line after them.
fn entries<'a>(front: &'a [u8], piece: &'a [u8], count: u32, back: &'a [u8]) -> Pieces<'a> {
    Pieces {
        front,
        piece,
        count,
        back,
    }
}

/// How many entries the text has that these pieces make.
fn entries_in(alloc: Global, pieces: &Pieces) -> Result<u32, Fail> {
    let text = pieces.join(alloc)?;
    Ok(reading(alloc, &text)?.len())
}

/// Whether the text that these pieces make has this fault at this line.
fn is_fault_in(alloc: Global, pieces: &Pieces, line: u32, cause: Cause) -> Result<bool, Memory> {
    let text = pieces.join(alloc)?;
    Ok(has_fault(reading(alloc, &text), line, cause))
}

const IN_ONE: &str = "trace 1\nreplicas 2\n";

const IN_TWO: &str = "trace 2\nreplicas 2\n";

/// Two lines, entries after them, how many of these there may be, the line behind, and why one more is
/// refused.
const LIMITS: [(&str, &str, u32, u32, Refusal); 4] = [
    (IN_ONE, "1 ins n 0 :\n", 4096, 4099, Refusal::InsertsFull),
    (IN_ONE, "1 read :\n", 16384, 16387, Refusal::EntriesFull),
    (IN_TWO, "1 read :\n", 16384, 16387, Refusal::EntriesFull),
    (IN_TWO, "1 view :\n", 16384, 16387, Refusal::EntriesFull),
];

#[test]
fn limits(rt: HostRuntime) -> Result<(), Fail> {
    for (front, entry, most, line, why) in LIMITS {
        let full = entries(front.as_bytes(), entry.as_bytes(), most, b"");
        assert_eq!(rt; entries_in(rt.alloc(), &full)?, most);
        let fuller = entries(front.as_bytes(), entry.as_bytes(), most, entry.as_bytes());
        assert!(rt; is_fault_in(rt.alloc(), &fuller, line, Cause::Refused(why))?);
    }
    Ok(())
}

/// A line that ends so, with so many names before its end.
fn names<'a>(front: &'a str, count: u32) -> Pieces<'a> {
    Pieces {
        front: front.as_bytes(),
        piece: b" q",
        count,
        back: b"\n",
    }
}

#[test]
fn long_responses(rt: HostRuntime) -> Result<(), Fail> {
    for front in [
        "trace 1\nreplicas 2\n1 read :",
        "trace 2\nreplicas 2\n1 view :",
    ] {
        assert_eq!(rt; entries_in(rt.alloc(), &names(front, 4096))?, 1);
        let cause = Cause::Refused(Refusal::LongResponse);
        assert!(rt; is_fault_in(rt.alloc(), &names(front, 4097), 3, cause)?);
    }
    Ok(())
}

/// Two lines, and an entry that may have names.
const WITH_NAMES: [(&str, &str); 2] = [(IN_ONE, "1 read :"), (IN_TWO, "1 view :")];

#[test]
fn full_places(rt: HostRuntime) -> Result<(), Fail> {
    for (front, entry) in WITH_NAMES {
        let line = names(entry, 4096).join(rt.alloc())?;
        let full = entries(front.as_bytes(), &line, 64, b"").join(rt.alloc())?;
        let said = reading(rt.alloc(), &full);
        assert!(rt; is_recording(rt.alloc(), said, &full)?);
    }
    Ok(())
}

#[test]
fn more_than_full_places(rt: HostRuntime) -> Result<(), Fail> {
    for (front, entry) in WITH_NAMES {
        let line = names(entry, 4096).join(rt.alloc())?;
        let one_more = names(entry, 1).join(rt.alloc())?;
        let fuller = entries(front.as_bytes(), &line, 64, &one_more);
        let cause = Cause::Refused(Refusal::PlacesFull);
        assert!(rt; is_fault_in(rt.alloc(), &fuller, 67, cause)?);
    }
    Ok(())
}

/// 16,384 lines `r read :` of each of 16 replicas, one replica after the other.
fn many_reads_once(alloc: Global) -> Result<Vec<u8>, Memory> {
    let mut text = Vec::from_slice(alloc, b"trace 1\nreplicas 16\n")?;
    for replica in [
        "0", "1", "2", "3", "4", "5", "6", "7", "8", "9", "10", "11", "12", "13", "14", "15",
    ] {
        for _ in 0..16384 {
            text.extend_from_slice(replica.as_bytes())?;
            text.extend_from_slice(b" read :\n")?;
        }
    }
    Ok(text)
}

/// The same; where the first try finds no memory, by a second.
fn many_reads(alloc: Global) -> Result<Vec<u8>, Memory> {
    match many_reads_once(alloc) {
        Err(Memory) => many_reads_once(alloc),
        text => text,
    }
}

#[test]
fn as_many_entries_as_there_can_be(rt: HostRuntime) -> Result<(), Fail> {
    let text = many_reads(rt.alloc())?;
    let recording = fed(rt.alloc(), &text, 7)?;
    assert_eq!(rt; (recording.replicas(), recording.len()), (16, 262144));
    assert_eq!(rt;
        (recording.stream_len(0), recording.stream_len(15)),
        (16384, 16384)
    );
    Ok(())
}
