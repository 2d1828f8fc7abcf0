//! Tests of certificates of worked recordings.

use super::Hold;
use crate::{NoGate, SearchFault, Version, certify, judge, judge_and_write, write_certificate};
use events::Memory;
use sample_recordings::{
    EMPTY, OPPOSITE_PAIR, PAST_A_NEIGHBOUR, READ_THE_OTHER_WAY, RING_OF_FOUR, THREE_WAY_CYCLE,
    recording,
};
use std::alloc::Global;
use std::thread::Threads;

/// How the text of a certificate is made.
#[derive(Clone, Copy)]
enum Way {
    /// The certificate first, and then its text.
    Whole,
    /// Row by row.
    RowByRow,
    /// With the verdict, by so many workers.
    WithVerdict(u32),
}

/// Texts one after the other.
fn joined(alloc: Global, texts: &[Vec<u8>]) -> Option<Vec<u8>> {
    let mut text = Vec::new(alloc);
    for part in texts {
        text.extend_from_slice(part.as_slice()).ok()?;
    }
    Some(text)
}

/// The text of the certificate of the recording that a text spells.
fn certified_once<H: Threads + Sync>(
    rt: &H,
    alloc: Global,
    text: &str,
    way: Way,
) -> Option<Vec<u8>> {
    let recording = recording(alloc, text).ok()?;
    match way {
        Way::Whole => {
            let verdict = judge(rt, alloc, &recording, 4, &NoGate).ok()?;
            let certificate = certify(alloc, &recording, &verdict).ok()?;
            certificate.write(alloc, Version::Two).ok()
        },
        Way::RowByRow => {
            let verdict = judge(rt, alloc, &recording, 4, &NoGate).ok()?;
            write_certificate(alloc, &recording, &verdict).ok()
        },
        Way::WithVerdict(workers) => {
            let certified = judge_and_write(rt, alloc, &recording, workers, &NoGate).ok()?;
            joined(alloc, &certified.texts)
        },
    }
}

/// The same; where the first try finds no memory, by a second.
fn certified<H: Threads + Sync>(rt: &H, alloc: Global, text: &str, way: Way) -> Option<Vec<u8>> {
    match certified_once(rt, alloc, text, way) {
        None => certified_once(rt, alloc, text, way),
        certificate => certificate,
    }
}

/// Whether the recording that the text spells has this certificate.
fn has_certificate<H: Threads + Sync>(
    rt: &H,
    alloc: Global,
    text: &str,
    way: Way,
    wanted: &str,
) -> bool {
    match certified(rt, alloc, text, way) {
        Some(certificate) => certificate.as_slice() == wanted.as_bytes(),
        None => false,
    }
}

/// Recordings with their certificates.
static ROWS: [(&str, &str); 11] = [
    (
        THREE_WAY_CYCLE,
        "cert 2\nrefused 3\nstep x b 2.1\nstep b a 0.3\nstep a x 1.1\nlayers x / b\nlayers a /\nlayers b /\n",
    ),
    (
        OPPOSITE_PAIR,
        "cert 2\nrefused 2\nstep a b 0.2\nstep b a 1.2\n",
    ),
    (
        RING_OF_FOUR,
        "cert 2\nrefused 4\nstep a b 2.1\nstep b c 3.1\nstep c d 4.2\nstep d a 5.2\nlayers a / b / c\nlayers b / c / d\nlayers c / d /\nlayers d / /\n",
    ),
    (
        PAST_A_NEIGHBOUR,
        "cert 2\nrefused 3\nstep a c 4.1\nstep c d 5.1\nstep d a 6.1\nlayers a / b c\nlayers b / c\nlayers c / d\nlayers d /\n",
    ),
    // Three views, of which any two fit one order.
    (
        "trace 2\nreplicas 3\n0 ins a 0 : a\n1 ins b 0 : b\n2 ins c 0 : c\n0 recv 1 1\n0 recv 2 1\n0 view : a b\n0 view : b c\n0 view : c a\n",
        "cert 2\nrefused 3\nstep a b 0.2\nstep b c 0.3\nstep c a 0.4\nlayers a / b\nlayers b / c\nlayers c /\n",
    ),
    // A view of the second of two elements.
    (
        "trace 2\nreplicas 2\n0 ins a 0 : a\n0 ins b 1 : a b\n1 recv 0 2\n1 view : b\n",
        "cert 2\naccepted\norder : a b\n",
    ),
    (READ_THE_OTHER_WAY, "cert 2\naccepted\norder : b a\n"),
    (EMPTY, "cert 2\naccepted\norder :\n"),
    (
        "trace 1\nreplicas 2\n0 ins a 0 : a\n1 ins a 0 : a\n",
        "cert 2\ndoubled 0.1 1.1\n",
    ),
    (
        "trace 1\nreplicas 1\n0 read : a\n",
        "cert 2\ncontents 0.1\n",
    ),
    (
        "trace 1\nreplicas 1\n0 ins a 0 : a\n0 ins b 0 : a b\n",
        "cert 2\nposition 0.2\n",
    ),
];

#[test]
fn certificates_of_worked_recordings(rt: HostRuntime) {
    for (text, certificate) in ROWS.iter().copied() {
        let certified = has_certificate(&rt, rt.alloc(), text, Way::Whole, certificate);
        assert!(rt; certified, "at {text}");
    }
}

#[test]
fn certificates_written_row_by_row(rt: HostRuntime) {
    for (text, certificate) in ROWS.iter().copied() {
        let written = has_certificate(&rt, rt.alloc(), text, Way::RowByRow, certificate);
        assert!(rt; written, "at {text}");
    }
}

#[test]
fn certificates_with_their_verdicts(rt: HostRuntime) {
    for (text, certificate) in ROWS.iter().copied() {
        for workers in [1, 2, 4] {
            let way = Way::WithVerdict(workers);
            let written = has_certificate(&rt, rt.alloc(), text, way, certificate);
            assert!(rt; written, "at {text}, {workers}");
        }
    }
}

/// Whether so many workers are refused.
fn are_refused<H: Threads + Sync>(rt: &H, alloc: Global, workers: u32) -> bool {
    let Ok(recording) = recording(alloc, THREE_WAY_CYCLE) else {
        return false;
    };
    match judge_and_write(rt, alloc, &recording, workers, &NoGate) {
        Err(SearchFault::Workers) => true,
        _ => false,
    }
}

#[test]
fn certificates_by_workers_out_of_range(rt: HostRuntime) {
    for workers in [0, 65] {
        let alloc = rt.alloc();
        // Where the recording finds no memory, it is made again.
        let refused = are_refused(&rt, alloc, workers) || are_refused(&rt, alloc, workers);
        assert!(rt; refused, "{workers}");
    }
}

/// Whether two workers make a certificate between the calls of this gate; where the first try finds no
/// memory, by a second.
fn is_made_round<H: Threads + Sync>(rt: &H, alloc: Global, hold: &Hold) -> bool {
    let Ok(recording) = recording(alloc, THREE_WAY_CYCLE) else {
        return false;
    };
    match judge_and_write(rt, alloc, &recording, 2, hold) {
        Err(SearchFault::Memory) => judge_and_write(rt, alloc, &recording, 2, hold).is_ok(),
        made => made.is_ok(),
    }
}

#[test]
fn the_gate_of_a_certificate_is_called_round_its_searches(rt: HostRuntime) {
    let hold = Hold::new();
    let alloc = rt.alloc();
    // Where the recording finds no memory, it is made again.
    let made = is_made_round(&rt, alloc, &hold) || is_made_round(&rt, alloc, &hold);
    assert!(rt; made && hold.saw_three());
}

/// The replicas of the wide ring that insert, each with the first letter of its elements' names.
static INSERTING: [(&str, &str); 15] = [
    ("0", "a"),
    ("1", "b"),
    ("2", "c"),
    ("3", "d"),
    ("4", "e"),
    ("5", "f"),
    ("6", "g"),
    ("7", "h"),
    ("8", "i"),
    ("9", "j"),
    ("10", "k"),
    ("11", "l"),
    ("12", "m"),
    ("13", "n"),
    ("14", "o"),
];

/// Three inserts of a replica, and their receipt by another one: `#` stands for its number, `$` for its
/// letter. And a view that shows the last element of a replica, whose letter is `#`, before the first of that
/// of `$`.
const OF_THREE: (&str, &str) = (
    "# ins $0 0 : $0\n# ins $1 1 : $0 $1\n# ins $2 2 : $0 $1 $2\n15 recv # 3\n",
    "15 view : #2 $0\n",
);

/// The same of five inserts.
const OF_FIVE: (&str, &str) = (
    "# ins $0 0 : $0\n# ins $1 1 : $0 $1\n# ins $2 2 : $0 $1 $2\n# ins $3 3 : $0 $1 $2 $3\n# ins $4 4 : $0 $1 $2 $3 $4\n15 recv # 5\n",
    "15 view : #4 $0\n",
);

/// Adds a pattern with these words for `#` and `$`.
fn push_filled(text: &mut String, pattern: &str, hash: &str, dollar: &str) -> Result<(), Memory> {
    for letter in pattern.chars() {
        match letter {
            '#' => text.push_str(hash)?,
            '$' => text.push_str(dollar)?,
            _ => text.push(letter)?,
        }
    }
    Ok(())
}

/// Some elements of each of 15 replicas; then the last replica, which has received all, shows the last
/// element of each before the first of the next one, once all the way round: 45 elements and more, and four
/// threads make 40 rows in a turn. That of 45 has no more words in its table than places in its lists.
fn wide_ring_once(alloc: Global, inserts: &str, view: &str) -> Result<String, Memory> {
    let mut text = String::new(alloc);
    text.push_str("trace 2\nreplicas 16\n")?;
    for (number, letter) in INSERTING.iter().copied() {
        push_filled(&mut text, inserts, number, letter)?;
    }
    for i in 0..INSERTING.len() {
        let (_, letter) = INSERTING[i];
        let (_, next) = INSERTING[(i + 1) % INSERTING.len()];
        push_filled(&mut text, view, letter, next)?;
    }
    Ok(text)
}

/// The same; where the first try finds no memory, by a second.
fn wide_ring(alloc: Global, inserts: &str, view: &str) -> Result<String, Memory> {
    match wide_ring_once(alloc, inserts, view) {
        Err(Memory) => wide_ring_once(alloc, inserts, view),
        text => text,
    }
}

/// Whether the certificate of the ring with these inserts and views is the same, however it is made.
fn is_the_same_by_all(
    rt: &(impl Threads + Sync),
    alloc: Global,
    inserts: &str,
    view: &str,
) -> Result<bool, Memory> {
    let text = wide_ring(alloc, inserts, view)?;
    let Some(wanted) = certified(rt, alloc, text.as_str(), Way::Whole) else {
        return Err(Memory);
    };
    if !wanted.as_slice().starts_with(b"cert 2\nrefused 30\nstep ") {
        return Ok(false);
    }
    for way in [
        Way::RowByRow,
        Way::WithVerdict(1),
        Way::WithVerdict(2),
        Way::WithVerdict(4),
    ] {
        match certified(rt, alloc, text.as_str(), way) {
            Some(text) if text.as_slice() == wanted.as_slice() => {},
            _ => return Ok(false),
        }
    }
    Ok(true)
}

#[test]
fn more_rows_than_threads_make_in_a_turn(rt: HostRuntime) -> Result<(), Memory> {
    for (inserts, view) in [OF_THREE, OF_FIVE] {
        assert!(rt;
            is_the_same_by_all(&rt, rt.alloc(), inserts, view)?,
            "at {view}"
        );
    }
    Ok(())
}
