//! Tests of the checker's answers.

use super::{Answer, Kind, Reason, check};
use events::{Memory, Name, OpName};
use std::alloc::Global;
use std::thread::Threads;

/// Three replicas that each see two of the three elements in an order, in a ring.
const THREE_WAY: &str =
    "trace 1\nreplicas 3\n0 ins x 0 : x\n1 recv 0 1\n2 recv 0 1\n1 ins a 0 : a x\n2 ins b 1 : x b\n0 del x :\n0 recv 1 1\n0 recv 2 1\n0 read : b a\n";

/// Two replicas that see two elements in opposite orders.
const OPPOSITE: &str =
    "trace 1\nreplicas 2\n0 ins a 0 : a\n1 ins b 0 : b\n0 recv 1 1\n1 recv 0 1\n0 read : a b\n1 read : b a\n";

/// Two inserts that are read back the other way round.
const READ_BACK: &str =
    "trace 1\nreplicas 2\n0 ins a 0 : a\n1 ins b 0 : b\n0 recv 1 1\n0 read : b a\n";

/// A read that shows a deleted element.
const SHOWS_DELETED: &str = "trace 1\nreplicas 1\n0 ins a 0 : a\n0 del a :\n0 read : a\n";

/// An element that its insert does not show where it was asked for.
const MISPLACED: &str = "trace 1\nreplicas 1\n0 ins a 0 : a\n0 ins b 0 : a b\n";

/// A name that two replicas insert.
const TWICE: &str = "trace 1\nreplicas 2\n0 ins a 0 : a\n1 ins a 0 : a\n";

const EMPTY: &str = "trace 1\nreplicas 1\n";

/// The checker's answer; a call that finds no memory is made again.
fn answer(
    rt: &(impl Threads + Sync),
    alloc: Global,
    trace: &str,
    cert: &str,
) -> Result<Answer, Memory> {
    match check(rt, alloc, trace.as_bytes(), cert.as_bytes()) {
        Ok(answer) => Ok(answer),
        Err(Memory) => check(rt, alloc, trace.as_bytes(), cert.as_bytes()),
    }
}

/// Whether the checker says that the certificate is valid, and so shows this.
fn is_valid<H: Threads + Sync>(rt: &H, alloc: Global, trace: &str, cert: &str, kind: Kind) -> bool {
    match answer(rt, alloc, trace, cert) {
        Ok(said) => said == Answer::Yes(kind) && said != Answer::No(Reason::Trace),
        Err(Memory) => false,
    }
}

/// A reason as plain data, which a static may hold.
#[derive(Clone, Copy)]
enum Why {
    Trace,
    CertText,
    WrongFault,
    NotOrder,
    NotFollowed { replica: u32, n: u32 },
    NoCycle { step: u32 },
    MissingLayer { source: &'static str },
    ShortLayer { source: &'static str },
    ExtraLayer { source: &'static str },
}

/// The reason; none where a text is no name.
fn reason(why: Why) -> Option<Reason> {
    match why {
        Why::Trace => Some(Reason::Trace),
        Why::CertText => Some(Reason::CertText),
        Why::WrongFault => Some(Reason::WrongFault),
        Why::NotOrder => Some(Reason::NotOrder),
        Why::NotFollowed { replica, n } => Some(Reason::NotFollowed {
            at: OpName::new(replica, n)?,
        }),
        Why::NoCycle { step } => Some(Reason::NoCycle { step }),
        Why::MissingLayer { source } => Some(Reason::MissingLayer {
            source: name(source)?,
        }),
        Why::ShortLayer { source } => Some(Reason::ShortLayer {
            source: name(source)?,
        }),
        Why::ExtraLayer { source } => Some(Reason::ExtraLayer {
            source: name(source)?,
        }),
    }
}

fn name(text: &str) -> Option<Name> {
    Name::new(text.as_bytes()).ok()
}

/// Whether the checker says that the certificate is not valid, and why.
fn is_invalid<H: Threads + Sync>(rt: &H, alloc: Global, trace: &str, cert: &str, why: Why) -> bool {
    match (answer(rt, alloc, trace, cert), reason(why)) {
        (Ok(said), Some(why)) => { said == Answer::No(why) && said != Answer::Yes(Kind::Refused) }
        _ => false,
    }
}

/// Traces with the lines of a valid certificate of either version, after the first.
static VALID: [(&str, &str, Kind); 6] = [
    (
        OPPOSITE,
        "refused 2\nstep a b 0.2\nstep b a 1.2\n",
        Kind::Refused,
    ),
    (READ_BACK, "accepted\norder : b a\n", Kind::Accepted),
    (EMPTY, "accepted\norder :\n", Kind::Accepted),
    (SHOWS_DELETED, "contents 0.3\n", Kind::Contents),
    (MISPLACED, "position 0.2\n", Kind::Position),
    (TWICE, "doubled 0.1 1.1\n", Kind::Doubled),
];

/// The first line of a version, and these lines.
fn headed(alloc: Global, version: &str, lines: &str) -> Result<String, Memory> {
    let mut text = String::new(alloc);
    text.push_str(version)?;
    text.push_str(lines)?;
    Ok(text)
}

/// Whether the lines of a row, after the first line of a version, are valid. Where there is no memory to join
/// them, they are joined again.
fn is_valid_in<H: Threads + Sync>(
    rt: &H,
    alloc: Global,
    version: &str,
    row: (&str, &str, Kind),
) -> bool {
    let (trace, lines, kind) = row;
    let joined = match headed(alloc, version, lines) {
        Ok(cert) => Ok(cert),
        Err(Memory) => headed(alloc, version, lines),
    };
    match joined {
        Ok(cert) => is_valid(rt, alloc, trace, cert.as_str(), kind),
        Err(Memory) => false,
    }
}

#[test]
fn valid_certificates(rt: HostRuntime) {
    for row in VALID.iter().copied() {
        let (_, lines, _) = row;
        assert!(rt;
            is_valid_in(&rt, rt.alloc(), "cert 1\n", row),
            "in version 1, at {lines}"
        );
        assert!(rt;
            is_valid_in(&rt, rt.alloc(), "cert 2\n", row),
            "in version 2, at {lines}"
        );
    }
}

/// A valid certificate with rows in each version.
static WITH_ROWS: [&str; 2] = [
    "cert 1\nrefused 3\nstep x b 2.1\nstep b a 0.3\nstep a x 1.1\nlayers x / b\nlayers a / x\nlayers b / a\n",
    "cert 2\nrefused 3\nstep x b 2.1\nstep b a 0.3\nstep a x 1.1\nlayers x / b\nlayers a /\nlayers b /\n",
];

#[test]
fn valid_rows(rt: HostRuntime) {
    for cert in WITH_ROWS.iter().copied() {
        assert!(rt;
            is_valid(&rt, rt.alloc(), THREE_WAY, cert, Kind::Refused),
            "at {cert}"
        );
    }
}

/// Traces with certificates that are not valid, and why.
static INVALID: [(&str, &str, Why); 33] = [
    ("trace 1\n", "cert 2\n", Why::Trace),
    (EMPTY, "", Why::CertText),
    (EMPTY, "cert 3\naccepted\norder :\n", Why::CertText),
    (THREE_WAY, "cert 1\nrefused 3\n", Why::CertText),
    (EMPTY, "cert 1\ncontents 0.1\n", Why::WrongFault),
    (
        SHOWS_DELETED,
        "cert 1\naccepted\norder : a\n",
        Why::WrongFault,
    ),
    (SHOWS_DELETED, "cert 1\ncontents 0.2\n", Why::WrongFault),
    (EMPTY, "cert 1\naccepted\norder : a\n", Why::NotOrder),
    // A name too few, a name twice, one that is no element's, and a name too many.
    (READ_BACK, "cert 1\naccepted\norder : b\n", Why::NotOrder),
    (READ_BACK, "cert 1\naccepted\norder : b b\n", Why::NotOrder),
    (READ_BACK, "cert 2\naccepted\norder : b c\n", Why::NotOrder),
    (
        READ_BACK,
        "cert 2\naccepted\norder : b a b\n",
        Why::NotOrder,
    ),
    (
        READ_BACK,
        "cert 1\naccepted\norder : a b\n",
        Why::NotFollowed { replica: 0, n: 2 },
    ),
    (
        THREE_WAY,
        "cert 1\nrefused 3\nstep b x 2.1\nstep b a 0.3\nstep a x 1.1\nlayers x / b\nlayers a / x\nlayers b / a\n",
        Why::NoCycle { step: 1 },
    ),
    // A step that no response shows, and steps that do not lead on.
    (
        THREE_WAY,
        "cert 1\nrefused 2\nstep x b 2.1\nstep b x 2.1\n",
        Why::NoCycle { step: 2 },
    ),
    (
        THREE_WAY,
        "cert 1\nrefused 3\nstep x b 2.1\nstep a x 1.1\nstep b a 0.3\n",
        Why::NoCycle { step: 1 },
    ),
    // Orders of three elements: a name twice, and one that a read does not follow.
    (
        THREE_WAY,
        "cert 1\naccepted\norder : x a x\n",
        Why::NotOrder,
    ),
    (
        THREE_WAY,
        "cert 1\naccepted\norder : a x b\n",
        Why::NotFollowed { replica: 0, n: 3 },
    ),
    // A first row with a name that is no element's, and one with a layer too many.
    (
        THREE_WAY,
        "cert 1\nrefused 3\nstep x b 2.1\nstep b a 0.3\nstep a x 1.1\nlayers x / q\nlayers a / x\nlayers b / a\n",
        Why::ShortLayer { source: "x" },
    ),
    (
        THREE_WAY,
        "cert 1\nrefused 3\nstep x b 2.1\nstep b a 0.3\nstep a x 1.1\nlayers x b / a\nlayers a / x\nlayers b / a\n",
        Why::CertText,
    ),
    // The last step does not end where the first begins.
    (
        THREE_WAY,
        "cert 1\nrefused 2\nstep x b 2.1\nstep b a 0.3\n",
        Why::NoCycle { step: 2 },
    ),
    // A name twice in one layer, and a name that is no element's.
    (
        THREE_WAY,
        "cert 1\nrefused 3\nstep x b 2.1\nstep b a 0.3\nstep a x 1.1\nlayers x / b b\nlayers a / x\nlayers b / a\n",
        Why::ShortLayer { source: "x" },
    ),
    (
        THREE_WAY,
        "cert 2\nrefused 3\nstep x b 2.1\nstep b a 0.3\nstep a x 1.1\nlayers x / b\nlayers a / c\nlayers b /\n",
        Why::ShortLayer { source: "a" },
    ),
    (
        THREE_WAY,
        "cert 1\nrefused 3\nstep x b 2.1\nstep b a 0.3\nstep a x 1.1\nlayers x / b\nlayers a / x\n",
        Why::MissingLayer { source: "b" },
    ),
    (
        THREE_WAY,
        "cert 1\nrefused 3\nstep x b 2.1\nstep b a 0.3\nstep a x 1.1\nlayers x / b\nlayers a / x\nlayers b / a\nlayers b / a\n",
        Why::ExtraLayer { source: "b" },
    ),
    (
        OPPOSITE,
        "cert 1\nrefused 4\nstep a b 0.2\nstep b a 1.2\nstep a b 0.2\nstep b a 1.2\nlayers a / b /\nlayers b / a /\n",
        Why::ShortLayer { source: "a" },
    ),
    (
        OPPOSITE,
        "cert 2\nrefused 4\nstep a b 0.2\nstep b a 1.2\nstep a b 0.2\nstep b a 1.2\nlayers a / b /\nlayers b / a /\n",
        Why::ShortLayer { source: "a" },
    ),
    // The second row has no element below its source, and the first is short.
    (
        OPPOSITE,
        "cert 2\nrefused 4\nstep a b 0.2\nstep b a 1.2\nstep a b 0.2\nstep b a 1.2\nlayers a / b /\nlayers b / /\n",
        Why::ShortLayer { source: "a" },
    ),
    // The rows of one version, said to be of the other. The second row of the first has an element below
    // its source, and that of the second lacks one.
    (
        THREE_WAY,
        "cert 2\nrefused 3\nstep x b 2.1\nstep b a 0.3\nstep a x 1.1\nlayers x / b\nlayers a / x\nlayers b / a\n",
        Why::ShortLayer { source: "a" },
    ),
    (
        THREE_WAY,
        "cert 1\nrefused 3\nstep x b 2.1\nstep b a 0.3\nstep a x 1.1\nlayers x / b\nlayers a /\nlayers b /\n",
        Why::ShortLayer { source: "a" },
    ),
    // The same of the last row alone.
    (
        THREE_WAY,
        "cert 2\nrefused 3\nstep x b 2.1\nstep b a 0.3\nstep a x 1.1\nlayers x / b\nlayers a /\nlayers b / a\n",
        Why::ShortLayer { source: "b" },
    ),
    (
        THREE_WAY,
        "cert 2\nrefused 3\nstep x b 2.1\nstep b a 0.3\nstep a x 1.1\nlayers x / b\nlayers a /\n",
        Why::MissingLayer { source: "b" },
    ),
    (
        THREE_WAY,
        "cert 2\nrefused 3\nstep x b 2.1\nstep b a 0.3\nstep a x 1.1\nlayers x / b\nlayers a /\nlayers b /\nlayers b /\n",
        Why::ExtraLayer { source: "b" },
    ),
];

#[test]
fn reasons_against_certificates(rt: HostRuntime) {
    for (trace, cert, why) in INVALID.iter().copied() {
        assert!(rt; is_invalid(&rt, rt.alloc(), trace, cert, why), "at {cert}");
    }
}

/// The entries of `THREE_WAY`.
const RING: &str =
    "0 ins x 0 : x\n1 recv 0 1\n2 recv 0 1\n1 ins a 0 : a x\n2 ins b 1 : x b\n0 del x :\n0 recv 1 1\n0 recv 2 1\n0 read : b a\n";

/// How many elements stand alone, each deleted before the next is inserted: with those of the ring there are
/// 64, so that a table of bits has more words than the responses have places.
const ALONE: u32 = 61;

/// A trace with the ring and the elements that stand alone, and a certificate with these rows of the ring's.
fn with_alone(alloc: Global, rows: &str) -> Result<(String, String), Memory> {
    let mut trace = headed(alloc, "trace 1\nreplicas 4\n", RING)?;
    let mut cert = headed(
        alloc,
        "cert 2\nrefused 3\nstep x b 2.1\nstep b a 0.3\nstep a x 1.1\n",
        rows,
    )?;
    for i in 0..ALONE {
        let entries = format!(in alloc; "3 ins l{i} 0 : l{i}\n3 del l{i} :\n")?;
        trace.push_str(entries.as_str())?;
        let row = format!(in alloc; "layers l{i} /\n")?;
        cert.push_str(row.as_str())?;
    }
    Ok((trace, cert))
}

/// What the checker says of these rows.
fn answer_of_rows<H: Threads + Sync>(rt: &H, alloc: Global, rows: &str) -> Result<Answer, Memory> {
    let (trace, cert) = match with_alone(alloc, rows) {
        Ok(texts) => texts,
        Err(Memory) => with_alone(alloc, rows)?,
    };
    answer(rt, alloc, trace.as_str(), cert.as_str())
}

/// Rows of the ring, and the source of the first that is short, if any is.
static ALONG_LISTS: [(&str, Option<&str>); 7] = [
    ("layers x / b\nlayers a /\nlayers b /\n", None),
    // A name that is shown beside no other may stand in the last layer.
    ("layers x / b l0\nlayers a / l60\nlayers b /\n", None),
    // What follows the source is missing, or stands before it.
    ("layers x /\nlayers a /\nlayers b /\n", Some("x")),
    ("layers x / a\nlayers a /\nlayers b /\n", Some("x")),
    ("layers x / b a\nlayers a /\nlayers b /\n", Some("x")),
    // A name below the source, and one that stands before it.
    ("layers x / b\nlayers a /\nlayers b / a\n", Some("b")),
    ("layers x / b\nlayers a / b\nlayers b /\n", Some("a")),
];

#[test]
fn rows_along_lists(rt: HostRuntime) {
    for (rows, short) in ALONG_LISTS.iter().copied() {
        let expected = match short {
            None => Some(Answer::Yes(Kind::Refused)),
            Some(source) => reason(Why::ShortLayer { source }).map(Answer::No),
        };
        let said = answer_of_rows(&rt, rt.alloc(), rows);
        assert!(rt; said.is_ok() && said.ok() == expected, "at {rows}");
    }
}
