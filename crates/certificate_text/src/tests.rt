//! Tests of certificates' texts, both ways.

ghost use Rattle.std.specs.Prelude.{IfOk};
ghost use Rattle.specification.specs.CertificateText.{IsSpellable};
ghost use Rattle.certificate_text.specs.CertificateOf.{certificate_of};

use super::{CertCause, CertFault, Certificate, Layer, Outline, Row, Step, Version, first_step};
use events::Memory;
use std::alloc::Global;
use std::test::Fail;

/// What reading says; where the first call finds no memory, what the second says.
fn reading(alloc: Global, text: &[u8]) -> Result<(Version, Certificate), CertFault>
    ensures { IfOk result (λ r. IsSpellable (certificate_of r.1)) }
{
    match Certificate::read(alloc, text) {
        Err(
            CertFault {
                cause: CertCause::Memory,
                line: _,
            },
        ) => Certificate::read(alloc, text),
        answer => answer,
    }
}

/// The certificate's text; where the first call finds no memory, what the second gives.
fn writing(alloc: Global, version: Version, certificate: &Certificate) -> Result<Vec<u8>, Memory>
    requires { IsSpellable (certificate_of certificate.now) }
{
    match certificate.write(alloc, version) {
        Err(Memory) => certificate.write(alloc, version),
        text => text,
    }
}

/// Certificates' texts.
static TEXTS: [&str; 13] = [
    "cert 1\ndoubled 0.2 15.4294967295\n",
    "cert 1\ncontents 2.1\n",
    "cert 1\nposition 4294967295.2\n",
    "cert 1\naccepted\norder :\n",
    "cert 1\naccepted\norder : b a\n",
    "cert 1\naccepted\norder : order nnnnnnnnnnnnnnnnnnnnnnnnnnnnnnnn .-_ 0.1\n",
    "cert 1\nrefused 2\nstep a b 0.2\nstep b a 1.2\n",
    // The three-way cycle.
    "cert 1\nrefused 3\nstep x b 2.1\nstep b a 0.3\nstep a x 1.1\nlayers x / b\nlayers a / x\nlayers b / a\n",
    // Without a row, and with empty layers.
    "cert 1\nrefused 3\nstep x b 2.1\nstep b a 0.3\nstep a x 1.1\n",
    "cert 1\nrefused 4\nstep a b 0.2\nstep b a 1.2\nstep a b 0.2\nstep b a 1.2\nlayers z / /\nlayers a / / b c\n",
    // The same of version two.
    "cert 2\ncontents 2.1\n",
    "cert 2\naccepted\norder : b a\n",
    "cert 2\nrefused 3\nstep x b 2.1\nstep b a 0.3\nstep a x 1.1\nlayers x / b\nlayers a /\nlayers b /\n",
];

/// Whether the text is that of a certificate, which is written so again.
fn is_written_again(alloc: Global, text: &str) -> bool {
    let Ok((version, certificate)) = reading(alloc, text.as_bytes()) else {
        return false;
    };
    match writing(alloc, version, &certificate) {
        Ok(again) => again.as_slice() == text.as_bytes(),
        Err(Memory) => false,
    }
}

#[test]
fn certificates_are_read_and_written_again(rt: HostRuntime) {
    for text in TEXTS.iter().copied() {
        assert!(rt; is_written_again(rt.alloc(), text), "at {text}");
    }
}

/// The text of an order of so many names, `n0`, `n1` and so on.
fn order_text(alloc: Global, count: u32) -> Result<String, Memory> {
    let mut text = String::from_str(alloc, "cert 1\naccepted\norder :")?;
    for n in 0..count {
        text.push_str(" n")?;
        text.push_str(n.to_string(alloc)?.as_str())?;
    }
    text.push_str("\n")?;
    Ok(text)
}

/// Whether the text of an order of so many names is written again; where the first call finds no memory for
/// the text, what the second gives.
fn is_order_written_again(alloc: Global, count: u32) -> bool {
    for _ in 0..2 {
        if let Ok(text) = order_text(alloc, count) {
            return is_written_again(alloc, text.as_str());
        }
    }
    false
}

// A response has at most 4,096 names, and an order may have more: memory is not answered for an order that
// is longer than a response may be.
#[test]
fn an_order_may_be_longer_than_a_response(rt: HostRuntime) {
    assert!(rt; is_order_written_again(rt.alloc(), 4097));
}

/// Whether it is the step `c d 3.4`.
fn is_third_step(step: Option<&Step>) -> bool {
    match step {
        Some(step) => {
            step.from.bytes() == b"c".as_slice()
                && step.to.bytes() == b"d".as_slice()
                && step.shown.replica == 3
                && step.shown.n == 4
        }
        None => false,
    }
}

/// How many names the layer has.
fn size(layer: Option<&Layer>) -> usize {
    match layer {
        Some(layer) => layer.len(),
        None => usize::MAX,
    }
}

/// Whether its layers have one name, none and two.
fn is_row(row: Option<&Row>) -> bool {
    match row {
        Some(row) => {
            row.len() == 3
                && size(row.get(0)) == 1
                && size(row.get(1)) == 0
                && size(row.get(2)) == 2
        }
        None => false,
    }
}

/// Whether it is a cycle of four steps with that third step, and that row alone.
fn is_cycle(certificate: &Certificate) -> bool {
    match certificate {
        Certificate::Refused { k, steps, layers } => {
            *k == 4
                && steps.len() == 4
                && is_third_step(steps.get(2))
                && layers.len() == 1
                && is_row(layers.get(0))
        }
        _ => false,
    }
}

#[test]
fn a_text_gives_its_cycle(rt: HostRuntime) -> Result<(), Fail> {
    let text =
        "cert 1\nrefused 4\nstep a b 0.2\nstep b c 1.2\nstep c d 3.4\nstep d a 1.2\nlayers z / / b a\n";
    let (version, certificate) = reading(rt.alloc(), text.as_bytes())?;
    assert!(rt; version == Version::One);
    assert!(rt; is_cycle(&certificate));
    Ok(())
}

/// The names that the text gives as an order, as the outline leaves them.
fn names_in(text: &[u8]) -> Option<&[u8]> {
    match Outline::read(text) {
        Ok((_, Outline::Accepted { names })) => Some(names),
        _ => None,
    }
}

/// The number of steps, the lines of the steps and those of the rows, as the outline leaves them.
fn cycle_in(text: &[u8]) -> Option<(u32, &[u8], &[u8])> {
    match Outline::read(text) {
        Ok((_, Outline::Refused { k, steps, rows })) => Some((k, steps, rows)),
        _ => None,
    }
}

#[test]
fn an_outline_leaves_long_parts_as_text(rt: HostRuntime) {
    assert!(rt; names_in(b"cert 1\naccepted\norder : b a\n") == Some(b" b a".as_slice()));
    assert!(rt; names_in(b"cert 2\naccepted\norder :\n") == Some(b"".as_slice()));
    let steps = b"step x b 2.1\nstep b a 0.3\nstep a x 1.1\n".as_slice();
    let rows = b"layers x / b\nlayers a /\n".as_slice();
    let text =
        b"cert 2\nrefused 3\nstep x b 2.1\nstep b a 0.3\nstep a x 1.1\nlayers x / b\nlayers a /\n";
    assert!(rt; cycle_in(text) == Some((3, steps, rows)));
}

/// Whether the text has an outline.
fn has_outline(text: &str) -> bool {
    Outline::read(text.as_bytes()).is_ok()
}

#[test]
fn certificates_have_outlines(rt: HostRuntime) {
    for text in TEXTS.iter().copied() {
        assert!(rt; has_outline(text), "at {text}");
    }
}

/// Texts that begin with the line of a step from `a` to `b_`, shown by `15.20`, and what follows that line.
static STEP_TEXTS: [(&str, &str); 4] = [
    ("step a b_ 15.20\n", ""),
    ("step a b_ 15.20\nstep b_ a 1.2\n", "step b_ a 1.2\n"),
    ("step a b_ 15.20\n\n", "\n"),
    ("step a b_ 15.20\nlayers a /", "layers a /"),
];

/// Texts that begin with no step's line.
static OTHER_TEXTS: [&str; 20] = [
    "",
    "\n",
    "step",
    "step a b_ 15.20",
    " step a b_ 15.20\n",
    "steps a b_ 15.20\n",
    "step  a b_ 15.20\n",
    "step a  b_ 15.20\n",
    "step a b_  15.20\n",
    "step a b_ 15.20 \n",
    "step a b_ 15.20 c\n",
    "step a b_\nstep a b_ 15.20\n",
    "step a\n b_ 15.20\n",
    "step a b: 15.20\n",
    "step nnnnnnnnnnnnnnnnnnnnnnnnnnnnnnnnn b_ 15.20\n",
    "step a b_ 15.0\n",
    "step a b_ 015.20\n",
    "step a b_ 15.020\n",
    "step a b_ 15.4294967296\n",
    "step a b_ 1520\nstep a b_ 15.20\n",
];

/// Whether the text begins with the line of the step from `a` to `b_`, before this rest.
fn begins_with_step(text: &str, rest: &str) -> bool {
    let Some((step, behind)) = first_step(text.as_bytes()) else {
        return false;
    };
    step.from == b"a".as_slice()
        && step.to == b"b_".as_slice()
        && step.shown.replica == 15
        && step.shown.n == 20
        && behind == rest.as_bytes()
}

#[test]
fn steps_that_texts_begin_with(rt: HostRuntime) {
    for (text, rest) in STEP_TEXTS.iter().copied() {
        assert!(rt; begins_with_step(text, rest), "at {text}");
    }
    for text in OTHER_TEXTS.iter().copied() {
        assert!(rt; first_step(text.as_bytes()).is_none(), "at {text}");
    }
}

/// Whether reading the text tells this fault.
fn has_fault(alloc: Global, text: &str, line: u64, cause: CertCause) -> bool {
    reading(alloc, text.as_bytes()).err() == Some(CertFault { line, cause })
}

/// The first of the texts that has not this fault; none where each has it.
fn first_without(
    alloc: Global,
    texts: &[&'static str],
    line: u64,
    cause: CertCause,
) -> Option<&'static str> {
    for text in texts {
        if !has_fault(alloc, text, line, cause) {
            return Some(*text);
        }
    }
    None
}

/// Texts whose first line is no certificate's.
const NO_HEADERS: &[&str] = &[
    "",
    "\n",
    "cert 3\ncontents 0.1\n",
    "cert 3\ncontents",
    "cert 1 \ncontents 0.1\n",
    "cert 1\r\ncontents 0.1\r\n",
    "trace 1\ncontents 0.1\n",
];

/// Texts whose second line names no kind of certificate.
const NO_KINDS: &[&str] = &[
    "cert 1\n",
    "cert 1\n\n",
    "cert 2\n",
    "cert 2\ncontents\n",
    "cert 1\ncontents  0.1\n",
    "cert 1\nposition 0.1 \n",
    "cert 1\ncontents 0.0\n",
    "cert 1\ncontents 01.1\n",
    "cert 1\ncontents 0.1.1\n",
    "cert 1\ncontents 0 1\n",
    "cert 1\ncontents 0.4294967296\n",
    "cert 1\ndoubled 0.1\n",
    "cert 1\ndoubled 0.1 0.2 0.3\n",
    "cert 1\naccepted :\norder :\n",
    "cert 1\naccepted\r\norder :\r\n",
    "cert 1\nrefused 0\n",
    "cert 1\nrefused 1\n",
    "cert 1\nrefused 03\n",
    "cert 1\nrefused 4294967296\n",
    "cert 1\nrefused\n",
];

#[test]
fn faults_of_the_first_two_lines(rt: HostRuntime) {
    let alloc = rt.alloc();
    assert_eq!(rt;
        first_without(alloc, NO_HEADERS, 1, CertCause::Header),
        None
    );
    assert_eq!(rt; first_without(alloc, NO_KINDS, 2, CertCause::Kind), None);
    assert_eq!(rt;
        first_without(alloc, &["cert 1", "cert 2"], 1, CertCause::Cut),
        None
    );
    assert_eq!(rt;
        first_without(alloc, &["cert 1\ncontents 0.1"], 2, CertCause::Cut),
        None
    );
}

/// Texts with a line after those that has no right shape.
static LATER_LINES: [(&str, u64); 21] = [
    ("cert 1\ncontents 0.1\ncontents 0.1\n", 3),
    ("cert 1\naccepted\n", 3),
    ("cert 1\naccepted\norder\n", 3),
    ("cert 1\naccepted\norder : \n", 3),
    ("cert 1\naccepted\norder :  a\n", 3),
    (
        "cert 1\naccepted\norder : nnnnnnnnnnnnnnnnnnnnnnnnnnnnnnnnn\n",
        3,
    ),
    ("cert 1\naccepted\norder : a\norder : a\n", 4),
    // Claimed steps are missing, and no room is made for them.
    ("cert 1\nrefused 4294967295\n", 3),
    ("cert 1\nrefused 4294967295\nstep a b 0.2\n", 4),
    ("cert 1\nrefused 2\nstep a b 0.2\n", 4),
    ("cert 1\nrefused 2\nstep a b 0.2 \n", 3),
    ("cert 1\nrefused 2\nstep a b\n", 3),
    ("cert 1\nrefused 2\nstep a b 0.2 :\n", 3),
    // A cycle of two steps has no rows.
    (
        "cert 1\nrefused 2\nstep a b 0.2\nstep b a 1.2\nlayers a\n",
        5,
    ),
    (
        "cert 1\nrefused 2\nstep a b 0.2\nstep b a 1.2\nstep a b 0.2\n",
        5,
    ),
    // Rows with too few and too many layers, and with more or less than one source.
    (
        "cert 1\nrefused 3\nstep a b 0.2\nstep b c 1.2\nstep c a 2.2\nlayers a\n",
        6,
    ),
    (
        "cert 1\nrefused 3\nstep a b 0.2\nstep b c 1.2\nstep c a 2.2\nlayers a / b /\n",
        6,
    ),
    (
        "cert 1\nrefused 3\nstep a b 0.2\nstep b c 1.2\nstep c a 2.2\nlayers a b / c\n",
        6,
    ),
    (
        "cert 1\nrefused 3\nstep a b 0.2\nstep b c 1.2\nstep c a 2.2\nlayers / a\n",
        6,
    ),
    (
        "cert 1\nrefused 3\nstep a b 0.2\nstep b c 1.2\nstep c a 2.2\nlayers a / b\nlayers b/ c\n",
        7,
    ),
    // A row where a step is missing.
    ("cert 1\nrefused 3\nstep a b 0.2\nlayers a / b\n", 4),
];

#[test]
fn faults_of_later_lines(rt: HostRuntime) {
    for (text, line) in LATER_LINES.iter().copied() {
        assert!(rt;
            has_fault(rt.alloc(), text, line, CertCause::Shape),
            "at {text}"
        );
    }
}

/// Whether the fault has this text. Where the first call finds no memory, the second is asked.
fn says(alloc: Global, fault: &CertFault, text: &str) -> bool {
    for _ in 0..2 {
        if let Ok(said) = fault.to_string(alloc) {
            return said.as_str() == text;
        }
    }
    false
}

// A last line without LF is cut, whatever it holds.
#[test]
fn a_last_line_without_its_end_is_cut(rt: HostRuntime) {
    let text = "cert 1\naccepted\norder :\nx";
    assert!(rt; has_fault(rt.alloc(), text, 4, CertCause::Cut));
    let fault = CertFault {
        line: 4,
        cause: CertCause::Cut,
    };
    assert!(rt; says(rt.alloc(), &fault, "line 4: cut"));
}
