//! The certificate of a verdict.

ghost use Rattle.std.specs.Prelude.{◌≡◌, IfOk, MatchOption};
ghost use Rattle.specification.specs.CertificateText.{IsSpellable};
ghost use Rattle.specification.specs.ExactRows.{IsCertificateOf};
ghost use Rattle.specification.specs.Faults.{IsSound};
ghost use Rattle.specification.specs.Responses.{responses_of};
ghost use Rattle.specification.specs.ValidCertificate.{IsValid};
ghost use Rattle.specification.specs.Verdict.{IsVerdict};
ghost use Rattle.specification.specs.Versions.{two};
ghost use Rattle.order_graph.specs.Covers.{IsCoveredBy};
ghost use Rattle.certificate_text.specs.CertificateOf.{certificate_of};
ghost use Rattle.certificate.specs.ByRows.{HasNoRows, HasRows, certificate_with};
ghost use Rattle.verdict.specs.VerdictOf.{verdict_of};

use super::rows::rows_of_layers;
use certificate_text::{Certificate, Layers, Row};
use contents_check::{Checked, check_in_turn};
use events::{Memory, Recording};
use order_graph::OrderGraph;
use std::alloc::Global;
use verdict::Verdict;
use visibility::Sight;
use witnesses::{Order, Steps};

/// The certificate of a verdict, in version two: its fault, its order, or its steps, and for `k` of 3 and
/// more one row of layers for each element, in order of numbers.
///
/// A row speaks of the elements alone that are not numbered below its source. Its layer j, from 0, holds
/// those that take j steps from the source, through such elements, and no fewer, in order of numbers;
/// elements that take k - 1 steps or more stand in none. A certificate has one spelling, so the same
/// recording gives the same bytes.
///
/// A fault, an order and a cycle of two elements cost their own length. For a greater `k` the responses that
/// cover all are found, for which the contents are checked once more. Rows are made along these, without those
/// that the one beside them holds: a row costs at most a step for each place behind its names in each of them,
/// those of its last layer left out, and to begin a step for each element and each response.
///
/// Along a table of n * n bits for n elements a row costs n / 64 steps for itself, for each layer behind one
/// that has names and for each name but those of the last layer. The table is made at once where it has no
/// more words than the responses have places, or where up to 64 rows that are tried show it to be cheaper, a
/// step along a response counted as four words; and else as soon as the rows so far have cost more along the
/// responses than it and they along it would have. To make it each response costs
/// n / 64 steps, and each of its places a step, and one for each new element behind it, up to 64; where there
/// are more, or its own is new, n / 64 steps. New is an element that the response before has not, or in
/// another order.
///
/// Besides, there is memory for the names. So the memory may be quadratic in the elements: of 4,096, rows of up
/// to 2,048 names of 33 bytes each on average, and it answers `Memory` where that is not to be had. For the
/// text alone `write_certificate` keeps one row at a time.
pub fn certify(
    alloc: Global,
    recording: &Recording,
    verdict: &Verdict,
) -> Result<Certificate, Memory>
    requires verdict { IsVerdict recording.now (verdict_of verdict.now) }
    ensures exact { IfOk result (λ c. IsCertificateOf two recording.now (verdict_of verdict.now)
        (certificate_of c)) }
    ensures valid { IfOk result (λ c. IsValid two recording.now (certificate_of c)
        × IsSpellable (certificate_of c)) }
{
    // The contract of this call has that the recording is legal.
    let _ = recording.replicas();
    certificate_for(alloc, recording, verdict)
}

/// The certificate of a verdict, told by what it holds alone.
fn certificate_for(
    alloc: Global,
    recording: &Recording,
    verdict: &Verdict,
) -> Result<Certificate, Memory>
    requires { IsVerdict recording.now (verdict_of verdict.now) }
    ensures { IfOk result (λ c. IsCertificateOf two recording.now (verdict_of verdict.now)
        (certificate_of c)) }
{
    let rows = rows_for(alloc, recording, verdict)?;
    with_rows(alloc, verdict, rows)
}

/// The rows of the certificate of a verdict.
fn rows_for(alloc: Global, recording: &Recording, verdict: &Verdict) -> Result<Vec<Row>, Memory>
    requires { IsVerdict recording.now (verdict_of verdict.now) }
    ensures { IfOk result (λ rows. IsCertificateOf two recording.now (verdict_of verdict.now)
        (certificate_with rows.items (verdict_of verdict.now))) }
{
    // The contract of this call has that the recording is legal.
    let _ = recording.replicas();
    let Some(k) = number_with_rows(verdict) else {
        return Ok(Vec::new(alloc));
    };
    let graph = covering_graph(alloc, recording)?;
    rows_of_layers(alloc, &graph, k)
}

/// The graph of responses that cover all, which a check of the contents finds in the caller's thread.
pub fn covering_graph(alloc: Global, recording: &Recording) -> Result<OrderGraph, Memory>
    requires { IsSound recording.now }
    ensures { IfOk result (λ graph. IsCoveredBy (responses_of recording.now) graph) }
{
    let sight = Sight::of(alloc, recording)?;
    match check_in_turn(alloc, recording, &sight)? {
        Checked::Sound(numbered) => Ok(OrderGraph::of_covering(recording, numbered)),
        Checked::Faulty(_) => unreachable!(),
    }
}

/// The conflict number of a verdict whose certificate has rows: a refusal with 3 or more.
pub fn number_with_rows(verdict: &Verdict) -> Option<u32>
    ensures { MatchOption result (HasNoRows (verdict_of verdict.now)) (HasRows (verdict_of verdict.now)) }
{
    match verdict {
        Verdict::Refused { k, .. } if *k >= 3 => Some(*k),
        _ => None,
    }
}

/// The certificate of a verdict, with these rows where it is a refusal.
pub fn with_rows(alloc: Global, verdict: &Verdict, rows: Vec<Row>) -> Result<Certificate, Memory>
    ensures { IfOk result (λ c. certificate_of c ≡ certificate_with rows.items (verdict_of verdict.now)) }
{
    match verdict {
        Verdict::Doubled { first, again } => Ok(Certificate::Doubled {
            first: *first,
            again: *again,
        }),
        Verdict::Contents { at } => Ok(Certificate::Contents { at: *at }),
        Verdict::Position { at } => Ok(Certificate::Position { at: *at }),
        Verdict::Accepted(order) => {
            let names = Vec::from_slice(alloc, order.names())?;
            Ok(Certificate::Accepted(Order::from_names(names)))
        },
        Verdict::Refused { k, steps } => Ok(Certificate::Refused {
            k: *k,
            steps: copied_steps(alloc, steps)?,
            layers: Layers::from_items(rows),
        }),
    }
}

/// The same steps.
fn copied_steps(alloc: Global, steps: &Steps) -> Result<Steps, Memory>
    ensures { IfOk result (λ s. s ≡ steps.now) }
{
    let mut copies = Vec::new(alloc);
    for i in 0..steps.len() {
        let Some(step) = steps.get(i) else {
            unreachable!()
        };
        copies.push(*step)?;
    }
    Ok(Steps::from_items(copies))
}
