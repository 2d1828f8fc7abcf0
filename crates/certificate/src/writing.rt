//! The text of the certificate of a verdict, whose rows are made and written piece by piece.

ghost use Rattle.std.specs.Prelude.{◌≡◌, ◌⊎◌, ◌↔◌, ◌<◌, [], IfNone, IfOk, IfSome, IsErrOf};
ghost use Rattle.specification.specs.CertificateText.{certificate_text};
ghost use Rattle.specification.specs.Faults.{IsSound};
ghost use Rattle.specification.specs.Responses.{responses_of};
ghost use Rattle.specification.specs.Verdict.{IsVerdict};
ghost use Rattle.specification.specs.Versions.{two};
ghost use Rattle.order_graph.specs.Covers.{IsCoveredBy};
ghost use Rattle.certificate.specs.ByRows.{IsTextOfCertificate, certificate_with, joined};
ghost use Rattle.verdict.specs.VerdictOf.{IsRefusal, verdict_of};

use super::certifying::{covering_graph, number_with_rows, with_rows};
use super::pieces::{push_rows_by, row_maker};
use certificate_text::Version;
use events::{Memory, Recording};
use level_search::{Gate, MOST_WORKERS, SearchFault};
use order_graph::OrderGraph;
use std::alloc::Global;
use std::thread::Threads;
use verdict::{Judged, Verdict, verdict_and_graph, verdict_and_graph_in_turn};

/// The text of the certificate of a verdict, in version two: the same bytes as `certify` and then
/// `Certificate::write` give, in less memory.
///
/// For `k` of 3 and more each row of layers is made, its line is added to the text, and it is let go before
/// the next. So for n elements memory is for the text, in which a name takes its own length and a space, for
/// one row, of at most n names of 33 bytes each, and for what rows are made along: 12 bytes for each place of
/// the responses that are kept, or a table of `n * n / 8` bytes, never both. Time is that of `certify` and
/// `Certificate::write`, but that it decides for the table before each 5,120 rows alone, and begins as often.
/// It answers `Memory` where that is not to be had.
pub fn write_certificate(
    alloc: Global,
    recording: &Recording,
    verdict: &Verdict,
) -> Result<Vec<u8>, Memory>
    requires verdict { IsVerdict recording.now (verdict_of verdict.now) }
    ensures { IfOk result (λ bytes. IsTextOfCertificate recording.now (verdict_of verdict.now) bytes.items) }
{
    // The contract of this call has that the recording is legal.
    let _ = recording.replicas();
    let mut text = text_without_rows(alloc, recording, verdict)?;
    let Some(k) = number_with_rows(verdict) else {
        return Ok(text);
    };
    let graph = covering_graph(alloc, recording)?;
    let mut maker = row_maker(alloc, &graph, k)?;
    maker.push_rows(&mut text)?;
    Ok(text)
}

/// A verdict, and the text of its certificate: these texts one after the other, first what stands before the
/// rows. Some may be empty, and where they are cut no contract says.
#[derive(Drop)]
pub struct Certified {
    pub verdict: Verdict,
    pub texts: Vec<Vec<u8>>,
}

/// The verdict on a recording, as `judge` gives it, and the text of its certificate, as `write_certificate`
/// gives it.
///
/// The responses that cover all others are found once for both. With one worker the rows are made one after
/// the other in the caller's thread, as one text; with more, four threads make texts of ten rows, 128 each
/// before they wait for one another. These stay as they are: nothing is copied to put them together. Behind
/// the last row up to 512 texts are empty. So memory is for the text, with the room that each of its parts
/// has to spare, for one row of each thread, and for some dozens of bytes for each part; else time and memory
/// are those of the two calls.
pub fn judge_and_write<H: Threads + Sync, G: Gate>(
    rt: &H,
    alloc: Global,
    recording: &Recording,
    workers: u32,
    gate: &G,
) -> Result<Certified, SearchFault>
    ensures verdict { IfOk result (λ c. IsVerdict recording.now (verdict_of c.verdict)) }
    ensures text { IfOk result (λ c. IsTextOfCertificate recording.now (verdict_of c.verdict)
        (joined c.texts.items)) }
    ensures workers { IsErrOf result SearchFault.Workers ↔ ((workers < 1) ⊎ (MOST_WORKERS < workers)) }
{
    let Judged {
        verdict,
        graph,
        looked: _,
    } = verdict_and_graph(rt, alloc, recording, workers, gate)?;
    let texts = texts_by(rt, alloc, workers, recording, &verdict, graph)?;
    Ok(Certified { verdict, texts })
}

/// A verdict, and the text of its certificate.
#[derive(Drop)]
pub struct Written {
    pub verdict: Verdict,
    pub text: Vec<u8>,
}

/// What `judge_and_write` gives, as one text, by one worker in the caller's thread. It needs no handle.
pub fn judge_and_write_in_turn(alloc: Global, recording: &Recording) -> Result<Written, Memory>
    ensures verdict { IfOk result (λ w. IsVerdict recording.now (verdict_of w.verdict)) }
    ensures text { IfOk result (λ w. IsTextOfCertificate recording.now (verdict_of w.verdict) w.text.items) }
{
    let Judged {
        verdict,
        graph,
        looked: _,
    } = verdict_and_graph_in_turn(alloc, recording)?;
    let text = text_in_turn(alloc, recording, &verdict, graph)?;
    Ok(Written { verdict, text })
}

/// The text of the certificate of a verdict. A refusal comes with its graph.
fn text_in_turn(
    alloc: Global,
    recording: &Recording,
    verdict: &Verdict,
    made: Option<OrderGraph>,
) -> Result<Vec<u8>, Memory>
    requires verdict { IsVerdict recording.now (verdict_of verdict.now) }
    requires made { IfSome made (IsCoveredBy (responses_of recording.now)) }
    requires refusal { IfNone made (¬ IsRefusal (verdict_of verdict.now)) }
    ensures { IfOk result (λ text. IsTextOfCertificate recording.now (verdict_of verdict.now) text.items) }
{
    // The contract of this call has that the recording is legal.
    let _ = recording.replicas();
    let mut text = text_without_rows(alloc, recording, verdict)?;
    let Some(k) = number_with_rows(verdict) else {
        return Ok(text);
    };
    let Some(graph) = made else { unreachable!() };
    let mut maker = row_maker(alloc, &graph, k)?;
    maker.push_rows(&mut text)?;
    Ok(text)
}

/// The text of the certificate of a verdict, as texts one after the other. A refusal comes with its graph.
fn texts_by<H: Threads + Sync>(
    rt: &H,
    alloc: Global,
    workers: u32,
    recording: &Recording,
    verdict: &Verdict,
    made: Option<OrderGraph>,
) -> Result<Vec<Vec<u8>>, Memory>
    requires verdict { IsVerdict recording.now (verdict_of verdict.now) }
    requires made { IfSome made (IsCoveredBy (responses_of recording.now)) }
    requires refusal { IfNone made (¬ IsRefusal (verdict_of verdict.now)) }
    ensures { IfOk result (λ texts. IsTextOfCertificate recording.now (verdict_of verdict.now)
        (joined texts.items)) }
{
    // The contract of this call has that the recording is legal.
    let _ = recording.replicas();
    let head = text_without_rows(alloc, recording, verdict)?;
    let mut texts = Vec::new(alloc);
    texts.push(head)?;
    let Some(k) = number_with_rows(verdict) else {
        return Ok(texts);
    };
    let Some(graph) = made else { unreachable!() };
    push_rows_by(rt, alloc, workers, &graph, k, &mut texts)?;
    Ok(texts)
}

/// The text of the certificate of a verdict up to its rows.
fn text_without_rows(
    alloc: Global,
    recording: &Recording,
    verdict: &Verdict,
) -> Result<Vec<u8>, Memory>
    requires { IsVerdict recording.now (verdict_of verdict.now) }
    ensures { IfOk result (λ text. text.items
        ≡ certificate_text two (certificate_with [] (verdict_of verdict.now))) }
{
    // The contract of this call has that the recording is legal.
    let _ = recording.replicas();
    let head = with_rows(alloc, verdict, Vec::new(alloc))?;
    let text = head.write(alloc, Version::Two)?;
    Ok(text)
}
