//! The checker, from the two texts, or from a recording and one text.

ghost use Rattle.std.specs.Prelude.{◌≡◌, ◌↔◌, IfOk, IfErr, IsTrue};
ghost use Rattle.cert_check.specs.AnswerOf.{IsAnswer, IsAnswerOn, ImpliesOfTexts, ImpliesOn};
ghost use Rattle.cert_check.specs.OutOfMemory.{CertTakesMemory, TakesMemory};

use super::answer::{Answer, Reason};
use super::judging::judge;
use certificate_text::Outline;
use events::{Memory, Recording, Refusal};
use std::alloc::Global;
use std::thread::Threads;
use trace_text::{Cause, read};

/// Whether the certificate is valid for the recording that the trace spells, in the version that its text's
/// first line names; where not, the first reason.
///
/// It searches nothing. Beyond reading the texts and looking for a fault, a step of a certificate costs the
/// response of its operation, and a row a step for each of its words, and `n / 64` for itself, for each name
/// that is not in the last layer and for each layer behind one that has names, n being the number of elements
/// of the recording; one of more than n layers also the sorting of n depths, about `n * log n` steps. So it
/// is in both versions; the rows of version two have about half as many names. For orders and rows only those
/// responses are looked at that cover all: each other one is a subsequence of one of them. For the rows a
/// table is made of these once, when a row has its source and its words are right: each costs `n / 64` steps,
/// and each of its places a step, and one for each new element behind it, up to 64; where there are more, or
/// its own is new, `n / 64` steps. New is an element that the one before has not, or in another order. It
/// starts no thread. Its memory is linear in the texts but for that table, which takes `n * n / 8` bytes, 2
/// MiB for 4,096 elements and 512 MiB for 65,536. Out of memory is answered only where a line of the trace
/// takes memory, or where the trace spells a recording and the certificate's text a certificate.
pub fn check_in_turn(alloc: Global, trace: &[u8], cert: &[u8]) -> Result<Answer, Memory>
    ensures answer { IfOk result (λ a. IsAnswer trace.now cert.now a) }
    // What a yes says of the recording.
    ensures implies { IfOk result (λ a. ImpliesOfTexts trace.now cert.now a) }
    // Out of memory, only where a line of the trace takes some, or both texts spell something.
    ensures memory { IfErr result (λ _. TakesMemory trace.now cert.now) }
{
    match read(alloc, trace) {
        Ok(recording) => check_recording_in_turn(alloc, &recording, cert),
        Err(fault) => {
            if is_out_of_memory(fault.cause) {
                Err(Memory)
            } else {
                Ok(Answer::No(Reason::Trace))
            }
        }
    }
}

/// The same, for a caller that has a handle: it is not used.
pub fn check<H: Threads + Sync>(
    _rt: &H,
    alloc: Global,
    trace: &[u8],
    cert: &[u8],
) -> Result<Answer, Memory>
    ensures answer { IfOk result (λ a. IsAnswer trace.now cert.now a) }
    // What a yes says of the recording.
    ensures implies { IfOk result (λ a. ImpliesOfTexts trace.now cert.now a) }
    // Out of memory, only where a line of the trace takes some, or both texts spell something.
    ensures memory { IfErr result (λ _. TakesMemory trace.now cert.now) }
{
    check_in_turn(alloc, trace, cert)
}

/// What `check_in_turn` answers on each trace that spells the recording, for a caller that has read it already,
/// as `trace_text::Reader` does piece by piece. So the trace's text need not stand in memory.
///
/// It costs what `check_in_turn` does but for the reading of the trace. Beside the recording and the
/// certificate's text it keeps what is visible in the recording, the numbers of the elements, those responses
/// that cover all as numbers, for the rows the lists or the table of `Ways`, the depths and 20 bytes for each
/// element by which names are found again, and of one row at a time the numbers that have a depth, and by the
/// table the layers (at most `2 * n + 2` lists) and the two sets of `are_deep`.
pub fn check_recording_in_turn(
    alloc: Global,
    recording: &Recording,
    cert: &[u8],
) -> Result<Answer, Memory>
    ensures answer { IfOk result (λ a. IsAnswerOn recording.now cert.now a) }
    // What a yes says of the recording.
    ensures implies { IfOk result (λ a. ImpliesOn recording.now cert.now a) }
    // Out of memory, only where the text spells a certificate.
    ensures memory { IfErr result (λ _. CertTakesMemory cert.now) }
{
    // Each recording is legal.
    let _replicas = recording.replicas();
    match Outline::read(cert) {
        Ok((version, outline)) => judge(alloc, recording, version, &outline),
        Err(_) => Ok(Answer::No(Reason::CertText)),
    }
}

/// The same, for a caller that has a handle: it is not used.
pub fn check_recording<H: Threads + Sync>(
    _rt: &H,
    alloc: Global,
    recording: &Recording,
    cert: &[u8],
) -> Result<Answer, Memory>
    ensures answer { IfOk result (λ a. IsAnswerOn recording.now cert.now a) }
    // What a yes says of the recording.
    ensures implies { IfOk result (λ a. ImpliesOn recording.now cert.now a) }
    // Out of memory, only where the text spells a certificate.
    ensures memory { IfErr result (λ _. CertTakesMemory cert.now) }
{
    check_recording_in_turn(alloc, recording, cert)
}

/// Whether the reading of a trace found no memory.
fn is_out_of_memory(cause: Cause) -> bool
    ensures { IsTrue result ↔ (cause ≡ Cause.Refused Refusal.Memory) }
{
    match cause {
        Cause::Refused(why) => is_memory(why),
        _ => false,
    }
}

/// Whether it is out of memory that a recording refuses an entry for.
fn is_memory(why: Refusal) -> bool
    ensures { IsTrue result ↔ (why ≡ Refusal.Memory) }
{
    match why {
        Refusal::Memory => true,
        _ => false,
    }
}
