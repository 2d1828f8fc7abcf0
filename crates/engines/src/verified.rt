//! A trace and a certificate in, the checker's line out.

ghost use Rattle.std.specs.Prelude.{◌≡◌, ◌≢◌, ◌⊎◌, true, false, Err, IfOk, IfErr, IfSome, IsErr, IsSome, List, OnOk};
ghost use Rattle.std.specs.Prelude.{ℕ};
ghost use Rattle.std.specs.Io.KnownBytes.{IsAtEnd};
ghost use Rattle.byte_streams.specs.Streams.{IsClosed};
ghost use Rattle.cert_check.specs.AnswerOf.{IsAnswer};
ghost use Rattle.cert_check.specs.OutOfMemory.{CertTakesMemory};
ghost use Rattle.engines.specs.Runs.{IsOfVerifying};
ghost use Rattle.engines.specs.Certified.{IsLineOn, IsRecordingOf, Verifies, VerifiesFront};
ghost use Rattle.engines.specs.Certified.{status_of_answer};
ghost use Rattle.engines.specs.OutOfMemory.{RunsOutVerifying};
ghost use Rattle.engines.specs.Failures.{FailsToRead, FailsToWrite};

use super::answer_line::line_of;
use super::output::{Output, whole_text, write_output};
use super::status::{RunFault, Status};
use super::trace_source::recording_to_end;
use byte_streams::{Reader, Sink, Source, Writer};
use cert_check::{Answer, Reason, check_recording};
use events::{Memory, Recording};
use std::alloc::Global;
use std::thread::Threads;

/// Reads a trace to its end, then a certificate, and writes the checker's line: whether the certificate is
/// valid for the recording that the trace spells.
///
/// Texts that do not read are answers of the checker and no faults: the rest of a faulty trace is read and
/// thrown away. Its faults are `Read`, `Write` and `Memory` alone. Nothing is written before the whole line
/// is made.
///
/// The trace's text never stands in memory: it is read by pieces of 65,536 bytes. What is kept is the
/// recording, the certificate's text, and what `check_recording` takes for the two.
pub fn run_verify<H: Threads + Sync, T: Reader + Drop, C: Reader + Drop, W: Writer + Drop>(
    rt: &H,
    alloc: Global,
    trace: &mut Source<T>,
    cert: &mut Source<C>,
    sink: &mut Sink<W>,
) -> Result<Status, RunFault>
    ensures answer { IfOk result (λ status. IfSome trace.old.bytes
        (λ t. IfSome cert.old.bytes (λ c. Verifies t c sink.old.bytes sink.new.bytes status))) }
    ensures end { OnOk result (IsAtEnd trace.new.bytes × (trace.new.ended ≡ true) × IsAtEnd cert.new.bytes
        × (cert.new.ended ≡ true)) }
    ensures faults { IfErr result IsOfVerifying }
    // The certificate is read only after the whole trace.
    ensures read { IfErr result (λ fault. fault ≡ RunFault.Read → (IsClosed trace.new × (cert.new ≡ cert.old))
        ⊎ ((trace.new.ended ≡ true) × IsClosed cert.new)) }
    // Could not read only where a read of this call failed, or the limit of reads was reached by it, or the
    // source was closed from the start.
    ensures failed_read { IfErr result (λ fault. fault ≡ RunFault.Read
        → (FailsToRead trace.old trace.new × (cert.new ≡ cert.old))
        ⊎ ((trace.new.ended ≡ true) × FailsToRead cert.old cert.new)) }
    ensures closed_trace { IsClosed trace.old → (result ≡ Err RunFault.Read) × (trace.new ≡ trace.old)
        × (cert.new ≡ cert.old) }
    ensures closed_cert { IsClosed cert.old → IsErr result × (cert.new ≡ cert.old) }
    ensures memory { IfErr result (λ fault. fault ≡ RunFault.Memory → (trace.new.failed ≡ false)
        × ((cert.new ≡ cert.old) ⊎ (cert.new.failed ≡ false))) }
    // Out of memory only at a piece of the trace by which a line had come whose reading takes memory, or that
    // comes in the midst of a line; or behind the trace, where bytes of the certificate came, or all of them.
    ensures place { IfErr result (λ fault. fault ≡ RunFault.Memory
        → RunsOutVerifying trace.old trace.new cert.old cert.new) }
    ensures write { IfErr result (λ fault. fault ≡ RunFault.Write → (sink.new.failed ≡ true)
        × IfSome trace.old.bytes (λ t. IfSome cert.old.bytes
        (λ c. VerifiesFront t c sink.old.bytes sink.new.bytes))) }
    // Could not write only behind both texts, where a write of this call failed or took no byte, or the sink
    // was closed from the start.
    ensures failed_write { IfErr result (λ fault. fault ≡ RunFault.Write → FailsToWrite sink.old sink.new
        × (trace.new.ended ≡ true) × (cert.new.ended ≡ true)) }
    ensures closed_sink { sink.old.failed ≡ true → sink.new ≡ sink.old }
    ensures unwritten { IfErr result (λ fault. fault ≢ RunFault.Write → sink.new ≡ sink.old) }
{
    let recording = recording_to_end(alloc, trace)?;
    let cert_text = whole_text(alloc, cert)?;
    let output = line_on(rt, alloc, &recording, &cert_text)?;
    write_output(sink, &output)
}

/// The line of the checker's answer, with its status, on the certificate's text and any trace that spells
/// this recording; or, where there is none, any trace that spells none.
fn line_on<H: Threads + Sync>(
    rt: &H,
    alloc: Global,
    recording: &Option<Recording>,
    cert: &[u8],
) -> Result<Output, Memory>
    ensures { IfOk result (λ output. (trace : List ℕ) → IsRecordingOf trace recording.now
        → IsLineOn trace cert.now output.bytes.items output.status) }
{
    let answer = answer_on(rt, alloc, cert, recording)?;
    let bytes = line_of(alloc, &answer)?;
    Ok(Output {
        bytes,
        status: status_of_answer(&answer),
    })
}

/// The checker's answer: `No(Trace)` where no recording was read, whatever the certificate's text.
fn answer_on<H: Threads + Sync>(
    rt: &H,
    alloc: Global,
    cert: &[u8],
    recording: &Option<Recording>,
) -> Result<Answer, Memory>
    ensures answer { IfOk result (λ a. (trace : List ℕ) → IsRecordingOf trace recording.now
        → IsAnswer trace cert.now a) }
    // Out of memory only where a recording was read, and the text spells a certificate.
    ensures memory { IfErr result (λ _. IsSome recording.now × CertTakesMemory cert.now) }
{
    match recording {
        None => Ok(Answer::No(Reason::Trace)),
        Some(recording) => check_recording(rt, alloc, recording, cert),
    }
}

/// Good exactly for a yes.
pub fn status_of_answer(answer: &Answer) -> Status
    ensures { result ≡ status_of_answer answer.now }
{
    match answer {
        Answer::Yes(_) => Status::Good,
        Answer::No(_) => Status::Bad,
    }
}
