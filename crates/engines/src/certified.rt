//! A trace in, the certificate of its verdict out.

ghost use Rattle.std.specs.Prelude.{◌≡◌, ◌≢◌, true, false, Err, IfOk, IfErr, IfSome, OnOk, IsErrOf};
ghost use Rattle.std.specs.Io.KnownBytes.{IsAtEnd};
ghost use Rattle.byte_streams.specs.Streams.{IsClosed};
ghost use Rattle.certificate.specs.ByRows.{joined};
ghost use Rattle.verdict.specs.VerdictOf.{verdict_of};
ghost use Rattle.engines.specs.Runs.{NamesFirstFault, IsOfRun, status_of};
ghost use Rattle.engines.specs.Certified.{IsCertificateFor, Certifies, CertifiesFront};
ghost use Rattle.engines.specs.OutOfMemory.{RunsOut, WasReadWhole};
ghost use Rattle.engines.specs.Failures.{FailsToRead, FailsToWrite};

use super::output::{status_of, write_texts};
use super::status::{RunFault, Status};
use super::trace_source::recording_from;
use byte_streams::{Reader, Sink, Source, Writer};
use certificate::{Certified, judge_and_write};
use command_line::WORKERS;
use events::{Memory, Recording};
use std::alloc::Global;
use std::thread::Threads;
use verdict::{NoGate, SearchFault};

/// Reads a trace to its end, and writes the certificate of its verdict, in version two. Four workers search,
/// and rows are made in four threads. What follows a faulty line may be left unread.
///
/// Nothing is written before the whole text is made. A trace line that is refused for out of memory is
/// `Memory`.
pub fn run_cert<H: Threads + Sync, R: Reader + Drop, W: Writer + Drop>(
    rt: &H,
    alloc: Global,
    source: &mut Source<R>,
    sink: &mut Sink<W>,
) -> Result<Status, RunFault>
    ensures certificate { IfOk result (λ status. IfSome source.old.bytes
        (λ text. Certifies text sink.old.bytes sink.new.bytes status)) }
    ensures end { OnOk result (IsAtEnd source.new.bytes × (source.new.ended ≡ true)) }
    ensures workers { ¬ IsErrOf result RunFault.Workers }
    ensures faults { IfErr result IsOfRun }
    ensures read { IfErr result (λ fault. fault ≡ RunFault.Read → IsClosed source.new) }
    // Could not read only where a read of this call failed, or the limit of reads was reached by it, or the
    // source was closed from the start.
    ensures failed_read { IfErr result (λ fault. fault ≡ RunFault.Read → FailsToRead source.old source.new) }
    ensures closed_source { IsClosed source.old → (result ≡ Err RunFault.Read) × (source.new ≡ source.old) }
    ensures memory { IfErr result (λ fault. fault ≡ RunFault.Memory → source.new.failed ≡ false) }
    // Out of memory only at a piece by which a line had come whose reading takes memory, or that comes in the
    // midst of a line; or behind the whole text.
    ensures place { IfErr result (λ fault. fault ≡ RunFault.Memory → RunsOut source.old source.new) }
    ensures trace { IfErr result (λ fault. IfSome source.old.bytes (λ text. NamesFirstFault text fault)) }
    ensures write { IfErr result (λ fault. fault ≡ RunFault.Write → (sink.new.failed ≡ true)
        × IfSome source.old.bytes (λ text. CertifiesFront text sink.old.bytes sink.new.bytes)) }
    // Could not write only behind the whole text, where a write of this call failed or took no byte, or the
    // sink was closed from the start.
    ensures failed_write { IfErr result (λ fault. fault ≡ RunFault.Write → FailsToWrite sink.old sink.new
        × WasReadWhole source.old source.new) }
    ensures closed_sink { sink.old.failed ≡ true → sink.new ≡ sink.old }
    ensures unwritten { IfErr result (λ fault. fault ≢ RunFault.Write → sink.new ≡ sink.old) }
{
    let recording = recording_from(alloc, source)?;
    let certified = certificate_on(rt, alloc, &recording)?;
    write_texts(sink, &certified.texts, status_of(&certified.verdict))
}

/// The verdict on the recording, and the text of its certificate.
fn certificate_on<H: Threads + Sync>(
    rt: &H,
    alloc: Global,
    recording: &Recording,
) -> Result<Certified, Memory>
    ensures { IfOk result (λ certified. IsCertificateFor recording.now (joined certified.texts.items)
        (status_of (verdict_of certified.verdict))) }
{
    match judge_and_write(rt, alloc, recording, WORKERS, &NoGate) {
        Ok(certified) => Ok(certified),
        Err(SearchFault::Memory) => Err(Memory),
        Err(SearchFault::Workers) => unreachable!(),
    }
}
