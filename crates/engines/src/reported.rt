//! A run: a trace in, the report of its verdict out.

ghost use Rattle.std.specs.Prelude.{◌≡◌, ◌≢◌, ◌↔◌, ◌≤◌, true, false, Err, IfOk, IfErr, IfSome, OnOk, IsErrOf};
ghost use Rattle.std.specs.Io.KnownBytes.{IsAtEnd};
ghost use Rattle.verdict.specs.VerdictOf.{verdict_of};
ghost use Rattle.byte_streams.specs.Streams.{IsClosed};
ghost use Rattle.engines.specs.Runs.{report_of, IsReportOn, Reports, ReportsFront, NamesFirstFault};
ghost use Rattle.engines.specs.Runs.{IsOfRun, IsNoWorkers};
ghost use Rattle.engines.specs.OutOfMemory.{RunsOut, WasReadWhole};
ghost use Rattle.engines.specs.Failures.{FailsToRead, FailsToWrite};

use super::output::{Output, status_of, verdict_on, write_output};
use super::status::{RunFault, Status};
use super::trace_source::recording_from;
use byte_streams::{Reader, Sink, Source, Writer};
use command_line::{Form, MOST_WORKERS};
use events::{Memory, Recording};
use std::alloc::Global;
use std::thread::Threads;
use verdict::Verdict;

/// Reads a trace to its end, and writes the report of its verdict. What follows a faulty line may be left
/// unread.
///
/// The number of workers is tested before anything is read. Nothing is written before the whole report is
/// made. A trace line that is refused for out of memory is `Memory`.
pub fn run<H: Threads + Sync, R: Reader + Drop, W: Writer + Drop>(
    rt: &H,
    alloc: Global,
    source: &mut Source<R>,
    sink: &mut Sink<W>,
    workers: u32,
    form: Form,
) -> Result<Status, RunFault>
    ensures report { IfOk result (λ status. IfSome source.old.bytes
        (λ text. Reports text form sink.old.bytes sink.new.bytes status)) }
    ensures end { OnOk result (IsAtEnd source.new.bytes × (source.new.ended ≡ true)) }
    ensures workers { IsErrOf result RunFault.Workers ↔ IsNoWorkers workers }
    ensures unread { IsNoWorkers workers → source.new ≡ source.old }
    ensures faults { IfErr result IsOfRun }
    ensures read { IfErr result (λ fault. fault ≡ RunFault.Read → IsClosed source.new) }
    // Could not read only where a read of this call failed, or the limit of reads was reached by it, or the
    // source was closed from the start.
    ensures failed_read { IfErr result (λ fault. fault ≡ RunFault.Read → FailsToRead source.old source.new) }
    ensures closed_source { IsClosed source.old → (source.new ≡ source.old)
        × (¬ IsNoWorkers workers → result ≡ Err RunFault.Read) }
    ensures memory { IfErr result (λ fault. fault ≡ RunFault.Memory → source.new.failed ≡ false) }
    // Out of memory only at a piece by which a line had come whose reading takes memory, or that comes in the
    // midst of a line; or behind the whole text.
    ensures place { IfErr result (λ fault. fault ≡ RunFault.Memory → RunsOut source.old source.new) }
    ensures trace { IfErr result (λ fault. IfSome source.old.bytes (λ text. NamesFirstFault text fault)) }
    ensures write { IfErr result (λ fault. fault ≡ RunFault.Write → (sink.new.failed ≡ true)
        × IfSome source.old.bytes (λ text. ReportsFront text form sink.old.bytes sink.new.bytes)) }
    // Could not write only behind the whole text, where a write of this call failed or took no byte, or the
    // sink was closed from the start.
    ensures failed_write { IfErr result (λ fault. fault ≡ RunFault.Write → FailsToWrite sink.old sink.new
        × WasReadWhole source.old source.new) }
    ensures closed_sink { sink.old.failed ≡ true → sink.new ≡ sink.old }
    ensures unwritten { IfErr result (λ fault. fault ≢ RunFault.Write → sink.new ≡ sink.old) }
{
    if workers == 0 || workers > MOST_WORKERS {
        return Err(RunFault::Workers);
    }
    let recording = recording_from(alloc, source)?;
    let report = report_on(rt, alloc, &recording, workers, form)?;
    write_output(sink, &report)
}

/// The report on the recording.
fn report_on<H: Threads + Sync>(
    rt: &H,
    alloc: Global,
    recording: &Recording,
    workers: u32,
    form: Form,
) -> Result<Output, Memory>
    requires workers { (1 ≤ workers) × (workers ≤ MOST_WORKERS) }
    ensures { IfOk result (λ report. IsReportOn recording.now form report.bytes.items report.status) }
{
    let verdict = verdict_on(rt, alloc, recording, workers)?;
    let bytes = bytes_of(alloc, recording, &verdict, form)?;
    Ok(Output {
        bytes,
        status: status_of(&verdict),
    })
}

/// The report of the verdict, in this form.
pub fn bytes_of(
    alloc: Global,
    recording: &Recording,
    verdict: &Verdict,
    form: Form,
) -> Result<Vec<u8>, Memory>
    ensures { IfOk result (λ bytes. bytes.items ≡ report_of form recording.now (verdict_of verdict.now)) }
{
    match form {
        Form::Text => report::text(alloc, recording, verdict),
        Form::Json => report::json(alloc, recording, verdict),
    }
}
