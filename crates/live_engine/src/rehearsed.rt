//! A trace in; the report out on what recorder threads made of it in one session, beside a watcher.

ghost use Rattle.std.specs.Prelude.{◌≡◌, ◌≢◌, ◌↔◌, ◌≤◌, true, false, Err, IfOk, IfErr, IfSome, OnOk, IsErrOf};
ghost use Rattle.std.specs.Io.KnownBytes.{IsAtEnd};
ghost use Rattle.events.specs.History.{SameStreams};
ghost use Rattle.byte_streams.specs.Streams.{IsClosed};
ghost use Rattle.command_line.specs.declared.task.Form.TheVariants.{Text};
ghost use Rattle.rehearsal.specs.Ends.{HasEnded};
ghost use Rattle.rehearsal.specs.Replays.{HasStalled};
ghost use Rattle.engines.specs.Runs.{IsNoWorkers, IsReportOn, NamesFirstFault, Reports, ReportsFront};
ghost use Rattle.engines.specs.Failures.{FailsToRead, FailsToWrite};
ghost use Rattle.engines.specs.OutOfMemory.{RunsOut, WasReadWhole};
ghost use Rattle.live_engine.specs.Endings.{fault_of_rehearsal};
ghost use Rattle.rehearsal.specs.Watched.{WasWatched};
ghost use Rattle.live_engine.specs.Sessions.{HasStalledOn, IsOfSession, IsWatched, IsWatchedOn};

use byte_streams::{Reader, Sink, Source, Writer};
use command_line::MOST_WORKERS;
use engines::{Output, RunFault, Status, recording_from, status_of, verdict_on, write_output};
use events::Recording;
use rehearsal::{RehearsalFault, Rehearsed, Verdicts, rehearse_watched};
use report::reports_are_of_streams;
use specification::verdicts_are_of_streams;
use std::alloc::Global;
use std::sync::Wait;
use std::thread::Threads;
use verdict::Gate;

/// What a live session came to whose report was written.
#[derive(Drop)]
pub struct Lived {
    pub status: Status,
    /// The watcher's verdicts on four snapshots, the earliest first.
    pub verdicts: Verdicts,
}

/// The report on what a session has in the end, and the watcher's verdicts.
#[derive(Drop)]
struct Judged {
    output: Output,
    verdicts: Verdicts,
}

/// Reads a trace to its end, has its streams replayed by recorder threads in one session, beside a watcher
/// that judges four snapshots, and writes the report of the verdict on what the session has in the end. It
/// hands the watcher's verdicts back too. What follows a faulty line may be left unread.
///
/// The number of workers is tested before anything is read; so many search at each snapshot, and at the end.
/// For each replica r the gate's `before(r, 0)` and `after(r, 0)` are called round its replay, and no search
/// calls it. After all threads are joined, out of memory in any of them is answered before `Thread`, and
/// `Thread` before `Stalled`. Nothing is written before the whole report is made.
pub fn live<H: Threads + Wait + Sync, R: Reader + Drop, W: Writer + Drop, G: Gate>(
    rt: &H,
    alloc: Global,
    source: &mut Source<R>,
    sink: &mut Sink<W>,
    workers: u32,
    gate: &G,
) -> Result<Lived, RunFault>
    ensures report { IfOk result (λ lived. IfSome source.old.bytes
        (λ text. Reports text Text sink.old.bytes sink.new.bytes lived.status)) }
    // Four verdicts, each on a list of entries of which the list before is a prefix, and the last list is a
    // prefix of what a session of the trace's streams has in the end.
    ensures watched { IfOk result (λ lived. IfSome source.old.bytes
        (λ text. IsWatchedOn text lived.verdicts)) }
    ensures end { OnOk result (IsAtEnd source.new.bytes × (source.new.ended ≡ true)) }
    ensures workers { IsErrOf result RunFault.Workers ↔ IsNoWorkers workers }
    ensures unread { IsNoWorkers workers → source.new ≡ source.old }
    ensures read { IfErr result (λ fault. fault ≡ RunFault.Read → IsClosed source.new) }
    // Could not read only where a read of this call failed, or the limit of reads was reached by it, or the
    // source was closed from the start.
    ensures failed_read { IfErr result (λ fault. fault ≡ RunFault.Read → FailsToRead source.old source.new) }
    ensures closed_source { IsClosed source.old → (source.new ≡ source.old)
        × (¬ IsNoWorkers workers → result ≡ Err RunFault.Read) }
    ensures memory { IfErr result (λ fault. fault ≡ RunFault.Memory → source.new.failed ≡ false) }
    // Out of memory only at a piece by which a line had come whose reading takes memory, or that comes in the
    // midst of a line; or behind the whole text.
    ensures place { IfErr result (λ fault. fault ≡ RunFault.Memory → RunsOut source.old source.new) }
    ensures trace { IfErr result (λ fault. IfSome source.old.bytes (λ text. NamesFirstFault text fault)) }
    ensures stalled { IfErr result (λ fault. fault ≡ RunFault.Stalled
        → IfSome source.old.bytes HasStalledOn) }
    ensures write { IfErr result (λ fault. fault ≡ RunFault.Write → (sink.new.failed ≡ true)
        × IfSome source.old.bytes (λ text. ReportsFront text Text sink.old.bytes sink.new.bytes)) }
    // Could not write only behind the whole text, where a write of this call failed or took no byte, or the
    // sink was closed from the start.
    ensures failed_write { IfErr result (λ fault. fault ≡ RunFault.Write → FailsToWrite sink.old sink.new
        × WasReadWhole source.old source.new) }
    ensures closed_sink { sink.old.failed ≡ true → sink.new ≡ sink.old }
    ensures unwritten { IfErr result (λ fault. fault ≢ RunFault.Write → sink.new ≡ sink.old) }
{
    if workers == 0 || workers > MOST_WORKERS {
        return Err(RunFault::Workers);
    }
    let recording = recording_from(alloc, source)?;
    let judged = rehearsed_report(rt, alloc, &recording, workers, gate)?;
    let Judged { output, verdicts } = judged;
    match write_output(sink, &output) {
        Ok(status) => Ok(Lived { status, verdicts }),
        Err(fault) => Err(fault),
    }
}

/// The report on the recording, by way of a session, and the watcher's verdicts.
fn rehearsed_report<H: Threads + Wait + Sync, G: Gate>(
    rt: &H,
    alloc: Global,
    recording: &Recording,
    workers: u32,
    gate: &G,
) -> Result<Judged, RunFault>
    requires workers { (1 ≤ workers) × (workers ≤ MOST_WORKERS) }
    ensures ok { IfOk result
        (λ judged. IsReportOn recording.now Text judged.output.bytes.items judged.output.status) }
    ensures watched { IfOk result (λ judged. IsWatched recording.now judged.verdicts) }
    ensures fault { IfErr result IsOfSession }
    ensures stalled { IfErr result (λ fault. fault ≡ RunFault.Stalled
        → HasStalled recording.now × HasEnded recording.now RehearsalFault.Stalled) }
{
    let rehearsed = rehearse_watched(rt, alloc, recording, workers, gate);
    report_on_rehearsed(rt, alloc, recording, rehearsed, workers)
}

/// The report on the recording, by what its rehearsal has; or the fault of the rehearsal.
fn report_on_rehearsed<H: Threads + Sync>(
    rt: &H,
    alloc: Global,
    recording: &Recording,
    rehearsed: Result<Rehearsed, RehearsalFault>,
    workers: u32,
) -> Result<Judged, RunFault>
    requires workers { (1 ≤ workers) × (workers ≤ MOST_WORKERS) }
    requires streams { IfOk rehearsed (λ r. SameStreams recording.now r.recording) }
    requires watched { IfOk rehearsed (λ r. WasWatched r.recording r.verdicts) }
    ensures ok { IfOk rehearsed (λ _. IfOk result
        (λ judged. IsReportOn recording.now Text judged.output.bytes.items judged.output.status)) }
    ensures watched { IfOk rehearsed (λ _. IfOk result (λ judged. IsWatched recording.now judged.verdicts)) }
    ensures memory { IfOk rehearsed (λ _. IfErr result (λ fault. fault ≡ RunFault.Memory)) }
    ensures fault { IfErr rehearsed (λ why. result ≡ Err (fault_of_rehearsal why)) }
{
    let rehearsed = match rehearsed {
        Ok(rehearsed) => rehearsed,
        Err(why) => return Err(fault_of_rehearsal(why)),
    };
    let Rehearsed {
        recording: closed,
        verdicts,
    } = rehearsed;
    let verdict = verdict_on(rt, alloc, &closed, workers)?;
    let bytes = report::text(alloc, &closed, &verdict)?;
    // The verdict and the report are those of the recording too, since it has the same streams.
    verdicts_are_of_streams();
    reports_are_of_streams();
    let output = Output {
        bytes,
        status: status_of(&verdict),
    };
    Ok(Judged { output, verdicts })
}

/// The fault of a run for that of its rehearsal.
fn fault_of_rehearsal(why: RehearsalFault) -> RunFault
    ensures { result ≡ fault_of_rehearsal why }
{
    match why {
        RehearsalFault::Workers => RunFault::Workers,
        RehearsalFault::Thread => RunFault::Thread,
        RehearsalFault::Stalled => RunFault::Stalled,
        RehearsalFault::Memory => RunFault::Memory,
    }
}
