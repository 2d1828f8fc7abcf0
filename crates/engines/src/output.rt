//! What the engines read and write by: a certificate's whole text, the verdict, an output and its status.

ghost use Rattle.std.specs.Prelude.{◌≡◌, ◌≤◌, true, false, Err, IfOk, IfErr, OnErr};
ghost use Rattle.std.specs.Io.KnownBytes.{Appends, Consumes, IsAtEnd};
ghost use Rattle.specification.specs.Verdict.{IsVerdict};
ghost use Rattle.certificate.specs.ByRows.{joined};
ghost use Rattle.verdict.specs.VerdictOf.{verdict_of};
ghost use Rattle.byte_streams.specs.Streams.{AppendsFront, IsClosed};
ghost use Rattle.engines.specs.Runs.{IsOfReading, status_of};
ghost use Rattle.engines.specs.OutOfMemory.{HasBytes};
ghost use Rattle.engines.specs.Failures.{FailsToRead, FailsToWrite};

use super::status::{RunFault, Status};
use byte_streams::{ReadFault, Reader, Sink, Source, Writer};
use command_line::MOST_WORKERS;
use events::{Memory, Recording};
use std::alloc::Global;
use std::thread::Threads;
use verdict::{NoGate, SearchFault, Verdict, judge};

/// What an engine writes, and the status that goes with it.
#[derive(Drop)]
pub struct Output {
    pub bytes: Vec<u8>,
    pub status: Status,
}

/// The text of a source, to its end. Out of memory only after bytes came.
pub fn whole_text<R: Reader + Drop>(
    alloc: Global,
    source: &mut Source<R>,
) -> Result<Vec<u8>, RunFault>
    ensures ok { IfOk result (λ text. Consumes source.old.bytes source.new.bytes text.items
        × IsAtEnd source.new.bytes × (source.new.failed ≡ false) × (source.new.ended ≡ true)) }
    ensures read { IfErr result (λ fault. fault ≡ RunFault.Read → IsClosed source.new) }
    ensures failed_read { IfErr result (λ fault. fault ≡ RunFault.Read → FailsToRead source.old source.new) }
    ensures closed_source { IsClosed source.old → (result ≡ Err RunFault.Read) × (source.new ≡ source.old) }
    ensures memory { IfErr result (λ fault. fault ≡ RunFault.Memory → source.new.failed ≡ false) }
    ensures some { IfErr result (λ fault. fault ≡ RunFault.Memory → HasBytes source.old source.new) }
    ensures reading { IfErr result IsOfReading }
{
    match source.whole(alloc) {
        Ok(text) => Ok(text),
        Err(ReadFault::Read) => Err(RunFault::Read),
        Err(ReadFault::Memory) => Err(RunFault::Memory),
    }
}

/// Writes an output, and answers its status. Where a write fails a prefix of it was written, and not all.
pub fn write_output<W: Writer + Drop>(
    sink: &mut Sink<W>,
    output: &Output,
) -> Result<Status, RunFault>
    ensures ok { IfOk result (λ status. (status ≡ output.now.status)
        × Appends sink.old.bytes sink.new.bytes output.now.bytes.items) }
    ensures err { IfErr result (λ fault. (fault ≡ RunFault.Write) × (sink.new.failed ≡ true)
        × AppendsFront sink.old.bytes sink.new.bytes output.now.bytes.items) }
    ensures failed_write { OnErr result (FailsToWrite sink.old sink.new) }
    ensures closed_sink { sink.old.failed ≡ true → sink.new ≡ sink.old }
{
    match sink.write_whole(&output.bytes) {
        Ok(()) => Ok(output.status),
        Err(_) => Err(RunFault::Write),
    }
}

/// Writes texts one after the other, and answers the status. Where a write fails a prefix of them all was
/// written, and not all.
pub fn write_texts<W: Writer + Drop>(
    sink: &mut Sink<W>,
    texts: &[Vec<u8>],
    status: Status,
) -> Result<Status, RunFault>
    ensures ok { IfOk result (λ s. (s ≡ status) × Appends sink.old.bytes sink.new.bytes (joined texts.now)) }
    ensures err { IfErr result (λ fault. (fault ≡ RunFault.Write) × (sink.new.failed ≡ true)
        × AppendsFront sink.old.bytes sink.new.bytes (joined texts.now)) }
    ensures failed_write { OnErr result (FailsToWrite sink.old sink.new) }
    ensures closed_sink { sink.old.failed ≡ true → sink.new ≡ sink.old }
{
    for text in texts {
        match sink.write_whole(text) {
            Ok(()) => {}
            Err(_) => return Err(RunFault::Write),
        }
    }
    Ok(status)
}

/// The verdict on the recording, by 1 to 64 workers. Its only fault is out of memory.
pub fn verdict_on<H: Threads + Sync>(
    rt: &H,
    alloc: Global,
    recording: &Recording,
    workers: u32,
) -> Result<Verdict, Memory>
    requires workers { (1 ≤ workers) × (workers ≤ MOST_WORKERS) }
    ensures { IfOk result (λ v. IsVerdict recording.now (verdict_of v)) }
{
    match judge(rt, alloc, recording, workers, &NoGate) {
        Ok(verdict) => Ok(verdict),
        Err(SearchFault::Memory) => Err(Memory),
        Err(SearchFault::Workers) => unreachable!(),
    }
}

/// Good exactly where the verdict accepts.
pub fn status_of(verdict: &Verdict) -> Status
    ensures { result ≡ status_of (verdict_of verdict.now) }
{
    match verdict {
        Verdict::Accepted(_) => Status::Good,
        _ => Status::Bad,
    }
}
