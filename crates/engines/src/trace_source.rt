//! The recording that a source spells, read as it comes.

ghost use Rattle.std.specs.Prelude.{◌≡◌, ◌≢◌, ◌++◌, true, false, IfOk, IfErr, IfSome, List, MatchOption};
ghost use Rattle.std.specs.Prelude.{◌⊎◌, Err, None};
ghost use Rattle.std.specs.Prelude.{OnOk, ℕ};
ghost use Rattle.std.specs.Io.KnownBytes.{IsAtEnd};
ghost use Rattle.specification.specs.TraceText.{Spells};
ghost use Rattle.trace_text.specs.Causes.{cause_of};
ghost use Rattle.trace_text.specs.Fed.{WasFed};
ghost use Rattle.byte_streams.specs.Streams.{IsClosed};
ghost use Rattle.engines.specs.Runs.{IsOfReading, IsOfText, IsOfTrace, NamesFirstFault};
ghost use Rattle.engines.specs.Certified.{IsRecordingOf};
ghost use Rattle.engines.specs.OutOfMemory.{HasMemoryLine, RunsOutAtPiece};
ghost use Rattle.engines.specs.Failures.{FailsToRead, HasReadOn};

use super::status::RunFault;
use byte_streams::{Reader, Source};
use events::{Recording, Refusal};
use std::alloc::Global;
use trace_text::{Cause, LineFault};

/// How many bytes are asked for at once.
const PIECE: usize = 65_536;

/// The recording that the source's text spells, to its end. Each piece that a read gives is handed on before
/// the next is asked for, and none is asked for after the text's first fault.
pub fn recording_from<R: Reader + Drop>(
    alloc: Global,
    source: &mut Source<R>,
) -> Result<Recording, RunFault>
    ensures ok { IfOk result (λ h. IfSome source.old.bytes (λ text. Spells text h)) }
    ensures end { OnOk result (IsAtEnd source.new.bytes × (source.new.failed ≡ false)
        × (source.new.ended ≡ true)) }
    ensures trace { IfErr result (λ fault. IfSome source.old.bytes (λ text. NamesFirstFault text fault)) }
    ensures faults { IfErr result IsOfTrace }
    ensures read { IfErr result (λ fault. fault ≡ RunFault.Read → IsClosed source.new) }
    // What was read before the text's fault, or before memory ran out.
    ensures read_on { IfErr result (λ fault. fault ≢ RunFault.Read → (source.new.ended ≡ true)
        ⊎ HasReadOn source.old source.new) }
    ensures failed_read { IfErr result (λ fault. fault ≡ RunFault.Read → FailsToRead source.old source.new) }
    ensures closed_source { IsClosed source.old → (result ≡ Err RunFault.Read) × (source.new ≡ source.old) }
    ensures memory { IfErr result (λ fault. fault ≡ RunFault.Memory → source.new.failed ≡ false) }
    // Out of memory only at a piece by which a line had come whose reading takes memory, or that comes in the
    // midst of a line.
    ensures place { IfErr result (λ fault. fault ≡ RunFault.Memory
        → RunsOutAtPiece source.old source.new) }
{
    let mut reader = trace_text::Reader::new(alloc);
    let mut buffer = [0; PIECE];
    while let Some(n) = source.read(&mut buffer) {
        if n == 0 {
            return end(reader);
        }
        feed(&mut reader, &buffer[..n])?;
    }
    Err(RunFault::Read)
}

/// The recording that the source's text spells, or none where it spells none. The text is read to its end
/// either way: what comes after its first fault is thrown away.
///
/// It keeps the recording and one piece, and of the line that a piece cuts what `trace_text::Reader` keeps;
/// after a fault one piece alone.
pub fn recording_to_end<R: Reader + Drop>(
    alloc: Global,
    source: &mut Source<R>,
) -> Result<Option<Recording>, RunFault>
    ensures ok { IfOk result (λ found. IfSome source.old.bytes (λ text. IsRecordingOf text found)) }
    ensures end { OnOk result (IsAtEnd source.new.bytes × (source.new.failed ≡ false)
        × (source.new.ended ≡ true)) }
    ensures faults { IfErr result IsOfReading }
    ensures read { IfErr result (λ fault. fault ≡ RunFault.Read → IsClosed source.new) }
    ensures failed_read { IfErr result (λ fault. fault ≡ RunFault.Read → FailsToRead source.old source.new) }
    ensures closed_source { IsClosed source.old → (result ≡ Err RunFault.Read) × (source.new ≡ source.old) }
    ensures memory { IfErr result (λ fault. fault ≡ RunFault.Memory → source.new.failed ≡ false) }
    // Out of memory only at a piece by which a line had come whose reading takes memory, or that comes in the
    // midst of a line.
    ensures place { IfErr result (λ fault. fault ≡ RunFault.Memory
        → RunsOutAtPiece source.old source.new) }
{
    match recording_from(alloc, source) {
        Ok(recording) => Ok(Some(recording)),
        Err(RunFault::Trace(_)) => match read_on(source) {
            Ok(()) => Ok(None),
            Err(fault) => Err(fault),
        },
        Err(fault) => Err(fault),
    }
}

/// Reads to the end, and throws away what comes.
fn read_on<R: Reader + Drop>(source: &mut Source<R>) -> Result<(), RunFault>
    ensures end { OnOk result (IsAtEnd source.new.bytes × (source.new.failed ≡ false)
        × (source.new.ended ≡ true)) }
    ensures read { IfErr result (λ fault. (fault ≡ RunFault.Read) × IsClosed source.new) }
    ensures failed_read { IfErr result (λ _. FailsToRead source.old source.new) }
{
    let mut buffer = [0; PIECE];
    while let Some(n) = source.read(&mut buffer) {
        if n == 0 {
            return Ok(());
        }
    }
    Err(RunFault::Read)
}

/// Hands on a piece.
fn feed(reader: &mut trace_text::Reader, piece: &[u8]) -> Result<(), RunFault>
    ensures fed { (text : List ℕ) → WasFed reader.old text → WasFed reader.new (text ++ piece.now) }
    ensures faults { IfErr result IsOfText }
    ensures trace { IfErr result (λ fault. (text more : List ℕ) → WasFed reader.old text
        → NamesFirstFault ((text ++ piece.now) ++ more) fault) }
    ensures none { OnOk result (reader.new.fault ≡ None) }
    ensures place { reader.old.fault ≡ None → IfErr result (λ fault. fault ≡ RunFault.Memory
        → (text : List ℕ) → WasFed reader.old text → HasMemoryLine text piece.now) }
{
    match reader.feed(piece) {
        Ok(()) => Ok(()),
        Err(fault) => Err(trace_fault(fault)),
    }
}

/// The recording that the pieces spell which were handed on.
fn end(reader: trace_text::Reader) -> Result<Recording, RunFault>
    ensures ok { IfOk result (λ h. (text : List ℕ) → WasFed reader text → Spells text h) }
    ensures faults { IfErr result IsOfText }
    ensures trace { IfErr result (λ fault. (text : List ℕ) → WasFed reader text
        → NamesFirstFault text fault) }
    ensures none { reader.fault ≡ None → IfErr result (λ fault. fault ≢ RunFault.Memory) }
{
    match reader.end() {
        Ok(recording) => Ok(recording),
        Err(fault) => Err(trace_fault(fault)),
    }
}

/// The run's fault for a text's: out of memory has no line.
pub fn trace_fault(fault: LineFault) -> RunFault
    ensures names { MatchOption (cause_of fault.cause) (result ≡ RunFault.Memory)
        (λ _. result ≡ RunFault.Trace fault) }
    ensures memory { result ≡ RunFault.Memory → fault.cause ≡ Cause.Refused Refusal.Memory }
{
    match fault.cause {
        Cause::Refused(Refusal::Memory) => RunFault::Memory,
        _ => RunFault::Trace(fault),
    }
}
