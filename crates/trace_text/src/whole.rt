//! A whole text.

ghost use Rattle.std.specs.Prelude.{◌≡◌, ◌+◌, ◌<◌, ◌∷◌, ◌++◌, length, IfOk, IfErr, IfSome, MatchOption};
ghost use Rattle.std.specs.Prelude.{MatchResult};
ghost use Rattle.events.specs.History.{History};
ghost use Rattle.specification.specs.Lines.{IsOneLine};
ghost use Rattle.specification.specs.TraceText.{Spells, IsFirstLineFault};
ghost use Rattle.trace_text.specs.Causes.{cause_of};
ghost use Rattle.trace_text.specs.Place.{IsBehindRightLines, TakesMemoryAt};

use crate::cause::{Cause, LineFault};
use crate::reader::Reader;
use events::{Recording, Refusal};
use std::alloc::Global;

/// The recording that the text spells, or the text's first faulty line with its cause.
///
/// Out of memory is `Refused(Memory)`, and only at a line after right lines whose reading takes memory: the
/// second line of a recording, or an entry that has names in its response or is recorded. So it is never
/// answered for another fault of the text, but for an entry with names that the recording refuses. That
/// memory did run out, no contract can say. It takes time in proportion to the text, and keeps what
/// the recording holds and, where the last line has no LF, at most 135,398 bytes of it.
pub fn read(alloc: Global, bytes: &[u8]) -> Result<Recording, LineFault>
    ensures ok { IfOk result (λ h. Spells bytes.now h) }
    ensures fault { IfErr result (λ fault. IfSome (cause_of fault.cause)
        (λ cause. IsFirstLineFault bytes.now fault.line cause)) }
    // Out of memory too is answered at a line after right lines.
    ensures place { IfErr result (λ fault. IsBehindRightLines bytes.now fault.line) }
    // And the line is there, with its LF, and begins a recording or is an entry: any other line is its own
    // fault.
    ensures memory { IfErr result (λ fault. fault.cause ≡ Cause.Refused Refusal.Memory
        → TakesMemoryAt bytes.now fault.line) }
    // What is spelled is read, unless memory runs out.
    ensures spelled { (h : History) → Spells bytes.now h
        → MatchResult result (λ g. g ≡ h) (λ fault. fault.cause ≡ Cause.Refused Refusal.Memory) }
{
    let mut reader = Reader::new(alloc);
    reader.feed(bytes)?;
    reader.end()
}
