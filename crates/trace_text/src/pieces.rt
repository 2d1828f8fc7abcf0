//! One piece of a text: the end of the line begun, whole lines, and the beginning of one more.

ghost use Rattle.std.specs.Prelude.{◌≡◌, ◌⊎◌, ◌∷◌, ◌++◌, ◌+◌, [], IfOk, IfErr, List, OnOk, Some, length, ℕ};
ghost use Rattle.specification.specs.Lines.{text_of, IsOneLine};
ghost use Rattle.specification.specs.TraceText.{BeginsSpelling, IsCutAt};
ghost use Rattle.trace_text.specs.Kept.{EMPTY};
ghost use Rattle.trace_text.specs.Fed.{EndsIn, HoldsFault, IsOpenAt};
ghost use Rattle.trace_text.specs.Place.{TakesMemoryAt};
ghost use Rattle.trace_text.specs.Progress.{good};

use crate::begun::Begun;
use crate::cause::{Cause, LineFault};
use crate::reading::Reading;
use events::Refusal;
use format_words::split_line;
use std::alloc::Global;

/// Reads the lines that have their LF where they lie, and answers what follows the last of them.
fn read_lines<'a>(
    alloc: Global,
    reading: &mut Reading,
    piece: &'a [u8],
) -> Result<&'a [u8], LineFault>
    ensures ok { IfOk result (λ rest. IsOneLine rest.now
        × (text_of (good reading.old) ++ piece.now ≡ text_of (good reading.new) ++ rest.now)) }
    ensures right { OnOk result (BeginsSpelling (good reading.old) → BeginsSpelling (good reading.new)) }
    ensures fault { IfErr result (λ fault. HoldsFault (text_of (good reading.old) ++ piece.now) fault) }
    ensures memory { IfErr result (λ fault. fault.cause ≡ Cause.Refused Refusal.Memory
        → TakesMemoryAt (text_of (good reading.old) ++ piece.now) fault.line) }
{
    let mut rest = piece;
    while let Some((line, behind)) = split_line(rest) {
        reading.line(alloc, line)?;
        rest = behind;
    }
    Ok(rest)
}

/// Reads the lines of a piece that begins with a line.
fn take_lines(
    alloc: Global,
    reading: &mut Reading,
    begun: &mut Begun,
    piece: &[u8],
) -> Result<(), LineFault>
    requires { begun.old ≡ Some EMPTY }
    ensures ok { OnOk result (EndsIn (good reading.new) begun.new
        (text_of (good reading.old) ++ piece.now)) }
    ensures right { OnOk result (BeginsSpelling (good reading.old) → BeginsSpelling (good reading.new)) }
    ensures fault { IfErr result (λ fault. HoldsFault (text_of (good reading.old) ++ piece.now) fault) }
    ensures memory { IfErr result (λ fault. fault.cause ≡ Cause.Refused Refusal.Memory
        → TakesMemoryAt (text_of (good reading.old) ++ piece.now) fault.line) }
{
    let rest = read_lines(alloc, reading, piece)?;
    begun.add(rest);
    Ok(())
}

/// Reads the line begun, which ends so.
fn end_line(
    alloc: Global,
    reading: &mut Reading,
    begun: &mut Begun,
    back: &[u8],
) -> Result<(), LineFault>
    requires { IsOneLine back.now }
    ensures ok { OnOk result (BeginsSpelling (good reading.new) × (begun.new ≡ Some EMPTY)
        × ((text : List ℕ) → EndsIn (good reading.old) begun.old text
        → text ++ (back.now ++ 10 ∷ []) ≡ text_of (good reading.new))) }
    ensures fault { IfErr result (λ fault. (text behind : List ℕ) → EndsIn (good reading.old) begun.old text
        → HoldsFault (text ++ (back.now ++ 10 ∷ behind)) fault) }
    ensures number { IfErr result (λ fault. fault.line ≡ length (good reading.old) + 1) }
{
    begun.add(back);
    begun.close();
    let number = reading.next_line();
    let Some(line) = begun.whole() else {
        return Err(LineFault {
            line: number,
            cause: Cause::Refused(Refusal::Memory),
        });
    };
    reading.line(alloc, line)?;
    begun.clear();
    Ok(())
}

/// Reads a piece behind right lines and a line begun.
pub fn take_piece(
    alloc: Global,
    reading: &mut Reading,
    begun: &mut Begun,
    piece: &[u8],
) -> Result<(), LineFault>
    ensures ok { OnOk result ((text : List ℕ) → IsOpenAt (good reading.old) begun.old text
        → IsOpenAt (good reading.new) begun.new (text ++ piece.now)) }
    ensures fault { IfErr result (λ fault. (text : List ℕ) → IsOpenAt (good reading.old) begun.old text
        → HoldsFault (text ++ piece.now) fault) }
    ensures memory { IfErr result (λ fault. fault.cause ≡ Cause.Refused Refusal.Memory → (text : List ℕ)
        → IsOpenAt (good reading.old) begun.old text
        → TakesMemoryAt (text ++ piece.now) fault.line ⊎ IsCutAt text fault.line) }
{
    if begun.is_empty() {
        return take_lines(alloc, reading, begun, piece);
    }
    let Some((back, behind)) = split_line(piece) else {
        begun.add(piece);
        return Ok(());
    };
    end_line(alloc, reading, begun, back)?;
    take_lines(alloc, reading, begun, behind)
}
