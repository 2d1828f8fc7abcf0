//! What reports and certificates share: the names of an order, faults, a step of a cycle.

ghost use Rattle.std.specs.Prelude.{◌≡◌, ◌++◌, ◌∷◌, [], OnOk};
ghost use Rattle.specification.specs.Lines.{text_of, names_text, operation_text};
ghost use Rattle.specification.specs.Faults as spec;
ghost use Rattle.specification.specs.CertificateText.{step_line};
ghost use Rattle.specification.specs.ReportText.{fault_lines};

use crate::{push_name, push_operation};
use events::{Memory, Name, OpName};
use std::alloc::Global;

/// Adds the names of a list, each after one space.
pub fn push_list(text: &mut Vec<u8>, names: &[Name]) -> Result<(), Memory>
    ensures { OnOk result (text.new.items ≡ text.old.items ++ names_text names.now) }
{
    for name in names {
        push_name(text, name)?;
    }
    Ok(())
}

/// Adds a word, the name of an operation that is wrong, and the bytes that end it.
pub fn push_faulty(
    alloc: Global,
    text: &mut Vec<u8>,
    word: &[u8],
    at: OpName,
    end: &[u8],
) -> Result<(), Memory>
    ensures { OnOk result (text.new.items
        ≡ text.old.items ++ (word.now ++ (operation_text at ++ end.now))) }
{
    text.extend_from_slice(word)?;
    push_operation(alloc, text, at)?;
    text.extend_from_slice(end)?;
    Ok(())
}

/// Adds the bytes that begin an order's line, its names, each after one space, and the end of the line.
pub fn push_order(text: &mut Vec<u8>, head: &[u8], order: &[Name]) -> Result<(), Memory>
    ensures { OnOk result (text.new.items
        ≡ text.old.items ++ (head.now ++ (names_text order.now ++ 10 ∷ []))) }
{
    text.extend_from_slice(head)?;
    push_list(text, order)?;
    text.push(b'\n')?;
    Ok(())
}

/// Adds the line of a name that two operations insert.
pub fn push_doubled(
    alloc: Global,
    text: &mut Vec<u8>,
    first: OpName,
    again: OpName,
) -> Result<(), Memory>
    ensures { OnOk result (text.new.items
        ≡ text.old.items ++ text_of (fault_lines (spec.doubled first again))) }
{
    text.extend_from_slice(b"doubled ")?;
    push_operation(alloc, text, first)?;
    text.push(b' ')?;
    push_operation(alloc, text, again)?;
    text.push(b'\n')?;
    Ok(())
}

/// Adds a step without the end of its line: two elements, and the operation that shows them so.
pub fn push_shown(
    alloc: Global,
    text: &mut Vec<u8>,
    from: &Name,
    to: &Name,
    shown: OpName,
) -> Result<(), Memory>
    ensures { OnOk result (text.new.items
        ≡ text.old.items ++ step_line (record { from = from.now; to = to.now; shown = shown })) }
{
    text.extend_from_slice(b"step")?;
    push_name(text, from)?;
    push_name(text, to)?;
    text.push(b' ')?;
    push_operation(alloc, text, shown)?;
    Ok(())
}
