//! The report as text.

ghost use Rattle.std.specs.Prelude.{◌≡◌, ◌++◌, ◌∷◌, [], IfOk, OnOk, map};
ghost use Rattle.events.specs.Operations.{response};
ghost use Rattle.specification.specs.Lines.{text_of, names_text};
ghost use Rattle.specification.specs.ReportText.{fault_lines, report_step, report_text, verdict_lines};
ghost use Rattle.specification.specs.ReportText.{weak_line};
ghost use Rattle.specification.specs.Faults as spec;
ghost use Rattle.verdict.specs.VerdictOf.{verdict_of};
ghost use Rattle.report.specs.Texts.{counts_text, faulty_text, accepted_text, refused_text};

use super::counts::{Counts, counts_of};
use events::{Memory, OpName, Recording};
use format_words::{push_doubled, push_faulty, push_names, push_number, push_order, push_shown};
use std::alloc::Global;
use verdict::{Order, Step, Steps, Verdict};

/// How many bytes a step's line has at most beside its names: `step`, the operation, ` :`, spaces and an LF.
const STEP_WORDS: usize = 32;

/// The report of a recording's verdict, as lines that each end with one LF: the counts, and then what the
/// verdict is, whether the strong and the weak list specification hold, and the order or the steps. It trusts
/// the verdict: of another recording's it makes the report that the verdict would have here.
///
/// It takes memory in proportion to the text, and time to the text and the number of operations.
pub fn text(alloc: Global, recording: &Recording, verdict: &Verdict) -> Result<Vec<u8>, Memory>
    ensures { IfOk result (λ bytes. bytes.items ≡ report_text recording.now (verdict_of verdict.now)) }
{
    let counts = counts_of(recording);
    let mut text = head(alloc, recording.replicas(), counts)?;
    push_verdict(alloc, &mut text, recording, verdict)?;
    Ok(text)
}

/// The line of counts.
fn head(alloc: Global, replicas: u32, counts: Counts) -> Result<Vec<u8>, Memory>
    ensures { IfOk result (λ text. text.items ≡ counts_text replicas counts.operations counts.inserts) }
{
    let mut text = Vec::from_slice(alloc, b"replicas ")?;
    push_number(alloc, &mut text, replicas)?;
    text.extend_from_slice(b" operations ")?;
    push_number(alloc, &mut text, counts.operations)?;
    text.extend_from_slice(b" inserts ")?;
    push_number(alloc, &mut text, counts.inserts)?;
    text.push(b'\n')?;
    Ok(text)
}

/// Adds the verdict's lines.
fn push_verdict(
    alloc: Global,
    text: &mut Vec<u8>,
    recording: &Recording,
    verdict: &Verdict,
) -> Result<(), Memory>
    ensures { OnOk result (text.new.items
        ≡ text.old.items ++ text_of (verdict_lines recording.now (verdict_of verdict.now))) }
{
    match verdict {
        Verdict::Doubled { first, again } => push_doubled(alloc, text, *first, *again),
        Verdict::Contents { at } => push_neither(alloc, text, b"contents ", *at),
        Verdict::Position { at } => push_neither(alloc, text, b"position ", *at),
        Verdict::Accepted(order) => push_accepted(text, order),
        Verdict::Refused { k, steps } => push_refused(alloc, text, recording, *k, steps),
    }
}

/// Adds the lines of an operation that is wrong, after this word.
fn push_neither(alloc: Global, text: &mut Vec<u8>, word: &[u8], at: OpName) -> Result<(), Memory>
    ensures { OnOk result (text.new.items ≡ text.old.items ++ faulty_text word.now at) }
{
    push_faulty(alloc, text, word, at, b"\nstrong no\nweak no\n")
}

/// Adds the lines of an acceptance.
fn push_accepted(text: &mut Vec<u8>, order: &Order) -> Result<(), Memory>
    ensures { OnOk result (text.new.items ≡ text.old.items ++ accepted_text order.now) }
{
    let head = b"accepted\nstrong yes\nweak yes\norder :";
    push_order(text, head, order.names())
}

/// Adds the lines of a refusal.
fn push_refused(
    alloc: Global,
    text: &mut Vec<u8>,
    recording: &Recording,
    k: u32,
    steps: &Steps,
) -> Result<(), Memory>
    ensures { OnOk result (text.new.items ≡ text.old.items ++ refused_text recording.now k steps.now) }
{
    text.extend_from_slice(b"refused ")?;
    push_number(alloc, text, k)?;
    text.extend_from_slice(b"\nstrong no\n")?;
    push_weak(text, k)?;
    push_steps(alloc, text, recording, steps)
}

/// Adds the line on the weak list specification: it fails exactly where the conflict number is 2.
fn push_weak(text: &mut Vec<u8>, k: u32) -> Result<(), Memory>
    ensures { OnOk result (text.new.items ≡ text.old.items ++ (weak_line k ++ 10 ∷ [])) }
{
    if k == 2 {
        text.extend_from_slice(b"weak no\n")?;
    } else {
        text.extend_from_slice(b"weak yes\n")?;
    }
    Ok(())
}

/// Adds the lines of steps.
fn push_steps(
    alloc: Global,
    text: &mut Vec<u8>,
    recording: &Recording,
    steps: &Steps,
) -> Result<(), Memory>
    ensures { OnOk result (text.new.items
        ≡ text.old.items ++ text_of (map (report_step recording.now) steps.now)) }
{
    text.reserve(room_of_steps(recording, steps))?;
    for i in 0..steps.len() {
        if let Some(step) = steps.get(i) {
            push_step(alloc, text, recording, step)?;
        }
    }
    Ok(())
}

/// How many bytes the lines of steps take, or some more: all room is asked for at once.
fn room_of_steps(recording: &Recording, steps: &Steps) -> usize {
    let mut room: usize = 0;
    for step in steps.items() {
        room = room.saturating_add(room_of_step(recording, step));
    }
    room
}

/// How many bytes a step's line takes, or some more.
fn room_of_step(recording: &Recording, step: &Step) -> usize {
    let names = step.from.bytes().len() + step.to.bytes().len();
    let shown = match recording.response(step.shown) {
        None => 0,
        Some(response) => response.text_len(),
    };
    shown.saturating_add(names).saturating_add(STEP_WORDS)
}

/// Adds a step's line: the two elements, the operation that shows them, and its whole response.
fn push_step(
    alloc: Global,
    text: &mut Vec<u8>,
    recording: &Recording,
    step: &Step,
) -> Result<(), Memory>
    ensures { OnOk result (text.new.items
        ≡ text.old.items ++ (report_step recording.now step.now ++ 10 ∷ [])) }
{
    push_shown(alloc, text, &step.from, &step.to, step.shown)?;
    text.extend_from_slice(b" :")?;
    push_response(text, recording, step.shown)?;
    text.push(b'\n')?;
    Ok(())
}

/// Adds the names that an operation returned, each after a space.
fn push_response(text: &mut Vec<u8>, recording: &Recording, name: OpName) -> Result<(), Memory>
    ensures { OnOk result (text.new.items ≡ text.old.items ++ names_text (response recording.now name)) }
{
    match recording.response(name) {
        None => Ok(()),
        Some(response) => push_names(text, response),
    }
}
