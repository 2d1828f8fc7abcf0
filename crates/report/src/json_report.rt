//! The report as JSON.

ghost use Rattle.std.specs.Prelude.{◌≡◌, IfOk};
ghost use Rattle.serde_json.specs.Written.{compact_text};
ghost use Rattle.verdict.specs.VerdictOf.{verdict_of};
ghost use Rattle.report.specs.JsonReport.{report_data, report_json};

use super::counts::counts_of;
use super::object::object_of;
use events::{Memory, Recording};
use std::alloc::Global;
use verdict::Verdict;

/// The report of a recording's verdict as one JSON object, compact and with its keys in byte order, and one
/// LF. It says what the report as text says; operations' names are texts `r.n`, counts are numbers. It trusts
/// the verdict, as `text` does.
///
/// It takes memory in proportion to the text, and time to the text and the number of operations.
pub fn json(alloc: Global, recording: &Recording, verdict: &Verdict) -> Result<Vec<u8>, Memory>
    ensures { IfOk result (λ bytes. bytes.items ≡ report_json recording.now (verdict_of verdict.now)) }
{
    let mut text = compact(alloc, recording, verdict)?;
    text.push(b'\n')?;
    Ok(text)
}

/// The object's text.
fn compact(alloc: Global, recording: &Recording, verdict: &Verdict) -> Result<Vec<u8>, Memory>
    ensures { IfOk result (λ text. text.items
        ≡ compact_text (report_data recording.now (verdict_of verdict.now))) }
{
    let counts = counts_of(recording);
    let object = object_of(alloc, recording, counts, verdict)?;
    let text = object.to_vec(alloc)?;
    Ok(text)
}
