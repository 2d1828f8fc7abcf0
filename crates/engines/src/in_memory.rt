//! Texts in memory: what the engines read and write, without streams and in the caller's thread.

ghost use Rattle.std.specs.Prelude.{◌≡◌, IfOk, IfErr};
ghost use Rattle.specification.specs.TraceText.{Spells};
ghost use Rattle.engines.specs.Certified.{IsCertificateOn};
ghost use Rattle.engines.specs.Runs.{IsOfText, IsReportOf, NamesFirstFault};
ghost use Rattle.engines.specs.OutOfMemory.{TakesMemory};

use super::output::{Output, status_of};
use super::reported::bytes_of;
use super::status::RunFault;
use super::trace_source::trace_fault;
use certificate::{Written, judge_and_write_in_turn};
use command_line::Form;
use events::Recording;
use std::alloc::Global;
use trace_text::read;
use verdict::verdict_and_graph_in_turn;

/// The report on a trace, and its status: what `run` writes and answers where its source has this text. All is
/// done in the caller's thread, so it needs no handle.
pub fn report_on_text(alloc: Global, text: &[u8], form: Form) -> Result<Output, RunFault>
    ensures report { IfOk result (λ output. IsReportOf text.now form output.bytes.items output.status) }
    ensures faults { IfErr result IsOfText }
    ensures trace { IfErr result (NamesFirstFault text.now) }
    // Out of memory only where the text spells a recording, or has a line whose reading takes memory.
    ensures memory { IfErr result (λ fault. fault ≡ RunFault.Memory → TakesMemory text.now) }
{
    let recording = recording_of(alloc, text)?;
    let judged = verdict_and_graph_in_turn(alloc, &recording)?;
    let bytes = bytes_of(alloc, &recording, &judged.verdict, form)?;
    Ok(Output {
        bytes,
        status: status_of(&judged.verdict),
    })
}

/// The certificate of a trace's verdict, and its status: what `run_cert` writes and answers where its source
/// has this text.
pub fn certificate_on_text(alloc: Global, text: &[u8]) -> Result<Output, RunFault>
    ensures certificate { IfOk result (λ output. IsCertificateOn text.now output.bytes.items output.status) }
    ensures faults { IfErr result IsOfText }
    ensures trace { IfErr result (NamesFirstFault text.now) }
    // Out of memory only where the text spells a recording, or has a line whose reading takes memory.
    ensures memory { IfErr result (λ fault. fault ≡ RunFault.Memory → TakesMemory text.now) }
{
    let recording = recording_of(alloc, text)?;
    let Written {
        verdict,
        text: bytes,
    } = judge_and_write_in_turn(alloc, &recording)?;
    Ok(Output {
        bytes,
        status: status_of(&verdict),
    })
}

/// The recording that the text spells.
fn recording_of(alloc: Global, text: &[u8]) -> Result<Recording, RunFault>
    ensures ok { IfOk result (λ h. Spells text.now h) }
    ensures faults { IfErr result IsOfText }
    ensures trace { IfErr result (NamesFirstFault text.now) }
    ensures memory { IfErr result (λ fault. fault ≡ RunFault.Memory → TakesMemory text.now) }
{
    match read(alloc, text) {
        Ok(recording) => Ok(recording),
        Err(fault) => Err(trace_fault(fault)),
    }
}
