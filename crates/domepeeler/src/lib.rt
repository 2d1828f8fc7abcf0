//! The library for C, and for each language that calls C: what the commands `verdict`, `cert` and `verify`
//! write for texts, made in the caller's process and thread.
//!
//! - A call reads the trace and writes into the caller's room, and nothing else: calls share nothing, so they
//!   may be made from many threads at once.
//! - What a call ends with is a status and the length of its output: `DomepeelerEnd`.
//! - Memory is asked for by the C library's `malloc`. A call is not made from a signal handler, nor from the
//!   forked child of a process with threads.
#![tactic(auto)]

ghost use Rattle.std.specs.Prelude.{◌≡◌, ◌⊎◌};
ghost use Rattle.command_line.specs.declared.words.TheConstants.{VERSION};
ghost use Rattle.cert_check.specs.AnswerOf.{IsAnswer, IsReason};
ghost use Rattle.domepeeler.specs.Ends.{HasNoMemory, IsCertificateEnd, IsFaulty, IsLineEnd, IsPut, IsReportEnd, form_of};
ghost use Rattle.engines.specs.Certified.{status_of_answer};
ghost use Rattle.engines.specs.Lines.{answer_line};
ghost use Rattle.engines.specs.OutOfMemory.{TakesMemory};
ghost use Rattle.engines.specs.Runs.{IsLineFaultOf, IsOfText, NamesFirstFault, number_of_status};

use cert_check::{Answer, Reason, check_in_turn};
use command_line::{Form, VERSION};
use engines::{Output, RunFault, certificate_on_text, line_of, report_on_text, status_of_answer};
use std::alloc::Global;
use trace_text::LineFault;

/// The status where the text spells no recording: the output says which line is the first faulty one, and why.
pub const NO_RECORDING: u32 = 2;

/// The status where an allocation failed: there is no output.
pub const NO_MEMORY: u32 = 3;

/// The status where the output has more bytes than the room: nothing is written.
pub const SHORT: u32 = 4;

/// How a call ended.
#[repr(C)]
#[derive(Drop)]
pub struct DomepeelerEnd {
    /// 0 where the recording is accepted, 1 where it is not, 2 where the text spells none, 3 out of memory, 4
    /// where the room is too short for the output.
    pub status: u32,
    /// The number of the first faulty line, from 1, where the text spells no recording; else 0.
    pub line: u32,
    /// How many bytes the output has, also where the room is too short for it.
    pub length: usize,
}

/// The report of the verdict on the recording that the trace spells, as the command `verdict` writes it: as
/// text where `json` is 0, else as JSON. Where the trace spells none the output is the first faulty line, as the
/// command says it behind `finder: `, or nothing where there is no memory for these words.
///
/// It costs what the command costs with one worker, but that the trace stands in memory whole.
#[unsafe(no_mangle)]
pub extern "C" fn domepeeler_verdict(
    alloc: Global,
    trace: &[u8],
    json: u32,
    output: &mut [u8],
) -> DomepeelerEnd
    ensures { IsReportEnd trace.now (form_of json) output.old output.new result }
{
    match report_on_text(alloc, trace, form_of(json)) {
        Ok(made) => made_end(&made, output),
        Err(fault) => fault_end(alloc, trace, fault, output),
    }
}

/// The certificate of that verdict, as the command `cert` writes it.
///
/// It costs what the command costs with one worker, but that the trace stands in memory whole.
#[unsafe(no_mangle)]
pub extern "C" fn domepeeler_cert(alloc: Global, trace: &[u8], output: &mut [u8]) -> DomepeelerEnd
    ensures { IsCertificateEnd trace.now output.old output.new result }
{
    match certificate_on_text(alloc, trace) {
        Ok(made) => made_end(&made, output),
        Err(fault) => fault_end(alloc, trace, fault, output),
    }
}

/// The checker's line on a trace and a certificate, as the command `verify` writes it. The status is 0 for a yes, and 1 for
/// a no, also where a text does not read.
///
/// It costs what the command costs, but that the trace stands in memory whole.
#[unsafe(no_mangle)]
pub extern "C" fn domepeeler_verify(
    alloc: Global,
    trace: &[u8],
    cert: &[u8],
    output: &mut [u8],
) -> DomepeelerEnd
    ensures { IsLineEnd trace.now cert.now output.old output.new result }
{
    match check_in_turn(alloc, trace, cert) {
        Ok(answer) => answer_end(alloc, trace, cert, &answer, output),
        Err(_) => memory_end(),
    }
}

/// The version of the library, as `0.2.0`, which is that of the program.
#[unsafe(no_mangle)]
pub extern "C" fn domepeeler_version(output: &mut [u8]) -> DomepeelerEnd
    ensures { IsPut VERSION.now 0 0 output.old output.new result }
{
    put(VERSION.as_bytes(), 0, 0, output)
}

/// The form that a number asks for.
fn form_of(json: u32) -> Form
    ensures { result ≡ form_of json }
{
    if json == 0 { Form::Text } else { Form::Json }
}

/// Puts an output at the front of the room, if it has a place there.
fn put(output: &[u8], status: u32, line: u32, room: &mut [u8]) -> DomepeelerEnd
    ensures { IsPut output.now status line room.old room.new result }
{
    let length = output.len();
    if length > room.len() {
        return DomepeelerEnd {
            status: SHORT,
            line,
            length,
        };
    }
    room[..length].copy_from_slice(output);
    DomepeelerEnd {
        status,
        line,
        length,
    }
}

/// How a call ends that has found a verdict.
fn made_end(made: &Output, room: &mut [u8]) -> DomepeelerEnd
    ensures { IsPut made.now.bytes.items (number_of_status made.now.status) 0 room.old room.new result }
{
    put(&made.bytes, made.status.number() as u32, 0, room)
}

/// How a call ends that has found no verdict. The trace serves the contract alone.
fn fault_end(alloc: Global, trace: &[u8], fault: RunFault, room: &mut [u8]) -> DomepeelerEnd
    requires kind { IsOfText fault }
    requires trace { NamesFirstFault trace.now fault }
    requires memory { fault ≡ RunFault.Memory → TakesMemory trace.now }
    ensures { IsFaulty trace.now room.old room.new result ⊎ HasNoMemory trace.now room.old room.new result }
{
    match fault {
        RunFault::Trace(wrong) => line_end(alloc, trace, &wrong, room),
        RunFault::Memory => memory_end(),
        _ => unreachable!(),
    }
}

/// How a call ends whose trace has this first faulty line. The trace serves the contract alone.
fn line_end(alloc: Global, trace: &[u8], wrong: &LineFault, room: &mut [u8]) -> DomepeelerEnd
    requires { IsLineFaultOf trace.now wrong.now }
    ensures { IsFaulty trace.now room.old room.new result }
{
    match wrong.to_string(alloc) {
        Ok(words) => put(words.as_bytes(), NO_RECORDING, wrong.line, room),
        Err(_) => put(b"", NO_RECORDING, wrong.line, room),
    }
}

/// How a call ends that found no memory.
fn memory_end() -> DomepeelerEnd
    ensures { (result.status ≡ NO_MEMORY) × (result.line ≡ 0) × (result.length ≡ 0) }
{
    DomepeelerEnd {
        status: NO_MEMORY,
        line: 0,
        length: 0,
    }
}

/// How a call ends with this answer of the checker. The texts serve the contract alone.
fn answer_end(
    alloc: Global,
    trace: &[u8],
    cert: &[u8],
    answer: &Answer,
    room: &mut [u8],
) -> DomepeelerEnd
    requires { IsAnswer trace.now cert.now answer.now }
    ensures { IsLineEnd trace.now cert.now room.old room.new result }
{
    match answer {
        Answer::Yes(_) => line_end_of(alloc, answer, room),
        Answer::No(why) => no_end(alloc, trace, cert, why, room),
    }
}

/// How a call ends with a no for this reason. The line for a text that does not read takes no memory. The texts serve
/// the contract alone.
fn no_end(alloc: Global, trace: &[u8], cert: &[u8], why: &Reason, room: &mut [u8]) -> DomepeelerEnd
    requires { IsReason trace.now cert.now why.now }
    ensures { IsLineEnd trace.now cert.now room.old room.new result }
{
    match why {
        Reason::Trace => put(b"no trace\n", 1, 0, room),
        Reason::CertText => put(b"no text\n", 1, 0, room),
        _ => line_end_of(alloc, &Answer::No(*why), room),
    }
}

/// The line of an answer in the room, if there is memory for it.
fn line_end_of(alloc: Global, answer: &Answer, room: &mut [u8]) -> DomepeelerEnd
    ensures { IsPut (answer_line answer.now) (number_of_status (status_of_answer answer.now)) 0 room.old
        room.new result ⊎ ((result.status ≡ NO_MEMORY) × (result.line ≡ 0) × (result.length ≡ 0)
        × (room.new ≡ room.old)) }
{
    match line_of(alloc, answer) {
        Ok(line) => put(&line, status_of_answer(answer).number() as u32, 0, room),
        Err(_) => memory_end(),
    }
}
