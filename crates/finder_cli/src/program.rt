//! The program: what it does for the words of its command line, in every world.

ghost use Rattle.std.specs.Prelude.{◌≡◌, ◌++◌, drop, map, string_bytes, Err, List, MatchResult, Result};
ghost use Rattle.byte_streams.specs.Streams.{Makes};
ghost use Rattle.command_line.specs.Asked.{IsAskedBy};
ghost use Rattle.command_line.specs.declared.task.Task.{Task};
ghost use Rattle.command_line.specs.declared.words.WordsFault.{WordsFault};
ghost use Rattle.finder_cli.specs.Deeds.{Deed};
ghost use Rattle.finder_cli.specs.Endings.{fault_of_run};
ghost use Rattle.finder_cli.specs.Engines.{Checks, RunsAs};
ghost use Rattle.finder_cli.specs.Programs.{ChecksOn, Does, Helps, RunsOn, answer_on, complaints};
ghost use Rattle.finder_cli.specs.Programs.{number_of};
ghost use Rattle.finder_cli.specs.declared.fault.ProgramFault.{ProgramFault};
ghost use Rattle.engines.specs.declared.status.Status.{Status};

use super::engine::Engine;
use super::fault::ProgramFault;
use super::world::World;
use byte_streams::{Reader, Sink, Source, Writer};
use command_line::{Task, Word, WordsFault, read_words};
use engines::{RunFault, Status, run_verify};
use std::alloc::Global;
use std::env;
use std::env::Env;
use std::io::ErrorKind;
use std::sync::Wait;
use std::thread::Threads;

/// All words of the command line, the program's name first. One that is not UTF-8 is a usage fault.
pub fn all_words<H: Env + AllocGlobal>(rt: &H) -> Result<Vec<String>, WordsFault> {
    match env::args(rt) {
        Ok(words) => words.collect(rt.alloc()).map_err(|_| WordsFault::Memory),
        Err(error) if error.kind() == ErrorKind::OutOfMemory => Err(WordsFault::Memory),
        Err(_) => Err(WordsFault::Usage),
    }
}

/// Does what the words ask for, the program's name first among them, writes the fault, if there is one, to
/// standard error, and answers the exit status.
///
/// Of the words, those after the first are read. For a task the streams that its words name are opened in
/// their order, its engine goes on them, and they are closed; what that engine answers is what the program
/// answers. A file that can't be opened is named, and so is the trace where a read fails.
pub fn finder<H: AllocGlobal + Threads + Wait + Sync, N: World, W: Writer + Drop>(
    rt: &H,
    words: Result<Vec<String>, WordsFault>,
    world: &mut N,
    sink: &mut Sink<W>,
) -> u8
    ensures { (asked : Result Task WordsFault) × (deeds : List Deed) × (answer : Result Status ProgramFault)
        × MatchResult words (λ all. IsAskedBy (drop 1 (map string_bytes all.items)) asked)
        (λ fault. asked ≡ Err fault)
        × Does (N.text world.old) asked deeds sink.old sink.new answer
        × Makes (N.deeds world.old) (N.deeds world.new) (deeds ++ complaints answer)
        × (result ≡ number_of answer) }
{
    match answer(rt, words, world, sink) {
        Ok(status) => status.number(),
        Err(fault) => {
            world.complain(&fault);
            fault.number()
        }
    }
}

/// Does what the words ask for.
fn answer<H: AllocGlobal + Threads + Wait + Sync, N: World, W: Writer + Drop>(
    rt: &H,
    words: Result<Vec<String>, WordsFault>,
    world: &mut N,
    sink: &mut Sink<W>,
) -> Result<Status, ProgramFault>
    ensures { (asked : Result Task WordsFault) × (deeds : List Deed)
        × MatchResult words (λ all. IsAskedBy (drop 1 (map string_bytes all.items)) asked)
        (λ fault. asked ≡ Err fault)
        × Does (N.text world.old) asked deeds sink.old sink.new result
        × Makes (N.deeds world.old) (N.deeds world.new) deeds }
{
    let asked = asked_by(rt.alloc(), words);
    do_asked(rt, asked, world, sink)
}

/// What the words after the first ask for.
fn asked_by(alloc: Global, words: Result<Vec<String>, WordsFault>) -> Result<Task, WordsFault>
    ensures { MatchResult words (λ all. IsAskedBy (drop 1 (map string_bytes all.items)) result)
        (λ fault. result ≡ Err fault) }
{
    match words {
        Ok(all) => read_given(alloc, &all),
        Err(fault) => Err(fault),
    }
}

/// What the words after the first ask for.
fn read_given(alloc: Global, all: &[String]) -> Result<Task, WordsFault>
    ensures { IsAskedBy (drop 1 (map string_bytes all.now)) result }
{
    match all {
        [_, given @ ..] => read_words(alloc, given),
        [] => read_words(alloc, &[]),
    }
}

/// Does what is asked for.
fn do_asked<H: AllocGlobal + Threads + Wait + Sync, N: World, W: Writer + Drop>(
    rt: &H,
    asked: Result<Task, WordsFault>,
    world: &mut N,
    sink: &mut Sink<W>,
) -> Result<Status, ProgramFault>
    ensures { (deeds : List Deed) × Does (N.text world.old) asked deeds sink.old sink.new result
        × Makes (N.deeds world.old) (N.deeds world.new) deeds }
{
    match asked {
        Ok(
            Task::Verdict {
                workers,
                form,
                file,
            },
        ) => on_file(rt, Engine::Verdict { workers, form }, world, sink, file),
        Ok(Task::Cert { file }) => on_file(rt, Engine::Cert, world, sink, file),
        Ok(Task::Verify { file, cert }) => check_files(rt, world, sink, file, cert),
        Ok(Task::Live { workers, file }) => on_file(
            rt,
            Engine::Live { workers },
            world,
            sink,
            file,
        ),
        Err(WordsFault::Usage) => Err(ProgramFault::Usage),
        Err(WordsFault::Memory) => Err(ProgramFault::Memory),
        Err(WordsFault::Help { text }) => help(sink, text.as_bytes()),
    }
}

/// Writes the text of a help.
fn help<W: Writer + Drop>(sink: &mut Sink<W>, text: &[u8]) -> Result<Status, ProgramFault>
    ensures { Helps text.now sink.old sink.new result }
{
    match sink.write_whole(text) {
        Ok(()) => Ok(Status::Good),
        Err(_) => Err(ProgramFault::Write),
    }
}

/// Opens the file, runs the engine on its stream, and closes that.
fn on_file<H: AllocGlobal + Threads + Wait + Sync, N: World, W: Writer + Drop>(
    rt: &H,
    engine: Engine,
    world: &mut N,
    sink: &mut Sink<W>,
    file: Word,
) -> Result<Status, ProgramFault>
    ensures { (deeds : List Deed)
        × RunsOn (RunsAs engine) (N.text world.old) file deeds sink.old sink.new result
        × Makes (N.deeds world.old) (N.deeds world.new) deeds }
{
    let Some(mut source) = world.open(file.as_str()) else {
        return Err(ProgramFault::Read { file });
    };
    let ran = engine.go(rt, &mut source, sink);
    world.close(&source);
    answer_on(file, ran)
}

/// Writes the checker's line on the trace in `file` and the certificate in `cert`. The trace is opened first.
fn check_files<H: AllocGlobal + Threads + Sync, N: World, W: Writer + Drop>(
    rt: &H,
    world: &mut N,
    sink: &mut Sink<W>,
    file: Word,
    cert: Word,
) -> Result<Status, ProgramFault>
    ensures { (deeds : List Deed) × ChecksOn (N.text world.old) file cert deeds sink.old sink.new result
        × Makes (N.deeds world.old) (N.deeds world.new) deeds }
{
    let Some(mut trace) = world.open(file.as_str()) else {
        return Err(ProgramFault::Read { file });
    };
    let Some(mut other) = world.open(cert.as_str()) else {
        world.close(&trace);
        return Err(ProgramFault::Read { file: cert });
    };
    let ran = check(rt, &mut trace, &mut other, sink);
    world.close(&trace);
    world.close(&other);
    answer_on(file, ran)
}

/// Writes the checker's line on a trace and a certificate.
fn check<H: AllocGlobal + Threads + Sync, T: Reader + Drop, C: Reader + Drop, W: Writer + Drop>(
    rt: &H,
    trace: &mut Source<T>,
    cert: &mut Source<C>,
    sink: &mut Sink<W>,
) -> Result<Status, RunFault>
    ensures { Checks trace.old trace.new cert.old cert.new sink.old sink.new result }
{
    run_verify(rt, rt.alloc(), trace, cert, sink)
}

/// The program's answer for an engine's on the file.
fn answer_on(file: Word, ran: Result<Status, RunFault>) -> Result<Status, ProgramFault>
    ensures { result ≡ answer_on file ran }
{
    match ran {
        Ok(status) => Ok(status),
        Err(fault) => Err(fault_of_run(file, fault)),
    }
}

/// The program's fault for a run's, where the text came from the file.
fn fault_of_run(file: Word, fault: RunFault) -> ProgramFault
    ensures { result ≡ fault_of_run file fault }
{
    match fault {
        RunFault::Workers => ProgramFault::Usage,
        RunFault::Read => ProgramFault::Read { file },
        RunFault::Trace(fault) => ProgramFault::Trace(fault),
        RunFault::Thread => ProgramFault::Thread,
        RunFault::Stalled => ProgramFault::Stalled,
        RunFault::Write => ProgramFault::Write,
        RunFault::Memory => ProgramFault::Memory,
    }
}
