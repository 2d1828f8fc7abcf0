//! The engines that read one trace, as the program calls them.

use byte_streams::{Reader, Sink, Source, Writer};
use command_line::Form;
use engines::{RunFault, Status, run, run_cert};
use live_engine::live;
use std::sync::Wait;
use std::thread::Threads;
use verdict::NoGate;

/// What reads one trace and writes what it finds.
#[derive(Clone, Copy, Debug)]
pub enum Engine {
    /// The report of the verdict, in this form. With other workers than 1 to 64 `go` answers `Workers`.
    Verdict { workers: u32, form: Form },
    /// The certificate of the verdict.
    Cert,
    /// The report of the verdict as text, by way of a session; `Workers` as above.
    Live { workers: u32 },
}

impl Engine {
    ghost use Rattle.finder_cli.specs.Engines.{RunsAs};

    /// Reads the trace to its end, or no further than the piece with its first faulty line, and writes the
    /// report or the certificate, whole. It answers `Good` for an accepted recording and else `Bad`. `Cert`
    /// never answers `Workers`, and only `Live` answers `Thread` or `Stalled`.
    pub fn go<H: AllocGlobal + Threads + Wait + Sync, R: Reader + Drop, W: Writer + Drop>(
        self,
        rt: &H,
        source: &mut Source<R>,
        sink: &mut Sink<W>,
    ) -> Result<Status, RunFault>
        ensures { RunsAs self source.old source.new sink.old sink.new result }
    {
        match self {
            Engine::Verdict { workers, form } => run(rt, rt.alloc(), source, sink, workers, form),
            Engine::Cert => run_cert(rt, rt.alloc(), source, sink),
            Engine::Live { workers } => {
                match live(rt, rt.alloc(), source, sink, workers, &NoGate) {
                    Ok(lived) => Ok(lived.status),
                    Err(fault) => Err(fault),
                }
            }
        }
    }
}
