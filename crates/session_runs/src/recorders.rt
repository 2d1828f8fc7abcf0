//! Recorders of a session, each in a thread of its own.
ghost use Rattle.std.specs.Prelude.{◌≡◌, All};

use sessions::{Pass, Session};
use std::alloc::Global;
use std::sync::Wait;
use std::thread;
use std::thread::Threads;

/// What each recorder of a session does with its pass.
pub trait Task: Sync {
    /// Does it with the pass of this number.
    fn act<R: Wait>(&self, rt: &R, alloc: Global, session: &Session, at: usize, pass: &mut Pass)
        requires { pass.old.session ≡ session.now }
        ensures { pass.new.session ≡ session.now };
}

/// Each pass has a recorder, in a thread of its own.
pub fn record_all<H: Threads + Wait + Sync, T: Task>(
    rt: &H,
    alloc: Global,
    session: &Session,
    passes: &mut [Pass],
    task: &T,
)
    requires { All (λ p. p.session ≡ session.now) passes.old }
    ensures { All (λ p. p.session ≡ session.now) passes.new }
{
    thread::for_each_mut(
        rt,
        passes,
        16,
        &|at: usize, pass: &mut Pass|
            requires { pass.old.session ≡ session.now }
            ensures { pass.new.session ≡ session.entry.now }
        {
            task.act(rt, alloc, session, at, pass);
        },
    );
}
