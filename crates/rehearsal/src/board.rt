//! What the recorders of a rehearsal tell each other: how many operations each has recorded, and who has
//! ended.
//!
//! A recorder waits only for one that has not ended, and whoever ends wakes all that wait for it. Who is not
//! woken looks again after a second. Why nobody waits for ever stands in docs/DECISIONS.md.
ghost use Rattle.std.specs.Prelude.{◌≡◌};

use events::{Memory, OpName};
use sessions::Waiter;
use std::alloc::Global;
use std::hint;
use std::sync::atomic::{AtomicU64, Ordering};
use std::sync::{Mutex, Wait};
use std::time::Duration;

/// How often a recorder looks for an operation before it sleeps.
const LOOKS: u32 = 100;

/// How many seconds a recorder sleeps at most before it looks again.
const NAP: u64 = 1;

/// Nobody sleeps.
const NOBODY: u64 = u64::MAX;

/// What is known of one recorder.
#[derive(Drop)]
struct Desk {
    /// How many operations it has recorded.
    made: AtomicU64,
    /// At most the number of the first operation that somebody sleeps for, or `NOBODY`. It is changed under
    /// the lock alone.
    wanted: AtomicU64,
    /// Whether it records no more; and the lock under which others go to sleep.
    has_ended: Mutex<bool>,
    /// How often sleepers were woken. They sleep on this word, for as long as it stays.
    calls: AtomicU64,
}

impl Desk {
    fn new() -> Desk {
        Desk {
            made: AtomicU64::new(0),
            wanted: AtomicU64::new(NOBODY),
            has_ended: Mutex::new(false),
            calls: AtomicU64::new(0),
        }
    }

    fn has(&self, n: u64) -> bool {
        self.made.load(Ordering::SeqCst) >= n
    }

    /// It has recorded so many operations. Who sleeps for one of them is woken.
    ///
    /// No wake-up is lost. A sleeper writes `wanted`, and then looks at `made`; here `made` is written, and
    /// then `wanted` is looked at. All threads see these words change in one order, so one of the two sees
    /// the other. `wanted` is wiped under the lock and all are woken, since each that still lacks its
    /// operation writes it again before it sleeps on. Were one lost all the same, a sleeper would look again
    /// after a second.
    fn tell<R: Wait>(&self, rt: &R, made: u64) {
        self.made.store(made, Ordering::SeqCst);
        if self.wanted.load(Ordering::SeqCst) > made {
            return;
        }
        let has_ended = self.has_ended.lock(rt);
        self.wanted.store(NOBODY, Ordering::SeqCst);
        drop(has_ended);
        self.wake();
    }

    /// It records no more. All that sleep for it are woken.
    fn end<R: Wait>(&self, rt: &R) {
        *self.has_ended.lock(rt) = true;
        self.wake();
    }

    /// Wakes all that sleep, or are about to.
    fn wake(&self) {
        self.calls.fetch_add(1, Ordering::SeqCst);
        self.calls.wake_all();
    }

    /// Notes that somebody wants this operation, and then answers whether it is not there. It is called under
    /// the lock.
    fn wants(&self, n: u64) -> bool {
        if self.wanted.load(Ordering::SeqCst) > n {
            self.wanted.store(n, Ordering::SeqCst);
        }
        !self.has(n)
    }

    /// The low half of `calls`, to sleep on, where this operation is not there and may still come.
    fn lacks<R: Wait>(&self, rt: &R, n: u64) -> Option<u32> {
        let has_ended = self.has_ended.lock(rt);
        if self.wants(n) && !*has_ended {
            Some((self.calls.load(Ordering::SeqCst) & 0xffff_ffff) as u32)
        } else {
            None
        }
    }

    /// Waits for this operation. Answers whether it is there; if it is not, it never comes.
    fn waits_for<R: Wait>(&self, rt: &R, n: u64) -> bool {
        for _ in 0..LOOKS {
            if self.has(n) {
                return true;
            }
            hint::spin_loop();
        }
        for _ in rt.forever() {
            let Some(calls) = self.lacks(rt, n) else {
                break;
            };
            self.calls.park_timeout(rt, calls, Duration::from_secs(NAP));
        }
        self.has(n)
    }
}

/// A desk for each replica's recorder.
#[derive(Drop)]
pub struct Board {
    desks: Vec<Desk>,
}

impl Board {
    /// The board of so many recorders, none of which has begun.
    pub fn new(alloc: Global, replicas: u32) -> Result<Board, Memory> {
        let mut desks = Vec::with_capacity(alloc, replicas as usize)?;
        for _ in 0..replicas {
            desks.push(Desk::new())?;
        }
        Ok(Board { desks })
    }

    fn desk(&self, replica: u32) -> Option<&Desk> {
        self.desks.get(replica as usize)
    }

    /// The recorder of this replica records no more.
    pub fn end<R: Wait>(&self, rt: &R, replica: u32) {
        if let Some(desk) = self.desk(replica) {
            desk.end(rt);
        }
    }

    /// The recorders from this replica on never begin.
    pub fn end_from<R: Wait>(&self, rt: &R, replica: usize) {
        for desk in self.desks.iter().skip(replica) {
            desk.end(rt);
        }
    }
}

/// What the recorder of a replica tells the others, and how it waits for them.
#[derive(Drop)]
pub struct Seat<'a> {
    pub board: &'a Board,
    pub replica: u32,
    /// How many operations it has recorded.
    pub made: u64,
}

impl<'a> Waiter for Seat<'a> {
    ghost use Rattle.std.specs.Prelude.{◌≡◌};

    ghost knows_of = { λ seat n. seat.made ≡ n };

    fn recorded<R: Wait>(&mut self, rt: &R) {
        self.made = self.made.saturating_add(1);
        if let Some(desk) = self.board.desk(self.replica) {
            desk.tell(rt, self.made);
        }
    }

    fn waits_for<R: Wait>(&mut self, rt: &R, lacking: OpName, _tries: u32) -> bool {
        match self.board.desk(lacking.replica) {
            Some(desk) => desk.waits_for(rt, u64::from(lacking.n)),
            None => false,
        }
    }
}

#[cfg(test)]
mod tests;
