//! What is called round each search.

/// What is called round each search, as a test does that watches them or holds them up. It is shared by
/// all workers. A rehearsal calls it round each replay, with the replica in the worker's place and 0 in the
/// element's.
pub trait Gate: Sync {
    /// A worker, counted from 0, is about to search from the element with this number.
    fn before(&self, worker: u32, source: u32);

    /// Its search from the element with this number has ended.
    fn after(&self, worker: u32, source: u32);
}

/// The gate that does nothing.
#[derive(Clone, Copy, Debug)]
pub struct NoGate;

impl Gate for NoGate {
    fn before(&self, _worker: u32, _source: u32) {}

    fn after(&self, _worker: u32, _source: u32) {}
}
