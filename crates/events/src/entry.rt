//! Entries: what a replica did.

ghost use Rattle.std.specs.Prelude.{◌≡◌, ◌==◌, ◌||◌, IfOk, length, nat_le};
ghost use Rattle.events.specs.History.{IsWellFormed};
ghost use Rattle.events.specs.Lanes.{IsWeightOf};
ghost use Rattle.events.specs.Session.{received, passes};

use super::lane::Weight;
use super::{Memory, Name, OpName, Response};
use std::alloc::Global;

/// What a replica did: an operation with its response, or a receipt of another replica's operation.
#[derive(Drop)]
pub enum Body {
    /// Inserts `name` at position `at`, counted from 0; past the end it stands at the end.
    Ins {
        name: Name,
        at: u32,
        response: Response,
    },
    /// Deletes `name`.
    Del {
        name: Name,
        response: Response,
    },
    /// Reads the list.
    Read {
        response: Response,
    },
    /// Answers a part of the list, as an editor does that shows a window of a long document.
    View {
        response: Response,
    },
    /// Notes that the operation `seen` of another replica has arrived.
    Recv {
        seen: OpName,
    },
}

/// One entry of a recording: what a replica did.
#[derive(Drop)]
pub struct Entry {
    /// The replica, from 0.
    pub replica: u32,
    /// What it did.
    pub body: Body,
}

impl Body {
    /// The same body, in memory of its own.
    pub fn copy(&self, alloc: Global) -> Result<Body, Memory>
        ensures { IfOk result (λ copied. copied ≡ self.now) }
    {
        match self {
            Body::Ins { name, at, response } => Ok(Body::Ins {
                name: *name,
                at: *at,
                response: response.copy(alloc)?,
            }),
            Body::Del { name, response } => Ok(Body::Del {
                name: *name,
                response: response.copy(alloc)?,
            }),
            Body::Read { response } => Ok(Body::Read {
                response: response.copy(alloc)?,
            }),
            Body::View { response } => Ok(Body::View {
                response: response.copy(alloc)?,
            }),
            Body::Recv { seen } => Ok(Body::Recv { seen: *seen }),
        }
    }

    /// What it counts for.
    pub(super) fn weight(&self) -> Weight
        ensures { IsWeightOf self.now result }
    {
        match self {
            Body::Ins { response, .. } => weight_of(true, true, response),
            Body::Del { response, .. } => weight_of(true, false, response),
            Body::Read { response } => weight_of(true, false, response),
            Body::View { response } => weight_of(true, false, response),
            Body::Recv { .. } => Weight {
                operates: false,
                inserts: false,
                places: 0,
            },
        }
    }

    /// The operation whose receipt it is.
    pub(super) fn received(&self) -> Option<OpName>
        ensures { result ≡ received self.now }
    {
        match self {
            Body::Recv { seen } => Some(*seen),
            _ => None,
        }
    }
}

impl Entry {
    /// The same entry, in memory of its own.
    pub fn copy(&self, alloc: Global) -> Result<Entry, Memory>
        ensures { IfOk result (λ copied. copied ≡ self.now) }
    {
        let body = self.body.copy(alloc)?;
        Ok(Entry {
            replica: self.replica,
            body,
        })
    }
}

fn weight_of(operates: bool, inserts: bool, response: &Response) -> Weight
    ensures operates { result.operates ≡ operates }
    ensures inserts { result.inserts ≡ inserts }
    ensures places { result.places ≡ length response.now }
{
    Weight {
        operates,
        inserts,
        places: response.len(),
    }
}

/// Tells the contracts that each name is a name and each number fits.
pub(super) fn look_over(body: &Body)
    ensures { IsWellFormed body.now }
{
    match body {
        Body::Ins { name, at, response } => {
            let _name = name.bytes();
            let _at = *at;
            let _names = response.len();
        }
        Body::Del { name, response } => {
            let _name = name.bytes();
            let _names = response.len();
        }
        Body::Read { response } => {
            let _names = response.len();
        }
        Body::View { response } => {
            let _names = response.len();
        }
        Body::Recv { seen } => {
            let _replica = seen.replica;
            let _n = seen.n;
        }
    }
}

/// Whether the entry's replica, or that of the operation it receives, is not one of so many.
pub(super) fn has_no_replica(entry: &Entry, replicas: u32) -> bool
    ensures { result ≡ (nat_le replicas entry.now.replica || passes
        (λ o. nat_le replicas o.replica) (received entry.now.body)) }
{
    if entry.replica >= replicas {
        return true;
    }
    match entry.body.received() {
        None => false,
        Some(seen) => seen.replica >= replicas,
    }
}

/// Whether it is a receipt of an operation of the entry's own replica.
pub(super) fn is_own_receipt(entry: &Entry) -> bool
    ensures { result ≡ passes (λ o. o.replica == entry.now.replica) (received entry.now.body) }
{
    match entry.body.received() {
        None => false,
        Some(seen) => seen.replica == entry.replica,
    }
}
