//! What a report counts.

ghost use Rattle.std.specs.Prelude.{◌≡◌, ◌≤◌, is_some, option_and_then, length};
ghost use Rattle.events.specs.History.{inserted_name};
ghost use Rattle.events.specs.Operations.{operation};
ghost use Rattle.specification.specs.ReportText.{operation_count, insert_count};
ghost use Rattle.contents_check.specs.Covering.{first_operations};
ghost use Rattle.report.specs.Counts.{inserted_by};

use events::{Body, OpName, Recording};

/// How many operations a recording has, and how many of them are inserts.
#[derive(Clone, Copy)]
pub struct Counts {
    pub operations: u32,
    pub inserts: u32,
}

/// Counts the operations, replica by replica. It takes no memory.
pub fn counts_of(recording: &Recording) -> Counts
    ensures operations { result.operations ≡ operation_count recording.now }
    ensures inserts { result.inserts ≡ insert_count recording.now }
{
    let mut operations = 0;
    let mut inserts = 0;
    for r in 0..recording.replicas() {
        let count = recording.count(r);
        inserts += inserts_among(recording, r, count);
        operations += count;
    }
    Counts {
        operations,
        inserts,
    }
}

/// How many of a replica's first operations, so many, are inserts.
fn inserts_among(recording: &Recording, r: u32, count: u32) -> u32
    ensures inserts { result ≡ length (inserted_by recording.now (first_operations r count)) }
    ensures few { result ≤ count }
{
    let mut inserts = 0;
    for i in 0..count {
        let name = OpName {
            replica: r,
            n: i + 1,
        };
        if is_insert(recording, name) {
            inserts += 1;
        }
    }
    inserts
}

/// Whether an operation is an insert.
fn is_insert(recording: &Recording, name: OpName) -> bool
    ensures { result ≡ is_some (option_and_then inserted_name (operation recording.now name)) }
{
    match recording.operation(name) {
        Some(Body::Ins { .. }) => true,
        _ => false,
    }
}
