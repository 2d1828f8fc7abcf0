//! Whether the response of an operation is covered by that of another: found in it, name by name.

ghost use Rattle.std.specs.Prelude.{◌≡◌, true, Contains};
ghost use Rattle.events.specs.Operation.{Operation};
ghost use Rattle.events.specs.Operations.{response};
ghost use Rattle.specification.specs.Orders.{IsSubsequence};

use events::{OpName, Recording, Response};

/// Whether the names of a response are found in another in the same order; it may answer no where the
/// response has fewer than half as many. Names are compared in runs, as far as both go on alike; after each
/// run one of the other is passed. So its time is linear in the responses, and it stops where fewer places
/// are left than names.
fn stands_in(response: &Response, other: &Response) -> bool
    ensures { result ≡ true → IsSubsequence response.now other.now }
{
    if response.len() < other.len() / 2 {
        return response.len() == 0;
    }
    let mut found = 0;
    let mut j = 0;
    'runs: while found < response.len() {
        if response.len() - found > other.len() - j {
            return false;
        }
        let run = response.same_names(found, other, j);
        found += run;
        j += run;
        if j < other.len() {
            j += 1;
        }
    }
    true
}

/// Whether the response of an operation is found in that of another.
fn is_covered(recording: &Recording, operation: OpName, other: OpName) -> bool
    ensures { result ≡ true → IsSubsequence (response recording.now operation)
        (response recording.now other) }
{
    match (recording.response(operation), recording.response(other)) {
        (Some(response), Some(other)) => stands_in(response, other),
        _ => false,
    }
}

/// Whether the response of an operation is found in that of the last of these.
pub fn is_covered_by_last(recording: &Recording, operation: OpName, kept: &[OpName]) -> bool
    ensures { result ≡ true → (p : Operation) × Contains kept.now p
        × IsSubsequence (response recording.now operation) (response recording.now p) }
{
    match kept.last() {
        None => false,
        Some(last) => is_covered(recording, operation, *last),
    }
}
