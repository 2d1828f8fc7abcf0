//! Whether an operation shows one element before another.

ghost use Rattle.std.specs.Prelude.{◌≡◌, ◌↔◌, IsTrue, true};
ghost use Rattle.events.specs.Operations.{response};
ghost use Rattle.specification.specs.Members.{Before};

use super::found::FoundPlaces;
use events::{OpName, Recording, Response};

/// A response of at most so many names is gone through sooner than places are looked up.
const FEW: usize = 6;

/// Whether `from` stands before `to` in the response. Both are given by their bytes.
fn stands_before(response: &Response, from: &[u8], to: &[u8]) -> bool
    ensures { IsTrue result ↔ Before from.now to.now response.now }
{
    let mut has_from = false;
    for i in 0..response.len() {
        if let Some(name) = response.bytes_at(i) {
            if has_from && name == to {
                return true;
            }
            if name == from {
                has_from = true;
            }
        }
    }
    false
}

/// Whether the two names stand at these places of the response, the one before the other.
fn stand_at(response: &Response, i: usize, j: usize, from: &[u8], to: &[u8]) -> bool
    ensures { result ≡ true → Before from.now to.now response.now }
{
    if i >= j {
        return false;
    }
    match (response.bytes_at(i), response.bytes_at(j)) {
        (Some(first), Some(second)) => first == from && second == to,
        _ => false,
    }
}

/// Whether the two names stand in the response where they were found before, the one before the other.
fn stand_as_found(
    found: &FoundPlaces,
    by: OpName,
    response: &Response,
    from: &[u8],
    to: &[u8],
) -> bool
    ensures { result ≡ true → Before from.now to.now response.now }
{
    let i = found.likely_place(by, from);
    let j = found.likely_place(by, to);
    if stand_at(response, i, j, from, to) {
        return true;
    }
    match (
        found.place(by, response, from),
        found.place(by, response, to),
    ) {
        (Some(i), Some(j)) => stand_at(response, i, j, from, to),
        _ => false,
    }
}

/// Whether an operation shows one name before the other; both are given by their bytes. It costs the
/// response, or where it has more than six names and some steps were right in it before, a search by halving
/// for each name, and mostly one look.
pub fn shows(
    found: &mut FoundPlaces,
    recording: &Recording,
    by: OpName,
    from: &[u8],
    to: &[u8],
) -> bool
    ensures { IsTrue result ↔ Before from.now to.now (response recording.now by) }
{
    let Some(response) = recording.response(by) else {
        return false;
    };
    if response.len() <= FEW {
        return stands_before(response, from, to);
    }
    if stand_as_found(found, by, response, from, to) {
        return true;
    }
    let shown = stands_before(response, from, to);
    if shown {
        found.note(by, response, from, to);
    }
    shown
}
