//! What stands before what in the responses of a recording, looked for in every one of them.

use super::entries::place_of;
use events::{Body, Name, Recording};

/// Whether an operation returned the one name before the other.
fn has_in_order(body: &Body, a: Name, b: Name) -> bool {
    let response = match body {
        Body::Ins { response, .. } => response,
        Body::Del { response, .. } => response,
        Body::Read { response } => response,
        Body::View { response } => response,
        Body::Recv { .. } => return false,
    };
    match (place_of(response, a), place_of(response, b)) {
        (Some(i), Some(j)) => i < j,
        _ => false,
    }
}

/// Whether some response has the one name before the other; where a name is missing, none has.
pub fn stands_before(recording: &Recording, a: Option<Name>, b: Option<Name>) -> bool {
    let (Some(a), Some(b)) = (a, b) else {
        return false;
    };
    for i in 0..recording.len() {
        if let Some(entry) = recording.entry(i) {
            if has_in_order(&entry.body, a, b) {
                return true;
            }
        }
    }
    false
}
