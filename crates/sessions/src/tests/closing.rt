//! A session is closed by all its passes alone.
ghost use Rattle.std.specs.Prelude.{◌≡◌, All, IfSome};

use super::{both, pair, with_pass};
use crate::{Missing, Pass, Session};
use std::alloc::Global;

/// The session and its only pass, which was handed in alone and came back.
fn refused(alloc: Global, session: Session, pass: Pass) -> Option<(Session, Pass)>
    requires { pass.session ≡ session }
    ensures { IfSome result (λ back. (back.0 ≡ session) × (back.1.session ≡ session)) }
{
    let passes = with_pass(&session, Vec::new(alloc), pass)?;
    let Missing { session, passes } = session.close(passes).err()?;
    let mut passes = passes;
    let pass = passes.pop()?;
    if passes.is_empty() {
        Some((session, pass))
    } else {
        None
    }
}

/// Whether the second pass alone closes nothing, and both, the second first or last, close an empty
/// recording.
fn closes_by_both(alloc: Global, second_is_first: bool) -> Option<bool> {
    let (session, first, second) = pair(alloc)?;
    let (session, second) = refused(alloc, session, second)?;
    let came_back = session.replica(&second) == 1;
    let passes = if second_is_first {
        both(alloc, &session, second, first)?
    } else {
        both(alloc, &session, first, second)?
    };
    let closed = session.close(passes).ok()?;
    Some(came_back && closed.len() == 0 && closed.replicas() == 2)
}

#[test]
fn pass_kept_out(rt: HostRuntime) {
    assert!(rt; closes_by_both(rt.alloc(), false) == Some(true));
    assert!(rt; closes_by_both(rt.alloc(), true) == Some(true));
}
