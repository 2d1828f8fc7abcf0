//! What no clause says: the calls of a live session's gate.

mod live_sessions;
