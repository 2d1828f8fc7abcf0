//! What no clause says: worked recordings, and streams that fail.

mod long_streams;
mod pages;
mod recordings;
mod streams;
mod trials;
mod verifying;
