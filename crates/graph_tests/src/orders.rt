//! Tests of the order, and of what can be taken in turn.

mod answers;
mod generated;
mod plain;
mod taken;
mod worked;
