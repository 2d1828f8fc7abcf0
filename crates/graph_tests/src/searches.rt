//! Tests of the searches, over lists and by the table, of workers and of least cycles.

mod before;
mod conflicts;
mod gates;
mod graphs;
mod held;
mod many;
mod plain;
mod searches;
mod sources;
mod steps;
mod tables;
mod workers;
