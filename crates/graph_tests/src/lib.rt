//! Tests of the order graph, of orders (`orders`) and of searches (`searches`): worked recordings and
//! generated ones, beside plain programs that look through every response.
//!
//! They stand in a crate of their own, since they need recordings that are known to be sound: so
//! `order_graph`, `witness_order` and `level_search`, and what is proved on them, need not wait for the check
//! of the contents.
#![tactic(auto)]

#[cfg(test)]
mod generated;
#[cfg(test)]
mod graphs;
#[cfg(test)]
mod narrowed;
#[cfg(test)]
mod orders;
#[cfg(test)]
mod plain;
#[cfg(test)]
mod searches;
#[cfg(test)]
mod worked;
