//! The tuples of values that the variables of a cluster have, and where they stand in one table.
#![tactic(auto)]

mod build;
pub mod questions;
mod state;
pub mod tuple;
