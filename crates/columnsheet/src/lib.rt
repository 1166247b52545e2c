//! The column sheet: classes by which comparisons hold, cluster by cluster.
#![tactic(auto)]

pub mod column_states;
pub mod fault;
mod joining;
pub mod making;
mod parting;
mod parts;
pub mod sheet;
mod tests;
