//! The reader of rule texts: what a planner writes becomes a rule set, and any other bytes are refused.
#![tactic(auto)]

mod blocks;
mod breaks;
mod effects;
pub mod fault;
pub mod rule_set;
mod scope;
pub mod text;
mod variables;
