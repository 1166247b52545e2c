//! Finite rules: what a rule source tells, and the transition list.
#![tactic(auto)]

pub mod list;
pub mod refusal;
pub mod source;
pub mod successors;
pub mod transition;
