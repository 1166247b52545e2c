//! What a rule set means: what its variables may become in a step, and the comparisons that it makes.
#![tactic(auto)]

pub mod atom;
pub mod becoming;
pub mod value;
