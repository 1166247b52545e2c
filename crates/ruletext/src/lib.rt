//! A read rule text as a rule source, with its variables and its comparisons.
#![tactic(auto)]

pub mod columned;
mod parts;
mod reading;
pub mod source;
pub mod text;
mod variable;
