//! Rule sources whose states are made of the values of a few variables.
#![tactic(auto)]

pub mod source;
