//! Conditions over variables: the tree, when it holds, and how it is read from the words of a line.
#![tactic(auto)]

pub mod condition;
pub mod fault;
pub mod parser;
pub mod variable;
