//! States as numbers: the sizes of a few variables, the values of each in a state, and the lowest state of a product of value sets.
#![tactic(auto)]

pub mod choice;
pub mod number;
pub mod sizes;
