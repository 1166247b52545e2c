//! The clusters of a columned source's variables: those that a chain of atoms links.
#![tactic(auto)]

pub mod cluster;
mod linking;
pub mod making;
pub mod questions;
