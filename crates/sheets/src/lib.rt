//! Sheets: partitions of the states into classes, and the class structure that they form.
#![tactic(auto)]

pub mod members;
pub mod numbering;
pub mod sheet;
mod slot;
pub mod splitting;
pub mod structure;
pub mod whole;
