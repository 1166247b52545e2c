//! The text layer of a rule text: lines and words as parts of the lent bytes, and the refusals of layer 1.
#![tactic(auto)]

mod cut;
pub mod fault;
pub mod line;
pub mod text;
pub mod text_reader;
pub mod word;
