//! Cases as tests: what the calls answer on small inputs and at the limits. A source and a sheet of its own show what the calls ask of any.
#![tactic(auto)]

#[cfg(test)]
mod checks;
pub mod finest;
pub mod ladder;
#[cfg(test)]
mod lists;
#[cfg(test)]
mod searches;
#[cfg(test)]
mod texts;
