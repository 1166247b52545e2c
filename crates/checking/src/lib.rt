//! A check: counterexample-guided refinement of a sheet, from `begin` to `report`.
#![tactic(auto)]

ghost use Rattle.checking.specs.Agreement.{ChecksAgree};

mod area;
pub mod calls;
pub mod fault;
pub mod settle;
pub mod stage;
mod suspect;

/// Holds the theorem: any two checks of rules of one meaning come to an end, are right, and agree.
pub fn checks_agree()
    ensures { ChecksAgree }
{}
