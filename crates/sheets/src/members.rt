//! The members of each class of a sheet, in tables that are made once.
ghost use Rattle.std.specs.Prelude.{◌≡◌, ℕ, ◌+◌, ◌<◌, ◌≤◌, length, take, slice_index, slice_index_or};
ghost use Rattle.std.proofs.Props.{props};
ghost use Rattle.rules.specs.Next.{LowestFrom};
ghost use Rattle.rules.proofs.NextFacts.{LowestFrom-prop};
ghost use Rattle.sheets.specs.Links.{stands};
ghost use Rattle.sheets.specs.Slots.{content, no_number};

use crate::slot::Slot;
use rules::list::MOST_STATES;

mod build;
pub mod class_members;
mod walk;

/// A copy of a partition that tells the members of a class one by one, in rising order. The members of a class form a linked list: each
/// state names the next higher member of its class.
#[derive(Drop)]
pub struct Members {
    states: u16,
    count: u16,
    /// The class of each state.
    table: [u16; MOST_STATES],
    /// The lowest member of each class.
    first: [Slot; MOST_STATES],
    /// For each state the next higher member of its class.
    after: [Slot; MOST_STATES],
    // There is room for every state and for every class, since there are no more classes than states.
    ghost full: { length table ≡ 4096 },
    ghost wide: { length first ≡ 4096 },
    ghost long: { length after ≡ 4096 },
    ghost held: { states ≤ 4096 },
    ghost few: { count ≤ states },
    ghost below: { (s : ℕ) → s < states → slice_index table s < count },
    // Each list starts with the lowest member, and goes on with the next higher one.
    ghost firsts: { (k : ℕ) → k < count → LowestFrom (stands (take states table) k) 0 (content (slice_index_or first k no_number)) } by { Prim.hlevel (props, LowestFrom-prop) },
    ghost afters: { (s : ℕ) → s < states → LowestFrom (stands (take states table) (slice_index table s)) (s + 1) (content (slice_index_or after s no_number)) } by { Prim.hlevel (props, LowestFrom-prop) },
}
