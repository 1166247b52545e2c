//! Variables in their clusters.
ghost use Rattle.std.specs.Prelude.{◌≡◌, ℕ, ◌<◌, ◌≤◌, length, take, slice_index};
ghost use Rattle.columns.specs.Columns.{product};

use columns::source::MOST_VARIABLES;

/// The sizes of 1 to 12 variables with at most 4,096 states, and the cluster of each.
#[derive(Clone, Copy)]
pub struct Clusters {
    // Kept: no heap is used, so that both are as long as the most variables; and `number_entries` numbers the clusters as one slice of numbers.
    /// How many values each variable has.
    pub(crate) sizes: [u16; MOST_VARIABLES],
    /// The cluster of each variable.
    pub(crate) clusters: [u16; MOST_VARIABLES],
    pub(crate) variables: usize,
    /// How many clusters there are.
    pub(crate) count: usize,
    pub(crate) states: u16,
    ghost long: { length sizes ≡ 12 },
    ghost each: { length clusters ≡ 12 },
    ghost some: { 1 ≤ variables },
    ghost few: { variables ≤ 12 },
    ghost wide: { (v : ℕ) → v < variables → 2 ≤ slice_index sizes v },
    ghost below: { (v : ℕ) → v < variables → slice_index clusters v < count },
    ghost fewer: { count ≤ variables },
    ghost made: { states ≡ product (take variables sizes) },
    ghost most: { states ≤ 4096 },
}
