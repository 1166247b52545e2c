//! The sizes of the variables, and the values of a state.
ghost use Rattle.std.specs.Prelude.{◌≡◌, ◌≤◌, true, length, take};
ghost use Rattle.columns.specs.Columns.{product};
ghost use Rattle.numbering.specs.Limits.{sound_sizes};

use columns::source::MOST_VARIABLES;

/// The sizes of 1 to 12 variables, each 2 to 16, whose product is at most 4,096.
#[derive(Clone, Copy)]
// Kept: no heap is used, so here and in `Values` an array has its length beside it; the statements of the kit's `ArrayVec` would be trusted too.
pub struct Sizes {
    pub(crate) each: [u16; MOST_VARIABLES],
    pub(crate) count: usize,
    pub(crate) states: u16,
    ghost counted: { length (take count each) ≡ count },
    ghost sound: { sound_sizes (take count each) ≡ true },
    ghost made: { states ≡ product (take count each) },
}

/// The values of a state, one a variable.
#[derive(Clone, Copy)]
pub struct Values {
    pub(crate) each: [u16; MOST_VARIABLES],
    pub(crate) count: usize,
    ghost counted: { count ≤ 12 },
}

impl Sizes {
    ghost use Rattle.numbering.specs.Numbers.{sizes_in};

    /// The sizes, the first variable's first.
    pub fn as_slice(&self) -> &[u16]
        ensures { result.now ≡ sizes_in self.now }
    {
        &self.each[..self.count]
    }
}
