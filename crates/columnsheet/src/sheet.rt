//! A column sheet as it is kept.
ghost use Rattle.std.specs.Prelude.{◌≡◌, ℕ, ◌<◌, length, slice_index};
ghost use Rattle.columns.specs.Columns.{product};
ghost use Rattle.tuples.specs.Meaning.{sizes_of};
ghost use Rattle.columnsheet.specs.Kept.{class_number, class_count};

use crate::parts::Parts;
use rules::list::MOST_STATES;

/// Classes of states by classes of tuples. At first the tuples that agree on all atoms of their cluster form a class, and a split parts
/// those that do not give the same dead states.
#[derive(Drop)]
pub struct ColumnSheet {
    pub(crate) parts: Parts,
    /// The class of each state. It follows from those of its tuples, and is kept since it is asked for far more often than it changes.
    pub(crate) table: [u16; MOST_STATES],
    pub(crate) count: u16,
    ghost full: { length table ≡ 4096 },
    ghost counted: { count ≡ class_count parts },
    ghost told: { (s : ℕ) → s < product (sizes_of parts.tuples) → slice_index table s ≡ class_number parts s },
}
