//! The tuples of the clusters in classes.
ghost use Rattle.std.specs.Prelude.{◌≡◌, true, length};
ghost use Rattle.tuples.specs.Meaning.{sizes_of, clusters_of, count_of};
ghost use Rattle.columnsheet.specs.Groups.{held};
ghost use Rattle.columnsheet.specs.Joins.{all_lawful};

use columns::source::MOST_VARIABLES;
use tuples::tuple::{MOST_TUPLES, Tuples};

/// The tuples of each cluster in classes.
#[derive(Drop)]
pub(crate) struct Parts {
    pub(crate) tuples: Tuples,
    /// The class of each tuple, cluster after cluster.
    pub(crate) classes: [u16; MOST_TUPLES],
    /// How many classes each cluster has. There are no more clusters than variables.
    pub(crate) counts: [u16; MOST_VARIABLES],
    ghost long: { length classes ≡ 1024 },
    ghost each: { length counts ≡ 12 },
    ghost lawful: { all_lawful (count_of tuples) (held (sizes_of tuples) (clusters_of tuples) classes counts) ≡ true },
}

impl Parts {
    ghost use Rattle.std.specs.Prelude.{ℕ, ◌<◌};
    ghost use Rattle.sheets.specs.Classes.{class};
    ghost use Rattle.tuples.specs.Tuples.{width};
    ghost use Rattle.columnsheet.specs.Kept.{parts_of};

    /// All tuples of a cluster in one class.
    pub(crate) fn new(tuples: Tuples) -> Parts
        ensures same { result.tuples ≡ tuples }
        ensures one { (k t : ℕ) → k < count_of tuples → t < width (sizes_of tuples) (clusters_of tuples) k → class (parts_of result k) t ≡ 0 }
    {
        Parts {
            tuples,
            classes: [0; MOST_TUPLES],
            counts: [1; MOST_VARIABLES],
        }
    }
}
