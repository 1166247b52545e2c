//! Tuples of values in one table, cluster after cluster.
ghost use Rattle.std.specs.Prelude.{◌≡◌, ℕ, ◌≤◌, true, length, slice_index};
ghost use Rattle.clusters.specs.Shapes.{sizes_in, partition};
ghost use Rattle.tuples.specs.Tables.{lowest_kept};
ghost use Rattle.tuples.specs.Tuples.{tuples_before};

use clusters::cluster::Clusters;
use columns::source::MOST_VARIABLES;

/// The most tuples that clusters may have in all.
pub const MOST_TUPLES: usize = 1024;

/// The most starts: one of each cluster, and the end.
pub(crate) const MOST_STARTS: usize = MOST_VARIABLES + 1;

/// The clusters of some variables with at most 1,024 tuples in all.
#[derive(Clone, Copy)]
pub struct Tuples {
    pub(crate) clusters: Clusters,
    /// Where the tuples of each cluster stand, and where those of the last end.
    pub(crate) starts: [u16; MOST_STARTS],
    /// The lowest state with each tuple.
    pub(crate) lowest: [u16; MOST_TUPLES],
    ghost each: { length starts ≡ 13 },
    ghost long: { length lowest ≡ 1024 },
    ghost started: { (k : ℕ) → k ≤ (partition clusters).count → slice_index starts k ≡ tuples_before (sizes_in clusters) (partition clusters).of k },
    ghost most: { tuples_before (sizes_in clusters) (partition clusters).of (partition clusters).count ≤ 1024 },
    ghost least: { lowest_kept (sizes_in clusters) (partition clusters).of (partition clusters).count lowest ≡ true },
}
