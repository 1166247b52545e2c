//! What a table of tuples tells.
ghost use Rattle.std.specs.Prelude.{◌≡◌, ℕ, ◌≤◌, min, ◌&&◌, ltb, length, if◌then◌else◌, nat_lt, slice_index};
ghost use Rattle.columns.specs.Columns.{product};
ghost use Rattle.tuples.specs.Meaning.{sizes_of, clusters_of, count_of};
ghost use Rattle.tuples.specs.Tables.{LowestTuple};
ghost use Rattle.tuples.specs.Tuples.{tuple, tuples_before};

use crate::state::tuples_in;
use crate::tuple::Tuples;
use clusters::cluster::Clusters;
use columns::source::MOST_VARIABLES;

impl Tuples {
    /// The clusters.
    pub fn clusters(&self) -> &Clusters
        ensures { result.now ≡ self.now.clusters }
    {
        &self.clusters
    }

    /// How many states the variables have together.
    pub fn states(&self) -> u16
        ensures { result ≡ product (sizes_of self.now) }
    {
        self.clusters.states()
    }

    /// How many clusters there are.
    pub fn count(&self) -> usize
        ensures { result ≡ count_of self.now }
    {
        self.clusters.count()
    }

    /// Where the tuples of the cluster k stand; of a number that is no cluster, where those of the last end.
    pub fn start(&self, k: usize) -> usize
        ensures tells { result ≡ tuples_before (sizes_of self.now) (clusters_of self.now) (min k (count_of self.now)) }
        ensures most { tuples_before (sizes_of self.now) (clusters_of self.now) (count_of self.now) ≤ 1024 }
    {
        usize::from(self.starts[k.min(self.count())])
    }

    /// The tuple of each cluster in the state s, 0 where there is no such cluster, and all 0 for a number that is no state.
    pub fn of(&self, s: u16) -> [u16; MOST_VARIABLES]
        ensures long { length result ≡ 12 }
        ensures tells { (k : ℕ) → slice_index result k ≡ (if ltb s (product (sizes_of self.now)) && nat_lt k (count_of self.now) then tuple (sizes_of self.now) (clusters_of self.now) k s else 0) }
    {
        if s < self.states() {
            tuples_in(&self.clusters, s)
        } else {
            [0; MOST_VARIABLES]
        }
    }

    /// The lowest state with the tuple t of the cluster k; 0 where there is no such cluster or tuple.
    pub fn lowest(&self, k: usize, t: usize) -> u16
        ensures { LowestTuple (sizes_of self.now) (clusters_of self.now) (count_of self.now) k t result }
    {
        self.lowest[self.start(k)..self.start(k.saturating_add(1))]
            .get(t)
            .copied()
            .unwrap_or(0)
    }
}
