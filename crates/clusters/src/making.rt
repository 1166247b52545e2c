//! How the clusters are made.
ghost use Rattle.std.specs.Prelude.{◌≡◌, ℕ, ◌<◌, length, slice_index};
ghost use Rattle.columns.specs.Columns.{Columned};
ghost use Rattle.clusters.specs.Makes.{ClustersOf};

use crate::cluster::Clusters;
use crate::linking::{link_all, renumber};
use columns::source::{ColumnedSource, MOST_VARIABLES};
use rules::source::RuleSource;
use std::array;

/// The sizes of the variables, 0 behind the last.
fn sizes_of<C: ColumnedSource>(source: &C) -> [u16; MOST_VARIABLES]
    ensures long { length result ≡ MOST_VARIABLES }
    ensures each { (v : ℕ) → v < MOST_VARIABLES → slice_index result v ≡ slice_index (C.columns source.now).sizes v }
{
    array::from_fn(|v| source.width(v as u16).unwrap_or(0))
}

impl Clusters {
    /// The clusters of a source's variables. At first each variable is labelled with its own number.
    pub fn new<C: ColumnedSource>(source: &C) -> Self
        ensures made { ClustersOf (C.columns source.now) result }
        ensures columned { Columned (C.RuleSource.rules source.now) (C.columns source.now) }
    {
        let n = source.variables();
        let sizes = sizes_of(source);
        let mut clusters = array::from_fn(|v| v as u16);
        link_all(source, n, &mut clusters);
        let variables = usize::from(n);
        let count = renumber(&mut clusters, variables);
        Clusters {
            sizes,
            clusters,
            variables,
            count,
            states: source.size(),
        }
    }
}
