//! The tuples of one state.
ghost use Rattle.std.specs.Prelude.{◌≡◌, ℕ, ◌<◌, length, slice_index};
ghost use Rattle.clusters.specs.Shapes.{sizes_in, partition};
ghost use Rattle.columns.specs.Columns.{product};
ghost use Rattle.tuples.specs.Tuples.{tuple};

use clusters::cluster::Clusters;
use columns::source::MOST_VARIABLES;

/// The tuple of each cluster in the state s, 0 behind the last.
pub(crate) fn tuples_in(clusters: &Clusters, s: u16) -> [u16; MOST_VARIABLES]
    requires { s < product (sizes_in clusters.now) }
    ensures long { length result ≡ MOST_VARIABLES }
    ensures tells { (k : ℕ) → slice_index result k ≡ tuple (sizes_in clusters.now) (partition clusters.now).of k s }
{
    let mut tuples = [0; MOST_VARIABLES];
    let mut w = clusters.states();
    let mut rest = s;
    for (&size, &cluster) in clusters.sizes().iter().zip(clusters.clusters()) {
        let k = usize::from(cluster);
        w /= size;
        tuples[k] = tuples[k] * size + rest / w;
        rest %= w;
    }
    tuples
}
