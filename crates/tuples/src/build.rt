//! The table of tuples.
ghost use Rattle.std.specs.Prelude.{◌≡◌, ℕ, ◌<◌, ◌≤◌, true, length, MatchOption, slice_index};
ghost use Rattle.clusters.specs.Shapes.{sizes_in, partition};
ghost use Rattle.columns.specs.Columns.{product};
ghost use Rattle.tuples.specs.Tables.{place, lowest_kept, Started, Written};
ghost use Rattle.tuples.specs.Tuples.{width, tuples_before};

use crate::state::tuples_in;
use crate::tuple::{MOST_STARTS, MOST_TUPLES, Tuples};
use clusters::cluster::Clusters;

/// How many tuples the cluster k has: the product of its variables' sizes.
fn width_of(clusters: &Clusters, k: usize) -> u16
    ensures { result ≡ width (sizes_in clusters.now) (partition clusters.now).of k }
{
    clusters
        .sizes()
        .iter()
        .zip(clusters.clusters())
        .filter(|(_, cluster)| usize::from(**cluster) == k)
        .map(|(size, _)| *size)
        .product()
}

/// Where the tuples of each cluster stand, and where those of the last end.
fn starts_of(clusters: &Clusters) -> [u16; MOST_STARTS]
    ensures long { length result ≡ MOST_STARTS }
    ensures started { (k : ℕ) → k ≤ (partition clusters.now).count → slice_index result k ≡ tuples_before (sizes_in clusters.now) (partition clusters.now).of k }
{
    let mut starts = [0; MOST_STARTS];
    let mut end = 0;
    for (k, start) in starts.iter_mut().enumerate() {
        *start = end;
        end += width_of(clusters, k);
    }
    starts
}

/// Writes the state s at the place of each of its tuples.
fn write_state(clusters: &Clusters, starts: &[u16; MOST_STARTS], s: u16, lowest: &mut [u16])
    requires started { Started (sizes_in clusters.now) (partition clusters.now).of (partition clusters.now).count starts.now }
    requires state { s < product (sizes_in clusters.now) }
    requires long { length lowest.old ≡ MOST_TUPLES }
    ensures { Written (place (sizes_in clusters.now) (partition clusters.now).of s) (partition clusters.now).count s lowest.old lowest.new }
{
    let tuples = tuples_in(clusters, s);
    for (&start, &tuple) in starts[..clusters.count()].iter().zip(&tuples) {
        lowest[usize::from(start + tuple)] = s;
    }
}

/// The lowest state with each tuple: the states are written from the highest to the lowest, so that the lowest stays.
fn lowest_states(clusters: &Clusters, starts: &[u16; MOST_STARTS]) -> [u16; MOST_TUPLES]
    requires { Started (sizes_in clusters.now) (partition clusters.now).of (partition clusters.now).count starts.now }
    ensures long { length result ≡ MOST_TUPLES }
    ensures least { lowest_kept (sizes_in clusters.now) (partition clusters.now).of (partition clusters.now).count result ≡ true }
{
    let mut lowest = [0; MOST_TUPLES];
    for s in (0..clusters.states()).rev() {
        write_state(clusters, starts, s, &mut lowest);
    }
    lowest
}

impl Tuples {
    /// The tuples of these clusters, or absence where there are over 1,024.
    pub fn new(clusters: Clusters) -> Option<Tuples>
        ensures { MatchOption result (1024 < tuples_before (sizes_in clusters) (partition clusters).of (partition clusters).count) (λ x. x.clusters ≡ clusters) }
    {
        let starts = starts_of(&clusters);
        if usize::from(starts[clusters.count()]) > MOST_TUPLES {
            return None;
        }
        let lowest = lowest_states(&clusters, &starts);
        Some(Tuples {
            clusters,
            starts,
            lowest,
        })
    }
}
