//! What the clusters of some variables tell.
ghost use Rattle.std.specs.Prelude.{◌≡◌, length, slice_index};
ghost use Rattle.columns.specs.Columns.{product};
ghost use Rattle.clusters.specs.Shapes.{Shape, sizes_in, partition};

use crate::cluster::Clusters;

impl Clusters {
    /// How many variables there are.
    pub fn variables(&self) -> usize
        ensures tells { result ≡ length (sizes_in self.now) }
        ensures shaped { Shape (sizes_in self.now) (partition self.now).of self.now.count }
    {
        self.variables
    }

    /// How many values each variable has.
    pub fn sizes(&self) -> &[u16]
        ensures { result.now ≡ sizes_in self.now }
    {
        &self.sizes[..self.variables]
    }

    /// The cluster of each variable.
    pub fn clusters(&self) -> &[u16]
        ensures { result.now ≡ (partition self.now).of }
    {
        &self.clusters[..self.variables]
    }

    /// How many values the variable v has; 0 of a number that is no variable.
    pub fn size(&self, v: usize) -> u16
        ensures { result ≡ slice_index (sizes_in self.now) v }
    {
        self.sizes().get(v).copied().unwrap_or(0)
    }

    /// The cluster of the variable v; 0 of a number that is no variable.
    pub fn cluster(&self, v: usize) -> u16
        ensures { result ≡ slice_index (partition self.now).of v }
    {
        self.clusters().get(v).copied().unwrap_or(0)
    }

    /// How many clusters there are.
    pub fn count(&self) -> usize
        ensures { result ≡ (partition self.now).count }
    {
        self.count
    }

    /// How many states the variables have together.
    pub fn states(&self) -> u16
        ensures { result ≡ product (sizes_in self.now) }
    {
        self.states
    }
}
