//! Tests of states, by which the tuples of a cluster are parted.
ghost use Rattle.std.specs.Prelude.{◌≡◌, ℕ, ◌+◌, ◌<◌, Bool, ◌==◌, Decides, slice_index};
ghost use Rattle.columns.specs.Columns.{product};
ghost use Rattle.clusters.specs.Shapes.{partition};
ghost use Rattle.tuples.specs.Meaning.{sizes_of, clusters_of, count_of};
ghost use Rattle.tuples.specs.Tuples.{part};
ghost use Rattle.tuples.specs.declared.tuple.Tuples.{Tuples};
ghost use Rattle.columnsheet.specs.Firsts.{AtomOf};

use columns::source::ColumnedSource;
use rules::source::RuleSource;
use sheets::splitting::DEAD;
use tuples::tuple::Tuples;

/// Tests of states, some for each cluster. Of a tuple a test says what it says of the lowest state with that tuple.
pub(crate) trait Tests {
    /// How many tests there are.
    ghost tests: { Self → Tuples → ℕ };

    /// A test of the cluster k.
    ghost Of: { Self → Tuples → ℕ → ℕ → Type 0 };

    /// What a test says of a state.
    ghost truth: { Self → ℕ → ℕ → Bool };

    /// How many tests there are.
    fn count(&self, tuples: &Tuples) -> u16
        ensures { result ≡ tests self.now tuples.now };

    /// Whether a test is one of the cluster k.
    fn is_of(&self, tuples: &Tuples, k: usize, test: u16) -> bool
        requires cluster { k < count_of tuples.now }
        requires known { test < tests self.now tuples.now }
        ensures { Decides result (Of self.now tuples.now k test) };

    /// What a test says of a state.
    fn holds(&self, test: u16, s: u16) -> bool
        ensures { result ≡ truth self.now test s };
}

/// Whether an atom is true: one test for each atom, of the cluster that it reads.
#[derive(Drop)]
pub(crate) struct Atoms<'a, C> {
    pub(crate) source: &'a C,
}

impl<C: ColumnedSource> Tests for Atoms<'_, C> {
    ghost tests = { λ x _. (C.columns x.source.now).atoms };

    ghost Of = { λ x tuples k atom. AtomOf (C.columns x.source.now) (partition tuples.clusters) k atom };

    ghost truth = { λ x atom s. (C.columns x.source.now).truth s atom };

    fn count(&self, _: &Tuples) -> u16 {
        self.source.atoms()
    }

    fn is_of(&self, tuples: &Tuples, k: usize, test: u16) -> bool {
        let clusters = tuples.clusters();
        (0..clusters.variables()).any(|v| usize::from(clusters.cluster(v)) == k
            && self.source.reads(test, v as u16))
    }

    fn holds(&self, test: u16, s: u16) -> bool {
        self.source.holds(test, s)
    }
}

/// Whether a tuple gives a dead state together with a rest: one test for each rest, a state that has 0 in the cluster.
#[derive(Drop)]
pub(crate) struct Deaths<'a> {
    pub(crate) marks: &'a [u8],
}

impl Tests for Deaths<'_> {
    ghost tests = { λ _ tuples. product (sizes_of tuples) };

    ghost Of = { λ _ tuples k rest. part (sizes_of tuples) (clusters_of tuples) k rest ≡ 0 };

    ghost truth = { λ x rest s. slice_index x.marks.now (rest + s) == 1 };

    fn count(&self, tuples: &Tuples) -> u16 {
        tuples.states()
    }

    fn is_of(&self, tuples: &Tuples, k: usize, test: u16) -> bool {
        let t = tuples.of(test)[k];
        tuples.lowest(k, usize::from(t)) == 0
    }

    fn holds(&self, test: u16, s: u16) -> bool {
        self.marks.get(usize::from(test) + usize::from(s)) == Some(&DEAD)
    }
}
