//! Tuples parted by tests.
ghost use Rattle.std.specs.Prelude.{◌≡◌, ℕ, ◌+◌, ◌-◌, ◌<◌, ◌≤◌, length, slice_index};
ghost use Rattle.sheets.specs.Tables.{listed};
ghost use Rattle.tuples.specs.Meaning.{sizes_of, clusters_of, count_of};
ghost use Rattle.tuples.specs.Tuples.{width, tuples_before};
ghost use Rattle.columnsheet.specs.Kept.{Grouping, parts_of};
ghost use Rattle.columnsheet.specs.Parting.{SaidAlike, Parted};

use crate::parts::Parts;
use crate::tests::Tests;
use sheets::numbering::number_entries;
use std::ops::Range;
use tuples::tuple::Tuples;

/// Parts the classes of the cluster k's tuples by one test, numbers them by lowest tuple, and returns how many there are.
fn part_once<T: Tests>(tests: &T, tuples: &Tuples, k: usize, test: u16, classes: &mut [u16]) -> u16
    requires cluster { k < count_of tuples.now }
    requires all { length classes.old ≡ width (sizes_of tuples.now) (clusters_of tuples.now) k }
    requires small { (t : ℕ) → t < length classes.old → slice_index classes.old t < 1024 }
    ensures { Grouping tuples.now k (SaidAlike tuples.now k (T.truth tests.now test) classes.old) (listed result classes.new) }
{
    for (t, class) in classes.iter_mut().enumerate() {
        *class = 2 * *class + u16::from(tests.holds(test, tuples.lowest(k, t)));
    }
    number_entries(classes).unwrap()
}

/// Parts the classes of the cluster k's tuples by its tests, numbers them by lowest tuple, and returns how many there are.
fn part_cluster<T: Tests>(tests: &T, tuples: &Tuples, k: usize, classes: &mut [u16]) -> u16
    requires cluster { k < count_of tuples.now }
    requires all { length classes.old ≡ width (sizes_of tuples.now) (clusters_of tuples.now) k }
    requires small { (t : ℕ) → t < length classes.old → slice_index classes.old t < 1024 }
    ensures { Parted tuples.now k (T.tests tests.now tuples.now) (T.Of tests.now tuples.now k) (T.truth tests.now) (listed 0 classes.old) (listed result classes.new) }
{
    let mut count = number_entries(classes).unwrap();
    for test in 0..tests.count(tuples) {
        if tests.is_of(tuples, k, test) {
            count = part_once(tests, tuples, k, test, classes);
        }
    }
    count
}

/// Where the tuples of the cluster k stand.
fn places_of(tuples: &Tuples, k: usize) -> Range<usize>
    requires { k < count_of tuples.now }
    ensures starts { result.start ≡ tuples_before (sizes_of tuples.now) (clusters_of tuples.now) k }
    ensures ends { result.end ≡ tuples_before (sizes_of tuples.now) (clusters_of tuples.now) (k + 1) }
    ensures rises { result.start ≤ result.end }
    ensures inside { result.end ≤ 1024 }
    ensures wide { result.end - result.start ≡ width (sizes_of tuples.now) (clusters_of tuples.now) k }
{
    tuples.start(k)..tuples.start(k + 1)
}

impl Parts {
    /// Parts the classes of every cluster's tuples by its tests.
    pub(crate) fn part<T: Tests>(&mut self, tests: &T)
        ensures same { self.new.tuples ≡ self.old.tuples }
        ensures parted { (k : ℕ) → k < count_of self.old.tuples → Parted self.old.tuples k (T.tests tests.now self.old.tuples) (T.Of tests.now self.old.tuples k) (T.truth tests.now) (parts_of self.old k) (parts_of self.new k) }
    {
        // Kept: the number of a cluster says which tests it has, where its tuples stand and where their count goes.
        for k in 0..self.tuples.count() {
            let places = places_of(&self.tuples, k);
            self.counts[k] = part_cluster(tests, &self.tuples, k, &mut self.classes[places]);
        }
    }
}
