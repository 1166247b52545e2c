//! The labels of the variables: those that a chain of atoms links get one label.
ghost use Rattle.std.specs.Prelude.{◌≡◌, ℕ, ◌<◌, ◌≤◌, true, false, map, length, slice_index, MatchOption};
ghost use Rattle.sheets.specs.Numbering.{Renumbered};
ghost use Rattle.clusters.specs.Labels.{relabelled, Labelled, Coarser, OneLabel};

use columns::source::{ColumnedSource, MOST_VARIABLES};
use sheets::numbering::number_entries;

/// Gives all variables with the label `from` the label `to`.
fn merge(labels: &mut [u16], from: u16, to: u16)
    ensures { labels.new ≡ map (relabelled from to) labels.old }
{
    for label in labels.iter_mut() {
        if *label == from {
            *label = to;
        }
    }
}

/// The first of the first `n` variables that the atom reads.
fn first_read<C: ColumnedSource>(source: &C, atom: u16, n: u16) -> Option<u16>
    ensures { let reads = (C.columns source.now).reads atom in MatchOption result ((v : ℕ) → v < n → reads v ≡ false) (λ v. (v < n) × (reads v ≡ true) × ((w : ℕ) → w < v → reads w ≡ false)) }
{
    (0..n).find(|&v| source.reads(atom, v))
}

/// Gives the variables that the atom reads one label.
fn link_atom<C: ColumnedSource>(source: &C, atom: u16, n: u16, labels: &mut [u16])
    requires few { n ≤ MOST_VARIABLES }
    requires labelled { Labelled (C.columns source.now).reads labels.old }
    ensures labelled { Labelled (C.columns source.now).reads labels.new }
    ensures coarser { Coarser labels.old labels.new }
    ensures one { OneLabel ((C.columns source.now).reads atom) n labels.new }
{
    let Some(first) = first_read(source, atom, n) else {
        return;
    };
    // Kept: a merge writes to all labels, so that no iterator over them lasts from one variable to the next.
    for v in first + 1..n {
        if source.reads(atom, v) {
            let from = labels[usize::from(v)];
            let to = labels[usize::from(first)];
            merge(labels, from, to);
        }
    }
}

/// For each atom, gives the variables that it reads one label.
pub(crate) fn link_all<C: ColumnedSource>(source: &C, n: u16, labels: &mut [u16])
    requires few { n ≤ MOST_VARIABLES }
    requires labelled { Labelled (C.columns source.now).reads labels.old }
    ensures labelled { Labelled (C.columns source.now).reads labels.new }
    ensures one { (a : ℕ) → a < (C.columns source.now).atoms → OneLabel ((C.columns source.now).reads a) n labels.new }
{
    for atom in 0..source.atoms() {
        link_atom(source, atom, n, labels);
    }
}

/// Numbers the labels by first variable, and returns how many they are.
pub(crate) fn renumber(labels: &mut [u16], n: usize) -> usize
    requires room { n ≤ length labels.old }
    requires few { n ≤ MOST_VARIABLES }
    requires small { (v : ℕ) → v < n → slice_index labels.old v < MOST_VARIABLES }
    ensures { Renumbered n labels.old labels.new result }
{
    usize::from(number_entries(&mut labels[..n]).unwrap())
}
