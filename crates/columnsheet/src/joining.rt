//! The classes of states, made of the classes of their tuples.
ghost use Rattle.std.specs.Prelude.{◌≡◌, ℕ, ◌<◌, ◌≤◌, length, slice_index};
ghost use Rattle.columns.specs.Columns.{product};
ghost use Rattle.sheets.specs.Classes.{class};
ghost use Rattle.tuples.specs.Meaning.{sizes_of, clusters_of, count_of};
ghost use Rattle.tuples.specs.Tuples.{width};
ghost use Rattle.columnsheet.specs.Kept.{parts_of, class_number, class_count};

use crate::parts::Parts;

impl Parts {
    /// The class of the tuple t of the cluster k.
    fn class(&self, k: usize, t: u16) -> u16
        requires cluster { k < count_of self.now.tuples }
        requires tuple { t < width (sizes_of self.now.tuples) (clusters_of self.now.tuples) k }
        ensures { result ≡ class (parts_of self.now k) t }
    {
        self.classes[self.tuples.start(k) + usize::from(t)]
    }

    /// The class number of a state: its cluster classes put together, over the class counts.
    fn number_of(&self, s: u16) -> u16
        requires { s < product (sizes_of self.now.tuples) }
        ensures { result ≡ class_number self.now s }
    {
        let own = self.tuples.of(s);
        let mut number = 0;
        for (k, count) in self.counts[..self.tuples.count()].iter().enumerate() {
            number = number * count + self.class(k, own[k]);
        }
        number
    }

    /// Writes the class number of each state.
    pub(crate) fn fill_table(&self, table: &mut [u16])
        requires room { product (sizes_of self.now.tuples) ≤ length table.old }
        ensures { (s : ℕ) → s < product (sizes_of self.now.tuples) → slice_index table.new s ≡ class_number self.now s }
    {
        let states = usize::from(self.tuples.states());
        for (s, class) in table[..states].iter_mut().enumerate() {
            *class = self.number_of(s as u16);
        }
    }

    /// How many classes of states there are: the product of the clusters' class counts.
    pub(crate) fn count_classes(&self) -> u16
        ensures { result ≡ class_count self.now }
    {
        self.counts[..self.tuples.count()].iter().product()
    }
}
