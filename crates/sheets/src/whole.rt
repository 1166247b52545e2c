//! The whole-state sheet: one table entry a state.
ghost use Rattle.std.specs.Prelude.{◌≡◌, ℕ, ◌<◌, ◌≤◌, true, List, length, take, nat_eq, slice_index};
ghost use Rattle.sheets.specs.Numbering.{Moved, MovedAnew, Numberable, bit};
ghost use Rattle.sheets.specs.Structure.{any};
ghost use Rattle.sheets.specs.Tables.{table_classes};
ghost use Rattle.sheets.specs.Whole.{FirstWhole, WholeSplit};

use crate::numbering::renumber;
use crate::sheet::{Sheet, SheetFault};
use crate::splitting::{BAD, is_splittable};
use rules::list::MOST_STATES;
use rules::source::RuleSource;

/// A class number for each state. Classes are numbered by lowest member, and a split moves the bad states to a class of their own.
#[derive(Drop)]
pub struct WholeSheet {
    /// The class of each state, in the first entries.
    // Kept: no heap is used, so the table is as long as the most states.
    table: [u16; MOST_STATES],
    states: u16,
    count: u16,
    ghost full: { length table ≡ 4096 },
    ghost held: { states ≤ 4096 },
    // Class numbers are below the count, and each number below it occurs.
    ghost below: { (s : ℕ) → s < states → slice_index table s < count },
    ghost occurs: { (k : ℕ) → k < count → any states (λ s. nat_eq (slice_index table s) k) ≡ true },
}

/// Moves the bad states to the class `to`.
fn move_bad(table: &mut [u16], to: u16, marks: &[u8])
    requires { length table.old ≤ length marks.now }
    ensures { Moved to (length table.old) marks.now table.old table.new }
{
    // Kept: the marks are indexed, since after `iter_mut().zip(marks)` no proof knows what the loop wrote.
    for (s, class) in table.iter_mut().enumerate() {
        if marks[s] == BAD {
            *class = to;
        }
    }
}

/// Moves the bad ones of the first `n` states to the class `to`, numbers the classes anew, and returns how many there are. It takes the whole
/// table, since a part of a field cannot be lent by `&mut`.
fn part_bad(table: &mut [u16], n: usize, to: u16, marks: &[u8]) -> u16
    requires room { n ≤ length table.old }
    requires long { n ≤ length marks.now }
    requires numberable { (moved : List ℕ) → length moved ≡ n → Moved to n marks.now (take n table.old) moved → Numberable moved }
    ensures { MovedAnew to n marks.now (take n table.old) table.new result }
{
    let used = &mut table[..n];
    move_bad(used, to, marks);
    renumber(used)
}

/// Writes 1 for each state that breaks, and 0 for each other.
fn part_breaking<R: RuleSource>(source: &R, table: &mut [u16])
    requires { length table.old ≤ 4096 }
    ensures { (s : ℕ) → s < length table.old → slice_index table.new s ≡ bit ((R.rules source.now).breaks s) }
{
    for (s, class) in table.iter_mut().enumerate() {
        *class = u16::from(source.breaks(s as u16));
    }
}

impl WholeSheet {
    /// The breaking states as one class and the others as another, if both occur.
    pub fn new<R: RuleSource>(source: &R) -> Self
        ensures { FirstWhole (R.rules source.now) (table_classes result.count result.states result.table) }
    {
        let states = source.size();
        let mut table = [0; MOST_STATES];
        let used = &mut table[..usize::from(states)];
        part_breaking(source, used);
        let count = renumber(used);
        WholeSheet {
            table,
            states,
            count,
        }
    }
}

impl Sheet for WholeSheet {
    const MOST: usize = MOST_STATES;

    ghost capacity = { 4096 };

    ghost classes = { λ x. table_classes x.count x.states x.table };

    ghost forms = { λ x _ marks d. WholeSplit (table_classes x.count x.states x.table) marks d };

    fn capacity() -> usize {
        Self::MOST
    }

    fn states(&self) -> u16 {
        self.states
    }

    fn count(&self) -> u16 {
        self.count
    }

    fn class(&self, s: u16) -> Option<u16> {
        self.table[..usize::from(self.states)]
            .get(usize::from(s))
            .copied()
    }

    fn split(&mut self, class: u16, marks: &[u8]) -> Result<(), SheetFault> {
        let n = usize::from(self.states);
        if !is_splittable(&self.table[..n], self.count, class, marks) {
            return Err(SheetFault::BadMarks);
        }
        self.count = part_bad(&mut self.table, n, self.count, marks);
        Ok(())
    }
}
