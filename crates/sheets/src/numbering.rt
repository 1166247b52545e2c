//! Class numbers in the order of the lowest members.
ghost use Rattle.std.specs.Prelude.{length, Decides};
ghost use Rattle.sheets.specs.Numbering.{Numberable, NumberGives, Renumbered};

use crate::slot::Slot;
use rules::list::MOST_STATES;

/// Whether a table has at most 4,096 entries, each below 4,096.
fn is_numberable(table: &[u16]) -> bool
    ensures { Decides result (Numberable table.now) }
{
    table.len() <= MOST_STATES && table.iter().all(|x| usize::from(*x) < MOST_STATES)
}

/// Numbers the entries of a table in the order of their first places, and returns how many numbers there are.
pub(crate) fn renumber(table: &mut [u16]) -> u16
    requires { Numberable table.old }
    ensures { Renumbered (length table.old) table.old table.new result }
{
    let none = Slot::empty();
    let mut numbers = [none; MOST_STATES];
    let mut count = 0;
    for x in table.iter_mut() {
        let number = numbers[usize::from(*x)].get_or_insert(count);
        if number == count {
            count += 1;
        }
        *x = number;
    }
    count
}

/// Numbers the entries of a table in the order of their first places, and returns how many numbers there are. A table with over 4,096
/// entries, or with an entry over 4,095, is left as it is, and the answer is absence.
pub fn number_entries(table: &mut [u16]) -> Option<u16>
    ensures { NumberGives table.old result table.new }
{
    if is_numberable(table) {
        Some(renumber(table))
    } else {
        None
    }
}
