//! How the tables are made.
ghost use Rattle.std.specs.Prelude.{◌≡◌, ℕ, ◌<◌, ◌≤◌, length, take, None, slice_index, slice_index_or};
ghost use Rattle.sheets.specs.Classes.{states, class};
ghost use Rattle.sheets.specs.Links.{Linked};
ghost use Rattle.sheets.specs.Members.{partition, held};
ghost use Rattle.sheets.specs.Slots.{content, no_number};
ghost use Rattle.sheets.specs.Tables.{table_classes};

use super::Members;
use crate::sheet::Sheet;
use crate::slot::Slot;
use rules::list::MOST_STATES;

/// Copies the classes of the first `n` states.
fn copy_classes<S: Sheet>(sheet: &S, n: u16, table: &mut [u16])
    requires room { n ≤ length table.old }
    requires known { n ≤ states (S.classes sheet.now) }
    ensures { take n table.new ≡ take n (S.classes sheet.now).of }
{
    for s in 0..n {
        table[s as usize] = sheet.class(s).unwrap();
    }
}

/// Links the members of each class, from the highest state down, so that each list rises. At first every list is empty.
fn link(table: &[u16], n: u16, first: &mut [Slot], after: &mut [Slot])
    requires room { n ≤ length table.now }
    requires long { n ≤ length after.old }
    requires below { (s : ℕ) → s < n → slice_index table.now s < length first.old }
    requires few { n ≤ 4096 }
    requires none { (k : ℕ) → k < length first.old → content (slice_index_or first.old k no_number) ≡ None }
    ensures { Linked (take n table.now) 0 first.new after.new }
{
    for s in (0..n).rev() {
        let class = table[s as usize] as usize;
        after[s as usize] = first[class].replace(s);
    }
}

/// The tables of the first `n` states, which have the first `count` classes.
fn tables<S: Sheet>(sheet: &S, n: u16, count: u16) -> Members
    requires known { n ≤ states (S.classes sheet.now) }
    requires room { n ≤ 4096 }
    requires few { count ≤ n }
    requires below { (s : ℕ) → s < n → class (S.classes sheet.now) s < count }
    ensures { partition result ≡ table_classes count n (S.classes sheet.now).of }
{
    let mut table = [0; MOST_STATES];
    copy_classes(sheet, n, &mut table);
    let none = Slot::empty();
    let mut first = [none; MOST_STATES];
    let mut after = [none; MOST_STATES];
    link(&table, n, &mut first, &mut after);
    Members {
        states: n,
        count,
        table,
        first,
        after,
    }
}

impl Members {
    /// The members of each class of a sheet. A sheet with over 4,096 states, for which the tables have no room, is taken for one without
    /// states.
    pub fn new<S: Sheet>(sheet: &S) -> Self
        ensures { partition result ≡ held (S.classes sheet.now) }
    {
        let n = sheet.states();
        if n as usize <= MOST_STATES {
            tables(sheet, n, sheet.count())
        } else {
            tables(sheet, 0, 0)
        }
    }
}
