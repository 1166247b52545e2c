//! Whether marks split a class.
ghost use Rattle.std.specs.Prelude.{◌≡◌, ℕ, ◌<◌, ◌≤◌, ◌≢◌, length, Decides, slice_index};
ghost use Rattle.sheets.specs.Splits.{Splittable};
ghost use Rattle.sheets.specs.Tables.{listed};

/// The mark of a dead state.
pub const DEAD: u8 = 1;

/// The mark of a bad state.
pub const BAD: u8 = 2;

/// Whether only members of the class are marked, as dead or as bad.
fn marks_members(classes: &[u16], class: u16, marks: &[u8]) -> bool
    ensures { Decides result ((s : ℕ) → s < length classes.now → s < length marks.now → (slice_index marks.now s ≤ 2) × (slice_index marks.now s ≢ 0 → slice_index classes.now s ≡ class)) }
{
    classes.iter().zip(marks).all(|(k, mark)| match *mark {
        0 => true,
        DEAD | BAD => *k == class,
        _ => false,
    })
}

/// Whether the marks, one a state, split a class of a partition, given by the class number of each state: only members of the class are
/// marked, some as dead and some as bad.
pub fn is_splittable(classes: &[u16], count: u16, class: u16, marks: &[u8]) -> bool
    ensures { Decides result (Splittable (listed count classes.now) class marks.now) }
{
    let Some(marks) = marks.get(..classes.len()) else {
        return false;
    };
    class < count
        && marks_members(classes, class, marks)
        && marks.contains(&DEAD)
        && marks.contains(&BAD)
}
