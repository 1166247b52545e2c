//! What a columned source tells.
ghost use Rattle.std.specs.Prelude.{◌≡◌, ℕ, length};
ghost use Rattle.columns.specs.Columns.{Columns, Columned, width_at, value_at};

use rules::source::RuleSource;

/// The most variables that a source may tell of.
pub const MOST_VARIABLES: usize = 12;

/// A rule source that also tells its variables and its atoms, the comparisons that its rules make. Any number may be asked, and no question is
/// refused: of a number that is no state, no variable or no atom the answers are absence and no.
pub trait ColumnedSource: RuleSource {
    /// The variables and the atoms that the source tells of.
    ghost columns: { Self → Columns };

    /// How many variables there are.
    // Kept: that the columns fit the rules is a clause, since a law of the trait would ask it of values that no code can hold, in which a `u8` is any
    // number.
    fn variables(&self) -> u16
        ensures tells { result ≡ length (columns self.now).sizes }
        ensures columned { Columned (Self.RuleSource.rules self.now) (columns self.now) };

    /// How many values a variable has.
    fn width(&self, v: u16) -> Option<u16>
        ensures { result ≡ width_at (columns self.now) v };

    /// The value of a variable in a state.
    fn value(&self, s: u16, v: u16) -> Option<u16>
        ensures { result ≡ value_at (columns self.now) s v };

    /// How many atoms there are.
    fn atoms(&self) -> u16
        ensures { result ≡ (columns self.now).atoms };

    /// Whether an atom is true in a state.
    fn holds(&self, atom: u16, s: u16) -> bool
        ensures { result ≡ (columns self.now).truth s atom };

    /// Whether an atom reads a variable.
    fn reads(&self, atom: u16, v: u16) -> bool
        ensures { result ≡ (columns self.now).reads atom v };
}
