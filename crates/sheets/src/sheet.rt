//! What a sheet tells, and how it is split.
ghost use Rattle.std.specs.Prelude.{◌≡◌, ℕ, ◌≤◌, List, OnOk};
ghost use Rattle.sheets.specs.Classes.{Classes, Lawful, states, class_at};
ghost use Rattle.sheets.specs.Refusals.{sheet_refusal};
ghost use Rattle.sheets.specs.Splits.{SplitGives};

use rules::refusal::Refusal;

/// Why a split was refused.
#[derive(Clone, Copy, PartialEq, Eq, Debug)]
pub enum SheetFault {
    /// The class is no class, there are fewer marks than states, a mark exceeds 2 or lies outside the class, or no state is dead or none bad.
    BadMarks,
}

/// The fault in figures.
impl From<SheetFault> for Refusal {
    ghost from_gives = { λ fault r. r ≡ sheet_refusal fault };

    fn from(fault: SheetFault) -> Refusal {
        match fault {
            SheetFault::BadMarks => Refusal {
                number: 18,
                layer: 3,
                place: 0,
            },
        }
    }
}

/// A partition of the states of some rules into numbered classes. No question is refused.
pub trait Sheet {
    /// The most states that a sheet of this kind holds; it bounds the fixed table inside.
    const MOST: usize;

    /// `MOST`, as clauses have it.
    ghost capacity: { ℕ };

    /// The partition.
    ghost classes: { Self → Classes };

    /// What this kind makes of an accepted split: the sheet before, the class, the marks, and the partition afterwards.
    ghost forms: { Self → ℕ → List ℕ → Classes → Type 0 };

    /// `MOST`, for code over any sheet.
    fn capacity() -> usize
        ensures { result ≡ capacity };

    /// How many states there are.
    // Kept: what holds of the partition is a clause, since a law of the trait would ask it of values that no code can hold, in which a `u8` is any
    // number.
    fn states(&self) -> u16
        ensures tells { result ≡ states (classes self.now) }
        ensures lawful { Lawful (classes self.now) }
        ensures held { states (classes self.now) ≤ capacity };

    /// How many classes there are.
    fn count(&self) -> u16
        ensures { result ≡ (classes self.now).count };

    /// The class of a number, or absence if it is no state.
    fn class(&self, s: u16) -> Option<u16>
        ensures { result ≡ class_at (classes self.now) s };

    /// Splits a class by one mark a state: 1 dead, 2 bad, 0 neither.
    fn split(&mut self, class: u16, marks: &[u8]) -> Result<(), SheetFault>
        ensures gives { SplitGives (classes self.old) class marks.now result (classes self.new) }
        ensures formed { OnOk result (forms self.old class marks.now (classes self.new)) };
}
