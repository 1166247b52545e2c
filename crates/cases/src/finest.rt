//! A sheet without a table, for the calls that take any sheet.
ghost use Rattle.std.specs.Prelude.{◌≡◌, ◌+◌};
ghost use Rattle.cases.specs.FinestClasses.{finest};

use sheets::sheet::{Sheet, SheetFault};

/// Up to 256 states, each in a class of its own, so that nothing is left to split. That there are no more follows from the range of a `u8`; no
/// invariant says so.
#[derive(Clone, Copy)]
pub struct Finest {
    /// The last state.
    pub last: u8,
}

impl Sheet for Finest {
    const MOST: usize = 256;

    ghost capacity = { 256 };

    ghost classes = { λ x. finest (x.last + 1) };

    ghost forms = { λ x _ _ d. d ≡ finest (x.last + 1) };

    fn capacity() -> usize {
        Self::MOST
    }

    fn states(&self) -> u16 {
        u16::from(self.last) + 1
    }

    fn count(&self) -> u16 {
        self.states()
    }

    fn class(&self, s: u16) -> Option<u16> {
        if s <= u16::from(self.last) {
            Some(s)
        } else {
            None
        }
    }

    fn split(&mut self, class: u16, marks: &[u8]) -> Result<(), SheetFault> {
        Err(SheetFault::BadMarks)
    }
}
