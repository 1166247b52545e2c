//! A rule source that is neither a list nor a text, for the calls that take any source.
ghost use Rattle.cases.specs.Ladders.{ladder};

use rules::source::RuleSource;

/// A climb from rung 0 to the top, where it breaks. That there are at most 4,096 rungs follows from the range of a `u8`; no invariant says so.
#[derive(Clone, Copy)]
pub struct Ladder {
    /// The highest rung.
    pub top: u8,
}

impl RuleSource for Ladder {
    ghost rules = { λ x. ladder x.top };

    fn size(&self) -> u16 {
        u16::from(self.top) + 1
    }

    fn starts(&self, s: u16) -> bool {
        s == 0
    }

    fn breaks(&self, s: u16) -> bool {
        s == u16::from(self.top)
    }

    fn next(&self, s: u16, from: u16) -> Option<u16> {
        if s < u16::from(self.top) && from <= s + 1 {
            Some(s + 1)
        } else {
            None
        }
    }
}
