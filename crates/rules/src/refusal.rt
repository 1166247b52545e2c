//! What a refused call hands back.
ghost use Rattle.std.specs.Prelude.{◌≡◌};
ghost use Rattle.rules.specs.Refusals.{list_refusal};

use std::fmt;

/// A refusal in figures: the number of the rule that was broken, the layer that refused, and the place.
#[derive(Clone, Copy, PartialEq, Eq, Debug)]
pub struct Refusal {
    pub number: u8,
    pub layer: u8,
    pub place: usize,
}

/// Why a transition list was refused.
#[derive(Clone, Copy, PartialEq, Eq, Debug)]
pub enum ListFault {
    /// There is no state or there are over 4,096, the flags are not one byte a state, or a flag exceeds 3.
    BadList,
    /// The transition at this position, counted from 0, has an end that is no state.
    BadTransition(usize),
}

/// The fault in figures.
impl From<ListFault> for Refusal {
    ghost from_gives = { λ fault r. r ≡ list_refusal fault };

    fn from(fault: ListFault) -> Refusal {
        match fault {
            ListFault::BadList => Refusal {
                number: 12,
                layer: 3,
                place: 0,
            },
            ListFault::BadTransition(i) => Refusal {
                number: 13,
                layer: 3,
                place: i,
            },
        }
    }
}

/// A refusal in words, as programs print it.
impl fmt::Display for Refusal {
    ghost use Rattle.std.specs.Prelude.{Some};
    ghost use Rattle.rules.specs.Refusals.{refusal_text};

    ghost output = { λ refusal. Some (refusal_text refusal) };

    fn fmt<W: fmt::Write>(&self, f: &mut fmt::Formatter<W>) -> fmt::Result {
        let Refusal {
            number,
            layer,
            place,
        } = *self;
        write!(f, "refused {number} layer {layer} line {place}")
    }
}
