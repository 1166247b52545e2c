//! What a text is refused for before anything in it is looked up.
ghost use Rattle.std.specs.Prelude.{◌≡◌};
ghost use Rattle.words.specs.Faults.{word_refusal};

use rules::refusal::Refusal;

/// A fault of a text as lines and words. A number is that of the line, from 1.
#[derive(Clone, Copy, PartialEq, Eq, Debug)]
pub enum WordFault {
    /// The text is empty, over 8,192 bytes, does not end its last line, or has a byte that is neither the end of a line nor printable.
    Text,
    /// This line is missing.
    Missing(usize),
    /// This line is empty, over 120 bytes, or has a space first, last or behind another.
    Spacing(usize),
    /// This line lacks the form of its place.
    Form(usize),
    /// This line follows the last one.
    Trailing(usize),
}

/// The fault in figures.
impl From<WordFault> for Refusal {
    ghost from_gives = { λ fault r. r ≡ word_refusal fault };

    fn from(fault: WordFault) -> Refusal {
        match fault {
            WordFault::Text => Refusal {
                number: 1,
                layer: 1,
                place: 0,
            },
            WordFault::Missing(line) => Refusal {
                number: 2,
                layer: 1,
                place: line,
            },
            WordFault::Spacing(line) => Refusal {
                number: 3,
                layer: 1,
                place: line,
            },
            WordFault::Form(line) => Refusal {
                number: 4,
                layer: 1,
                place: line,
            },
            WordFault::Trailing(line) => Refusal {
                number: 11,
                layer: 1,
                place: line,
            },
        }
    }
}
