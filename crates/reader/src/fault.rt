//! What a rule text is refused for.
ghost use Rattle.std.specs.Prelude.{◌≡◌};
ghost use Rattle.reader.specs.Faults.{read_refusal, from_condition};
ghost use Rattle.reader.specs.declared.fault.ReadFault.TheVariants.{Word, Memory};

use conditions::fault::ConditionFault;
use rules::refusal::Refusal;
use std::alloc::{AllocError, AllocFailed};
use words::fault::WordFault;

/// A fault of a rule text, or want of memory. A number is that of the line, from 1.
#[derive(Clone, Copy, PartialEq, Eq, Debug)]
pub enum ReadFault {
    /// A fault of the text as lines and words.
    Word(WordFault),
    /// On this line a count or a size is outside its limits, or the number of blocks is not that of the variables.
    Limit(usize),
    /// On this line a name is declared a second time.
    Twice(usize),
    /// On this line a name is undeclared, or a block has the name of another variable than its own.
    Undeclared(usize),
    /// On this line a start value or a result that is a number is not below the size, or the start values do not rise.
    Value(usize),
    /// On this line a result names a variable that is larger than the one being set.
    Larger(usize),
    /// With the variable of this line the product of the sizes passes 4,096.
    Product(usize),
    /// There was no memory for what the text says.
    Memory,
}

impl From<WordFault> for ReadFault {
    ghost from_gives = { λ e r. r ≡ Word e };

    fn from(e: WordFault) -> ReadFault {
        ReadFault::Word(e)
    }
}

impl From<ConditionFault> for ReadFault {
    ghost from_gives = { λ e r. r ≡ from_condition e };

    fn from(e: ConditionFault) -> ReadFault {
        match e {
            ConditionFault::Word(fault) => ReadFault::Word(fault),
            ConditionFault::Memory => ReadFault::Memory,
        }
    }
}

impl From<AllocError> for ReadFault {
    ghost from_gives = { λ _ r. r ≡ Memory };

    fn from(_e: AllocError) -> ReadFault {
        ReadFault::Memory
    }
}

impl<T: Drop> From<AllocFailed<T>> for ReadFault {
    ghost from_gives = { λ _ r. r ≡ Memory };

    fn from(_e: AllocFailed<T>) -> ReadFault {
        ReadFault::Memory
    }
}

/// The fault in figures.
impl From<ReadFault> for Refusal {
    ghost from_gives = { λ fault r. r ≡ read_refusal fault };

    fn from(fault: ReadFault) -> Refusal {
        match fault {
            ReadFault::Word(fault) => Refusal::from(fault),
            ReadFault::Limit(line) => Refusal {
                number: 5,
                layer: 2,
                place: line,
            },
            ReadFault::Twice(line) => Refusal {
                number: 6,
                layer: 2,
                place: line,
            },
            ReadFault::Undeclared(line) => Refusal {
                number: 7,
                layer: 2,
                place: line,
            },
            ReadFault::Value(line) => Refusal {
                number: 8,
                layer: 2,
                place: line,
            },
            ReadFault::Larger(line) => Refusal {
                number: 9,
                layer: 2,
                place: line,
            },
            ReadFault::Product(line) => Refusal {
                number: 10,
                layer: 2,
                place: line,
            },
            ReadFault::Memory => Refusal {
                number: 20,
                layer: 2,
                place: 0,
            },
        }
    }
}
