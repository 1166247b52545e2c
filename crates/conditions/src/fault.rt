//! Why no condition was read.
ghost use Rattle.std.specs.Prelude.{◌≡◌};
ghost use Rattle.conditions.specs.declared.fault.ConditionFault.TheVariants.{Word, Memory};

use std::alloc::{AllocError, AllocFailed};
use words::fault::WordFault;

#[derive(Clone, Copy, PartialEq, Eq, Debug)]
pub enum ConditionFault {
    /// The line lacks the form of a condition.
    Word(WordFault),
    /// There was no memory for the tree.
    Memory,
}

impl From<WordFault> for ConditionFault {
    ghost from_gives = { λ e r. r ≡ Word e };

    fn from(e: WordFault) -> ConditionFault {
        ConditionFault::Word(e)
    }
}

impl From<AllocError> for ConditionFault {
    ghost from_gives = { λ _ r. r ≡ Memory };

    fn from(_e: AllocError) -> ConditionFault {
        ConditionFault::Memory
    }
}

impl<T: Drop> From<AllocFailed<T>> for ConditionFault {
    ghost from_gives = { λ _ r. r ≡ Memory };

    fn from(_e: AllocFailed<T>) -> ConditionFault {
        ConditionFault::Memory
    }
}
