//! Why a column sheet is refused.
ghost use Rattle.std.specs.Prelude.{◌≡◌};
ghost use Rattle.columnsheet.specs.Refusals.{column_refusal};

use rules::refusal::Refusal;

/// Why a source has no column sheet.
#[derive(Clone, Copy, PartialEq, Eq, Debug)]
pub enum ColumnFault {
    /// The clusters have over 1,024 tuples in all.
    TooManyTuples,
}

/// The fault in figures.
impl From<ColumnFault> for Refusal {
    ghost from_gives = { λ fault r. r ≡ column_refusal fault };

    fn from(fault: ColumnFault) -> Refusal {
        match fault {
            ColumnFault::TooManyTuples => Refusal {
                number: 14,
                layer: 3,
                place: 0,
            },
        }
    }
}
