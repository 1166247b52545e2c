//! Why a call of a check is refused.
ghost use Rattle.std.specs.Prelude.{◌≡◌};
ghost use Rattle.checking.specs.Refusals.{check_refusal};
ghost use Rattle.checking.specs.declared.fault.CheckFault.TheVariants.{Area, Trace, Sheet};

use rules::refusal::Refusal;
use search::area::AreaFault;
use sheets::sheet::SheetFault;
use trace::fault::TraceFault;

/// Why a call was refused: a reason of its own, or the fault of a lower layer as that layer told it.
#[derive(Clone, Copy, PartialEq, Eq, Debug)]
pub enum CheckFault {
    /// The source, the sheet and the check do not all have the same number of states.
    SizesDiffer,
    /// Path, marks or scratch is too short.
    Area(AreaFault),
    /// The trace was refused.
    Trace(TraceFault),
    /// The sheet refused to be split.
    Sheet(SheetFault),
}

/// The fault in figures.
impl From<CheckFault> for Refusal {
    ghost from_gives = { λ fault r. r ≡ check_refusal fault };

    fn from(fault: CheckFault) -> Refusal {
        match fault {
            CheckFault::SizesDiffer => Refusal {
                number: 15,
                layer: 4,
                place: 0,
            },
            CheckFault::Area(fault) => Refusal::from(fault),
            CheckFault::Trace(fault) => Refusal::from(fault),
            CheckFault::Sheet(fault) => Refusal::from(fault),
        }
    }
}

impl From<AreaFault> for CheckFault {
    ghost from_gives = { λ fault r. r ≡ Area fault };

    fn from(fault: AreaFault) -> CheckFault {
        CheckFault::Area(fault)
    }
}

impl From<TraceFault> for CheckFault {
    ghost from_gives = { λ fault r. r ≡ Trace fault };

    fn from(fault: TraceFault) -> CheckFault {
        CheckFault::Trace(fault)
    }
}

impl From<SheetFault> for CheckFault {
    ghost from_gives = { λ fault r. r ≡ Sheet fault };

    fn from(fault: SheetFault) -> CheckFault {
        CheckFault::Sheet(fault)
    }
}

/// A refused call gives the check back, in the stage that it had.
#[derive(Drop)]
pub struct Back<C> {
    pub fault: CheckFault,
    pub check: C,
}

impl<C: Drop> From<Back<C>> for CheckFault {
    ghost from_gives = { λ back r. r ≡ back.fault };

    fn from(back: Back<C>) -> CheckFault {
        back.fault
    }
}
