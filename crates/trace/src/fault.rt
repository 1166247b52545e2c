//! What a trace answers, and why it is refused.
ghost use Rattle.std.specs.Prelude.{◌≡◌};
ghost use Rattle.trace.specs.Refusals.{trace_refusal};
ghost use Rattle.trace.specs.declared.fault.TraceFault.TheVariants.{Area};

use rules::refusal::Refusal;
use search::area::AreaFault;

/// Where a trace of a suspect run ends.
#[derive(Clone, Copy, PartialEq, Eq, Debug)]
pub enum Traced {
    /// The rules have a run through the classes to a breaking state.
    Breaks,
    /// The trace fails at this place of the path, counted from 1.
    Spurious(u16),
}

/// Why a trace was refused.
#[derive(Clone, Copy, PartialEq, Eq, Debug)]
pub enum TraceFault {
    /// Source and sheet have different numbers of states.
    SizesDiffer,
    /// Path, marks or scratch is too short.
    Area(AreaFault),
    /// The first entries of the path are no breaking run of the class structure without repeats.
    NoSuspectRun,
}

/// The fault in figures.
impl From<TraceFault> for Refusal {
    ghost from_gives = { λ fault r. r ≡ trace_refusal fault };

    fn from(fault: TraceFault) -> Refusal {
        match fault {
            TraceFault::SizesDiffer => Refusal {
                number: 15,
                layer: 4,
                place: 0,
            },
            TraceFault::Area(fault) => Refusal::from(fault),
            TraceFault::NoSuspectRun => Refusal {
                number: 17,
                layer: 4,
                place: 0,
            },
        }
    }
}

impl From<AreaFault> for TraceFault {
    ghost from_gives = { λ fault r. r ≡ Area fault };

    fn from(fault: AreaFault) -> TraceFault {
        TraceFault::Area(fault)
    }
}
