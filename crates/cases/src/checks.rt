//! The calls of a check, one by one and as a whole.
ghost use Rattle.checking.specs.Settling.{SettleGives};

use crate::finest::Finest;
use crate::ladder::Ladder;
use checking::calls::{begin, report, search, split, trace};
use checking::fault::CheckFault;
use checking::settle::settle;
use checking::stage::{Followed, Report, Searched, Spurious, Suspect, Verdict};
use rules::list::TransitionList;
use rules::refusal::Refusal;
use rules::source::RuleSource;
use rules::transition::Transition;
use search::area::AreaFault;
use sheets::sheet::{Sheet, SheetFault};
use sheets::whole::WholeSheet;
use std::test::Fail;
use trace::area::Areas;
use trace::fault::TraceFault;

/// The steps of x of size 4 that becomes x + 2, from 0, and breaks at 3.
const STEPS: [Transition; 4] = [
    Transition { from: 0, to: 2 },
    Transition { from: 1, to: 3 },
    Transition { from: 2, to: 0 },
    Transition { from: 3, to: 1 },
];

const FLAGS: [u8; 4] = [1, 0, 0, 2];

/// The areas that are lent to a call.
fn lend<'a>(path: &'a mut [u16], marks: &'a mut [u8], scratch: &'a mut [u16]) -> Areas<'a> {
    Areas {
        path,
        marks,
        scratch,
    }
}

/// Settles in three areas that are the caller's own. What `settle` says of the areas that it was lent is so said of these.
fn settle_in<R: RuleSource, S: Sheet>(
    source: &R,
    sheet: &mut S,
    path: &mut [u16],
    marks: &mut [u8],
    scratch: &mut [u16],
) -> Result<Report, CheckFault>
    ensures { SettleGives (R.rules source.now) (S.classes sheet.old) path.old marks.old scratch.old result (S.classes sheet.new) path.new marks.new scratch.new }
{
    settle(
        source,
        sheet,
        &mut Areas {
            path,
            marks,
            scratch,
        },
    )
}

/// A check of x that stands at its first suspect run.
fn suspected(
    list: &TransitionList,
    sheet: &WholeSheet,
    lent: &mut Areas<'_>,
) -> Result<Suspect, Fail> {
    match search(begin(sheet), list, sheet, lent) {
        Ok(Searched::Suspect(suspect)) => Ok(suspect),
        Ok(Searched::Holds(_)) => Err(Fail::new("no suspect run")),
        Err(_) => Err(Fail::new("the search was refused")),
    }
}

/// A check of x whose first suspect run was traced and is none of the rules.
fn spurious(
    list: &TransitionList,
    sheet: &WholeSheet,
    lent: &mut Areas<'_>,
) -> Result<Spurious, Fail> {
    let suspect = suspected(list, sheet, lent)?;
    match trace(suspect, list, sheet, lent) {
        Ok(Followed::Spurious(spurious)) => Ok(spurious),
        Ok(Followed::Breaks(_)) => Err(Fail::new("a run was found")),
        Err(_) => Err(Fail::new("the trace was refused")),
    }
}

#[test]
fn a_check_that_holds_after_one_split(rt: HostRuntime) -> Result<(), Fail> {
    let list = TransitionList::new(4, &FLAGS, &STEPS)?;
    let mut sheet = WholeSheet::new(&list);
    assert_eq!(rt; sheet.count(), 2);
    let mut path = [9; 4];
    let mut marks = [9; 4];
    let mut scratch = [9; 8];
    let spurious = spurious(
        &list,
        &sheet,
        &mut lend(&mut path, &mut marks, &mut scratch),
    )?;
    assert_eq!(rt; path, [0, 1, 0, 0]);
    assert_eq!(rt; marks, [1, 2, 0, 0], "0 is dead, 1 is bad");
    assert_eq!(rt; scratch, [0; 8]);
    let Ok(open) = split(
        spurious,
        &mut sheet,
        &mut lend(&mut path, &mut marks, &mut scratch),
    ) else {
        return Err(Fail::new("the split was refused"));
    };
    assert_eq!(rt; path, [0; 4]);
    assert_eq!(rt; marks, [0; 4]);
    assert_eq!(rt; sheet.class(1), Some(1));
    assert_eq!(rt; sheet.class(2), Some(0));
    assert_eq!(rt; sheet.class(3), Some(2));
    let said = match search(
        open,
        &list,
        &sheet,
        &mut lend(&mut path, &mut marks, &mut scratch),
    ) {
        Ok(Searched::Holds(done)) => report(done),
        Ok(Searched::Suspect(_)) => return Err(Fail::new("a suspect run")),
        Err(_) => return Err(Fail::new("the search was refused")),
    };
    let expected = Report {
        verdict: Verdict::Holds,
        splits: 1,
        first: 2,
        last: 3,
        length: 0,
    };
    assert_eq!(rt; said, expected);
    Ok(())
}

#[test]
fn a_whole_check_that_breaks_keeps_the_rest_of_its_areas(rt: HostRuntime) -> Result<(), Fail> {
    let steps = [Transition { from: 0, to: 1 }, Transition { from: 1, to: 2 }];
    let list = TransitionList::new(3, &[1, 0, 2], &steps)?;
    let mut sheet = WholeSheet::new(&list);
    let mut path = [7; 4];
    let mut marks = [7; 4];
    let mut scratch = [7; 7];
    let expected = Report {
        verdict: Verdict::Breaks,
        splits: 1,
        first: 2,
        last: 3,
        length: 3,
    };
    assert_eq!(rt;
        settle_in(&list, &mut sheet, &mut path, &mut marks, &mut scratch),
        Ok(expected)
    );
    assert_eq!(rt; path, [0, 1, 2, 7]);
    assert_eq!(rt; marks, [0, 0, 0, 7]);
    assert_eq!(rt; scratch, [0, 0, 0, 0, 0, 0, 7]);
    Ok(())
}

#[test]
fn a_ladder_is_climbed_to_its_top(rt: HostRuntime) {
    let ladder = Ladder { top: 3 };
    let mut sheet = WholeSheet::new(&ladder);
    let mut path = [9; 4];
    let mut marks = [9; 4];
    let mut scratch = [9; 8];
    let expected = Report {
        verdict: Verdict::Breaks,
        splits: 2,
        first: 2,
        last: 4,
        length: 4,
    };
    assert_eq!(rt;
        settle_in(&ladder, &mut sheet, &mut path, &mut marks, &mut scratch),
        Ok(expected)
    );
    assert_eq!(rt; path, [0, 1, 2, 3]);
}

#[test]
fn the_finest_sheet_needs_no_split(rt: HostRuntime) {
    let ladder = Ladder { top: 3 };
    let mut sheet = Finest { last: 3 };
    let mut path = [9; 4];
    let mut marks = [9; 4];
    let mut scratch = [9; 8];
    let expected = Report {
        verdict: Verdict::Breaks,
        splits: 0,
        first: 4,
        last: 4,
        length: 4,
    };
    assert_eq!(rt;
        settle_in(&ladder, &mut sheet, &mut path, &mut marks, &mut scratch),
        Ok(expected)
    );
    assert_eq!(rt; path, [0, 1, 2, 3]);
    assert_eq!(rt; sheet.split(0, &[1, 2, 0, 0]), Err(SheetFault::BadMarks));
}

#[test]
fn the_highest_ladder_has_256_rungs(rt: HostRuntime) {
    let ladder = Ladder { top: 255 };
    assert_eq!(rt; ladder.size(), 256);
    assert_eq!(rt; ladder.next(254, 0), Some(255));
    assert_eq!(rt; ladder.next(255, 0), None);
}

#[test]
fn areas_that_are_too_short_are_refused_and_kept(rt: HostRuntime) -> Result<(), Fail> {
    let list = TransitionList::new(4, &FLAGS, &STEPS)?;
    let mut sheet = WholeSheet::new(&list);
    let short = Err(CheckFault::Area(AreaFault::TooShort));
    let mut path = [9; 4];
    let mut marks = [9; 4];
    let mut scratch = [9; 8];
    assert_eq!(rt;
        settle_in(&list, &mut sheet, &mut path[0..3], &mut marks, &mut scratch),
        short
    );
    assert_eq!(rt;
        settle_in(&list, &mut sheet, &mut path, &mut marks[0..3], &mut scratch),
        short
    );
    assert_eq!(rt;
        settle_in(&list, &mut sheet, &mut path, &mut marks, &mut scratch[0..7]),
        short
    );
    assert_eq!(rt; path, [9; 4]);
    assert_eq!(rt; marks, [9; 4]);
    assert_eq!(rt; scratch, [9; 8]);
    assert_eq!(rt; sheet.count(), 2);
    Ok(())
}

#[test]
fn a_sheet_of_another_size_is_refused(rt: HostRuntime) -> Result<(), Fail> {
    let list = TransitionList::new(4, &FLAGS, &STEPS)?;
    let other = TransitionList::new(1, &[1], &[])?;
    let mut sheet = WholeSheet::new(&other);
    let mut path = [9; 4];
    let mut marks = [9; 4];
    let mut scratch = [9; 8];
    let said = settle_in(&list, &mut sheet, &mut path, &mut marks, &mut scratch);
    assert_eq!(rt; said, Err(CheckFault::SizesDiffer));
    assert_eq!(rt; Refusal::from(CheckFault::SizesDiffer).number, 15);
    assert_eq!(rt; path, [9; 4]);
    Ok(())
}

#[test]
fn a_tampered_path_is_refused_and_the_check_goes_on_after(rt: HostRuntime) -> Result<(), Fail> {
    let list = TransitionList::new(4, &FLAGS, &STEPS)?;
    let sheet = WholeSheet::new(&list);
    let mut path = [9; 4];
    let mut marks = [9; 4];
    let mut scratch = [9; 8];
    let suspect = suspected(
        &list,
        &sheet,
        &mut lend(&mut path, &mut marks, &mut scratch),
    )?;
    path = [1, 0, 0, 0];
    let Err(back) = trace(
        suspect,
        &list,
        &sheet,
        &mut lend(&mut path, &mut marks, &mut scratch),
    ) else {
        return Err(Fail::new("the trace was accepted"));
    };
    assert_eq!(rt; back.fault, CheckFault::Trace(TraceFault::NoSuspectRun));
    assert_eq!(rt; Refusal::from(back.fault).number, 17);
    assert_eq!(rt; path, [1, 0, 0, 0]);
    assert_eq!(rt; marks, [0; 4]);
    path = [0, 1, 0, 0];
    match trace(
        back.check,
        &list,
        &sheet,
        &mut lend(&mut path, &mut marks, &mut scratch),
    ) {
        Ok(Followed::Spurious(_)) => {
            assert_eq!(rt; marks, [1, 2, 0, 0]);
            Ok(())
        },
        Ok(Followed::Breaks(_)) => Err(Fail::new("a run was found")),
        Err(_) => Err(Fail::new("the trace was refused")),
    }
}

#[test]
fn tampered_marks_are_refused_and_the_sheet_is_left(rt: HostRuntime) -> Result<(), Fail> {
    let list = TransitionList::new(4, &FLAGS, &STEPS)?;
    let mut sheet = WholeSheet::new(&list);
    let mut path = [9; 4];
    let mut marks = [9; 4];
    let mut scratch = [9; 8];
    let spurious = spurious(
        &list,
        &sheet,
        &mut lend(&mut path, &mut marks, &mut scratch),
    )?;
    marks = [1, 2, 0, 2];
    let Err(back) = split(
        spurious,
        &mut sheet,
        &mut lend(&mut path, &mut marks, &mut scratch),
    ) else {
        return Err(Fail::new("the split was accepted"));
    };
    assert_eq!(rt; back.fault, CheckFault::Sheet(SheetFault::BadMarks));
    assert_eq!(rt; Refusal::from(back.fault).number, 18);
    assert_eq!(rt; path, [0, 1, 0, 0]);
    assert_eq!(rt; marks, [1, 2, 0, 2]);
    assert_eq!(rt; sheet.count(), 2);
    Ok(())
}
