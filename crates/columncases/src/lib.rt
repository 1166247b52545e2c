//! The column sheet as tests: its classes, its checks and its limit.
#![tactic(auto)]

use checking::calls::{begin, report, search, trace};
use checking::settle::settle;
use checking::stage::{Followed, Report, Searched, Verdict};
use columnsheet::sheet::ColumnSheet;
use rules::refusal::Refusal;
use ruletext::text::RuleText;
use sheets::sheet::Sheet;
use std::alloc::Global;
use std::test::Fail;
use trace::area::Areas;

/// A board that keeps a journey in a cache which is filled once.
const BOARD: &[u8] =
    b"variables 3\nday 3 1\nkept 3 1\nfull 2 0\nblocks 3\nday 1\nalways : day , day + 1\nkept 1\nfull = 0 : day\nfull 1\nfull = 0 : 0 , 1\nbreaks 1\nfull = 1 and not kept = day\n";

/// The areas that are lent to a call.
fn lend<'a>(path: &'a mut [u16], marks: &'a mut [u8], scratch: &'a mut [u16]) -> Areas<'a> {
    Areas {
        path,
        marks,
        scratch,
    }
}

#[test]
fn tuples_that_agree_on_all_comparisons_share_a_class(rt: HostRuntime) -> Result<(), Fail> {
    let text = b"variables 2\nx 3 0\ny 3 0\nblocks 2\nx 0\ny 0\nbreaks 3\nx = y\nx < y\ny = 2\n";
    let pair = RuleText::read(rt.alloc(), text)?;
    let sheet = ColumnSheet::new(&pair)?;
    assert_eq!(rt; sheet.count(), 5);
    let classes: [u16; 9] = [0, 1, 2, 3, 0, 2, 3, 3, 4];
    for (s, class) in classes.iter().enumerate() {
        assert_eq!(rt; sheet.class(s as u16), Some(*class));
    }
    assert_eq!(rt; sheet.class(9), None);
    Ok(())
}

#[test]
fn a_board_breaks_by_columns_without_a_split(rt: HostRuntime) -> Result<(), Fail> {
    let board = RuleText::read(rt.alloc(), BOARD)?;
    let sheet = ColumnSheet::new(&board)?;
    let mut path = [0; 18];
    let mut marks = [0; 18];
    let mut scratch = [0; 36];
    let found = search(
        begin(&sheet),
        &board,
        &sheet,
        &mut lend(&mut path, &mut marks, &mut scratch),
    );
    let Ok(Searched::Suspect(suspect)) = found else {
        return Err(Fail::new("no suspect run"));
    };
    assert_eq!(rt; (path[0], path[1], path[2]), (0, 3, 0));
    let followed = trace(
        suspect,
        &board,
        &sheet,
        &mut lend(&mut path, &mut marks, &mut scratch),
    );
    let Ok(Followed::Breaks(done)) = followed else {
        return Err(Fail::new("no run of the rules"));
    };
    assert_eq!(rt; (path[0], path[1], path[2]), (8, 15, 0));
    let expected = Report {
        verdict: Verdict::Breaks,
        splits: 0,
        first: 4,
        last: 4,
        length: 2,
    };
    assert_eq!(rt; report(done), expected);
    Ok(())
}

#[test]
fn a_counter_by_twos_holds_by_columns_after_two_splits(rt: HostRuntime) -> Result<(), Fail> {
    let text = b"variables 1\nx 4 0\nblocks 1\nx 1\nalways : x + 2\nbreaks 1\nx = 3\n";
    let counter = RuleText::read(rt.alloc(), text)?;
    let mut sheet = ColumnSheet::new(&counter)?;
    let mut path = [0; 4];
    let mut marks = [0; 4];
    let mut scratch = [0; 8];
    let said = settle(
        &counter,
        &mut sheet,
        &mut lend(&mut path, &mut marks, &mut scratch),
    )?;
    let expected = Report {
        verdict: Verdict::Holds,
        splits: 2,
        first: 2,
        last: 4,
        length: 0,
    };
    assert_eq!(rt; said, expected);
    Ok(())
}

/// The text of three linked variables, the last of this many values.
fn linked(heap: Global, size: &[u8]) -> Result<Vec<u8>, Fail> {
    let mut text = Vec::new(heap);
    text.extend_from_slice(b"variables 3\nx 16 0\ny 16 0\nz ")?;
    text.extend_from_slice(size)?;
    text.extend_from_slice(b" 0\nblocks 3\nx 0\ny 0\nz 0\nbreaks 1\nx < y and z = y\n")?;
    Ok(text)
}

#[test]
fn a_cluster_of_1024_tuples_is_the_largest(rt: HostRuntime) -> Result<(), Fail> {
    let text = linked(rt.alloc(), b"4")?;
    let largest = RuleText::read(rt.alloc(), &text)?;
    assert_eq!(rt; ColumnSheet::new(&largest)?.states(), 1024);
    let text = linked(rt.alloc(), b"5")?;
    let larger = RuleText::read(rt.alloc(), &text)?;
    let demanded = Refusal {
        number: 14,
        layer: 3,
        place: 0,
    };
    match ColumnSheet::new(&larger) {
        Ok(_) => Err(Fail::new("a sheet of 1,280 tuples")),
        Err(fault) => {
            assert_eq!(rt; Refusal::from(fault), demanded);
            Ok(())
        },
    }
}
