//! The search: its answer, the path it leaves, and its areas.
use rules::list::TransitionList;
use rules::refusal::Refusal;
use rules::transition::Transition;
use search::area::AreaFault;
use search::search::search;
use std::test::Fail;

#[test]
fn one_state_that_starts_and_breaks_is_a_run(rt: HostRuntime) -> Result<(), Fail> {
    let list = TransitionList::new(1, &[3], &[])?;
    let mut path = [9];
    let mut scratch = [9; 2];
    assert_eq!(rt; search(&list, &mut path, &mut scratch), Ok(Some(1)));
    assert_eq!(rt; path, [0]);
    assert_eq!(rt; scratch, [0; 2]);
    Ok(())
}

#[test]
fn one_state_that_only_starts_holds(rt: HostRuntime) -> Result<(), Fail> {
    let list = TransitionList::new(1, &[1], &[])?;
    let mut path = [9];
    let mut scratch = [9; 2];
    assert_eq!(rt; search(&list, &mut path, &mut scratch), Ok(None));
    assert_eq!(rt; path, [0]);
    assert_eq!(rt; scratch, [0; 2]);
    Ok(())
}

#[test]
fn of_two_equally_short_runs_the_lower_is_found(rt: HostRuntime) -> Result<(), Fail> {
    let steps = [
        Transition { from: 0, to: 2 },
        Transition { from: 0, to: 1 },
        Transition { from: 1, to: 4 },
        Transition { from: 2, to: 3 },
    ];
    let list = TransitionList::new(5, &[1, 0, 0, 2, 2], &steps)?;
    let mut path = [9; 5];
    let mut scratch = [9; 10];
    assert_eq!(rt; search(&list, &mut path, &mut scratch), Ok(Some(3)));
    assert_eq!(rt; path, [0, 1, 4, 0, 0], "0, 1, 4 comes before 0, 2, 3");
    Ok(())
}

#[test]
fn a_shorter_run_is_found_before_a_lower_one(rt: HostRuntime) -> Result<(), Fail> {
    let steps = [
        Transition { from: 0, to: 1 },
        Transition { from: 1, to: 3 },
        Transition { from: 2, to: 3 },
    ];
    let list = TransitionList::new(4, &[1, 0, 1, 2], &steps)?;
    let mut path = [9; 4];
    let mut scratch = [9; 8];
    assert_eq!(rt; search(&list, &mut path, &mut scratch), Ok(Some(2)));
    assert_eq!(rt; path, [2, 3, 0, 0]);
    Ok(())
}

#[test]
fn longer_areas_keep_their_rest(rt: HostRuntime) -> Result<(), Fail> {
    let steps = [Transition { from: 0, to: 1 }];
    let list = TransitionList::new(2, &[1, 2], &steps)?;
    let mut path = [7; 4];
    let mut scratch = [8; 6];
    assert_eq!(rt; search(&list, &mut path, &mut scratch), Ok(Some(2)));
    assert_eq!(rt; path, [0, 1, 7, 7]);
    assert_eq!(rt; scratch, [0, 0, 0, 0, 8, 8]);
    Ok(())
}

#[test]
fn areas_one_too_short_are_refused_and_kept(rt: HostRuntime) -> Result<(), Fail> {
    let list = TransitionList::new(2, &[1, 2], &[])?;
    let mut path = [7; 2];
    let mut scratch = [8; 4];
    assert_eq!(rt;
        search(&list, &mut path[0..1], &mut scratch),
        Err(AreaFault::TooShort)
    );
    assert_eq!(rt;
        search(&list, &mut path, &mut scratch[0..3]),
        Err(AreaFault::TooShort)
    );
    assert_eq!(rt; path, [7; 2]);
    assert_eq!(rt; scratch, [8; 4]);
    let figures = Refusal {
        number: 16,
        layer: 4,
        place: 0,
    };
    assert_eq!(rt; Refusal::from(AreaFault::TooShort), figures);
    Ok(())
}
