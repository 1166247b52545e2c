//! Transition lists: what is accepted, what is refused, and what the questions answer.
use rules::list::{TransitionList, check_list};
use rules::refusal::{ListFault, Refusal};
use rules::source::RuleSource;
use rules::transition::Transition;
use std::test::Fail;

#[test]
fn a_list_has_1_to_4096_states(rt: HostRuntime) {
    let flags = [0; 4097];
    assert_eq!(rt; check_list(0, &flags[0..0], &[]), Err(ListFault::BadList));
    assert_eq!(rt; check_list(1, &flags[0..1], &[]), Ok(()));
    assert_eq!(rt; check_list(4096, &flags[0..4096], &[]), Ok(()));
    assert_eq!(rt; check_list(4097, &flags, &[]), Err(ListFault::BadList));
}

#[test]
fn flags_are_one_byte_a_state_and_at_most_3(rt: HostRuntime) {
    assert_eq!(rt; check_list(2, &[0], &[]), Err(ListFault::BadList));
    assert_eq!(rt; check_list(2, &[0, 0, 0], &[]), Err(ListFault::BadList));
    assert_eq!(rt; check_list(2, &[3, 4], &[]), Err(ListFault::BadList));
    assert_eq!(rt; check_list(2, &[3, 3], &[]), Ok(()));
}

#[test]
fn the_first_transition_with_an_end_outside_is_named(rt: HostRuntime) {
    let inside = Transition { from: 1, to: 0 };
    let late = Transition { from: 0, to: 2 };
    let early = Transition { from: 2, to: 0 };
    assert_eq!(rt;
        check_list(2, &[0, 0], &[inside, late, early]),
        Err(ListFault::BadTransition(1))
    );
    assert_eq!(rt;
        check_list(2, &[0, 0], &[early, late]),
        Err(ListFault::BadTransition(0))
    );
    assert_eq!(rt;
        check_list(2, &[0, 4], &[early]),
        Err(ListFault::BadList),
        "the flags decide first"
    );
}

#[test]
fn a_fault_in_figures(rt: HostRuntime) {
    let header = Refusal {
        number: 12,
        layer: 3,
        place: 0,
    };
    let transition = Refusal {
        number: 13,
        layer: 3,
        place: 7,
    };
    assert_eq!(rt; Refusal::from(ListFault::BadList), header);
    assert_eq!(rt; Refusal::from(ListFault::BadTransition(7)), transition);
}

#[test]
fn next_is_the_lowest_successor_not_below(rt: HostRuntime) -> Result<(), Fail> {
    let steps = [
        Transition { from: 0, to: 3 },
        Transition { from: 0, to: 1 },
        Transition { from: 2, to: 2 },
        Transition { from: 0, to: 1 },
    ];
    let list = TransitionList::new(4, &[1, 0, 3, 2], &steps)?;
    assert_eq!(rt; list.size(), 4);
    assert_eq!(rt; list.next(0, 0), Some(1));
    assert_eq!(rt; list.next(0, 1), Some(1));
    assert_eq!(rt; list.next(0, 2), Some(3));
    assert_eq!(rt; list.next(0, 4), None);
    assert_eq!(rt; list.next(1, 0), None);
    assert_eq!(rt; list.next(4, 0), None, "no state");
    Ok(())
}

#[test]
fn flags_tell_starts_and_breaking_states(rt: HostRuntime) -> Result<(), Fail> {
    let list = TransitionList::new(4, &[0, 1, 2, 3], &[])?;
    assert!(rt; !list.starts(0) && list.starts(1) && !list.starts(2) && list.starts(3));
    assert!(rt; !list.breaks(0) && !list.breaks(1) && list.breaks(2) && list.breaks(3));
    assert!(rt; !list.starts(4) && !list.breaks(4), "no state");
    Ok(())
}
