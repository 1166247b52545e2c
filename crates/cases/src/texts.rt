//! Rule texts: what is read, and what every other text is refused for.
use checking::settle::settle;
use checking::stage::Verdict;
use rules::refusal::Refusal;
use rules::source::RuleSource;
use ruletext::text::RuleText;
use sheets::whole::WholeSheet;
use std::alloc::Global;
use std::process::Abort;
use std::test::Fail;
use trace::area::Areas;

/// A board that keeps a journey in a cache which is filled once.
const BOARD: &[u8] =
    b"variables 3\nday 3 1\nkept 3 1\nfull 2 0\nblocks 3\nday 1\nalways : day , day + 1\nkept 1\nfull = 0 : day\nfull 1\nfull = 0 : 0 , 1\nbreaks 1\nfull = 1 and not kept = day\n";

/// The text is read.
fn read(heap: Global, text: &[u8]) -> Result<(), Fail> {
    let _text = RuleText::read(heap, text)?;
    Ok(())
}

/// The text is refused under a number of a layer, at a line.
fn refused(
    rt: &impl Abort,
    heap: Global,
    number: u8,
    layer: u8,
    place: usize,
    text: &[u8],
) -> Result<(), Fail> {
    let demanded = Refusal {
        number,
        layer,
        place,
    };
    match RuleText::read(heap, text) {
        Ok(_) => Err(Fail::new("the text is read")),
        Err(fault) => {
            assert_eq!(rt; Refusal::from(fault), demanded);
            Ok(())
        },
    }
}

/// A text of so many bytes, all letters but the last.
fn letters(heap: Global, length: usize) -> Result<Vec<u8>, Fail> {
    let mut text = Vec::new(heap);
    for _i in 1..length {
        text.push(b'a')?;
    }
    text.push(b'\n')?;
    Ok(text)
}

#[test]
fn the_successors_of_a_board(rt: HostRuntime) -> Result<(), Fail> {
    let board = RuleText::read(rt.alloc(), BOARD)?;
    assert_eq!(rt; board.size(), 18);
    assert!(rt; board.starts(8) && !board.starts(9) && !board.starts(18));
    assert!(rt; board.breaks(15) && !board.breaks(14) && !board.breaks(18));
    assert_eq!(rt; board.next(8, 0), Some(8));
    assert_eq!(rt; board.next(8, 10), Some(14));
    assert_eq!(rt; board.next(8, 16), None);
    assert_eq!(rt; board.next(18, 0), None);
    Ok(())
}

#[test]
fn a_board_breaks_in_two_states(rt: HostRuntime) -> Result<(), Fail> {
    let board = RuleText::read(rt.alloc(), BOARD)?;
    let mut sheet = WholeSheet::new(&board);
    let mut path = [0; 18];
    let mut marks = [0; 18];
    let mut scratch = [0; 36];
    let said = settle(
        &board,
        &mut sheet,
        &mut Areas {
            path: &mut path,
            marks: &mut marks,
            scratch: &mut scratch,
        },
    )?;
    assert_eq!(rt; said.verdict, Verdict::Breaks);
    assert_eq!(rt; said.length, 2);
    assert_eq!(rt; path[0], 8);
    assert_eq!(rt; path[1], 15);
    Ok(())
}

#[test]
fn a_sum_is_taken_modulo_the_size(rt: HostRuntime) -> Result<(), Fail> {
    let text = b"variables 1\nx 4 0\nblocks 1\nx 1\nalways : x + 2\nbreaks 1\nx = 3\n";
    let counter = RuleText::read(rt.alloc(), text)?;
    assert_eq!(rt; counter.next(2, 0), Some(0));
    let mut sheet = WholeSheet::new(&counter);
    let mut path = [0; 4];
    let mut marks = [0; 4];
    let mut scratch = [0; 8];
    let said = settle(
        &counter,
        &mut sheet,
        &mut Areas {
            path: &mut path,
            marks: &mut marks,
            scratch: &mut scratch,
        },
    )?;
    assert_eq!(rt; said.verdict, Verdict::Holds);
    assert_eq!(rt; said.splits, 1);
    assert_eq!(rt; said.last, 3);
    Ok(())
}

#[test]
fn texts_at_their_limits_are_read(rt: HostRuntime) -> Result<(), Fail> {
    let heap = rt.alloc();
    // size 16, opening words as names
    read(
        heap,
        b"variables 1\nblocks 16 0 15\nblocks 1\nblocks 0\nbreaks 0\n",
    )?;
    // 4,096 states
    read(
        heap,
        b"variables 3\na 16 0\nb 16 0\nc 16 0\nblocks 3\na 0\nb 0\nc 0\nbreaks 0\n",
    )?;
    read(
        heap,
        b"variables 12\na 2 0\nb 2 0\nc 2 0\nd 2 0\ne 2 0\nf 2 0\ng 2 0\nh 2 0\ni 2 0\nj 2 0\nk 2 0\nl 2 0\nblocks 12\na 0\nb 0\nc 0\nd 0\ne 0\nf 0\ng 0\nh 0\ni 0\nj 0\nk 0\nl 0\nbreaks 0\n",
    )?;
    // 8 letters, 8 lines, a result twice
    read(
        heap,
        b"variables 1\nlongname 2 0 1\nblocks 1\nlongname 8\nalways : 0\nalways : 0\nalways : 0\nalways : 0\nalways : 0\nalways : 0\nalways : 0\nalways : 0 , 0\nbreaks 0\n",
    )?;
    read(
        heap,
        b"variables 1\nx 2 0\nblocks 1\nx 0\nbreaks 3\nnot not x = 9999\nnot always\n( ( always ) or x < x )\n",
    )
}

#[test]
fn what_is_no_text_is_refused_under_1(rt: HostRuntime) -> Result<(), Fail> {
    let heap = rt.alloc();
    refused(&rt, heap, 1, 1, 0, b"")?;
    // no last line end
    refused(&rt, heap, 1, 1, 0, b"variables 1\nx 2 0")?;
    // byte 9
    refused(&rt, heap, 1, 1, 0, b"variables\t1\n")?;
    // byte 13
    refused(&rt, heap, 1, 1, 0, b"variables 1\r\n")?;
    refused(&rt, heap, 1, 1, 0, &letters(heap, 8193)?)?;
    refused(&rt, heap, 3, 1, 1, &letters(heap, 8192)?)
}

#[test]
fn a_missing_line_is_refused_under_2(rt: HostRuntime) -> Result<(), Fail> {
    let heap = rt.alloc();
    refused(&rt, heap, 2, 1, 2, b"variables 1\n")?;
    refused(&rt, heap, 2, 1, 3, b"variables 1\nx 2 0\n")?;
    refused(&rt, heap, 2, 1, 5, b"variables 1\nx 2 0\nblocks 1\nx 1\n")?;
    refused(
        &rt,
        heap,
        2,
        1,
        6,
        b"variables 1\nx 2 0\nblocks 1\nx 0\nbreaks 1\n",
    )
}

#[test]
fn a_bad_line_is_refused_under_3(rt: HostRuntime) -> Result<(), Fail> {
    let heap = rt.alloc();
    refused(&rt, heap, 3, 1, 1, b"\n")?;
    refused(&rt, heap, 3, 1, 1, b" variables 1\n")?;
    refused(&rt, heap, 3, 1, 1, b"variables  1\n")?;
    refused(&rt, heap, 3, 1, 2, b"variables 1\nx 2 0 \n")?;
    // 121 bytes
    refused(&rt, heap, 3, 1, 1, &letters(heap, 122)?)?;
    // 120 bytes
    refused(&rt, heap, 4, 1, 1, &letters(heap, 121)?)
}

#[test]
fn a_line_without_its_form_is_refused_under_4(rt: HostRuntime) -> Result<(), Fail> {
    let heap = rt.alloc();
    refused(&rt, heap, 4, 1, 1, b"variable 1\n")?;
    refused(&rt, heap, 4, 1, 1, b"variables 01\n")?;
    refused(&rt, heap, 4, 1, 2, b"variables 1\nx 2\n")?;
    refused(&rt, heap, 4, 1, 2, b"variables 1\nand 2 0\n")?;
    refused(&rt, heap, 4, 1, 2, b"variables 1\nninechars 2 0\n")?;
    refused(
        &rt,
        heap,
        4,
        1,
        6,
        b"variables 1\nx 2 0\nblocks 1\nx 0\nbreaks 1\nx=1\n",
    )?;
    refused(
        &rt,
        heap,
        4,
        1,
        6,
        b"variables 1\nx 2 0\nblocks 1\nx 0\nbreaks 1\n( )\n",
    )?;
    refused(
        &rt,
        heap,
        4,
        1,
        6,
        b"variables 1\nx 2 0\nblocks 1\nx 0\nbreaks 1\nx = 10000\n",
    )
}

#[test]
fn counts_and_sizes_outside_their_limits_are_refused_under_5(rt: HostRuntime) -> Result<(), Fail> {
    let heap = rt.alloc();
    refused(&rt, heap, 5, 2, 1, b"variables 0\n")?;
    refused(&rt, heap, 5, 2, 1, b"variables 13\n")?;
    refused(&rt, heap, 5, 2, 2, b"variables 1\nx 1 0\n")?;
    refused(&rt, heap, 5, 2, 2, b"variables 1\nx 17 0\n")?;
    refused(&rt, heap, 5, 2, 3, b"variables 1\nx 2 0\nblocks 2\n")?;
    refused(&rt, heap, 5, 2, 4, b"variables 1\nx 2 0\nblocks 1\nx 9\n")?;
    refused(
        &rt,
        heap,
        5,
        2,
        5,
        b"variables 1\nx 2 0\nblocks 1\nx 0\nbreaks 9\n",
    )
}

#[test]
fn a_name_declared_twice_is_refused_under_6(rt: HostRuntime) -> Result<(), Fail> {
    let heap = rt.alloc();
    refused(&rt, heap, 6, 2, 3, b"variables 2\nx 2 0\nx 2 0\n")?;
    refused(&rt, heap, 6, 2, 4, b"variables 3\nx 2 0\ny 2 0\nx 3 0\n")?;
    // before 8
    refused(&rt, heap, 6, 2, 4, b"variables 3\nx 2 0\ny 2 0\ny 2 7\n")
}

#[test]
fn an_undeclared_name_is_refused_under_7(rt: HostRuntime) -> Result<(), Fail> {
    let heap = rt.alloc();
    refused(&rt, heap, 7, 2, 4, b"variables 1\nx 2 0\nblocks 1\ny 0\n")?;
    // the block of another variable
    refused(
        &rt,
        heap,
        7,
        2,
        5,
        b"variables 2\nx 2 0\ny 2 0\nblocks 2\ny 0\n",
    )?;
    refused(
        &rt,
        heap,
        7,
        2,
        5,
        b"variables 1\nx 2 0\nblocks 1\nx 1\ny = 1 : 0\n",
    )?;
    refused(
        &rt,
        heap,
        7,
        2,
        5,
        b"variables 1\nx 2 0\nblocks 1\nx 1\nalways : y\n",
    )?;
    refused(
        &rt,
        heap,
        7,
        2,
        6,
        b"variables 1\nx 2 0\nblocks 1\nx 0\nbreaks 1\nx = y\n",
    )
}

#[test]
fn a_value_outside_is_refused_under_8(rt: HostRuntime) -> Result<(), Fail> {
    let heap = rt.alloc();
    refused(&rt, heap, 8, 2, 2, b"variables 1\nx 4 4\n")?;
    refused(&rt, heap, 8, 2, 2, b"variables 1\nx 4 1 1\n")?;
    refused(&rt, heap, 8, 2, 2, b"variables 1\nx 4 2 1\n")?;
    refused(
        &rt,
        heap,
        8,
        2,
        5,
        b"variables 1\nx 4 0\nblocks 1\nx 1\nalways : 4\n",
    )
}

#[test]
fn a_larger_variable_is_refused_under_9(rt: HostRuntime) -> Result<(), Fail> {
    let heap = rt.alloc();
    refused(
        &rt,
        heap,
        9,
        2,
        7,
        b"variables 2\nx 4 0\ny 2 0\nblocks 2\nx 0\ny 1\nalways : x\n",
    )?;
    refused(
        &rt,
        heap,
        9,
        2,
        7,
        b"variables 2\nx 4 0\ny 2 0\nblocks 2\nx 0\ny 1\nalways : x + 1\n",
    )?;
    refused(
        &rt,
        heap,
        9,
        2,
        6,
        b"variables 2\nx 2 0\ny 3 0\nblocks 2\nx 1\nalways : x , y\n",
    )
}

#[test]
fn too_many_states_are_refused_under_10(rt: HostRuntime) -> Result<(), Fail> {
    let heap = rt.alloc();
    refused(
        &rt,
        heap,
        10,
        2,
        5,
        b"variables 4\na 16 0\nb 16 0\nc 16 0\nd 2 0\n",
    )?;
    refused(
        &rt,
        heap,
        10,
        2,
        5,
        b"variables 4\na 15 0\nb 16 0\nc 16 0\nd 2 0\n",
    )?;
    refused(
        &rt,
        heap,
        10,
        2,
        6,
        b"variables 5\na 8 0\nb 8 0\nc 8 0\nd 8 0\ne 2 0\n",
    )
}

#[test]
fn text_behind_the_last_line_is_refused_under_11(rt: HostRuntime) -> Result<(), Fail> {
    let heap = rt.alloc();
    refused(
        &rt,
        heap,
        11,
        1,
        6,
        b"variables 1\nx 2 0\nblocks 1\nx 0\nbreaks 0\nx = 1\n",
    )?;
    refused(
        &rt,
        heap,
        11,
        1,
        6,
        b"variables 1\nx 2 0\nblocks 1\nx 0\nbreaks 0\n?\n",
    )?;
    refused(
        &rt,
        heap,
        11,
        1,
        7,
        b"variables 1\nx 2 0\nblocks 1\nx 0\nbreaks 1\nalways\nvariables 1\n",
    )?;
    // a bad line decides first
    refused(
        &rt,
        heap,
        3,
        1,
        6,
        b"variables 1\nx 2 0\nblocks 1\nx 0\nbreaks 0\n\n",
    )
}
