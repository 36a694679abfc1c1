//! A wire of the first way is cut before each line in turn, and mended behind that line.
use crate::inputs::{DIAMOND, DIAMOND_LINES};
use crate::running::{input_with, strictly, times_got, times_told};
use bstr::ByteSlice;
use rina_run::Status;
use std::alloc::Global;
use std::test::Fail;

/// Whether a run with a cut is done, tells of each SDU at most once, tells of the second only behind the first, and lets a
/// flow fail for nothing but the rank below.
fn is_sound(alloc: Global, number: usize, behind: &str) -> Result<bool, Fail> {
    let input = input_with(alloc, DIAMOND, DIAMOND_LINES, number, "cut ab\n", behind)?;
    let ended = strictly(alloc, input.as_slice())?;
    let written = ended.written.as_slice();
    let first = times_got(written, b"'one");
    let second = times_got(written, b"'two");
    let failed = times_told(written, b" failed ");
    Ok(
        ended.status == Status::Done
            && first <= 1
            && second <= first
            && failed == times_told(written, b" failed Below "),
    )
}

#[test]
fn a_cut_before_each_line_loses_no_promise(rt: HostRuntime) -> Result<(), Fail> {
    for number in 0..8 {
        assert!(rt; is_sound(rt.alloc(), number, "")?, "{number}");
    }
    Ok(())
}

#[test]
fn a_cut_that_is_mended_behind_each_line_loses_no_promise(rt: HostRuntime) -> Result<(), Fail> {
    for number in 0..8 {
        assert!(rt; is_sound(rt.alloc(), number, "mend ab\n")?, "{number}");
    }
    Ok(())
}

/// What is written where the wire is cut before anything is sent: both SDUs go the other way, until it is cut too. The
/// schedule's own cut of that wire changes nothing.
const CUT_FIRST: &str = "1 0 ok
2 0 sent 1.0
3 4 ok
4 4 got 4 'one
5 4 ok
6 4 sent 1.1
7 8 ok
8 8 got 8 'two
9 8 ok
9 8 state p failed Below d3/a/1
end 8
";

#[test]
fn the_other_way_is_there_from_the_start(rt: HostRuntime) -> Result<(), Fail> {
    let alloc = rt.alloc();
    let input = input_with(alloc, DIAMOND, DIAMOND_LINES, 0, "cut ab\n", "")?;
    let ended = strictly(alloc, input.as_slice())?;
    assert_eq!(rt; ended.written.as_slice(), CUT_FIRST.as_bytes());
    Ok(())
}
