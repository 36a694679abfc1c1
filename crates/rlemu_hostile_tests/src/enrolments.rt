//! The wire under an enrolment is cut before each line in turn, and mended behind it; or a storm repeats each of its frames.
use crate::running::{input_with, strictly, times_told};
use rina_run::Status;
use std::alloc::Global;
use std::test::Fail;

/// A DIF of one member, which another one may join over a wire.
const GROWING: &str = "nodes = [\"a\", \"b\"]
[[wire]]
name = \"w\"
ends = [\"a\", \"b\"]
delay = 2
life = 10
largest = 1500
[[dif]]
name = \"d\"
rank = 1
pdu = 400
widths = { addr = 1, cep = 1, len = 2, seq = 2 }
queue = 64
policy = \"strict\"
wait = 500
manage = { mpl = 40, r = 30, a = 2, retry = 10, window = 8 }
cube = [ { id = 1, kind = \"datagram\", mpl = 40, window = 16, largest = 80 } ]
member = [ { node = \"a\", addr = 1 }, { node = \"b\", addr = 2 } ]
";

/// The same over a wire that repeats each frame and delays each copy by up to eight ticks.
const STORMY: &str = "nodes = [\"a\", \"b\"]
[[wire]]
name = \"w\"
ends = [\"a\", \"b\"]
delay = 2
life = 10
largest = 1500
storm = { seed = 0, lose = 0, repeat = 1000, spread = 8 }
[[dif]]
name = \"d\"
rank = 1
pdu = 400
widths = { addr = 1, cep = 1, len = 2, seq = 2 }
queue = 64
policy = \"strict\"
wait = 500
manage = { mpl = 40, r = 30, a = 2, retry = 10, window = 8 }
cube = [ { id = 1, kind = \"datagram\", mpl = 40, window = 16, largest = 80 } ]
member = [ { node = \"a\", addr = 1 }, { node = \"b\", addr = 2 } ]
";

/// An enrolment takes eight ticks. It is asked for once more behind nine, when it ran to its end or was cut.
const LINES: &str = "publish d a w
enrol d b w a
tick 1
tick 1
tick 1
tick 1
tick 1
tick 1
tick 1
tick 1
tick 1
enrol d b w a
tick 60
member d b
rib d b /member
";

/// Whether a run is done, in which the second member is enrolled at the end and keeps the member items of both.
fn is_grown(
    alloc: Global,
    stack: &str,
    number: usize,
    before: &str,
    behind: &str,
) -> Result<bool, Fail> {
    let input = input_with(alloc, stack, LINES, number, before, behind)?;
    let ended = strictly(alloc, input.as_slice())?;
    let written = ended.written.as_slice();
    Ok(
        ended.status == Status::Done
            && times_told(written, b" ok enrolled") == 1
            && times_told(written, b" obj /member/") == 2,
    )
}

#[test]
fn a_cut_before_each_line_lets_a_later_enrolment_end(rt: HostRuntime) -> Result<(), Fail> {
    for number in 0..12 {
        let grown = is_grown(rt.alloc(), GROWING, number, "cut w\n", "mend w\n")?;
        assert!(rt; grown, "{number}");
    }
    Ok(())
}

#[test]
fn an_enrolment_ends_where_each_frame_comes_twice(rt: HostRuntime) -> Result<(), Fail> {
    assert!(rt; is_grown(rt.alloc(), STORMY, 99, "", "")?);
    Ok(())
}
