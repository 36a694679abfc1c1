//! A storm repeats each frame of a wire and delays each copy: no SDU of a flow is got twice.
use crate::inputs::STORMY;
use crate::running::{strictly, times_got};
use rina_run::Status;
use std::alloc::Global;
use std::test::Fail;

/// Lines that send on one flow, the end that reads, and the texts of the SDUs.
type Row = (&'static str, &'static str, &'static [&'static [u8]]);

/// The stack, these lines, and eight reads of the other end after all has come.
fn input_of(alloc: Global, lines: &str, end: &str) -> Result<Vec<u8>, Fail> {
    let mut input = STORMY.as_bytes().to_vec(alloc)?;
    input.extend_from_slice(b"%%\n")?;
    input.extend_from_slice(lines.as_bytes())?;
    input.extend_from_slice(b"tick 60\n")?;
    for _ in 0..8 {
        input.extend_from_slice(b"read ")?;
        input.extend_from_slice(end.as_bytes())?;
        input.push(b'\n')?;
    }
    Ok(input)
}

/// How often the SDU that came most often came; None where the run is not done.
fn most_often(alloc: Global, row: &Row) -> Result<Option<usize>, Fail> {
    let (lines, end, sdus) = *row;
    let input = input_of(alloc, lines, end)?;
    let ended = strictly(alloc, input.as_slice())?;
    if ended.status != Status::Done {
        return Ok(None);
    }
    let mut most = 0usize;
    for sdu in sdus {
        most = most.max(times_got(ended.written.as_slice(), sdu));
    }
    Ok(Some(most))
}

#[test]
fn no_sdu_is_got_twice(rt: HostRuntime) -> Result<(), Fail> {
    let rows: [Row; 6] = [
        ("send p1 'a\nrepeat w 0 3\n", "q1", &[b"'a"]),
        (
            "send p1 'a\nsend p1 'b\nsend p1 'c\nhold w 0 3\nhold w 1 4\n",
            "q1",
            &[b"'a", b"'b", b"'c"],
        ),
        (
            "send p2 'a\nsend p2 'b\nsend p2 'c\nhold w 0 3\nhold w 1 4\n",
            "q2",
            &[b"'a", b"'b", b"'c"],
        ),
        (
            "send p3 'a\nsend p3 'b\nsend p3 'c\nhold w 0 3\nhold w 1 4\n",
            "q3",
            &[b"'a", b"'b", b"'c"],
        ),
        ("send p2 z200\nlose w 1\nsend p2 'next\n", "q2", &[b"'next"]),
        (
            "send p3 'a\nsend p3 'b\nsend p3 'c\nsend p3 'd\nsend p3 'e\ntick 30\nsend p3 'e\n",
            "q3",
            &[b"'a", b"'b", b"'c", b"'d", b"'e"],
        ),
    ];
    for row in &rows {
        // One of them at least comes, whatever the storm does: it loses nothing.
        assert_eq!(rt; most_often(rt.alloc(), row)?, Some(1));
    }
    Ok(())
}
