//! Each read fails in turn, and each write.
use crate::inputs::{DIAMOND, DIAMOND_LINES};
use crate::running::{Ended, ended_of, strict_shelf};
use rina_run::Status;
use std::alloc::Global;
use std::test::Fail;

/// Of the calls from the first on the one of a number fails, counted from 0.
fn failing_at(alloc: Global, number: usize) -> Result<Vec<bool>, Fail> {
    let mut calls = Vec::new(alloc);
    for _ in 0..number {
        calls.push(false)?;
    }
    calls.push(true)?;
    Ok(calls)
}

/// The run of the input whose reads and writes fail at the calls that are told.
fn ended_with(alloc: Global, reads: &[bool], writes: &[bool]) -> Result<Ended, Fail> {
    let input = format!(in alloc; "{DIAMOND}%%\n{DIAMOND_LINES}")?;
    let shelf = strict_shelf(alloc)?;
    ended_of(alloc, input.as_str().as_bytes(), reads, writes, shelf)
}

/// Whether the run with the read of a number failing tells that; None where it has fewer reads.
fn tells_read(alloc: Global, number: usize) -> Result<Option<bool>, Fail> {
    let reads = failing_at(alloc, number)?;
    let ended = ended_with(alloc, reads.as_slice(), &[])?;
    Ok(match ended.status {
        Status::Done => None,
        Status::ReadFault => Some(ended.written.as_slice().ends_with(b"fault ReadFault\n")),
        _ => Some(false),
    })
}

/// Whether the run with the write of a number failing tells that, and wrote a front of the whole text; None where it has
/// fewer writes.
fn tells_write(alloc: Global, number: usize, whole: &[u8]) -> Result<Option<bool>, Fail> {
    let writes = failing_at(alloc, number)?;
    let ended = ended_with(alloc, &[], writes.as_slice())?;
    Ok(match ended.status {
        Status::Done => None,
        Status::WriteFault => Some(whole.starts_with(ended.written.as_slice())),
        _ => Some(false),
    })
}

/// How many reads the run has, each of which was told where it failed.
fn reads_told(alloc: Global) -> Result<usize, Fail> {
    for number in 0..1000 {
        match tells_read(alloc, number)? {
            Some(true) => {}
            Some(false) => return Err(Fail::from("a read that failed was not told")),
            None => return Ok(number),
        }
    }
    Err(Fail::from("too many reads"))
}

/// How many writes the run has, each of which was told where it failed.
fn writes_told(alloc: Global) -> Result<usize, Fail> {
    let whole = ended_with(alloc, &[], &[])?;
    for number in 0..1000 {
        match tells_write(alloc, number, whole.written.as_slice())? {
            Some(true) => {}
            Some(false) => return Err(Fail::from("a write that failed was not told")),
            None => return Ok(number),
        }
    }
    Err(Fail::from("too many writes"))
}

#[test]
fn each_read_that_fails_is_told(rt: HostRuntime) -> Result<(), Fail> {
    // The whole input, and its end.
    assert!(rt; reads_told(rt.alloc())? >= 2);
    Ok(())
}

#[test]
fn each_write_that_fails_is_told(rt: HostRuntime) -> Result<(), Fail> {
    // Eight lines and the end.
    assert!(rt; writes_told(rt.alloc())? >= 9);
    Ok(())
}
