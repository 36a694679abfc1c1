//! How inputs are made of lines, run, and looked at.
use bstr::ByteSlice;
use rina_base::Name;
use rina_io::{MemSink, MemSource};
use rina_policy::{Shelf, Strict};
use rina_run::{Status, run};
use std::alloc::Global;
use std::test::Fail;

/// What a test looks at of a run that has ended.
#[derive(Drop)]
pub(crate) struct Ended {
    pub(crate) status: Status,
    /// All that was written.
    pub(crate) written: Vec<u8>,
}

/// A shelf that has the policy `strict` alone.
pub(crate) fn strict_shelf(alloc: Global) -> Result<Shelf, Fail> {
    let mut shelf = Shelf::new(alloc)?;
    shelf.add(
        alloc,
        Name::read(alloc, b"strict")?,
        Box::new(alloc, Strict::new())?,
    )?;
    Ok(shelf)
}

/// Runs an input with these policies; reads and writes fail at the calls that are told.
pub(crate) fn ended_of(
    alloc: Global,
    input: &[u8],
    reads: &[bool],
    writes: &[bool],
    shelf: Shelf,
) -> Result<Ended, Fail> {
    let mut words = Vec::new(alloc);
    words.push(String::from_str(alloc, "run")?)?;
    let mut source = MemSource::new(input.to_vec(alloc)?, reads.to_vec(alloc)?);
    let mut sink = MemSink::new(Vec::new(alloc), writes.to_vec(alloc)?);
    let outcome = run(alloc, words.as_slice(), &mut source, &mut sink, shelf);
    Ok(Ended {
        status: outcome.status,
        written: sink.bytes().to_vec(alloc)?,
    })
}

/// Runs an input with the policy `strict` alone.
pub(crate) fn strictly(alloc: Global, input: &[u8]) -> Result<Ended, Fail> {
    ended_of(alloc, input, &[], &[], strict_shelf(alloc)?)
}

/// An input of a stack and lines, with one more line before the line of a number, counted from 0, and another behind it.
pub(crate) fn input_with(
    alloc: Global,
    stack: &str,
    lines: &str,
    number: usize,
    before: &str,
    behind: &str,
) -> Result<Vec<u8>, Fail> {
    let mut input = stack.as_bytes().to_vec(alloc)?;
    input.extend_from_slice(b"%%\n")?;
    for (at, line) in lines.as_bytes().lines().enumerate() {
        if at == number {
            input.extend_from_slice(before.as_bytes())?;
        }
        input.extend_from_slice(line)?;
        input.push(b'\n')?;
        if at == number {
            input.extend_from_slice(behind.as_bytes())?;
        }
    }
    Ok(input)
}

/// Whether a line tells that an SDU with this text came.
fn is_got(line: &[u8], sdu: &[u8]) -> bool {
    line.contains_str(b" got ".as_slice()) && line.ends_with_str(sdu)
}

/// How many lines tell that an SDU with this text came.
pub(crate) fn times_got(written: &[u8], sdu: &[u8]) -> usize {
    let mut times = 0usize;
    for line in written.lines() {
        if is_got(line, sdu) {
            times = times.saturating_add(1);
        }
    }
    times
}

/// How many lines have this word.
pub(crate) fn times_told(written: &[u8], word: &[u8]) -> usize {
    let mut times = 0usize;
    for line in written.lines() {
        if line.contains_str(word) {
            times = times.saturating_add(1);
        }
    }
    times
}
