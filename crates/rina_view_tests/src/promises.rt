//! What the command `promises` writes of a stack.
use crate::pair_rows::PAIR_ROWS;
use crate::promise_rows::PROMISE_ROWS;
use rina_io::{MemSink, MemSource};
use rina_promises::look;
use std::alloc::Global;
use std::test::Fail;

/// All that is written of a stack for some words.
fn written(alloc: Global, words: &str, stack: &str) -> Result<Vec<u8>, Fail> {
    let mut list = Vec::new(alloc);
    for word in words.split(" ") {
        list.push(String::from_str(alloc, word)?)?;
    }
    let mut source = MemSource::new(stack.as_bytes().to_vec(alloc)?, Vec::new(alloc));
    let mut sink = MemSink::new(Vec::new(alloc), Vec::new(alloc));
    let _status = look(alloc, list.as_slice(), &mut source, &mut sink);
    Ok(sink.bytes().to_vec(alloc)?)
}

/// The first row of which something else is written, where there is one.
fn other_row<'a>(alloc: Global, rows: &'a str) -> Result<Option<&'a str>, Fail> {
    for row in rows.split("====\n") {
        let (stack, output) = row.split_once("----\n").ok_or("no output")?;
        if written(alloc, "promises", stack)?.as_slice() != output.as_bytes() {
            return Ok(Some(row));
        }
    }
    Ok(None)
}

/// The first row, with words of its own, of which something else is written, where there is one.
fn other_pairs<'a>(alloc: Global, rows: &'a str) -> Result<Option<&'a str>, Fail> {
    for row in rows.split("====\n") {
        let (asked, output) = row.split_once("----\n").ok_or("no output")?;
        let (words, stack) = asked.split_once("\n").ok_or("no stack")?;
        if written(alloc, words, stack)?.as_slice() != output.as_bytes() {
            return Ok(Some(row));
        }
    }
    Ok(None)
}

#[test]
fn each_stack_has_its_promises(rt: HostRuntime) -> Result<(), Fail> {
    assert_eq!(rt; other_row(rt.alloc(), PROMISE_ROWS)?, None);
    Ok(())
}

#[test]
fn each_dif_has_its_pairs(rt: HostRuntime) -> Result<(), Fail> {
    assert_eq!(rt; other_pairs(rt.alloc(), PAIR_ROWS)?, None);
    Ok(())
}
