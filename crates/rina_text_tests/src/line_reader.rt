//! Lines that are read one at a time.
use rina_io::{LineReader, MemSource, ReadError, SureSource};
use std::alloc::{AllocError, Global};

/// Whether two lines are read, of which the last has no end.
fn the_last_has_no_end(alloc: Global, source: &mut SureSource<'_>) -> bool {
    let mut reader = LineReader::new(alloc);
    let Ok(Some(first)) = reader.next_line(alloc, source) else {
        return false;
    };
    let Ok(Some(last)) = reader.next_line(alloc, source) else {
        return false;
    };
    first.as_slice() == b"one\r\n".as_slice()
        && last.as_slice() == b"last".as_slice()
        && matches!(reader.next_line(alloc, source), Ok(None))
}

#[test]
fn the_last_line_may_have_no_end(rt: HostRuntime) {
    assert!(rt; the_last_has_no_end(rt.alloc(), &mut SureSource::new(b"one\r\nlast")));
}

/// A source of one whole line and a part of another, whose second read fails.
fn broken(alloc: Global) -> Result<MemSource, AllocError> {
    let bytes = b"whole\nopen".to_vec(alloc)?;
    Ok(MemSource::new(bytes, [false, true].to_vec(alloc)?))
}

/// Whether the whole line is read, and no other.
fn one_is_read(alloc: Global, source: &mut MemSource) -> bool {
    let mut reader = LineReader::new(alloc);
    let Ok(Some(whole)) = reader.next_line(alloc, source) else {
        return false;
    };
    whole.as_slice() == b"whole\n".as_slice()
        && matches!(reader.next_line(alloc, source), Err(ReadError::Fault))
}

/// Whether a read that fails ends the lines.
fn a_fault_ends_lines(alloc: Global) -> bool {
    match broken(alloc) {
        Ok(mut source) => one_is_read(alloc, &mut source),
        Err(_) => false,
    }
}

#[test]
fn a_read_that_fails_ends_the_lines(rt: HostRuntime) {
    assert!(rt; a_fault_ends_lines(rt.alloc()));
}
