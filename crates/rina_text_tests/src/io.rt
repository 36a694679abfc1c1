//! Each end once, through its trait, and ends that fail in mid-stream.
use rina_io::{
    Ending, LIMIT, MemSink, MemSource, Sink, Source, StdSink, StdSource, SureSink, SureSource,
    take_all, write_all,
};
use std::alloc::{AllocError, Global};
use std::io::Cursor;

/// Whether a source is read to such an end, and these bytes of it.
fn is_taken<S: Source + Drop>(alloc: Global, mut source: S, ending: Ending, bytes: &[u8]) -> bool {
    let taken = take_all(alloc, &mut source);
    taken.ending == ending && taken.bytes.as_slice() == bytes
}

/// A source of five bytes in memory, and for each of its reads whether it fails.
fn five(alloc: Global, fails: &[bool]) -> Result<MemSource, AllocError> {
    let bytes = b"hello".to_vec(alloc)?;
    Ok(MemSource::new(bytes, fails.to_vec(alloc)?))
}

/// Whether all bytes of such a source are read, and reading ends so.
fn five_are_taken(alloc: Global, fails: &[bool], ending: Ending) -> bool {
    match five(alloc, fails) {
        Ok(source) => is_taken(alloc, source, ending, b"hello"),
        Err(_) => false,
    }
}

/// Whether a reader of std is read to its end.
fn reader_is_taken(alloc: Global) -> bool {
    match b"std".to_vec(alloc) {
        Ok(bytes) => {
            let source = StdSource::new(Cursor::new(bytes));
            is_taken(alloc, source, Ending::Whole, b"std")
        }
        Err(_) => false,
    }
}

/// Whether a source of more bytes than the limit is too large.
fn is_too_large(alloc: Global) -> bool {
    match vec![in alloc; 7u8; LIMIT + 1] {
        Ok(bytes) => {
            take_all(alloc, &mut SureSource::new(bytes.as_slice())).ending == Ending::TooLarge
        }
        Err(_) => false,
    }
}

#[test]
fn a_source_is_read_to_its_end_or_until_a_read_fails(rt: HostRuntime) {
    let alloc = rt.alloc();
    assert!(rt;
        five_are_taken(alloc, &[], Ending::Whole)
            && five_are_taken(alloc, &[false, true], Ending::Fault)
            && is_taken(alloc, SureSource::new(b"sure"), Ending::Whole, b"sure")
            && reader_is_taken(alloc)
    );
}

#[test]
fn more_than_the_limit_is_too_large(rt: HostRuntime) {
    assert!(rt; is_too_large(rt.alloc()));
}

/// Whether a sink takes a piece whole.
fn takes<K: Sink + Drop>(mut sink: K, piece: &[u8]) -> bool {
    write_all(&mut sink, piece).is_ok()
}

/// Whether a sink takes a piece whole, fails at the next one, and holds the first.
fn takes_one(sink: &mut MemSink) -> bool {
    write_all(sink, b"one").is_ok()
        && write_all(sink, b"two").is_err()
        && sink.bytes() == b"one".as_slice()
}

/// Whether a sink in memory whose second write fails does.
fn memory_takes_one(alloc: Global) -> bool {
    match [false, true].to_vec(alloc) {
        Ok(fails) => takes_one(&mut MemSink::new(Vec::new(alloc), fails)),
        Err(_) => false,
    }
}

/// Whether a sink that does not fail takes a piece of five bytes.
fn takes_five(sink: &mut SureSink) -> bool {
    write_all(sink, b"three").is_ok() && sink.taken() == 5
}

#[test]
fn a_sink_takes_a_piece_whole_or_fails(rt: HostRuntime) {
    let alloc = rt.alloc();
    assert!(rt;
        memory_takes_one(alloc)
            && takes_five(&mut SureSink::new())
            && takes(StdSink::new(Cursor::new(Vec::new(alloc))), b"four")
    );
}
