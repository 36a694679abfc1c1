//! An input that breaks off at each byte.
use crate::inputs::{HELLO, HELLO_NOTES};
use crate::running::strictly;
use bstr::ByteSlice;
use rina_run::Status;
use std::alloc::Global;
use std::test::Fail;

/// All lines but the last.
fn all_but_last(text: &[u8]) -> &[u8] {
    let end = text.len().saturating_sub(1);
    match text.split_at(end).0.rfind_byte(b'\n') {
        Some(at) => text.split_at(at + 1).0,
        None => &[],
    }
}

/// Whether the run of the first bytes of the input ends as it may: with one note of a stack that is none; with a front of the
/// whole run's notes, and then the fault of a line that is none; or with such a front, then a note of the line that broke off,
/// which may mean something else than the whole line, and the end.
fn is_sound(alloc: Global, count: usize) -> Result<bool, Fail> {
    let text = HELLO.as_bytes();
    let input = text.split_at(count.min(text.len())).0;
    let ended = strictly(alloc, input)?;
    let written = ended.written.as_slice();
    let before = all_but_last(written);
    let whole = HELLO_NOTES.as_bytes();
    Ok(match ended.status {
        Status::NotToml => written == b"fault NotToml\n".as_slice(),
        Status::StackRule { n: _, item: _ } => {
            before.is_empty() && written.starts_with(b"fault StackRule ")
        }
        Status::Schedule {
            line: _,
            n: _,
            field: _,
        } => whole.starts_with(before) && written.contains_str(b"fault Schedule ".as_slice()),
        Status::Done => {
            whole.starts_with(all_but_last(before)) && written.contains_str(b"end ".as_slice())
        }
        _ => false,
    })
}

#[test]
fn an_input_may_break_off_at_each_byte(rt: HostRuntime) -> Result<(), Fail> {
    for count in 0..HELLO.len() {
        assert!(rt; is_sound(rt.alloc(), count)?, "{count}");
    }
    Ok(())
}
