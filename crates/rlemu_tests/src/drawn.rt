//! The inputs that are drawn from numbers are taken: the stack is read, each line of the schedule is read, and each run is done.
use crate::running::ended_of;
use bstr::ByteSlice;
use rina_gen::make;
use rina_run::Status;
use rina_schedule::read_line;
use rina_stack::{BuiltIn, read_stack};
use std::alloc::Global;
use std::test::Fail;

/// Whether each line is read, and is no blank one.
fn all_read(alloc: Global, schedule: &[u8]) -> bool {
    for line in schedule.lines() {
        match read_line(alloc, line) {
            Ok(Some(_)) => {}
            _ => return false,
        }
    }
    true
}

/// Whether the stack and the lines of an input are read.
fn is_read(alloc: Global, text: &[u8]) -> bool {
    let Some((stack, schedule)) = text.split_once_str(b"\n%%\n".as_slice()) else {
        return false;
    };
    read_stack(alloc, stack, &BuiltIn).is_ok() && all_read(alloc, schedule)
}

#[test]
fn a_hundred_drawn_inputs_are_read(rt: HostRuntime) -> Result<(), Fail> {
    let alloc = rt.alloc();
    for number in 0..100 {
        let text = make(alloc, number)?;
        assert!(rt; is_read(alloc, text.as_slice()), "{number}");
    }
    Ok(())
}

/// Whether the run of the input that a number draws is done, and told by its summary alone, which has the number and 307 lines.
fn is_done(alloc: Global, number: &str) -> Result<bool, Fail> {
    let ended = ended_of(alloc, &["gen", number], "", &[], &[])?;
    let summary = format!(in alloc; "gen {number} lines 307 tick ")?;
    Ok(
        ended.status == Status::Done
            && ended.notes == 1
            && ended.has_tower
            && ended.written.starts_with(summary.as_bytes()),
    )
}

/// The first of some numbers whose run is not done, where there is one.
fn other_than_done<'a>(alloc: Global, numbers: &[&'a str]) -> Result<Option<&'a str>, Fail> {
    for number in numbers {
        if !is_done(alloc, number)? {
            return Ok(Some(number));
        }
    }
    Ok(None)
}

// A dozen runs, in four tests: a build that checks each address takes up to forty seconds for three of them.

#[test]
fn the_inputs_drawn_from_0_to_2_are_done(rt: HostRuntime) -> Result<(), Fail> {
    assert_eq!(rt; other_than_done(rt.alloc(), &["0", "1", "2"])?, None);
    Ok(())
}

#[test]
fn the_inputs_drawn_from_3_to_5_are_done(rt: HostRuntime) -> Result<(), Fail> {
    assert_eq!(rt; other_than_done(rt.alloc(), &["3", "4", "5"])?, None);
    Ok(())
}

#[test]
fn the_inputs_drawn_from_6_to_8_are_done(rt: HostRuntime) -> Result<(), Fail> {
    assert_eq!(rt; other_than_done(rt.alloc(), &["6", "7", "8"])?, None);
    Ok(())
}

#[test]
fn the_inputs_drawn_from_9_to_11_are_done(rt: HostRuntime) -> Result<(), Fail> {
    assert_eq!(rt; other_than_done(rt.alloc(), &["9", "10", "11"])?, None);
    Ok(())
}

/// All that a run with these words writes.
fn written_by(alloc: Global, words: &[&str], input: &str) -> Result<Vec<u8>, Fail> {
    Ok(ended_of(alloc, words, input, &[], &[])?.written)
}

#[test]
fn the_run_of_a_drawn_input_is_the_same_each_time(rt: HostRuntime) -> Result<(), Fail> {
    let alloc = rt.alloc();
    let first = written_by(alloc, &["gen", "7"], "")?;
    let second = written_by(alloc, &["gen", "7"], "")?;
    assert!(rt; first.as_slice() == second.as_slice());
    Ok(())
}

/// The lines that ask for all that the IPC processes of the input drawn from 7 wrote off: it has four nodes.
const LEDGERS_OF_7: &str = "ledger low n0
ledger low n1
ledger low n2
ledger low n3
ledger high n0
ledger high n1
ledger high n2
ledger high n3
";

/// And of the input drawn from 11: it has three nodes.
const LEDGERS_OF_11: &str = "ledger low n0
ledger low n1
ledger low n2
ledger high n0
ledger high n1
ledger high n2
";

/// What is shown of a number, and these lines behind it.
fn shown_with(alloc: Global, number: &str, lines: &str) -> Result<String, Fail> {
    let shown = written_by(alloc, &["show", number], "")?;
    let shown = str::from_utf8(shown.as_slice())?;
    Ok(format!(in alloc; "{shown}{lines}")?)
}

/// How many notes have this word.
fn times_told(notes: &[u8], word: &[u8]) -> usize {
    let mut times = 0usize;
    for note in notes.lines() {
        if note.contains_str(word) {
            times = times.saturating_add(1);
        }
    }
    times
}

/// The summary that these notes of a run come to, behind whose lines the ledgers are asked for: the tick at its end, and how many
/// notes tell of an SDU that was sent, of one that was got, of a refused line, of a write-off, and of an end that failed.
fn summed(alloc: Global, number: &str, notes: &str) -> Result<String, Fail> {
    let tick = notes.split_once("\nend ").ok_or("no end")?.1.trim_end();
    let notes = notes.as_bytes();
    let sent = times_told(notes, b" sent ");
    let got = times_told(notes, b" got ");
    let refused = times_told(notes, b" no ");
    let off = times_told(notes, b" off ");
    let failed = times_told(notes, b" failed ");
    Ok(format!(in alloc;
        "gen {number} lines 307 tick {tick} sent {sent} got {got} refused {refused} off {off} failed {failed}\n"
    )?)
}

/// Whether the counts that are told of the input that a number draws are those of a run of what is shown of it, where these lines
/// ask for its ledgers.
fn is_summed_up(alloc: Global, number: &str, ledgers: &str) -> Result<bool, Fail> {
    let input = shown_with(alloc, number, ledgers)?;
    let notes = written_by(alloc, &["run"], input.as_str())?;
    let summary = summed(alloc, number, str::from_utf8(notes.as_slice())?)?;
    let drawn = written_by(alloc, &["gen", number], "")?;
    Ok(drawn.as_slice() == summary.as_bytes())
}

#[test]
fn the_summary_of_7_has_the_counts_of_its_run(rt: HostRuntime) -> Result<(), Fail> {
    assert!(rt; is_summed_up(rt.alloc(), "7", LEDGERS_OF_7)?);
    Ok(())
}

#[test]
fn the_summary_of_11_has_the_counts_of_its_run(rt: HostRuntime) -> Result<(), Fail> {
    assert!(rt; is_summed_up(rt.alloc(), "11", LEDGERS_OF_11)?);
    Ok(())
}
