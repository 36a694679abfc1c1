//! Lines of a schedule: each word, its other spellings, the first fault of a text that is none.
use rina_schedule::{Event, LineError, print_line, read_line};
use std::alloc::Global;
use std::process::Abort;

/// What stands before the bar of a row, and what behind it. A row without one stands for both.
pub(crate) fn parted(row: &[u8]) -> (&[u8], &[u8]) {
    for (place, byte) in row.iter().enumerate() {
        if *byte == b'|' && place < row.len() {
            return (&row[..place], &row[place + 1..]);
        }
    }
    (row, row)
}

/// The name of a fault, and its field.
fn named(fault: LineError) -> (&'static [u8], u32) {
    match fault {
        LineError::Memory => (b"Memory", 0),
        LineError::UnknownWord => (b"UnknownWord", 0),
        LineError::MissingField { n } => (b"MissingField", n),
        LineError::BadNumber { n } => (b"BadNumber", n),
        LineError::BadName { n } => (b"BadName", n),
        LineError::Extra { n } => (b"Extra", n),
        LineError::BadBytes { n } => (b"BadBytes", n),
    }
}

/// Whether this is how a row writes a fault: its name, a space, and the digit of its field.
pub(crate) fn is_fault(fault: LineError, written: &[u8]) -> bool {
    let (name, n) = named(fault);
    match written {
        [word @ .., b' ', digit] => word == name && u64::from(*digit) == u64::from(n) + 48,
        _ => false,
    }
}

fn prints(alloc: Global, event: &Event, printed: &[u8]) -> bool {
    match print_line(alloc, event) {
        Ok(text) => text.as_slice() == printed,
        Err(_) => false,
    }
}

/// Whether what is read of a line is printed so, is this fault, or is nothing where nothing is told.
fn is_told(alloc: Global, read: &[Result<Option<Event>, LineError>], told: &[u8]) -> bool {
    match read {
        [Ok(Some(event))] => prints(alloc, event, told),
        [Ok(None)] => told.is_empty(),
        [Err(fault)] => is_fault(*fault, told),
        _ => false,
    }
}

/// Whether a row tells what is read of its line. What is read stands in an array, which is dropped in one step.
fn is_so(alloc: Global, row: &[u8]) -> bool {
    let (line, told) = parted(row);
    let read = [read_line(alloc, line)];
    is_told(alloc, &read, told)
}

/// Asserts that each row of a table is so.
fn rows_are_so(rt: &impl Abort, alloc: Global, rows: &str) {
    for row in rows.lines() {
        assert!(rt; is_so(alloc, row.as_bytes()), "{row}");
    }
}

/// A line of each word, printed as it is read.
const LINES: &str = "\
register d a ping
unregister d a d/b
alloc p d a ping echo
alloc p d a ping echo ordered
alloc p d a ping echo ordered reliable within=40 size=1000
accept q d b echo
send p 'hello
send p x
send p x00ff7a20
read q
state q
free p
tick 100000
lose w 3
repeat w 0 15
hold w 4294967295 12
cut w
mend w
publish d a w
enrol d a w b
member d a
in d a 0
out d a 1
clock d a
round
retire least-loaded
cdap d a x0800
ledger d a
journal w";

/// Other spellings, a bar, and how they are printed.
const SPELLINGS: &str = "\
send p x68656c6C6f|send p 'hello
  tick   007 |tick 7
send p z3|send p x000000
send p z0|send p x
alloc p d a x y within=4294967295 size=0|alloc p d a x y
rib d a|rib d a
rib d a /|rib d a /
rib d a /dif/flow/1!2|rib d a /dif/flow/1!2";

/// Lines, a bar, and the first fault from the left, with its field.
const FAULTS: &str = "\
Register w b echo|UnknownWord 0
\tregister w b echo|UnknownWord 0
register w b|MissingField 3
register W b|BadName 1
register w b echo x|Extra 4
alloc p w a ping echo reliable ordered|Extra 7
alloc p w a ping echo ordered ordered|Extra 7
alloc p w a ping echo within=|BadNumber 6
alloc p w a ping echo size=1 within=2|Extra 7
alloc p w a ping echo ordered size=+1|BadNumber 7
send p '|BadBytes 2
send p x0|BadBytes 2
send p z65536|BadBytes 2
send p hello|BadBytes 2
tick 0|BadNumber 1
tick 100001|BadNumber 1
tick +1|BadNumber 1
tick -1|BadNumber 1
hold w 4294967296 1|BadNumber 2
hold w 0|MissingField 3
retire Round|BadName 1
rib d b user|BadName 3
rib d b /a//b|BadName 3
round 1|Extra 1";

/// Lines that are blank or remarks, and a bar.
const REMARKS: &str = "\
#|
|
   |
  # send p|";

#[test]
fn lines_are_read_and_printed_or_have_a_first_fault(rt: HostRuntime) {
    rows_are_so(&rt, rt.alloc(), LINES);
    rows_are_so(&rt, rt.alloc(), SPELLINGS);
    rows_are_so(&rt, rt.alloc(), FAULTS);
    rows_are_so(&rt, rt.alloc(), REMARKS);
}
