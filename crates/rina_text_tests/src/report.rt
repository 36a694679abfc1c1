//! Notes: a text of each kind, read and printed, and the first fault of a text that is none.
use crate::schedule::{is_fault, parted};
use rina_report::{Answer, Note, print_note, read_note};
use rina_schedule::LineError;
use std::alloc::Global;
use std::process::Abort;

/// Whether a note is printed so.
fn prints(alloc: Global, note: &Note, printed: &[u8]) -> bool {
    match print_note(alloc, note) {
        Ok(text) => text.as_slice() == printed,
        Err(_) => false,
    }
}

/// Whether what is read of a text is printed so, or is this fault.
fn is_told(alloc: Global, read: &[Result<Note, LineError>], told: &[u8]) -> bool {
    match read {
        [Ok(note)] => prints(alloc, note, told),
        [Err(fault)] => is_fault(*fault, told),
        _ => false,
    }
}

/// Whether a row tells what is read of its text. What is read stands in an array, which is dropped in one step.
fn is_so(alloc: Global, row: &[u8]) -> bool {
    let (text, told) = parted(row);
    let read = [read_note(alloc, text)];
    is_told(alloc, &read, told)
}

/// Asserts that each row of a table is so.
fn rows_are_so(rt: &impl Abort, alloc: Global, rows: &str) {
    for row in rows.lines() {
        assert!(rt; is_so(alloc, row.as_bytes()), "{row}");
    }
}

/// Whether the first run begins and ends with these notes.
fn first_run_is_so(alloc: Global) -> bool {
    let notes = [
        Note::Line {
            line: 1,
            tick: 0,
            answer: Answer::Done,
        },
        Note::End { tick: 2 },
    ];
    prints(alloc, &notes[0], b"1 0 ok") && prints(alloc, &notes[1], b"end 2")
}

#[test]
fn the_first_run_begins_and_ends_so(rt: HostRuntime) {
    assert!(rt; first_run_is_so(rt.alloc()));
}

/// A text of each kind, one a line.
const TEXTS: &str = "\
1 0 ok
2 0 ok pending
2 0 ok allocated
2 0 ok closed
2 0 ok refused Denied 2
2 0 ok refused NotHere
2 0 ok refused NoIds 255
2 0 ok refused Timeout 3 503
2 0 ok refused Withdrawn
2 0 ok failed GaveUp 7.18446744073709551615 4 64
2 0 ok failed Below w/a/1
2 0 ok failed Cut 9
3 0 ok outside
3 0 ok joining 1
3 0 ok enrolled
3 0 ok denied 2
4 1 none
4 1 sent 1.0
4 1 got 3 'hello
4 1 got 3 x
4 1 got 3 x00ff
5 1 in data 1.2.3 accepted
5 1 in ack 1.2.3 relayed
5 1 in data 1.2.3 off Duplicate 2.3
5 1 in data 1.2.3 off NoState 0
6 1 out data 1.2.3
6 1 out data 1.2.3 off NoRoute 9
6 1 held WindowShut 2 1
6 1 held NotAllocated none
6 1 held NotAllocated failed Cut 3
6 1 idle
7 1 clock link-lost 1
7 1 clock link-new 1
7 1 clock gone 3
7 1 clock gave-up 3.0
7 1 clock timeout d/a/2
7 1 clock ack 3
7 1 clock again 3.1
7 1 clock message 0
8 1 cdap x0800
9 1 obj / folder x
9 1 obj /dif/flow/1!2 flow '2
9 1 obj /dif/name value '2
9 1 obj /dif/cube/1 cube '2
9 1 obj /dif service x
10 1 off data 1.2.3 Expired 0 1
10 1 off data 1.2.3 QueueFull 64
10 1 off data 1.2.3 NoConnection 3
10 1 off data 1.2.3 Behind 9
10 1 off data 1.2.3 NoRoom 64
10 1 off data 1.2.3 StateGone 7
10 1 off data 1.2.3 Broken 1
10 1 off ack 1.2.3 LinkDown w/a/1
11 1 flow 1.0.0 asker w/a/1 ping echo 0 1 allocated
11 1 flow 1.0.0 far d/b/2 echo d/a 255 0 closed
11 1 s 0 0.0 'hello
11 1 g 2 0.0 'hello
12 1 no Unknown 2
12 1 no NoWire
12 1 no NoPolicy
12 1 no LabelUsed
12 1 no ClockSpent
12 1 no NoIpc
12 1 no Already
12 1 no NoMember
12 1 no CountSpent 3 2
12 1 no NotThere
12 1 no NoCube
12 1 no NoSuchApp
12 1 no SameSystem
12 1 no NoIds 255
12 1 no NoRoute 0
12 1 no NotAllocated refused NotHere
12 1 no TooLong 1501 1500
12 1 no WindowShut 2 1
12 1 no QueueFull 2 1
12 1 no NumbersSpent 1200
12 1 no NoPort
12 1 no NoFrame 18446744073709551615
12 1 no EarlyHold 9
12 1 no LateHold 12
12 1 no NoLink
12 1 no Enrolling 1
12 1 no LinksFull 256
12 1 no Short 4
12 1 no BadTag 0
12 1 no BadOp 9
12 1 no Twice 1
12 1 no Missing 1
12 1 no BadValue 3
12 1 no NoRank
12 1 no NotYours
12 1 no Busy w/a/1
12 1 no Failed Cut 3
13 1 state p closed
end 2
fault Usage 1
fault TooLarge
fault NotToml
fault StackRule 4 1
fault Schedule 2 3 1
fault ReadFault
checked 2 1 0 6
gen 1 lines 307 tick 5 sent 4 got 3 refused 2 off 1 failed 0";

/// Texts that are no notes, a bar, and the first fault, with its field.
const FAULTS: &str = "\
|UnknownWord 0
ok|UnknownWord 0
1 ok|UnknownWord 0
1 0|UnknownWord 0
01 0 ok|UnknownWord 0
1 +0 ok|UnknownWord 0
1 0 okay|UnknownWord 0
1 0  ok|UnknownWord 0
1 0 ok |BadName 1
1 0 sent|MissingField 1
1 0 sent 0|BadNumber 1
1 0 sent 0.01|BadNumber 1
1 0 sent 0.0 1|Extra 2
1 0 got 2 hello|BadBytes 2
1 0 got 2 x68|BadBytes 2
1 0 got 2 xFF|BadBytes 2
1 0 got 2 z1|BadBytes 2
1 0 in date 1.2.3 accepted|BadName 1
1 0 no Busy W/a/1|BadName 2
1 0 no Busy w/a|BadNumber 2
1 0 no CountSpent 4|MissingField 3
1 0 in data 1.2.3 off NoState 2|BadNumber 5
end|MissingField 1
checked 2 1 0 6 0|Extra 5";

#[test]
fn texts_are_read_and_printed_or_have_a_first_fault(rt: HostRuntime) {
    rows_are_so(&rt, rt.alloc(), TEXTS);
    rows_are_so(&rt, rt.alloc(), FAULTS);
}
