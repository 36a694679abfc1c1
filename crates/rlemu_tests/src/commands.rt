//! The words of the command line, and what `check` and `show` do beside telling.
use crate::running::ended_of;
use rina_run::Status;
use std::alloc::Global;
use std::test::Fail;

/// Words, and the place that is told of them.
type Row = (&'static [&'static str], u32);

#[test]
fn words_that_are_no_command_are_told(rt: HostRuntime) -> Result<(), Fail> {
    let alloc = rt.alloc();
    let rows: [Row; 23] = [
        (&[], 0),
        (&["go"], 0),
        (&["Run"], 0),
        (&["help", "run"], 0),
        (&["gene", "7"], 0),
        (&["run", "x"], 1),
        (&["check", "x"], 1),
        (&["check", "check", "x"], 1),
        (&["gen"], 1),
        (&["gen", "x"], 1),
        (&["gen", "07"], 1),
        (&["gen", "4294967296"], 1),
        (&["gen", "7", "x"], 2),
        (&["show"], 1),
        (&["show", ""], 1),
        (&["show", "07"], 1),
        (&["show", "00"], 1),
        (&["show", "+7"], 1),
        (&["show", "7x"], 1),
        (&["show", "4294967296"], 1),
        (&["show", "x", "y"], 1),
        (&["show", "7", "x"], 2),
        (&["show", "0", "0", "0"], 2),
    ];
    for (words, place) in rows {
        let ended = ended_of(alloc, words, "", &[], &[])?;
        assert_eq!(rt; ended.status, Status::Usage { word: place });
        let told = format!(in alloc; "fault Usage {place}\n")?;
        assert_eq!(rt; ended.written.as_slice(), told.as_bytes());
    }
    Ok(())
}

/// A stack and a line, and the same with a line outside the grammar.
const ONE_LINE: &str = "nodes = [\"a\"]\n%%\ntick 1\n";

const BAD_LINE: &str = "nodes = [\"a\"]\n%%\ntick x\n";

/// An input, which reads and writes fail, the status, and all that is written.
type CheckRow = (
    &'static str,
    &'static [bool],
    &'static [bool],
    Status,
    &'static str,
);

/// What is told of a line whose number is none.
const NO_NUMBER: Status = Status::Schedule {
    line: 1,
    n: 3,
    field: 1,
};

#[test]
fn a_check_tells_why_reading_ended(rt: HostRuntime) -> Result<(), Fail> {
    let rows: [CheckRow; 5] = [
        (ONE_LINE, &[], &[], Status::Done, "checked 1 0 0 1\n"),
        (
            ONE_LINE,
            &[true],
            &[],
            Status::ReadFault,
            "fault ReadFault\n",
        ),
        (
            ONE_LINE,
            &[false, true],
            &[],
            Status::ReadFault,
            "fault ReadFault\n",
        ),
        (
            BAD_LINE,
            &[false, true],
            &[],
            NO_NUMBER,
            "fault Schedule 1 3 1\n",
        ),
        (ONE_LINE, &[], &[true], Status::WriteFault, ""),
    ];
    for (input, reads, writes, status, text) in rows {
        let ended = ended_of(rt.alloc(), &["check"], input, reads, writes)?;
        assert_eq!(rt; ended.status, status);
        assert_eq!(rt; ended.written.as_slice(), text.as_bytes());
        assert!(rt; !ended.has_tower);
    }
    Ok(())
}

/// The FNV-1a hash of some bytes, in 64 bits.
fn hash_of(bytes: &[u8]) -> u64 {
    let mut hash = 14_695_981_039_346_656_037u64;
    for byte in bytes {
        hash = (hash ^ u64::from(*byte)).wrapping_mul(1_099_511_628_211);
    }
    hash
}

/// A number as a word, which reads and writes fail, the status, and the length and hash of what is written.
type ShowRow = (
    &'static str,
    &'static [bool],
    &'static [bool],
    Status,
    usize,
    u64,
);

/// The hash of no bytes.
const OF_NOTHING: u64 = 14_695_981_039_346_656_037;

#[test]
fn what_is_shown_is_the_drawn_input(rt: HostRuntime) -> Result<(), Fail> {
    let rows: [ShowRow; 2] = [
        (
            "7",
            &[true],
            &[],
            Status::Done,
            5968,
            1_099_651_974_528_389_560,
        ),
        ("7", &[], &[true], Status::WriteFault, 0, OF_NOTHING),
    ];
    for (number, reads, writes, status, length, hash) in rows {
        let ended = ended_of(rt.alloc(), &["show", number], "", reads, writes)?;
        assert_eq!(rt; ended.status, status);
        assert_eq!(rt;
            (ended.written.len(), hash_of(ended.written.as_slice())),
            (length, hash)
        );
        assert!(rt; ended.notes == 0 && !ended.has_tower);
    }
    let greatest = ended_of(rt.alloc(), &["show", "4294967295"], "", &[], &[])?;
    assert_eq!(rt; greatest.status, Status::Done);
    Ok(())
}
