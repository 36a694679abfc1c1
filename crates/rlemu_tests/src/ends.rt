//! The top call once on its happy path, and ends that fail.
use crate::running::ended_of;
use rina_run::Status;
use std::test::Fail;

/// Two systems and one wire; nothing is written behind the mark.
const HELLO: &str = "nodes = [\"a\", \"b\"]
[[wire]]
name = \"w\"
ends = [\"a\", \"b\"]
delay = 2
life = 10
largest = 1500
%%
register w b echo
alloc p w a ping echo
accept q w b echo
send p 'hello
tick 2
read q
";

const HELLO_NOTES: &str = "1 0 ok
2 0 ok allocated
3 0 ok allocated
4 0 sent 0.0
5 2 ok
6 2 got 2 'hello
end 2
";

/// What is written where the second read fails: the lines before it ran.
const HELLO_CUT: &str = "1 0 ok
2 0 ok allocated
3 0 ok allocated
4 0 sent 0.0
5 2 ok
6 2 got 2 'hello
fault ReadFault
";

/// Which reads and writes fail, the status, all that is written, and whether the run had a tower.
type Row = (&'static [bool], &'static [bool], Status, &'static str, bool);

#[test]
fn a_run_ends_with_its_status(rt: HostRuntime) -> Result<(), Fail> {
    let rows: [Row; 5] = [
        (&[], &[], Status::Done, HELLO_NOTES, true),
        (&[true], &[], Status::ReadFault, "fault ReadFault\n", false),
        (&[false, true], &[], Status::ReadFault, HELLO_CUT, true),
        (&[], &[true], Status::WriteFault, "", true),
        (&[], &[false, true], Status::WriteFault, "1 0 ok\n", true),
    ];
    for (reads, writes, status, text, has_tower) in rows {
        let ended = ended_of(rt.alloc(), &["run"], HELLO, reads, writes)?;
        assert_eq!(rt; ended.status, status);
        assert_eq!(rt; ended.written.as_slice(), text.as_bytes());
        assert_eq!(rt; ended.has_tower, has_tower);
    }
    Ok(())
}

/// Two systems and one wire, with lines of which the second is outside the grammar.
const BAD_SECOND: &str = "nodes = [\"a\", \"b\"]
[[wire]]
name = \"w\"
ends = [\"a\", \"b\"]
delay = 2
life = 10
largest = 1500
%%
tick 1
tick x
";

/// What is written of them.
const BAD_SECOND_NOTES: &str = "1 1 ok
fault Schedule 2 3 1
";

#[test]
fn little_is_read_behind_the_line_that_ends_a_run(rt: HostRuntime) -> Result<(), Fail> {
    let alloc = rt.alloc();
    let mut input = String::from_str(alloc, BAD_SECOND)?;
    for _ in 0..10_000 {
        input.push_str("tick 1\n")?;
    }
    let bad = ended_of(alloc, &["run"], input.as_str(), &[], &[])?;
    assert_eq!(rt;
        bad.status,
        Status::Schedule {
            line: 2,
            n: 3,
            field: 1
        }
    );
    assert_eq!(rt; bad.written.as_slice(), BAD_SECOND_NOTES.as_bytes());
    assert!(rt; bad.left >= 60_000);
    let unwritten = ended_of(alloc, &["run"], input.as_str(), &[], &[true])?;
    assert_eq!(rt; unwritten.status, Status::WriteFault);
    assert!(rt; unwritten.left >= 60_000);
    Ok(())
}
