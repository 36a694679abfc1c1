//! Looks at what a run printed, or at a stack: the words are the command line's, the input is standard input, and the answer goes to standard output.
//! Nothing else is printed.
#![tactic(auto)]

use rina_io::{StdSink, StdSource, read_words};
use rina_view::Status;
use std::io;
use std::process::ExitCode;

/// The exit status that stands for a status.
fn exit_code(status: Status) -> u8 {
    match status {
        Status::Done => 0,
        Status::Usage => 1,
        Status::Refused => 2,
        Status::ReadFault => 3,
        Status::WriteFault => 4,
        Status::Memory => 5,
    }
}

/// Whether the first word asks for the promises of a stack; any other asks to look at notes.
fn is_of_stacks(words: &[String]) -> bool {
    match words.first() {
        Some(word) => word.as_str() == "promises",
        None => false,
    }
}

fn main(rt: HostRuntime) -> ExitCode {
    let alloc = rt.alloc();
    let Ok(words) = read_words(alloc, &rt) else {
        return ExitCode::from(exit_code(Status::Memory));
    };
    let mut input = StdSource::new(rt.reader());
    let mut out = StdSink::new(io::writer(&rt));
    let words = words.as_slice();
    let status = if is_of_stacks(words) {
        rina_promises::look(alloc, words, &mut input, &mut out)
    } else {
        rina_chart::look(alloc, words, &mut input, &mut out)
    };
    ExitCode::from(exit_code(status))
}
