//! The emulator: the words are the command line's, the input is standard input, and the notes go to
//! standard output. Nothing else is printed.
#![tactic(auto)]

mod exit;
mod policies;

use exit::exit_code;
use policies::run_with_built_in;
use rina_io::{StdSink, StdSource, read_words};
use rina_run::Status;
use std::io;
use std::process::ExitCode;

fn main(rt: HostRuntime) -> ExitCode {
    let alloc = rt.alloc();
    let Ok(words) = read_words(alloc, &rt) else {
        return ExitCode::from(exit_code(Status::Memory));
    };
    let mut input = StdSource::new(rt.reader());
    let mut out = StdSink::new(io::writer(&rt));
    let answer = run_with_built_in(alloc, words.as_slice(), &mut input, &mut out);
    ExitCode::from(exit_code(answer.unwrap_or(Status::Memory)))
}
