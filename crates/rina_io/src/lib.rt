//! What comes in and goes out: sources and sinks that count their faults, the lines of an input, and the words of the
//! command line.
#![tactic(auto)]

mod line_reader;
mod lines;
mod memory_ends;
mod sink;
mod source;
mod std_ends;
mod sure_ends;
mod whole;
mod words;

pub use line_reader::{CHUNK, LineReader, ReadError};
pub use lines::{all_lines, without_end};
pub use memory_ends::{MemSink, MemSource};
pub use sink::Sink;
pub use source::{Failed, Source};
pub use std_ends::{StdSink, StdSource};
pub use sure_ends::{SureSink, SureSource};
pub use whole::{Ending, LIMIT, Taken, take_all, write_all};
pub use words::read_words;
