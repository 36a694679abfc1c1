//! Notes: the output of a run, one line of text each. This crate defines, prints and reads them.
#![tactic(auto)]

mod answer;
mod cause;
mod laws;
mod note;
mod print;
mod read;
mod refusal;
mod state;
mod step;

pub use answer::{Answer, FlowNote};
pub use cause::CauseNote;
pub use laws::{
    the_error_of_a_note_is_the_first, what_is_printed_is_read, what_is_read_is_printed,
    what_is_told_of_a_note_is_so,
};
pub use note::{Fault, Note, Notes};
pub use print::{add_line, print_note};
pub use read::read_note;
pub use refusal::Refusal;
pub use state::{FailNote, MemberNote, PortNote, StateNote};
pub use step::{ClockNote, TookNote};
