//! The lines of a schedule: the event that a line asks for, or the first error of a line outside the grammar.
#![tactic(auto)]

mod bytes;
mod error;
mod event;
mod field;
mod laws;
mod line;
mod print;
mod text;
mod words;

pub use bytes::{read_bytes, read_printed};
pub use error::LineError;
pub use event::Event;
pub use field::next_field;
pub use laws::{
    the_error_of_a_line_is_the_first, what_is_printed_is_read, what_is_read_is_printed,
    what_is_told_of_a_line_is_so,
};
pub use line::read_line;
pub use print::print_line;
pub use rina_base::ObjectName;
pub use text::Text;
