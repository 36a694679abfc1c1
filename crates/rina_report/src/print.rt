//! Printing notes, with one function for each kind of value.

mod answer;
mod cause;
mod named;
mod note;
mod refusal;
mod state;
mod step;
mod value;

pub use note::{add_line, print_note};
