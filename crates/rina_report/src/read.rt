//! Reading notes, with one function for each kind of value. A function reads from the rest of a note, which
//! begins with the space before its next field, and gives a value and the rest of the note after it.
//! `LineError` counts the fields of a note from its word, which is field 0.

mod answer;
mod cause;
mod field;
mod last;
mod note;
mod refusal;
mod state;
mod value;

pub use note::read_note;
