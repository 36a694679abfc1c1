//! What a designer asks of a stack before it is run: what each of its flows promises, and whether the way of the flow lets an SDU arrive.
#![tactic(auto)]

mod pairs;
mod program;
mod rows;
mod standing;
mod table;

pub use pairs::pairs_table;
pub use program::look;
pub use table::promises_table;
