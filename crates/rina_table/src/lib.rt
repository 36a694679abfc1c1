//! The tables of a stack: keys, types, names, ranges and references (rules 2, 3, 4, 6 and 7), each table read
//! into a row.
#![tactic(auto)]

mod dif;
mod dif_rows;
mod error;
mod fields;
mod keys;
mod rows;
mod scope;
mod sketch;
mod top;
mod value;
mod wire_rows;

pub use error::{StackError, check, check_difs, check_wires, first_dif_item};
pub use keys::key_fault;
pub use scope::{Places, Scope};
pub use sketch::{Rounds, Sketch, WireSketch};
pub use top::read_sketch;
pub use value::items_at;
