//! Random inputs. A number seeds the generator of an input, a stack and a schedule, which `show N` prints and
//! `gen N` runs.
#![tactic(auto)]

mod input;
mod listed;
mod schedule;
mod stack;

pub use input::{Flow, Input, Line, Link, Wire, draw_input};
pub use schedule::make;
