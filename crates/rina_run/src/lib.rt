//! The top call: a stack and a schedule are read, run, and printed.
#![tactic(auto)]

mod check;
mod closing;
mod command;
mod drawn;
mod input;
mod lines;
mod opening;
mod outcome;
mod output;
mod reading;
mod show;
mod summary;
mod top;

pub use outcome::{Outcome, Status};
pub use top::run;
