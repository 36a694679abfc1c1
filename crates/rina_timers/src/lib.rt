//! Timers: for each of a fixed number of ids the tick at which it is set, and the next one that is due.
#![tactic(auto)]

mod chains;
mod timers;
mod wheel;

pub use timers::Timers;
