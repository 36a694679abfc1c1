//! The words of a schedule: from what one line asks for to the calls behind it and its notes.
#![tactic(auto)]

mod cdap;
mod dif;
mod flow;
mod journal;
mod ledger;
mod line;
mod member;
mod policy;
mod read;
mod release;
mod rest;
mod rib;
mod round;
mod run;
mod wire;

pub use line::step;
pub use run::Run;
