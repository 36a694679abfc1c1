//! Access control: the ordered rules that say which applications may allocate flows, and which IPC
//! processes may enrol.
#![tactic(auto)]

mod rules;

pub use rules::{Act, Decision, Rule, Rules, Subject};
