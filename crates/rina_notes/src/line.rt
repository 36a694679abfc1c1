//! The line of a schedule that is run.
use rina_stack::Plan;
use std::alloc::Global;

/// A line of a schedule: its number, the plan of the stack that it is run on, and where memory for it is taken from.
#[derive(Clone, Copy)]
pub struct Line<'a> {
    pub alloc: Global,
    pub plan: &'a Plan,
    /// Its place among the lines, from 1.
    pub number: u32,
}
