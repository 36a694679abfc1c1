//! A stack before all its rules are tried.

use rina_base::{Name, Seq, Storm};
use rina_plan::DifPlan;

/// A stack as it was read; rules that were not tried may be broken.
#[derive(Drop)]
pub struct Sketch {
    pub nodes: Seq<Name>,
    pub rounds: Rounds,
    pub wires: Seq<WireSketch>,
    pub difs: Seq<DifPlan>,
}

/// A wire as it was read.
#[derive(Drop)]
pub struct WireSketch {
    pub name: Name,
    /// The node at its first end.
    pub a: usize,
    /// The node at its second end.
    pub b: usize,
    pub delay: u32,
    pub life: u32,
    pub largest: u32,
    pub storm: Option<Storm>,
}

/// Who moves PDUs: the run in each tick (`Auto`), or the words of the schedule (`Manual`).
#[derive(Clone, Copy, Debug, PartialEq, Eq, Drop)]
pub enum Rounds {
    Auto,
    Manual,
}
