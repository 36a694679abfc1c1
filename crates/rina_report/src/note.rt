//! The notes of a run.
use crate::answer::Answer;
use rina_base::{Seq, Tick};

/// Why a run ended before its last line.
#[derive(Clone, Copy, Debug, PartialEq, Eq)]
pub enum Fault {
    /// The word at this place of the command line, counted from 0, is not allowed there or is missing.
    Usage { word: u32 },
    /// The input has more than 16,777,216 bytes.
    TooLarge,
    /// The stack is not TOML.
    NotToml,
    /// The stack breaks rule `n`; `item` is the first item that does.
    StackRule { n: u32, item: u32 },
    /// The line is outside the grammar: it has error `n` at field `field`.
    Schedule { line: u32, n: u32, field: u32 },
    /// The input could not be read to its end.
    ReadFault,
}

/// A note, which is one line of text.
#[derive(Drop)]
pub enum Note {
    /// The answer to line number `line` of the schedule, counted from 1, or an effect of it, at this tick.
    Line {
        line: u32,
        tick: Tick,
        answer: Answer,
    },
    /// The run ended at this tick.
    End {
        tick: Tick,
    },
    /// The run ended before its last line.
    Fault(Fault),
    /// The counts of an input that was checked and not run. `lines` is the number of lines with an event.
    Checked {
        nodes: u32,
        wires: u32,
        difs: u32,
        lines: u32,
    },
    /// The summary of a generated run: its number, its lines, its last tick, and how many SDUs were sent,
    /// SDUs were read, lines were refused, PDUs were written off, and ends of applications failed.
    Gen {
        n: u32,
        lines: u32,
        tick: Tick,
        sent: u32,
        got: u32,
        refused: u32,
        off: u32,
        failed: u32,
    },
}

/// Notes in the order in which a run made them.
pub type Notes = Seq<Note>;
