//! The outcome of a run.
use rina_report::Notes;
use rina_tower::Tower;

/// How a run ended.
#[derive(Clone, Copy, Debug, PartialEq, Eq)]
pub enum Status {
    /// All lines were run.
    Done,
    /// The word of the command line at this place, counted from 0, cannot stand there, or is missing.
    Usage { word: u32 },
    /// More than 16,777,216 bytes were read.
    TooLarge,
    /// The stack is no TOML.
    NotToml,
    /// The stack breaks rule `n`, first at item `item`.
    StackRule { n: u32, item: u32 },
    /// This line, counted from 1 behind the mark, is the first outside the grammar: it has error `n`
    /// at field `field`, the word being field 0.
    Schedule { line: u32, n: u32, field: u32 },
    /// A read failed.
    ReadFault,
    /// A write failed.
    WriteFault,
    /// An allocation failed.
    Memory,
}

/// The outcome of a run, beside the shelf: its status, the notes in order, and the tower as the run left
/// it, where a stack was accepted.
#[derive(Drop)]
pub struct Finish {
    pub status: Status,
    pub trace: Notes,
    pub tower: Option<Tower>,
}

/// The outcome of a command, beside the shelf: how it finished, and the notes of a run that are not written.
#[derive(Drop)]
pub struct Ended {
    pub finish: Finish,
    pub unwritten: Notes,
}

/// The outcome of a run: its status, the notes in order, the tower as the run left it, where a stack was
/// accepted, and the shelf that was handed in, as the steps of the run left it. For `gen` the tower is that of
/// the run of the drawn input, and `unwritten` has the notes of that run, which are not written.
#[derive(Drop)]
pub struct Outcome<P> {
    pub status: Status,
    pub trace: Notes,
    pub tower: Option<Tower>,
    pub unwritten: Notes,
    pub shelf: P,
}
