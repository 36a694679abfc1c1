//! The entries of a journal.
use rina_base::{Bytes, Num, Seq, Tick};

/// An SDU in a journal: when it was accepted or delivered, its number, and its bytes.
#[derive(Drop)]
pub struct Entry {
    pub tick: Tick,
    pub num: Num,
    pub bytes: Bytes,
}

/// Entries in the order of their ticks.
pub type Entries = Seq<Entry>;
