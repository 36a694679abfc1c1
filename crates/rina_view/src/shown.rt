//! What journals and ledgers show.
use rina_base::{FlowName, Key, Name, Num, Seq, Tick};
use rina_iface::Role;
use rina_report::CauseNote;

/// An SDU in a journal.
#[derive(Clone, Copy, Debug, PartialEq, Eq)]
pub struct Entry {
    /// The tick at which it was sent or got.
    pub at: Tick,
    pub num: Num,
    /// How many bytes it has.
    pub len: u64,
}

/// An end of a flow in a journal.
#[derive(Drop)]
pub struct End {
    /// The line of the schedule that asked for the journal.
    pub line: u32,
    pub fac: Name,
    pub node: Name,
    pub flow: FlowName,
    pub role: Role,
    /// What it sent, in order.
    pub sent: Seq<Entry>,
    /// What it got, in order.
    pub got: Seq<Entry>,
}

/// A write-off in a ledger.
#[derive(Drop)]
pub struct Off {
    /// The line of the schedule that asked for the ledger.
    pub line: u32,
    pub key: Key,
    pub cause: CauseNote,
}
