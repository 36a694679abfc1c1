//! Causes of write-offs, as notes show them.
use crate::state::PortNote;
use rina_base::{Addr, Cep, Num, Tick};

/// Why a PDU was written off, with the values that led to it.
#[derive(Drop)]
pub enum CauseNote {
    /// The remaining lifetime, in ticks, is less than the charge of this hop.
    Expired { left: u32, charge: u32 },
    /// The forwarding table has no next hop for this address.
    NoRoute { dst: Addr },
    /// The queue was full, with `cap` PDUs.
    QueueFull { cap: u32 },
    /// No open connection has this CEP-id, source and QoS-id.
    NoConnection { cep: Cep },
    /// The PDU was received before.
    Duplicate { num: Num },
    /// The PDU is too old: `highest` is the highest sequence number received.
    Behind { highest: u32 },
    /// The receiver has no state, and the PDU does not begin a run of PDUs.
    NoState { drf: bool },
    /// At least `cap` SDUs, the size of the window, wait to be read.
    NoRoom { cap: u32 },
    /// The receiver's state expired; `last_in` is the tick of the last PDU that renewed it.
    StateGone { last_in: Tick },
    /// Its SDU cannot be reassembled: the PDU with this number is missing.
    Broken { missing: u32 },
    /// The port of the flow below is no longer allocated.
    LinkDown { port: PortNote },
}
