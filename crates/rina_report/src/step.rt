//! Results of single steps, as notes show them.
use crate::cause::CauseNote;
use crate::state::PortNote;
use rina_base::{Cep, Num};

/// What a step did with a PDU that it took from a link.
#[derive(Drop)]
pub enum TookNote {
    Accepted,
    Relayed,
    /// It wrote the PDU off.
    Off(CauseNote),
}

/// What a step of the clock did.
#[derive(Drop)]
pub enum ClockNote {
    /// A link failed.
    LinkLost { link: u32 },
    /// A link came up.
    LinkNew { link: u32 },
    /// The state of a connection was discarded.
    Gone { cep: Cep },
    /// A connection failed, since this PDU was not acknowledged in time.
    GaveUp { num: Num },
    /// A request got no response in time.
    Timeout { port: PortNote },
    /// A connection sent an acknowledgement.
    Ack { cep: Cep },
    /// A PDU was retransmitted.
    Again { num: Num },
    /// A management message was sent on a link.
    Message { link: u32 },
}
