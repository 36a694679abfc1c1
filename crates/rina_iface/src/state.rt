//! The states of a port.
use rina_base::{Num, Port, Tick};

/// Which end of a flow: the one that asked for it, or the one that was asked.
#[derive(Clone, Copy, Debug, PartialEq, Eq)]
pub enum Role {
    Asker,
    Far,
}

/// Why a flow was refused.
#[derive(Clone, Copy, Debug, PartialEq, Eq)]
pub enum Why {
    /// The access rule of this number, at the far member, denies the asker.
    Denied { rule: u32 },
    /// The application is not registered at the far member any more, or the ask came too late.
    NotHere,
    /// The far member has no free CEP-id: `used` are in use or at rest.
    NoIds { used: u32 },
    /// No answer came in time.
    Timeout { asked: Tick, now: Tick },
    /// The asker freed the port while it was pending.
    Withdrawn,
}

/// Why a flow failed.
#[derive(Clone, Copy, Debug, PartialEq, Eq)]
pub enum Fail {
    /// The piece `num`, first sent at `first`, was never acknowledged, and is not sent again.
    GaveUp { num: Num, first: Tick, now: Tick },
    /// The last link of the IPC process failed, which is this port of the rank below.
    Below { port: Port },
    /// The wire was cut.
    Cut { at: Tick },
}

/// The state of a port. It moves from Pending to Allocated or Refused, and from Allocated to Failed
/// or Closed.
#[derive(Clone, Copy, Debug, PartialEq, Eq)]
pub enum PortState {
    Pending,
    Allocated,
    Refused(Why),
    Failed(Fail),
    Closed,
}
