//! Ports and states, as notes show them.
use rina_base::{Name, Num, Tick};
use rina_iface::Why;

/// A port, written FAC/NODE/N: the names of its facility and its node, and its number there.
#[derive(Drop)]
pub struct PortNote {
    pub fac: Name,
    pub node: Name,
    pub n: u32,
}

/// Why a flow failed.
#[derive(Drop)]
pub enum FailNote {
    /// The PDU `num`, first sent at `first`, was not acknowledged in time.
    GaveUp { num: Num, first: Tick, now: Tick },
    /// The last link of the IPC process failed; the link is this port of the rank below.
    Below { port: PortNote },
    /// The wire was cut.
    Cut { at: Tick },
}

/// The state of a port.
#[derive(Drop)]
pub enum StateNote {
    Pending,
    Allocated,
    Closed,
    Refused(Why),
    Failed(FailNote),
}

/// The state of a member of a DIF.
#[derive(Clone, Copy, Debug, PartialEq, Eq)]
pub enum MemberNote {
    /// It is not enrolled.
    Outside,
    /// It is enrolling over this link.
    Joining { link: u32 },
    Enrolled,
    /// The access rule with this number denied its enrolment.
    Denied { rule: u32 },
}
