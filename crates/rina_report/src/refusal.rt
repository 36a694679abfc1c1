//! The reasons for which a line is refused.
use crate::state::{FailNote, PortNote, StateNote};
use rina_base::{Addr, Tick};

/// Why a line was refused, by the call behind it or before that call was made. Where a call fails since an
/// inner call failed, this is the reason of the inner one.
#[derive(Drop)]
pub enum Refusal {
    /// Field `field` of the line is a name that the stack or the run does not have.
    Unknown { field: u32 },
    /// The stack has no wire of that name.
    NoWire,
    /// The shelf has no live policy of that name.
    NoPolicy,
    /// The label is in use.
    LabelUsed,
    /// The clock would pass 10,000,000.
    ClockSpent,
    /// The DIF has no member at that node.
    NoIpc,
    /// The name is registered at that node.
    Already,
    /// The node has no place in the facility.
    NoMember,
    /// The member needs `need` invoke ids or version counts, and has `left`.
    CountSpent { need: u32, left: u32 },
    /// The name is not registered at that node.
    NotThere,
    /// No QoS cube meets the request.
    NoCube,
    /// No system has registered the application.
    NoSuchApp,
    /// The application is registered at the requesting system itself.
    SameSystem,
    /// All `used` CEP-ids are in use or rest after use, or all `used` ports of the node are taken.
    NoIds { used: u32 },
    /// No route leads to that address, which is 0 on a wire that is cut.
    NoRoute { dst: Addr },
    /// The wire carries a flow already, with this port at the requesting node.
    Busy { port: PortNote },
    /// The port is not allocated; `state` is None where it does not exist.
    NotAllocated { state: Option<StateNote> },
    /// The flow failed.
    Failed { fail: FailNote },
    /// The SDU has `len` bytes; at most `max` are allowed.
    TooLong { len: u64, max: u32 },
    /// The SDU needs `need` PDUs, and the window has room for `room`.
    WindowShut { need: u32, room: u32 },
    /// The SDU needs `need` places in a queue that has `room`.
    QueueFull { need: u32, room: u32 },
    /// No sequence number is free until that tick.
    NumbersSpent { until: Tick },
    /// The port does not exist.
    NoPort,
    /// No copy of frame `frame` is in flight.
    NoFrame { frame: u64 },
    /// The tick is past: it is tick `now`.
    EarlyHold { now: Tick },
    /// The lifetime of the frame ends at tick `last`.
    LateHold { last: Tick },
    /// The member has no live link of that number.
    NoLink,
    /// An enrolment over this link is running.
    Enrolling { link: u32 },
    /// The member has `max` links, and can have no more.
    LinksFull { max: u32 },
    /// The field of a CDAP message that begins at byte `at` does not end within the bytes.
    Short { at: u64 },
    /// A CDAP message has a tag at byte `at` that is not allowed there.
    BadTag { at: u64 },
    /// A CDAP message has the operation `op`, which does not exist.
    BadOp { op: u32 },
    /// A CDAP message has this tag twice.
    Twice { tag: u32 },
    /// A CDAP message lacks this tag.
    Missing { tag: u32 },
    /// The content of the field with this tag of a CDAP message is malformed.
    BadValue { tag: u32 },
    /// The tower has no such rank.
    NoRank,
    /// The application is an IPC process.
    NotYours,
}
