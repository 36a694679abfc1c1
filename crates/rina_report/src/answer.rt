//! The answers that notes show behind the number of a line and the tick.
use crate::cause::CauseNote;
use crate::refusal::Refusal;
use crate::state::{MemberNote, PortNote, StateNote};
use crate::step::{ClockNote, TookNote};
use rina_base::{AppName, Bytes, Class, FlowName, Key, Name, Num, Tick};
use rina_iface::Role;
use rina_schedule::ObjectName;

/// One end of a flow in a journal.
#[derive(Drop)]
pub struct FlowNote {
    pub flow: FlowName,
    pub role: Role,
    pub port: PortNote,
    /// The application at this end.
    pub app: AppName,
    /// The application at the other end.
    pub peer: AppName,
    /// The QoS-id of the flow's cube, 0 on a wire.
    pub cube: u8,
    /// The number of SDUs that were passed to the application.
    pub taken: u64,
    pub state: StateNote,
}

/// The answer to a line, or an effect of it.
#[derive(Drop)]
pub enum Answer {
    /// The line was carried out.
    Done,
    /// The line was carried out; the port has this state.
    Port {
        state: StateNote,
    },
    /// The member has this state.
    Member {
        state: MemberNote,
    },
    /// There is nothing to show.
    Nothing,
    /// An SDU was accepted, under this number.
    Sent {
        num: Num,
    },
    /// An SDU was read, which arrived at this tick.
    Got {
        at: Tick,
        bytes: Bytes,
    },
    /// A step took a PDU from a link.
    In {
        key: Key,
        end: TookNote,
    },
    /// A step gave a PDU to a link.
    Out {
        key: Key,
    },
    /// A step wrote off the PDU that it was to give to a link.
    OutOff {
        key: Key,
        cause: CauseNote,
    },
    /// A step could not give a PDU to a link, and keeps it.
    Held {
        why: Refusal,
    },
    /// The result of a step of the clock.
    Clock {
        step: ClockNote,
    },
    /// A step had nothing to do.
    Idle,
    /// The CDAP message with which a RIB answered.
    Cdap {
        bytes: Bytes,
    },
    /// An object of a RIB.
    Object {
        name: ObjectName,
        class: Class,
        value: Bytes,
    },
    /// A write-off in a ledger.
    Off {
        key: Key,
        cause: CauseNote,
    },
    /// An end of a flow in a journal.
    Flow(FlowNote),
    /// An SDU that was sent at the end that a journal shows before it.
    SentEntry {
        at: Tick,
        num: Num,
        bytes: Bytes,
    },
    /// An SDU that was delivered at the end that a journal shows before it.
    GotEntry {
        at: Tick,
        num: Num,
        bytes: Bytes,
    },
    /// The line was refused.
    Refused {
        why: Refusal,
    },
    /// The port with this label changed to this state.
    Label {
        label: Name,
        state: StateNote,
    },
}
