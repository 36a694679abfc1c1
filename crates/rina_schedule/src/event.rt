//! The events that the lines of a schedule ask for.
use rina_base::{AppName, Bytes, Name, ObjectName, Tick};
use rina_cube::Want;

/// An event. There is one variant for each word of a schedule, with the fields of its line in order.
/// `fac` is the name of a facility, which is a wire or a DIF; the name determines its rank.
#[derive(Drop)]
pub enum Event {
    /// Registers an application at a node.
    Register {
        fac: Name,
        node: Name,
        app: AppName,
    },
    /// Unregisters an application at a node.
    Unregister {
        fac: Name,
        node: Name,
        app: AppName,
    },
    /// Requests a flow to the application `to`, and gives its port the label.
    Alloc {
        label: Name,
        fac: Name,
        node: Name,
        app: AppName,
        to: AppName,
        want: Want,
    },
    /// Accepts the oldest flow that others requested to an application, and gives its port the label.
    Accept {
        label: Name,
        fac: Name,
        node: Name,
        app: AppName,
    },
    /// Sends an SDU on a flow.
    Send {
        label: Name,
        bytes: Bytes,
    },
    /// Reads all SDUs that have arrived on a flow.
    Read {
        label: Name,
    },
    /// Shows the state of a port.
    State {
        label: Name,
    },
    /// Deallocates a flow.
    Free {
        label: Name,
    },
    /// Lets `count` ticks pass, 1 to 100,000.
    Tick {
        count: u32,
    },
    /// Loses the first copy of frame `frame` that is in flight.
    Lose {
        wire: Name,
        frame: u32,
    },
    /// Adds a copy of frame `frame`, which arrives at tick `at`.
    Repeat {
        wire: Name,
        frame: u32,
        at: Tick,
    },
    /// Delays the first copy of frame `frame` that is in flight until tick `at`.
    Hold {
        wire: Name,
        frame: u32,
        at: Tick,
    },
    /// Cuts a wire.
    Cut {
        wire: Name,
    },
    /// Mends a wire.
    Mend {
        wire: Name,
    },
    /// Registers the IPC process at a node in a facility of the rank below.
    Publish {
        dif: Name,
        node: Name,
        fac: Name,
    },
    /// Enrols the IPC process at a node in its DIF, with the member at the node `peer`.
    Enrol {
        dif: Name,
        node: Name,
        fac: Name,
        peer: Name,
    },
    /// Shows the state of a member.
    Member {
        dif: Name,
        node: Name,
    },
    /// Runs one step of an IPC process, which takes a PDU from a link.
    In {
        dif: Name,
        node: Name,
        link: u32,
    },
    /// Runs one step of an IPC process, which gives a PDU to a link.
    Out {
        dif: Name,
        node: Name,
        link: u32,
    },
    /// Runs one step of the clock of an IPC process.
    Clock {
        dif: Name,
        node: Name,
    },
    /// Runs one round of all steps.
    Round,
    /// Withdraws a policy.
    Retire {
        policy: Name,
    },
    /// Gives a CDAP message to the RIB of a member.
    Cdap {
        dif: Name,
        node: Name,
        bytes: Bytes,
    },
    /// Shows the objects of a member's RIB, from the name `path` on where it is given.
    Rib {
        dif: Name,
        node: Name,
        path: Option<ObjectName>,
    },
    /// Shows the write-offs of a member.
    Ledger {
        dif: Name,
        node: Name,
    },
    /// Shows the journal of a facility.
    Journal {
        fac: Name,
    },
}
