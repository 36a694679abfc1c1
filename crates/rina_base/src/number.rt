//! Ticks, addresses, CEP-ids, and the names of flows, ports and PDUs.

/// A point of the clock, in ticks from the start of a run.
pub type Tick = u32;

/// A system, by its place among the nodes of the stack.
pub type Node = u16;

/// The address of an IPC process in its DIF; 0 is no address.
pub type Addr = u32;

/// A connection-endpoint id of one IPC process; 0 is that of a link's management connection.
pub type Cep = u32;

/// The number of an SDU: the sender's CEP-id and the sequence number of its first piece.
/// On a wire the CEP-id is 0 and `seq` is the number of the frame.
#[derive(Clone, Copy, Debug, PartialEq, Eq)]
pub struct Num {
    pub cep: Cep,
    pub seq: u64,
}

/// The name of a flow in its facility: who asked, when, and how many that one had asked before.
/// On a wire `src` is the asking node's number plus one, and `count` counts the flows of the wire.
#[derive(Clone, Copy, Debug, PartialEq, Eq)]
pub struct FlowName {
    pub src: Addr,
    pub tick: Tick,
    pub count: u32,
}

/// A port: the number `n` (from 1) of a flow's end at a node, in facility `fac` of its rank.
#[derive(Clone, Copy, Debug, PartialEq, Eq)]
pub struct Port {
    pub fac: u16,
    pub node: Node,
    pub n: u32,
}

/// Which PDU a write-off or a step speaks of. `seq` is the acknowledged number for an acknowledgement.
#[derive(Clone, Copy, Debug, PartialEq, Eq)]
pub struct Key {
    pub kind: crate::pdu::PduKind,
    pub src: Addr,
    pub scep: Cep,
    pub seq: u32,
}
