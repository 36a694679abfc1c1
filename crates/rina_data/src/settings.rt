//! What never changes in a DIF.
use rina_base::{Addr, AppName, Name, Node, Seq};
use rina_cube::Cube;
use rina_pci::Widths;

/// An IPC process of a DIF.
#[derive(Drop)]
pub struct Member {
    pub addr: Addr,
    /// Its name in the rank below.
    pub name: AppName,
    /// The node that it stands on.
    pub node: Node,
    /// Its number among the IPC processes of the stack, counted from 0 over all DIFs.
    pub number: u32,
}

/// What never changes in a DIF.
#[derive(Drop)]
pub struct Settings {
    /// Its number among the facilities of its rank.
    pub fac: u16,
    pub members: Seq<Member>,
    pub cubes: Seq<Cube>,
    /// How many bytes the fields of its PDUs have.
    pub widths: Widths,
    /// The most bytes of a PDU behind its lifetime.
    pub pdu: u32,
    /// How many PDUs a queue holds.
    pub cap: u32,
    /// How many fixed flows a node may have.
    pub admits: u32,
    /// The name of the policy that serves the queues.
    pub policy: Name,
}
