//! What a DIF consists of, with names resolved to numbers.
use rina_access::Rule;
use rina_base::{Addr, Name, Seq};
use rina_cube::Cube;
use rina_pci::Widths;

/// A DIF. Nodes, wires and DIFs are named by their places in the stack, counted from 0.
#[derive(Drop)]
pub struct DifPlan {
    pub name: Name,
    /// 1 to 8; a wire has rank 0.
    pub rank: u8,
    /// Whether all its members, links and flows are there from the start.
    pub is_static: bool,
    /// The most bytes of a protected PDU, 18 to 4,096.
    pub pdu: u32,
    /// How many bytes the fields of its PDUs have.
    pub widths: Widths,
    /// How many PDUs a queue holds, 1 to 256.
    pub queue: u32,
    /// The name of the policy that serves its queues.
    pub policy: Name,
    /// How many ticks the asker for a flow waits for the answer, 1 to 1,000,000.
    pub wait: u32,
    /// The reliable cube of its management connections, with id 0.
    pub manage: Cube,
    pub cubes: Seq<Cube>,
    /// Its members; where it is not static the first one is enrolled from the start.
    pub members: Seq<MemberPlan>,
    /// Whether an act is allowed where no rule matches.
    pub allow: bool,
    /// The rules of access control, tried from the first on.
    pub rules: Seq<Rule>,
    pub links: Seq<LinkPlan>,
    pub flows: Seq<FlowPlan>,
}

/// A member of a DIF.
#[derive(Clone, Copy, Debug, PartialEq, Eq, Drop)]
pub struct MemberPlan {
    /// The node that it stands on.
    pub node: usize,
    pub addr: Addr,
}

/// The facility that a link is on.
#[derive(Clone, Copy, Debug, PartialEq, Eq, Drop)]
pub enum Lower {
    Wire(usize),
    Dif(usize),
}

/// A link between two members, which is a flow of a facility below. The member at `a` counts as the
/// asker.
#[derive(Clone, Copy, Debug, PartialEq, Eq, Drop)]
pub struct LinkPlan {
    pub on: Lower,
    /// The node of its first end.
    pub a: usize,
    /// The node of its second end.
    pub b: usize,
    /// 1 to 65,535.
    pub weight: u16,
    /// The id of the cube of the facility below; 0 for a wire.
    pub cube: u8,
}

/// An end of a flow that is there from the start.
#[derive(Drop)]
pub struct EndPlan {
    pub node: usize,
    pub app: Name,
    pub label: Name,
}

/// A flow that is there from the start.
#[derive(Drop)]
pub struct FlowPlan {
    /// The id of its cube.
    pub cube: u8,
    /// The end that counts as the asker.
    pub from: EndPlan,
    pub to: EndPlan,
}

/// What the rules on DIFs read of a wire: its two nodes, and its largest SDU in bytes.
#[derive(Clone, Copy, Debug, PartialEq, Eq, Drop)]
pub struct WireEnds {
    pub a: usize,
    pub b: usize,
    pub largest: u32,
}
