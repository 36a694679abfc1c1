//! What a stack consists of, with names resolved to numbers.
ghost use Rattle.std.specs.Prelude.{◌≡◌, ◌<◌, length, position, IfSome};
ghost use Rattle.std.specs.Str.{bytes_eq};
ghost use Rattle.rina_stack.specs.declared.plan.WirePlan.{WirePlan};
ghost use Rattle.rina_table.specs.Names.{place_in};
ghost use Rattle.rina_stack.specs.Plan.{names_of, IsPlan};

use rina_base::{Name, Node, Seq, Storm};
use rina_plan::DifPlan;
use rina_table::Rounds;

/// A stack: its systems, the wires between them, and the DIFs above.
#[derive(Drop)]
pub struct Plan {
    /// The names of the systems; a `Node` is a place here.
    pub nodes: Seq<Name>,
    pub rounds: Rounds,
    /// The wires, which are the facilities of rank 0, in stack order.
    pub wires: Seq<WirePlan>,
    /// The DIFs, in stack order.
    pub difs: Seq<DifPlan>,
}

/// A wire between two systems.
#[derive(Drop)]
pub struct WirePlan {
    pub name: Name,
    /// The system at its first end.
    pub a: Node,
    /// The system at its second end, which is another one.
    pub b: Node,
    /// Ticks from the acceptance of a frame to its arrival, 1 to 100,000.
    pub delay: u32,
    /// Ticks that a frame lives at most, from `delay` to 100,000.
    pub life: u32,
    /// The largest SDU, in bytes: 1 to 65,535.
    pub largest: u32,
    pub storm: Option<Storm>,
}

fn place_of(names: &[Name], name: &[u8]) -> Option<usize>
    ensures place { result ≡ place_in names.now name.now }
    ensures within { IfSome result (λ i. i < length names.now) }
{
    names.iter().position(|other| other.as_bytes() == name)
}

fn first_wire(wires: &[WirePlan], name: &[u8]) -> Option<usize>
    ensures place { result ≡ position (λ (w : WirePlan). bytes_eq w.name name.now) wires.now }
    ensures within { IfSome result (λ i. i < length wires.now) }
{
    wires.iter().position(|wire| wire.name.as_bytes() == name)
}

fn place_of_wire(wires: &[WirePlan], name: &[u8]) -> Option<usize>
    ensures place { result ≡ place_in (names_of wires.now) name.now }
    ensures within { IfSome result (λ i. i < length wires.now) }
{
    first_wire(wires, name)
}

impl Plan {
    /// The system with a name; None where there is none.
    pub fn node(&self, name: &Name) -> Option<Node>
        requires { IsPlan self.now }
        ensures { result ≡ place_in self.now.nodes name.now }
    {
        let at = place_of(self.nodes.as_slice(), name.as_bytes())?;
        Some(at as u16)
    }

    /// The wire with a name, by its place among the wires; None where there is none.
    pub fn wire(&self, name: &Name) -> Option<u16>
        requires { IsPlan self.now }
        ensures { result ≡ place_in (names_of self.now.wires) name.now }
    {
        let at = place_of_wire(self.wires.as_slice(), name.as_bytes())?;
        Some(at as u16)
    }
}
