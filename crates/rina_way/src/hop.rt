//! One hop of a way: the next hop of an IPC process, and what it charges.
ghost use Rattle.std.specs.Prelude.{◌≡◌, ◌==◌, ◌<◌, length, option_map, find, position, IfSome};
ghost use Rattle.rina_data.specs.declared.settings.Member.{Member};
ghost use Rattle.rina_way.specs.Ways.{address, far_node, home, hop_at, hop_over, link_to, member_named, process_at};

use rina_base::{Addr, AppName, Node, Port};
use rina_data::{IpcProcess, Link, Member, live_link, next_link};
use rina_iface::Facility;

/// A hop: the link by which an IPC process sends what is for an address.
#[derive(Clone, Copy, Debug)]
pub struct Hop {
    /// The node of the IPC process.
    pub from: Node,
    pub link: Link,
    /// The node at the other end of the link.
    pub to: Node,
    /// What the hop charges a PDU at least, in ticks: what the flow below promises. The time that the PDU waits here is charged besides.
    pub charge: u32,
}

/// The place of the member at a node.
fn home(members: &[Member], node: Node) -> Option<usize>
    ensures place { result ≡ home node members.now }
    ensures within { IfSome result (λ i. i < length members.now) }
{
    members.iter().position(|member| member.node == node)
}

/// The address of the member at a node. None exactly where there is none.
pub fn address(members: &[Member], node: Node) -> Option<Addr>
    ensures { result ≡ address node members.now }
{
    let member = members.iter().find(|member| member.node == node)?;
    Some(member.addr)
}

/// The node of the member of a name.
fn member_named(members: &[Member], name: &AppName) -> Option<Node>
    ensures { result ≡ member_named name.now members.now }
{
    let member = members.iter().find(|member| member.name.is(name))?;
    Some(member.node)
}

/// The IPC process at a node.
fn process_at<'a>(
    members: &[Member],
    processes: &'a [IpcProcess],
    node: Node,
) -> Option<&'a IpcProcess>
    ensures { option_map (λ p. p.now) result ≡ process_at members.now processes.now node }
{
    let at = home(members, node)?;
    processes.get(at)
}

/// The link by which an IPC process sends what is for an address.
fn link_to(process: &IpcProcess, dst: Addr) -> Option<Link>
    ensures { result ≡ link_to dst process.now }
{
    let number = next_link(process.routes.as_slice(), dst)?;
    live_link(process.links.as_slice(), number)
}

/// The node at the other end of a flow below.
fn far_node<F: Facility>(below: &F, members: &[Member], port: Port) -> Option<Node>
    ensures { result ≡ far_node (F.seen below.now) members.now port }
{
    let journal = below.journal(port.fac)?;
    let end = journal.ends.find(port)?;
    member_named(members, &end.peer)
}

/// The hop over a link.
fn hop_over<F: Facility>(below: &F, members: &[Member], from: Node, link: Link) -> Option<Hop>
    requires { F.valid below.now }
    ensures { result ≡ hop_over (F.seen below.now) members.now from link }
{
    let to = far_node(below, members, link.port)?;
    let charge = below.promise(link.port)?;
    Some(Hop {
        from,
        link,
        to,
        charge,
    })
}

/// The next hop to an address, of the IPC process at a node of a DIF with these members and IPC processes over a rank below. None exactly
/// where the DIF has no member there, that one no next hop, or the link no other end.
pub fn hop_at<F: Facility>(
    below: &F,
    members: &[Member],
    processes: &[IpcProcess],
    dst: Addr,
    from: Node,
) -> Option<Hop>
    requires { F.valid below.now }
    ensures { result ≡ hop_at (F.seen below.now) members.now processes.now dst from }
{
    let process = process_at(members, processes, from)?;
    let link = link_to(process, dst)?;
    hop_over(below, members, from, link)
}
