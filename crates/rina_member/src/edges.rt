//! The links of a static DIF as edges between addresses.
ghost use Rattle.std.specs.Prelude.{◌≡◌, IfOk};
ghost use Rattle.rina_member.specs.Routing.{addr_at, edge_back, edge_between, edge_from, edge_there, edges_from};

use rina_base::Addr;
use rina_data::Member;
use rina_graph::Edge;
use rina_plan::LinkPlan;
use std::alloc::{AllocError, Global};

/// The address of the member at a node. None exactly where none stands there.
pub fn addr_at(members: &[Member], node: usize) -> Option<Addr>
    ensures { result ≡ addr_at members.now node }
{
    let member = members
        .iter()
        .find(|member| usize::from(member.node) == node)?;
    Some(member.addr)
}

/// The edge from the member at one node to that at another.
fn edge_between(members: &[Member], a: usize, b: usize, weight: u16) -> Option<Edge>
    ensures { result ≡ edge_between members.now a b weight }
{
    let from = addr_at(members, a)?;
    let to = addr_at(members, b)?;
    Some(Edge { from, to, weight })
}

/// A link as its first end claims it.
fn edge_there(members: &[Member], link: &LinkPlan) -> Option<Edge>
    ensures { result ≡ edge_there members.now link.now }
{
    edge_between(members, link.a, link.b, link.weight)
}

/// A link as its second end claims it.
fn edge_back(members: &[Member], link: &LinkPlan) -> Option<Edge>
    ensures { result ≡ edge_back members.now link.now }
{
    edge_between(members, link.b, link.a, link.weight)
}

/// A link as its end at a node claims it.
fn edge_from(members: &[Member], node: usize, link: &LinkPlan) -> Option<Edge>
    ensures { result ≡ edge_from members.now node link.now }
{
    if link.a == node {
        edge_there(members, link)
    } else if link.b == node {
        edge_back(members, link)
    } else {
        None
    }
}

/// The edges from the member at a node, in stack order.
pub fn edges_from(
    alloc: Global,
    members: &[Member],
    node: usize,
    links: &[LinkPlan],
) -> Result<Vec<Edge>, AllocError>
    ensures { IfOk result (λ v. v.items ≡ edges_from members.now node links.now) }
{
    links
        .iter()
        .filter_map(|link| edge_from(members, node, link))
        .collect(alloc)
}
